// Answers as text.
use bus_log::hex::Hex;
use driver::script::Answer;
use std::fmt;

/// An answer, as this program prints it. A type of its own: the answer is declared in another crate.
#[derive(Drop)]
pub struct ShownAnswer<'a>(pub &'a Answer);

impl fmt::Display for ShownAnswer<'_> {
    fn fmt<W: fmt::Write>(&self, f: &mut fmt::Formatter<W>) -> fmt::Result {
        match self.0 {
            Answer::Done => write!(f, "done"),
            Answer::Slip(number) => write!(f, "slip {number}"),
            Answer::Byte(byte) => write!(f, "byte {byte:02X}"),
            Answer::Bytes(bytes) => write!(f, "bytes{}", Hex(bytes.as_slice())),
            Answer::Block(Some(block)) => write!(f, "block {block}"),
            Answer::Block(None) => write!(f, "no block"),
            Answer::Known(block) => write!(f, "{block}"),
            Answer::Refused(fault) => write!(f, "{fault}"),
            Answer::NotOffered => write!(f, "not offered"),
        }
    }
}
