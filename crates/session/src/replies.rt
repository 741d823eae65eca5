// The bytes that the chip is to give, read from text: two hexadecimal digits a line.
use bus_log::hex::byte_of;
use std::alloc::{AllocError, Global};
use std::io;
use std::io::Read;

const MOST: usize = 64;

// What has been read of a line. Spaces, tabs and carriage returns around its digits do not count. Not by
// `split`: a line may be of any length, and the memory for it does not grow.
#[derive(Clone, Copy)]
enum Line {
    Blank,
    High(u8),
    Reply(u8),
    Bad,
}

impl Line {
    fn feed(self, byte: u8) -> Line {
        match (self, byte) {
            (Line::Blank | Line::Reply(_), b' ' | b'\t' | b'\r') => self,
            (Line::Blank, high) => Line::High(high),
            (Line::High(high), low) => byte_of(&[high, low]).map_or(Line::Bad, Line::Reply),
            (Line::Reply(_) | Line::Bad, _) => Line::Bad,
        }
    }

    // The line has ended: whether it adds a reply.
    fn end(self, replies: &mut Vec<u8>) -> Result<bool, AllocError> {
        match self {
            Line::Reply(reply) if replies.len() < MOST => {
                replies.push(reply)?;
                Ok(true)
            }
            _ => Ok(false),
        }
    }
}

/// The replies in the text: at most 64, and none from the first line on that is not one. The text is read to
/// the end of the first line that adds none, in pieces.
pub fn read_replies<R: Read>(heap: Global, text: &mut R) -> io::Result<Vec<u8>> {
    let mut replies = Vec::new(heap);
    let mut line = Line::Blank;
    let mut piece = [0; 4096];
    for _ in 0..u64::MAX {
        let count = text.read(&mut piece)?;
        if count == 0 {
            break;
        }
        for byte in &piece[..count] {
            if *byte != b'\n' {
                line = line.feed(*byte);
            } else if line.end(&mut replies)? {
                line = Line::Blank;
            } else {
                return Ok(replies);
            }
        }
    }
    // The last line may lack its line feed.
    line.end(&mut replies)?;
    Ok(replies)
}
