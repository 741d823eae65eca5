// Bytes as text, and bytes of text.
ghost use Rattle.std.specs.Prelude.{◌≡◌, Some};
ghost use Rattle.bus_log.specs.Hexes.{hex_text, byte_of};
ghost use Rattle.bus_log.specs.Lines.{hex_of, joined};

use std::fmt;

/// Bytes as two upper-case hexadecimal digits each, a space before each.
#[derive(Clone, Copy)]
pub struct Hex<'a>(pub &'a [u8]);

impl fmt::Display for Hex<'_> {
    ghost output = { λ h. Some (hex_text h.0.now) };

    fn fmt<W: fmt::Write>(&self, f: &mut fmt::Formatter<W>) -> fmt::Result {
        for byte in self.0 {
            let byte = *byte;
            write!(f, " {byte:02X}")?;
        }
        Ok(())
    }
}

/// The value of a hexadecimal digit, in either case.
pub(crate) fn hex_of(byte: u8) -> Option<u8>
    ensures { result ≡ hex_of byte }
{
    Some(char::from(byte).to_digit(16)? as u8)
}

/// The byte of its high and its low half, of which the lowest four bits count.
pub(crate) fn joined(high: u8, low: u8) -> u8
    ensures { result ≡ joined high low }
{
    (high % 16) * 16 + low % 16
}

/// The byte of exactly two hexadecimal digits, in either case.
pub fn byte_of(digits: &[u8]) -> Option<u8>
    ensures { result ≡ byte_of digits.now }
{
    match digits {
        [high, low] => Some(joined(hex_of(*high)?, hex_of(*low)?)),
        _ => None,
    }
}
