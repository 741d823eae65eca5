// The lines of a log: read a byte at a time, and written.
ghost use Rattle.std.specs.Prelude.{◌≡◌, ◌<◌, codes, Some};
ghost use Rattle.std.specs.Str.{IsUtf8};
ghost use Rattle.bus_log.specs.Hexes.{hex_digit};
ghost use Rattle.bus_log.specs.Logs.{digit_of, line_for, log_text, ReadsBack};
ghost use Rattle.bus_log.specs.Lines.{is_space, kind_of, hex_of, begin, first_digit, second_digit, feed, finish};

use crate::hex::{hex_of, joined};
use flash::cycle::{Cycle, Kind};
use std::error::Error;
use std::fmt;

/// What has been read of a line. Spaces, tabs and carriage returns around it do not count.
#[derive(Clone, Copy)]
pub enum Scan {
    Blank,
    Comment,
    /// The kind digit.
    Kind { kind: Kind },
    /// The kind digit and the first of two hexadecimal digits.
    High { kind: Kind, high: u8 },
    /// All three, with no space among them.
    Whole { cycle: Cycle },
    /// No cycle, whatever follows: a state and no `Err`, since a line is read to its end.
    Bad,
}

/// The line is neither a cycle nor blank nor a comment.
#[derive(Clone, Copy, Debug)]
pub struct NotACycle;

impl fmt::Display for NotACycle {
    ghost output = { λ _. Some (codes "not a cycle") };

    fn fmt<W: fmt::Write>(&self, f: &mut fmt::Formatter<W>) -> fmt::Result {
        write!(f, "not a cycle")
    }
}

impl Error for NotACycle {}

fn is_space(byte: u8) -> bool
    ensures { result ≡ is_space byte }
{
    matches!(byte, b' ' | b'\t' | b'\r')
}

// No `TryFrom`, nor `From` for the way back: byte and kind are both types from elsewhere.
fn kind_of(byte: u8) -> Option<Kind>
    ensures { result ≡ kind_of byte }
{
    match byte {
        b'0' => Some(Kind::Command),
        b'1' => Some(Kind::Address),
        b'2' => Some(Kind::DataIn),
        b'3' => Some(Kind::DataOut),
        _ => None,
    }
}

impl Scan {
    fn begin(byte: u8) -> Scan
        ensures { result ≡ begin byte }
    {
        if is_space(byte) {
            return Scan::Blank;
        }
        if byte == b'#' {
            return Scan::Comment;
        }
        kind_of(byte).map_or(Scan::Bad, |kind| Scan::Kind { kind })
    }

    fn first_digit(kind: Kind, byte: u8) -> Scan
        ensures { result ≡ first_digit kind (hex_of byte) }
    {
        hex_of(byte).map_or(Scan::Bad, |high| Scan::High { kind, high })
    }

    fn second_digit(kind: Kind, high: u8, byte: u8) -> Scan
        ensures { result ≡ second_digit kind high (hex_of byte) }
    {
        hex_of(byte).map_or(
            Scan::Bad,
            |low| Scan::Whole {
                cycle: Cycle {
                    kind,
                    byte: joined(high, low),
                },
            },
        )
    }

    /// One byte more of the line.
    pub fn feed(self, byte: u8) -> Scan
        ensures { result ≡ feed self byte }
    {
        match self {
            Scan::Blank => Scan::begin(byte),
            Scan::Comment => Scan::Comment,
            Scan::Kind { kind } => Scan::first_digit(kind, byte),
            Scan::High { kind, high } => Scan::second_digit(kind, high, byte),
            Scan::Whole { .. } => if is_space(byte) { self } else { Scan::Bad },
            Scan::Bad => Scan::Bad,
        }
    }

    /// The line has ended; a blank line and a comment have no cycle.
    pub fn finish(self) -> Result<Option<Cycle>, NotACycle>
        ensures { result ≡ finish self }
    {
        match self {
            Scan::Blank | Scan::Comment => Ok(None),
            Scan::Whole { cycle } => Ok(Some(cycle)),
            Scan::Kind { .. } | Scan::High { .. } | Scan::Bad => Err(NotACycle),
        }
    }
}

fn hex_digit(value: u8) -> u8
    requires { value < 16 }
    ensures { result ≡ hex_digit value }
{
    b"0123456789ABCDEF"[usize::from(value)]
}

fn kind_digit(kind: Kind) -> u8
    ensures { result ≡ digit_of kind }
{
    match kind {
        Kind::Command => b'0',
        Kind::Address => b'1',
        Kind::DataIn => b'2',
        Kind::DataOut => b'3',
    }
}

/// A cycle as a line of text: the kind digit, two upper-case hexadecimal digits, a line feed.
pub fn line_for(cycle: Cycle) -> [u8; 4]
    ensures line { result ≡ line_for cycle }
    ensures back { ReadsBack cycle result }
    ensures text { IsUtf8 result }
{
    [
        kind_digit(cycle.kind),
        hex_digit(cycle.byte / 16),
        hex_digit(cycle.byte % 16),
        b'\n',
    ]
}

/// Cycles as a log: each as its line.
#[derive(Clone, Copy)]
pub struct Log<'a>(pub &'a [Cycle]);

impl fmt::Display for Log<'_> {
    ghost output = { λ l. Some (log_text l.0.now) };

    fn fmt<W: fmt::Write>(&self, f: &mut fmt::Formatter<W>) -> fmt::Result {
        for cycle in self.0 {
            let line = line_for(*cycle);
            // A line is text, as it promises: a test of it would take most of the time of a print.
            f.write_str(unsafe { str::from_utf8_unchecked(&line) })?;
        }
        Ok(())
    }
}
