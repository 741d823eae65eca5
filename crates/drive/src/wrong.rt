// What is wrong with a line of a script.
use std::alloc::{AllocError, AllocFailed};
use std::error::Error;
use std::fmt;

#[derive(Clone, Copy, Debug, PartialEq, Eq)]
pub enum Wrong {
    NotText,
    UnknownWord,
    UnknownPart,
    MissingWord,
    ExtraWord,
    /// No decimal number, or one above the most.
    Number { most: u64 },
    /// No bytes in hexadecimal digits, two a byte.
    Hex,
    /// A setting after the first call.
    Late,
    /// Replies or places, and a chip.
    TwoPorts,
    NoChip,
    NoCell,
    Memory,
}

impl From<AllocError> for Wrong {
    fn from(_error: AllocError) -> Wrong {
        Wrong::Memory
    }
}

impl<T: Drop> From<AllocFailed<T>> for Wrong {
    fn from(_refused: AllocFailed<T>) -> Wrong {
        Wrong::Memory
    }
}

impl fmt::Display for Wrong {
    fn fmt<W: fmt::Write>(&self, f: &mut fmt::Formatter<W>) -> fmt::Result {
        match *self {
            Wrong::NotText => write!(f, "not text"),
            Wrong::UnknownWord => write!(f, "neither a setting nor a call"),
            Wrong::UnknownPart => write!(f, "a part is 1G or 2G"),
            Wrong::MissingWord => write!(f, "a word is missing"),
            Wrong::ExtraWord => write!(f, "a word too many"),
            Wrong::Number { most } => write!(f, "not a decimal number from 0 to {most}"),
            Wrong::Hex => write!(f, "not bytes of two hexadecimal digits"),
            Wrong::Late => write!(f, "a setting after the first call"),
            Wrong::TwoPorts => write!(f, "both a tape and a chip"),
            Wrong::NoChip => write!(f, "no chip is set"),
            Wrong::NoCell => write!(f, "the chip has no such cell"),
            Wrong::Memory => write!(f, "out of memory"),
        }
    }
}

impl Error for Wrong {}
