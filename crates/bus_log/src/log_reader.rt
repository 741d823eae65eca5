// A log, read in pieces of any length.
ghost use Rattle.std.specs.Prelude.{◌≡◌, [], ◌∷◌, Some};
ghost use Rattle.bus_log.specs.Errors.{error_text};
ghost use Rattle.bus_log.specs.Logs.{standing, begun, Went};
ghost use Rattle.bus_log.specs.declared.log_reader.LogError.TheVariants.{Memory};

use crate::line::{NotACycle, Scan};
use flash::cycle::Cycle;
use std::alloc::{AllocError, AllocFailed};
use std::error::Error;
use std::fmt;

/// Why a log is not read on.
#[derive(Clone, Copy, Debug)]
pub enum LogError {
    /// The line of this number, counted from 1, is neither a cycle nor blank nor a comment.
    NotACycle { line: u64 },
    Memory,
}

impl fmt::Display for LogError {
    ghost output = { λ e. Some (error_text e) };

    fn fmt<W: fmt::Write>(&self, f: &mut fmt::Formatter<W>) -> fmt::Result {
        match self {
            LogError::NotACycle { line } => write!(f, "line {line}: {NotACycle}"),
            LogError::Memory => write!(f, "out of memory"),
        }
    }
}

impl Error for LogError {}

impl<T: Drop> From<AllocFailed<T>> for LogError {
    ghost from_gives = { λ _ e. e ≡ Memory };

    fn from(_refused: AllocFailed<T>) -> LogError {
        LogError::Memory
    }
}

/// Where the reading of a log stands: in which line, and what has been read of it.
#[derive(Clone, Copy)]
pub struct LogReader {
    scan: Scan,
    line: u64,
}

impl LogReader {
    pub fn new() -> LogReader
        ensures { standing result [] ≡ begun }
    {
        LogReader {
            scan: Scan::Blank,
            line: 1,
        }
    }

    fn read_byte(&mut self, byte: u8, cycles: &mut Vec<Cycle>) -> Result<(), LogError>
        ensures { Went result (standing self.old cycles.old.items) (byte ∷ []) (standing self.new cycles.new.items) }
    {
        if byte != b'\n' {
            self.scan = self.scan.feed(byte);
            return Ok(());
        }
        let line = self.line;
        let ended = self
            .scan
            .finish()
            .map_err(|_| LogError::NotACycle { line })?;
        if let Some(cycle) = ended {
            cycles.push(cycle)?;
        }
        self.scan = Scan::Blank;
        self.line = self.line.saturating_add(1);
        Ok(())
    }

    /// Reads on, and adds the cycle of each line that ends here to `cycles`, up to the first line
    /// that is no cycle.
    pub fn read(&mut self, bytes: &[u8], cycles: &mut Vec<Cycle>) -> Result<(), LogError>
        ensures { Went result (standing self.old cycles.old.items) bytes.now (standing self.new cycles.new.items) }
    {
        for byte in bytes {
            self.read_byte(*byte, cycles)?;
        }
        Ok(())
    }
}
