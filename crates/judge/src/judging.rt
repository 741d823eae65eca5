// A log on its way through: read, told and reported piece by piece.
use crate::report::Report;
use bus_log::log_reader::{LogError, LogReader};
use events::event::Event;
use events::teller::Teller;
use flash::cycle::Cycle;
use std::alloc::{AllocError, Global};
use std::error::Error;
use std::io::{Read, Write};
use std::{fmt, io};

/// Why a log is not judged to its end.
#[derive(Debug, Drop)]
pub enum JudgeError {
    /// A line that is no cycle; the report is on what comes before it.
    Log(LogError),
    Io(io::Error),
}

impl fmt::Display for JudgeError {
    fn fmt<W: fmt::Write>(&self, f: &mut fmt::Formatter<W>) -> fmt::Result {
        match self {
            JudgeError::Log(error) => write!(f, "{error}"),
            JudgeError::Io(error) => write!(f, "{error}"),
        }
    }
}

impl Error for JudgeError {}

impl From<io::Error> for JudgeError {
    fn from(error: io::Error) -> JudgeError {
        JudgeError::Io(error)
    }
}

impl From<AllocError> for JudgeError {
    fn from(error: AllocError) -> JudgeError {
        JudgeError::Io(error.into())
    }
}

impl From<LogError> for JudgeError {
    fn from(error: LogError) -> JudgeError {
        match error {
            LogError::NotACycle { .. } => JudgeError::Log(error),
            LogError::Memory => AllocError.into(),
        }
    }
}

#[derive(Drop)]
pub struct Judging<'a, W: Write + Drop> {
    teller: Teller<'a>,
    log: LogReader,
    report: Report<W>,
    cycles: Vec<Cycle>,
    events: Vec<Event>,
}

impl<'a, W: Write + Drop> Judging<'a, W> {
    pub fn new(heap: Global, teller: Teller<'a>, out: W) -> Judging<'a, W> {
        Judging {
            teller,
            log: LogReader::new(),
            report: Report::new(out),
            cycles: Vec::new(heap),
            events: Vec::new(heap),
        }
    }

    // One piece of the log, of any length. What comes before a line that is no cycle is reported too.
    fn piece(&mut self, bytes: &[u8]) -> Result<(), JudgeError> {
        let read = self.log.read(bytes, &mut self.cycles);
        if matches!(read, Err(LogError::Memory)) {
            return Ok(read?);
        }
        self.teller.tell(self.cycles.as_slice(), &mut self.events)?;
        for event in &self.events {
            self.report.event(event)?;
        }
        self.cycles.clear();
        self.events.clear();
        Ok(read?)
    }

    // The next piece of the input; whether there was one. Pieces of one size and not lines, which
    // may be of any length.
    fn next_piece<R: Read>(&mut self, input: &mut R) -> Result<bool, JudgeError> {
        let mut buffer = [0u8; 4096];
        let count = input.read(&mut buffer)?;
        self.piece(&buffer[..count])?;
        Ok(count > 0)
    }

    // All pieces of the input, and a last line feed, which the log may lack. Counted, since no end of
    // the input is known, and not by `bytes`: a piece is told and reported at once, for speed.
    fn pieces<R: Read>(&mut self, input: &mut R) -> Result<(), JudgeError> {
        for _ in 0..u64::MAX {
            if !self.next_piece(input)? {
                break;
            }
        }
        self.piece(b"\n")
    }

    /// Reports on the whole input, or on what comes before a line that is no cycle.
    pub fn run<R: Read>(&mut self, input: &mut R) -> Result<(), JudgeError> {
        let read = self.pieces(input);
        if !matches!(read, Err(JudgeError::Io(_))) {
            self.report.end(&self.teller.bus())?;
        }
        read
    }
}
