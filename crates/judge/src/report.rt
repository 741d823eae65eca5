// The report on a log: a line for each thing told.
use bus::act::Confirm;
use bus::state::{BusState, PageRead, Work};
use bus_log::hex::Hex;
use events::event::Event;
use flash::address::{Column, Row};
use flash::part::Part;
use std::io::Write;
use std::{fmt, io};

// Where a page begins to be read or programmed. A type of its own: the text is the report's alone.
#[derive(Drop)]
struct Place(Row, Column);

impl fmt::Display for Place {
    fn fmt<W: fmt::Write>(&self, f: &mut fmt::Formatter<W>) -> fmt::Result {
        let Place(row, column) = self;
        let (block, page, column) = (row.block(), row.page(), column.number());
        write!(f, "block {block} page {page} column {column}")
    }
}

// The part that a chip says it is, if there is one. A type of its own: an `Option` has no `Display`.
#[derive(Drop)]
struct PartName(Option<Part>);

impl fmt::Display for PartName {
    fn fmt<W: fmt::Write>(&self, f: &mut fmt::Formatter<W>) -> fmt::Result {
        match self.0 {
            Some(part) => write!(f, "{part}"),
            None => write!(f, "unknown"),
        }
    }
}

/// A report that is being written. Bytes of the register that come with no other cycle between them
/// share a line, which stays open for the next: `open` is the cycle of its last byte.
#[derive(Drop)]
pub struct Report<W: Write + Drop> {
    out: W,
    open: Option<u64>,
}

impl<W: Write + Drop> Report<W> {
    pub fn new(out: W) -> Report<W> {
        Report { out, open: None }
    }

    fn close_line(&mut self) -> io::Result<()> {
        if self.open.take().is_some() {
            writeln!(self.out)?;
        }
        Ok(())
    }

    fn data(&mut self, cycle: u64, byte: u8) -> io::Result<()> {
        if self.open != Some(cycle.saturating_sub(1)) {
            self.close_line()?;
            write!(self.out, "data")?;
        }
        self.open = Some(cycle);
        write!(self.out, " {byte:02X}")
    }

    fn program(&mut self, confirm: Confirm, place: Place, bytes: &[u8]) -> io::Result<()> {
        match confirm {
            Confirm::Program => writeln!(self.out, "program {place}:{}", Hex(bytes)),
            Confirm::Cache => writeln!(self.out, "cache-program {place}:{}", Hex(bytes)),
            Confirm::Copy => writeln!(self.out, "copy-program {place}"),
        }
    }

    /// One thing told.
    pub fn event(&mut self, event: &Event) -> io::Result<()> {
        if !matches!(event, Event::Data { .. }) {
            self.close_line()?;
        }
        match event {
            Event::Breach { cycle, breach } => {
                writeln!(self.out, "breach at cycle {cycle}: {breach}")
            }
            Event::Reset => writeln!(self.out, "reset"),
            Event::Status { byte } => writeln!(self.out, "status {byte:02X}"),
            Event::Identity { bytes } => writeln!(
                self.out,
                "identity{} {}",
                Hex(bytes),
                PartName(Part::try_from(*bytes).ok())
            ),
            Event::Read(PageRead { row, column, copy }) => {
                let what = if *copy { "copy-read" } else { "read" };
                writeln!(self.out, "{what} {}", Place(*row, *column))
            }
            Event::Data { cycle, byte } => self.data(*cycle, *byte),
            Event::Erase { block } => writeln!(self.out, "erase block {block}"),
            Event::Program {
                row,
                column,
                confirm,
                bytes,
            } => self.program(*confirm, Place(*row, *column), bytes.as_slice()),
        }
    }

    /// The last lines: the part, what is under way, how many breaches.
    pub fn end(&mut self, bus: &BusState) -> io::Result<()> {
        self.close_line()?;
        writeln!(self.out, "part {}", PartName(bus.part))?;
        match (bus.busy, bus.chain) {
            (Some(Work::Program { block }), _) => writeln!(
                self.out,
                "under way: program block {block}"
            )?,
            (Some(Work::Erase { block }), _) => writeln!(
                self.out,
                "under way: erase block {block}"
            )?,
            (_, Some(block)) => writeln!(self.out, "under way: chain block {block}")?,
            (_, None) => writeln!(self.out, "under way: nothing")?,
        }
        writeln!(self.out, "breaches {}", bus.breaches)?;
        self.out.flush()
    }
}
