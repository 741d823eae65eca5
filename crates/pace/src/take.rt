// The cycles of a long take: block 5 of a 1 Gbit chip, erased and filled with whole pages again and again.
use flash::address::{Column, Row};
use flash::cycle::{Cycle, Kind};
use flash::geometry::{COLUMNS, MARK_COLUMN, PAGES};
use flash::opcode::Opcode;
use flash::part::Part;
use std::alloc::{AllocError, Global};

const BLOCK: u16 = 5;

#[derive(Drop)]
pub struct Take {
    cycles: Vec<Cycle>,
}

impl Take {
    /// No cycle yet.
    pub fn new(heap: Global) -> Take {
        Take {
            cycles: Vec::new(heap),
        }
    }

    pub fn cycles(&self) -> &[Cycle] {
        self.cycles.as_slice()
    }

    fn put(&mut self, kind: Kind, byte: u8) -> Result<(), AllocError> {
        self.cycles.push(Cycle { kind, byte })?;
        Ok(())
    }

    fn command(&mut self, opcode: Opcode) -> Result<(), AllocError> {
        self.put(Kind::Command, opcode.into())
    }

    fn each(&mut self, kind: Kind, bytes: &[u8]) -> Result<(), AllocError> {
        self.cycles
            .extend(bytes.iter().map(|byte| Cycle { kind, byte: *byte }))
    }

    fn row(&mut self, page: u8) -> Result<(), AllocError> {
        let bytes = Row::new(BLOCK, page).bytes::<2>();
        self.each(Kind::Address, &bytes)
    }

    fn address(&mut self, page: u8, column: u16) -> Result<(), AllocError> {
        let bytes = Column::new(column).bytes();
        self.each(Kind::Address, &bytes)?;
        self.row(page)
    }

    fn ready(&mut self) -> Result<(), AllocError> {
        self.command(Opcode::ReadStatus)?;
        self.put(Kind::DataOut, 0xC0)
    }

    fn clean_mark(&mut self, page: u8) -> Result<(), AllocError> {
        self.command(Opcode::Read)?;
        self.address(page, MARK_COLUMN)?;
        self.command(Opcode::ReadConfirm)?;
        self.ready()?;
        self.command(Opcode::Read)?;
        self.put(Kind::DataOut, 0xFF)
    }

    fn program_page(&mut self, page: u8) -> Result<(), AllocError> {
        self.command(Opcode::Program)?;
        self.address(page, 0)?;
        for column in 0..COLUMNS {
            self.put(Kind::DataIn, (column % 256) as u8)?;
        }
        self.command(Opcode::ProgramConfirm)?;
        self.ready()
    }

    fn fill_block(&mut self) -> Result<(), AllocError> {
        self.command(Opcode::Erase)?;
        self.row(0)?;
        self.command(Opcode::EraseConfirm)?;
        self.ready()?;
        for page in 0..PAGES {
            self.program_page(page)?;
        }
        Ok(())
    }

    fn identify(&mut self) -> Result<(), AllocError> {
        self.command(Opcode::Reset)?;
        self.ready()?;
        self.command(Opcode::ReadId)?;
        self.put(Kind::Address, 0)?;
        let identity = Part::OneGbit.identity();
        self.each(Kind::DataOut, &identity)
    }

    /// The opening of a take, then the block filled so many times.
    pub fn fill(&mut self, times: u8) -> Result<(), AllocError> {
        self.identify()?;
        self.clean_mark(0)?;
        self.clean_mark(1)?;
        for _ in 0..times {
            self.fill_block()?;
        }
        Ok(())
    }
}
