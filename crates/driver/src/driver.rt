// The driver: every call on a chip that a survey was made of.
ghost use Rattle.std.specs.Prelude.{◌≡◌, [], length};
ghost use Rattle.driver.specs.Called.{Called, unit_reply, slip_reply, read_reply, chain_reply, known_reply, spent_if, settle_takes, abandon_takes, KeptAtRefusal, OthersStand};
ghost use Rattle.driver.specs.Outcomes.{block as block_reply};

use crate::session::Session;
use crate::slip::Slip;
use calls::call::Call;
use flash::address::Column;
use flash::fault::Fault;
use flash::page::Page;
use flash::record::BlockRecord;
use port::port::Port;

// Survey and driver are two types, so that a call that a stage does not offer cannot be written.
pub struct Driver<P: Port> {
    pub(crate) session: Session<P>,
}

impl<P: Port> Driver<P> {
    /// Fills the buffer with bytes of a page, from a column on.
    pub fn read(&mut self, page: Page, column: Column, buffer: &mut [u8]) -> Result<(), Fault>
        ensures called { Called P.Port (Call.Read page column (length buffer.old)) [] (read_reply result buffer.new) self.old.session self.new.session }
        ensures kept { KeptAtRefusal result buffer.old buffer.new }
    {
        self.session.read(page, column, buffer)
    }

    /// Begins the erase of a block.
    pub fn erase(&mut self, block: u16) -> Result<Slip, Fault>
        ensures { Called P.Port (Call.Erase block) [] (slip_reply result) self.old.session self.new.session }
    {
        self.session.erase(block)
    }

    /// Begins the program of bytes of a page, from a column on.
    pub fn program(&mut self, page: Page, column: Column, bytes: &[u8]) -> Result<Slip, Fault>
        ensures { Called P.Port (Call.Program page column) bytes.now (slip_reply result) self.old.session self.new.session }
    {
        self.session.program(page, column, bytes)
    }

    /// Begins a chain of programs in one block.
    pub fn cache_first(&mut self, page: Page, column: Column, bytes: &[u8]) -> Result<Slip, Fault>
        ensures { Called P.Port (Call.CacheFirst page column) bytes.now (slip_reply result) self.old.session self.new.session }
    {
        self.session.cache_first(page, column, bytes)
    }

    /// Adds a page to the chain; the slip then stands for the chain with that page.
    pub fn cache_next(
        &mut self,
        slip: &mut Slip,
        page: u8,
        column: Column,
        bytes: &[u8],
    ) -> Result<(), Fault>
        ensures called { Called P.Port (Call.CacheNext slip.old.number page column) bytes.now (chain_reply result slip.new.number) self.old.session self.new.session }
        ensures slip { KeptAtRefusal result slip.old.number slip.new.number }
    {
        self.session.cache_next(slip, page, column, bytes)
    }

    /// Ends the chain with a page; the slip then stands for a program, which can be settled.
    pub fn cache_last(
        &mut self,
        slip: &mut Slip,
        page: u8,
        column: Column,
        bytes: &[u8],
    ) -> Result<(), Fault>
        ensures called { Called P.Port (Call.CacheLast slip.old.number page column) bytes.now (chain_reply result slip.new.number) self.old.session self.new.session }
        ensures slip { KeptAtRefusal result slip.old.number slip.new.number }
    {
        self.session.cache_last(slip, page, column, bytes)
    }

    /// Reads a page into the chip and begins its program elsewhere.
    pub fn copy(&mut self, source: Page, destination: Page) -> Result<Slip, Fault>
        ensures { Called P.Port (Call.Copy source destination) [] (slip_reply result) self.old.session self.new.session }
    {
        self.session.copy(source, destination)
    }

    /// Waits for the work of the slip, and says how it ended. The slip is spent, unless the chip did not
    /// become ready or the call was turned away. The record of one block changes, and of no other, or of
    /// none.
    pub fn settle(&mut self, slip: &mut Slip) -> Result<(), Fault>
        ensures called { Called P.Port (Call.Settle slip.old.number) [] (unit_reply result) self.old.session self.new.session }
        ensures slip { slip.new.number ≡ spent_if (settle_takes (unit_reply result)) slip.old.number }
        ensures others { OthersStand self.old.session.state.blocks self.new.session.state.blocks }
    {
        self.session.settle(slip)
    }

    /// Cuts the work of the slip off by a reset. The slip is spent, unless the call was turned away.
    pub fn abandon(&mut self, slip: &mut Slip) -> Result<(), Fault>
        ensures called { Called P.Port (Call.Abandon slip.old.number) [] (unit_reply result) self.old.session self.new.session }
        ensures slip { slip.new.number ≡ spent_if (abandon_takes (unit_reply result)) slip.old.number }
    {
        self.session.abandon(slip)
    }

    /// Brings a chip that did not become ready back.
    pub fn reset(&mut self) -> Result<(), Fault>
        ensures { Called P.Port Call.Reset [] (unit_reply result) self.old.session self.new.session }
    {
        self.session.reset()
    }

    /// The lowest block at or above `from` that can take a first page. Nothing is put.
    pub fn pick(&self, from: u16) -> Option<u16>
        ensures { Called P.Port (Call.Pick from) [] (block_reply result) self.now.session self.now.session }
    {
        self.session.pick(from)
    }

    /// What is known of a block. Nothing is put.
    pub fn record(&self, block: u16) -> Result<BlockRecord, Fault>
        ensures { Called P.Port (Call.Record block) [] (known_reply result) self.now.session self.now.session }
    {
        self.session.record_of(block)
    }

    /// Gives the port back and takes any slip, live or spent: what is under way stays so.
    pub fn quit(self, slip: Slip) -> P
        ensures { result ≡ self.session.port }
    {
        slip.spend();
        // A driver and a session are linear: they are taken apart whole, not read at a field.
        let Driver { session } = self;
        let Session { port, state: _ } = session;
        port
    }
}
