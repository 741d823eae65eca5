// The calls that put nothing: pick, and the record of a block.
ghost use Rattle.std.specs.Prelude.{◌≡◌, [], slice_index_or};
ghost use Rattle.flash.specs.Records.{first_record};
ghost use Rattle.bus.specs.States.{blocks_in};
ghost use Rattle.record.specs.Picks.{picked};
ghost use Rattle.driver.specs.Called.{Called, known_reply};
ghost use Rattle.driver.specs.Outcomes.{block as block_reply};

use crate::session::Session;
use crate::state::State;
use calls::call::Call;
use flash::fault::Fault;
use flash::record::BlockRecord;
use port::port::Port;

impl State {
    fn pick(&self, from: u16) -> Option<u16>
        ensures { result ≡ picked self.now.blocks (blocks_in self.now.part) from }
    {
        self.known.pick(self.blocks(), from)
    }

    fn block(&self, block: u16) -> BlockRecord
        ensures { result ≡ slice_index_or self.now.blocks block first_record }
    {
        self.known.block(block)
    }
}

impl<P: Port> Session<P> {
    /// The lowest block at or above `from` that can take a first page.
    pub(crate) fn pick(&self, from: u16) -> Option<u16>
        ensures { Called P.Port (Call.Pick from) [] (block_reply result) self.now self.now }
    {
        self.state.pick(from)
    }

    /// What is known of a block.
    pub(crate) fn record_of(&self, block: u16) -> Result<BlockRecord, Fault>
        ensures { Called P.Port (Call.Record block) [] (known_reply result) self.now self.now }
    {
        self.admit(Call::Record { block }, 0)?;
        Ok(self.state.block(block))
    }
}
