// The bus reader at run time, over block records that its owner lends.
ghost use Rattle.std.specs.Prelude.{◌≡◌, ◌≤◌, length, replicate, slice_index_or};
ghost use Rattle.flash.specs.Records.{first_record};
ghost use Rattle.bus.specs.Acts.{act_of};
ghost use Rattle.bus.specs.States.{first_bus, blocks_in};
ghost use Rattle.bus.specs.Bus.{done, step, steps, record_in, changed_at, changed};
ghost use Rattle.bus.specs.Laws.{Lawful, EverSound};
ghost use Rattle.bus.specs.Readers.{held, meant, told};

use crate::act::Act;
use crate::breach::Breaches;
use crate::state::BusState;
use flash::cycle::Cycle;
use flash::record::BlockRecord;

/// What a reader tells of one cycle: what it was, and which rules it broke.
#[derive(Clone, Copy)]
pub struct Told {
    pub act: Act,
    pub breaches: Breaches,
}

/// The reader keeps a record for each block of the part that its owner lends one for. With fewer
/// records than blocks it is still safe: a block without a record is judged as one of which
/// nothing is known, and nothing is noted of it.
#[derive(Drop)]
pub struct BusReader<'a> {
    bus: BusState,
    blocks: &'a mut [BlockRecord],
}

impl<'a> BusReader<'a> {
    /// A reader in its first state; the records lent are set to first ones.
    pub fn new(blocks: &'a mut [BlockRecord]) -> BusReader<'a>
        ensures first { held result ≡ record { bus = first_bus; blocks = replicate (length blocks.old) first_record } }
        ensures sound { EverSound (held result) }
    {
        blocks.fill(BlockRecord::FIRST);
        BusReader {
            bus: BusState::FIRST,
            blocks,
        }
    }
}

impl BusReader<'_> {
    /// Where the bus stands.
    pub fn bus(&self) -> BusState
        ensures { result ≡ self.now.bus }
    {
        self.bus
    }

    /// How many block records the reader was lent.
    pub fn records(&self) -> usize
        ensures { result ≡ length (held self.now).blocks }
    {
        self.blocks.len()
    }

    /// What is known of a block; of one without a record, nothing.
    pub fn block(&self, block: u32) -> BlockRecord
        ensures { result ≡ slice_index_or (held self.now).blocks block first_record }
    {
        self.blocks
            .get(block as usize)
            .copied()
            .unwrap_or(BlockRecord::FIRST)
    }

    fn concerned_block(&self, concerned: Option<u32>) -> BlockRecord
        ensures { result ≡ record_in concerned (held self.now).blocks }
    {
        // and_then, copied and unwrap_or prove too, but cost seven instructions more a cycle
        match concerned {
            Some(block) => self.block(block),
            None => BlockRecord::FIRST,
        }
    }

    // One cycle is taken: what it is, which rules it breaks, and what it does, in this order.
    fn take(&mut self, cycle: Cycle) -> Told
        ensures holds { held self.new ≡ done (held self.old) (act_of self.old.bus cycle) }
        ensures tells { result ≡ told (held self.old) cycle }
    {
        let bus = self.bus;
        let act = bus.act(cycle);
        let concerned = bus.concerned(act);
        let breaches = bus.judge(act, &self.concerned_block(concerned));
        change_block(self.blocks, &bus, act, concerned);
        self.bus.perform(act);
        self.bus.count(breaches);
        Told { act, breaches }
    }

    /// One cycle more. The records and the bus step by the definition, over the records lent and,
    /// where these are no fewer than the blocks of the part, also with them filled up to 2,048.
    pub fn read(&mut self, cycle: Cycle) -> Told
        ensures holds { held self.new ≡ step (held self.old) cycle }
        ensures means { blocks_in self.new.bus.part ≤ length self.old.blocks.now → meant self.new ≡ step (meant self.old) cycle }
        ensures lawful { Lawful (held self.old) (held self.new) cycle }
        ensures tells { result ≡ told (held self.old) cycle }
    {
        self.take(cycle)
    }

    /// A list of cycles, one after the other.
    pub fn read_all(&mut self, cycles: &[Cycle])
        ensures { held self.new ≡ steps (held self.old) cycles.now }
    {
        for cycle in cycles {
            self.read(*cycle);
        }
    }
}

// The record of the block concerned is lent to be changed, if the block is in the part and has one.
fn change_block(blocks: &mut [BlockRecord], bus: &BusState, act: Act, concerned: Option<u32>)
    ensures { blocks.new ≡ changed_at (blocks_in bus.now.part) concerned (changed bus.now act) blocks.old }
{
    if let Some(block) = concerned
        && block < u32::from(bus.blocks())
        && (block as usize) < blocks.len()
    {
        // an index: get_mut does not say what the slice ends as
        bus.change(act, &mut blocks[block as usize]);
    }
}
