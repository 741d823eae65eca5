// What a model chip holds between two cycles, and one cycle on it.
ghost use Rattle.std.specs.Prelude.{◌≡◌, ◌≤◌, length};
ghost use Rattle.bus.specs.Bus.{step as bus_step};
ghost use Rattle.bus.specs.Readers.{meant};
ghost use Rattle.bus.specs.States.{blocks_in};
ghost use Rattle.chip.specs.Chips.{answer, chip_step, first_chip};
ghost use Rattle.chip.specs.Kept.{Kept};
ghost use Rattle.chip.specs.Recalls.{GoesOn};
ghost use Rattle.chip.specs.States.{chip_in};

use crate::memory::ChipMemory;
use bus::reader::BusReader;
use flash::cycle::Cycle;
use flash::part::Part;
use flash::record::BlockRecord;

/// The bus reader, and the memory beside it.
#[derive(Drop)]
pub(crate) struct ChipState<'a> {
    reader: BusReader<'a>,
    memory: ChipMemory<'a>,
}

impl<'a> ChipState<'a> {
    /// Nothing is done yet; the block records lent are set to first ones.
    pub(crate) fn new(cells: &'a mut [u8], blocks: &'a mut [BlockRecord]) -> ChipState<'a>
        ensures { chip_in result ≡ first_chip (length blocks.old) cells.old }
    {
        ChipState {
            reader: BusReader::new(blocks),
            memory: ChipMemory::new(cells),
        }
    }
}

impl ChipState<'_> {
    /// How many block records the reader was lent.
    pub(crate) fn records(&self) -> usize
        ensures { result ≡ length self.now.reader.blocks.now }
    {
        self.reader.records()
    }

    /// The byte that a chip of this part would give now.
    pub(crate) fn byte_out(&self, part: Part) -> u8
        ensures { result ≡ answer part (chip_in self.now).reader.bus (chip_in self.now).memory }
    {
        self.memory.byte_out(part, &self.reader.bus())
    }

    /// One cycle, on the memory and the reader.
    pub(crate) fn step(&mut self, statuses: &[u8], cycle: Cycle)
        ensures chip { chip_in self.new ≡ chip_step statuses.now (chip_in self.old) cycle }
        ensures means { blocks_in self.new.reader.bus.part ≤ length self.old.reader.blocks.now → meant self.new.reader ≡ bus_step (meant self.old.reader) cycle }
        ensures kept { Kept (chip_in self.old) (chip_in self.new) cycle }
        ensures goes_on { GoesOn (chip_in self.old) (chip_in self.new) cycle }
    {
        let bus = self.reader.bus();
        self.memory.perform(statuses, &bus, bus.act(cycle));
        self.reader.read(cycle);
    }
}
