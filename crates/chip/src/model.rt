// The model chip: the bus reader inside, cells and status bytes lent by its owner.
ghost use Rattle.std.specs.Prelude.{true, ◌≡◌, ◌≤◌, length, if◌then◌else◌, IfOk, OnOk, MatchResult, nat_le};
ghost use Rattle.chip.specs.Chips.{own, answer, first_chip};
ghost use Rattle.chip.specs.Kept.{ProgramsKept, CopiesKept, ReadOut};
ghost use Rattle.chip.specs.Recalls.{GoesOn};
ghost use Rattle.chip.specs.Remembers.{EverRemembers};
ghost use Rattle.port.specs.Meanings.{Fresh, Stepped, Refused, driven, gave};
ghost use Rattle.flash.specs.Parts.{blocks_of};

use crate::state::ChipState;
use flash::cycle::{Cycle, Kind};
use flash::part::Part;
use flash::record::BlockRecord;
use port::port::{Full, HostCycle, Port};

/// A chip of a fixed part. Its cells are lent, 2,112 bytes a row from row 0 on; so are a status byte
/// for each block, to be answered after a program or an erase of it, and the block records of the bus
/// reader inside. Beside these it holds one page buffer and a few words. Its reader hears of no other
/// part, since the chip answers its own identity.
#[derive(Drop)]
pub struct ModelChip<'a> {
    part: Part,
    statuses: &'a [u8],
    state: ChipState<'a>,
    ghost own: { own part state.reader.bus ≡ true },
}

impl ModelChip<'_> {
    ghost use Rattle.chip.specs.Models.{has_room};

    fn has_room(&self) -> bool
        ensures { result ≡ has_room self.now }
    {
        usize::from(self.part.blocks()) <= self.state.records()
    }
}

impl Port for ModelChip<'_> {
    ghost use Rattle.chip.specs.Models.{means_of, chip_of, memory_of, unmoved, Ran, Rests};

    ghost meaning = { means_of };

    ghost moves = { unmoved };

    fn room(&self) -> usize {
        if self.has_room() { 65_535 } else { 0 }
    }

    fn put(&mut self, cycle: HostCycle) -> Result<(), Full>
        ensures steps { MatchResult result (λ _. Stepped unmoved (driven cycle) (means_of self.old) (means_of self.new)) (λ _. Refused (means_of self.old) (means_of self.new)) }
        ensures runs { MatchResult result (λ _. Ran self.old self.new (driven cycle)) (λ _. Rests self.old self.new) }
        ensures goes_on { OnOk result (GoesOn (chip_of self.old) (chip_of self.new) (driven cycle)) }
    {
        if !self.has_room() {
            return Err(Full);
        }
        self.state.step(self.statuses, cycle.into());
        Ok(())
    }

    fn take(&mut self) -> Result<u8, Full>
        ensures steps { MatchResult result (λ b. Stepped unmoved (gave b) (means_of self.old) (means_of self.new)) (λ _. Refused (means_of self.old) (means_of self.new)) }
        ensures runs { MatchResult result (λ b. (b ≡ answer self.old.part (chip_of self.old).reader.bus (memory_of self.old)) × ReadOut (chip_of self.old) b × Ran self.old self.new (gave b)) (λ _. Rests self.old self.new) }
        ensures goes_on { IfOk result (λ b. GoesOn (chip_of self.old) (chip_of self.new) (gave b)) }
    {
        if !self.has_room() {
            return Err(Full);
        }
        let byte = self.state.byte_out(self.part);
        self.state.step(
            self.statuses,
            Cycle {
                kind: Kind::DataOut,
                byte,
            },
        );
        Ok(byte)
    }
}

impl<'a> ModelChip<'a> {
    ghost use Rattle.chip.specs.Models.{means_of, chip_of, room_of};

    /// A chip that has done nothing yet; the block records lent are set to first ones. Lent as many
    /// of these as the part has blocks, and no more than 2,048, it is a fresh port with full room.
    pub fn new(
        part: Part,
        cells: &'a mut [u8],
        statuses: &'a [u8],
        blocks: &'a mut [BlockRecord],
    ) -> ModelChip<'a>
        ensures chip { chip_of result ≡ first_chip (length blocks.old) cells.old }
        ensures part { result.part ≡ part }
        ensures statuses { result.statuses.now ≡ statuses.now }
        ensures room { room_of result ≡ (if nat_le (blocks_of part) (length blocks.old) then 65535 else 0) }
        ensures keeps { ProgramsKept }
        ensures copies { CopiesKept }
        ensures remembers { EverRemembers result.statuses.now (chip_of result) }
        ensures fresh { length blocks.old ≤ 2048 → Fresh (means_of result) }
    {
        ModelChip {
            part,
            statuses,
            state: ChipState::new(cells, blocks),
        }
    }
}
