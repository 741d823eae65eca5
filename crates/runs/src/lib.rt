// Scripts on a tape and on a model chip, and what their owner sees.
#![tactic(auto)]

ghost use Rattle.std.specs.Prelude.{◌≡◌, ◌≤◌, length};
ghost use Rattle.flash.specs.Parts.{blocks_of};
ghost use Rattle.driver.specs.Opens.{poll_count};
ghost use Rattle.runs.specs.Owners.{OnTape, OnChip};

use chip::model::ModelChip;
use driver::run::run;
use driver::script::{Answer, Step};
use flash::cycle::Cycle;
use flash::part::Part;
use flash::record::BlockRecord;
use port::tape::Tape;
use std::alloc::Global;

// What a run needs goes through to `run` as it is: a struct would only be made here and taken apart there.

/// Runs a script on a tape over these places and replies, and gives the tape back: from its front it
/// holds the cycles of all turns, in order.
pub fn run_on_tape<'a>(
    heap: Global,
    places: &'a mut [Cycle],
    replies: &'a [u8],
    polls: u32,
    script: &[Step],
    answers: &mut Vec<Answer>,
) -> Tape<'a>
    ensures { OnTape (poll_count polls) script.now answers.old.items answers.new.items (length places.old) result }
{
    run(heap, Tape::new(places, replies), polls, script, answers)
}

/// Runs a script on a new model chip, and gives the chip back. Lent at most 2,048 block records it is
/// fresh; lent one for each block of its part, it has room for every call.
pub fn run_on_chip<'a>(
    heap: Global,
    part: Part,
    cells: &'a mut [u8],
    statuses: &'a [u8],
    blocks: &'a mut [BlockRecord],
    polls: u32,
    script: &[Step],
    answers: &mut Vec<Answer>,
) -> ModelChip<'a>
    ensures { length blocks.old ≤ 2048 → OnChip part (poll_count polls) script.now answers.old.items answers.new.items (length blocks.old) result }
{
    run(
        heap,
        ModelChip::new(part, cells, statuses, blocks),
        polls,
        script,
        answers,
    )
}
