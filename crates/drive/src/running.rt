// A script's run, on a tape or on a model chip.
use crate::parse::Calls;
use crate::settings::{ChipSetting, TapeSetting};
use crate::show::ShownAnswer;
use bus_log::line::Log;
use driver::script::Answer;
use flash::cycle::Cycle;
use flash::geometry::MOST_BLOCKS;
use flash::record::BlockRecord;
use runs::{run_on_chip, run_on_tape};
use std::alloc::{AllocError, Global};
use std::io;
use std::io::Write;

// A line for each call. Where answers are wanting, memory was.
fn print_answers<W: Write>(out: &mut W, calls: &Calls, answers: &[Answer]) -> io::Result<()> {
    if answers.len() < calls.steps.len() {
        return Err(AllocError.into());
    }
    for (title, answer) in calls.titles.iter().zip(answers) {
        writeln!(out, "# {title} -> {}", ShownAnswer(answer))?;
    }
    Ok(())
}

// Apart from `drive_tape`: what the tape lends comes back as this returns.
fn print_cycles<W: Write>(out: &mut W, cycles: &[Cycle]) -> io::Result<()> {
    write!(out, "{}", Log(cycles))
}

/// Runs the calls on a tape and prints the answers, then the cycles.
pub fn drive_tape<W: Write>(
    heap: Global,
    out: &mut W,
    polls: u32,
    setting: TapeSetting,
    calls: &Calls,
) -> io::Result<()> {
    let TapeSetting { places, replies } = setting;
    let mut cycles = vec![in heap; Cycle::default(); places]?;
    let mut answers = Vec::new(heap);
    let tape = run_on_tape(
        heap,
        cycles.as_mut_slice(),
        replies.as_slice(),
        polls,
        calls.steps.as_slice(),
        &mut answers,
    );
    print_answers(out, calls, answers.as_slice())?;
    print_cycles(out, tape.written())
}

/// Runs the calls on a model chip and prints the answers.
pub fn drive_chip<W: Write>(
    heap: Global,
    out: &mut W,
    polls: u32,
    setting: ChipSetting,
    calls: &Calls,
) -> io::Result<()> {
    let ChipSetting {
        part,
        mut cells,
        statuses,
    } = setting;
    let mut blocks = [BlockRecord::FIRST; MOST_BLOCKS];
    let mut answers = Vec::new(heap);
    let _chip = run_on_chip(
        heap,
        part,
        cells.as_mut_slice(),
        statuses.as_slice(),
        &mut blocks,
        polls,
        calls.steps.as_slice(),
        &mut answers,
    );
    print_answers(out, calls, answers.as_slice())
}
