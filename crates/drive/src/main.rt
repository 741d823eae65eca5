// drive: runs a script of driver calls from standard input, on a tape or on a model chip. It prints a
// line for each call with its answer and then, of a tape, its cycles, as a log of the bus.
#![tactic(auto)]

mod parse;
mod running;
mod settings;
mod show;
mod words;
mod wrong;

use parse::Script;
use running::{drive_chip, drive_tape};
use settings::{PortSetting, Settings};
use std::io;
use std::io::{BufRead, BufReader, BufWriter, Write};
use std::process::ExitCode;

// The script, or nothing once the line that cannot be read is named.
fn read_script(rt: &HostRuntime) -> io::Result<Option<Script>> {
    let heap = rt.alloc();
    let mut script = Script::new(heap);
    let lines = BufReader::new(heap, rt.stdin())?.split(heap, b'\n');
    for (number, line) in (1..=u64::MAX).zip(lines) {
        if let Err(wrong) = script.add_line(heap, line?.as_slice()) {
            eprintln!(rt; "line {number}: {wrong}")?;
            return Ok(None);
        }
    }
    Ok(Some(script))
}

fn drive<W: Write>(rt: &HostRuntime, out: &mut W, script: Script) -> io::Result<()> {
    let heap = rt.alloc();
    let Script { settings, calls } = script;
    let Settings { polls, port } = settings;
    match port.unwrap_or_else(|| PortSetting::unsaid(heap)) {
        PortSetting::Tape(tape) => drive_tape(heap, out, polls, tape, &calls),
        PortSetting::Chip(chip) => drive_chip(heap, out, polls, chip, &calls),
    }
}

fn main(rt: HostRuntime) -> io::Result<ExitCode> {
    let Some(script) = read_script(&rt)? else {
        return Ok(ExitCode::FAILURE);
    };
    let mut out = BufWriter::new(rt.alloc(), rt.stdout())?;
    drive(&rt, &mut out, script)?;
    out.flush()?;
    Ok(ExitCode::SUCCESS)
}
