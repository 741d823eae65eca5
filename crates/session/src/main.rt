// session: what identify puts on the bus. Reads what the chip is to reply, two hexadecimal digits a
// line, and prints the cycles, one a line: a digit for the kind and two for the byte.
#![tactic(auto)]

mod replies;

use bus_log::line::Log;
use calls::call::Call;
use driver::run::run;
use driver::script::Step;
use flash::cycle::Cycle;
use port::tape::Tape;
use replies::read_replies;
use std::alloc::{AllocError, Global};
use std::io;
use std::io::{BufWriter, Write};

const PLACES: usize = 64;

fn print_cycles<W: Write + Drop>(mut out: W, cycles: &[Cycle]) -> io::Result<()> {
    write!(out, "{}", Log(cycles))?;
    out.flush()
}

// The one call on a tape of these places, which then holds its cycles.
fn identify<'a>(
    heap: Global,
    places: &'a mut [Cycle],
    replies: &'a [u8],
) -> Result<Tape<'a>, AllocError> {
    let script = [Step {
        call: Call::Identify,
        bytes: Vec::new(heap),
    }];
    let mut answers = Vec::new(heap);
    let tape = run(heap, Tape::new(places, replies), 1, &script, &mut answers);
    if answers.is_empty() {
        return Err(AllocError);
    }
    Ok(tape)
}

fn main(rt: HostRuntime) -> io::Result<()> {
    let replies = read_replies(rt.alloc(), &mut rt.stdin())?;
    let mut places = [Cycle::default(); PLACES];
    let tape = identify(rt.alloc(), &mut places, replies.as_slice())?;
    print_cycles(BufWriter::new(rt.alloc(), rt.stdout())?, tape.written())
}
