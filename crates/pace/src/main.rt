// pace: how fast the bus reader judges cycles, against a loop over the same cycles that only counts
// their kinds. `pace time` prints both in cycles a second; without it, only what both found.
#![tactic(auto)]

mod take;

use bus::reader::BusReader;
use flash::cycle::{Cycle, Kind};
use flash::geometry::MOST_BLOCKS;
use flash::record::BlockRecord;
use std::time::Instant;
use std::{env, io};
use take::Take;

#[derive(Clone, Copy, Default)]
struct Kinds {
    commands: u64,
    addresses: u64,
    bytes_in: u64,
    bytes_out: u64,
}

// One bare loop and no filter for each kind: the reader's speed is held against it.
fn count_kinds(cycles: &[Cycle]) -> Kinds {
    let mut kinds = Kinds::default();
    for cycle in cycles {
        match cycle.kind {
            Kind::Command => kinds.commands = kinds.commands.wrapping_add(1),
            Kind::Address => kinds.addresses = kinds.addresses.wrapping_add(1),
            Kind::DataIn => kinds.bytes_in = kinds.bytes_in.wrapping_add(1),
            Kind::DataOut => kinds.bytes_out = kinds.bytes_out.wrapping_add(1),
        }
    }
    kinds
}

fn report(rt: &HostRuntime, kinds: Kinds, breaches: u16) -> io::Result<()> {
    println!(rt; "commands {}", kinds.commands)?;
    println!(rt; "address bytes {}", kinds.addresses)?;
    println!(rt; "bytes in {}", kinds.bytes_in)?;
    println!(rt; "bytes out {}", kinds.bytes_out)?;
    println!(rt; "breaches {breaches}")
}

// Cycles a second, from the time that they took.
fn rate(cycles: usize, micros: u128) -> u128 {
    (cycles as u128 * 1_000_000)
        .checked_div(micros)
        .unwrap_or(0)
}

// What the work gives, and the microseconds that it took.
fn timed<T: Drop, W: FnOnce() -> T>(rt: &HostRuntime, work: W) -> io::Result<(T, u128)>
    requires { W.IsAlwaysCallable work }
{
    let start = Instant::now(rt)?;
    let done = work();
    Ok((done, start.elapsed(rt)?.as_micros()))
}

fn is_timed(rt: &HostRuntime) -> io::Result<bool> {
    Ok(env::args(rt)?.skip(1).any(|word| word.as_str() == "time"))
}

fn main(rt: HostRuntime) -> io::Result<()> {
    let mut take = Take::new(rt.alloc());
    take.fill(40)?;
    let cycles = take.cycles();
    let (kinds, counted) = timed(&rt, || count_kinds(cycles))?;
    let mut blocks = [BlockRecord::FIRST; MOST_BLOCKS];
    let mut reader = BusReader::new(&mut blocks);
    let ((), judged) = timed(&rt, || reader.read_all(cycles))?;
    report(&rt, kinds, reader.bus().breaches)?;
    if is_timed(&rt)? {
        println!(rt; "counted {} cycles a second", rate(cycles.len(), counted))?;
        println!(rt; "judged {} cycles a second", rate(cycles.len(), judged))?;
    }
    Ok(())
}
