// All that the bus holds but the count of breaches, as text: a comparison that fails shows both sides.
// By hand: with equality and Debug derived, the reader's crate takes twice as long to check.
use crate::shown;
use bus::state::{BusState, Phase, Setup};
use std::alloc::{AllocError, Global};

fn setup(setup: Setup) -> &'static str {
    match setup {
        Setup::Read => "read",
        Setup::Erase => "erase",
        Setup::Program => "program",
        Setup::Copy => "copy",
    }
}

fn phase(heap: Global, phase: Phase) -> Result<String, AllocError> {
    match phase {
        Phase::Quiet => format!(in heap; "quiet"),
        Phase::Status => format!(in heap; "status"),
        Phase::Output => format!(in heap; "output"),
        Phase::Identity => format!(in heap; "identity"),
        Phase::IdentityBytes { given } => {
            let count = given.count;
            let bytes = given.bytes;
            format!(in heap; "identity {count} of {bytes:?}")
        }
        Phase::ReadSetup => format!(in heap; "read"),
        Phase::Addressing { setup: work, given } => {
            let work = setup(work);
            let count = given.count;
            let bytes = given.bytes;
            format!(in heap; "{work} {count} of {bytes:?}")
        }
        Phase::Addressed {
            setup: work,
            column,
            row,
        } => {
            let work = setup(work);
            let place = shown::place(heap, row, column)?;
            format!(in heap; "{work} {place}")
        }
        Phase::Loading { row, start, next } => {
            let place = shown::place(heap, row, start)?;
            let next = next.number();
            format!(in heap; "load {place} next {next}")
        }
    }
}

pub(crate) fn bus_text(heap: Global, bus: &BusState) -> Result<String, AllocError> {
    let part = shown::part(bus.part);
    let phase = phase(heap, bus.phase)?;
    let work = shown::work(heap, bus)?;
    let register = shown::register(heap, bus.register)?;
    format!(in heap; "{part}; {phase}; {work}; {register}")
}
