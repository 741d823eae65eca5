// Each byte as a factory mark.
use crate::logs::cycles_of;
use crate::seen::Held;
use flash::cycle::{Cycle, Kind};
use std::alloc::Global;
use std::process::Abort;
use std::test::*;

// A log that ends before a factory mark of block 2, later reads of that mark, and the record where
// FFh was read of it first, or else another byte.
#[derive(Clone, Copy)]
struct MarkRead {
    log: &'static str,
    later: &'static str,
    clean: &'static str,
    marked: &'static str,
}

const MARKS: [MarkRead; 3] = [
    MarkRead {
        log: "one 000 100 108 180 100 030 ready 000",
        later: "bad0 mark0",
        clean: "clean unread stale",
        marked: "marked unread stale",
    },
    MarkRead {
        log: "one 000 100 108 181 100 030 ready 000",
        later: "bad1 mark1",
        clean: "unread clean stale",
        marked: "unread marked stale",
    },
    // the byte before the mark comes first
    MarkRead {
        log: "one 000 1FF 107 180 100 030 ready 000 355",
        later: "mark0 bad0",
        clean: "clean unread stale",
        marked: "marked unread stale",
    },
];

// Logs that end before a byte that is no mark of block 2: the columns on either side, page 2,
// block 3.
const NO_MARKS: [&str; 4] = [
    "one 000 1FF 107 180 100 030 ready 000",
    "one 000 101 108 180 100 030 ready 000",
    "one 000 100 108 182 100 030 ready 000",
    "one 000 100 108 1C0 100 030 ready 000",
];

/// What is held after a log, a byte out and another log.
pub(crate) fn held_with(heap: Global, log: &str, byte: u8, later: &str) -> Result<Held, Fail> {
    let mut cycles = cycles_of(heap, log)?;
    cycles.push(Cycle {
        kind: Kind::DataOut,
        byte,
    })?;
    cycles.extend_from_slice(cycles_of(heap, later)?.as_slice())?;
    Ok(Held::after(cycles.as_slice(), 2))
}

fn check_mark(rt: &(impl Abort + AllocGlobal), read: MarkRead, byte: u8) -> Result<(), Fail> {
    let expected = if byte == 0xFF {
        read.clean
    } else {
        read.marked
    };
    let at = format!(in rt.alloc(); "{} 3{byte:02X}", read.log)?;
    held_with(rt.alloc(), read.log, byte, "")?.check_block(rt, expected, at.as_str())?;
    held_with(rt.alloc(), read.log, byte, read.later)?.check_block(rt, expected, at.as_str())
}

#[test]
fn each_byte_as_a_mark(rt: HostRuntime) -> Result<(), Fail> {
    for byte in 0..=255u8 {
        for read in &MARKS {
            check_mark(&rt, *read, byte)?;
        }
        for log in &NO_MARKS {
            let held = held_with(rt.alloc(), log, byte, "")?;
            held.check_block(&rt, "unread unread stale", log)?;
        }
    }
    Ok(())
}
