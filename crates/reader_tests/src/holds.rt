// What the reader holds after a log.
use crate::logs::{columns, cycles_of};
use crate::seen::{Held, USED};
use crate::shown;
use bus::reader::BusReader;
use flash::cycle::{Cycle, Kind};
use flash::geometry::MOST_BLOCKS;
use std::test::*;

// Logs, and the part that is known after them.
const IDENTITIES: [&str; 18] = [
    "0FF ready: unknown",
    "090 100 3C8 3D1 380 395 342: 1 Gbit",
    "090 100 3C8 3DA 390 395 344: 2 Gbit",
    // of neither part
    "090 100 300 300 300 300 300: unknown",
    "090 100 3C9 3D1 380 395 342: unknown",
    "090 100 3C8 3DA 380 395 342: unknown",
    "090 100 3C8 3D1 390 395 342: unknown",
    "090 100 3C8 3D1 380 396 342: unknown",
    "090 100 3C8 3D1 380 395 344: unknown",
    // not whole
    "090 100 3C8 3D1 380 395: unknown",
    "090 100 3C8 3D1 380 395 0FF 070 342: unknown",
    "090 3C8 3D1 380 395 342: unknown",
    // of neither part, then of one
    "090 100 300 300 300 300 300 090 100 3C8 3D1 380 395 342: 1 Gbit",
    "090 100 300 300 300 300 300 090 100 3C8 3DA 390 395 344: 2 Gbit",
    // cycles out of place among the bytes
    "090 100 3C8 3D1 070 380 100 395 342: 1 Gbit",
    // a known part stays
    "one 090 100 3C8 3DA 390 395 344: 1 Gbit",
    "two 090 100 3C8 3D1 380 395 342: 2 Gbit",
    "two 090 100 300 300 300 300 300 0FF ready: 2 Gbit",
];

// Logs, and what is in the register after them.
const REGISTERS: [&str; 16] = [
    "one read5 030: empty",
    "one read5 030 070 3BF: empty",
    "one read5 030 ready: block 2 page 5 column 0",
    "one read5 030 ready 000: block 2 page 5 column 0",
    "one read5 030 ready 000 3AA: block 2 page 5 column 1",
    "one read5 030 ready 000 3AA 3AA ready 000 3AA: block 2 page 5 column 3",
    "one 000 13F 108 185 100 030 ready 000 3AA: block 2 page 5 column 2112",
    "one read5 035 ready: block 2 page 5 column 0 to copy",
    "one read5 035 ready 000: block 2 page 5 column 0 to copy",
    "one read5 035 ready 000 3AA: block 2 page 5 column 1",
    "one read5 035 ready read5 030 ready: block 2 page 5 column 0",
    "one read5 030 ready 000 100: empty",
    "one read5 030 ready 060: empty",
    "one read5 030 ready 080: empty",
    "one read5 035 ready 085: empty",
    "one read5 030 ready 090: empty",
];

// The pieces of one log, and the record of block 2 after each.
const PROGRAMS: [&str; 19] = [
    "one clean fresh: clean clean fresh",
    "page5: clean clean page 5 x1",
    // nothing is busy that could fail
    "070 3C1: clean clean page 5 x1",
    "page5: clean clean page 5 x2",
    "page5: clean clean page 5 x3",
    "page5: clean clean page 5 x4",
    "page5: clean clean page 5 x4",
    "load6 010 ready: clean clean page 6 x1",
    "page5: clean clean page 6 x1",
    "load6 010 ready: clean clean page 6 x2",
    "load6 015 ready: clean clean page 6 x3",
    "load6 010 ready: clean clean page 6 x4",
    "read5 035 ready 085 100 100 1BF 100 010 ready: clean clean page 63 x1",
    // the identity of the other part
    "090 100 3C8 3DA 390 395 344: clean clean page 63 x1",
    "fresh: clean clean fresh",
    "080 100 100 180 100 2AA 010 ready: clean clean page 0 x1",
    "080 100 100 180 100 2AA 010 ready: clean clean page 0 x2",
    "erase 0D0 070 340: clean clean stale",
    "page5: clean clean stale",
];

#[test]
fn the_part_is_learnt_once(rt: HostRuntime) -> Result<(), Fail> {
    for row in &IDENTITIES {
        let (log, expected) = columns(row)?;
        let cycles = cycles_of(rt.alloc(), log)?;
        let held = Held::after(cycles.as_slice(), 2);
        assert_eq!(rt; shown::part(held.bus.part), expected, "{}", log);
    }
    Ok(())
}

#[test]
fn what_is_in_the_register(rt: HostRuntime) -> Result<(), Fail> {
    for row in &REGISTERS {
        let (log, expected) = columns(row)?;
        let cycles = cycles_of(rt.alloc(), log)?;
        let held = Held::after(cycles.as_slice(), 2);
        let register = shown::register(rt.alloc(), held.bus.register)?;
        assert_eq!(rt; register.as_str(), expected, "{}", log);
    }
    Ok(())
}

#[test]
fn how_often_a_page_was_programmed(rt: HostRuntime) -> Result<(), Fail> {
    let mut blocks = [USED; MOST_BLOCKS];
    let mut reader = BusReader::new(&mut blocks);
    for row in &PROGRAMS {
        let (log, expected) = columns(row)?;
        let cycles = cycles_of(rt.alloc(), log)?;
        reader.read_all(cycles.as_slice());
        let block = shown::block(rt.alloc(), reader.block(2))?;
        assert_eq!(rt; block.as_str(), expected, "{}", row);
    }
    Ok(())
}

#[test]
fn breaches_are_counted_up_to_a_limit(rt: HostRuntime) -> Result<(), Fail> {
    let mut blocks = [USED; MOST_BLOCKS];
    let mut reader = BusReader::new(&mut blocks);
    let out_of_place = Cycle {
        kind: Kind::DataIn,
        byte: 0xAA,
    };
    for before in 0..70_000u32 {
        assert_eq!(rt; u32::from(reader.bus().breaches), before.min(65_535));
        reader.read(out_of_place);
    }
    assert_eq!(rt; reader.bus().breaches, 65_535);
    // the last cycle breaks two rules, and there is place for one
    let mut blocks = [USED; MOST_BLOCKS];
    let mut reader = BusReader::new(&mut blocks);
    reader.read_all(cycles_of(rt.alloc(), "one load5")?.as_slice());
    for _ in 0..65_534u32 {
        reader.read(Cycle {
            kind: Kind::Address,
            byte: 0,
        });
    }
    assert_eq!(rt; reader.bus().breaches, 65_534);
    reader.read_all(cycles_of(rt.alloc(), "010")?.as_slice());
    assert_eq!(rt; reader.bus().breaches, 65_535);
    Ok(())
}
