// The model chip, script by script; each begins on a chip of its own with not quite four rows of cells. Its
// block 0 answers C0h, block 1 C1h, block 2 40h; the list of status bytes has no more.
use crate::scripts::run;
use chip::model::ModelChip;
use flash::part::Part;
use flash::record::BlockRecord;
use port::port::Port;
use std::process::Abort;
use std::test::Fail;

// Rows 0 to 2, and 1,000 bytes of row 3.
const CELLS: usize = 3 * 2112 + 1000;

fn run_on(rt: &(impl Abort + AllocGlobal), part: Part, script: &str) -> Result<(), Fail> {
    let mut cells = [0xFFu8; CELLS];
    let statuses = [0xC0, 0xC1, 0x40];
    let mut blocks = [BlockRecord::FIRST; 2048];
    let mut chip = ModelChip::new(part, &mut cells, &statuses, &mut blocks);
    run(rt, &mut chip, script)
}

fn run_each(rt: &(impl Abort + AllocGlobal), part: Part, scripts: &[&str]) -> Result<(), Fail> {
    for script in scripts {
        run_on(rt, part, script)?;
    }
    Ok(())
}

const ONE_GBIT: [&str; 14] = [
    // before anything is asked, and after the identity
    "3FF 0FF 3FF ready",
    "one 3FF 070 3C0 3C0",
    // a program in the middle of a page, read back with its neighbours
    "one erase0 080 105 100 100 100 2AA 255 010 ready 000 104 100 100 100 030 ready 000 3FF 3AA 355 3FF",
    // partial programs of one byte are ANDed
    "one page0 2F0 2FF 010 ready page0 23C 20F 010 ready read0 330 30F 3FF",
    // a copy takes the whole page, whatever column its address gives
    "one page0 212 234 010 ready 000 100 100 100 100 035 ready 085 107 100 101 100 010 ready read1 312 334 3FF",
    // and ANDs it into what the page holds
    "one page1 20F 2FF 010 ready page0 2F3 234 010 ready 000 100 100 100 100 035 ready 085 100 100 101 100 010 ready read1 303 334 3FF",
    // an erase of the block, and one of another
    "one page0 200 010 ready erase0 read0 3FF",
    "one page0 200 010 ready 060 1C0 100 0D0 ready read0 300 3FF",
    // two cache pages and the program that ends them
    "one page0 211 015 ready page1 222 010 ready read0 311 3FF read1 322 3FF",
    // a reset in the middle of the bytes: nothing is programmed, and nothing of them is left
    "one page0 211 222 0FF ready read0 3FF 3FF 080 101 100 100 100 233 010 ready read0 3FF 333 3FF",
    // confirms that are out of place or while busy change no cell
    "one page0 200 010 ready page1 211 0D0 030 010 ready read0 300 3FF read1 311 3FF",
    "one page0 200 010 060 100 100 0D0 010 ready read0 300 3FF page1 222 0FF 010 ready read1 3FF",
    // the last column is copied too
    "one 080 13F 108 100 100 277 010 ready 000 100 100 100 100 035 ready 085 100 100 101 100 010 ready 000 13F 108 101 100 030 ready 000 377 3FF",
    // the memory ends in the middle of row 3
    "one 080 1E7 103 103 100 211 222 010 ready 000 1E7 103 103 100 030 ready 000 311 3FF",
];

#[test]
fn one_gbit_scripts(rt: HostRuntime) -> Result<(), Fail> {
    run_each(&rt, Part::OneGbit, &ONE_GBIT)
}

const TWO_GBIT: [&str; 3] = [
    "two 080 100 100 102 100 100 2AA 010 ready 000 100 100 102 100 100 030 ready 000 3AA 3FF",
    // a row beyond the cells: its program is lost, and it reads FFh
    "two 080 100 100 104 100 100 2AA 010 ready 000 100 100 104 100 100 030 ready 000 3FF 3FF",
    // the last row of the part
    "two 080 100 100 1FF 1FF 101 2AA 010 ready 000 100 100 1FF 1FF 101 030 ready 000 3FF",
];

#[test]
fn two_gbit_scripts(rt: HostRuntime) -> Result<(), Fail> {
    run_each(&rt, Part::TwoGbit, &TWO_GBIT)
}

const STATUSES: [&str; 6] = [
    "one 060 100 100 0D0 070 3C0",
    "one 060 140 100 0D0 070 3C1 3C1",
    "one 080 100 100 180 100 200 010 070 340",
    "one 060 1C0 100 0D0 070 3C0",
    // a read or a reset after it answers ready again
    "one 060 140 100 0D0 070 3C1 000 100 100 100 100 030 070 3C0",
    "one 060 140 100 0D0 0FF 070 3C0",
];

#[test]
fn status_bytes_by_block(rt: HostRuntime) -> Result<(), Fail> {
    run_each(&rt, Part::OneGbit, &STATUSES)
}

fn room_with(part: Part, blocks: &mut [BlockRecord]) -> usize {
    let mut cells = [0u8; 1];
    let chip = ModelChip::new(part, &mut cells, &[], blocks);
    chip.room()
}

#[test]
fn room_by_block_records(rt: HostRuntime) {
    assert_eq!(rt;
        room_with(Part::OneGbit, &mut [BlockRecord::FIRST; 1024]),
        65_535
    );
    assert_eq!(rt;
        room_with(Part::OneGbit, &mut [BlockRecord::FIRST; 1023]),
        0
    );
    assert_eq!(rt;
        room_with(Part::TwoGbit, &mut [BlockRecord::FIRST; 2048]),
        65_535
    );
    assert_eq!(rt;
        room_with(Part::TwoGbit, &mut [BlockRecord::FIRST; 2047]),
        0
    );
}
