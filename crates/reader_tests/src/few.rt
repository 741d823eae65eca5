// A reader that was lent fewer block records than the part has blocks.
use crate::logs::cycles_of;
use bus::reader::BusReader;
use flash::record::{BlockRecord, Pages};
use std::test::*;

// Block 2 has a record, and its marks and its erase are noted; block 5 has none: its erase is an unfit
// block, and nothing is noted of it.
#[test]
fn a_block_without_a_record(rt: HostRuntime) -> Result<(), Fail> {
    let cycles = cycles_of(rt.alloc(), "one clean fresh 060 140 101 0D0 ready")?;
    let mut blocks = [BlockRecord::FIRST; 3];
    let mut reader = BusReader::new(&mut blocks);
    reader.read_all(cycles.as_slice());
    assert_eq!(rt; reader.bus().breaches, 1);
    assert!(rt; reader.block(2).pages == Pages::Blank, "block 2 fresh");
    assert!(rt; reader.block(5).pages == Pages::Stale, "block 5 stale");
    Ok(())
}
