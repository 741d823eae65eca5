// Cycles out of place, by each cause.
use crate::breaches::check_last;
use std::test::*;

// Logs whose last cycle is out of place.
const OUT_OF_PLACE: [&str; 74] = [
    // a command that there is not, and one of an unknown part
    "001",
    "one 001",
    "000",
    "060",
    "080",
    "085",
    // a confirm of nothing, or of something else
    "one 030",
    "one 035",
    "one 0D0",
    "one 010",
    "one 015",
    "one read5 0D0",
    "one read5 010",
    "one erase 030",
    "one erase 010",
    "one load5 0D0",
    "one load5 030",
    "one 080 100 100 185 100 010",
    "one 080 100 100 185 100 015",
    "one read5 035 ready copy5 015",
    // a copy without the flag
    "one 085",
    "one read5 030 ready 085",
    "one read5 035 ready 0FF ready 085",
    "one read5 035 ready 000 3AA 085",
    "one read5 035 ready fresh 085",
    // while a command is half given
    "one 000 000",
    "one 060 080",
    "one load5 080",
    "one erase 090",
    "one 090 090",
    "090 070",
    "090 100 070",
    "one 000 070",
    "one 060 070",
    "one load5 070",
    // in a chain
    "one load5 015 ready 000",
    "one load5 015 ready 060",
    "one load5 015 ready 085",
    "one load5 015 ready 090",
    "one load5 015 ready 010",
    // an address byte
    "100",
    "one 100",
    "one 070 100",
    "090 120",
    "090 100 100",
    "one read5 100",
    "one erase 100",
    "one load5 100",
    "one erase 0D0 100",
    // a byte in
    "2AA",
    "one 2AA",
    "one 070 2AA",
    "one 000 2AA",
    "one read5 2AA",
    "one erase 2AA",
    "one 080 2AA",
    "one 080 100 100 185 2AA",
    "one read5 035 ready copy5 2AA",
    "one load5 010 2AA",
    // a byte out
    "3C0",
    "090 3C8",
    "090 100 3C8 3D1 380 395 342 300",
    "one 000 3AA",
    "one 000 100 3AA",
    "one read5 3AA",
    "one load5 3AA",
    "one erase 0D0 3C0",
    "one read5 030 3AA",
    "one 070 3C0 erase 3C0",
    // a byte out of a register that was emptied
    "one read5 030 ready fresh 000 3AA",
    "one read5 030 ready page5 000 3AA",
    "one read5 030 ready 090 100 3C8 3D1 380 395 342 000 3AA",
    "one read5 035 ready copy5 010 ready 000 3AA",
    "one read5 030 ready 0FF ready 000 3AA",
];

#[test]
fn each_cycle_that_is_out_of_place(rt: HostRuntime) -> Result<(), Fail> {
    for log in &OUT_OF_PLACE {
        check_last(&rt, log, "out of place")?;
    }
    Ok(())
}
