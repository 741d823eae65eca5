// The edges of an address and of a page.
use crate::breaches::check_rows;
use crate::logs::cycles_of;
use crate::seen::Held;
use std::test::*;

// Logs to the last byte of an address or of a page, and what the last cycle breaks.
const EDGES: [&str; 35] = [
    // the last block, and one past it
    "two 000 100 100 1FF 1FF 101: nothing",
    "two 000 100 100 100 100 102: out of place",
    "two 000 100 100 1FF 1FF 1FF: out of place",
    "two 000 100 100 100 100 102 101: nothing",
    "two 000 100 100 100 100 102 101 030: nothing",
    "two 060 1FF 1FF 101: nothing",
    "two 060 100 100 102: out of place",
    "two 060 100 100 102 101: nothing",
    "two 060 100 100 102 0D0: out of place",
    "two 080 100 100 1FF 1FF 101: nothing",
    "two 080 100 100 100 100 102: out of place",
    "two 080 100 100 100 100 102 101: nothing",
    "two 080 100 100 100 100 102 2AA: out of place",
    "two read5 100 035 ready 085 100 100 1FF 1FF 101: nothing",
    "two read5 100 035 ready 085 100 100 100 100 102: out of place",
    "two read5 100 035 ready 085 100 100 100 100 102 101 010: unfit block, page order",
    "one 000 100 100 1FF 1FF: nothing",
    "one 060 1FF 1FF: nothing",
    "one 080 100 100 1FF 1FF: nothing",
    // another block than the chain's
    "one clean fresh load5 015 ready 080 100 100 186 101: out of place",
    "one clean fresh load5 015 ready 080 100 100 1C6 100: out of place",
    "one clean fresh load5 015 ready 080 100 100 186 101 100: nothing",
    "one clean fresh load5 015 ready 080 100 100 186 101 100 2AA 015: nothing",
    "one clean fresh load5 015 ready load6 010 ready 080 100 100 186 101: nothing",
    "two 080 100 100 185 100 100 2AA 015 ready 080 100 100 186 100 101: out of place",
    "two 080 100 100 185 100 100 2AA 015 ready 080 100 100 186 100 101 100: nothing",
    // the last column of a page, and one past it
    "one 080 13F 108 185 100 2AA: nothing",
    "one 080 13F 108 185 100 2AA 2AA: out of place",
    "one 080 140 108 185 100 2AA: out of place",
    "one 080 1FF 1FF 185 100 2AA: out of place",
    "one fresh 080 13F 108 185 100 2AA 2AA 010: unfit block",
    "one 000 13F 108 185 100 030 ready 000 3AA: nothing",
    "one 000 13F 108 185 100 030 ready 000 3AA 3AA: out of place",
    "one 000 140 108 185 100 030 ready 000 3AA: out of place",
    "one 000 1FF 1FF 185 100 030 ready 000 3AA: out of place",
];

// Logs, a block, and its record then: the erased block alone is fresh.
const LAST_BLOCKS: [(&str, u32, &str); 6] = [
    ("two 060 1C0 1FF 101 0D0 ready", 2047, "unread unread fresh"),
    ("two 060 1C0 1FF 101 0D0 ready", 2046, "unread unread stale"),
    ("two 060 1C0 1FF 101 0D0 ready", 0, "unread unread stale"),
    ("one 060 1FF 1FF 0D0 ready", 1023, "unread unread fresh"),
    ("one 060 1FF 1FF 0D0 ready", 1022, "unread unread stale"),
    ("one 060 1FF 1FF 0D0 ready", 2047, "unread unread stale"),
];

#[test]
fn edges_of_an_address(rt: HostRuntime) -> Result<(), Fail> {
    check_rows(&rt, &EDGES)?;
    for (log, block, expected) in &LAST_BLOCKS {
        let cycles = cycles_of(rt.alloc(), log)?;
        let held = Held::after(cycles.as_slice(), *block);
        let at = format!(in rt.alloc(); "block {block} after {log}")?;
        held.check_block(&rt, expected, at.as_str())?;
    }
    Ok(())
}
