// Each byte as a status.
use crate::marks::held_with;
use crate::shown;
use std::process::Abort;
use std::test::*;

// Work that a status may end: the log up to the status, what is busy before and after the end, and
// the pages of block 2 before the end and after a good one.
#[derive(Clone, Copy)]
struct Work {
    log: &'static str,
    busy: &'static str,
    ended: &'static str,
    pages: &'static str,
    good: &'static str,
    can_fail: bool,
}

const WORKS: [Work; 6] = [
    Work {
        log: "one erase 0D0 070",
        busy: "erase of block 2",
        ended: "nothing",
        pages: "stale",
        good: "fresh",
        can_fail: true,
    },
    Work {
        log: "one fresh load5 010 070",
        busy: "program of block 2",
        ended: "nothing",
        pages: "page 5 x1",
        good: "page 5 x1",
        can_fail: true,
    },
    Work {
        log: "one fresh load5 015 ready load6 010 070",
        busy: "program of block 2 in a chain of block 2",
        ended: "nothing",
        pages: "page 6 x1",
        good: "page 6 x1",
        can_fail: true,
    },
    Work {
        log: "one fresh load5 015 070",
        busy: "cache page in a chain of block 2",
        ended: "nothing in a chain of block 2",
        pages: "page 5 x1",
        good: "page 5 x1",
        can_fail: false,
    },
    Work {
        log: "one fresh read5 035 070",
        busy: "read of block 2 page 5 column 0 to copy",
        ended: "nothing",
        pages: "fresh",
        good: "fresh",
        can_fail: false,
    },
    Work {
        log: "one fresh 0FF 070",
        busy: "reset",
        ended: "nothing",
        pages: "fresh",
        good: "fresh",
        can_fail: false,
    },
];

fn check_status(rt: &(impl Abort + AllocGlobal), work: Work, status: u8) -> Result<(), Fail> {
    let is_ready = status / 64 % 2 == 1;
    let has_failed = status % 2 == 1;
    let is_unprotected = status / 128 == 1;
    let failed = if is_ready && has_failed && work.can_fail {
        " failed"
    } else {
        ""
    };
    let pages = if is_ready && !has_failed && is_unprotected {
        work.good
    } else {
        work.pages
    };
    let held = held_with(rt.alloc(), work.log, status, "")?;
    let expected = format!(in rt.alloc(); "unread unread{failed} {pages}")?;
    let at = format!(in rt.alloc(); "{} 3{status:02X}", work.log)?;
    held.check_block(rt, expected.as_str(), at.as_str())?;
    let busy = shown::work(rt.alloc(), &held.bus)?;
    let expected = if is_ready { work.ended } else { work.busy };
    assert_eq!(rt; busy.as_str(), expected, "{}", at);
    Ok(())
}

#[test]
fn each_byte_as_a_status(rt: HostRuntime) -> Result<(), Fail> {
    for work in &WORKS {
        for status in 0..=255u8 {
            check_status(&rt, *work, status)?;
        }
    }
    Ok(())
}
