// Each breach by each of its causes: logs, and what their last cycle breaks.
use crate::logs::{columns, cycles_of};
use crate::seen::Step;
use crate::shown;
use std::process::Abort;
use std::test::*;

// A command other than 70h and FFh, while anything is busy.
const WHILE_BUSY: [&str; 10] = [
    "0FF 090: while busy",
    "0FF 070 3BF 090: while busy",
    "0FF 001: while busy",
    "one read5 030 000: while busy",
    "one read5 035 085: while busy",
    "one load5 010 080: while busy",
    "one read5 035 ready copy5 010 080: while busy",
    "one load5 015 080: while busy",
    "one load5 015 070 3BF 010: while busy",
    "one erase 0D0 0D0: while busy",
];

// An erase or a program of a block that is failed or not known to be clean.
const UNFIT_BLOCK: [&str; 14] = [
    "one erase 0D0: unfit block",
    "one mark0 erase 0D0: unfit block",
    "one mark1 erase 0D0: unfit block",
    "one bad0 mark1 erase 0D0: unfit block",
    "one mark0 bad1 erase 0D0: unfit block",
    "one clean erase 0D0: nothing",
    "one clean erase 0D0 070 3C1 erase 0D0: unfit block",
    "one clean erase 0D0 070 3C1 fresh load5 010: unfit block",
    "one clean fresh load5 010 070 3C1 erase 0D0: unfit block",
    "one clean fresh load5 010 070 3C1 load6 010: unfit block",
    "one clean fresh load5 010 070 3C1 load6 015: unfit block",
    "one fresh load5 010: unfit block",
    "one fresh load5 015: unfit block",
    "one fresh read5 035 ready copy5 010: unfit block",
];

// A program of a stale block, of a page below the last or, in a chain, of the last page.
const PAGE_ORDER: [&str; 26] = [
    "one clean load5 010: page order",
    "one clean load5 015: page order",
    "one clean read5 035 ready copy5 010: page order",
    "one clean erase 0D0 070 340 load5 010: page order",
    "one clean erase 0D0 0FF ready load5 010: page order",
    "one clean fresh load5 010 0FF ready load6 010: page order",
    "one clean fresh load5 015 0FF ready load6 010: page order",
    "one clean fresh load5 015 ready 0FF ready load6 010: page order",
    "one clean fresh load5 015 ready load6 010 0FF ready load6 010: page order",
    "one clean fresh read5 030 0FF ready load5 010: nothing",
    "one clean fresh load5 0FF ready load5 010: nothing",
    "one clean fresh page5 0FF ready load5 010: nothing",
    "one clean fresh page5 load4 010: page order",
    "one clean fresh page5 load4 015: page order",
    "one clean fresh page5 read5 035 ready 085 100 100 184 100 010: page order",
    "one clean fresh page5 load5 010: nothing",
    "one clean fresh page5 load6 010: nothing",
    "one clean fresh load5 015 ready load4 015: page order",
    "one clean fresh load5 015 ready load5 015: page order",
    "one clean fresh load5 015 ready load5 010: page order",
    "one clean fresh load5 015 ready load6 015: nothing",
    "one clean fresh load5 015 ready load6 010: nothing",
    "one clean fresh load5 015 ready load6 010 ready load6 010: nothing",
    "one load5 010: unfit block, page order",
    "one load5 015: unfit block, page order",
    "one clean erase 0D0 070 3C1 load5 010: unfit block, page order",
];

// A program of the last page once it had four.
const TOO_MANY_PROGRAMS: [&str; 12] = [
    "one clean fresh page5 page5 page5 load5 010: nothing",
    "one clean fresh page5 page5 page5 page5 load5 010: too many programs",
    "one clean fresh page5 page5 page5 page5 load5 015: too many programs",
    "one clean fresh page5 page5 page5 page5 read5 035 ready copy5 010: too many programs",
    "one clean fresh page5 page5 page5 page5 page5 load5 010: too many programs",
    "one clean fresh page5 page5 page5 page5 load4 010: page order",
    "one clean fresh page5 page5 page5 page5 load6 010: nothing",
    "one clean fresh page5 page5 page5 page5 fresh load5 010: nothing",
    "one clean page5 page5 page5 page5 load5 010: page order",
    "one clean fresh page5 page5 page5 load5 015 ready load5 010: page order, too many programs",
    "one clean fresh page5 page5 page5 load5 010 070 3C1 load5 010: unfit block, too many programs",
    "one fresh page5 page5 page5 load5 015 ready load5 015: unfit block, page order, too many programs",
];

pub(crate) fn check_last(
    rt: &(impl Abort + AllocGlobal),
    log: &str,
    expected: &str,
) -> Result<(), Fail> {
    let mut cycles = cycles_of(rt.alloc(), log)?;
    let last = cycles.pop().ok_or("an empty log")?;
    let step = Step::after(cycles.as_slice(), last);
    step.check(rt, log)?;
    assert_eq!(rt;
        shown::broken(rt.alloc(), step.breaches)?.as_str(),
        expected,
        "{}",
        log
    );
    Ok(())
}

pub(crate) fn check_rows(rt: &(impl Abort + AllocGlobal), rows: &[&str]) -> Result<(), Fail> {
    for row in rows {
        let (log, expected) = columns(row)?;
        check_last(rt, log, expected)?;
    }
    Ok(())
}

#[test]
fn each_breach_by_each_cause(rt: HostRuntime) -> Result<(), Fail> {
    check_rows(&rt, &WHILE_BUSY)?;
    check_rows(&rt, &UNFIT_BLOCK)?;
    check_rows(&rt, &PAGE_ORDER)?;
    check_rows(&rt, &TOO_MANY_PROGRAMS)
}
