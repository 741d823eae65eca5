// Each command byte in each phase.
use crate::logs::{columns, cycles_of};
use crate::seen::Step;
use crate::shown;
use bus::breach::Breaches;
use flash::cycle::{Cycle, Kind};
use std::process::Abort;
use std::test::*;

// Logs to a chip that is not busy then, and the commands that are taken after them.
const IDLE: [&str; 43] = [
    // the part is unknown
    ": 070 090 0FF",
    "0FF ready: 070 090 0FF",
    "090 100 300 300 300 300 300: 070 090 0FF",
    // it is known, and nothing is half given
    "one: any",
    "two: any",
    "one 070: any",
    "one 070 3C0: any",
    "one read5 030 ready: any",
    "one read5 030 ready 000 3AA: any",
    "one read5 035 ready 000 3AA: any",
    "one read5 035 ready 0FF ready: any",
    "one load5 0FF ready: any",
    "one page5: any",
    "one read5 035 ready: any 085",
    "one read5 035 ready 070 300: any 085",
    // the identity
    "090: 0FF",
    "one 090: 0FF",
    "one 090 100: 0FF",
    "one 090 100 3C8 3D1 380 395: 0FF",
    // 00h
    "one 000: 0FF",
    "one read5 030 ready 000: 0FF",
    "one read5 035 ready 000: 0FF",
    // part of an address
    "one 000 100: 0FF",
    "one 000 100 100 185: 0FF",
    "two read5: 0FF",
    "one 060: 0FF",
    "one 060 180: 0FF",
    "two erase: 0FF",
    "one 080: 0FF",
    "one 080 100 100 185: 0FF",
    "one read5 035 ready 085: 0FF",
    // the whole address
    "one read5: 030 035 0FF",
    "two read5 100: 030 035 0FF",
    "one erase: 0D0 0FF",
    "two erase 100: 0D0 0FF",
    "one 080 100 100 185 100: 0FF",
    "one read5 035 ready copy5: 010 0FF",
    "one load5: 010 015 0FF",
    // an open chain, and after it
    "one load5 015 ready: 070 080 0FF",
    "one load5 015 ready 080: 0FF",
    "one load5 015 ready load6: 010 015 0FF",
    "one load5 015 ready load6 010 ready: any",
    "one load5 015 ready 0FF ready: any",
];

// Logs to a chip that is busy then.
const BUSY: [&str; 14] = [
    "0FF",
    "one 0FF",
    "one 0FF 070",
    "one 0FF 070 3BF",
    "one read5 030",
    "one read5 035",
    "one load5 010",
    "one read5 035 ready copy5 010",
    "one erase 0D0",
    "one erase 0D0 070 3BF",
    "one load5 015",
    "one load5 015 070 3BF",
    "one load5 015 ready load6 015",
    "one load5 015 ready load6 010",
];

// The rules on where a command may stand; what a confirm does to its block is not looked at.
fn of_place(breaches: Breaches) -> Breaches {
    Breaches {
        while_busy: breaches.while_busy,
        out_of_place: breaches.out_of_place,
        ..Breaches::NONE
    }
}

fn check_command(
    rt: &(impl Abort + AllocGlobal),
    log: &str,
    cycles: &[Cycle],
    byte: u8,
    expected: &str,
) -> Result<(), Fail> {
    let command = Cycle {
        kind: Kind::Command,
        byte,
    };
    let step = Step::after(cycles, command);
    let at = format!(in rt.alloc(); "{log} 0{byte:02X}")?;
    step.check(rt, at.as_str())?;
    let broken = shown::broken(rt.alloc(), of_place(step.breaches))?;
    assert_eq!(rt; broken.as_str(), expected, "{}", at);
    Ok(())
}

fn check_commands(
    rt: &(impl Abort + AllocGlobal),
    log: &str,
    taken: &str,
    else_breaks: &str,
) -> Result<(), Fail> {
    let cycles = cycles_of(rt.alloc(), log)?;
    let taken = cycles_of(rt.alloc(), taken)?;
    for byte in 0..=255u8 {
        let expected = if taken.iter().any(|cycle| cycle.byte == byte) {
            "nothing"
        } else {
            else_breaks
        };
        check_command(rt, log, cycles.as_slice(), byte, expected)?;
    }
    Ok(())
}

#[test]
fn each_command_in_each_phase(rt: HostRuntime) -> Result<(), Fail> {
    for row in &IDLE {
        let (log, taken) = columns(row)?;
        check_commands(&rt, log, taken, "out of place")?;
    }
    for log in &BUSY {
        check_commands(&rt, log, "070 0FF", "while busy")?;
    }
    Ok(())
}
