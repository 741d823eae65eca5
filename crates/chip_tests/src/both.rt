// The same code on both ends.
use crate::scripts::{cycles_of, expect, run};
use chip::model::ModelChip;
use flash::cycle::Cycle;
use flash::part::Part;
use flash::record::BlockRecord;
use port::port::{HostCycle, HostKind, Port};
use port::send::send;
use port::tape::Tape;
use std::test::Fail;

const RESET: [HostCycle; 2] = [
    HostCycle {
        kind: HostKind::Command,
        byte: 0xFF,
    },
    HostCycle {
        kind: HostKind::Command,
        byte: 0x70,
    },
];

// A tape answers from its replies, then FFh, writes each cycle at the next place, and is full after
// the last.
#[test]
fn a_tape(rt: HostRuntime) -> Result<(), Fail> {
    let mut places = [Cycle::default(); 5];
    let mut tape = Tape::new(&mut places, &[0xC0, 0x12]);
    assert_eq!(rt; tape.room(), 5);
    run(&rt, &mut tape, "0FF 3C0 312 3FF 105")?;
    assert_eq!(rt; tape.room(), 0);
    assert!(rt; tape.take().is_err());
    let expected = cycles_of(rt.alloc(), "0FF 3C0 312 3FF 105")?;
    assert_eq!(rt; tape.written(), expected.as_slice());
    Ok(())
}

#[test]
fn a_list_sent_to_either(rt: HostRuntime) -> Result<(), Fail> {
    let mut places = [Cycle::default(); 3];
    let mut tape = Tape::new(&mut places, &[]);
    assert!(rt; send(&mut tape, &RESET).is_ok());
    assert_eq!(rt; tape.room(), 1);
    assert!(rt; send(&mut tape, &RESET).is_err());
    assert_eq!(rt; tape.written().len(), 3);
    let mut cells = [0xFFu8; 1];
    let mut blocks = [BlockRecord::FIRST; 1024];
    let mut chip = ModelChip::new(Part::OneGbit, &mut cells, &[], &mut blocks);
    assert!(rt; send(&mut chip, &RESET).is_ok());
    expect(&rt, &mut chip, 0xC0, "a reset")
}
