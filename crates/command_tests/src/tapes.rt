// Each sequence on a tape, in each way that its poll can go and with each number of places. The cycles
// are written down from the command tables of the chip.
use crate::cycles::{add_cycles, bytes_out};
use crate::sequences::{Sequence, send};
use bus::act::Confirm;
use flash::cycle::Cycle;
use flash::fault::Fault;
use flash::page::Page;
use flash::part::Part;
use port::tape::Tape;
use std::alloc::Global;
use std::process::Abort;
use std::test::Fail;

// What a buffer holds before anything is read.
const UNREAD: u8 = 0x5A;

// How a poll goes: how often it may ask, its cycles, and the status that ended it; none is a timeout.
#[derive(Clone, Copy)]
struct Wait(u16, &'static str, Option<u8>);

const WAITS: [Wait; 7] = [
    Wait(1, "070 3C0", Some(0xC0)),
    Wait(3, "070 3E1", Some(0xE1)),
    Wait(3, "070 380 380 340", Some(0x40)),
    Wait(0, "070", None),
    Wait(1, "070 380", None),
    Wait(2, "070 380 320", None),
    Wait(3, "070 380 300 3BF", None),
];

// A sequence and its cycles on the 1 Gbit and on the 2 Gbit part. At the word poll a poll goes over,
// and what is after it only where that became ready.
#[derive(Clone, Copy)]
struct Case(Sequence, &'static str, &'static str);

const FIRST: Page = Page { block: 0, page: 0 };

const SECOND: Page = Page { block: 1, page: 0 };

const MIDDLE: Page = Page { block: 5, page: 3 };

const LAST: Page = Page {
    block: 1023,
    page: 63,
};

const HIGH: Page = Page {
    block: 1025,
    page: 0,
};

const HIGHEST: Page = Page {
    block: 2047,
    page: 62,
};

const CASES: [Case; 20] = [
    Case(Sequence::Poll(None), "poll", "poll"),
    Case(Sequence::Poll(Some(MIDDLE)), "poll", "poll"),
    Case(Sequence::Reset(None), "0FF poll", "0FF poll"),
    Case(Sequence::Reset(Some(LAST)), "0FF poll", "0FF poll"),
    Case(
        Sequence::Identity,
        "090 100 3C8 3D1 380 395 342",
        "090 100 3C8 3DA 390 395 344",
    ),
    Case(
        Sequence::Read(FIRST, 0),
        "000 100 100 100 100 030 poll 000 312",
        "000 100 100 100 100 100 030 poll 000 312",
    ),
    // the mark of a page
    Case(
        Sequence::Read(MIDDLE, 2048),
        "000 100 108 143 101 030 poll 000 300",
        "000 100 108 143 101 100 030 poll 000 300",
    ),
    Case(
        Sequence::Read(LAST, 0x0123),
        "000 123 101 1FF 1FF 030 poll 000 3AA 355 380",
        "000 123 101 1FF 1FF 100 030 poll 000 3AA 355 380",
    ),
    Case(
        Sequence::Read(HIGHEST, 2111),
        "000 13F 108 1FE 1FF 030 poll 000",
        "000 13F 108 1FE 1FF 101 030 poll 000",
    ),
    Case(
        Sequence::Erase(Page { block: 5, page: 0 }),
        "060 140 101 0D0",
        "060 140 101 100 0D0",
    ),
    Case(
        Sequence::Erase(HIGH),
        "060 140 100 0D0",
        "060 140 100 101 0D0",
    ),
    Case(
        Sequence::Program(SECOND, 0, &[0xAA, 0x55], Confirm::Program),
        "080 100 100 140 100 2AA 255 010",
        "080 100 100 140 100 100 2AA 255 010",
    ),
    Case(
        Sequence::Program(HIGHEST, 0x0456, &[0x00, 0xFF, 0x70], Confirm::Cache),
        "080 156 104 1FE 1FF 200 2FF 270 015",
        "080 156 104 1FE 1FF 101 200 2FF 270 015",
    ),
    Case(
        Sequence::Program(MIDDLE, 2111, &[0x10], Confirm::Copy),
        "080 13F 108 143 101 210 010",
        "080 13F 108 143 101 100 210 010",
    ),
    Case(
        Sequence::Program(MIDDLE, 5, &[], Confirm::Program),
        "080 105 100 143 101 010",
        "080 105 100 143 101 100 010",
    ),
    Case(
        Sequence::CopyRead(FIRST),
        "000 100 100 100 100 035 poll",
        "000 100 100 100 100 100 035 poll",
    ),
    Case(
        Sequence::CopyRead(LAST),
        "000 100 100 1FF 1FF 035 poll",
        "000 100 100 1FF 1FF 100 035 poll",
    ),
    Case(
        Sequence::CopyRead(HIGH),
        "000 100 100 140 100 035 poll",
        "000 100 100 140 100 101 035 poll",
    ),
    Case(
        Sequence::CopyProgram(MIDDLE),
        "085 100 100 143 101 010",
        "085 100 100 143 101 100 010",
    ),
    Case(
        Sequence::CopyProgram(HIGHEST),
        "085 100 100 1FE 1FF 010",
        "085 100 100 1FE 1FF 101 010",
    ),
];

// A sequence on a part, polled so often, and what it is expected to do on a tape with places enough:
// its cycles, the bytes that it gives, and how it ends.
#[derive(Drop)]
struct Run {
    part: Part,
    sequence: Sequence,
    polls: u16,
    cycles: Vec<Cycle>,
    gives: Vec<u8>,
    ends: Result<(), Fault>,
}

impl Run {
    fn new(
        heap: Global,
        part: Part,
        sequence: Sequence,
        text: &str,
        wait: Wait,
    ) -> Result<Run, Fail> {
        let Wait(polls, poll_cycles, status) = wait;
        let mut cycles = Vec::new(heap);
        let mut others = Vec::new(heap);
        let mut ends = Ok(());
        for word in text.split(' ') {
            if word == "poll" {
                add_cycles(poll_cycles, &mut cycles)?;
                if status.is_none() {
                    ends = Err(Fault::Timeout(sequence.page()));
                }
            } else {
                add_cycles(word, &mut others)?;
                if ends.is_ok() {
                    add_cycles(word, &mut cycles)?;
                }
            }
        }
        let mut gives = bytes_out(heap, others.as_slice())?;
        if let Sequence::Poll(_) = sequence {
            gives.push(status.unwrap_or(UNREAD))?;
        }
        if ends.is_err() {
            gives.as_mut_slice().fill(UNREAD);
        }
        Ok(Run {
            part,
            sequence,
            polls,
            cycles,
            gives,
            ends,
        })
    }

    fn check_with_room(
        &self,
        rt: &(impl Abort + AllocGlobal),
        room: usize,
        at: &str,
    ) -> Result<(), Fail> {
        let heap = rt.alloc();
        let mut places = vec![in heap; Cycle::default(); room]?;
        let replies = bytes_out(heap, self.cycles.as_slice())?;
        let mut gives = vec![in heap; UNREAD; self.gives.len()]?;
        let mut tape = Tape::new(places.as_mut_slice(), replies.as_slice());
        let sent = send(
            &mut tape,
            self.part,
            self.polls,
            self.sequence,
            gives.as_mut_slice(),
        );
        let front = &self.cycles.as_slice()[..room.min(self.cycles.len())];
        assert_eq!(rt; tape.written(), front, "{}", at);
        if room < self.cycles.len() {
            assert_eq!(rt; sent, Err(Fault::NoRoom(None)), "{}", at);
            return Ok(());
        }
        assert_eq!(rt; sent, self.ends, "{}", at);
        assert_eq!(rt; gives.as_slice(), self.gives.as_slice(), "{}", at);
        Ok(())
    }
}

fn check_waits(
    rt: &(impl Abort + AllocGlobal),
    part: Part,
    sequence: Sequence,
    text: &str,
) -> Result<(), Fail> {
    let heap = rt.alloc();
    for wait in WAITS {
        let run = Run::new(heap, part, sequence, text, wait)?;
        let at = format!(in heap; "{text}, polled {}", wait.1)?;
        for room in 0..run.cycles.len().saturating_add(3) {
            run.check_with_room(rt, room, at.as_str())?;
        }
    }
    Ok(())
}

#[test]
fn sequences_on_a_tape(rt: HostRuntime) -> Result<(), Fail> {
    for Case(sequence, one, two) in CASES {
        check_waits(&rt, Part::OneGbit, sequence, one)?;
        check_waits(&rt, Part::TwoGbit, sequence, two)?;
    }
    Ok(())
}
