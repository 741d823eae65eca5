// The same sequences on a model chip with two rows of cells, one after the other. Its block 0 answers
// C0h; block 1 never becomes ready.
use crate::sequences::{Sequence, send};
use bus::act::Confirm;
use chip::model::ModelChip;
use flash::fault::Fault;
use flash::page::Page;
use flash::part::Part;
use flash::record::BlockRecord;
use std::process::Abort;
use std::test::Fail;

const PAGE_0: Page = Page { block: 0, page: 0 };

const PAGE_1: Page = Page { block: 0, page: 1 };

const STUCK: Page = Page { block: 1, page: 0 };

// A sequence, the bytes that it gives, and how it ends.
#[derive(Clone, Copy)]
struct Step(Sequence, &'static [u8], Result<(), Fault>);

const STEPS: [Step; 21] = [
    Step(Sequence::Erase(PAGE_0), &[], Ok(())),
    Step(Sequence::Poll(None), &[0xC0], Ok(())),
    Step(Sequence::Read(PAGE_0, 0), &[0xFF, 0xFF], Ok(())),
    Step(
        Sequence::Program(PAGE_0, 2046, &[0xAA, 0x55, 0x0F], Confirm::Program),
        &[],
        Ok(()),
    ),
    Step(Sequence::Poll(Some(PAGE_0)), &[0xC0], Ok(())),
    Step(
        Sequence::Read(PAGE_0, 2045),
        &[0xFF, 0xAA, 0x55, 0x0F, 0xFF],
        Ok(()),
    ),
    // a second program of the page is ANDed
    Step(
        Sequence::Program(PAGE_0, 2046, &[0xF0], Confirm::Program),
        &[],
        Ok(()),
    ),
    Step(Sequence::Poll(None), &[0xC0], Ok(())),
    Step(Sequence::Read(PAGE_0, 2046), &[0xA0, 0x55], Ok(())),
    Step(Sequence::CopyRead(PAGE_0), &[], Ok(())),
    Step(Sequence::CopyProgram(PAGE_1), &[], Ok(())),
    Step(Sequence::Poll(Some(PAGE_1)), &[0xC0], Ok(())),
    Step(
        Sequence::Read(PAGE_1, 2045),
        &[0xFF, 0xA0, 0x55, 0x0F, 0xFF],
        Ok(()),
    ),
    // a block that does not become ready, and the reset after it
    Step(Sequence::Erase(STUCK), &[], Ok(())),
    Step(
        Sequence::Poll(Some(STUCK)),
        &[0],
        Err(Fault::Timeout(Some(STUCK))),
    ),
    Step(Sequence::Reset(Some(STUCK)), &[], Ok(())),
    Step(Sequence::Read(PAGE_1, 2047), &[0x55], Ok(())),
    // a cache page, and the one that ends the chain
    Step(
        Sequence::Program(PAGE_1, 0, &[0x11], Confirm::Cache),
        &[],
        Ok(()),
    ),
    Step(Sequence::Poll(None), &[0xC0], Ok(())),
    Step(
        Sequence::Program(Page { block: 0, page: 2 }, 0, &[0x22], Confirm::Program),
        &[],
        Ok(()),
    ),
    Step(Sequence::Poll(None), &[0xC0], Ok(())),
];

fn check_step(
    rt: &(impl Abort + AllocGlobal),
    chip: &mut ModelChip<'_>,
    part: Part,
    step: Step,
) -> Result<(), Fail> {
    let Step(sequence, expected, ends) = step;
    let mut gives = vec![in rt.alloc(); 0u8; expected.len()]?;
    let sent = send(chip, part, 3, sequence, gives.as_mut_slice());
    assert_eq!(rt; sent, ends);
    assert_eq!(rt; gives.as_slice(), expected);
    Ok(())
}

fn check_steps(
    rt: &(impl Abort + AllocGlobal),
    part: Part,
    identity: &'static [u8],
    blocks: &mut [BlockRecord],
) -> Result<(), Fail> {
    let mut cells = [0xFFu8; 4224];
    let statuses = [0xC0, 0x80];
    let mut chip = ModelChip::new(part, &mut cells, &statuses, blocks);
    let first = [
        Step(Sequence::Reset(None), &[], Ok(())),
        Step(Sequence::Identity, identity, Ok(())),
    ];
    let last = [Step(Sequence::Read(PAGE_1, 0), &[0x11, 0xFF], Ok(()))];
    for step in first.into_iter().chain(STEPS).chain(last) {
        check_step(rt, &mut chip, part, step)?;
    }
    Ok(())
}

#[test]
fn sequences_on_a_chip(rt: HostRuntime) -> Result<(), Fail> {
    let mut blocks = [BlockRecord::FIRST; 1024];
    check_steps(
        &rt,
        Part::OneGbit,
        &[0xC8, 0xD1, 0x80, 0x95, 0x42],
        &mut blocks,
    )?;
    let mut blocks = [BlockRecord::FIRST; 2048];
    check_steps(
        &rt,
        Part::TwoGbit,
        &[0xC8, 0xDA, 0x90, 0x95, 0x44],
        &mut blocks,
    )
}
