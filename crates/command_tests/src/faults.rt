// What each fault says of itself.
use flash::fault::Fault;
use flash::page::Page;
use std::test::Fail;

const PAGE: Page = Page {
    block: 1025,
    page: 63,
};

// A fault, its number, its place, and its block and page.
#[derive(Clone, Copy)]
struct Row(Fault, u8, &'static str, Option<u16>, Option<u8>);

const ROWS: [Row; 19] = [
    Row(Fault::Stuck, 1, "state", None, None),
    Row(Fault::SlipOut, 2, "state", None, None),
    Row(Fault::WrongSlip, 3, "state", None, None),
    Row(Fault::Identified, 4, "state", None, None),
    Row(
        Fault::NoSuchBlock { block: 2048 },
        5,
        "arguments",
        Some(2048),
        None,
    ),
    Row(
        Fault::NoSuchPage(PAGE),
        6,
        "arguments",
        Some(1025),
        Some(63),
    ),
    Row(
        Fault::NoSuchSpan(PAGE),
        7,
        "arguments",
        Some(1025),
        Some(63),
    ),
    Row(Fault::MarkUnread(PAGE), 8, "record", Some(1025), Some(63)),
    Row(Fault::UnfitBlock(PAGE), 9, "record", Some(1025), Some(63)),
    Row(Fault::StaleBlock(PAGE), 10, "record", Some(1025), Some(63)),
    Row(Fault::PageOrder(PAGE), 11, "record", Some(1025), Some(63)),
    Row(
        Fault::TooManyPrograms(PAGE),
        12,
        "record",
        Some(1025),
        Some(63),
    ),
    Row(Fault::NoRoom(None), 13, "port", None, None),
    Row(Fault::NoRoom(Some(PAGE)), 13, "port", Some(1025), Some(63)),
    Row(Fault::Timeout(None), 14, "chip", None, None),
    Row(Fault::Timeout(Some(PAGE)), 14, "chip", Some(1025), Some(63)),
    Row(Fault::UnknownPart, 15, "chip", None, None),
    Row(Fault::WorkFailed(PAGE), 16, "chip", Some(1025), Some(63)),
    Row(Fault::WorkProtected(PAGE), 17, "chip", Some(1025), Some(63)),
];

#[test]
fn each_fault(rt: HostRuntime) -> Result<(), Fail> {
    for Row(fault, number, place, block, page) in ROWS {
        assert_eq!(rt; fault.number(), number, "{}", place);
        let shown = fault.place().to_string(rt.alloc())?;
        assert_eq!(rt; shown.as_str(), place);
        assert_eq!(rt; fault.block(), block);
        assert_eq!(rt; fault.page(), page);
    }
    Ok(())
}
