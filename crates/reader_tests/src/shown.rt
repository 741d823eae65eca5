// What the reader tells, and what it holds of a block and of the chip's work, as text.
use bus::breach::Breaches;
use bus::state::{BusState, PageRead, Work};
use flash::address::{Column, Row};
use flash::part::Part;
use flash::record::{BlockRecord, Pages};
use std::alloc::{AllocError, Global};

pub(crate) fn broken(heap: Global, breaches: Breaches) -> Result<String, AllocError> {
    let rules: Vec<String> = breaches
        .rules()
        .into_iter()
        .flatten()
        .map(|breach| breach.to_string(heap))
        .try_collect(heap)?;
    if rules.is_empty() {
        return String::from_str(heap, "nothing");
    }
    rules.as_slice().join(heap, ", ")
}

// In words of the tables: fresh is erased in sight.
fn pages(heap: Global, pages: Pages) -> Result<String, AllocError> {
    match pages {
        Pages::Stale => format!(in heap; "stale"),
        Pages::Blank => format!(in heap; "fresh"),
        Pages::Last { page, count } => format!(in heap; "page {page} x{count}"),
    }
}

pub(crate) fn block(heap: Global, block: BlockRecord) -> Result<String, AllocError> {
    let BlockRecord { mark0, mark1, .. } = block;
    let failed = if block.failed { " failed" } else { "" };
    let pages = pages(heap, block.pages)?;
    format!(in heap; "{mark0} {mark1}{failed} {pages}")
}

pub(crate) fn part(part: Option<Part>) -> &'static str {
    match part {
        None => "unknown",
        Some(Part::OneGbit) => "1 Gbit",
        Some(Part::TwoGbit) => "2 Gbit",
    }
}

pub(crate) fn place(heap: Global, row: Row, column: Column) -> Result<String, AllocError> {
    let block = row.block();
    let page = row.page();
    let column = column.number();
    format!(in heap; "block {block} page {page} column {column}")
}

fn page_read(heap: Global, read: PageRead) -> Result<String, AllocError> {
    let place = place(heap, read.row, read.column)?;
    let copy = if read.copy { " to copy" } else { "" };
    format!(in heap; "{place}{copy}")
}

pub(crate) fn register(heap: Global, register: Option<PageRead>) -> Result<String, AllocError> {
    match register {
        None => format!(in heap; "empty"),
        Some(read) => page_read(heap, read),
    }
}

fn busy(heap: Global, busy: Option<Work>) -> Result<String, AllocError> {
    match busy {
        None => format!(in heap; "nothing"),
        Some(Work::Reset) => format!(in heap; "reset"),
        Some(Work::Read(read)) => {
            let page = page_read(heap, read)?;
            format!(in heap; "read of {page}")
        }
        Some(Work::CachePage) => format!(in heap; "cache page"),
        Some(Work::Program { block }) => format!(in heap; "program of block {block}"),
        Some(Work::Erase { block }) => format!(in heap; "erase of block {block}"),
    }
}

/// What is busy, and the chain.
pub(crate) fn work(heap: Global, bus: &BusState) -> Result<String, AllocError> {
    let mut text = busy(heap, bus.busy)?;
    if let Some(block) = bus.chain {
        write!(text, " in a chain of block {block}")?;
    }
    Ok(text)
}
