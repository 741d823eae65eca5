// Whether the part has what a call names.
ghost use Rattle.std.specs.Prelude.{◌≡◌, ◌+◌, ◌&&◌, nat_le, nat_lt};
ghost use Rattle.record.specs.Judgements.{admitted};
ghost use Rattle.driver.specs.Refusals.{block_fault, page_fault, span_fault, page_span_fault, argument_fault};

use crate::state::State;
use calls::call::Call;
use calls::slip::chain_page;
use flash::address::Column;
use flash::fault::Fault;
use flash::geometry::{COLUMNS, PAGES};
use flash::page::Page;

fn in_page(column: u16, length: usize) -> bool
    ensures { result ≡ (nat_lt 0 length && nat_le (column + length) 2112) }
{
    let columns = usize::from(COLUMNS);
    length > 0 && length <= columns && usize::from(column) + length <= columns
}

fn has_span(page: Page, column: Column, length: usize) -> Result<(), Fault>
    ensures { result ≡ admitted (span_fault page column length) }
{
    if in_page(column.number(), length) {
        Ok(())
    } else {
        Err(Fault::NoSuchSpan(page))
    }
}

impl State {
    fn has_block(&self, block: u16) -> Result<(), Fault>
        ensures { result ≡ admitted (block_fault self.now.part block) }
    {
        if block < self.blocks() {
            Ok(())
        } else {
            Err(Fault::NoSuchBlock { block })
        }
    }

    fn has_page(&self, limit: u8, page: Page) -> Result<(), Fault>
        ensures { result ≡ admitted (page_fault self.now.part limit page) }
    {
        self.has_block(page.block)?;
        if page.page < limit {
            Ok(())
        } else {
            Err(Fault::NoSuchPage(page))
        }
    }

    fn has_page_span(&self, page: Page, column: Column, length: usize) -> Result<(), Fault>
        ensures { result ≡ admitted (page_span_fault self.now.part page column length) }
    {
        self.has_page(PAGES, page)?;
        has_span(page, column, length)
    }

    fn has_pages(&self, source: Page, destination: Page) -> Result<(), Fault>
        ensures { result ≡ admitted (argument_fault self.now.part (Call.Copy source destination) 0) }
    {
        self.has_page(PAGES, source)?;
        self.has_page(PAGES, destination)
    }

    pub(crate) fn admit_arguments(&self, call: Call, count: usize) -> Result<(), Fault>
        ensures { result ≡ admitted (argument_fault self.now.part call count) }
    {
        match call {
            Call::Look(page) => self.has_page(2, page),
            Call::Read {
                page,
                column,
                length,
            } => self.has_page_span(page, column, length),
            Call::Erase { block } | Call::Record { block } => self.has_block(block),
            Call::Program { page, column } | Call::CacheFirst { page, column } => {
                self.has_page_span(page, column, count)
            }
            Call::CacheNext { slip, page, column } | Call::CacheLast { slip, page, column } => {
                self.has_page_span(chain_page(slip, page), column, count)
            }
            Call::Copy {
                source,
                destination,
            } => self.has_pages(source, destination),
            _ => Ok(()),
        }
    }
}
