// Whether the record of a block allows work on it.
ghost use Rattle.std.specs.Prelude.{◌≡◌};
ghost use Rattle.record.specs.Judgements.{unfit, unready, admitted};

use flash::fault::Fault;
use flash::page::Page;
use flash::record::{BlockRecord, Mark, Pages};

/// An erase or a program of any page: the marks must be known and clean, and the block not failed.
pub fn judge_block(block: &BlockRecord, page: Page) -> Result<(), Fault>
    ensures { result ≡ admitted (unfit page block.now) }
{
    let marked = block.mark0 == Mark::Marked || block.mark1 == Mark::Marked;
    let unread = block.mark0 == Mark::Unread || block.mark1 == Mark::Unread;
    if !marked && unread {
        return Err(Fault::MarkUnread(page));
    }
    if marked || block.failed {
        return Err(Fault::UnfitBlock(page));
    }
    Ok(())
}

/// A program of a page: the block must be fresh, the page in order and not programmed too often.
pub fn judge_page(block: &BlockRecord, page: Page, in_chain: bool, allowed: u8) -> Result<(), Fault>
    ensures { result ≡ admitted (unready page in_chain allowed block.now.pages) }
{
    let pages = block.pages;
    if pages == Pages::Stale {
        return Err(Fault::StaleBlock(page));
    }
    if pages.out_of_order(in_chain, page.page) {
        return Err(Fault::PageOrder(page));
    }
    if pages.programmed_out(allowed, page.page) {
        return Err(Fault::TooManyPrograms(page));
    }
    Ok(())
}
