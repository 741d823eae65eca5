// What is known of one block, how work on it changes that, and whether work on it is allowed.
ghost use Rattle.std.specs.Prelude.{◌≡◌, Some};
ghost use Rattle.flash.specs.Records.{fit, out_of_order, programmed_out, pages_after, stale, programmed, program_ended, erase_ended, read_as, mark_read, mark_name, pages_text, record_text};

use crate::status::Verdict;
use std::fmt;

/// A factory mark: not yet read, read as FFh, or read as anything else.
#[derive(Clone, Copy, Debug, PartialEq, Eq)]
pub enum Mark {
    Unread,
    Clean,
    Marked,
}

/// The pages of a block. Stale: nothing is known of them, since the block was not seen erased.
/// Blank and Last are a fresh block, one that was erased in our sight: without a page programmed
/// since, or with the highest page programmed since and how often it was.
#[derive(Clone, Copy, Debug, PartialEq, Eq)]
pub enum Pages {
    Stale,
    Blank,
    Last { page: u8, count: u8 },
}

// Two marks by name and no array: the laws speak of each by itself.
#[derive(Clone, Copy, Debug, PartialEq, Eq)]
pub struct BlockRecord {
    pub mark0: Mark,
    pub mark1: Mark,
    pub failed: bool,
    pub pages: Pages,
}

impl Mark {
    // The first byte read decides the mark.
    fn read(self, byte: u8) -> Mark
        ensures { result ≡ read_as self byte }
    {
        match self {
            Mark::Unread if byte == 0xFF => Mark::Clean,
            Mark::Unread => Mark::Marked,
            Mark::Clean | Mark::Marked => self,
        }
    }
}

impl Pages {
    /// A stale block, a page below the last or, in a chain, the last page.
    pub fn out_of_order(self, in_chain: bool, page: u8) -> bool
        ensures { result ≡ out_of_order self in_chain page }
    {
        match self {
            Pages::Stale => true,
            Pages::Blank => false,
            Pages::Last { page: last, .. } => page < last || in_chain && page == last,
        }
    }

    /// The last page, programmed as often as is allowed.
    pub fn programmed_out(self, allowed: u8, page: u8) -> bool
        ensures { result ≡ programmed_out allowed self page }
    {
        matches!(self, Pages::Last { page: last, count } if page == last && allowed <= count)
    }

    fn after(self, allowed: u8, page: u8) -> Pages
        ensures { result ≡ pages_after allowed self page }
    {
        match self {
            Pages::Stale => Pages::Stale,
            Pages::Blank => Pages::Last { page, count: 1 },
            Pages::Last { page: last, .. } if page < last => self,
            Pages::Last { page: last, count } if page == last => Pages::Last {
                page,
                count: count.saturating_add(1).min(allowed),
            },
            Pages::Last { .. } => Pages::Last { page, count: 1 },
        }
    }
}

impl BlockRecord {
    /// What is known of a block at first: nothing.
    pub const FIRST: BlockRecord = BlockRecord {
        mark0: Mark::Unread,
        mark1: Mark::Unread,
        failed: false,
        pages: Pages::Stale,
    };

    /// Not failed, and both marks clean.
    pub fn is_fit(&self) -> bool
        ensures { result ≡ fit self.now }
    {
        !self.failed && self.mark0 == Mark::Clean && self.mark1 == Mark::Clean
    }

    /// Nothing is known of the pages any more.
    pub fn forget_pages(&mut self)
        ensures { self.new ≡ stale self.old }
    {
        self.pages = Pages::Stale;
    }

    /// A program of this page is confirmed.
    pub fn note_program(&mut self, allowed: u8, page: u8)
        ensures { self.new ≡ programmed allowed page self.old }
    {
        self.pages = self.pages.after(allowed, page);
    }

    /// A program of this block ended.
    pub fn end_program(&mut self, verdict: Verdict)
        ensures { self.new ≡ program_ended verdict self.old }
    {
        if verdict == Verdict::Failed {
            self.failed = true;
        }
    }

    /// An erase of this block ended.
    pub fn end_erase(&mut self, verdict: Verdict)
        ensures { self.new ≡ erase_ended verdict self.old }
    {
        match verdict {
            Verdict::Failed => self.failed = true,
            Verdict::Good => self.pages = Pages::Blank,
            Verdict::Protected => {}
        }
    }

    /// The byte at the mark's column of a page was read; only the first one read of a mark counts.
    pub fn note_mark(&mut self, page: u8, byte: u8)
        ensures { self.new ≡ mark_read page byte self.old }
    {
        match page {
            0 => self.mark0 = self.mark0.read(byte),
            1 => self.mark1 = self.mark1.read(byte),
            _ => {}
        }
    }
}

impl fmt::Display for Mark {
    ghost output = { λ mark. Some (mark_name mark) };

    fn fmt<W: fmt::Write>(&self, f: &mut fmt::Formatter<W>) -> fmt::Result {
        f.write_str(match self {
            Mark::Unread => "unread",
            Mark::Clean => "clean",
            Mark::Marked => "marked",
        })
    }
}

impl fmt::Display for Pages {
    ghost output = { λ pages. Some (pages_text pages) };

    fn fmt<W: fmt::Write>(&self, f: &mut fmt::Formatter<W>) -> fmt::Result {
        match self {
            Pages::Stale => f.write_str("stale"),
            Pages::Blank => f.write_str("blank"),
            Pages::Last { page, count } => write!(f, "last {page} count {count}"),
        }
    }
}

impl fmt::Display for BlockRecord {
    ghost output = { λ block. Some (record_text block) };

    fn fmt<W: fmt::Write>(&self, f: &mut fmt::Formatter<W>) -> fmt::Result {
        let health = if self.failed { "failed" } else { "sound" };
        write!(
            f,
            "record {} {} {health} {}",
            self.mark0, self.mark1, self.pages
        )
    }
}
