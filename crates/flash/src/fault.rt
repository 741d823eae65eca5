// Why a call is turned away.
ghost use Rattle.std.specs.Prelude.{◌≡◌, Some};
ghost use Rattle.flash.specs.Faults.{number_of, place_of, place_name, concerned, block_in, page_in, block_concerned, page_concerned, fault_text};
ghost use Rattle.flash.specs.declared.fault.Fault.TheVariants.{UnknownPart};

use crate::page::Page;
use crate::part::UnknownIdentity;
use std::error::Error;
use std::fmt;

/// Where a call is turned away: before anything is put at state, arguments, record and port, and
/// after some of its cycles at the chip.
#[derive(Clone, Copy, Debug, PartialEq, Eq)]
pub enum Place {
    State,
    Arguments,
    Record,
    Port,
    Chip,
}

/// One variant for each refusal, in the order in which they are tried, with the block and page
/// concerned where there is one.
#[derive(Clone, Copy, Debug, PartialEq, Eq)]
pub enum Fault {
    /// The chip did not become ready, and no reset has succeeded since.
    Stuck,
    /// A slip is out, and the call takes none.
    SlipOut,
    /// The slip's work is not under way, or the call takes another kind.
    WrongSlip,
    /// The part is identified already.
    Identified,
    NoSuchBlock { block: u16 },
    NoSuchPage(Page),
    /// No byte, or a byte past the end of the page.
    NoSuchSpan(Page),
    /// A mark is unread, and none is known to be marked.
    MarkUnread(Page),
    /// Marked by the factory, or failed.
    UnfitBlock(Page),
    StaleBlock(Page),
    /// A page below the last one or, in a chain, not above it.
    PageOrder(Page),
    TooManyPrograms(Page),
    /// The port has less room than the call may need.
    NoRoom(Option<Page>),
    /// A poll ended without a ready status.
    Timeout(Option<Page>),
    /// The identity is of neither part.
    UnknownPart,
    WorkFailed(Page),
    /// The chip was protected.
    WorkProtected(Page),
}

// What a fault concerns: a block alone, or a page of a block.
#[derive(Clone, Copy)]
enum Concern {
    Block(u16),
    One(Page),
}

impl Concern {
    fn block(self) -> u16
        ensures { result ≡ block_in self }
    {
        match self {
            Concern::Block(block) => block,
            Concern::One(page) => page.block,
        }
    }

    fn page(self) -> Option<u8>
        ensures { result ≡ page_in self }
    {
        match self {
            Concern::Block(_) => None,
            Concern::One(page) => Some(page.page),
        }
    }
}

impl Fault {
    /// The number of the refusal, 1 to 17.
    pub fn number(self) -> u8
        ensures { result ≡ number_of self }
    {
        // Variants that carry a page have no number of their own to cast.
        match self {
            Fault::Stuck => 1,
            Fault::SlipOut => 2,
            Fault::WrongSlip => 3,
            Fault::Identified => 4,
            Fault::NoSuchBlock { .. } => 5,
            Fault::NoSuchPage(_) => 6,
            Fault::NoSuchSpan(_) => 7,
            Fault::MarkUnread(_) => 8,
            Fault::UnfitBlock(_) => 9,
            Fault::StaleBlock(_) => 10,
            Fault::PageOrder(_) => 11,
            Fault::TooManyPrograms(_) => 12,
            Fault::NoRoom(_) => 13,
            Fault::Timeout(_) => 14,
            Fault::UnknownPart => 15,
            Fault::WorkFailed(_) => 16,
            Fault::WorkProtected(_) => 17,
        }
    }

    pub fn place(self) -> Place
        ensures { result ≡ place_of self }
    {
        match self {
            Fault::Stuck | Fault::SlipOut | Fault::WrongSlip | Fault::Identified => Place::State,
            Fault::NoSuchBlock { .. } | Fault::NoSuchPage(_) | Fault::NoSuchSpan(_) => {
                Place::Arguments
            }
            Fault::MarkUnread(_)
            | Fault::UnfitBlock(_)
            | Fault::StaleBlock(_)
            | Fault::PageOrder(_)
            | Fault::TooManyPrograms(_) => Place::Record,
            Fault::NoRoom(_) => Place::Port,
            Fault::Timeout(_)
            | Fault::UnknownPart
            | Fault::WorkFailed(_)
            | Fault::WorkProtected(_) => Place::Chip,
        }
    }

    fn concern(self) -> Option<Concern>
        ensures { result ≡ concerned self }
    {
        match self {
            Fault::Stuck
            | Fault::SlipOut
            | Fault::WrongSlip
            | Fault::Identified
            | Fault::UnknownPart => None,
            Fault::NoSuchBlock { block } => Some(Concern::Block(block)),
            Fault::NoSuchPage(page)
            | Fault::NoSuchSpan(page)
            | Fault::MarkUnread(page)
            | Fault::UnfitBlock(page)
            | Fault::StaleBlock(page)
            | Fault::PageOrder(page)
            | Fault::TooManyPrograms(page)
            | Fault::WorkFailed(page)
            | Fault::WorkProtected(page) => Some(Concern::One(page)),
            Fault::NoRoom(page) | Fault::Timeout(page) => page.map(Concern::One),
        }
    }

    /// The block concerned, if there is one.
    pub fn block(self) -> Option<u16>
        ensures { result ≡ block_concerned self }
    {
        self.concern().map(Concern::block)
    }

    /// The page concerned, if there is one.
    pub fn page(self) -> Option<u8>
        ensures { result ≡ page_concerned self }
    {
        self.concern().and_then(Concern::page)
    }
}

/// An identity of neither part is refused.
impl From<UnknownIdentity> for Fault {
    ghost from_gives = { λ _ fault. fault ≡ UnknownPart };

    fn from(_unknown: UnknownIdentity) -> Self {
        Self::UnknownPart
    }
}

impl fmt::Display for Place {
    ghost output = { λ place. Some (place_name place) };

    fn fmt<W: fmt::Write>(&self, f: &mut fmt::Formatter<W>) -> fmt::Result {
        f.write_str(match self {
            Place::State => "state",
            Place::Arguments => "arguments",
            Place::Record => "record",
            Place::Port => "port",
            Place::Chip => "chip",
        })
    }
}

/// The refusal's number and place, and the block and page concerned where there is one.
impl fmt::Display for Fault {
    ghost output = { λ fault. Some (fault_text fault) };

    fn fmt<W: fmt::Write>(&self, f: &mut fmt::Formatter<W>) -> fmt::Result {
        let number = self.number();
        let place = self.place();
        write!(f, "refused {number} {place}")?;
        if let Some(block) = self.block() {
            write!(f, " block {block}")?;
        }
        if let Some(page) = self.page() {
            write!(f, " page {page}")?;
        }
        Ok(())
    }
}

impl Error for Fault {}
