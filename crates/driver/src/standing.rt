// What a session has under way, and which calls that allows.
ghost use Rattle.std.specs.Prelude.{◌≡◌};
ghost use Rattle.record.specs.Judgements.{admitted};
ghost use Rattle.driver.specs.Refusals.{free_fault, reset_fault, slip_fault};
ghost use Rattle.driver.specs.Views.{slip_out, block_at_work, in_chain};

use calls::slip::{SlipKind, slip_number};
use flash::fault::Fault;
use flash::page::Page;

/// Nothing; a chip that did not become ready; or work that a slip is out for: an erase of a block, a
/// program of a page, or a chain of cache programs that has come to a page.
#[derive(Clone, Copy, PartialEq, Eq)]
pub enum Standing {
    Ready,
    Stuck,
    Erasing { block: u16 },
    Programming(Page),
    Chaining(Page),
}

impl Standing {
    // A call that takes no slip.
    pub(crate) fn free(self) -> Result<(), Fault>
        ensures { result ≡ admitted (free_fault self) }
    {
        match self {
            Standing::Ready => Ok(()),
            Standing::Stuck => Err(Fault::Stuck),
            _ => Err(Fault::SlipOut),
        }
    }

    pub(crate) fn resettable(self) -> Result<(), Fault>
        ensures { result ≡ admitted (reset_fault self) }
    {
        match self {
            Standing::Ready | Standing::Stuck => Ok(()),
            _ => Err(Fault::SlipOut),
        }
    }

    // A call that takes this slip: it is out, and of a kind that the call takes.
    pub(crate) fn holding(self, number: u32, kind: bool) -> Result<(), Fault>
        ensures { result ≡ admitted (slip_fault self number kind) }
    {
        if self == Standing::Stuck {
            return Err(Fault::Stuck);
        }
        if self.slip_out() == Some(number) && kind {
            Ok(())
        } else {
            Err(Fault::WrongSlip)
        }
    }

    // The number of the slip that is out.
    pub(crate) fn slip_out(self) -> Option<u32>
        ensures { result ≡ slip_out self }
    {
        match self {
            Standing::Ready | Standing::Stuck => None,
            Standing::Erasing { block } => {
                Some(slip_number(SlipKind::Erase, Page { block, page: 0 }))
            }
            Standing::Programming(page) => Some(slip_number(SlipKind::Program, page)),
            Standing::Chaining(page) => Some(slip_number(SlipKind::Chain, page)),
        }
    }

    pub(crate) fn in_chain(self) -> bool
        ensures { result ≡ in_chain self }
    {
        matches!(self, Standing::Chaining(_))
    }

    pub(crate) fn block_at_work(self) -> Option<u16>
        ensures { result ≡ block_at_work self }
    {
        match self {
            Standing::Ready | Standing::Stuck => None,
            Standing::Erasing { block } => Some(block),
            Standing::Programming(page) | Standing::Chaining(page) => Some(page.block),
        }
    }
}
