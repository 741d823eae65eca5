// Slips by their numbers: 8 times the row of a page, and the kind of work that is under way there.
ghost use Rattle.std.specs.Prelude.{◌≡◌, ◌<◌};
ghost use Rattle.calls.specs.Table.{slip_page, chain_page};
ghost use Rattle.calls.specs.Slips.{slip_number};

use flash::page::Page;

/// The work that a slip stands for, by the number of its kind.
#[derive(Clone, Copy, PartialEq, Eq, Debug)]
pub enum SlipKind {
    Erase = 1,
    Program = 2,
    Chain = 3,
}

/// The number of the slip for work on a page; an erase is on page 0 of its block. The page comes back
/// from it, if a block has such a page.
pub fn slip_number(kind: SlipKind, page: Page) -> u32
    ensures number { result ≡ slip_number kind page }
    ensures back { page.page < 64 → slip_page result ≡ page }
{
    8 * page.row().number() + kind as u32
}

/// The page that a slip names.
pub fn slip_page(number: u32) -> Page
    ensures { result ≡ slip_page number }
{
    Page {
        block: (number / 512 % 65536) as u16,
        page: (number / 8 % 64) as u8,
    }
}

/// A page of the block that a chain's slip names.
pub fn chain_page(number: u32, page: u8) -> Page
    ensures { result ≡ chain_page number page }
{
    Page {
        block: slip_page(number).block,
        page,
    }
}
