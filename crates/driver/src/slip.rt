// Slips: each stands for work that is under way, and must come back before it is let go.
ghost use Rattle.std.specs.Prelude.{◌≡◌};
ghost use Rattle.calls.specs.Table.{slip_page};

use calls::slip::slip_page;
use flash::page::Page;

/// A slip is a number: 0 where it is spent; else 8 times the row of its page, and 1 for an erase, 2 for
/// a program, 3 for a chain. It can be let go only where it is spent.
pub struct Slip {
    pub(crate) number: u32,
}

impl Drop for Slip {
    fn drop(self)
        requires { self.number ≡ 0 }
    {
        let Slip { number: _ } = self;
    }
}

impl Slip {
    /// A slip that stands for nothing.
    pub fn spent() -> Slip
        ensures { result.number ≡ 0 }
    {
        Slip { number: 0 }
    }

    // Any slip, live or spent, is let go where a script or the end of a session needs only its number.
    pub(crate) fn spend(self) -> u32
        ensures { result ≡ self.number }
    {
        // A slip is linear: here as in its drop it is taken apart whole, not read at the field.
        let Slip { number } = self;
        number
    }

    pub fn number(&self) -> u32
        ensures { result ≡ self.now.number }
    {
        self.number
    }

    /// The page that the slip names, with its block; page 0 for an erase.
    pub fn page(&self) -> Page
        ensures { result ≡ slip_page self.now.number }
    {
        slip_page(self.number)
    }
}
