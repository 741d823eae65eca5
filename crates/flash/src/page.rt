// A page of a block, as a call names it.
ghost use Rattle.std.specs.Prelude.{◌≡◌};
ghost use Rattle.flash.specs.Addresses.{row_at};

use crate::address::Row;

/// Any block and any page, also such as the part does not have.
#[derive(Clone, Copy, Debug, PartialEq, Eq)]
pub struct Page {
    pub block: u16,
    pub page: u8,
}

impl Page {
    /// The row of the page.
    pub fn row(self) -> Row
        ensures { result ≡ row_at self }
    {
        Row::new(self.block, self.page)
    }
}
