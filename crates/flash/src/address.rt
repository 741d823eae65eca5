// Columns and rows: numbers of their own kind, turned into address bytes only here.
ghost use Rattle.std.specs.Prelude.{◌≡◌, ◌+◌, ◌*◌, ◌^◌, ◌<◌, [], ◌∷◌};
ghost use Rattle.flash.specs.Addresses.{low_bytes, column_of, row_of, block_of, page_of, in_page, next_column, at_mark};

use crate::geometry::{COLUMNS, MARK_COLUMN};

/// Where a byte stands in its page.
#[derive(Clone, Copy, Debug, PartialEq, Eq)]
pub struct Column {
    number: u16,
}

/// A page of the chip: 64 times its block, and its page in the block.
#[derive(Clone, Copy, Debug, PartialEq, Eq)]
pub struct Row {
    number: u32,
}

// Functions by name and no From: a column or a row is made of a number only where that is said.
impl Column {
    /// The first column of a page.
    pub const FIRST: Column = Column { number: 0 };

    pub fn new(number: u16) -> Column
        ensures { result ≡ record { number = number } }
    {
        Column { number }
    }

    pub fn number(self) -> u16
        ensures { result ≡ self.number }
    {
        self.number
    }

    /// Whether the page has this column.
    pub fn is_in_page(self) -> bool
        ensures { result ≡ in_page self }
    {
        self.number < COLUMNS
    }

    /// The column after this one; past the end of the page there is none, and it stays.
    pub fn next(self) -> Column
        ensures { result ≡ next_column self }
    {
        if self.is_in_page() {
            Column::new(self.number + 1)
        } else {
            self
        }
    }

    /// Whether the factory mark of a page stands here.
    pub fn is_mark(self) -> bool
        ensures { result ≡ at_mark self }
    {
        self.number == MARK_COLUMN
    }

    /// The two address bytes, low byte first. From them the column comes back.
    pub fn bytes(self) -> [u8; 2]
        ensures bytes { result ≡ low_bytes 2 self.number }
        ensures back { column_of result ≡ self }
    {
        self.number.to_le_bytes()
    }

    /// The column with these two address bytes.
    pub fn of_bytes(low: u8, high: u8) -> Column
        ensures { result ≡ column_of (low ∷ high ∷ []) }
    {
        Column {
            number: u16::from_le_bytes([low, high]),
        }
    }
}

// By name too, for the same reason.
impl Row {
    /// The row of a page of a block; a page above 63 lies in a later block.
    pub fn new(block: u16, page: u8) -> Row
        ensures { result ≡ record { number = 64 * block + page } }
    {
        Row {
            number: 64 * u32::from(block) + u32::from(page),
        }
    }

    /// How many rows come before it.
    pub fn number(self) -> u32
        ensures { result ≡ self.number }
    {
        self.number
    }

    pub fn block(self) -> u32
        ensures { result ≡ block_of self }
    {
        self.number / 64
    }

    pub fn page(self) -> u8
        ensures { result ≡ page_of self }
    {
        (self.number % 64) as u8
    }

    /// The N lowest bytes of the row, lowest first: two on the 1 Gbit part, three on the 2 Gbit part.
    /// From them the row comes back, if N bytes can hold it.
    pub fn bytes<const N: usize>(self) -> [u8; N]
        ensures bytes { result ≡ low_bytes N self.number }
        ensures back { self.number < 256 ^ N → row_of result ≡ self }
    {
        let mut bytes = [0; N];
        let mut rest = self.number;
        for byte in &mut bytes {
            *byte = (rest % 256) as u8;
            rest /= 256;
        }
        bytes
    }

    /// The row with these address bytes; one that was not given is nought.
    pub fn of_bytes(low: u8, middle: u8, high: u8) -> Row
        ensures { result ≡ row_of (low ∷ middle ∷ high ∷ []) }
    {
        Row {
            number: u32::from_le_bytes([low, middle, high, 0]),
        }
    }
}
