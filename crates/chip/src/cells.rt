// The cells of a model chip: 2,112 bytes a row, as many as its owner lends. Cells beyond them read
// FFh, and what is written there is lost.
ghost use Rattle.std.specs.Prelude.{◌≡◌, ◌+◌, length, min};
ghost use Rattle.chip.specs.Cells.{cell_at, block_erased, row_programmed, row_held};

use flash::address::Row;
use flash::geometry::{COLUMNS, PAGES};
use std::array;
use std::ops::Range;

pub(crate) const PAGE: usize = COLUMNS as usize;

const BLOCK: usize = PAGES as usize * PAGE;

/// The cell of this number.
pub(crate) fn cell(cells: &[u8], index: usize) -> u8
    ensures { result ≡ cell_at cells.now index }
{
    cells.get(index).copied().unwrap_or(0xFF)
}

// Of `count` cells from `base` on, those that there are.
fn span(cells: &[u8], base: usize, count: usize) -> Range<usize>
    ensures start { result.start ≡ min base (length cells.now) }
    ensures end { result.end ≡ min (base + count) (length cells.now) }
{
    let start = base.min(cells.len());
    start..start + count.min(cells.len() - start)
}

/// Sets all cells of a block to FFh.
pub(crate) fn erase_block(cells: &mut [u8], block: u32)
    ensures { cells.new ≡ block_erased block cells.old }
{
    let block = span(cells, BLOCK * block as usize, BLOCK);
    cells[block].fill(0xFF);
}

/// ANDs a page into the cells of a row.
pub(crate) fn program_row(cells: &mut [u8], row: Row, page: &[u8; PAGE])
    ensures { cells.new ≡ row_programmed row.number page.now cells.old }
{
    let row = span(cells, PAGE * row.number() as usize, PAGE);
    // No `zip` with the page: of the cells that such a loop has changed a proof knows nothing.
    for (column, cell) in cells[row].iter_mut().enumerate() {
        *cell &= page[column];
    }
}

/// The page that a row holds.
pub(crate) fn read_row(cells: &[u8], row: Row) -> [u8; PAGE]
    ensures { result ≡ row_held row.number cells.now }
{
    let base = PAGE * row.number() as usize;
    array::from_fn(|column| cell(cells, base + column))
}
