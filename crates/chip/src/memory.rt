// The memory of a model chip, and what each act does to it.
ghost use Rattle.std.specs.Prelude.{◌≡◌};
ghost use Rattle.chip.specs.Cells.{blank_page};
ghost use Rattle.chip.specs.Chips.{begins_program, loaded, copied_page, new_page, page_by, loaded_by, cells_after, status_of, status_after, remembers, identity_byte, register_byte, answer};
ghost use Rattle.chip.specs.States.{memory_in};

use crate::cells::{PAGE, cell, erase_block, program_row, read_row};
use bus::act::Act;
use bus::state::{BusState, PageRead, Phase, Setup, Work};
use flash::address::Column;
use flash::part::Part;
use flash::status::is_ready;

/// The status of a chip that is ready and has done well.
const READY: u8 = 0xC0;

/// The cells that the owner lends, the page buffer in which bytes wait for their confirm, and the
/// status byte to answer.
#[derive(Drop)]
pub(crate) struct ChipMemory<'a> {
    cells: &'a mut [u8],
    page: [u8; PAGE],
    status: u8,
}

fn begins_program(phase: Phase) -> bool
    ensures { result ≡ begins_program phase }
{
    matches!(phase, Phase::Addressing { setup: Setup::Program, given } if given.count == 0)
}

// By index, since nothing is known of a page whose byte `get_mut` lent.
fn load(page: &mut [u8; PAGE], column: Column, byte: u8)
    ensures { page.new ≡ loaded page.old column byte }
{
    let at = usize::from(column.number());
    if at < PAGE {
        page[at] = byte;
    }
}

fn blank_page() -> [u8; PAGE]
    ensures { result ≡ blank_page }
{
    [0xFF; PAGE]
}

// The page of a copy read that ends.
fn copied_page(cells: &[u8], busy: Option<Work>) -> Option<[u8; PAGE]>
    ensures { result ≡ copied_page busy cells.now }
{
    match busy {
        Some(Work::Read(read)) if read.copy => Some(read_row(cells, read.row)),
        _ => None,
    }
}

// A byte to program, in its column.
fn load_byte(page: &mut [u8; PAGE], act: Act)
    ensures { page.new ≡ loaded_by act page.old }
{
    if let Act::Load { column, byte, .. } = act {
        load(page, column, byte);
    }
}

// The buffer takes a whole page, if there is one, and else the byte of the act.
fn turn_page(page: &mut [u8; PAGE], whole: Option<[u8; PAGE]>, act: Act)
    ensures { page.new ≡ page_by whole act page.old }
{
    match whole {
        Some(whole) => *page = whole,
        None => load_byte(page, act),
    }
}

// The cells: a program ANDs the page buffer into its row, an erase blanks its block. A match on the act, here
// and below: the laws go over the acts by cases.
fn change_cells(cells: &mut [u8], page: &[u8; PAGE], act: Act)
    ensures { cells.new ≡ cells_after act page.now cells.old }
{
    match act {
        Act::Erase { row } => erase_block(cells, row.block()),
        Act::Program { row, .. } => program_row(cells, row, page),
        _ => {}
    }
}

fn status_of(statuses: &[u8], block: u32) -> u8
    ensures { result ≡ status_of statuses.now block }
{
    statuses.get(block as usize).copied().unwrap_or(READY)
}

// The status to answer: the block's own after a program or an erase of it, ready after a read or a
// reset.
fn next_status(statuses: &[u8], act: Act, status: u8) -> u8
    ensures { result ≡ status_after statuses.now act status }
{
    match act {
        Act::Reset | Act::Read(_) => READY,
        Act::Erase { row } | Act::Program { row, .. } => status_of(statuses, row.block()),
        _ => status,
    }
}

fn register_byte(register: Option<PageRead>, cells: &[u8]) -> u8
    ensures { result ≡ register_byte register cells.now }
{
    match register {
        Some(PageRead { row, column, .. }) if column.is_in_page() => cell(
            cells,
            PAGE * row.number() as usize + usize::from(column.number()),
        ),
        _ => 0xFF,
    }
}

fn identity_byte(part: Part, count: u8) -> u8
    ensures { result ≡ identity_byte part count }
{
    part.identity()
        .get(usize::from(count))
        .copied()
        .unwrap_or(0xFF)
}

impl<'a> ChipMemory<'a> {
    /// The page buffer is blank, and the status is that of a chip that is ready.
    pub(crate) fn new(cells: &'a mut [u8]) -> ChipMemory<'a>
        ensures { memory_in result ≡ record { cells = cells.old; page = blank_page; status = 0xC0 } }
    {
        ChipMemory {
            cells,
            page: blank_page(),
            status: READY,
        }
    }
}

impl ChipMemory<'_> {
    /// The byte that a chip of this part would give now.
    pub(crate) fn byte_out(&self, part: Part, bus: &BusState) -> u8
        ensures { result ≡ answer part bus.now (memory_in self.now) }
    {
        match bus.phase {
            Phase::Status => self.status,
            Phase::IdentityBytes { given } => identity_byte(part, given.count),
            Phase::ReadSetup | Phase::Output => register_byte(bus.register, self.cells),
            _ => 0xFF,
        }
    }

    // A whole page for the buffer: blank where a program begins, the copied one where a copy read ends.
    fn new_page(&self, bus: &BusState, act: Act) -> Option<[u8; PAGE]>
        ensures { result ≡ new_page bus.now act self.now.cells.now }
    {
        match act {
            Act::Prepare { phase, .. } if begins_program(phase) => Some(blank_page()),
            Act::Status { byte } if is_ready(byte) => copied_page(self.cells, bus.busy),
            _ => None,
        }
    }

    /// What an act does to the memory.
    pub(crate) fn perform(&mut self, statuses: &[u8], bus: &BusState, act: Act)
        ensures { memory_in self.new ≡ remembers statuses.now bus.now act (memory_in self.old) }
    {
        let whole = self.new_page(bus, act);
        turn_page(&mut self.page, whole, act);
        change_cells(self.cells, &self.page, act);
        self.status = next_status(statuses, act, self.status);
    }
}
