// The read of a page.
ghost use Rattle.std.specs.Prelude.{◌≡◌, length, IfErr, Some};
ghost use Rattle.flash.specs.Addresses.{row_at};
ghost use Rattle.flash.specs.declared.fault.Fault.TheVariants.{Timeout};
ghost use Rattle.commands.specs.Polls.{left, first_of};
ghost use Rattle.commands.specs.Sequences.{open_cycles, read_cycles};
ghost use Rattle.commands.specs.Sent.{Did};

use crate::bytes::{put_address, put_command, take_bytes};
use crate::poll::poll;
use flash::address::Column;
use flash::fault::Fault;
use flash::opcode::Opcode;
use flash::page::Page;
use flash::part::Part;
use port::port::Port;

/// 00h, the address, a confirm, and a poll: the page is in the chip's register.
pub(crate) fn open_page<P: Port>(
    port: &mut P,
    part: Part,
    polls: u16,
    page: Page,
    column: Column,
    confirm: Opcode,
) -> Result<(), Fault>
    ensures { Did P.Port polls (Some page) (open_cycles confirm (Some part) polls (row_at page) column) (λ _ _. Unit {0}) result port.old port.new }
{
    put_command(port, Opcode::Read)?;
    put_address(port, part, page.row(), column)?;
    put_command(port, confirm)?;
    poll(port, polls, Some(page))?;
    Ok(())
}

/// 00h, the address, 30h, a poll, then 00h and as many bytes as the buffer has. Where the poll ends
/// without a ready status, the buffer is as it was.
pub fn send_read<P: Port>(
    port: &mut P,
    part: Part,
    polls: u16,
    page: Page,
    column: Column,
    buffer: &mut [u8],
) -> Result<(), Fault>
    ensures did { Did P.Port polls (Some page) (read_cycles (Some part) polls (row_at page) column (length buffer.old)) (λ rs _. buffer.new ≡ first_of (length buffer.old) (left polls rs)) result port.old port.new }
    ensures untouched { IfErr result (λ f. f ≡ Timeout (Some page) → buffer.new ≡ buffer.old) }
{
    open_page(port, part, polls, page, column, Opcode::ReadConfirm)?;
    put_command(port, Opcode::Read)?;
    take_bytes(port, buffer)
}
