// The copy of a page inside the chip.
ghost use Rattle.std.specs.Prelude.{Some};
ghost use Rattle.flash.specs.Addresses.{row_at};
ghost use Rattle.commands.specs.Sequences.{copy_read_cycles, copy_cycles};
ghost use Rattle.commands.specs.Sent.{Sent, Did};

use crate::bytes::{put_address, put_command};
use crate::read::open_page;
use flash::address::{Column, Row};
use flash::fault::Fault;
use flash::opcode::Opcode;
use flash::page::Page;
use flash::part::Part;
use port::port::Port;

/// 00h, the address at column 0, 35h, and a poll: the page waits in the chip to be copied.
pub fn send_copy_read<P: Port>(
    port: &mut P,
    part: Part,
    polls: u16,
    page: Page,
) -> Result<(), Fault>
    ensures { Did P.Port polls (Some page) (copy_read_cycles (Some part) polls (row_at page)) (λ _ _. Unit {0}) result port.old port.new }
{
    open_page(
        port,
        part,
        polls,
        page,
        Column::FIRST,
        Opcode::CopyReadConfirm,
    )
}

/// 85h, the address at column 0, 10h: the page that waits is programmed.
pub fn send_copy_program<P: Port>(port: &mut P, part: Part, row: Row) -> Result<(), Fault>
    ensures { Sent P.Port (copy_cycles (Some part) row) result port.old port.new }
{
    put_command(port, Opcode::CopyProgram)?;
    put_address(port, part, row, Column::FIRST)?;
    put_command(port, Opcode::ProgramConfirm)
}
