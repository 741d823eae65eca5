// The erase of a block.
ghost use Rattle.std.specs.Prelude.{Some};
ghost use Rattle.commands.specs.Sequences.{erase_cycles};
ghost use Rattle.commands.specs.Sent.{Sent};

use crate::bytes::{put_command, put_row};
use flash::address::Row;
use flash::fault::Fault;
use flash::opcode::Opcode;
use flash::part::Part;
use port::port::Port;

/// 60h, the row, D0h: the block of that row.
pub fn send_erase<P: Port>(port: &mut P, part: Part, row: Row) -> Result<(), Fault>
    ensures { Sent P.Port (erase_cycles (Some part) row) result port.old port.new }
{
    put_command(port, Opcode::Erase)?;
    put_row(port, part, row)?;
    put_command(port, Opcode::EraseConfirm)
}
