// The program of a page.
ghost use Rattle.std.specs.Prelude.{◌≡◌, Some};
ghost use Rattle.commands.specs.Sequences.{confirming, program_cycles};
ghost use Rattle.commands.specs.Sent.{Sent};

use crate::bytes::{put_address, put_bytes, put_command};
use bus::act::Confirm;
use flash::address::{Column, Row};
use flash::fault::Fault;
use flash::opcode::Opcode;
use flash::part::Part;
use port::port::{HostKind, Port};

// Both types are of other crates, so this is no `From`.
fn confirm_command(confirm: Confirm) -> Opcode
    ensures { result ≡ confirming confirm }
{
    match confirm {
        Confirm::Program | Confirm::Copy => Opcode::ProgramConfirm,
        Confirm::Cache => Opcode::CacheConfirm,
    }
}

/// 80h, the address, the bytes, and the confirm: 15h for a cache page, else 10h.
pub fn send_program<P: Port>(
    port: &mut P,
    part: Part,
    row: Row,
    column: Column,
    bytes: &[u8],
    confirm: Confirm,
) -> Result<(), Fault>
    ensures { Sent P.Port (program_cycles (Some part) row column bytes.now confirm) result port.old port.new }
{
    put_command(port, Opcode::Program)?;
    put_address(port, part, row, column)?;
    put_bytes(port, HostKind::DataIn, bytes)?;
    put_command(port, confirm_command(confirm))
}
