// Commands, addresses and bytes, the pieces of every sequence.
ghost use Rattle.std.specs.Prelude.{◌≡◌, [], ◌∷◌, map, length, Some, None, MatchResult};
ghost use Rattle.flash.specs.declared.fault.Fault.TheVariants.{NoRoom};
ghost use Rattle.port.specs.Meanings.{gave};
ghost use Rattle.commands.specs.Polls.{command, first_of};
ghost use Rattle.commands.specs.Sequences.{hosted, address_byte, row_bytes, addressed};
ghost use Rattle.commands.specs.Sent.{Ran, Sent, Short};

use flash::address::{Column, Row};
use flash::fault::Fault;
use flash::opcode::Opcode;
use flash::part::Part;
use port::port::{HostCycle, HostKind, Port};

pub(crate) fn put_command<P: Port>(port: &mut P, opcode: Opcode) -> Result<(), Fault>
    ensures { Sent P.Port (command opcode ∷ []) result port.old port.new }
{
    Ok(port.put(HostCycle {
        kind: HostKind::Command,
        byte: opcode.into(),
    })?)
}

pub(crate) fn put_bytes<P: Port>(port: &mut P, kind: HostKind, bytes: &[u8]) -> Result<(), Fault>
    ensures { Sent P.Port (map (hosted kind) bytes.now) result port.old port.new }
{
    for byte in bytes {
        port.put(HostCycle { kind, byte: *byte })?;
    }
    Ok(())
}

pub(crate) fn put_row<P: Port>(port: &mut P, part: Part, row: Row) -> Result<(), Fault>
    ensures { Sent P.Port (map address_byte (row_bytes (Some part) row)) result port.old port.new }
{
    match part {
        Part::OneGbit => put_bytes(port, HostKind::Address, &row.bytes::<2>()),
        Part::TwoGbit => put_bytes(port, HostKind::Address, &row.bytes::<3>()),
    }
}

/// A whole address: the column, then the row.
pub(crate) fn put_address<P: Port>(
    port: &mut P,
    part: Part,
    row: Row,
    column: Column,
) -> Result<(), Fault>
    ensures { Sent P.Port (addressed (Some part) row column) result port.old port.new }
{
    put_bytes(port, HostKind::Address, &column.bytes())?;
    put_row(port, part, row)
}

/// Fills the buffer with bytes from the chip.
pub(crate) fn take_bytes<P: Port>(port: &mut P, buffer: &mut [u8]) -> Result<(), Fault>
    ensures { MatchResult result (λ _. Ran P.Port (map gave buffer.new) port.old port.new) (λ f. (f ≡ NoRoom None) × Short P.Port (λ rs. map gave (first_of (length buffer.old) rs)) port.old port.new) }
{
    for byte in buffer.iter_mut() {
        *byte = port.take()?;
    }
    Ok(())
}
