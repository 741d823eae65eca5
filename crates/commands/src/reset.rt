// A reset, and the identity of the chip.
ghost use Rattle.std.specs.Prelude.{◌≡◌, None, MatchResult};
ghost use Rattle.flash.specs.declared.fault.Fault.TheVariants.{NoRoom};
ghost use Rattle.commands.specs.Sequences.{reset_cycles, identity_cycles};
ghost use Rattle.commands.specs.Sent.{Ran, Short, Did};

use crate::bytes::{put_bytes, put_command, take_bytes};
use crate::poll::poll;
use flash::fault::Fault;
use flash::opcode::Opcode;
use flash::page::Page;
use port::port::{HostKind, Port};

/// FFh, and a poll.
pub fn send_reset<P: Port>(port: &mut P, polls: u16, page: Option<Page>) -> Result<(), Fault>
    ensures { Did P.Port polls page (reset_cycles polls) (λ _ _. Unit {0}) result port.old port.new }
{
    put_command(port, Opcode::Reset)?;
    poll(port, polls, page)?;
    Ok(())
}

/// 90h, the address 00h, and the five bytes that the chip gives.
pub fn send_identity<P: Port>(port: &mut P) -> Result<[u8; 5], Fault>
    ensures { MatchResult result (λ bytes. Ran P.Port (identity_cycles bytes) port.old port.new) (λ f. (f ≡ NoRoom None) × Short P.Port identity_cycles port.old port.new) }
{
    put_command(port, Opcode::ReadId)?;
    put_bytes(port, HostKind::Address, &[0])?;
    let mut bytes = [0; 5];
    take_bytes(port, &mut bytes)?;
    Ok(bytes)
}
