// Waiting for the chip.
ghost use Rattle.std.specs.Prelude.{◌≡◌, Some};
ghost use Rattle.commands.specs.Polls.{polled, poll_cycles};
ghost use Rattle.commands.specs.Sent.{Did};

use crate::bytes::put_command;
use flash::fault::Fault;
use flash::opcode::Opcode;
use flash::page::Page;
use flash::status::is_ready;
use port::port::Port;

/// Asks for the status until it is ready, `polls` times at most, and gives the status that was. A
/// timeout names the page that the poll was for, if there is one.
pub fn poll<P: Port>(port: &mut P, polls: u16, page: Option<Page>) -> Result<u8, Fault>
    ensures { Did P.Port polls page (poll_cycles polls) (λ rs s. polled polls rs ≡ Some s) result port.old port.new }
{
    put_command(port, Opcode::ReadStatus)?;
    // Counted, for it is the questions that count; of a port that a closure took from, a proof knows nothing.
    for _turn in 0..polls {
        let status = port.take()?;
        if is_ready(status) {
            return Ok(status);
        }
    }
    Err(Fault::Timeout(page))
}
