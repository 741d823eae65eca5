// A list of cycles, sent to any port.
ghost use Rattle.std.specs.Prelude.{ℕ, map, MatchResult};
ghost use Rattle.port.specs.Meanings.{Took, driven};
ghost use Rattle.port.specs.Sends.{SentFront};

use crate::port::{Full, HostCycle, Port};

/// Sends the cycles in order. Where the room runs out, a front of them was sent.
pub fn send<P: Port>(port: &mut P, cycles: &[HostCycle]) -> Result<(), Full>
    ensures { MatchResult result (λ _. Took P.Port.moves (map driven cycles.now) (P.Port.meaning port.old) (P.Port.meaning port.new)) (λ _. SentFront P.Port.moves cycles.now (P.Port.meaning port.old) (P.Port.meaning port.new)) }
{
    for cycle in cycles {
        port.put(*cycle)?;
    }
    Ok(())
}
