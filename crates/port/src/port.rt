// The interface of a port, and what it means.
ghost use Rattle.std.specs.Prelude.{◌≡◌, ℕ, List, Some, MatchResult, codes};
ghost use Rattle.flash.specs.declared.cycle.Cycle.{Cycle as TheCycle};
ghost use Rattle.port.specs.Meanings.{Meaning, Stepped, Refused, host_kind, driven, gave};

use flash::cycle::{Cycle, Kind};
use std::error::Error;
use std::fmt;

/// The kinds of cycle that the host makes; only a take makes a byte out.
#[derive(Clone, Copy)]
pub enum HostKind {
    Command,
    Address,
    DataIn,
}

/// A cycle that the host puts on the bus.
#[derive(Clone, Copy)]
pub struct HostCycle {
    pub kind: HostKind,
    pub byte: u8,
}

impl From<HostKind> for Kind {
    ghost from_gives = { λ k r. r ≡ host_kind k };

    fn from(kind: HostKind) -> Kind {
        match kind {
            HostKind::Command => Kind::Command,
            HostKind::Address => Kind::Address,
            HostKind::DataIn => Kind::DataIn,
        }
    }
}

impl From<HostCycle> for Cycle {
    ghost from_gives = { λ c r. r ≡ driven c };

    fn from(cycle: HostCycle) -> Cycle {
        Cycle {
            kind: cycle.kind.into(),
            byte: cycle.byte,
        }
    }
}

/// The port has no room for another cycle.
#[derive(Clone, Copy, Debug)]
pub struct Full;

impl fmt::Display for Full {
    ghost output = { λ _. Some (codes "the port has no room") };

    fn fmt<W: fmt::Write>(&self, f: &mut fmt::Formatter<W>) -> fmt::Result {
        write!(f, "the port has no room")
    }
}

impl Error for Full {}

/// A port means three things: what the bus reader holds after all its cycles; its room, the number of
/// cycles that it can still take; and its trail, a list of numbers that each cycle moves by the fixed
/// rule `moves`. A cycle is refused exactly where the room is nought, and then nothing has changed;
/// otherwise reader and trail step over that one cycle, and the room falls by at most one.
pub trait Port {
    ghost meaning: { Self → Meaning };

    ghost moves: { List ℕ → TheCycle → List ℕ };

    /// How many cycles the port can still take.
    fn room(&self) -> usize
        ensures { result ≡ (meaning self.now).room };

    /// Puts one cycle on the bus.
    fn put(&mut self, cycle: HostCycle) -> Result<(), Full>
        ensures steps { MatchResult result (λ _. Stepped moves (driven cycle) (meaning self.old) (meaning self.new)) (λ _. Refused (meaning self.old) (meaning self.new)) };

    /// Takes one byte from the chip; which one is free.
    fn take(&mut self) -> Result<u8, Full>
        ensures steps { MatchResult result (λ b. Stepped moves (gave b) (meaning self.old) (meaning self.new)) (λ _. Refused (meaning self.old) (meaning self.new)) };
}
