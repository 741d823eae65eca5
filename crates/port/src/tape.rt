// A port that writes each cycle into its owner's list, and answers from a list of replies.
ghost use Rattle.std.specs.Prelude.{◌≡◌, ◌≤◌, [], drop, length, slice_index_or, MatchResult};
ghost use Rattle.bus.specs.Bus.{first};
ghost use Rattle.port.specs.Meanings.{Stepped, Refused, driven, gave};

use crate::port::{Full, HostCycle, Port};
use flash::cycle::{Cycle, Kind};

/// The room is the places left, the trail the cycles written. The k-th take gives the k-th reply, and
/// FFh after the last. It holds no reader: its meaning is what a reader holds after the cycles written.
#[derive(Drop)]
pub struct Tape<'a> {
    places: &'a mut [Cycle],
    // The place to be written next, by its number: the owner lends the whole list.
    next: usize,
    // The replies still to be given.
    replies: &'a [u8],
    ghost within: { next ≤ length places.now },
}

impl<'a> Tape<'a> {
    ghost use Rattle.port.specs.Tapes.{means_of};

    /// A fresh port on these places, none of them written yet.
    pub fn new(places: &'a mut [Cycle], replies: &'a [u8]) -> Tape<'a>
        ensures means { means_of result ≡ record { reader = first; room = length places.old; trail = [] } }
        ensures places { result.places.now ≡ places.old }
        ensures replies { result.replies.now ≡ replies.now }
    {
        Tape {
            places,
            next: 0,
            replies,
        }
    }
}

// The next reply, and those after it.
fn next_reply(replies: &[u8]) -> (u8, &[u8])
    ensures reply { result.0 ≡ slice_index_or replies.now 0 0xFF }
    ensures left { result.1.now ≡ drop 1 replies.now }
{
    match replies {
        [reply, left @ ..] => (*reply, left),
        [] => (0xFF, replies),
    }
}

impl Tape<'_> {
    ghost use Rattle.port.specs.Tapes.{means_of, appended, written_on, Wrote, Unchanged};

    /// The cycles written so far.
    pub fn written(&self) -> &[Cycle]
        ensures { result.now ≡ written_on self.now }
    {
        &self.places[..self.next]
    }

    // Writes the cycle at the next place, if there is one.
    fn write(&mut self, cycle: Cycle) -> Result<(), Full>
        ensures steps { MatchResult result (λ _. Stepped appended cycle (means_of self.old) (means_of self.new)) (λ _. Refused (means_of self.old) (means_of self.new)) }
        ensures writes { MatchResult result (λ _. Wrote self.old self.new cycle self.old.replies.now) (λ _. Unchanged self.old self.new) }
    {
        if self.room() == 0 {
            return Err(Full);
        }
        self.places[self.next] = cycle;
        self.next += 1;
        Ok(())
    }
}

impl Port for Tape<'_> {
    ghost use Rattle.port.specs.Tapes.{means_of, appended, next_reply, replies_left, Wrote, Unchanged};

    ghost meaning = { means_of };

    ghost moves = { appended };

    fn room(&self) -> usize {
        self.places.len() - self.next
    }

    fn put(&mut self, cycle: HostCycle) -> Result<(), Full>
        ensures steps { MatchResult result (λ _. Stepped appended (driven cycle) (means_of self.old) (means_of self.new)) (λ _. Refused (means_of self.old) (means_of self.new)) }
        ensures writes { MatchResult result (λ _. Wrote self.old self.new (driven cycle) self.old.replies.now) (λ _. Unchanged self.old self.new) }
    {
        self.write(cycle.into())
    }

    fn take(&mut self) -> Result<u8, Full>
        ensures steps { MatchResult result (λ b. Stepped appended (gave b) (means_of self.old) (means_of self.new)) (λ _. Refused (means_of self.old) (means_of self.new)) }
        ensures writes { MatchResult result (λ b. (b ≡ next_reply self.old) × Wrote self.old self.new (gave b) (replies_left self.old)) (λ _. Unchanged self.old self.new) }
    {
        let (byte, left) = next_reply(self.replies);
        self.write(Cycle {
            kind: Kind::DataOut,
            byte,
        })?;
        self.replies = left;
        Ok(byte)
    }
}
