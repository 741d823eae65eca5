// What a session holds, its port aside.
ghost use Rattle.std.specs.Prelude.{◌≡◌, Some as some};
ghost use Rattle.bus.specs.States.{blocks_in, allowed_in};
ghost use Rattle.driver.specs.Opens.{opened};
ghost use Rattle.driver.specs.Outcomes.{standing_at, identifying};
ghost use Rattle.driver.specs.Views.{part_or, slip_of};

use crate::standing::Standing;
use flash::part::Part;
use record::record::Record;
use std::marker::Model;

/// The part once it is known, how often a poll asks, the record, and what is under way.
#[derive(Drop)]
pub(crate) struct State {
    pub(crate) part: Option<Part>,
    pub(crate) polls: u16,
    pub(crate) known: Record,
    pub(crate) standing: Standing,
}

impl Model for State {
    ghost use Rattle.driver.specs.Views.{View};

    ghost Value = { View };

    ghost view = { λ s. record { part = s.part; polls = s.polls; blocks = s.known.blocks; standing = s.standing } };
}

impl State {
    /// The part unknown, nothing known of any block, and nothing under way. A poll asks `polls` times at
    /// most: once for 0, and never more than 1,000 times.
    pub(crate) fn opened(polls: u32) -> State
        ensures { result ≡ opened polls }
    {
        State {
            part: None,
            polls: polls.clamp(1, 1000) as u16,
            known: Record::new(),
            standing: Standing::Ready,
        }
    }

    pub(crate) fn polls(&self) -> u16
        ensures { result ≡ self.now.polls }
    {
        self.polls
    }

    /// How many blocks the part has; none where it is unknown.
    pub(crate) fn blocks(&self) -> u16
        ensures { result ≡ blocks_in self.now.part }
    {
        self.part.map_or(0, |part| part.blocks())
    }

    /// How many programs of a page the part allows; none where it is unknown.
    pub(crate) fn programs_allowed(&self) -> u8
        ensures { result ≡ allowed_in self.now.part }
    {
        self.part.map_or(0, |part| part.programs_allowed())
    }

    /// The part, where it is known.
    pub(crate) fn part_or(&self) -> Part
        ensures { result ≡ part_or self.now.part }
    {
        // Where a call is admitted the part is known: the other is never used.
        self.part.unwrap_or(Part::OneGbit)
    }

    pub(crate) fn identify(&mut self, part: Part)
        ensures { self.new ≡ identifying self.old (some part) }
    {
        self.part = Some(part);
        self.standing = Standing::Ready;
    }

    pub(crate) fn stand(&mut self, standing: Standing)
        ensures { self.new ≡ standing_at self.old standing }
    {
        self.standing = standing;
    }

    /// The work is under way; its slip has this number.
    pub(crate) fn begin(&mut self, work: Standing) -> u32
        ensures slip { result ≡ slip_of work }
        ensures state { self.new ≡ standing_at self.old work }
    {
        self.standing = work;
        // Ready and stuck have no slip, and are no work; 0 is the number of a spent one.
        work.slip_out().unwrap_or(0)
    }
}
