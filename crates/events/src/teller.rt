// A bus reader that tells what it reads.
ghost use Rattle.std.specs.Prelude.{◌≡◌, ◌+◌, ◌<◌, ◌≤◌, [], ◌∷◌, ◌++◌, map, length, replicate, vec_len, vec_capacity, MatchResult};
ghost use Rattle.flash.specs.Records.{first_record};
ghost use Rattle.bus.specs.States.{first_bus};
ghost use Rattle.bus.specs.Breaches.{named};
ghost use Rattle.events.specs.Events.{broke, happened, hand_after, begun};
ghost use Rattle.events.specs.Tellers.{thing, listed, stands, Told, ToldFront};

use crate::event::Event;
use bus::act::Act;
use bus::breach::Breaches;
use bus::reader::BusReader;
use bus::state::BusState;
use flash::cycle::Cycle;
use flash::record::BlockRecord;
use std::alloc::{AllocError, Global};
use std::mem;

#[derive(Drop)]
pub struct Teller<'a> {
    reader: BusReader<'a>,
    // the bytes given of a program that is not yet confirmed
    hand: Vec<u8>,
    cycles: u64,
}

fn tell_breaches(events: &mut Vec<Event>, cycle: u64, breaches: Breaches)
    requires { vec_len events.old + 5 ≤ vec_capacity events.old }
    ensures told { map thing events.new.items ≡ map thing events.old.items ++ map (broke cycle) (named breaches) }
    ensures len { vec_len events.new ≤ vec_len events.old + 5 }
    ensures capacity { vec_capacity events.new ≡ vec_capacity events.old }
{
    for rule in breaches.rules() {
        if let Some(breach) = rule {
            events.push_reserved(Event::Breach { cycle, breach });
        }
    }
}

// What an act does. A program or a reset takes the bytes in hand; a byte to program is added to them.
fn tell_act(cycle: u64, act: Act, hand: &mut Vec<u8>) -> Option<Event>
    requires { vec_len hand.old < vec_capacity hand.old }
    ensures told { listed result ≡ happened cycle act hand.old.items }
    ensures hand { hand.new.items ≡ hand_after act hand.old.items }
{
    match act {
        Act::WhileBusy | Act::OutOfPlace | Act::Prepare { .. } => None,
        Act::Reset => {
            hand.clear();
            Some(Event::Reset)
        }
        Act::Status { byte } => Some(Event::Status { byte }),
        Act::Identify { bytes } => Some(Event::Identity { bytes }),
        Act::Read(page) => Some(Event::Read(page)),
        Act::Data { byte, .. } => Some(Event::Data { cycle, byte }),
        Act::Erase { row } => Some(Event::Erase { block: row.block() }),
        Act::Load { byte, .. } => {
            hand.push_reserved(byte);
            None
        }
        Act::Program {
            row,
            column,
            confirm,
        } => {
            let heap = *hand.allocator();
            let bytes = mem::replace(hand, Vec::new(heap));
            Some(Event::Program {
                row,
                column,
                confirm,
                bytes,
            })
        }
    }
}

fn tell_event(events: &mut Vec<Event>, event: Option<Event>)
    requires { vec_len events.old < vec_capacity events.old }
    ensures { map thing events.new.items ≡ map thing events.old.items ++ listed event }
{
    if let Some(event) = event {
        events.push_reserved(event);
    }
}

impl<'a> Teller<'a> {
    /// A teller whose reader is in its first state; the records lent are set to first ones.
    pub fn new(heap: Global, blocks: &'a mut [BlockRecord]) -> Teller<'a>
        ensures first { stands result ≡ record { reader = record { bus = first_bus; blocks = replicate (length blocks.old) first_record }; hand = []; cycles = 0 } }
        ensures begun { length blocks.old ≡ 2048 → stands result ≡ begun }
    {
        Teller {
            reader: BusReader::new(blocks),
            hand: Vec::new(heap),
            cycles: 0,
        }
    }
}

impl Teller<'_> {
    /// Where the bus stands.
    pub fn bus(&self) -> BusState
        ensures { result ≡ (stands self.now).reader.bus }
    {
        self.reader.bus()
    }

    // One cycle: all or, for want of memory, nothing.
    fn tell_one(&mut self, cycle: Cycle, events: &mut Vec<Event>) -> Result<(), AllocError>
        ensures { MatchResult result (λ _. Told (stands self.old) (stands self.new) (cycle ∷ []) events.old.items events.new.items) (λ _. Told (stands self.old) (stands self.new) [] events.old.items events.new.items) }
    {
        events.reserve(6)?;
        self.hand.reserve(1)?;
        let told = self.reader.read(cycle);
        self.cycles = self.cycles.saturating_add(1);
        tell_breaches(events, self.cycles, told.breaches);
        let event = tell_act(self.cycles, told.act, &mut self.hand);
        tell_event(events, event);
        Ok(())
    }

    /// These cycles are read, and what they tell is added to the events. Where memory runs out, a
    /// front of the cycles was read and told, and the rest was not.
    pub fn tell(&mut self, cycles: &[Cycle], events: &mut Vec<Event>) -> Result<(), AllocError>
        ensures { MatchResult result (λ _. Told (stands self.old) (stands self.new) cycles.now events.old.items events.new.items) (λ _. ToldFront (stands self.old) (stands self.new) cycles.now events.old.items events.new.items) }
    {
        for cycle in cycles {
            self.tell_one(*cycle, events)?;
        }
        Ok(())
    }
}
