ghost use Rattle.std.specs.Prelude.{◌≡◌, ◌≢◌, ℕ, ◌+◌, ◌<◌, ◌≤◌, ◌++◌, ◌∷◌, [], List, length, take, drop, get_or};
ghost use Rattle.std.specs.Prelude.{slice_get, None, IfOk, IfSome, MatchOption, OnOk, OnErr};
ghost use Rattle.node.specs.declared.event.Event.{Event as IsEvent};
ghost use Rattle.node_journal.specs.Turns.{turn_events};

use crate::batch::Batch;
use crate::block::Block;
use crate::blocks::Blocks;
use crate::turns::is_same;
use node::Event;
use std::alloc::{AllocError, Global};
use std::marker::Model;

/// Events, oldest first. Those of a batch, and turns, take no memory of their own; another takes 160 bytes.
#[derive(Debug, Drop)]
pub struct Journal {
    slips: Blocks,
}

impl Model for Journal {
    ghost use Rattle.std.specs.Prelude.{List};
    ghost use Rattle.node.specs.declared.event.Event.{Event};
    ghost use Rattle.node_journal.specs.Numbered.{AreNumbered, events_of};

    ghost Value = { List Event };

    ghost view = { λ j. events_of j.slips };

    ghost invariant = { λ j. AreNumbered j.slips };
}

impl Journal {
    /// No event.
    pub fn new(alloc: Global) -> Journal
        ensures { result ≡ [] }
    {
        Journal {
            slips: Blocks::new(alloc),
        }
    }

    /// A journal of these events, each kept by itself.
    pub fn of(alloc: Global, events: &[Event]) -> Result<Journal, AllocError>
        ensures { IfOk result (λ journal. journal ≡ events.now) }
    {
        let mut journal = Journal::new(alloc);
        for event in events {
            journal.push(event, None)?;
        }
        Ok(journal)
    }

    /// How many events.
    #[tactic(auto, using(crate::proofs::Numbered::as_many))]
    pub fn len(&self) -> usize
        ensures { result ≡ length self.now }
    {
        self.slips.len()
    }

    /// One event more. Where it begins a batch, that is shared, also for those that follow it.
    #[tactic(auto, using(crate::proofs::Numbered::one_event, crate::proofs::Numbered::one_number))]
    pub fn push(&mut self, event: &Event, batch: Option<&Batch>) -> Result<(), AllocError>
        ensures pushed { OnOk result (self.new ≡ self.old ++ event.now ∷ []) }
        ensures unchanged { OnErr result (self.new ≡ self.old) }
    {
        let place = self.slips.len();
        self.slips.add(place, event, batch)
    }

    /// A batch's events more. The batch is shared.
    #[tactic(auto, using(crate::proofs::Numbered::more_numbers, crate::proofs::Numbered::more_events))]
    pub fn push_batch(&mut self, batch: &Batch) -> Result<(), AllocError>
        ensures pushed { OnOk result (self.new ≡ self.old ++ batch.now) }
        ensures unchanged { OnErr result (self.new ≡ self.old) }
    {
        let place = self.slips.len();
        self.slips.add_batch(place, batch)
    }

    /// This many events of turns more: an announcement and then an advance each.
    #[tactic(auto, using(crate::proofs::Numbered::more_numbers, crate::proofs::Numbered::more_events))]
    pub fn push_turns(&mut self, count: usize) -> Result<(), AllocError>
        ensures pushed { OnOk result (self.new ≡ self.old ++ turn_events count) }
        ensures unchanged { OnErr result (self.new ≡ self.old) }
    {
        let place = self.slips.len();
        self.slips.add_turns(place, count)
    }

    /// Takes off the last event.
    #[tactic(auto, using(crate::proofs::Numbered::no_events, crate::proofs::Numbered::one_event))]
    pub fn pop(&mut self) -> Option<Event>
        ensures { MatchOption result (self.old ≡ []) (λ event. self.old ≡ self.new ++ event ∷ []) }
    {
        match self.slips.pop() {
            Some(slip) => Some(slip.event),
            None => None,
        }
    }

    /// Takes off all events, and keeps the room of their blocks.
    pub fn clear(&mut self)
        ensures { self.new ≡ [] }
    {
        self.slips.clear();
    }

    /// The event at a place, if there is one. It is looked for near a block, whose number becomes the one in which it
    /// is: begin with 0, and go on with what it has become.
    #[tactic(auto, using(crate::proofs::Numbered::none_beyond))]
    pub fn get(&self, place: usize, near: &mut usize) -> Option<Event>
        ensures { result ≡ slice_get self.now place }
    {
        if place < self.slips.len() {
            self.slips.get(place, near)
        } else {
            None
        }
    }

    /// The event at a place where there is one, as `get` looks for it.
    #[tactic(auto, using(crate::proofs::Places::some_at, crate::proofs::Places::past))]
    pub fn event(&self, place: usize, near: &mut usize) -> Event
        requires { place < length self.now }
        ensures { result ≡ get_or self.now place result }
    {
        match self.get(place, near) {
            Some(event) => event,
            None => unreachable!(),
        }
    }

    /// The last event.
    #[tactic(auto, using(crate::proofs::Numbered::no_events, crate::proofs::Numbered::last_event))]
    pub fn last(&self) -> Option<Event>
        ensures { MatchOption result (self.now ≡ [])
            (λ event. (front : List IsEvent) × (self.now ≡ front ++ event ∷ [])) }
    {
        match self.slips.last() {
            Some(slip) => Some(slip.event),
            None => None,
        }
    }

    /// Adds another journal's events from a place on, at most this many. Without memory for all of them nothing has
    /// changed.
    pub fn append(&mut self, other: &Journal, place: usize, most: usize) -> Result<(), AllocError>
        ensures all { OnOk result (self.new ≡ self.old ++ take most (drop place other.now)) }
        ensures unchanged { OnErr result (self.new ≡ self.old) }
    {
        let before = self.len();
        match self.append_some(other, place, most) {
            Ok(()) => Ok(()),
            Err(error) => {
                self.truncate(before);
                Err(error)
            }
        }
    }

    // The same; without memory for all of them the first ones are there.
    #[tactic(auto, using(crate::proofs::Appended::none_added, crate::proofs::Appended::added_at_end, crate::proofs::Appended::kept_front))]
    fn append_some(&mut self, other: &Journal, place: usize, most: usize) -> Result<(), AllocError>
        ensures all { OnOk result (self.new ≡ self.old ++ take most (drop place other.now)) }
        ensures kept { take (length self.old) self.new ≡ self.old }
    {
        let end = end_of(place, most, other.len());
        let mut from = place;
        let mut near = 0;
        while from < end {
            from += self.append_next(other, from, end - from, &mut near)?;
        }
        Ok(())
    }

    // Adds the block of another journal that begins at a place, if it has no more than this many events, and else the
    // one event that is there. Returns how many events it added.
    fn append_next(
        &mut self,
        other: &Journal,
        from: usize,
        most: usize,
        near: &mut usize,
    ) -> Result<usize, AllocError>
        requires some { 0 < most }
        requires there { from + most ≤ length other.now }
        ensures added { IfOk result (λ count. self.new ≡ self.old ++ take count (drop from other.now)) }
        ensures some { IfOk result (λ count. 0 < count) }
        ensures few { IfOk result (λ count. count ≤ most) }
        ensures unchanged { OnErr result (self.new ≡ self.old) }
    {
        let event = other.event(from, near);
        match other.slips.block(*near, from) {
            Some(block) if block.len() <= most => {
                let count = block.len();
                let place = self.len();
                self.slips.add_block(place, block.try_clone()?)?;
                Ok(count)
            }
            _ => {
                self.push(&event, other.batch(*near))?;
                Ok(1)
            }
        }
    }

    /// How many events from a place on are surely those of another journal, or None where the first isn't. They are
    /// looked for near blocks, as in `get`: whole blocks are compared where both begin at the place.
    pub fn same_from(
        &self,
        other: &Journal,
        from: usize,
        near: &mut usize,
        near_other: &mut usize,
    ) -> Option<usize>
        requires there { from < length self.now }
        requires other { from < length other.now }
        ensures some { IfSome result (λ count. 0 < count) }
        ensures few { IfSome result (λ count. from + count ≤ length self.now) }
        ensures same { IfSome result (λ count. (k : ℕ) → from ≤ k → k < from + count
            → slice_get self.now k ≡ slice_get other.now k) }
        ensures none { result ≡ None → slice_get self.now from ≢ slice_get other.now from }
    {
        if !is_same(&self.event(from, near), &other.event(from, near_other)) {
            return None;
        }
        match (
            self.slips.block(*near, from),
            other.slips.block(*near_other, from),
        ) {
            (Some(block), Some(found)) if block.is_same(found) => Some(block.len()),
            _ => Some(1),
        }
    }

    /// Takes off all events but the first ones, this many.
    #[tactic(auto, using(crate::proofs::Numbered::first_numbers, crate::proofs::Numbered::first_events))]
    pub fn truncate(&mut self, count: usize)
        ensures { self.new ≡ take count self.old }
    {
        self.slips.truncate(count);
    }

    /// The block of this number, if its events are those from the one place on and before the other.
    pub fn block_between(&self, number: usize, place: usize, end: usize) -> Option<&Block>
        ensures some { IfSome result (λ block. 0 < length block.now) }
        ensures as_many { IfSome result (λ block. place + length block.now ≡ end) }
        ensures within { IfSome result (λ _. end ≤ length self.now) }
        ensures events { IfSome result (λ block. take end self.now ≡ take place self.now ++ block.now) }
    {
        match self.slips.block(number, place) {
            Some(block) if place <= end && block.len() == end - place => Some(block),
            _ => None,
        }
    }

    /// The place of the first event of the block of this number.
    pub fn block_begin(&self, number: usize) -> Option<usize> {
        self.slips.block_begin(number)
    }

    /// How many blocks they are kept in.
    pub fn block_count(&self) -> usize {
        self.slips.block_count()
    }

    /// The batch of the block of this number.
    pub fn batch(&self, number: usize) -> Option<&Batch> {
        self.slips.batch(number)
    }
}

// Where this many items of a list end, from a place on.
fn end_of(place: usize, most: usize, length: usize) -> usize
    ensures within { result ≤ length }
    ensures few { result ≤ place + most }
    ensures all { result < length → place + most ≤ result }
{
    if place < length {
        place + most.min(length - place)
    } else {
        length
    }
}
