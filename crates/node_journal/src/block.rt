ghost use Rattle.std.specs.Prelude.{◌≡◌, ◌↔◌, ◌<◌, ◌++◌, ◌∷◌, [], true, false, List, length, take, slice_get, Some};
ghost use Rattle.std.specs.Prelude.{IfOk};
ghost use Rattle.node.specs.declared.event.Event.{Event as IsEvent};
ghost use Rattle.node_journal.specs.Turns.{turn_events};

use crate::batch::Batch;
use crate::turns::{is_same, turn_event};
use node::Event;
use std::alloc::AllocError;
use std::marker::Model;

/// Events that came one after the other: the first ones of a batch, and turns behind them, an announcement and then an
/// advance each. It takes 24 bytes beside the batch, however many they are.
#[derive(Debug, Drop)]
pub struct Block {
    batch: Batch,
    // How many of the batch.
    used: usize,
    // How many of the turns.
    turns: usize,
}

impl Model for Block {
    ghost use Rattle.std.specs.Prelude.{List, ℕ, ◌≤◌, ◌<◌, ◌+◌, ◌^◌, ◌++◌, length, take};
    ghost use Rattle.node.specs.declared.event.Event.{Event};
    ghost use Rattle.node_journal.specs.Turns.{turn_events};
    ghost use Rattle.node_journal.specs.Within.{IsWithin};

    ghost Value = { List Event };

    ghost view = { λ b. take b.used b.batch ++ turn_events b.turns };

    ghost invariant = { λ b. IsWithin b.batch b.used b.turns };
}

impl Block {
    /// The first event of a batch.
    pub fn first(batch: Batch) -> Block
        requires { 0 < length batch }
        ensures { result ≡ take 1 batch }
    {
        Block {
            batch,
            used: 1,
            turns: 0,
        }
    }

    /// All events of a batch.
    pub(crate) fn of(batch: Batch) -> Block
        ensures { result ≡ batch }
    {
        Block {
            used: batch.events().len(),
            batch,
            turns: 0,
        }
    }

    /// No event of a batch, and this many of turns.
    pub(crate) fn of_turns(batch: Batch, count: usize) -> Block
        ensures { result ≡ turn_events count }
    {
        Block {
            batch,
            used: 0,
            turns: count,
        }
    }

    /// The same events, for one more who keeps them.
    pub(crate) fn try_clone(&self) -> Result<Block, AllocError>
        ensures { IfOk result (λ block. block ≡ self.now) }
    {
        let batch = self.batch.try_clone()?;
        Ok(Block {
            batch,
            used: self.used,
            turns: self.turns,
        })
    }

    /// Whether both have the same events, as many of them from their batches. It is false also where one has as turns
    /// what the other has in its batch.
    pub(crate) fn is_same(&self, other: &Block) -> bool
        ensures { result ≡ true → self.now ≡ other.now }
    {
        self.used == other.used
            && self.turns == other.turns
            && are_same(
                &self.batch.events()[..self.used],
                &other.batch.events()[..other.used],
            )
    }

    /// Its batch.
    pub(crate) fn batch(&self) -> &Batch {
        &self.batch
    }

    /// How many events.
    #[tactic(auto, using(crate::proofs::BlockEvents::block_length))]
    pub fn len(&self) -> usize
        ensures { result ≡ length self.now }
    {
        self.used + self.turns
    }

    /// The event at an offset from the first, if there is one.
    #[tactic(auto, using(crate::proofs::BlockEvents::get_used, crate::proofs::BlockEvents::get_behind, crate::proofs::BlockEvents::get_none))]
    pub fn get(&self, offset: usize) -> Option<Event>
        ensures { result ≡ slice_get self.now offset }
    {
        if offset < self.used {
            Some(self.batch.events()[offset])
        } else if offset - self.used < self.turns {
            Some(turn_event(offset - self.used))
        } else {
            None
        }
    }

    /// Takes in one event more, if it is the batch's next one, or goes on with the turns. Returns whether it is taken
    /// in.
    #[tactic(auto, using(crate::proofs::BlockEvents::one_used, crate::proofs::BlockEvents::one_turn))]
    pub fn extend(&mut self, event: &Event) -> bool
        ensures extended { result ≡ true → self.new ≡ self.old ++ event.now ∷ [] }
        ensures unchanged { result ≡ false → self.new ≡ self.old }
    {
        if self.turns == 0 && is_next(self.batch.events(), self.used, event) {
            self.used += 1;
            return true;
        }
        if self.used + self.turns < usize::MAX && is_same(event, &turn_event(self.turns)) {
            self.turns += 1;
            return true;
        }
        false
    }

    /// Takes in this many events of turns, if a turn begins there. Returns whether they are taken in.
    #[tactic(auto, using(crate::proofs::BlockEvents::more_turns))]
    pub(crate) fn extend_turns(&mut self, count: usize) -> bool
        ensures extended { result ≡ true → self.new ≡ self.old ++ turn_events count }
        ensures unchanged { result ≡ false → self.new ≡ self.old }
    {
        if self.turns % 2 == 0 && count <= usize::MAX - (self.used + self.turns) {
            self.turns += count;
            return true;
        }
        false
    }

    /// The last event.
    #[tactic(auto, using(crate::proofs::BlockEvents::block_length, crate::proofs::BlockEvents::last_used))]
    pub fn last(&self) -> Event
        requires { 0 < length self.now }
        ensures { (front : List IsEvent) × (self.now ≡ front ++ result ∷ []) }
    {
        if self.turns > 0 {
            turn_event(self.turns - 1)
        } else {
            self.batch.events()[self.used - 1]
        }
    }

    /// Takes off the last event.
    #[tactic(auto, using(crate::proofs::BlockEvents::block_length, crate::proofs::BlockEvents::one_turn_less))]
    pub fn pop(&mut self) -> Event
        requires { 0 < length self.old }
        ensures { self.old ≡ self.new ++ result ∷ [] }
    {
        if self.turns > 0 {
            self.turns -= 1;
            turn_event(self.turns)
        } else {
            self.used -= 1;
            self.batch.events()[self.used]
        }
    }
}

// Whether a batch has the event at this place.
fn is_next(events: &[Event], place: usize, event: &Event) -> bool
    ensures { (result ≡ true) ↔ (slice_get events.now place ≡ Some event.now) }
{
    match events.get(place) {
        Some(next) => is_same(event, next),
        None => false,
    }
}

// Whether they are the same events.
fn are_same(events: &[Event], others: &[Event]) -> bool
    ensures { (result ≡ true) ↔ (events.now ≡ others.now) }
{
    if events.len() != others.len() {
        return false;
    }
    for place in 0..events.len() {
        if !is_same(&events[place], &others[place]) {
            return false;
        }
    }
    true
}
