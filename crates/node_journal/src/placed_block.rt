ghost use Rattle.std.specs.Prelude.{◌≡◌, ◌++◌, ◌∷◌, [], ◌+◌, ◌<◌, ◌≤◌, List, length, true, false, is_some};
ghost use Rattle.node_journal.specs.declared.slip.Slip.{Slip as IsSlip};
ghost use Rattle.node_journal.specs.Slips.{event_of, slips_at, slips_from, IsFilled};
ghost use Rattle.node_journal.specs.Turns.{turn_events};

use crate::block::Block;
use crate::slip::Slip;
use node::Event;

/// A block of events, and the place of its first one in a journal. It takes 32 bytes beside the batch.
#[derive(Debug, Drop)]
pub struct PlacedBlock {
    pub place: usize,
    pub block: Block,
}

impl PlacedBlock {
    /// The event at a place, if it has one there.
    pub(crate) fn event_of(&self, place: usize) -> Option<Event>
        ensures { result ≡ event_of self.now place }
    {
        if self.place <= place {
            self.block.get(place - self.place)
        } else {
            None
        }
    }

    /// Whether it has one there.
    pub(crate) fn has(&self, place: usize) -> bool
        ensures { result ≡ is_some (event_of self.now place) }
    {
        self.place <= place && place - self.place < self.block.len()
    }

    /// Takes in the event of a place, if that is the next one and the block goes on with it. Returns whether it does.
    #[tactic(auto, using(crate::proofs::SlipLists::one_more, crate::proofs::SlipLists::filled_more))]
    pub(crate) fn extend(&mut self, place: usize, event: &Event) -> bool
        ensures extended { result ≡ true
            → slips_at self.new ≡ slips_at self.old ++ record { place = place; event = event.now } ∷ [] }
        ensures filled { result ≡ true → IsFilled self.new }
        ensures unchanged { result ≡ false → self.new ≡ self.old }
    {
        if self.place <= place && place - self.place == self.block.len() {
            self.block.extend(event)
        } else {
            false
        }
    }

    /// Takes in this many events of turns from a place on, if that is the next one and a turn begins there. Returns
    /// whether they are taken in.
    #[tactic(auto, using(crate::proofs::SlipLists::more_slips, crate::proofs::SlipLists::filled_by, crate::proofs::BlockEvents::turns_length))]
    pub(crate) fn extend_turns(&mut self, place: usize, count: usize) -> bool
        requires { place + count ≤ usize.MAX }
        ensures extended { result ≡ true
            → slips_at self.new ≡ slips_at self.old ++ slips_from place (turn_events count) }
        ensures filled { result ≡ true → 0 < count → IsFilled self.new }
        ensures unchanged { result ≡ false → self.new ≡ self.old }
    {
        if self.place <= place && place - self.place == self.block.len() {
            self.block.extend_turns(count)
        } else {
            false
        }
    }

    /// Its last slip.
    pub(crate) fn last(&self) -> Slip
        requires { IsFilled self.now }
        ensures { (front : List IsSlip) × (slips_at self.now ≡ front ++ result ∷ []) }
    {
        Slip {
            place: self.place + (self.block.len() - 1),
            event: self.block.last(),
        }
    }

    /// Takes off its last slip.
    #[tactic(auto, using(crate::proofs::SlipLists::slip_less, crate::proofs::SlipLists::filled_less))]
    pub(crate) fn pop(&mut self) -> Slip
        requires { IsFilled self.old }
        ensures popped { slips_at self.old ≡ slips_at self.new ++ result ∷ [] }
        ensures filled { 0 < length self.new.block → IsFilled self.new }
    {
        let event = self.block.pop();
        Slip {
            place: self.place + self.block.len(),
            event,
        }
    }
}
