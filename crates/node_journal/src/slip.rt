ghost use Rattle.std.specs.Prelude.{◌≡◌, ◌↔◌, true};

use node::Event;

/// An event, with its place in a journal, counted from 0.
#[derive(Clone, Copy, Debug, PartialEq, Eq)]
pub struct Slip {
    pub place: usize,
    pub event: Event,
}

impl Slip {
    /// Whether they are the same. The places are compared first, and the events only where the places are the same.
    pub fn equals(&self, other: &Slip) -> bool
        ensures { (result ≡ true) ↔ (self.now ≡ other.now) }
    {
        self.place == other.place && self.event == other.event
    }
}
