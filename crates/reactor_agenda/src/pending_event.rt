ghost use Rattle.std.specs.Prelude.{◌≡◌};

use std::marker::Model;
use tag::FiniteTag;

/// Something that will be present at a slot.
#[derive(Clone, Copy, Debug)]
pub struct PendingEvent {
    tag: FiniteTag,
    slot: usize,
    value: i64,
}

impl Model for PendingEvent {
    ghost use Rattle.network.specs.Undone.{PendingEvent as HeldOf};

    ghost Value = { HeldOf };

    ghost view = { λ e. record { tag = e.tag; slot = e.slot; value = e.value } };

    ghost inverse = { λ e. record { tag = e.tag; slot = e.slot; value = e.value } };
}

impl PendingEvent {
    pub fn new(tag: FiniteTag, slot: usize, value: i64) -> PendingEvent
        ensures { result ≡ record { tag = tag; slot = slot; value = value } }
    {
        PendingEvent { tag, slot, value }
    }

    pub fn tag(self) -> FiniteTag
        ensures { result ≡ self.tag }
    {
        self.tag
    }

    pub fn slot(self) -> usize
        ensures { result ≡ self.slot }
    {
        self.slot
    }

    pub fn value(self) -> i64
        ensures { result ≡ self.value }
    {
        self.value
    }
}
