ghost use Rattle.std.specs.Prelude.{◌≡◌, ◌<◌, ◌^◌, ◌↔◌, IfSome, IsTrue, length};
ghost use Rattle.plan_names.specs.Naming.{place_of};
ghost use Rattle.plan_slots.specs.Numbering.{timer_names};

use plan_names::{Named, Names, Text, place_of};
use std::marker::Model;

/// A timer: it fires at (offset, 0) and then each period; with period 0 once. Both in ns.
#[derive(Clone, Drop)]
pub struct Timer {
    pub name: Text,
    pub offset: u64,
    pub period: u64,
}

impl Named for Timer {
    ghost name_of = { λ t. t.name };

    fn name(&self) -> &Text {
        &self.name
    }
}

impl Timer {
    /// Whether both are one timer.
    pub fn is_same(&self, other: &Timer) -> bool
        ensures { IsTrue result ↔ (self.now ≡ other.now) }
    {
        self.name.is_same(&other.name) && self.offset == other.offset && self.period == other.period
    }
}

/// Timers, in their order. Contracts see the list of them.
#[derive(Clone, Drop)]
pub struct Timers {
    timers: Vec<Timer>,
}

impl Model for Timers {
    ghost use Rattle.std.specs.Prelude.{List};
    ghost use Rattle.plan_slots.specs.declared.slots.Timer.{Timer};

    ghost Value = { List Timer };

    ghost view = { λ t. t.timers.items };
}

impl Timers {
    pub fn new(timers: Vec<Timer>) -> Timers
        ensures { result ≡ timers.items }
    {
        Timers { timers }
    }

    pub fn as_slice(&self) -> &[Timer]
        ensures { result.now ≡ self.now }
    {
        self.timers.as_slice()
    }

    /// Whether both are the same timers, in one order.
    pub fn is_same(&self, other: &Timers) -> bool
        ensures { IsTrue result ↔ (self.now ≡ other.now) }
    {
        are_same(self.as_slice(), other.as_slice())
    }

    /// The place of the first of these timers that has this name.
    pub fn place_of(&self, name: &[u8]) -> Option<usize>
        ensures value { result ≡ place_of (timer_names self.now) name.now }
        ensures there { IfSome result (λ place. place < length self.now) }
    {
        place_of(self.as_slice(), name)
    }
}

fn are_same(timers: &[Timer], others: &[Timer]) -> bool
    ensures { IsTrue result ↔ (timers.now ≡ others.now) }
{
    match timers {
        [first, rest @ ..] => match others {
            [other, others @ ..] => first.is_same(other) && are_same(rest, others),
            [] => false,
        },
        [] => others.is_empty(),
    }
}

/// What a federate has: its startup, where one of its reactions wants it, and its ports, timers and actions by name.
#[derive(Clone, Drop)]
pub struct Slots {
    pub startup: bool,
    pub inputs: Names,
    pub outputs: Names,
    pub timers: Timers,
    pub actions: Names,
    pub physical: Names,
}

impl Slots {
    ghost use Rattle.plan_slots.specs.Numbering.{first_timer, first_action, first_physical, slot_count, is_bare};

    /// The slot of startup.
    pub const STARTUP: usize = 0;

    /// The slot of the first input.
    pub const FIRST_INPUT: usize = 1;

    // For the prover: no slice has 2^59 names, so `small` says that sums of slots fit.

    /// The slot of the first timer.
    pub fn first_timer(&self) -> usize
        ensures value { result ≡ first_timer self.now }
        ensures small { result < 2 ^ 60 }
    {
        Slots::FIRST_INPUT + self.inputs.as_slice().len()
    }

    /// The slot of the first action.
    pub fn first_action(&self) -> usize
        ensures value { result ≡ first_action self.now }
        ensures small { result < 2 ^ 61 }
    {
        self.first_timer() + self.timers.as_slice().len()
    }

    /// The slot of the first physical action.
    pub fn first_physical(&self) -> usize
        ensures value { result ≡ first_physical self.now }
        ensures small { result < 2 ^ 62 }
    {
        self.first_action() + self.actions.as_slice().len()
    }

    /// Whether both are the same slots.
    pub fn is_same(&self, other: &Slots) -> bool
        ensures { IsTrue result ↔ (self.now ≡ other.now) }
    {
        self.startup == other.startup
            && self.inputs.is_same(&other.inputs)
            && self.outputs.is_same(&other.outputs)
            && self.timers.is_same(&other.timers)
            && self.actions.is_same(&other.actions)
            && self.physical.is_same(&other.physical)
    }

    /// How many slots there are, startup among them.
    pub fn slot_count(&self) -> usize
        ensures { result ≡ slot_count self.now }
    {
        self.first_physical() + self.physical.as_slice().len()
    }

    /// Whether this slot has no value: startup and timers have none.
    pub fn is_bare(&self, slot: usize) -> bool
        ensures { result ≡ is_bare self.now slot }
    {
        slot == Slots::STARTUP || (self.first_timer() <= slot && slot < self.first_action())
    }
}
