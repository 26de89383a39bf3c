ghost use Rattle.std.specs.Prelude.{◌≡◌};

use reactor_program::{Entries, Entry};
use std::marker::Model;
use tag::Delay;

/// An action that is to be present a delay after the turn, with a value.
#[derive(Clone, Copy)]
pub struct Scheduling {
    slot: usize,
    delay: Delay,
    value: i64,
}

impl Model for Scheduling {
    ghost use Rattle.network.specs.Network.{Scheduling as SchedulingOf};

    ghost Value = { SchedulingOf };

    ghost view = { λ s. record { slot = s.slot; delay = s.delay; value = s.value } };

    ghost inverse = { λ s. record { slot = s.slot; delay = s.delay; value = s.value } };
}

impl Scheduling {
    pub fn new(slot: usize, delay: Delay, value: i64) -> Scheduling
        ensures { result ≡ record { slot = slot; delay = delay; value = value } }
    {
        Scheduling { slot, delay, value }
    }

    /// The slot of the action.
    pub fn slot(self) -> usize
        ensures { result ≡ self.slot }
    {
        self.slot
    }

    pub fn delay(self) -> Delay
        ensures { result ≡ self.delay }
    {
        self.delay
    }

    pub fn value(self) -> i64
        ensures { result ≡ self.value }
    {
        self.value
    }
}

/// Schedulings, in the order in which they were made. Contracts see the list of them.
#[derive(Drop)]
pub struct Schedulings {
    schedulings: Vec<Scheduling>,
}

impl Model for Schedulings {
    ghost use Rattle.std.specs.Prelude.{List};
    ghost use Rattle.network.specs.Network.{Scheduling as SchedulingOf};

    ghost Value = { List SchedulingOf };

    ghost view = { λ s. s.schedulings.items };
}

impl Schedulings {
    pub fn new(schedulings: Vec<Scheduling>) -> Schedulings
        ensures { result ≡ schedulings.items }
    {
        Schedulings { schedulings }
    }

    pub fn as_slice(&self) -> &[Scheduling]
        ensures { result.now ≡ self.now }
    {
        self.schedulings.as_slice()
    }
}

/// What a turn makes: new states, outputs, and schedulings in order. It changes no reactor until it is committed there.
#[derive(Drop)]
pub struct Turn {
    states: Vec<i64>,
    outputs: Entries,
    schedulings: Schedulings,
}

impl Model for Turn {
    ghost use Rattle.reactor.specs.Turn.{Turn as TurnOf};

    ghost Value = { TurnOf };

    ghost view = { λ t. record { states = t.states.items; outputs = t.outputs; schedulings = t.schedulings } };
}

impl Turn {
    pub fn new(states: Vec<i64>, outputs: Entries, schedulings: Schedulings) -> Turn
        ensures { result ≡ record { states = states.items; outputs = outputs; schedulings = schedulings } }
    {
        Turn {
            states,
            outputs,
            schedulings,
        }
    }

    pub fn states(&self) -> &[i64]
        ensures { result.now ≡ self.now.states }
    {
        self.states.as_slice()
    }

    /// By output port.
    pub fn outputs(&self) -> &[Entry]
        ensures { result.now ≡ self.now.outputs }
    {
        self.outputs.as_slice()
    }

    pub fn schedulings(&self) -> &[Scheduling]
        ensures { result.now ≡ self.now.schedulings }
    {
        self.schedulings.as_slice()
    }
}
