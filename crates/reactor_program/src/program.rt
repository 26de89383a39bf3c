ghost use Rattle.std.specs.Prelude.{◌≡◌};

use plan_names::{Named, Text};
use plan_slots::Slots;
use std::marker::Model;
use tag::Delay;

/// What a body line reads: a number, a state, the value at a slot (0 where nothing is present), or whether something is
/// present there (1 or 0). States and slots go by number.
#[derive(Clone, Copy, PartialEq, Eq)]
pub enum Operand {
    Number(i64),
    State(usize),
    Value(usize),
    Presence(usize),
}

/// Sums, differences and products wrap; the tests give 1 or 0.
#[derive(Clone, Copy, PartialEq, Eq)]
pub enum Operator {
    Plus,
    Minus,
    Times,
    Minimum,
    Maximum,
    Less,
    Equal,
}

#[derive(Clone, Copy, PartialEq, Eq)]
pub enum Expression {
    Single(Operand),
    Binary(Operand, Operator, Operand),
}

#[derive(Clone, Copy, PartialEq, Eq)]
pub enum Statement {
    /// A state gets a value.
    Assign(usize, Expression),
    /// An output port gets a value; the last one at a tag counts.
    Output(usize, Operand),
    /// The action at a slot is scheduled after a delay, with a value.
    Schedule(usize, Delay, Operand),
}

/// A body line: a statement, done only where its condition, if it has one, isn't 0.
#[derive(Clone, Copy, PartialEq, Eq)]
pub struct Line {
    pub condition: Option<Operand>,
    pub statement: Statement,
}

/// Slots that trigger a reaction. Contracts see the list of their numbers.
#[derive(Drop)]
pub struct Triggers {
    slots: Vec<usize>,
}

impl Model for Triggers {
    ghost use Rattle.std.specs.Prelude.{ℕ, List};

    ghost Value = { List ℕ };

    ghost view = { λ t. t.slots.items };
}

impl Triggers {
    pub fn new(slots: Vec<usize>) -> Triggers
        ensures { result ≡ slots.items }
    {
        Triggers { slots }
    }

    pub fn as_slice(&self) -> &[usize]
        ensures { result.now ≡ self.now }
    {
        self.slots.as_slice()
    }
}

/// The lines of a reaction, in order. Contracts see the list of them.
#[derive(Drop)]
pub struct Body {
    lines: Vec<Line>,
}

impl Model for Body {
    ghost use Rattle.std.specs.Prelude.{List};
    ghost use Rattle.reactor_program.specs.declared.program.Line.{Line};

    ghost Value = { List Line };

    ghost view = { λ b. b.lines.items };
}

impl Body {
    pub fn new(lines: Vec<Line>) -> Body
        ensures { result ≡ lines.items }
    {
        Body { lines }
    }

    pub fn as_slice(&self) -> &[Line]
        ensures { result.now ≡ self.now }
    {
        self.lines.as_slice()
    }
}

/// Runs at each tag at which one of its triggers is present; with none it never runs.
#[derive(Drop)]
pub struct Reaction {
    pub triggers: Triggers,
    pub body: Body,
}

/// A state by name, with its value at first.
#[derive(Drop)]
pub struct State {
    pub name: Text,
    pub value: i64,
}

impl Named for State {
    ghost name_of = { λ s. s.name };

    fn name(&self) -> &Text {
        &self.name
    }
}

/// A reactor's program: its slots, its states, and its reactions. What they name is there.
#[derive(Drop)]
pub struct Program {
    slots: Slots,
    states: Vec<State>,
    reactions: Vec<Reaction>,
}

impl Model for Program {
    ghost use Rattle.reactor_program.specs.Behaviour.{Behaviour, IsWellFormed};

    ghost Value = { Behaviour };

    ghost view = { λ p. record { slots = p.slots; states = p.states.items; reactions = p.reactions.items } };

    ghost invariant = { λ p. IsWellFormed
        (record { slots = p.slots; states = p.states.items; reactions = p.reactions.items }) };
}

impl Program {
    ghost use Rattle.reactor_program.specs.Behaviour.{IsWellFormed};

    pub(crate) fn new(slots: Slots, states: Vec<State>, reactions: Vec<Reaction>) -> Program
        requires { IsWellFormed (record { slots = slots; states = states.items; reactions = reactions.items }) }
        ensures { result ≡ record { slots = slots; states = states.items; reactions = reactions.items } }
    {
        Program {
            slots,
            states,
            reactions,
        }
    }

    pub fn slots(&self) -> &Slots
        ensures { result.now ≡ self.now.slots }
    {
        &self.slots
    }

    pub fn states(&self) -> &[State]
        ensures { result.now ≡ self.now.states }
    {
        self.states.as_slice()
    }

    pub fn reactions(&self) -> &[Reaction]
        ensures { result.now ≡ self.now.reactions }
    {
        self.reactions.as_slice()
    }

    /// What every program keeps.
    pub fn invariant(&self)
        ensures { IsWellFormed self.now }
    {
        // For the prover: the program keeps it.
        let _ = &self.slots;
    }
}
