ghost use Rattle.std.specs.Prelude.{◌≡◌, ◌+◌, All, IfOk, OnOk, length, take, drop, []};
ghost use Rattle.network.specs.Event.{listed, value_at};
ghost use Rattle.reactor.specs.Entries.{value_in};

use crate::memory::Memory;
use crate::running::RunningTurn;
use crate::step::ReactionSteps;
use crate::turn::{Scheduling, Schedulings, Turn};
use reactor_program::{Entries, Entry};
use std::alloc::Global;
use std::marker::Model;

/// A turn in room that is kept for the next one, so that a turn asks for memory only where it needs more than those
/// before it. Contracts see the turn.
#[derive(Drop)]
pub struct TurnRoom {
    running: RunningTurn,
    /// How many of the registers are states.
    states: usize,
    outputs: Vec<Entry>,
}

impl Model for TurnRoom {
    ghost use Rattle.std.specs.Prelude.{◌≤◌, length, take};
    ghost use Rattle.reactor.specs.Turn.{Turn as TurnOf};

    ghost Value = { TurnOf };

    ghost view = { λ r. record {
      states = take r.states r.running.registers.items;
      outputs = r.outputs.items;
      schedulings = r.running.schedulings.items;
    } };

    ghost invariant = { λ r. r.states ≤ length r.running.registers.items };
}

impl TurnRoom {
    ghost use Rattle.reactor.specs.Resolved.{AreOpen};
    ghost use Rattle.reactor.specs.Running.{ReactionWithin, IsTurnBy};

    /// With no room yet, and a turn that makes nothing.
    pub fn new(alloc: Global) -> TurnRoom
        ensures { result ≡ record { states = []; outputs = []; schedulings = [] } }
    {
        TurnRoom {
            running: RunningTurn::new(alloc),
            states: 0,
            outputs: Vec::new(alloc),
        }
    }

    pub fn states(&self) -> &[i64]
        ensures { result.now ≡ self.now.states }
    {
        &self.running.registers[..self.states]
    }

    /// By output port.
    pub fn outputs(&self) -> &[Entry]
        ensures { result.now ≡ self.now.outputs }
    {
        self.outputs.as_slice()
    }

    pub fn schedulings(&self) -> &[Scheduling]
        ensures { result.now ≡ self.now.schedulings }
    {
        self.running.schedulings.as_slice()
    }

    pub fn into_turn(self) -> Turn
        ensures { result ≡ self }
    {
        let TurnRoom {
            running,
            states,
            outputs,
        } = self;
        let RunningTurn {
            mut registers,
            schedulings,
            ..
        } = running;
        registers.truncate(states);
        Turn::new(
            registers,
            Entries::new(outputs),
            Schedulings::new(schedulings),
        )
    }

    /// The turn of these reactions, on these registers, this many of which are states, with these inputs present at
    /// this many slots.
    pub(crate) fn run(
        &mut self,
        registers: &[i64],
        states: usize,
        slots: usize,
        ports: usize,
        inputs: &[Entry],
        reactions: &[ReactionSteps],
    ) -> Result<(), Memory>
        requires begins { AreOpen states slots registers.now }
        requires within { All (ReactionWithin (length registers.now) ports) reactions.now }
        ensures turn { OnOk result (IsTurnBy (take states registers.now) slots ports (value_at inputs.now)
            (drop (states + slots + slots) registers.now) reactions.now self.new) }
        ensures fits { OnOk result (length self.new.states ≡ states) }
    {
        self.states = 0;
        self.running.begin(registers, states, slots, ports, inputs)?;
        self.running.reactions(reactions)?;
        list_into(&mut self.outputs, self.running.outputs.as_slice())?;
        self.states = states;
        Ok(())
    }
}

// The values that are there, each with its place, in place of what the list held.
#[tactic(auto, using(crate::proofs::Listing::listed_some, crate::proofs::Listing::listed_none))]
fn list_into(entries: &mut Vec<Entry>, values: &[Option<i64>]) -> Result<(), Memory>
    ensures { OnOk result (entries.new.items ≡ listed (length values.now) (value_in values.now)) }
{
    entries.clear();
    for (place, value) in values.iter().enumerate() {
        if let Some(value) = *value {
            entries.push(Entry::new(place, value))?;
        }
    }
    Ok(())
}
