//! Operands: `5`, `n`, `in.x`, `has.x`.
ghost use Rattle.std.specs.Prelude.{◌≡◌};
ghost use Rattle.plan_slots.specs.Limits.{IsWithinLimits};
ghost use Rattle.reactor_program.specs.Grammar.{SpellsOperand};
ghost use Rattle.reactor_program.specs.Resolution.{operand_of, value_at_slot};
ghost use Rattle.reactor_program.specs.Reading.{IsReading, slot_read};

use super::answer::{after, numbered};
use crate::fault::LineFault;
use crate::number::number;
use crate::places::operand_slot;
use crate::program::{Operand, State};
use plan_names::{is_name, place_of};
use plan_slots::Slots;

/// Reads an operand: a number, a state, or what is at a slot or whether something is.
pub(super) fn operand(slots: &Slots, states: &[State], token: &[u8]) -> Result<Operand, LineFault>
    requires { IsWithinLimits slots.now }
    ensures { IsReading (λ w. SpellsOperand w token.now) (operand_of slots.now states.now) result }
{
    if let Some(name) = after(b"in.", token) {
        return Ok(value_at_slot(slots, slot(slots, name)?));
    }
    if let Some(name) = after(b"has.", token) {
        return Ok(Operand::Presence(slot(slots, name)?));
    }
    if is_name(token) {
        return Ok(Operand::State(numbered(true, place_of(states, token))?));
    }
    match number(token) {
        Some(number) => Ok(Operand::Number(number)),
        None => Err(LineFault::NoForm),
    }
}

// The value at a slot; startup and timers have none, which reads as 0.
fn value_at_slot(slots: &Slots, slot: usize) -> Operand
    ensures { result ≡ value_at_slot slots.now slot }
{
    if slots.is_bare(slot) {
        Operand::Number(0)
    } else {
        Operand::Value(slot)
    }
}

// The slot of a name after `in.` or `has.`.
fn slot(slots: &Slots, name: &[u8]) -> Result<usize, LineFault>
    requires { IsWithinLimits slots.now }
    ensures { result ≡ slot_read slots.now name.now }
{
    let well_formed = is_name(name) || name == b"startup".as_slice();
    numbered(well_formed, operand_slot(slots, name))
}
