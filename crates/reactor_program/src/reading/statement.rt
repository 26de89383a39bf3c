//! Statements: `X = A`, `X = A OP B`, `out.P = A`, `schedule C D A`.
ghost use Rattle.std.specs.Prelude.{◌≡◌, ◌∷◌, ◌++◌, List, ℕ, codes};
ghost use Rattle.plan_slots.specs.Limits.{IsWithinLimits};
ghost use Rattle.reactor_program.specs.Tokens.{tokens_of};
ghost use Rattle.reactor_program.specs.Grammar.{SpellsStatement};
ghost use Rattle.reactor_program.specs.Resolution.{statement_of};
ghost use Rattle.reactor_program.specs.Reading.{IsReading};

use super::answer::{after, both, numbered};
use super::expression::expression;
use super::operand::operand;
use super::schedule::schedule;
use crate::fault::LineFault;
use crate::program::{State, Statement};
use crate::token::{next_token, only_token};
use plan_names::{is_name, place_of};
use plan_slots::Slots;

/// Reads a statement.
pub(super) fn statement(
    slots: &Slots,
    states: &[State],
    text: &[u8],
) -> Result<Statement, LineFault>
    requires { IsWithinLimits slots.now }
    ensures { IsReading (λ w. SpellsStatement w (tokens_of text.now)) (statement_of slots.now states.now) result }
{
    let Some((first, rest)) = next_token(text) else {
        return Err(LineFault::NoForm);
    };
    if first == b"schedule".as_slice() {
        return schedule(slots, states, rest);
    }
    let Some((equals, rest)) = next_token(rest) else {
        return Err(LineFault::NoForm);
    };
    if equals != b"=".as_slice() {
        return Err(LineFault::NoForm);
    }
    match after(b"out.", first) {
        Some(port) => output(slots, states, port, rest),
        None => assignment(slots, states, first, rest),
    }
}

// The statement that begins with `out.`, this port and `=`.
fn output(slots: &Slots, states: &[State], port: &[u8], rest: &[u8]) -> Result<Statement, LineFault>
    requires { IsWithinLimits slots.now }
    ensures { IsReading (λ w. SpellsStatement w ((codes "out." ++ port.now) ∷ codes "=" ∷ tokens_of rest.now))
        (statement_of slots.now states.now) result }
{
    let Some(value) = only_token(rest) else {
        return Err(LineFault::NoForm);
    };
    let port = numbered(is_name(port), slots.outputs.place_of(port));
    let value = operand(slots, states, value);
    let (port, value) = both(port, value)?;
    Ok(Statement::Output(port, value))
}

// The statement that begins with this state and `=`.
fn assignment(
    slots: &Slots,
    states: &[State],
    state: &[u8],
    rest: &[u8],
) -> Result<Statement, LineFault>
    requires limits { IsWithinLimits slots.now }
    requires no_output { (port : List ℕ) → state.now ≡ codes "out." ++ port → ⊥ }
    ensures { IsReading (λ w. SpellsStatement w (state.now ∷ codes "=" ∷ tokens_of rest.now))
        (statement_of slots.now states.now) result }
{
    let state = numbered(is_name(state), place_of(states, state));
    let value = expression(slots, states, rest);
    let (state, value) = both(state, value)?;
    Ok(Statement::Assign(state, value))
}
