//! Body lines: a statement, or `when A : S`.
ghost use Rattle.std.specs.Prelude.{◌∷◌, codes};
ghost use Rattle.plan_slots.specs.Limits.{IsWithinLimits};
ghost use Rattle.reactor_program.specs.Tokens.{tokens_of};
ghost use Rattle.reactor_program.specs.Grammar.{SpellsLine};
ghost use Rattle.reactor_program.specs.Resolution.{line_of};
ghost use Rattle.reactor_program.specs.Reading.{IsReading};

use super::answer::both;
use super::operand::operand;
use super::statement::statement;
use crate::fault::LineFault;
use crate::program::{Line, State};
use crate::token::next_token;
use plan_slots::Slots;

/// Reads a body line.
pub(super) fn line(slots: &Slots, states: &[State], text: &[u8]) -> Result<Line, LineFault>
    requires { IsWithinLimits slots.now }
    ensures { IsReading (λ w. SpellsLine w (tokens_of text.now)) (line_of slots.now states.now) result }
{
    let Some((first, rest)) = next_token(text) else {
        return Err(LineFault::NoForm);
    };
    if first == b"when".as_slice() {
        return guarded(slots, states, rest);
    }
    Ok(Line {
        condition: None,
        statement: statement(slots, states, text)?,
    })
}

// The line that begins with `when`: a condition, `:` and a statement.
fn guarded(slots: &Slots, states: &[State], text: &[u8]) -> Result<Line, LineFault>
    requires { IsWithinLimits slots.now }
    ensures { IsReading (λ w. SpellsLine w (codes "when" ∷ tokens_of text.now)) (line_of slots.now states.now) result }
{
    let Some((condition, rest)) = next_token(text) else {
        return Err(LineFault::NoForm);
    };
    let Some((colon, rest)) = next_token(rest) else {
        return Err(LineFault::NoForm);
    };
    if colon != b":".as_slice() {
        return Err(LineFault::NoForm);
    }
    let condition = operand(slots, states, condition);
    let statement = statement(slots, states, rest);
    let (condition, statement) = both(condition, statement)?;
    Ok(Line {
        condition: Some(condition),
        statement,
    })
}
