//! Expressions: `A`, `A OP B`.
ghost use Rattle.std.specs.Prelude.{◌≡◌, ◌≢◌, MatchOption};
ghost use Rattle.plan_slots.specs.Limits.{IsWithinLimits};
ghost use Rattle.reactor_program.specs.Tokens.{tokens_of};
ghost use Rattle.reactor_program.specs.Grammar.{operator_token, SpellsExpression};
ghost use Rattle.reactor_program.specs.Resolution.{expression_of};
ghost use Rattle.reactor_program.specs.Reading.{IsReading};
ghost use Rattle.reactor_program.specs.declared.program.Operator.{Operator};

use super::answer::both;
use super::operand::operand;
use crate::fault::LineFault;
use crate::program::{Expression, Operator, State};
use crate::token::{next_token, only_token};
use plan_slots::Slots;

/// Reads an operand alone, or two with an operator between them.
pub(super) fn expression(
    slots: &Slots,
    states: &[State],
    text: &[u8],
) -> Result<Expression, LineFault>
    requires { IsWithinLimits slots.now }
    ensures { IsReading (λ w. SpellsExpression w (tokens_of text.now)) (expression_of slots.now states.now) result }
{
    let Some((left, rest)) = next_token(text) else {
        return Err(LineFault::NoForm);
    };
    let left = operand(slots, states, left);
    let Some((sign, rest)) = next_token(rest) else {
        return Ok(Expression::Single(left?));
    };
    let Some(operator) = operator(sign) else {
        return Err(LineFault::NoForm);
    };
    let Some(right) = only_token(rest) else {
        return Err(LineFault::NoForm);
    };
    let (left, right) = both(left, operand(slots, states, right))?;
    Ok(Expression::Binary(left, operator, right))
}

fn operator(token: &[u8]) -> Option<Operator>
    ensures { MatchOption result ((operator : Operator) → token.now ≢ operator_token operator)
        (λ operator. token.now ≡ operator_token operator) }
{
    match token {
        b"+" => Some(Operator::Plus),
        b"-" => Some(Operator::Minus),
        b"*" => Some(Operator::Times),
        b"min" => Some(Operator::Minimum),
        b"max" => Some(Operator::Maximum),
        b"<" => Some(Operator::Less),
        b"==" => Some(Operator::Equal),
        _ => None,
    }
}
