//! Expressions whose value is known while a source is expanded.
ghost use Rattle.std.specs.Prelude.{◌≡◌, ℕ, ℤ, List, Option, IfOk, IfSome, [], Vec};
ghost use Rattle.expand_expressions.specs.Meaning.{value_of, combination_value, quotient_value, remainder_value};
ghost use Rattle.reactor.specs.Effect.{truth_value};
ghost use Rattle.expand_source.specs.Expansion.{HasValue};

use crate::fault::SourceFaultKind;
use expand_expressions::{
    Combination, ExpressionFault, Formula, Known, NamedOperand, read_formula,
};
use plan_names::Names;
use reactor_program::Operand;
use std::alloc::Global;

/// The value of an expression over these names.
pub fn number(alloc: Global, names: &[NamedOperand], text: &[u8]) -> Result<i64, SourceFaultKind>
    ensures { IfOk result (λ n. HasValue names.now text.now n) }
{
    let readable = Names::new(Vec::new(alloc));
    let known = Known {
        operands: names,
        readable: &readable,
    };
    let formula = read_formula(alloc, known, text)?;
    match value(&formula) {
        Some(number) => Ok(number),
        None => Err(SourceFaultKind::BadExpression(ExpressionFault::UnknownName)),
    }
}

// The value of a formula that reads nothing of a run.
fn value(formula: &Formula) -> Option<i64>
    ensures { IfSome result (λ n. (states : List ℤ) (present : ℕ → Option ℤ)
        → value_of states present formula.now ≡ n) }
{
    match formula {
        Formula::Leaf(Operand::Number(number)) => Some(*number),
        Formula::Leaf(_) => None,
        Formula::Negative(formula) => Some(0i64.wrapping_sub(value(formula)?)),
        Formula::Not(formula) => Some(truth(value(formula)? == 0)),
        Formula::Combined(left, combination, right) => {
            Some(combined(*combination, value(left)?, value(right)?))
        }
        Formula::Quotient(formula, divisor) => Some(quotient(value(formula)?, *divisor)),
        Formula::Remainder(formula, divisor) => Some(remainder(value(formula)?, *divisor)),
    }
}

fn combined(combination: Combination, left: i64, right: i64) -> i64
    ensures { result ≡ combination_value combination left right }
{
    match combination {
        Combination::Sum => left.wrapping_add(right),
        Combination::Difference => left.wrapping_sub(right),
        Combination::Product => left.wrapping_mul(right),
        Combination::Least => left.min(right),
        Combination::Greatest => left.max(right),
        Combination::IsLess => truth(left < right),
        Combination::IsAtMost => truth(left <= right),
        Combination::IsGreater => truth(left > right),
        Combination::IsAtLeast => truth(left >= right),
        Combination::IsEqual => truth(left == right),
        Combination::IsDifferent => truth(left != right),
        Combination::Both => truth(left != 0 && right != 0),
        Combination::Either => truth(left != 0 || right != 0),
    }
}

fn quotient(number: i64, divisor: i64) -> i64
    ensures { result ≡ quotient_value number divisor }
{
    if divisor == 0 {
        0
    } else {
        number.wrapping_div(divisor)
    }
}

fn remainder(number: i64, divisor: i64) -> i64
    ensures { result ≡ remainder_value number divisor }
{
    if divisor == 0 {
        number
    } else {
        number.wrapping_rem(divisor)
    }
}

fn truth(is_so: bool) -> i64
    ensures { result ≡ truth_value is_so }
{
    if is_so { 1 } else { 0 }
}
