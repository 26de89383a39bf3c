//! Formulas as body lines of one operator each.
ghost use Rattle.std.specs.Prelude.{◌≡◌, ◌++◌, ◌∷◌, [], IfOk, OnOk};
ghost use Rattle.expand_expressions.specs.Meaning.{is_truth};
ghost use Rattle.expand_expressions.specs.Division.{assigned};
ghost use Rattle.expand_expressions.specs.Working.{worked, keeping_lines, kept_operand, kept_free, negated, as_truth};
ghost use Rattle.expand_expressions.specs.Working.{sided, combined, worked_out};

use crate::division::divided;
use crate::fault::ExpressionFault;
use crate::formula::{Combination, Formula};
use reactor_program::limits::MOST_STATES;
use reactor_program::{Expression, Line, Operand, Operator, Statement};

/// Where a value can be read, and the first scratch state that is free behind it.
#[derive(Clone, Copy)]
pub struct Stored {
    pub operand: Operand,
    pub free: usize,
}

/// Adds the lines that a formula needs before its last operator, and answers that one. What is in between stands in
/// scratch states from `free` on; states below are only read, each where the formula names it.
#[cycle(working)]
pub fn work_out(
    lines: &mut Vec<Line>,
    formula: &Formula,
    free: usize,
) -> Result<Expression, ExpressionFault>
    ensures { IfOk result (λ last. (last ≡ (worked_out free formula.now).last)
        × (lines.new.items ≡ lines.old.items ++ (worked_out free formula.now).lines)) }
{
    match formula {
        Formula::Leaf(operand) => Ok(Expression::Single(*operand)),
        Formula::Negative(formula) => {
            let value = work_out(lines, formula, free)?;
            let stored = store(lines, value, free)?;
            let zero = Operand::Number(0);
            Ok(Expression::Binary(zero, Operator::Minus, stored.operand))
        }
        Formula::Not(formula) => {
            let value = work_out(lines, formula, free)?;
            negation(lines, value, free)
        }
        Formula::Combined(left, combination, right) => {
            let left = side(lines, left, *combination, free)?;
            let right = side(lines, right, *combination, left.free)?;
            combined(lines, left.operand, *combination, right.operand, free)
        }
        Formula::Quotient(formula, divisor) => {
            let value = work_out(lines, formula, free)?;
            divided(lines, value, *divisor, true, free)
        }
        Formula::Remainder(formula, divisor) => {
            let value = work_out(lines, formula, free)?;
            divided(lines, value, *divisor, false, free)
        }
    }
}

// One side of a combination, as it reads it.
#[cycle(working)]
fn side(
    lines: &mut Vec<Line>,
    formula: &Formula,
    combination: Combination,
    free: usize,
) -> Result<Stored, ExpressionFault>
    ensures { let side = sided free combination (is_truth formula.now) (worked_out free formula.now) in
        IfOk result (λ stored. (stored.operand ≡ side.operand) × (stored.free ≡ side.free)
        × (lines.new.items ≡ lines.old.items ++ side.lines)) }
{
    let value = if combination.reads_truths() {
        truth(lines, formula, free)?
    } else {
        work_out(lines, formula, free)?
    };
    store(lines, value, free)
}

/// The same as `work_out`, but 1 for all numbers that aren't 0.
#[cycle(working)]
pub fn truth(
    lines: &mut Vec<Line>,
    formula: &Formula,
    free: usize,
) -> Result<Expression, ExpressionFault>
    ensures { let w = as_truth free (is_truth formula.now) (worked_out free formula.now) in
        IfOk result (λ last. (last ≡ w.last) × (lines.new.items ≡ lines.old.items ++ w.lines)) }
{
    let value = work_out(lines, formula, free)?;
    if formula.is_truth() {
        return Ok(value);
    }
    let opposite = negation(lines, value, free)?;
    negation(lines, opposite, free)
}

/// Whether a value is 0.
pub fn negation(
    lines: &mut Vec<Line>,
    value: Expression,
    free: usize,
) -> Result<Expression, ExpressionFault>
    ensures { IfOk result (λ last. (last ≡ (negated free (worked [] value)).last)
        × (lines.new.items ≡ lines.old.items ++ keeping_lines free value)) }
{
    let stored = store(lines, value, free)?;
    let zero = Operand::Number(0);
    Ok(Expression::Binary(stored.operand, Operator::Equal, zero))
}

/// A value as an operand: in a scratch state, unless it is one already.
pub fn store(
    lines: &mut Vec<Line>,
    value: Expression,
    free: usize,
) -> Result<Stored, ExpressionFault>
    ensures { IfOk result (λ stored. (stored.operand ≡ kept_operand free value) × (stored.free ≡ kept_free free value)
        × (lines.new.items ≡ lines.old.items ++ keeping_lines free value)) }
{
    match value {
        Expression::Single(operand) => Ok(Stored { operand, free }),
        Expression::Binary(..) => {
            if free >= MOST_STATES {
                return Err(ExpressionFault::TooManyStates);
            }
            put(lines, assignment(free, value))?;
            Ok(Stored {
                operand: Operand::State(free),
                free: free + 1,
            })
        }
    }
}

// What two operands are combined to.
fn combined(
    lines: &mut Vec<Line>,
    left: Operand,
    combination: Combination,
    right: Operand,
    free: usize,
) -> Result<Expression, ExpressionFault>
    ensures { let w = combined free lines.old.items left combination right in
        IfOk result (λ last. (last ≡ w.last) × (lines.new.items ≡ w.lines)) }
{
    let is_less = Expression::Binary(left, Operator::Less, right);
    let is_greater = Expression::Binary(right, Operator::Less, left);
    let is_equal = Expression::Binary(left, Operator::Equal, right);
    match combination {
        Combination::Sum => Ok(Expression::Binary(left, Operator::Plus, right)),
        Combination::Difference => Ok(Expression::Binary(left, Operator::Minus, right)),
        Combination::Product | Combination::Both => {
            Ok(Expression::Binary(left, Operator::Times, right))
        }
        Combination::Least => Ok(Expression::Binary(left, Operator::Minimum, right)),
        Combination::Greatest | Combination::Either => {
            Ok(Expression::Binary(left, Operator::Maximum, right))
        }
        Combination::IsLess => Ok(is_less),
        Combination::IsGreater => Ok(is_greater),
        Combination::IsEqual => Ok(is_equal),
        Combination::IsAtMost => negation(lines, is_greater, free),
        Combination::IsAtLeast => negation(lines, is_less, free),
        Combination::IsDifferent => negation(lines, is_equal, free),
    }
}

/// One more line.
pub fn put(lines: &mut Vec<Line>, line: Line) -> Result<(), ExpressionFault>
    ensures { OnOk result (lines.new.items ≡ lines.old.items ++ line ∷ []) }
{
    // For the prover: it has to see what a line is made of.
    let Line {
        condition,
        statement,
    } = line;
    lines.push(Line {
        condition,
        statement,
    })?;
    Ok(())
}

/// A state gets a value.
pub(crate) fn assignment(state: usize, value: Expression) -> Line
    ensures { result ≡ assigned state value }
{
    Line {
        condition: None,
        statement: Statement::Assign(state, value),
    }
}
