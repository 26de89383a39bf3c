//! Quotients and remainders by a number that is known before the run, bit by bit.
//!
//! The number is made negative, since each number of 64 bits has a negative that fits. From the greatest multiple of
//! the divisor by a power of two down to the divisor itself, each is taken off where it is there: three lines a bit for
//! a quotient, two for a remainder. At the end the sign is set right, so that a quotient is rounded to 0, as in Rust
//! and C.
ghost use Rattle.std.specs.Prelude.{◌≡◌, ◌*◌, ◌^◌, ◌<◌, ◌≤◌, ◌++◌, ◌∷◌, neg_ℤ, pos, nat_le, int_lt};
ghost use Rattle.std.specs.Prelude.{true, false, IfOk, OnOk, MatchOption};
ghost use Rattle.reactor_program.specs.declared.limits.TheConstants.{MOST_STATES};
ghost use Rattle.expand_expressions.specs.Division.{assigned, assigned_where, begun, taken_off, bit_taken_off};
ghost use Rattle.expand_expressions.specs.Division.{all_taken_off, turned, answer_state, factor, divided_lines, divided_last};

use crate::fault::ExpressionFault;
use crate::working::{assignment, put};
use reactor_program::limits::MOST_STATES;
use reactor_program::{Expression, Line, Operand, Operator, Statement};

/// Adds the lines that divide a value, and answers the last operator of its quotient or its remainder. Its scratch
/// states from `free` on are the number, what is left of it, whether the next multiple is in that, and the quotient; no
/// number in them but the first is above 0 until the end.
pub(crate) fn divided(
    lines: &mut Vec<Line>,
    value: Expression,
    divisor: i64,
    is_quotient: bool,
    free: usize,
) -> Result<Expression, ExpressionFault>
    ensures { IfOk result (λ last. (last ≡ divided_last free is_quotient divisor)
        × (lines.new.items ≡ lines.old.items ++ (assigned free value ∷ divided_lines free is_quotient divisor))) }
{
    let size = divisor.unsigned_abs();
    let needed = states_needed(size, is_quotient);
    if free > MOST_STATES - needed {
        return Err(ExpressionFault::TooManyStates);
    }
    put(lines, assignment(free, value))?;
    if size < 2 {
        return Ok(Expression::Binary(
            Operand::State(free),
            Operator::Times,
            Operand::Number(factor(divisor, is_quotient)),
        ));
    }
    begin(lines, free, is_quotient)?;
    take_all_off(lines, free, is_quotient, size)?;
    turn(lines, free, is_quotient, divisor < 0)?;
    Ok(Expression::Binary(
        Operand::State(answer_state(free, is_quotient)),
        Operator::Plus,
        Operand::Number(0),
    ))
}

// How many scratch states a division takes.
fn states_needed(size: u64, is_quotient: bool) -> usize
    ensures some { 0 < result }
    ensures few { result ≤ 4 }
{
    if size < 2 {
        1
    } else if is_quotient {
        4
    } else {
        3
    }
}

// By what a number is multiplied that is divided by -1, 0 or 1.
fn factor(divisor: i64, is_quotient: bool) -> i64
    ensures { result ≡ factor divisor is_quotient }
{
    if is_quotient {
        divisor
    } else if divisor == 0 {
        1
    } else {
        0
    }
}

// Where the quotient or the remainder is in the end.
fn answer_state(free: usize, is_quotient: bool) -> usize
    requires { free < MOST_STATES }
    ensures { result ≡ answer_state free is_quotient }
{
    if is_quotient { free + 3 } else { free + 1 }
}

// All of the number is left, made negative; nothing is in the quotient.
fn begin(lines: &mut Vec<Line>, free: usize, is_quotient: bool) -> Result<(), ExpressionFault>
    requires { free < MOST_STATES }
    ensures { OnOk result (lines.new.items ≡ lines.old.items ++ begun free is_quotient) }
{
    let number = Operand::State(free);
    let rest = free + 1;
    let opposite = Expression::Binary(Operand::Number(0), Operator::Minus, number);
    let lower = Expression::Binary(Operand::State(rest), Operator::Minimum, number);
    put(lines, assignment(rest, opposite))?;
    put(lines, assignment(rest, lower))?;
    if is_quotient {
        let none = Expression::Single(Operand::Number(0));
        put(lines, assignment(free + 3, none))?;
    }
    Ok(())
}

// Takes the multiples off, from the greatest of 64 bits on.
fn take_all_off(
    lines: &mut Vec<Line>,
    free: usize,
    is_quotient: bool,
    size: u64,
) -> Result<(), ExpressionFault>
    requires { free < MOST_STATES }
    ensures { OnOk result (lines.new.items ≡ lines.old.items ++ all_taken_off free is_quotient size 63) }
{
    for bit in (0..63u32).rev() {
        take_bit_off(lines, free, is_quotient, size, bit)?;
    }
    Ok(())
}

// Takes the multiple by a power of two off, if it has 64 bits.
fn take_bit_off(
    lines: &mut Vec<Line>,
    free: usize,
    is_quotient: bool,
    size: u64,
    bit: u32,
) -> Result<(), ExpressionFault>
    requires free { free < MOST_STATES }
    requires bit { bit < 63 }
    ensures { OnOk result (lines.new.items ≡ lines.old.items ++ bit_taken_off free is_quotient size bit) }
{
    match part_of(size, bit) {
        Some(part) => take_off(lines, free, is_quotient, part, weight(bit)),
        None => Ok(()),
    }
}

// A power of two.
fn weight(bit: u32) -> i64
    requires { bit < 63 }
    ensures { result ≡ pos (2 ^ bit) }
{
    1i64 << bit
}

// The multiple by a power of two, made negative; None where it has more than 64 bits.
fn part_of(size: u64, bit: u32) -> Option<i64>
    requires { bit < 63 }
    ensures { MatchOption result (nat_le (size * 2 ^ bit) (2 ^ 63) ≡ false)
        (λ part. (nat_le (size * 2 ^ bit) (2 ^ 63) ≡ true) × (part ≡ neg_ℤ (pos (size * 2 ^ bit)))
        × (int_lt part (pos 1) ≡ true)) }
{
    0i64.checked_sub_unsigned(size.checked_mul(1u64 << bit)?)
}

// Takes one multiple off, where it is there.
fn take_off(
    lines: &mut Vec<Line>,
    free: usize,
    is_quotient: bool,
    part: i64,
    weight: i64,
) -> Result<(), ExpressionFault>
    requires free { free < MOST_STATES }
    requires lowered { int_lt part (pos 1) ≡ true }
    ensures { OnOk result (lines.new.items ≡ lines.old.items ++ taken_off free is_quotient part weight) }
{
    let rest = Operand::State(free + 1);
    let is_in = Expression::Binary(rest, Operator::Less, Operand::Number(part + 1));
    let without = Expression::Binary(rest, Operator::Minus, Operand::Number(part));
    put(lines, assignment(free + 2, is_in))?;
    put(lines, assignment_where(free + 2, free + 1, without))?;
    if is_quotient {
        let quotient = Operand::State(free + 3);
        let counted = Expression::Binary(quotient, Operator::Minus, Operand::Number(weight));
        put(lines, assignment_where(free + 2, free + 3, counted))?;
    }
    Ok(())
}

// Sets the sign right: a remainder has that of the number; a quotient too, unless the divisor is below 0.
fn turn(
    lines: &mut Vec<Line>,
    free: usize,
    is_quotient: bool,
    is_lower: bool,
) -> Result<(), ExpressionFault>
    requires { free < MOST_STATES }
    ensures { OnOk result (lines.new.items ≡ lines.old.items ++ turned free is_quotient is_lower) }
{
    let number = Operand::State(free);
    let zero = Operand::Number(0);
    let is_wrong = if is_quotient && is_lower {
        Expression::Binary(number, Operator::Less, zero)
    } else {
        Expression::Binary(zero, Operator::Less, number)
    };
    let answer = answer_state(free, is_quotient);
    let opposite = Expression::Binary(zero, Operator::Minus, Operand::State(answer));
    put(lines, assignment(free + 2, is_wrong))?;
    put(lines, assignment_where(free + 2, answer, opposite))
}

// A state gets a value where another state isn't 0.
fn assignment_where(condition: usize, state: usize, value: Expression) -> Line
    ensures { result ≡ assigned_where condition state value }
{
    Line {
        condition: Some(Operand::State(condition)),
        statement: Statement::Assign(state, value),
    }
}
