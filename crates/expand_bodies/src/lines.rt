//! Bodies as body lines of one operator each.

ghost use Rattle.std.specs.Prelude.{◌≡◌, ◌<◌, ◌++◌, ◌∷◌, [], None, Ok, IfOk, OnOk};
ghost use Rattle.reactor_program.specs.declared.program.Statement.TheVariants.{Assign};
ghost use Rattle.reactor_program.specs.declared.limits.TheConstants.{MOST_STATES};
ghost use Rattle.expand_expressions.specs.Working.{kept, worked_out};
ghost use Rattle.expand_bodies.specs.Lines.{block_lines, deed_lines, guard_of, asked, branched, stored_lines};
ghost use Rattle.expand_bodies.specs.Lines.{turned_guard, around_operand, within, truth_of, line};

use crate::block::{Block, Target};
use crate::fault::{BodyFault, BodyFaultKind, at};
use expand_expressions::{ExpressionFault, Formula, Stored, put, store, truth, work_out};
use reactor_program::limits::{MOST_LINES, MOST_STATES};
use reactor_program::{Expression, Line, Operand, Operator, Statement};

/// Adds the lines of a block, where states from `free` on are free: in the branch that this state guards, or in none.
pub fn add_lines(
    lines: &mut Vec<Line>,
    block: &Block,
    free: usize,
    around: Option<usize>,
) -> Result<(), BodyFault>
    ensures { OnOk result (lines.new.items ≡ lines.old.items ++ block_lines free around block.now) }
{
    match block {
        Block::End => Ok(()),
        Block::Do(place, target, value, rest) => {
            let answer = add_deed(lines, guard_of(around), *target, value, free);
            added(*place, answer, lines.as_slice())?;
            add_lines(lines, rest, free, around)
        }
        Block::When(place, condition, target, value, rest) => {
            let asked = at(*place, add_condition(lines, condition, free, around))?;
            let condition = Some(asked.operand);
            added(
                *place,
                add_deed(lines, condition, *target, value, asked.free),
                lines.as_slice(),
            )?;
            add_lines(lines, rest, free, around)
        }
        Block::Let(place, value, rest) => {
            added(*place, add_value(lines, value, free), lines.as_slice())?;
            add_lines(lines, rest, free + 1, around)
        }
        Block::If(place, condition, then_block, rest) => {
            let answer = add_guard(lines, condition, free, around);
            added(*place, answer, lines.as_slice())?;
            add_lines(lines, then_block, free + 1, Some(free))?;
            add_lines(lines, rest, free, around)
        }
        Block::IfElse(place, condition, then_block, else_block, rest) => {
            let answer = add_guard(lines, condition, free, around);
            added(*place, answer, lines.as_slice())?;
            add_lines(lines, then_block, free + 1, Some(free))?;
            let answer = put(lines, turned_guard(free, around));
            added(*place, answer, lines.as_slice())?;
            add_lines(lines, else_block, free + 1, Some(free))?;
            add_lines(lines, rest, free, around)
        }
    }
}

// What was answered for a line whose lines were added. A reaction has so many at most.
fn added(place: usize, answer: Result<(), ExpressionFault>, lines: &[Line]) -> Result<(), BodyFault>
    ensures { OnOk result (answer ≡ Ok tt) }
{
    at(place, answer)?;
    if lines.len() > MOST_LINES {
        return Err(BodyFaultKind::TooManyLines.at(place));
    }
    Ok(())
}

// The condition of all that stands in a branch.
fn guard_of(around: Option<usize>) -> Option<Operand>
    ensures { result ≡ guard_of around }
{
    match around {
        Some(guard) => Some(Operand::State(guard)),
        None => None,
    }
}

// A value goes where it is to go, where the condition, if there is one, isn't 0.
fn add_deed(
    lines: &mut Vec<Line>,
    condition: Option<Operand>,
    target: Target,
    value: &Formula,
    free: usize,
) -> Result<(), ExpressionFault>
    ensures { OnOk result (lines.new.items ≡ lines.old.items
        ++ deed_lines free condition target (worked_out free value.now)) }
{
    let last = work_out(lines, value, free)?;
    let statement = match target {
        Target::ToState(state) => Statement::Assign(state, last),
        Target::ToOutput(port) => Statement::Output(port, store(lines, last, free)?.operand),
        Target::ToAction(slot, delay) => {
            Statement::Schedule(slot, delay, store(lines, last, free)?.operand)
        }
    };
    put(
        lines,
        Line {
            condition,
            statement,
        },
    )
}

// The condition of a single statement, as an operand.
fn add_condition(
    lines: &mut Vec<Line>,
    condition: &Formula,
    free: usize,
    around: Option<usize>,
) -> Result<Stored, ExpressionFault>
    ensures { let condition = kept free (asked free around condition.now) in
        IfOk result (λ stored. (stored.operand ≡ condition.operand) × (stored.free ≡ condition.free)
        × (lines.new.items ≡ lines.old.items ++ condition.lines)) }
{
    let last = match around {
        None => work_out(lines, condition, free)?,
        Some(guard) => guarded_truth(lines, condition, free, guard)?,
    };
    store(lines, last, free)
}

// The guard of a branch goes to the first free state.
fn add_guard(
    lines: &mut Vec<Line>,
    condition: &Formula,
    free: usize,
    around: Option<usize>,
) -> Result<(), ExpressionFault>
    ensures { OnOk result ((lines.new.items ≡ lines.old.items ++ stored_lines free (branched free around condition.now))
        × (free < MOST_STATES)) }
{
    let last = match around {
        None => truth(lines, condition, free)?,
        Some(guard) => guarded_truth(lines, condition, free, guard)?,
    };
    claim(lines, free, last)
}

// A value goes to the first free state.
fn add_value(lines: &mut Vec<Line>, value: &Formula, free: usize) -> Result<(), ExpressionFault>
    ensures { OnOk result ((lines.new.items ≡ lines.old.items ++ stored_lines free (worked_out free value.now))
        × (free < MOST_STATES)) }
{
    let last = work_out(lines, value, free)?;
    claim(lines, free, last)
}

// 1 where a condition isn't 0 and what is around it runs, else 0.
fn guarded_truth(
    lines: &mut Vec<Line>,
    condition: &Formula,
    free: usize,
    guard: usize,
) -> Result<Expression, ExpressionFault>
    ensures { let w = within free guard (truth_of free condition.now) in
        IfOk result (λ last. (last ≡ w.last) × (lines.new.items ≡ lines.old.items ++ w.lines)) }
{
    let value = truth(lines, condition, free)?;
    let stored = store(lines, value, free)?;
    let guard = Operand::State(guard);
    Ok(Expression::Binary(stored.operand, Operator::Times, guard))
}

// The first free state gets a value, and isn't free any more.
fn claim(lines: &mut Vec<Line>, free: usize, value: Expression) -> Result<(), ExpressionFault>
    ensures { OnOk result ((lines.new.items ≡ lines.old.items
        ++ line None (Assign free value) ∷ []) × (free < MOST_STATES)) }
{
    if free >= MOST_STATES {
        return Err(ExpressionFault::TooManyStates);
    }
    put(
        lines,
        Line {
            condition: None,
            statement: Statement::Assign(free, value),
        },
    )
}

// From the guard of a branch to that of the other one.
fn turned_guard(free: usize, around: Option<usize>) -> Line
    ensures { result ≡ turned_guard free around }
{
    let around = match around {
        Some(guard) => Operand::State(guard),
        None => Operand::Number(1),
    };
    let value = Expression::Binary(around, Operator::Minus, Operand::State(free));
    Line {
        condition: None,
        statement: Statement::Assign(free, value),
    }
}
