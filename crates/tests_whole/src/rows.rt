//! Rows: the turns of a counter, and of the sum of its counts, at 0, 10 and 20 ms.
ghost use Rattle.plan.specs.External.{AreInputsOf};
ghost use Rattle.reactor_programs.specs.Programs.{AreProgramsOf};

use crate::opened::loaded;
use loadfed::load_inputs;
use plan::{Inputs, Plan};
use reactor::{RowView, Rows};
use reactor_program::Entry;
use reactor_programs::Programs;
use std::alloc::Global;
use tests_samples::COUNTER;
use whole::Whole;

const MS: u64 = 1_000_000;

/// Of each row the federate, the time in ns, the value at slot 1 (the timer's is 0), and the output set.
const ROWS: &[(usize, u64, i64, i64)] = &[
    (0, 0, 0, 1),
    (1, 0, 1, 1),
    (0, 10 * MS, 0, 2),
    (1, 10 * MS, 2, 3),
    (0, 20 * MS, 0, 3),
    (1, 20 * MS, 3, 6),
];

fn is_row(row: &RowView<'_>, federate: usize, time: u64, input: i64, output: i64) -> bool {
    row.federate() == federate
        && row.tag().time() == time
        && row.tag().microstep() == 0
        && row.inputs() == [Entry::new(1, input)].as_slice()
        && row.outputs() == [Entry::new(0, output)].as_slice()
}

// Whether these are the first rows, this many of them.
fn are_first(rows: &Rows, count: usize) -> bool {
    rows.len() == count && count <= ROWS.len() && are(rows, &ROWS[..count])
}

// Whether these are the rows.
fn are(rows: &Rows, expected: &[(usize, u64, i64, i64)]) -> bool {
    for (place, (federate, time, input, output)) in expected.iter().enumerate() {
        if place >= rows.len() {
            return false;
        }
        if !is_row(&rows.row(place), *federate, *time, *input, *output) {
            return false;
        }
    }
    rows.len() == expected.len()
}

// Whether this many turns at most are made, and then this many rows are there.
fn makes(whole: &mut Whole<'_>, most: u32, made: u32, count: usize) -> bool {
    whole.turns(most) == Ok(made) && are_first(whole.rows(), count)
}

// None where there was no memory for it.
fn makes_six(alloc: Global, plan: &Plan, programs: &Programs, inputs: &Inputs) -> Option<bool>
    requires programs { AreProgramsOf plan.now programs.now }
    requires inputs { AreInputsOf plan.now inputs.now }
{
    let mut whole = Whole::new(alloc, plan, programs, inputs).ok()?;
    let fresh = whole.rows().len() == 0;
    let four = makes(&mut whole, 4, 4, 4);
    let rest = makes(&mut whole, 100, 2, 6);
    let no_more = makes(&mut whole, 1, 0, 6);
    whole.discard();
    let all_gone = makes(&mut whole, 1, 0, 0);
    Some(fresh && four && rest && no_more && all_gone)
}

// Whether the counter's rows are made so.
fn are_made(alloc: Global, plan: &Plan, programs: &Programs) -> bool
    requires { AreProgramsOf plan.now programs.now }
{
    match load_inputs(alloc, b"", plan) {
        Ok(inputs) => makes_six(alloc, plan, programs, &inputs) == Some(true),
        Err(_) => false,
    }
}

// The same of a fresh plan; None where it can't be loaded.
fn are_made_of_the_counter(alloc: Global) -> Option<bool> {
    let (plan, programs) = loaded(alloc, COUNTER)?;
    Some(are_made(alloc, &plan, &programs))
}

#[test]
fn makes_the_turns_that_are_left_at_most(rt: HostRuntime) {
    let made = are_made_of_the_counter(rt.alloc());
    assert_eq!(rt; made, Some(true));
}
