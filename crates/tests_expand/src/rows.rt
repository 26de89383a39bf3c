//! Rows of a federate whose body was expanded, worked by hand.
use crate::bodies::texts;
use expand_bodies::{BodyNames, ExpandedBody, expand_body, scratch_names};
use plan_names::Names;
use reactor::Rows;
use reactor_program::Entry;
use std::alloc::{AllocError, Global};
use std::test::Fail;
use tests_samples::{loaded, undivided};

/// The states of the federate, which are 0 at first, its body, and its output at 0, 10, 20, 30, 40 and 50 ms.
const WORKED: &[(&str, &str, &[i64])] = &[
    // A thermostat with hysteresis: `warm` is how far it is above what it should be.
    (
        "warm on",
        "if on;warm = warm + 2;else;warm = warm - 3;end;\
         if warm < -3;on = 1;elif warm > 1;on = 0;end;out.y = warm * 10 + on",
        &[-30, -59, -39, -19, 1, 20],
    ),
    // A quotient is rounded to 0.
    (
        "n",
        "n = n + 1;let m = n * 7 - 20;out.y = m / 2 + n * 100",
        &[94, 197, 300, 404, 507, 611],
    ),
];

const HEAD: &str = "stop = \"50 ms\"

[[federate]]
name = \"f\"
outputs = [\"y\"]
timers = [{ name = \"t\", offset = \"0\", period = \"10 ms\" }]
state = [";

fn names(alloc: Global, states: &str) -> Result<BodyNames, AllocError> {
    Ok(BodyNames {
        states: Names::new(texts(alloc, states, ' ')?),
        readable: Names::new(texts(alloc, "t", ' ')?),
        outputs: Names::new(texts(alloc, "y", ' ')?),
        actions: Names::new(Vec::new(alloc)),
        constants: Vec::new(alloc),
    })
}

fn push_states(text: &mut String, states: &Names) -> Result<(), AllocError> {
    for name in states.as_slice() {
        text.push_str("{ name = \"")?;
        text.push_str(name.as_str())?;
        text.push_str("\", value = 0 }, ")?;
    }
    Ok(())
}

fn push_lines(text: &mut String, lines: &Names) -> Result<(), AllocError> {
    for line in lines.as_slice() {
        text.push_str("\"")?;
        text.push_str(line.as_str())?;
        text.push_str("\", ")?;
    }
    Ok(())
}

// The federation of the one federate.
fn federation(alloc: Global, names: &BodyNames, body: &ExpandedBody) -> Result<String, AllocError> {
    let mut text = String::new(alloc);
    text.push_str(HEAD)?;
    push_states(&mut text, &names.states)?;
    push_states(
        &mut text,
        &scratch_names(alloc, &names.states, body.scratch)?,
    )?;
    text.push_str("]\n\n[[federate.reaction]]\ntriggers = [\"t\"]\nbody = [")?;
    push_lines(&mut text, &body.lines)?;
    text.push_str("]\n")?;
    Ok(text)
}

// The text of the federation, if the body is expanded.
fn expanded(alloc: Global, states: &str, body: &str) -> Option<String> {
    let names = names(alloc, states).ok()?;
    let lines = texts(alloc, body, ';').ok()?;
    let body = expand_body(alloc, &names, lines.as_slice()).ok()?;
    federation(alloc, &names, &body).ok()
}

fn are_outputs(rows: &Rows, outputs: &[i64]) -> bool {
    for (place, output) in outputs.iter().enumerate() {
        if place >= rows.len() || rows.row(place).outputs() != [Entry::new(0, *output)].as_slice() {
            return false;
        }
    }
    rows.len() == outputs.len()
}

fn gives(alloc: Global, states: &str, body: &str, outputs: &[i64]) -> Option<bool> {
    let text = expanded(alloc, states, body)?;
    let federation = loaded(alloc, text.as_str(), "")?;
    let whole = undivided(alloc, &federation)?;
    Some(are_outputs(whole.rows(), outputs))
}

#[test]
fn an_expanded_body_gives_the_worked_rows(rt: HostRuntime) {
    for (states, body, outputs) in WORKED {
        assert_eq!(rt; gives(rt.alloc(), states, body, outputs), Some(true));
    }
}
