//! How federation files and input files are answered: which are taken, and what is printed of each other. By the
//! clauses out of memory may be answered in the place of any fault: that the fault is told, with its key, is shown
//! here, a row for each key and for each thing that may be wrong there.
use crate::federations::{CYCLE, FOUR, ONE_ACTION, TWO_SOURCES, loaded};
use loadfed::{LoadFault, load_inputs};
use plan::Plan;
use std::alloc::Global;
use std::test::Fail;

// Whether a fault is answered so.
fn is_told(alloc: Global, fault: &LoadFault, text: &str) -> bool {
    match format!(in alloc; "{fault}") {
        Ok(told) => told.as_str() == text,
        Err(_) => false,
    }
}

// Whether a federation file of two parts is answered so; no text where it is taken.
fn is_answered(alloc: Global, front: &str, back: &str, text: &str) -> bool {
    match loaded(alloc, front, back) {
        Ok(_) => text.is_empty(),
        Err(fault) => is_told(alloc, &fault, text),
    }
}

// The first back that isn't answered so behind this front.
fn first_wrong<'a>(alloc: Global, front: &str, answers: &[(&'a str, &str)]) -> Option<&'a str> {
    for (back, text) in answers {
        if !is_answered(alloc, front, back, text) {
            return Some(back);
        }
    }
    None
}

/// Whole files.
const FILES: &[(&str, &str)] = &[
    ("", "31 WrongShape stop"),
    ("stop = 5", "31 WrongShape stop"),
    ("stop = \"5 h\"", "31 WrongShape stop"),
    ("stop = \"4611686018427387904 ns\"", "31 WrongShape stop"),
    ("stop = \"0\"", "10 NoFederate"),
    ("stop = \"0\"\nstops = \"0\"", "31 WrongShape stops"),
    ("stop = \"0\"\nfederate = 1", "31 WrongShape federate"),
    ("stop = \"0\"\nconnection = 1", "31 WrongShape connection"),
    ("stop = ", "30 NotToml"),
];

/// Federates of a file.
const FEDERATES: &[(&str, &str)] = &[
    ("federate = [{ name = \"snk\" }]", ""),
    (
        "federate = [{ name = \"coordinator\" }]",
        "31 WrongShape name",
    ),
    (
        "federate = [{ name = \"f\" }, { name = \"f\" }]",
        "17 RepeatedName f",
    ),
    // inputs and outputs share their names
    (
        "federate = [{ name = \"f\", inputs = [\"x\"], outputs = [\"x\"] }]",
        "17 RepeatedName x",
    ),
    // states have names of their own
    (
        "federate = [{ name = \"f\", inputs = [\"x\"], state = [{ name = \"x\", value = 0 }] }]",
        "",
    ),
    (
        r#"federate = [{
            name = "f", actions = ["a"], physical = ["p"], reaction = [{ triggers = ["startup"] }],
        }]"#,
        "",
    ),
];

/// A federate, up to its lines.
const FEDERATE: &str = "stop = \"1 s\"\n[[federate]]\nname = \"a\"\n";

/// Its lines, and what comes after it.
const LINES: &[(&str, &str)] = &[
    ("rank = 1", "31 WrongShape rank"),
    ("inputs = 1", "31 WrongShape inputs"),
    ("outputs = [\"a b\"]", "31 WrongShape outputs"),
    ("actions = [1]", "31 WrongShape actions"),
    ("physical = [\"when\"]", "31 WrongShape physical"),
    ("timers = [1]", "31 WrongShape timers"),
    ("timers = [{ offset = \"0\" }]", "31 WrongShape name"),
    (
        "timers = [{ name = \"t\", offset = \"1 h\" }]",
        "31 WrongShape offset",
    ),
    (
        "timers = [{ name = \"t\", period = 4 }]",
        "31 WrongShape period",
    ),
    ("state = 1", "31 WrongShape state"),
    ("state = [{ name = \"n\" }]", "31 WrongShape value"),
    (
        "state = [{ name = \"n\", value = \"1\" }]",
        "31 WrongShape value",
    ),
    // one more than the greatest number
    (
        "state = [{ name = \"n\", value = 9223372036854775808 }]",
        "30 NotToml",
    ),
    (
        "state = [{ name = \"n\", value = 1 }, { name = \"n\", value = 2 }]",
        "23 RepeatedState a",
    ),
    // 65 states, each of a wrong shape
    (
        r#"state = [
            1, 1, 1, 1, 1, 1, 1, 1, 1, 1, 1, 1, 1, 1, 1, 1, 1, 1, 1, 1, 1, 1, 1, 1, 1, 1, 1, 1, 1, 1, 1, 1,
            1, 1, 1, 1, 1, 1, 1, 1, 1, 1, 1, 1, 1, 1, 1, 1, 1, 1, 1, 1, 1, 1, 1, 1, 1, 1, 1, 1, 1, 1, 1, 1,
            1,
        ]"#,
        "36 OverLimit",
    ),
    ("reaction = 1", "31 WrongShape reaction"),
    ("reaction = [{ body = [] }]", "31 WrongShape triggers"),
    ("reaction = [{ triggers = [] }]", "31 WrongShape triggers"),
    (
        "reaction = [{ triggers = [\"startup\"], body = [1] }]",
        "31 WrongShape body",
    ),
    ("[[connection]]\nto = \"a.x\"", "31 WrongShape from"),
    (
        "[[connection]]\nfrom = \"a\"\nto = \"a.x\"",
        "31 WrongShape from",
    ),
    (
        "[[connection]]\nfrom = \"a.y\"\nto = \"a.x.z\"",
        "31 WrongShape to",
    ),
    (
        "[[connection]]\nfrom = \"a.y\"\nto = \"a.x\"\nafter = 5",
        "31 WrongShape after",
    ),
];

/// Connections of four federates.
const CONNECTIONS: &[(&str, &str)] = &[
    (
        "connection = [{ from = \"a.z\", to = \"b.x\" }]",
        "11 UnknownName a.z",
    ),
    // an input in the place of an output
    (
        "connection = [{ from = \"a.x\", to = \"b.x\" }]",
        "11 UnknownName a.x",
    ),
    (
        "connection = [{ from = \"a.y\", to = \"coordinator.x\" }]",
        "11 UnknownName coordinator.x",
    ),
    (TWO_SOURCES, "12 TwoSources b.x"),
    (
        "connection = [{ from = \"b.y\", to = \"b.x\" }]",
        "13 ZeroDelayCycle b",
    ),
    (CYCLE, "13 ZeroDelayCycle b d c"),
    (
        "connection = [{ from = \"b.y\", to = \"b.x\", after = \"0\" }]",
        "",
    ),
];

/// A federate, up to the body of its one reaction.
pub(crate) const ONE_REACTION: &str = r#"
stop = "0"

[[federate]]
name = "f"
inputs = ["x"]
outputs = ["y", "z"]
actions = ["act"]
physical = ["p"]
state = [{ name = "n", value = 0 }, { name = "m", value = 0 }]

[[federate.reaction]]
triggers = ["x"]
"#;

/// Bodies of the reaction.
const BODIES: &[(&str, &str)] = &[
    ("body = [\"n = 1\", \"n = 1 : 2\"]", "20 BadLine f 1 2"),
    // a tab parts no tokens
    ("body = [\"n =\\t1\"]", "20 BadLine f 1 1"),
    ("body = [\"n = startup\"]", "20 BadLine f 1 1"),
    ("body = [\"when n : when n : n = 1\"]", "20 BadLine f 1 1"),
    ("body = [\"schedule act 5 kg 1\"]", "20 BadLine f 1 1"),
    (
        "body = [\"schedule act 4611686018427387904 ns 1\"]",
        "20 BadLine f 1 1",
    ),
    // a number that is too great, and a state that isn't there
    (
        "body = [\"q = 1 + 99999999999999999999\"]",
        "20 BadLine f 1 1",
    ),
    ("body = [\"out.x = 1\"]", "21 UnknownOperand f 1 1"),
    ("body = [\"schedule p 0 1\"]", "21 UnknownOperand f 1 1"),
    ("body = [\"n = in.startup\"]", "21 UnknownOperand f 1 1"),
    ("body = [\"when q : n = 1\"]", "21 UnknownOperand f 1 1"),
    (
        "[[federate.reaction]]\ntriggers = [\"t\"]",
        "21 UnknownOperand f 2 0",
    ),
];

#[test]
fn takes_federations_or_answers_their_fault(rt: HostRuntime) {
    assert_eq!(rt; first_wrong(rt.alloc(), "", FILES), None);
    assert_eq!(rt; first_wrong(rt.alloc(), "stop = \"0\"\n", FEDERATES), None);
    assert_eq!(rt; first_wrong(rt.alloc(), FEDERATE, LINES), None);
    assert_eq!(rt; first_wrong(rt.alloc(), FOUR, CONNECTIONS), None);
    assert_eq!(rt; first_wrong(rt.alloc(), ONE_REACTION, BODIES), None);
}

// Whether an input file is answered so; no text where it is taken.
fn are_inputs_answered(alloc: Global, plan: &Plan, file: &str, text: &str) -> bool {
    match load_inputs(alloc, file.as_bytes(), plan) {
        Ok(_) => text.is_empty(),
        Err(fault) => is_told(alloc, &fault, text),
    }
}

/// Input files of a federate `f` with a physical action `p`, stop 20 ms.
const INPUTS: &[(&str, &str)] = &[
    ("", ""),
    ("inputs = []", "31 WrongShape inputs"),
    ("input = 1", "31 WrongShape input"),
    // later than stop
    (
        "input = [{ federate = \"f\", action = \"p\", time = \"30 ms\", value = 1 }]",
        "",
    ),
    (
        "input = [{ action = \"p\", time = \"0\", value = 1 }]",
        "31 WrongShape federate",
    ),
    (
        "input = [{ federate = \"f\", action = 1, time = \"0\", value = 1 }]",
        "31 WrongShape action",
    ),
    (
        "input = [{ federate = \"f\", action = \"p\", value = 1 }]",
        "31 WrongShape time",
    ),
    (
        "input = [{ federate = \"f\", action = \"p\", time = \"0\" }]",
        "31 WrongShape value",
    ),
    (
        "input = [{ federate = \"f\", action = \"p\", time = \"0\", micro = 4294967295, value = 1 }]",
        "",
    ),
    (
        "input = [{ federate = \"f\", action = \"p\", time = \"0\", micro = 4294967296, value = 1 }]",
        "31 WrongShape micro",
    ),
    (
        "input = [{ federate = \"f\", action = \"p\", time = \"0\", micro = -1, value = 1 }]",
        "31 WrongShape micro",
    ),
    // no name
    (
        "input = [{ federate = \"f\", action = \"7 q\", time = \"0\", value = 1 }]",
        "34 UnknownAction",
    ),
    // an input in the place of a physical action
    (
        "input = [{ federate = \"f\", action = \"x\", time = \"0\", value = 1 }]",
        "34 UnknownAction",
    ),
    (
        r#"
        input = [
            { federate = "f", action = "p", time = "7 ns", micro = 1, value = 1 },
            { federate = "f", action = "p", time = "0", value = 1 },
            { federate = "f", action = "p", time = "7 ns", micro = 1, value = 2 },
        ]"#,
        "35 RepeatedInput",
    ),
];

// The first file that isn't answered so.
fn wrong_inputs(alloc: Global, plan: &Plan) -> Option<&'static str> {
    for (file, text) in INPUTS {
        if !are_inputs_answered(alloc, plan, file, text) {
            return Some(file);
        }
    }
    None
}

#[test]
fn takes_inputs_or_answers_their_fault(rt: HostRuntime) -> Result<(), Fail> {
    let (plan, _programs) = loaded(rt.alloc(), ONE_ACTION, "")?;
    assert_eq!(rt; wrong_inputs(rt.alloc(), &plan), None);
    Ok(())
}
