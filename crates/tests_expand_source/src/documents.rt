//! What a source becomes, as a document, against the source's document.
use crate::answers::{answer, given};
use crate::sources::{FAN_IN, PLATOON};
use expand_documents::is_expansion;
use std::alloc::Global;
use std::test::Fail;

/// A ring of a class whose parameters are set, and have defaults, and two federates without a class.
const RING: &str = r#"stop = "{10 * nodes} ms"

[parameter]
nodes = 3
gain = 1

[[class]]
name = "node"
parameter = { start = 0, gain = 5 }
inputs = ["x"]
outputs = ["y"]
state = [{ name = "n", value = "{start}" }]

[[class.reaction]]
triggers = ["x"]
body = ["n = in.x * {gain}", "out.y = n"]

[[federate]]
class = "node"
name = "node{i}"
count = "nodes"
with = { start = "100 * i" }

[[federate]]
name = "out{i}"
count = 2
inputs = ["x"]

[[connection]]
from = "node{i}.y"
to = "node{(i + 1) % nodes}.x"
for = "i in 0..nodes - 1"

[[connection]]
from = "node0.y"
to = "out0.x"
"#;

const NODES: &[(&str, i64)] = &[("nodes", 4)];

/// What of the ring of four nodes is changed, so that it is no longer what the source says.
const SLIPS: &[(&str, &str)] = &[
    // A copy's number.
    ("value = 200", "value = 300"),
    // The default of a class where it is set.
    ("value = 100", "value = 0"),
    // The source's parameter before that of the class.
    ("n = in.x * 5", "n = in.x * 1"),
    // The source's own value where another one is given.
    ("\"40 ms\"", "\"30 ms\""),
    // No wrap.
    ("to = \"node0.x\"", "to = \"node4.x\""),
    // Left out, one too many, exchanged.
    ("[[federate]]\nname = \"out1\"\ninputs = [\"x\"]\n", ""),
    (
        "[[federate]]\nname = \"out1\"\ninputs = [\"x\"]\n",
        "[[federate]]\nname = \"out1\"\ninputs = [\"x\"]\n[[federate]]\nname = \"out2\"\ninputs = [\"x\"]\n",
    ),
    (
        "\"out0\"\ninputs = [\"x\"]\n\n[[federate]]\nname = \"out1\"",
        "\"out1\"\ninputs = [\"x\"]\n\n[[federate]]\nname = \"out0\"",
    ),
    ("[[connection]]\nfrom = \"node0.y\"\nto = \"out0.x\"\n", ""),
    // What stays in.
    ("name = \"out0\"\n", "name = \"out0\"\ncount = 2\n"),
    ("name = \"node0\"\n", "name = \"node0\"\nclass = \"node\"\n"),
    ("stop", "parameter = { nodes = 4 }\nstop"),
    ("\"node2.y\"", "\"node{i}.y\""),
    ("value = 300", "value = \"300\""),
    // What no federate has.
    ("name = \"out0\"\n", "name = \"out0\"\noutputs = []\n"),
];

/// Whether a text is what the source becomes. None where one of them is no TOML, or can't be told.
fn is_made(alloc: Global, source: &str, values: &[(&str, i64)], made: &str) -> Option<bool> {
    let given = given(alloc, values).ok()?;
    let source = toml::table_from_str(alloc, source).ok()?;
    let made = toml::table_from_str(alloc, made).ok()?;
    is_expansion(alloc, given.as_slice(), &source, &made).ok()
}

fn is_its_expansion(alloc: Global, source: &str, values: &[(&str, i64)]) -> bool {
    match answer(alloc, source, values) {
        Some(made) => is_made(alloc, source, values, made.as_str()) == Some(true),
        None => false,
    }
}

/// Whether what the ring becomes, with one piece of it changed, isn't that.
fn is_a_slip(alloc: Global, from: &str, to: &str) -> bool {
    let ring = RING;
    let Some(made) = answer(alloc, ring, NODES) else {
        return false;
    };
    let Some((before, behind)) = made.as_str().split_once(from) else {
        return false;
    };
    match format!(in alloc; "{before}{to}{behind}") {
        Ok(slipped) => is_made(alloc, ring, NODES, slipped.as_str()) == Some(false),
        Err(_) => false,
    }
}

#[test]
fn a_text_is_what_its_source_says(rt: HostRuntime) {
    let worked: &[(&str, &[(&str, i64)])] = &[
        (FAN_IN, &[("period", 7)]),
        (PLATOON, &[("gain", 2)]),
        (RING, &[]),
        (RING, NODES),
    ];
    for (source, values) in worked {
        assert!(rt; is_its_expansion(rt.alloc(), source, values));
    }
}

#[test]
fn a_slip_is_seen(rt: HostRuntime) {
    for (from, to) in SLIPS {
        assert!(rt; is_a_slip(rt.alloc(), from, to));
    }
}
