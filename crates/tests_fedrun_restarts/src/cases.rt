//! A federation whose nodes are dropped, and the rows that it must have, which were worked out by hand.

/// A federation.
#[derive(Clone, Copy)]
pub(crate) struct Case {
    pub federation: &'static str,
    /// Its recorded inputs.
    pub inputs: &'static str,
    /// Its rows, federate by federate.
    pub rows: &'static str,
}

/// What comes to one of two federates from outside goes round between them, each time one more, until the stop time.
pub(crate) const RING: Case = Case {
    federation: r#"stop = "4 ms"
connection = [
    { from = "a.y", to = "b.x", after = "1 ms" },
    { from = "b.y", to = "a.x", after = "1 ms" },
]
[[federate]]
name = "a"
inputs = ["x"]
outputs = ["y"]
physical = ["p"]
state = [{ name = "n", value = 0 }]
reaction = [
    { triggers = ["p"], body = ["out.y = in.p"] },
    { triggers = ["x"], body = ["n = in.x + 1", "out.y = n"] },
]
[[federate]]
name = "b"
inputs = ["x"]
outputs = ["y"]
state = [{ name = "n", value = 0 }]
reaction = [{ triggers = ["x"], body = ["n = in.x + 1", "out.y = n"] }]
"#,
    inputs: r#"[[input]]
federate = "a"
action = "p"
time = "1 ms"
value = 5
"#,
    rows: "a (1 ms, 0) [p=5] -> [y=5]
a (3 ms, 0) [x=6] -> [y=7]
b (2 ms, 0) [x=5] -> [y=6]
b (4 ms, 0) [x=7] -> [y=8]
",
};
