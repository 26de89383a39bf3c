//! The worked federations and their input files, which tests of several crates load, and the rows that they must have:
//! as they were worked out, and as the undivided program gives them. No part of the product.
//!
//! Federations that differ from the counter in a few lines are made of the same text. Begin with `federation`.
#![tactic(auto)]

pub mod federation;
pub mod machine;
pub mod texts;
pub mod undivided_rows;
pub mod worked_rows;

pub use federation::{Federation, load_both, loaded, with_loaded};
pub use machine::Machine;
pub use texts::joined;
pub use undivided_rows::{are_rows_of, is_same, undivided};

/// The counter's sender, with the stop time, and what follows it.
macro_rules! sender_and {
    ($($more:literal),*) => {
        concat!(
            r#"stop = "20 ms"

[[federate]]
name = "src"
outputs = ["y"]
timers = [{ name = "t", offset = "0", period = "10 ms" }]
state = [{ name = "n", value = 0 }]

[[federate.reaction]]
triggers = ["t"]
body = ["n = n + 1", "out.y = n"]
"#
            $(, $more)*
        )
    };
}

/// The counter whose receiver has these triggers, and what follows its connection.
macro_rules! counter {
    ($triggers:literal, $more:literal) => {
        sender_and!(
            r#"
[[federate]]
name = "snk"
inputs = ["x"]
outputs = ["total"]
state = [{ name = "s", value = 0 }]

[[federate.reaction]]
triggers = "#,
            $triggers,
            r#"
body = ["s = s + in.x", "out.total = s"]

[[connection]]
from = "src.y"
to = "snk.x"
"#,
            $more
        )
    };
}

/// The sender of the counter alone.
pub const SENDER: &str = sender_and!();

/// The sender, and another federate with the same timer, without a connection.
pub const APART: &str = sender_and!(
    r#"
[[federate]]
name = "other"
timers = [{ name = "t", offset = "0", period = "10 ms" }]
"#
);

/// A counter `src`, which counts at 0, 10 and 20 ms, and `snk`, the sum of its counts. Its last table is the
/// connection.
pub const COUNTER: &str = counter!(r#"["x"]"#, "");

/// The counter with each count a microstep on its way.
pub const DELAYED_COUNTER: &str = counter!(r#"["x"]"#, "after = \"0\"\n");

/// The counter whose sum is an output at startup too.
pub const STARTED_COUNTER: &str = counter!(r#"["startup", "x"]"#, "");

/// An action in the next microstep, whose value arrives where the first one does, and replaces it.
pub const REPLACED: &str = r#"stop = "20 ms"

[[federate]]
name = "src"
outputs = ["y"]
actions = ["a"]

[[federate.reaction]]
triggers = ["startup"]
body = ["out.y = 1", "schedule a 0 2"]

[[federate.reaction]]
triggers = ["a"]
body = ["out.y = in.a"]

[[federate]]
name = "snk"
inputs = ["x"]
outputs = ["v"]

[[federate.reaction]]
triggers = ["x"]
body = ["out.v = in.x"]

[[connection]]
from = "src.y"
to = "snk.x"
after = "10 ms"
"#;

/// A federate that sends to itself.
pub const LOOP: &str = r#"stop = "12 ms"

[[federate]]
name = "loop"
inputs = ["x"]
outputs = ["y"]
state = [{ name = "n", value = 0 }]

[[federate.reaction]]
triggers = ["startup"]
body = ["n = 1", "out.y = n"]

[[federate.reaction]]
triggers = ["x"]
body = ["n = in.x + 1", "out.y = n"]

[[connection]]
from = "loop.y"
to = "loop.x"
after = "5 ms"
"#;

/// Timers that fire once (the period 0 of one is written), an action and a physical action, in a chain of three.
pub const CHAIN: &str = r#"stop = "100 ms"

[[federate]]
name = "a"
outputs = ["y"]
timers = [{ name = "t", offset = "10 ms", period = "0" }]

[[federate.reaction]]
triggers = ["t"]
body = ["out.y = 1"]

[[federate]]
name = "b"
inputs = ["x"]
outputs = ["z"]
actions = ["act"]
physical = ["p"]

[[federate.reaction]]
triggers = ["x"]
body = ["schedule act 5 ms 7"]

[[federate.reaction]]
triggers = ["act"]
body = ["out.z = in.act"]

[[federate.reaction]]
triggers = ["p"]
body = ["out.z = in.p"]

[[federate]]
name = "c"
inputs = ["w"]
outputs = ["o"]
timers = [{ name = "t", offset = "50 ms" }]

[[federate.reaction]]
triggers = ["w"]
body = ["out.o = in.w"]

[[federate.reaction]]
triggers = ["t"]
body = ["out.o = -1"]

[[connection]]
from = "a.y"
to = "b.x"

[[connection]]
from = "b.z"
to = "c.w"
"#;

/// The chain's one recorded input.
pub const CHAIN_INPUT: &str = r#"[[input]]
federate = "b"
action = "p"
time = "100 ms"
value = 9
"#;

/// A physical action forwarded after a microstep: a tag with the last microstep carries into the next nanosecond.
pub const CARRIED: &str = r#"stop = "10 ms"

[[federate]]
name = "g"
outputs = ["y"]
physical = ["p"]

[[federate.reaction]]
triggers = ["p"]
body = ["out.y = in.p"]

[[federate]]
name = "h"
inputs = ["x"]
timers = [{ name = "t", offset = "10 ms" }]

[[connection]]
from = "g.y"
to = "h.x"
after = "0"
"#;

/// Its two recorded inputs.
pub const CARRIED_INPUTS: &str = r#"[[input]]
federate = "g"
action = "p"
time = "0"
micro = 4294967295
value = 1

[[input]]
federate = "g"
action = "p"
time = "1 ns"
value = 2
"#;

/// Two federates with a connection each way; how each is delayed comes after.
pub const BOTH_WAYS: &str = r#"stop = "10 ms"
federate = [
    { name = "a", inputs = ["x"], outputs = ["y"] },
    { name = "b", inputs = ["x"], outputs = ["y"] },
]
"#;

/// Two federates to which nothing happens.
pub const IDLE: &str = r#"stop = "20 ms"
federate = [{ name = "a" }, { name = "b" }]
"#;
