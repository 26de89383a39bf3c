//! Federations that these tests run beside those of `tests_samples`.

/// Two federates that send to each other by turns: none of them comes to its end before the other has sent what it
/// sends.
pub(crate) const BY_TURNS: &str = r#"stop = "40 ms"
connection = [
    { from = "src.y", to = "snk.x", after = "1 ms" },
    { from = "snk.y", to = "src.x", after = "1 ms" },
]
[[federate]]
name = "src"
inputs = ["x"]
outputs = ["y"]
state = [{ name = "n", value = 1 }]
reaction = [
    { triggers = ["startup"], body = ["out.y = n"] },
    { triggers = ["x"], body = ["n = in.x + 1", "out.y = n"] },
]
[[federate]]
name = "snk"
inputs = ["x"]
outputs = ["y"]
state = [{ name = "n", value = 0 }]
reaction = [{ triggers = ["x"], body = ["n = in.x + 1", "out.y = n"] }]
"#;

/// One federate that hears from nobody: it is granted all of its 201 ticks at once, and so makes many turns in a row.
pub(crate) const MANY_TICKS: &str = r#"stop = "200 ms"
[[federate]]
name = "one"
outputs = ["y"]
timers = [{ name = "t", period = "1 ms" }]
state = [{ name = "n", value = 0 }]
reaction = [{ triggers = ["t"], body = ["n = n + 1", "out.y = n"] }]
"#;

/// Each of two federates has 51 ticks, and one hears of the other's.
pub(crate) const TICKS: &str = r#"stop = "50 ms"
[[federate]]
name = "src"
outputs = ["y"]
timers = [{ name = "t", period = "1 ms" }]
state = [{ name = "n", value = 0 }]
reaction = [{ triggers = ["t"], body = ["n = n + 1", "out.y = n"] }]
[[federate]]
name = "snk"
inputs = ["x"]
timers = [{ name = "t", period = "1 ms" }]
state = [{ name = "n", value = 0 }]
reaction = [{ triggers = ["x", "t"], body = ["n = n + 1"] }]
[[connection]]
from = "src.y"
to = "snk.x"
"#;

/// A sender that announces 100 ms and sends then, and its receiver, which has a timer at 50 ms.
pub(crate) const LATE: &str = r#"stop = "100 ms"
connection = [{ from = "src.y", to = "snk.x" }]
[[federate]]
name = "src"
outputs = ["y"]
timers = [{ name = "t", offset = "100 ms", period = "0" }]
reaction = [{ triggers = ["t"], body = ["out.y = 1"] }]
[[federate]]
name = "snk"
inputs = ["x"]
outputs = ["total"]
timers = [{ name = "t", offset = "50 ms", period = "0" }]
state = [{ name = "s", value = 0 }]
reaction = [{ triggers = ["x", "t"], body = ["s = s + in.x", "out.total = s"] }]
"#;
