//! Sources that were worked by hand.

/// Three senders, and who adds up what they send.
pub(crate) const FAN_IN: &str = r#"stop = "{period} ms"

[parameter]
period = 5

[[federate]]
name = "s{i}"
count = 3
outputs = ["y"]
timers = [{ name = "t", offset = "0", period = "{period} ms" }]

[[federate.reaction]]
triggers = ["t"]
body = ["out.y = {10 * (i + 1)}"]

[[federate]]
name = "hub"
inputs = ["x0", "x1", "x2"]
outputs = ["sum"]
state = [{ name = "n", value = 0 }]

[[federate.reaction]]
triggers = ["x0", "x1", "x2"]
body = ["n = in.x0 + in.x1", "n = n + in.x2", "out.sum = n"]

[[connection]]
for = "k in 1..3"
from = "s{k - 1}.y"
to = "hub.x{k - 1}"
"#;

/// A leader, and followers that come nearer to the car before them by a gain.
pub(crate) const PLATOON: &str = r#"stop = "10 ms"
[parameter]
gain = 1

[[class]]
name = "follower"
inputs = ["x"]
outputs = ["y"]
state = [
  { name = "place", value = "{start}" },
  { name = "gap", value = 0 },
]
[class.parameter]
start = 0
gain = 5
[[class.reaction]]
triggers = ["x"]
body = [
  "gap = in.x - place", # how far it is behind
  "gap = gap * {gain}",
  'place = place + gap',
  "out.y = place",
]

[[federate]]
name = "car0"
outputs = ["y"]
timers = [{ name = "t", offset = "0", period = "10 ms" }]
state = [{ name = "place", value = 0 }]
[[federate.reaction]]
triggers = ["t"]
body = ["place = place + 10", "out.y = place"]

[[federate]]
class = "follower"
name = "car{i + 1}"
count = 2
[federate.with]
gain = "gain"

[[connection]]
from = "car{i}.y"
to = "car{i + 1}.x"
for = "i in 0..1"
"#;
