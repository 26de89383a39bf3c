//! Sources that were worked by hand: those of docs/EXPANDING.md.

/// A room that cools, and a thermostat that heats it below a limit, until it is above another one.
pub(crate) const THERMOSTAT: &str = r#"stop = "50 s"

[parameter]
low = 190
high = 210
start = 195

[[federate]]
name = "room"
inputs = ["heat"]
outputs = ["warmth"]
timers = [{ name = "tick", period = "10 s" }]
state = [{ name = "warmth", value = "{start}" }, { name = "is_heated", value = 0 }]

[[federate.reaction]]
triggers = ["heat"]
body = ["is_heated = in.heat"]

[[federate.reaction]]
triggers = ["tick"]
body = [
  "if is_heated",
  "  warmth = warmth + 8",
  "else",
  "  warmth = warmth - 5",
  "end",
  "out.warmth = warmth",
]

[[federate]]
name = "thermostat"
inputs = ["warmth"]
outputs = ["heat"]
state = [{ name = "is_on", value = 0 }]

[[federate.reaction]]
triggers = ["warmth"]
body = [
  "if in.warmth < {low}",
  "  is_on = 1",
  "elif in.warmth > {high}",
  "  is_on = 0",
  "end",
  "out.heat = is_on",
]

[[connection]]
from = "room.warmth"
to = "thermostat.warmth"

[[connection]]
from = "thermostat.heat"
to = "room.heat"
after = "1 s"
"#;

/// A traffic light: 0 is red, 1 green, 2 yellow.
pub(crate) const LIGHT: &str = r#"stop = "30 s"

[parameter]
red = 5
green = 8
yellow = 2

[[federate]]
name = "light"
outputs = ["colour"]
actions = ["change"]
state = [{ name = "colour", value = 0 }]
reaction = [{ triggers = ["startup", "change"], body = [
  "out.colour = colour",
  "if colour == 0",
  "  schedule change {red} s 0",
  "  colour = 1",
  "elif colour == 1",
  "  schedule change {green} s 0",
  "  colour = 2",
  "else",
  "  schedule change {yellow} s 0",
  "  colour = 0",
  "end",
] }]
"#;

/// Nodes in a ring: each sends its start, then what it hears and one.
pub(crate) const RING: &str = r#"stop = "20 ms"

[parameter]
nodes = 4
delay = 10

[[class]]
name = "node"
parameter = { start = 0 }
inputs = ["x"]
outputs = ["y"]

[[class.reaction]]
triggers = ["startup", "x"]
body = [
  "if has.startup",
  "  out.y = {start}",
  "else",
  "  out.y = in.x + 1",
  "end",
]

[[federate]]
class = "node"
name = "node{i}"
count = "nodes"
with = { start = "100 * i" }

[[connection]]
from = "node{i}.y"
to = "node{(i + 1) % nodes}.x"
after = "{delay} ms"
for = "i in 0..nodes - 1"
"#;

/// Three senders, and who adds up what they send.
pub(crate) const FAN_IN: &str = r#"stop = "{period} ms"

[parameter]
period = 5

[[federate]]
name = "sender{i}"
count = 3
outputs = ["y"]
timers = [{ name = "t", period = "{period} ms" }]
reaction = [{ triggers = ["t"], body = ["out.y = {10 * (i + 1)}"] }]

[[federate]]
name = "sum"
inputs = ["x0", "x1", "x2"]
outputs = ["all"]
reaction = [{ triggers = ["x0", "x1", "x2"], body = ["out.all = in.x0 + in.x1 + in.x2"] }]

[[connection]]
for = "i in 0..2"
from = "sender{i}.y"
to = "sum.x{i}"
"#;

/// A leader, and followers that come nearer to the car before them by a gain.
pub(crate) const PLATOON: &str = r#"stop = "10 ms"

[parameter]
gain = 1

[[class]]
name = "follower"
inputs = ["x"]
outputs = ["y"]
state = [
  { name = "place", value = "{start}" },
]

[class.parameter]
start = 0
gain = 5

[[class.reaction]]
triggers = ["x"]
body = [
  "place = place + {gain} * (in.x - place)", # how far it is behind
  "out.y = place",
]

[[federate]]
name = "car0"
outputs = ["y"]
timers = [{ name = "t", period = "10 ms" }]
state = [{ name = "place", value = 0 }]
reaction = [{ triggers = ["t"], body = ["place = place + 10", "out.y = place"] }]

[[federate]]
class = "follower"
name = "car{i + 1}"
count = 2
with = { gain = "gain" }

[[connection]]
from = "car{i}.y"
to = "car{i + 1}.x"
for = "i in 0..1"
"#;

/// A plant that is pushed, and a controller with a proportional and an integral part, in hundredths.
pub(crate) const CONTROLLER: &str = r#"stop = "40 ms"

[parameter]
goal = 100
proportional = 30
integral = 10

[[federate]]
name = "plant"
inputs = ["push"]
outputs = ["speed"]
timers = [{ name = "tick", period = "10 ms" }]
state = [{ name = "speed", value = 0 }]
reaction = [
  { triggers = ["push"], body = ["speed = speed + in.push"] },
  { triggers = ["tick"], body = ["out.speed = speed"] },
]

[[federate]]
name = "controller"
inputs = ["speed"]
outputs = ["push"]
state = [{ name = "sum", value = 0 }]

[[federate.reaction]]
triggers = ["speed"]
body = [
  "let error = {goal} - in.speed",
  "sum = sum + error",
  "out.push = ({proportional} * error + {integral} * sum) / 100",
]

[[connection]]
from = "plant.speed"
to = "controller.speed"

[[connection]]
from = "controller.push"
to = "plant.push"
after = "5 ms"
"#;
