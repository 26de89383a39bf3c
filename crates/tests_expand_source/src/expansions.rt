//! What sources expand to, byte by byte.
use crate::answers::is_answered;
use crate::sources::{FAN_IN, PLATOON};
use std::test::Fail;

const PLATOON_OF_TWO: &str = r#"stop = "10 ms"


[[federate]]
name = "car0"
outputs = ["y"]
timers = [{ name = "t", offset = "0", period = "10 ms" }]
state = [{ name = "place", value = 0 }]
[[federate.reaction]]
triggers = ["t"]
body = ["place = place + 10", "out.y = place"]

[[federate]]
name = "car1"
inputs = ["x"]
outputs = ["y"]
state = [
  { name = "place", value = 0 },
  { name = "gap", value = 0 },
]
[[federate.reaction]]
triggers = ["x"]
body = [
  "gap = in.x - place", # how far it is behind
  "gap = gap * -3",
  'place = place + gap',
  "out.y = place",
]

[[federate]]
name = "car2"
inputs = ["x"]
outputs = ["y"]
state = [
  { name = "place", value = 0 },
  { name = "gap", value = 0 },
]
[[federate.reaction]]
triggers = ["x"]
body = [
  "gap = in.x - place", # how far it is behind
  "gap = gap * -3",
  'place = place + gap',
  "out.y = place",
]


[[connection]]
from = "car0.y"
to = "car1.x"

[[connection]]
from = "car1.y"
to = "car2.x"

"#;

const FAN_IN_OF_THREE: &str = r#"stop = "7 ms"


[[federate]]
name = "s0"
outputs = ["y"]
timers = [{ name = "t", offset = "0", period = "7 ms" }]

[[federate.reaction]]
triggers = ["t"]
body = ["out.y = 10"]

[[federate]]
name = "s1"
outputs = ["y"]
timers = [{ name = "t", offset = "0", period = "7 ms" }]

[[federate.reaction]]
triggers = ["t"]
body = ["out.y = 20"]

[[federate]]
name = "s2"
outputs = ["y"]
timers = [{ name = "t", offset = "0", period = "7 ms" }]

[[federate.reaction]]
triggers = ["t"]
body = ["out.y = 30"]


[[federate]]
name = "hub"
inputs = ["x0", "x1", "x2"]
outputs = ["sum"]
state = [{ name = "n", value = 0 }]

[[federate.reaction]]
triggers = ["x0", "x1", "x2"]
body = ["n = in.x0 + in.x1", "n = n + in.x2", "out.sum = n"]

[[connection]]
from = "s0.y"
to = "hub.x0"

[[connection]]
from = "s1.y"
to = "hub.x1"

[[connection]]
from = "s2.y"
to = "hub.x2"

"#;

/// Small sources, and what each becomes.
const SMALL: &[(&str, &str)] = &[
    // A number alone loses its quotes, in both kinds of quotes.
    (
        "a = \"{1 + 2}\"\nb = '{-4}'\nc = \"{5} {6}\"\n",
        "a = 3\nb = -4\nc = \"5 6\"\n",
    ),
    // Parameters go, and what stands around them stays.
    (
        "a = 1\n[parameter]\nn = 3\n# c\n\n[b]\nd = \"x{n * n}y\"",
        "a = 1\n# c\n\n[b]\nd = \"x9y\"",
    ),
    ("parameter = { n = 3 }\na = \"{n}\"", "a = 3"),
    // Braces of tables, in comments and behind an escaped quote.
    (
        "a = { b = \"{1}\" } # {2}\nc = \"\\\"{3}\"",
        "a = { b = 1 } # {2}\nc = \"\\\"3\"",
    ),
    // Texts of several lines.
    (
        "a = \"\"\"\n\"x\" {1}\n[b]\"\"\"\n",
        "a = \"\"\"\n\"x\" 1\n[b]\"\"\"\n",
    ),
    // What a federate sets counts before what its class has by default, and this before what the source says; it is
    // worked out over what the source says.
    (
        "[parameter]\nn = 1\nm = 2\nk = 3\n[[class]]\nname = \"c\"\nparameter = { n = 4, m = 5 }\nx = \"{n} {m} {k}\"\n\
         [[federate]]\nname = 'f'\nclass = \"c\"\nwith = { n = \"n + m\" }\n",
        "[[federate]]\nname = 'f'\nx = \"3 5 3\"\n\n",
    ),
    // Numbers of copies that aren't there.
    (
        "[[federate]]\ncount = 0\nname = \"f\"\n[[connection]]\nfor = \"i in 1..0\"\nto = \"{i}\"\n",
        "",
    ),
    // Keys in quotes.
    (
        "[[class]]\n\"name\" = \"c\"\n\"x\" = \"{i}\"\n\
         [[federate]]\n\"name\" = \"f{i}\"\n'class' = \"c\"\n\"count\" = 2\n",
        "[[federate]]\nname = \"f0\"\n\"x\" = 0\n\n[[federate]]\nname = \"f1\"\n\"x\" = 1\n\n",
    ),
    // Comparisons, truths, the lesser, and how quotients are rounded.
    (
        "a = \"{3 > 2 and not 0} {min(4, 5)} {-7 / 2} {-7 % 2} {1 - 2 - 3}\"\n",
        "a = \"1 4 -3 -1 -4\"\n",
    ),
    // Behind the mark of a byte order, which is no part of the first line and stays where it is.
    (
        "\u{feff}[parameter]\nn = 3\n[b]\nd = \"{n}\"\n",
        "\u{feff}[b]\nd = 3\n",
    ),
    (
        "\u{feff}parameter = { n = 3 }\r\na = \"{n}\"",
        "\u{feff}a = 3",
    ),
    (
        "\u{feff}[[class]]\nname = \"c\"\nx = \"{i}\"\n[[federate]]\nname = \"f\"\nclass = \"c\"\ncount = 1\n",
        "\u{feff}[[federate]]\nname = \"f\"\nx = 0\n\n",
    ),
    (
        "\u{feff}[[federate]]\nname = \"f{i}\"\ncount = 2\n",
        "\u{feff}[[federate]]\nname = \"f0\"\n\n[[federate]]\nname = \"f1\"\n\n",
    ),
    (
        "\u{feff}[[connection]]\nto = \"f{i}.x\"\nfor = \"i in 1..2\"\n",
        "\u{feff}[[connection]]\nto = \"f1.x\"\n\n[[connection]]\nto = \"f2.x\"\n\n",
    ),
    // Spaces around the dots of headers.
    (
        "[[class]]\nname = \"c\"\n[class . parameter]\nn = 1\n[[class\t.reaction]]\nbody = [\"{n}\"]\n\
         [[federate]]\nname = \"f\"\nclass = \"c\"\n",
        "[[federate]]\nname = \"f\"\n[[federate\t.reaction]]\nbody = [1]\n\n",
    ),
];

#[test]
fn worked_sources_become_what_was_written_by_hand(rt: HostRuntime) {
    let alloc = rt.alloc();
    assert!(rt; is_answered(alloc, PLATOON, &[("gain", -3)], PLATOON_OF_TWO));
    assert!(rt; is_answered(alloc, FAN_IN, &[("period", 7)], FAN_IN_OF_THREE));
}

#[test]
fn small_sources_become_what_was_written_by_hand(rt: HostRuntime) {
    for (source, wanted) in SMALL {
        assert!(rt; is_answered(rt.alloc(), source, &[], wanted));
    }
}
