//! What sources become, byte by byte.
use crate::answers::is_answered;
use crate::sources::{FAN_IN, PLATOON, THERMOSTAT};
use std::alloc::Global;
use std::test::Fail;
use tests_samples::joined;

pub(crate) const THERMOSTAT_EXPANDED: &str = r#"stop = "50 s"


[[federate]]
name = "room"
inputs = ["heat"]
outputs = ["warmth"]
timers = [{ name = "tick", period = "10 s" }]
state = [{ name = "warmth", value = 195 }, { name = "is_heated", value = 0 }, { name = "_1", value = 0 }]

[[federate.reaction]]
triggers = ["heat"]
body = ["is_heated = in.heat"]

[[federate.reaction]]
triggers = ["tick"]
body = [
  "_1 = is_heated == 0",
  "_1 = _1 == 0",
  "when _1 : warmth = warmth + 8",
  "_1 = 1 - _1",
  "when _1 : warmth = warmth - 5",
  "out.warmth = warmth",
]

[[federate]]
name = "thermostat"
inputs = ["warmth"]
outputs = ["heat"]
state = [{ name = "is_on", value = 0 }, { name = "_1", value = 0 }, { name = "_2", value = 0 }]

[[federate.reaction]]
triggers = ["warmth"]
body = [
  "_1 = in.warmth < 190",
  "when _1 : is_on = 1",
  "_1 = 1 - _1",
  "_2 = 210 < in.warmth",
  "_2 = _2 * _1",
  "when _2 : is_on = 0",
  "out.heat = is_on",
]

[[connection]]
from = "room.warmth"
to = "thermostat.warmth"

[[connection]]
from = "thermostat.heat"
to = "room.heat"
after = "1 s"
"#;

const PLATOON_OF_TWO: &str = r#"stop = "10 ms"



[[federate]]
name = "car0"
outputs = ["y"]
timers = [{ name = "t", period = "10 ms" }]
state = [{ name = "place", value = 0 }]
reaction = [{ triggers = ["t"], body = ["place = place + 10", "out.y = place"] }]

[[federate]]
name = "car1"
inputs = ["x"]
outputs = ["y"]
state = [
  { name = "place", value = 0 },
  { name = "_1", value = 0 },
]

[[federate.reaction]]
triggers = ["x"]
body = [
  "_1 = in.x - place",
  "_1 = -3 * _1",
  "place = place + _1",
  "out.y = place",
]

[[federate]]
name = "car2"
inputs = ["x"]
outputs = ["y"]
state = [
  { name = "place", value = 0 },
  { name = "_1", value = 0 },
]

[[federate.reaction]]
triggers = ["x"]
body = [
  "_1 = in.x - place",
  "_1 = -3 * _1",
  "place = place + _1",
  "out.y = place",
]


[[connection]]
from = "car0.y"
to = "car1.x"

[[connection]]
from = "car1.y"
to = "car2.x"

"#;

const FAN_IN_OF_THREE: &str = r#"stop = "7 ms"


[[federate]]
name = "sender0"
outputs = ["y"]
timers = [{ name = "t", period = "7 ms" }]
reaction = [{ triggers = ["t"], body = ["out.y = 10"] }]

[[federate]]
name = "sender1"
outputs = ["y"]
timers = [{ name = "t", period = "7 ms" }]
reaction = [{ triggers = ["t"], body = ["out.y = 20"] }]

[[federate]]
name = "sender2"
outputs = ["y"]
timers = [{ name = "t", period = "7 ms" }]
reaction = [{ triggers = ["t"], body = ["out.y = 30"] }]


[[federate]]
state = [
  { name = "_1", value = 0 },
]
name = "sum"
inputs = ["x0", "x1", "x2"]
outputs = ["all"]
reaction = [{ triggers = ["x0", "x1", "x2"], body = [
  "_1 = in.x0 + in.x1",
  "_1 = _1 + in.x2",
  "out.all = _1",
] }]

[[connection]]
from = "sender0.y"
to = "sum.x0"

[[connection]]
from = "sender1.y"
to = "sum.x1"

[[connection]]
from = "sender2.y"
to = "sum.x2"

"#;

/// Lists of states, what they become where a body needs a scratch state, and the name of this.
const STATES: &[(&str, &str, &str)] = &[
    (
        "state = []",
        "state = [ { name = \"_1\", value = 0 },]",
        "_1",
    ),
    (
        "state = [{ name = \"_1\", value = 3 }] # own",
        "state = [{ name = \"_1\", value = 3 }, { name = \"_2\", value = 0 }] # own",
        "_2",
    ),
    (
        "state = [{ name = \"n\", value = 1 },\n] # [",
        "state = [{ name = \"n\", value = 1 },\n  { name = \"_1\", value = 0 },\n] # [",
        "_1",
    ),
    (
        "state = [\n{ name = \"n\", value = 1 } # last ]\n]",
        "state = [\n{ name = \"n\", value = 1 }, { name = \"_1\", value = 0 } # last ]\n]",
        "_1",
    ),
];

/// Small sources, and what each becomes.
const SMALL: &[(&str, &str)] = &[
    // Bodies before the list of states, in either kind of quotes; one that is a list of body lines stays as it is.
    (
        "stop = \"0\"\n[[federate]]\nname = \"f\"\noutputs = [\"y\"]\nreaction = [\n  { triggers = [\"startup\"], body = \
         ['out.y = n*2'] },\n  { body = [\"n  =  7\"], triggers = [\"startup\"] } ]\nstate = [{ name = \"n\", value = 1 }]\n",
        "stop = \"0\"\n[[federate]]\nname = \"f\"\noutputs = [\"y\"]\nreaction = [\n  { triggers = [\"startup\"], body = \
         [\n  \"_1 = n * 2\",\n  \"out.y = _1\",\n] },\n  { body = [\"n  =  7\"], triggers = [\"startup\"] } ]\nstate = [{ \
         name = \"n\", value = 1 }, { name = \"_1\", value = 0 }]\n",
    ),
    // A federation file, with a name that only its comment has in braces.
    (
        "stop = '0' # {n}\nfederate = [{ name = \"f\", state = [{ name = \"_1\", value = 1 }] }]",
        "stop = '0' # {n}\nfederate = [{ name = \"f\", state = [{ name = \"_1\", value = 1 }] }]",
    ),
    // Parameters on the first line, behind the mark of a byte order, which stays.
    (
        "\u{feff}parameter = { n = 3 }\nstop = \"{n} s\"\n[[federate]]\nname = \"f\"\n\
         state = [{ name = \"n\", value = 1 }]\n\
         timers = [{ name = \"t\", period = \"1 s\" }]\n\
         reaction = [{ triggers = [\"t\"], body = [\"n = n + n * 2\"] }]\n",
        "\u{feff}stop = \"3 s\"\n[[federate]]\nname = \"f\"\n\
         state = [{ name = \"n\", value = 1 }, { name = \"_1\", value = 0 }]\n\
         timers = [{ name = \"t\", period = \"1 s\" }]\n\
         reaction = [{ triggers = [\"t\"], body = [\n  \"_1 = n * 2\",\n  \"n = n + _1\",\n] }]\n",
    ),
];

// A federate with this list of states, and with this body.
fn federate(alloc: Global, states: &str, body: &str) -> Option<String> {
    joined(
        alloc,
        &[
            "stop = \"0\"\n[[federate]]\nname = \"f\"\noutputs = [\"y\"]\n",
            states,
            "\n[[federate.reaction]]\ntriggers = [\"startup\"]\nbody = [",
            body,
            "]\n",
        ],
    )
}

// Whether the list of states becomes this one.
fn is_joined(alloc: Global, states: &str, wanted: &str, scratch: &str) -> Option<bool> {
    let source = federate(alloc, states, "\"out.y = 1 + 1\"")?;
    let body = joined(
        alloc,
        &[
            "\n  \"",
            scratch,
            " = 1 + 1\",\n  \"out.y = ",
            scratch,
            "\",\n",
        ],
    )?;
    let wanted = federate(alloc, wanted, body.as_str())?;
    Some(is_answered(alloc, source.as_str(), &[], wanted.as_str()))
}

#[test]
fn worked_sources_become_what_was_written_by_hand(rt: HostRuntime) {
    let alloc = rt.alloc();
    assert!(rt; is_answered(alloc, THERMOSTAT, &[], THERMOSTAT_EXPANDED));
    assert!(rt; is_answered(alloc, PLATOON, &[("gain", -3)], PLATOON_OF_TWO));
    assert!(rt; is_answered(alloc, FAN_IN, &[("period", 7)], FAN_IN_OF_THREE));
}

#[test]
fn small_sources_become_what_was_written_by_hand(rt: HostRuntime) {
    for (source, wanted) in SMALL {
        assert!(rt; is_answered(rt.alloc(), source, &[], wanted));
    }
}

#[test]
fn scratch_states_join_any_list_of_states(rt: HostRuntime) {
    for (states, wanted, scratch) in STATES {
        assert_eq!(rt; is_joined(rt.alloc(), states, wanted, scratch), Some(true));
    }
}
