//! Texts that aren't what a source says, each for one slip.
use crate::expansions::THERMOSTAT_EXPANDED;
use crate::sources::THERMOSTAT;
use expand_federation::{ExpandFault, check_bodies};
use loadfed_tables::document;
use std::alloc::Global;
use std::test::Fail;
use tests_samples::joined;

/// What stands in the thermostat's expansion in the place of something else.
const SLIPS: &[(&str, &str)] = &[
    // Lines: another one, one too few, one of another reaction.
    ("_1 = 1 - _1\",\n  \"_2", "_1 = 0 - _1\",\n  \"_2"),
    ("  \"when _2 : is_on = 0\",\n", ""),
    ("\"is_heated = in.heat\"", "\"out.warmth = warmth\""),
    // Scratch states: of a user's name, not 0 at first, with another key, before a user's.
    (
        "{ name = \"_2\", value = 0 }",
        "{ name = \"is_on\", value = 0 }",
    ),
    (
        "{ name = \"_2\", value = 0 }",
        "{ name = \"_2\", value = 1 }",
    ),
    (
        "{ name = \"_2\", value = 0 }",
        "{ name = \"_2\", value = 0, after = 0 }",
    ),
    (
        "{ name = \"is_on\", value = 0 }, { name = \"_1\", value = 0 }",
        "{ name = \"_1\", value = 0 }, { name = \"is_on\", value = 0 }",
    ),
    // A user's state: left out, another value.
    ("{ name = \"is_on\", value = 0 }, ", ""),
    ("value = 195", "value = 196"),
    // Reactions: another trigger, left out, exchanged.
    ("triggers = [\"tick\"]", "triggers = [\"heat\"]"),
    (
        "[[federate.reaction]]\ntriggers = [\"heat\"]\nbody = [\"is_heated = in.heat\"]\n",
        "",
    ),
    (
        "triggers = [\"warmth\"]",
        "triggers = [\"warmth\"]\nbody = []\n\n[[federate.reaction]]\ntriggers = [\"warmth\"]",
    ),
    // Federates: another input, one more.
    ("inputs = [\"heat\"]", "inputs = [\"heat\", \"cold\"]"),
    (
        "[[connection]]",
        "[[federate]]\nname = \"third\"\n\n[[connection]]",
    ),
    // What is no federate.
    ("after = \"1 s\"", "after = \"2 s\""),
    ("stop = \"50 s\"", "stop = \"51 s\""),
];

// Whether a text is taken for what the thermostat becomes; none where it isn't known.
fn is_taken(alloc: Global, text: &str) -> Option<bool> {
    let filled = expand_source::expand(alloc, THERMOSTAT.as_bytes(), &[]).ok()?;
    let before = document(alloc, filled.text.as_slice()).ok()?;
    let after = document(alloc, text.as_bytes()).ok()?;
    match check_bodies(alloc, &before, &after) {
        Ok(()) => Some(true),
        Err(ExpandFault::OtherMeaning) => Some(false),
        Err(_) => None,
    }
}

// The thermostat's expansion with a slip.
fn slipped(alloc: Global, from: &str, to: &str) -> Option<String> {
    let (front, rest) = THERMOSTAT_EXPANDED.split_once(from)?;
    joined(alloc, &[front, to, rest])
}

fn is_slip_taken(alloc: Global, from: &str, to: &str) -> Option<bool> {
    is_taken(alloc, slipped(alloc, from, to)?.as_str())
}

#[test]
fn a_text_with_a_slip_is_not_what_the_source_says(rt: HostRuntime) {
    assert_eq!(rt; is_taken(rt.alloc(), THERMOSTAT_EXPANDED), Some(true));
    for (from, to) in SLIPS {
        assert_eq!(rt; is_slip_taken(rt.alloc(), from, to), Some(false), "{to}");
    }
}
