//! The coordinator at its station: how far it grants, and what it refuses.
use crate::steps::{Coming, Part, Said, Step, answered};
use loadfed::load;
use plan::Plan;
use std::alloc::Global;
use tests_samples::{COUNTER, LOOP, STARTED_COUNTER};
use world::new_coordinator;

/// Two federates, of which one sends to the other.
const PAIR: &str = r#"stop = "100 ms"
federate = [{ name = "a", outputs = ["y"] }, { name = "b", inputs = ["x"] }]
connection = [{ from = "a.y", to = "b.x" }]
"#;

const DELAYED_PAIR: &str = r#"stop = "20 ms"
federate = [{ name = "a", outputs = ["y"] }, { name = "b", inputs = ["x"] }]
connection = [{ from = "a.y", to = "b.x", after = "10 ms" }]
"#;

const CHAIN: &str = r#"stop = "20 ms"
federate = [
    { name = "a", outputs = ["y"] },
    { name = "b", inputs = ["x"], outputs = ["y"] },
    { name = "c", inputs = ["x"] },
]
connection = [{ from = "a.y", to = "b.x" }, { from = "b.y", to = "c.x" }]
"#;

const MILLISECOND: u64 = 1_000_000;

const STOP: Said = Said::Tag(20 * MILLISECOND, 0);

/// What is shown, a federation file, and steps of its coordinator.
type Course = (&'static str, &'static str, &'static [Step]);

const GRANTS: &[Course] = &[
    // The sender hears from nobody; the receiver from the sender, up to whose last LTC it is granted.
    (
        "a sender up to stop, and its receiver up to an LTC",
        COUNTER,
        &[
            (
                Coming::From(0, Part::Data(1, Said::Net(0, 0))),
                None,
                &[(0, Part::Ack(1)), (0, Part::Data(1, STOP))],
            ),
            (
                Coming::From(0, Part::Data(2, Said::Msg(0, 0, 0))),
                None,
                &[(0, Part::Ack(2)), (1, Part::Data(1, Said::Msg(0, 0, 0)))],
            ),
            (
                Coming::From(0, Part::Data(3, Said::Ltc(0, 0))),
                None,
                &[(0, Part::Ack(3))],
            ),
            (
                Coming::From(1, Part::Data(1, Said::Forever)),
                None,
                &[(1, Part::Ack(1)), (1, Part::Data(2, Said::Tag(0, 0)))],
            ),
        ],
    ),
    // The receiver starts at (0, 0) too, where a message may still come.
    (
        "the sender alone where both start",
        STARTED_COUNTER,
        &[
            (
                Coming::From(1, Part::Data(1, Said::Net(0, 0))),
                None,
                &[(1, Part::Ack(1))],
            ),
            (
                Coming::From(0, Part::Data(1, Said::Net(0, 0))),
                None,
                &[(0, Part::Ack(1)), (0, Part::Data(1, STOP))],
            ),
        ],
    ),
    // What it sends at (0, 0) comes back at (5 ms, 0).
    (
        "a loop up to the last tag before its own message",
        LOOP,
        &[(
            Coming::From(0, Part::Data(1, Said::Net(0, 0))),
            None,
            &[
                (0, Part::Ack(1)),
                (0, Part::Data(1, Said::Tag(4_999_999, 4_294_967_295))),
            ],
        )],
    ),
    (
        "the first of a chain alone",
        CHAIN,
        &[
            (
                Coming::From(1, Part::Data(1, Said::Forever)),
                None,
                &[(1, Part::Ack(1))],
            ),
            (
                Coming::From(2, Part::Data(1, Said::Net(10 * MILLISECOND, 0))),
                None,
                &[(2, Part::Ack(1))],
            ),
            (
                Coming::From(0, Part::Data(1, Said::Net(10 * MILLISECOND, 0))),
                None,
                &[(0, Part::Ack(1)), (0, Part::Data(1, STOP))],
            ),
        ],
    ),
    (
        "nothing where an earlier message may come",
        DELAYED_PAIR,
        &[
            (
                Coming::From(0, Part::Data(1, Said::Net(0, 0))),
                None,
                &[(0, Part::Ack(1)), (0, Part::Data(1, STOP))],
            ),
            (
                Coming::From(0, Part::Data(2, Said::Ltc(0, 0))),
                None,
                &[(0, Part::Ack(2))],
            ),
            (
                Coming::From(1, Part::Data(1, Said::Net(10 * MILLISECOND, 0))),
                None,
                &[(1, Part::Ack(1))],
            ),
        ],
    ),
];

const LATE: u64 = 100 * MILLISECOND;

/// Each refusal closes the link, on which not even what a federate may say at any time is taken then.
const REFUSALS: &[Course] = &[
    (
        "a message at or below a grant",
        PAIR,
        &[
            (
                Coming::From(0, Part::Data(1, Said::Net(LATE, 0))),
                None,
                &[(0, Part::Ack(1)), (0, Part::Data(1, Said::Tag(LATE, 0)))],
            ),
            (
                Coming::From(1, Part::Data(1, Said::Net(50 * MILLISECOND, 0))),
                None,
                &[
                    (1, Part::Ack(1)),
                    (1, Part::Data(1, Said::Tag(99_999_999, 4_294_967_295))),
                ],
            ),
            (
                Coming::From(0, Part::Data(2, Said::Msg(0, 40 * MILLISECOND, 0))),
                Some(71),
                &[(0, Part::Refuse(1, 71))],
            ),
            (Coming::From(0, Part::Data(2, Said::Forever)), Some(55), &[]),
        ],
    ),
    (
        "a TAG",
        PAIR,
        &[
            (
                Coming::From(0, Part::Data(1, Said::Tag(0, 0))),
                Some(75),
                &[(0, Part::Refuse(1, 75))],
            ),
            (Coming::From(0, Part::Data(1, Said::Forever)), Some(55), &[]),
        ],
    ),
    (
        "a message over no connection",
        PAIR,
        &[
            (
                Coming::From(0, Part::Data(1, Said::Msg(1, 0, 0))),
                Some(70),
                &[(0, Part::Refuse(1, 70))],
            ),
            (Coming::From(0, Part::Data(1, Said::Forever)), Some(55), &[]),
        ],
    ),
    (
        "a message over another's connection",
        PAIR,
        &[
            (
                Coming::From(1, Part::Data(1, Said::Msg(0, 0, 0))),
                Some(70),
                &[(1, Part::Refuse(1, 70))],
            ),
            (Coming::From(1, Part::Data(1, Said::Forever)), Some(55), &[]),
        ],
    ),
    (
        "a message after stop",
        PAIR,
        &[
            (
                Coming::From(0, Part::Data(1, Said::Msg(0, LATE, 1))),
                Some(73),
                &[(0, Part::Refuse(1, 73))],
            ),
            (Coming::From(0, Part::Data(1, Said::Forever)), Some(55), &[]),
        ],
    ),
    (
        "a NET after stop",
        PAIR,
        &[
            (
                Coming::From(0, Part::Data(1, Said::Net(LATE, 1))),
                Some(73),
                &[(0, Part::Refuse(1, 73))],
            ),
            (Coming::From(0, Part::Data(1, Said::Forever)), Some(55), &[]),
        ],
    ),
    (
        "a NET of what is completed",
        PAIR,
        &[
            (
                Coming::From(0, Part::Data(1, Said::Ltc(10 * MILLISECOND, 0))),
                None,
                &[(0, Part::Ack(1))],
            ),
            (
                Coming::From(0, Part::Data(2, Said::Net(10 * MILLISECOND, 0))),
                Some(72),
                &[(0, Part::Refuse(1, 72))],
            ),
            (Coming::From(0, Part::Data(2, Said::Forever)), Some(55), &[]),
        ],
    ),
];

/// What a fresh coordinator answers to a frame that its end refuses by itself, and that the link stays open.
const LEFT_OPEN: &[Course] = &[
    (
        "a NET",
        PAIR,
        &[(
            Coming::From(0, Part::Data(1, Said::Forever)),
            None,
            &[(0, Part::Ack(1))],
        )],
    ),
    (
        "an Ack of what wasn't sent",
        PAIR,
        &[
            (Coming::From(0, Part::Ack(1)), Some(53), &[]),
            (
                Coming::From(0, Part::Data(1, Said::Forever)),
                None,
                &[(0, Part::Ack(1))],
            ),
        ],
    ),
    (
        "a number above the next",
        PAIR,
        &[
            (
                Coming::From(0, Part::Data(2, Said::Net(0, 0))),
                Some(52),
                &[],
            ),
            (
                Coming::From(0, Part::Data(1, Said::Forever)),
                None,
                &[(0, Part::Ack(1))],
            ),
        ],
    ),
    (
        "a Hello of another incarnation",
        PAIR,
        &[
            (
                Coming::From(0, Part::Hello(2)),
                Some(51),
                &[(0, Part::Refuse(2, 51))],
            ),
            (
                Coming::From(0, Part::Data(1, Said::Forever)),
                None,
                &[(0, Part::Ack(1))],
            ),
        ],
    ),
];

// How many of these steps the coordinator of a plan answers so before one it doesn't.
fn answered_by(alloc: Global, plan: &Plan, steps: &[Step]) -> Option<usize> {
    answered(&mut new_coordinator(alloc, plan).ok()?, steps)
}

// Whether all of these steps are answered so by the coordinator of a federation.
fn are_answered(alloc: Global, federation: &str, steps: &[Step]) -> bool {
    match load(alloc, federation.as_bytes()) {
        Ok((plan, _programs)) => answered_by(alloc, &plan, steps) == Some(steps.len()),
        Err(_) => false,
    }
}

// What a course shows whose steps aren't answered so.
fn first_wrong(alloc: Global, courses: &[Course]) -> Option<&'static str> {
    for (shown, federation, steps) in courses {
        if !are_answered(alloc, federation, steps) {
            return Some(*shown);
        }
    }
    None
}

#[test]
fn grants_as_far_as_nothing_can_arrive(rt: HostRuntime) {
    assert_eq!(rt; first_wrong(rt.alloc(), GRANTS), None);
}

#[test]
fn closes_the_link_of_a_federate_that_breaks_a_rule(rt: HostRuntime) {
    assert_eq!(rt; first_wrong(rt.alloc(), REFUSALS), None);
}

#[test]
fn leaves_a_link_open_whose_end_refuses(rt: HostRuntime) {
    assert_eq!(rt; first_wrong(rt.alloc(), LEFT_OPEN), None);
}
