//! Federates at their stations: what the counter's two answer to each event, and which rows they have; late messages
//! and old grants.
use crate::rows::are_first;
use crate::stations::federate_station;
use crate::steps::{Coming, Part, Said, Step, answered};
use node::Node;
use std::alloc::Global;
use tests_samples::{COUNTER, Federation, with_loaded};

const SRC: u16 = 0;

const SNK: u16 = 1;

const TEN_MS: u64 = 10_000_000;

const TWENTY_MS: u64 = 20_000_000;

/// A message comes at the first tag, which is granted and run.
const SUM: &[Step] = &[
    (Coming::Announce, None, &[(0, Part::Data(1, Said::Forever))]),
    (Coming::Announce, None, &[]),
    (
        Coming::From(0, Part::Data(1, Said::Msg(0, 0, 0))),
        None,
        &[(0, Part::Ack(1))],
    ),
    (Coming::Advance, None, &[]),
    (
        Coming::Announce,
        None,
        &[(0, Part::Data(2, Said::Net(0, 0)))],
    ),
    (
        Coming::From(0, Part::Data(2, Said::Tag(0, 0))),
        None,
        &[(0, Part::Ack(2))],
    ),
    (
        Coming::Advance,
        None,
        &[(0, Part::Data(3, Said::Ltc(0, 0)))],
    ),
    (Coming::Announce, None, &[(0, Part::Data(4, Said::Forever))]),
];

/// Messages and TAGs at or below the last grant, and a message after stop.
const LATE: &[Step] = &[
    (
        Coming::From(0, Part::Data(1, Said::Tag(TEN_MS, 0))),
        None,
        &[(0, Part::Ack(1))],
    ),
    (
        Coming::From(0, Part::Data(2, Said::Msg(0, TEN_MS, 0))),
        Some(61),
        &[],
    ),
    (
        Coming::From(0, Part::Data(2, Said::Tag(TEN_MS, 0))),
        Some(62),
        &[],
    ),
    (
        Coming::From(0, Part::Data(2, Said::Msg(0, TWENTY_MS, 1))),
        Some(63),
        &[],
    ),
    (Coming::Announce, None, &[(0, Part::Data(1, Said::Forever))]),
    (
        Coming::From(0, Part::Data(2, Said::Msg(0, TEN_MS, 1))),
        None,
        &[(0, Part::Ack(2))],
    ),
];

/// The message of a turn is sent before its LTC.
const COUNT: &[Step] = &[
    (
        Coming::Announce,
        None,
        &[(0, Part::Data(1, Said::Net(0, 0)))],
    ),
    (
        Coming::From(0, Part::Data(1, Said::Tag(TWENTY_MS, 0))),
        None,
        &[(0, Part::Ack(1))],
    ),
    (
        Coming::Advance,
        None,
        &[
            (0, Part::Data(2, Said::Msg(0, 0, 0))),
            (0, Part::Data(3, Said::Ltc(0, 0))),
        ],
    ),
    (
        Coming::Announce,
        None,
        &[(0, Part::Data(4, Said::Net(TEN_MS, 0)))],
    ),
];

/// What is shown, a federate's number, its steps, and how many rows it has then.
type Course = (&'static str, u16, &'static [Step], usize);

const COURSES: &[Course] = &[
    ("a tag is run once it is granted", SNK, SUM, 1),
    (
        "messages and TAGs at or below the last grant are refused",
        SNK,
        LATE,
        0,
    ),
    ("a message is sent before its LTC", SRC, COUNT, 1),
];

// Whether a federate answers its steps so, and has its first rows then.
fn is_gone(alloc: Global, federation: &Federation, course: &Course) -> bool {
    let (_, number, steps, rows) = course;
    match federate_station(alloc, federation, *number) {
        Some(mut station) => answered(&mut station, steps) == Some(steps.len())
            && are_first(station.node().rows(), usize::from(*number), *rows),
        None => false,
    }
}

// What the first course shows that isn't gone so.
fn first_wrong(alloc: Global, federation: &Federation) -> Option<&'static str> {
    for course in COURSES {
        if !is_gone(alloc, federation, course) {
            return Some(course.0);
        }
    }
    None
}

#[test]
fn answers_and_runs_by_the_rules(rt: HostRuntime) {
    let alloc = rt.alloc();
    let wrong = with_loaded(alloc, COUNTER, "", |counter| {
        Some(first_wrong(alloc, counter))
    });
    assert_eq!(rt; wrong, Some(None));
}
