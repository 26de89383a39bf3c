//! Tags and delays: their sums, and how they are printed.
use std::alloc::Global;
use std::fmt::Display;
use std::test::Fail;
use tag::{Delay, FiniteTag, Tag, Time, plus, pred, succ, then};

const LAST: u64 = (1 << 62) - 1;

/// FOREVER, as are all numbers of which the first is no time.
const FOREVER: (u64, u32) = (1 << 62, 0);

fn tag(of: (u64, u32)) -> Tag {
    match Time::new(of.0) {
        Some(time) => Tag::new(time, of.1),
        None => Tag::FOREVER,
    }
}

fn delay(of: (u64, u32)) -> Delay {
    match Time::new(of.0) {
        Some(time) => Delay::new(time, of.1),
        None => Delay::FOREVER,
    }
}

/// A tag, a delay, and their sum.
const SUMS: &[((u64, u32), (u64, u32), (u64, u32))] = &[
    ((LAST - 1, 0), (1, 0), (LAST, 0)),
    ((LAST - 1, 0), (2, 0), FOREVER),
    ((0, u32::MAX), (0, 1), (1, 0)),
    ((0, u32::MAX), (0, 2), (1, 0)),
    ((LAST, u32::MAX), (0, 1), FOREVER),
    ((5, 3), (0, 1), (5, 4)),
    ((5, 3), (2, 0), (7, 0)),
    ((5, 3), FOREVER, FOREVER),
];

/// Two delays, and what they are one after the other.
const DELAYS: &[((u64, u32), (u64, u32), (u64, u32))] = &[
    ((0, u32::MAX), (0, 2), (1, 0)),
    ((3, 1), (4, 0), (7, 0)),
];

// The place of the first wrong sum.
fn wrong_sum() -> Option<usize> {
    SUMS.iter().position(|(start, length, sum)| plus(tag(*start), delay(*length)) != tag(*sum))
}

// The place of the first two delays that are wrong.
fn wrong_delay() -> Option<usize> {
    DELAYS.iter().position(|(first, second, sum)| then(delay(*first), delay(*second))
        != delay(*sum))
}

#[test]
fn adds_delays_to_tags_and_to_delays(rt: HostRuntime) {
    assert_eq!(rt; wrong_sum(), None);
    assert_eq!(rt; wrong_delay(), None);
}

/// Tags, each with the next one.
const NEXT: &[((u64, u32), (u64, u32))] = &[
    ((0, 0), (0, 1)),
    ((0, 4_294_967_295), (1, 0)),
    ((5, 3), (5, 4)),
    ((5, 4_294_967_295), (6, 0)),
    ((4_611_686_018_427_387_903, 4_294_967_295), FOREVER),
];

#[test]
fn steps_to_the_next_tag_and_back(rt: HostRuntime) {
    for (earlier, later) in NEXT {
        assert_eq!(rt; succ(tag(*earlier)), tag(*later));
        assert_eq!(rt; pred(tag(*later)), Some(tag(*earlier)));
    }
    assert_eq!(rt; succ(Tag::FOREVER), Tag::FOREVER);
    assert_eq!(rt; pred(tag((0, 0))), None);
}

// Whether a value is printed so.
fn prints<T: Display>(alloc: Global, value: &T, text: &str) -> bool {
    match format!(in alloc; "{value}") {
        Ok(printed) => printed.as_str() == text,
        Err(_) => false,
    }
}

/// Tags, how their time is printed, and how they are.
const PRINTED: &[((u64, u32), &str, &str)] = &[
    ((0, 0), "0", "(0, 0)"),
    ((1, 1), "1 ns", "(1 ns, 1)"),
    ((2_000, 0), "2 us", "(2 us, 0)"),
    ((1_500_000, 0), "1500 us", "(1500 us, 0)"),
    ((10_000_000, 3), "10 ms", "(10 ms, 3)"),
    ((2_000_000_000, 0), "2 s", "(2 s, 0)"),
    (FOREVER, "", "FOREVER"),
];

// Whether the time, if it is one, is printed so.
fn prints_time(alloc: Global, time: u64, text: &str) -> bool {
    match Time::new(time) {
        Some(time) => prints(alloc, &time, text),
        None => text.is_empty(),
    }
}

// Whether the finite tag, if it is one, is printed so.
fn prints_finite(alloc: Global, tag: Tag, text: &str) -> bool {
    match FiniteTag::of(tag) {
        Some(finite) => finite.tag() == tag && prints(alloc, &finite, text),
        None => text == "FOREVER",
    }
}

// Whether a time, and the tags and the delay with it, are printed so.
fn are_printed(alloc: Global, of: (u64, u32), time: &str, text: &str) -> bool {
    prints_time(alloc, of.0, time)
        && prints(alloc, &tag(of), text)
        && prints_finite(alloc, tag(of), text)
        && prints(alloc, &delay(of), text)
}

#[test]
fn prints_times_tags_and_delays(rt: HostRuntime) {
    for (of, time, text) in PRINTED {
        assert!(rt; are_printed(rt.alloc(), *of, time, text), "{text}");
    }
}
