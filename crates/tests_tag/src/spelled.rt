//! Which texts are durations, and of how many nanoseconds.
use std::test::Fail;
use tag_text::{DurationFault, parse_duration};

const DURATIONS: &[(&str, u64)] = &[
    ("0", 0),
    ("10 ms", 10_000_000),
    ("10ms", 10_000_000),
    ("007 s", 7_000_000_000),
    ("1 nsec", 1),
    ("2   usec", 2_000),
    ("2us", 2_000),
    ("3 msec", 3_000_000),
    ("4 sec", 4_000_000_000),
    ("4611686018427387903 ns", 4_611_686_018_427_387_903),
];

const TOO_LONG: &[&str] = &["4611686018427387904 ns", "9223372036854775809 s"];

const BAD: &[&str] = &["", "ms", "1", "1 m", "1 ms ", "-1 ms", "00", "1.5 s"];

// The first text that isn't of this many nanoseconds.
fn not_read() -> Option<&'static str> {
    for (text, nanoseconds) in DURATIONS {
        if parse_duration(text) != Ok(*nanoseconds) {
            return Some(text);
        }
    }
    None
}

// The first of these texts that isn't refused so.
fn not_refused<'a>(texts: &[&'a str], fault: DurationFault) -> Option<&'a str> {
    for text in texts {
        if parse_duration(text) != Err(fault) {
            return Some(text);
        }
    }
    None
}

#[test]
fn reads_durations_or_refuses_them(rt: HostRuntime) {
    assert_eq!(rt; not_read(), None);
    assert_eq!(rt; not_refused(TOO_LONG, DurationFault::TooLong), None);
    assert_eq!(rt; not_refused(BAD, DurationFault::BadDuration), None);
}
