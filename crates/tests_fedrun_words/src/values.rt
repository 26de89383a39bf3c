//! What words give parameters of a source: one value, or several in turn.
use fedrun_words::{MOST_VALUES, given_value, value_range};

/// Words, and the name and the value that each gives; None where it gives none.
const VALUES: &[(&str, Option<(&str, i64)>)] = &[
    ("gain=3", Some(("gain", 3))),
    ("gain=-9223372036854775808", Some(("gain", i64::MIN))),
    ("gain=9223372036854775808", None),
    ("gain=", None),
    ("gain=1=2", None),
    ("gain = 3", None),
    ("gain", None),
    ("=3", None),
];

#[test]
fn reads_one_value(rt: HostRuntime) {
    for (word, wanted) in VALUES {
        let read = given_value(word).map(|given| (given.name, given.value));
        assert_eq!(rt; read, *wanted, "{word}");
    }
}

/// Words, and the name, the first value and the count of values that each gives; None where it gives none.
const RANGES: &[(&str, Option<(&str, i64, usize)>)] = &[
    ("gain in 1..10", Some(("gain", 1, 10))),
    ("  gain in -1 .. 1 ", Some(("gain", -1, 3))),
    ("in in 7..7", Some(("in", 7, 1))),
    ("gain in 2..1", None),
    // The most values, and one more.
    ("gain in 1..1000", Some(("gain", 1, 1000))),
    ("gain in 0..1000", None),
    // The last numbers of 64 bits, and all of them.
    (
        "gain in 9223372036854775806..9223372036854775807",
        Some(("gain", i64::MAX - 1, 2)),
    ),
    ("gain in -9223372036854775808..9223372036854775807", None),
    ("gain in 9223372036854775807..9223372036854775808", None),
    ("gain in 1..=10", None),
    ("gain in 1...10", None),
    ("gain in 1.. ", None),
    ("gain in 1", None),
    ("gain 1..10", None),
    ("gain=1..10", None),
    (" in 1..10", None),
    ("", None),
];

#[test]
fn reads_several_values(rt: HostRuntime) {
    assert_eq!(rt; MOST_VALUES, 1000);
    for (word, wanted) in RANGES {
        let read = value_range(word).map(|range| (range.name, range.first, range.count));
        assert_eq!(rt; read, *wanted, "{word}");
    }
}
