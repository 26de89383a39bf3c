//! What is told of a text that is no TOML document, beside what its reader says: what else it is, or what is likely meant
//! at the line at which the reader stopped.

use crate::form::is_one_of;
use crate::line_words::UNITS;

/// What reports of nodes begin with, and their logs.
const REPORT: &[u8] = b"fedrep ";

/// The first words of the lines of a schedule.
pub const STEPS: &[&str] = &[
    "announce",
    "advance",
    "deliver",
    "resend",
    "reconnect",
    "forget",
    "skip",
    "round",
];

const ADVICE_ON_REPORT: &str =
    "it is a report of a node, or its log: FED and IN are named before it, as audit FED IN COORDINATOR FEDERATE, with - in the place of IN where there are no inputs";

const ADVICE_ON_SCHEDULE: &str =
    "it is a schedule: FED and IN are named before it, as replay FED IN SCHEDULE, with - in the place of IN where there are no inputs";

/// Quotes of typography.
const QUOTES: &[&str] = &["\u{201c}", "\u{201d}", "\u{201e}", "\u{2018}", "\u{2019}"];

const ADVICE_ON_QUOTES: &str = "its quotes are those of print: write straight ones, as \"10 ms\"";

const ADVICE_ON_HEADER: &str =
    "a header that stands several times has double brackets, as [[federate]], and its federate above it";

const ADVICE_ON_INPUT: &str =
    "a header that stands several times has double brackets, as [[input]]";

const ADVICE_ON_KEY: &str =
    "a key stands once in a table: leave one out, or begin another table above it, as [[input]] or [[federate]]";

/// What to do about an array that isn't closed.
pub(crate) const ADVICE_ON_BRACKET: &str = "write ] behind its last entry";

const ADVICE_ON_BYTES: &str = "save the file as UTF-8";

const ADVICE_ON_COMMENT: &str = "a comment begins with #";

const ADVICE_ON_DURATION: &str = "a duration stands in quotes, as \"10 ms\"";

const ADVICE_ON_STRING: &str =
    "a text ends in the line in which it begins, with the quote with which it begins, \" or '";

const ADVICE_ON_COMMA: &str =
    "no comma stands behind what a key of a table is set to, but in braces: each key has a line of its own";

const ADVICE_ON_VALUE: &str =
    "behind a key stands what it is set to, as stop = \"1 s\"; a file of recorded inputs has tables [[input]]";

/// What to do about a text of which this is said, and which was refused in this line, if something is known.
pub(crate) fn advice_on_text(bytes: &[u8], line: &str, said: &str) -> Option<&'static str> {
    if bytes.starts_with(REPORT) {
        Some(ADVICE_ON_REPORT)
    } else if begins_with_step(line) {
        Some(ADVICE_ON_SCHEDULE)
    } else if QUOTES.iter().any(|quote| line.contains(*quote)) {
        Some(ADVICE_ON_QUOTES)
    } else if said == "duplicate key" {
        Some(if line.starts_with("[input") {
            ADVICE_ON_INPUT
        } else if line.starts_with('[') {
            ADVICE_ON_HEADER
        } else {
            ADVICE_ON_KEY
        })
    } else if said == "invalid UTF-8" {
        Some(ADVICE_ON_BYTES)
    } else if line.starts_with("//") {
        Some(ADVICE_ON_COMMENT)
    } else if line.split('=').skip(1).any(begins_as_duration) {
        Some(ADVICE_ON_DURATION)
    } else {
        advice_on_stop(line, said)
    }
}

// The same, where it is known only by what is said.
fn advice_on_stop(line: &str, said: &str) -> Option<&'static str> {
    if said == "invalid string" {
        Some(ADVICE_ON_STRING)
    } else if said.starts_with("unexpected key or value") && line.trim_end().ends_with(',') {
        Some(ADVICE_ON_COMMA)
    } else if said.starts_with("key with no value") {
        Some(ADVICE_ON_VALUE)
    } else {
        None
    }
}

// Whether a value begins with digits and a unit behind them, without quotes.
fn begins_as_duration(value: &str) -> bool {
    let value = value.trim_start();
    let digits = value
        .bytes()
        .take_while(|byte| byte.is_ascii_digit() || *byte == b'.' || *byte == b'_')
        .count();
    digits != 0 && begins_with_unit(value.get(digits..).unwrap_or("").trim_start())
}

fn begins_with_unit(text: &str) -> bool {
    UNITS.iter().any(|unit| match text.strip_prefix(*unit) {
        Some(rest) => !begins_as_word(rest),
        None => false,
    })
}

fn begins_as_word(text: &str) -> bool {
    match text.as_bytes() {
        [first, ..] => first.is_ascii_alphanumeric(),
        [] => false,
    }
}

// Whether the first word of a line is that of a step, which has no equals sign behind it.
fn begins_with_step(line: &str) -> bool {
    let (first, rest) = line.split_once(' ').unwrap_or((line, ""));
    is_one_of(first, STEPS) && !rest.starts_with('=')
}

/// Whether an array that is open where the line of a place begins isn't closed from there on: the line begins as no entry
/// does, and the first bracket isn't `]`.
pub(crate) fn leaves_open(text: &str, place: usize) -> bool {
    let rest = from_line(text, place);
    begins_outside(rest) && !is_closed(rest)
}

// Whether a line begins as no entry of an array does: with a header or a key.
fn begins_outside(line: &str) -> bool {
    match line.as_bytes() {
        [first, ..] => *first == b'[' || first.is_ascii_alphabetic(),
        [] => false,
    }
}

// Whether the first bracket of a text is `]`.
fn is_closed(text: &str) -> bool {
    match text.split_once(']') {
        Some((before, _)) => !before.contains('['),
        None => false,
    }
}

/// The line of a text in which a place stands.
pub(crate) fn line_at(text: &str, place: usize) -> &str {
    let rest = from_line(text, place);
    match rest.split_once('\n') {
        Some((line, _)) => line,
        None => rest,
    }
}

// What begins with that line.
fn from_line(text: &str, place: usize) -> &str {
    let before = text.get(..place).unwrap_or("");
    let begin = match before.rsplit_once('\n') {
        Some((lines, _)) => lines.len().saturating_add(1),
        None => 0,
    };
    text.get(begin..).unwrap_or("")
}
