//! What in a body line of no form isn't understood, and what to write. That it has none the loader said; of what it has,
//! the first thing is told that is known from elsewhere. Where nothing is, all forms are told.
use crate::characters::lookalike_in;
use crate::form::is_one_of;
use crate::line_words::{UNITS, begins_as_number, tokens_of};
use crate::look::Look;
use plan_names::is_name;
use std::alloc::{AllocError, Global};
use std::fmt;

/// How many bytes a line has at most that is quoted, or a word of it that is told.
const MOST_SHOWN: usize = 60;

/// The part of a line that isn't understood, and why, with what to write.
#[derive(Clone, Copy)]
struct BadPart<'a> {
    said: &'a str,
    why: &'static str,
}

impl<'a> BadPart<'a> {
    fn of(said: &'a str, why: &'static str) -> Option<BadPart<'a>> {
        Some(BadPart { said, why })
    }
}

/// Words, and what is told of one where a line has it.
type Words = &'static [(&'static str, &'static str)];

/// At the beginning of a statement.
const BEGINNINGS: Words = &[
    (
        "when",
        "stands once in a line: multiply both conditions into a state before it",
    ),
    (
        "if",
        "stands in sources, which fedrun expand reads: here it is when A : and a line, as when n : out.y = 1",
    ),
    (
        "else",
        "stands in sources, which fedrun expand reads: here a second line has the other condition",
    ),
    (
        "end",
        "stands in sources, which fedrun expand reads: here each line has its own when",
    ),
    (
        "}",
        "stands in sources, which fedrun expand reads: here each line has its own when",
    ),
    (
        "let",
        "stands in sources, which fedrun expand reads: here a state keeps what is computed",
    ),
];

/// In the place of the equals sign.
const SETTINGS: Words = &[
    (
        ":",
        "stands behind when A alone: it is = that sets, as n = 1",
    ),
    ("==", "compares, and it is = that sets, as n = 1"),
    ("+=", "is no form: write n = n + A"),
    ("-=", "is no form: write n = n - A"),
    ("*=", "is no form: write n = n * A"),
];

/// In the place of an operator.
const OPERATORS: &[&str] = &["+", "-", "*", "min", "max", "<", "=="];

const OTHER_OPERATORS: Words = &[
    (">", "is no operator: A > B is written B < A"),
    (
        ">=",
        "is no operator: A >= B is A < B, and that == 0 on the next line",
    ),
    (
        "<=",
        "is no operator: A <= B is B < A, and that == 0 on the next line",
    ),
    (
        "!=",
        "is no operator: A != B is A == B, and that == 0 on the next line",
    ),
    (
        "/",
        "is no operator here: sources divide, which fedrun expand reads",
    ),
    (
        "%",
        "is no operator here: sources divide, which fedrun expand reads",
    ),
    (
        "and",
        "is no operator: of values that are 0 or 1 it is A * B",
    ),
    ("&", "is no operator: of values that are 0 or 1 it is A * B"),
    (
        "&&",
        "is no operator: of values that are 0 or 1 it is A * B",
    ),
    (
        "or",
        "is no operator: of values that are 0 or 1 it is A max B",
    ),
    (
        "|",
        "is no operator: of values that are 0 or 1 it is A max B",
    ),
    (
        "||",
        "is no operator: of values that are 0 or 1 it is A max B",
    ),
    ("=", "sets, and it is == that compares"),
    (":", "stands behind when A alone"),
];

const NO_OPERATOR: &str = "is no operator: there are + - * min max < and ==";

/// In a word, which is none for that.
const MARKS: Words = &[
    (
        "(",
        "has a bracket: a line has none, and one operator, as n = n max 3; sources have them, which fedrun expand reads",
    ),
    (
        ")",
        "has a bracket: a line has none, and one operator, as n = n max 3; sources have them, which fedrun expand reads",
    ),
    (
        ";",
        "has a semicolon: nothing ends a line, which has one statement; a second one is a text of its own, with its own when",
    ),
    (
        ",",
        "has a comma: a line has one statement, and spaces part words; a second one is a text of its own, with its own when",
    ),
    (
        "=",
        "stands without spaces: = and operators have one on either side, as n = n + 1",
    ),
    (
        "+",
        "stands without spaces: = and operators have one on either side, as n = n + 1",
    ),
    (
        "*",
        "stands without spaces: = and operators have one on either side, as n = n + 1",
    ),
    (
        "/",
        "stands without spaces, and there is no such operator here: sources divide, which fedrun expand reads",
    ),
    (
        "<",
        "stands without spaces: = and operators have one on either side, as n = n + 1",
    ),
    (
        ">",
        "stands without spaces, and there is no such operator: A > B is written B < A",
    ),
    (
        "-",
        "stands without spaces: = and operators have one on either side, as n = n + 1",
    ),
    ("'", "is no value: there are whole numbers, and no texts"),
    (
        "!",
        "has a !: the negation of n is n == 0, as none = n == 0",
    ),
];

const NEGATION: &str =
    "is no word here: the negation of n is n == 0, as none = n == 0, and when none : stands on the next line";

const CONDITION_BEHIND: &str =
    "stands behind what it is about: a line begins with its condition, as when n : out.y = 1";

/// In front of what is in brackets, where a dot and a name stand.
const CALLS: Words = &[
    ("has(", "has a bracket: write a dot and the name, as has.x"),
    ("in(", "has a bracket: write a dot and the name, as in.x"),
    ("out(", "has a bracket: write a dot and the name, as out.y"),
];

const SCHEDULED: &str =
    "wants an action, a delay and a value, in this order, as schedule act 5 ms 7 or schedule act 0 n";

/// Adds the last fault, that a line has no form, with what in it isn't understood.
pub(crate) fn put_bad_line(look: &mut Look<'_>, place: usize) {
    let tree = look.tree;
    let line = tree.line(place);
    let text = tree.said(place);
    if let Some(lookalike) = lookalike_in(text) {
        let at = lookalike.place;
        let what = format!(in look.alloc; "the text's character {at} is ");
        look.put_made(line, what, lookalike.advice);
        return;
    }
    let quoted = Quoted(text);
    let has_escapes = tree.scalar(place).starts_with('"');
    match bad_part(look.alloc, text, has_escapes) {
        Ok(Some(part)) => {
            let said = shown(part.said);
            let what = format!(in look.alloc; "{quoted}{said} ");
            look.put_made(line, what, part.why);
        }
        Ok(None) => {
            let what = format!(in look.alloc; "{quoted}");
            look.add_made(line, what);
        }
        Err(_) => look.lose(),
    }
}

// A line in quotes, and a mark; nothing of one that is long or has something that isn't to be seen.
#[derive(Drop)]
struct Quoted<'a>(&'a str);

impl fmt::Display for Quoted<'_> {
    fn fmt<W: fmt::Write>(&self, f: &mut fmt::Formatter<W>) -> fmt::Result {
        let line = self.0;
        if !line.is_empty() && is_shown(line) {
            write!(f, "\"{line}\": ")
        } else {
            Ok(())
        }
    }
}

// A word as it is told.
fn shown(word: &str) -> &str {
    if is_shown(word) { word } else { "a word" }
}

// Whether a text is short, and has only what is to be seen, and spaces.
fn is_shown(text: &str) -> bool {
    text.len() <= MOST_SHOWN
        && text
            .as_bytes()
            .iter()
            .all(|byte| *byte == b' ' || byte.is_ascii_graphic())
}

// The part of a line that isn't understood, if it is known. The line is as it is written, where a backslash may stand
// for something else or for itself, so that of one with backslashes or of several lines only a tab is known.
fn bad_part(
    alloc: Global,
    line: &str,
    has_escapes: bool,
) -> Result<Option<BadPart<'_>>, AllocError> {
    if has_tab(line, has_escapes) {
        return Ok(BadPart::of("a tab", "parts nothing: write a space in its place"));
    }
    if line.contains('\\') || line.starts_with('"') || line.starts_with("''") {
        return Ok(None);
    }
    let tokens = tokens_of(alloc, line)?;
    Ok(part_of(tokens.as_slice()))
}

// Whether there is a tab in a line, or `\t` stands for one, as in double quotes. Where two backslashes stand together,
// that isn't known.
fn has_tab(line: &str, has_escapes: bool) -> bool {
    line.contains('\t') || (has_escapes && line.contains("\\t") && !line.contains("\\\\"))
}

// The same of a line's tokens.
fn part_of<'a>(tokens: &[&'a str]) -> Option<BadPart<'a>> {
    match tokens {
        [] => BadPart::of("an empty text", "is no line: leave it out"),
        _ if tokens.iter().any(|token| is_comment(*token)) => BadPart::of(
            "a comment",
            "is no part of a line: write it behind the text's quotes, from a # on",
        ),
        [first, rest @ ..] if *first == "when" => part_of_guarded(rest),
        _ => part_of_statement(tokens),
    }
}

fn is_comment(token: &str) -> bool {
    token.starts_with('#') || token.starts_with("//")
}

// The same of what stands behind `when`.
fn part_of_guarded<'a>(tokens: &[&'a str]) -> Option<BadPart<'a>> {
    match tokens {
        [condition, colon, rest @ ..] if *colon == ":" => {
            let part = part_of_operand(*condition);
            if part.is_some() {
                part
            } else {
                part_of_statement(rest)
            }
        }
        [first, ..] if *first == "not" => BadPart::of(*first, NEGATION),
        _ if tokens.iter().any(|token| *token == ":") => BadPart::of(
            "its condition",
            "has one operand: compute it into a state before, as more = 1 < n, and write when more : ..",
        ),
        _ => BadPart::of(
            "when",
            "wants a condition and a : behind it, as when has.x : out.y = 1",
        ),
    }
}

// The same of a statement.
fn part_of_statement<'a>(tokens: &[&'a str]) -> Option<BadPart<'a>> {
    match tokens {
        [] => BadPart::of("the :", "has nothing behind it, as out.y = 1"),
        [_, rest @ ..] if rest.contains(&"when") => BadPart::of("when", CONDITION_BEHIND),
        [_, rest @ ..] if rest.contains(&"if") => BadPart::of("if", CONDITION_BEHIND),
        [first, rest @ ..] if *first == "schedule" => part_of_schedule(rest),
        [target, equals, value @ ..] if *equals == "=" => part_of_assignment(*target, value),
        [first, rest @ ..] => part_of_other(*first, rest),
    }
}

// The same of one that has neither `schedule` nor an equals sign behind its first word.
fn part_of_other<'a>(first: &'a str, rest: &[&'a str]) -> Option<BadPart<'a>> {
    if let Some(part) = word_in(BEGINNINGS, first) {
        return Some(part);
    }
    if let Some(part) = mark_in(first) {
        return Some(part);
    }
    match rest {
        [second, ..] => word_in(SETTINGS, *second),
        [] => None,
    }
}

// The word, if it is one of these.
fn word_in(words: Words, word: &str) -> Option<BadPart<'_>> {
    for (known, why) in words {
        if *known == word {
            return BadPart::of(word, *why);
        }
    }
    None
}

// The word, if it has one of the marks.
fn mark_in(word: &str) -> Option<BadPart<'_>> {
    for (call, why) in CALLS {
        if word.starts_with(*call) {
            return BadPart::of(word, *why);
        }
    }
    for (mark, why) in MARKS {
        if word.contains(*mark) {
            return BadPart::of(word, *why);
        }
    }
    None
}

// The same of what is set, and its value.
fn part_of_assignment<'a>(target: &'a str, value: &[&'a str]) -> Option<BadPart<'a>> {
    if target.starts_with("in.") || target.starts_with("has.") {
        return BadPart::of(
            target,
            "can only be read: what is set is a state, or an output behind out.",
        );
    }
    if let Some(word) = ended(value) {
        return mark_in(word);
    }
    if target.starts_with("out.") && value.len() > 1 {
        return BadPart::of(
            target,
            "gets one operand: compute it into a state before, as n = n + 1, and set the output to that",
        );
    }
    part_of_value(value)
}

// The first of these words that ends with what ends nothing.
fn ended<'a>(words: &[&'a str]) -> Option<&'a str> {
    for word in words {
        if word.ends_with(',') || word.ends_with(';') {
            return Some(*word);
        }
    }
    None
}

// The same of a state's value.
fn part_of_value<'a>(value: &[&'a str]) -> Option<BadPart<'a>> {
    match value {
        [] => BadPart::of(
            "=",
            "has nothing behind it: a whole number, a state, in.N or has.N",
        ),
        [one] => part_of_operand(*one),
        [first, ..] if *first == "not" => BadPart::of(*first, NEGATION),
        [first, second] => part_of_two(*first, *second),
        [first, operator, second] => {
            let operator = part_of_operator(*operator);
            if operator.is_some() {
                operator
            } else {
                part_of_both(*first, *second)
            }
        }
        _ => part_of_long(value),
    }
}

// The same of a value of more words.
fn part_of_long<'a>(value: &[&'a str]) -> Option<BadPart<'a>> {
    if let Some(word) = bracketed(value) {
        return mark_in(word);
    }
    let operator = value.get(3)?;
    BadPart::of(
        *operator,
        "stands behind a whole operation: a line has one, so part it, as n = n + m, and n = n * 2",
    )
}

// The first of these words that has a bracket.
fn bracketed<'a>(words: &[&'a str]) -> Option<&'a str> {
    for word in words {
        if word.contains('(') || word.contains(')') {
            return Some(*word);
        }
    }
    None
}

// The same of two words in the place of an operand or an operation.
fn part_of_two<'a>(first: &'a str, second: &'a str) -> Option<BadPart<'a>> {
    if first == "has" || first == "in" {
        return BadPart::of(first, "stands before a dot and a name, as has.x");
    }
    let part = part_of_both(first, second);
    if part.is_some() {
        part
    } else {
        BadPart::of(
            second,
            "follows an operand: an operator stands between two, as n + 1",
        )
    }
}

fn part_of_both<'a>(first: &'a str, second: &'a str) -> Option<BadPart<'a>> {
    let part = part_of_operand(first);
    if part.is_some() {
        part
    } else {
        part_of_operand(second)
    }
}

fn part_of_operator(word: &str) -> Option<BadPart<'_>> {
    if is_one_of(word, OPERATORS) {
        return None;
    }
    match word_in(OTHER_OPERATORS, word) {
        None => BadPart::of(word, NO_OPERATOR),
        part => part,
    }
}

// The same of an operand.
fn part_of_operand(word: &str) -> Option<BadPart<'_>> {
    let digits = word.strip_prefix('-').unwrap_or(word);
    if begins_as_number(digits) {
        return if word.parse::<i64>().is_ok() {
            None
        } else {
            BadPart::of(
                word,
                "is no whole number of 64 bits, from -9223372036854775808 to 9223372036854775807",
            )
        };
    }
    if word.starts_with('-') {
        return BadPart::of(word, "begins with a sign: the negation of n is 0 - n");
    }
    if word.starts_with("out.") {
        return BadPart::of(
            word,
            "can't be read: keep it in a state; what comes in stands behind in.",
        );
    }
    match mark_in(word) {
        None => part_of_name(word),
        part => part,
    }
}

// The same of an operand that begins as a name.
fn part_of_name(word: &str) -> Option<BadPart<'_>> {
    let (front, name) = word.split_once('.').unwrap_or(("", word));
    let has_front = !front.is_empty();
    if has_front && front != "in" && front != "has" {
        return BadPart::of(
            word,
            "can't be read: in. and has. stand before what comes in, and states are this federate's own",
        );
    }
    if is_name(name.as_bytes()) || (has_front && name == "startup") {
        None
    } else {
        BadPart::of(
            word,
            "has no name: that is 1 to 32 ASCII letters, digits and _, the first no digit, and no word of the forms",
        )
    }
}

// The same of what stands behind `schedule`.
fn part_of_schedule<'a>(tokens: &[&'a str]) -> Option<BadPart<'a>> {
    if let Some(word) = ended(tokens) {
        return mark_in(word);
    }
    match tokens {
        [_, after, ..] if *after == "after" || *after == "in" => BadPart::of(
            *after,
            "is too much: the delay follows the action at once, as schedule act 5 ms 7",
        ),
        _ if tokens.len() < 3 => BadPart::of("schedule", SCHEDULED),
        [action, ..] if begins_as_number(*action) => BadPart::of("schedule", SCHEDULED),
        [action, ..] if !is_name(action.as_bytes()) => BadPart::of(*action, NO_ACTION),
        [_, _, unit] if is_one_of(*unit, UNITS) => BadPart::of(
            *unit,
            "ends the delay, and a value is missing behind it, as schedule act 5 ms 7",
        ),
        [_, delay, value] => part_of_delay(*delay, *value),
        [_, number, unit, value] if is_one_of(*unit, UNITS) => {
            let part = part_of_operand(*value);
            if part.is_some() {
                part
            } else {
                BadPart::of(*number, NO_DELAY)
            }
        }
        [_, _, unit, _] => BadPart::of(*unit, "is no unit of a delay: there are ns, us, ms and s"),
        _ => BadPart::of(
            "its value",
            "has one operand: compute it into a state before, as n = n + 1, and write schedule act 5 ms n",
        ),
    }
}

const NO_ACTION: &str =
    "is no action's name: that is 1 to 32 ASCII letters, digits and _, the first no digit, and no word of the forms; it stands alone, as schedule act 5 ms 7";

const NO_DELAY: &str =
    "begins no delay: that is digits and ns, us, ms or s, as 5 ms, or 0; it is below 2^62 ns";

// The same of a delay of one word, and the value behind it.
fn part_of_delay<'a>(delay: &'a str, value: &'a str) -> Option<BadPart<'a>> {
    let is_number = delay.as_bytes().iter().all(|byte| byte.is_ascii_digit());
    if is_number && delay != "0" {
        return BadPart::of(
            delay,
            "has no unit: ns, us, ms or s follows, as schedule act 5 ms 7",
        );
    }
    let part = part_of_operand(value);
    if part.is_some() || is_number {
        part
    } else {
        BadPart::of(delay, NO_DELAY)
    }
}
