//! Why a line of a schedule is refused.
use crate::names::{NoSuchName, meant_name};
use fedrun_lint_findings::{STEPS, lookalike_in};
use plan_names::is_name;
use std::alloc::{AllocError, Global};

/// How lines of one word are written.
#[derive(Clone, Copy)]
struct Form {
    /// One of `STEPS`.
    word: &'static str,
    /// Which of its words is a federate, counted from 0; none where it is 0.
    federate: usize,
    /// What to write.
    spelling: &'static str,
}

const FORMS: &[Form] = &[
    Form {
        word: "announce",
        federate: 1,
        spelling: "write announce NAME",
    },
    Form {
        word: "advance",
        federate: 1,
        spelling: "write advance NAME",
    },
    Form {
        word: "deliver",
        federate: 2,
        spelling: "write deliver up NAME K or deliver down NAME K, K from 1 to 4294967295 in digits",
    },
    Form {
        word: "resend",
        federate: 2,
        spelling: "write resend up NAME or resend down NAME",
    },
    Form {
        word: "reconnect",
        federate: 2,
        spelling: "write reconnect up NAME or reconnect down NAME",
    },
    Form {
        word: "forget",
        federate: 1,
        spelling: "write forget NAME",
    },
    Form {
        word: "skip",
        federate: 2,
        spelling: "write skip up NAME or skip down NAME",
    },
    Form {
        word: "round",
        federate: 0,
        spelling: "write round, and nothing else: each round has a line of its own",
    },
];

const CARRIAGE_RETURN: &str =
    "it ends with a carriage return, as an editor of Windows writes it: save the file with line feeds alone";

const TAB: &str = "it has a tab: its words are parted by one space each";

const UTF_16: &str =
    "it has zero bytes, as a file that is saved as UTF-16: save the file as ASCII or UTF-8";

const NOT_ASCII: &str = "it has a letter or a mark that isn't ASCII";

const INDENTED: &str =
    "it begins with a space: a step, and the # of a comment, stands at the beginning of its line";

const SPACES: &str = "its words are parted by one space each, with none at the ends";

const COMMENT: &str = "a comment stands on a line of its own, which begins with #";

const COMMA: &str = "it has a comma: each step, and each federate, stands on a line of its own";

const NUMBER: &str =
    "it begins with a number, as what frames prints: a schedule has steps alone; record prints one";

const TOML: &str =
    "it is TOML, and no step: the words are FED IN SCHEDULE, with - in the place of IN for no inputs";

const SEMICOLON: &str = "it has a semicolon: each step stands on a line of its own";

/// What is told of a line.
#[derive(Drop)]
pub(crate) struct Told {
    /// In its own words; empty where nothing is.
    pub(crate) what: String,
    /// What is told of all such.
    pub(crate) advice: &'static str,
}

impl Told {
    // Nothing but what is told of all such.
    fn plainly(alloc: Global, advice: &'static str) -> Told {
        Told {
            what: String::new(alloc),
            advice,
        }
    }
}

/// Why a line is refused: its bytes, its spaces, its first word, its direction, its federate where federates are known,
/// or else how it goes on.
pub(crate) fn why_refused(
    alloc: Global,
    line: &[u8],
    federates: Option<&[&str]>,
) -> Result<Told, AllocError> {
    let Some(text) = plain_text(line) else {
        return why_not_plain(alloc, line);
    };
    if let Some(why) = why_no_words(text) {
        return Ok(Told::plainly(alloc, why));
    }
    let word = word_at(text, 0);
    let Some(form) = form_of(word.as_bytes()) else {
        return no_such_name(alloc, "step", word, STEPS);
    };
    if form.federate == 2 && !is_direction(word_at(text, 1)) {
        return Ok(Told::plainly(alloc, form.spelling));
    }
    let name = word_at(text, form.federate);
    match federates {
        Some(federates) if form.federate != 0 && !name.is_empty() && !federates.contains(&name) => {
            no_such_name(alloc, "federate", name, federates)
        }
        _ => Ok(Told::plainly(alloc, form.spelling)),
    }
}

// A line as a text, where it has nothing but ASCII letters, digits, marks and spaces.
fn plain_text(line: &[u8]) -> Option<&str> {
    let is_plain = line
        .iter()
        .all(|byte| *byte == b' ' || byte.is_ascii_graphic());
    if is_plain {
        std::str::from_utf8(line).ok()
    } else {
        None
    }
}

// What a line has that isn't a letter of ASCII, a digit, a mark or a space.
fn why_not_plain(alloc: Global, line: &[u8]) -> Result<Told, AllocError> {
    let why = match line.last() {
        _ if line.contains(&b'\0') => UTF_16,
        Some(last) if *last == b'\r' => CARRIAGE_RETURN,
        _ if line.contains(&b'\t') => TAB,
        _ => match lookalike_in(std::str::from_utf8(line).unwrap_or("")) {
            Some(lookalike) => {
                let place = lookalike.place;
                let what = format!(in alloc; "its character {place} is ")?;
                let advice = lookalike.advice;
                return Ok(Told { what, advice });
            }
            None => NOT_ASCII,
        },
    };
    Ok(Told::plainly(alloc, why))
}

// Why a line isn't words of a step, if it isn't.
fn why_no_words(text: &str) -> Option<&'static str> {
    if text.starts_with(' ') {
        Some(INDENTED)
    } else if is_toml(text.as_bytes()) {
        Some(TOML)
    } else if text.contains('#') || text.contains("//") || text.contains("--") {
        Some(COMMENT)
    } else if text.ends_with(' ') || text.contains("  ") {
        Some(SPACES)
    } else if text.contains(';') {
        Some(SEMICOLON)
    } else if text.contains(',') {
        Some(COMMA)
    } else if text.starts_with(|letter: char| letter.is_ascii_digit()) {
        Some(NUMBER)
    } else {
        None
    }
}

/// Whether a line shows that the file is none of steps: it is TOML, or has zero bytes.
pub(crate) fn is_of_other_file(line: &[u8]) -> bool {
    line.contains(&b'\0') || is_toml(line)
}

// Whether a line is one of a TOML document: a header, or one word that is set to a value, before any comment.
fn is_toml(line: &[u8]) -> bool {
    let text = std::str::from_utf8(line).unwrap_or("");
    let (text, _comment) = text.split_once('#').unwrap_or((text, ""));
    let has_key = match text.split_once(" = ") {
        Some((key, _value)) => !key.trim_start().contains(' '),
        None => false,
    };
    has_key || text.starts_with('[')
}

fn is_direction(word: &str) -> bool {
    word == "up" || word == "down"
}

// How lines with this first word are written, if there are such.
fn form_of(word: &[u8]) -> Option<&'static Form> {
    FORMS.iter().find(|form| form.word.as_bytes() == word)
}

// What is told of a name that isn't there.
fn no_such_name(
    alloc: Global,
    kind: &'static str,
    name: &str,
    names: &[&str],
) -> Result<Told, AllocError> {
    let no_such_name = NoSuchName {
        kind,
        name,
        meant: meant_name(alloc, name, names),
        names,
    };
    let what = format!(in alloc; "{no_such_name}")?;
    Ok(Told { what, advice: "" })
}

// The word of this number from 0 on of a text whose words are parted by one space each; empty where there is none.
fn word_at(text: &str, number: usize) -> &str {
    let mut rest = text;
    for _ in 0..number {
        match rest.split_once(' ') {
            Some((_word, behind)) => rest = behind,
            None => return "",
        }
    }
    match rest.split_once(' ') {
        Some((word, _behind)) => word,
        None => rest,
    }
}

/// A line with this name in the place of its federate's, where that may be one.
pub(crate) fn renamed(alloc: Global, line: &[u8], name: &str) -> Result<Vec<u8>, AllocError> {
    let mut renamed = Vec::new(alloc);
    let mut federate = 0usize;
    let mut number = 0usize;
    for word in line.split(|byte| *byte == b' ') {
        if number == 0 {
            federate = federate_behind(word);
        } else {
            renamed.push(b' ')?;
        }
        let is_federate = number != 0 && number == federate && may_be_federate(word);
        renamed.extend_from_slice(if is_federate { name.as_bytes() } else { word })?;
        number = number.saturating_add(1);
    }
    Ok(renamed)
}

// Whether a federate may have this name: any but `coordinator`.
fn may_be_federate(word: &[u8]) -> bool {
    is_name(word) && word != b"coordinator".as_slice()
}

// Which word is a federate of a line with this first word, counted from 0; none where it is 0.
fn federate_behind(word: &[u8]) -> usize {
    match form_of(word) {
        Some(form) => form.federate,
        None => 0,
    }
}
