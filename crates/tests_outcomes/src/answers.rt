//! Tables of what commands answer.
use crate::machine::CommandMachine;
use crate::outcome::{Outcome, outcome_of};
use std::net::{Net, TcpListener, TcpStream};

/// Stands between two parts of a text for whatever is there.
pub const ANY: &str = "(anything)";

/// Lists of words, and what each of them is answered: the status, and what is on standard output and on standard error,
/// each in parts.
pub type Answer = (
    &'static [&'static [&'static str]],
    u8,
    &'static [&'static str],
    &'static [&'static str],
);

/// Words that aren't answered as a table says.
#[derive(Debug, PartialEq, Eq, Drop)]
pub struct WrongAnswer {
    /// Which list of words of the table, counted from 1.
    pub place: usize,
    /// What is answered; None where there is no memory.
    pub outcome: Option<Outcome>,
}

/// How many lists of words there are, behind others of so many, over files of these names and bytes. Each of them is
/// answered as it should be; else the first that isn't.
pub fn answered_over<R: CommandMachine + Net<Stream = TcpStream, Listener = TcpListener>>(
    rt: &R,
    files: &[(&str, &[u8])],
    answers: &[Answer],
    before: usize,
) -> Result<usize, WrongAnswer> {
    let mut count = before;
    for answer in answers {
        count = answered_alike(rt, files, answer, count)?;
    }
    Ok(count)
}

// The same of lists of words that are answered alike.
fn answered_alike<R: CommandMachine + Net<Stream = TcpStream, Listener = TcpListener>>(
    rt: &R,
    files: &[(&str, &[u8])],
    answer: &Answer,
    before: usize,
) -> Result<usize, WrongAnswer> {
    let mut count = before;
    for words in answer.0 {
        count = count.saturating_add(1);
        let outcome = outcome_of(rt, words, files);
        if !is_answer(&outcome, answer) {
            return Err(WrongAnswer {
                place: count,
                outcome,
            });
        }
    }
    Ok(count)
}

// Whether this is what is answered.
fn is_answer(outcome: &Option<Outcome>, answer: &Answer) -> bool {
    match outcome {
        Some(outcome) => {
            outcome.status == answer.1
                && is_text(outcome.out.as_str(), answer.2)
                && is_text(outcome.err.as_str(), answer.3)
        }
        None => false,
    }
}

/// Whether a text has these parts, one behind the other, and nothing else.
pub fn is_text(text: &str, parts: &[&str]) -> bool {
    match parts {
        [begin, middle, end] if *middle == ANY => is_between(text, begin, end),
        _ => is_of_parts(text, parts),
    }
}

fn is_between(text: &str, begin: &str, end: &str) -> bool {
    match text.strip_prefix(begin) {
        Some(rest) => rest.ends_with(end),
        None => false,
    }
}

fn is_of_parts(text: &str, parts: &[&str]) -> bool {
    let mut rest = text;
    for part in parts {
        match rest.strip_prefix(*part) {
            Some(behind) => rest = behind,
            None => return false,
        }
    }
    rest.is_empty()
}
