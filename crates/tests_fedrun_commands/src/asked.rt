//! Which files a command asks for, and what it is answered about them.
use crate::known_file::{Answered, KnownFile};
use fedrun_files::FileFault;
use std::net::{Net, TcpListener, TcpStream};
use tests_outcomes::outcome_over;
use tests_samples::{COUNTER, Machine};

/// Words of a command where `fed.toml` alone is there, its status, and the files that it asks for: each with why its
/// bytes aren't given, none where they are.
const ASKED: &[(&[&str], u8, &[(&str, Option<FileFault>)])] = &[
    (&["whole", "fed.toml", "-", "4"], 0, &[("fed.toml", None)]),
    (&["check", "fed.toml"], 0, &[("fed.toml", None)]),
    (
        &["whole", "fed.toml", "in.toml", "4"],
        1,
        &[("fed.toml", None), ("in.toml", Some(FileFault::Unreadable))],
    ),
    (
        &["whole", "no.toml", "in.toml", "4"],
        1,
        &[("no.toml", Some(FileFault::Unreadable))],
    ),
    (&["whole", "fed.toml", "-"], 2, &[]),
    (
        &["whole", "-", "-", "4"],
        1,
        &[("-", Some(FileFault::Unreadable))],
    ),
    (
        &["replay", "fed.toml", "-", "-"],
        1,
        &[("fed.toml", None), ("-", Some(FileFault::Unreadable))],
    ),
];

// Whether these are the answers.
fn are(answers: &[Answered], expected: &[(&str, Option<FileFault>)]) -> bool {
    for (answer, (name, fault)) in answers.iter().zip(expected) {
        if answer.name.as_slice() != name.as_bytes() || answer.fault != *fault {
            return false;
        }
    }
    answers.len() == expected.len()
}

// Whether a command answers this status, and asks for these files.
fn asks<R: Machine + Net<Stream = TcpStream, Listener = TcpListener>>(
    rt: &R,
    words: &[&str],
    status: u8,
    answers: &[(&str, Option<FileFault>)],
) -> bool {
    let mut files = KnownFile::new(rt, "fed.toml", COUNTER);
    match outcome_over(rt, words, &mut files) {
        Some(outcome) => outcome.status == status && are(files.answers(), answers),
        None => false,
    }
}

// The place of the first words that ask for something else.
fn first_wrong<R: Machine + Net<Stream = TcpStream, Listener = TcpListener>>(
    rt: &R,
) -> Option<usize> {
    for (place, (words, status, answers)) in ASKED.iter().enumerate() {
        if !asks(rt, words, *status, answers) {
            return Some(place);
        }
    }
    None
}

#[test]
fn asks_for_the_files_of_its_words_in_order(rt: HostRuntime) {
    assert_eq!(rt; first_wrong(&rt), None);
}
