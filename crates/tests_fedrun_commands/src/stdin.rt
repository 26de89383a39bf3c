//! What commands answer that have `-`, standard input, among their files.
use crate::reader::Pieces;
use fedrun_files::MachineFiles;
use std::io::{ErrorKind, Read};
use std::net::{Net, TcpListener, TcpStream};
use std::rt;
use tests_outcomes::{outcome_over, shown};
use tests_samples::{COUNTER, Machine};

/// A federation of one federate to which nothing happens.
const ONE: &str = "stop = \"0\"\nfederate = [{ name = \"f\" }]\n";

const FIRST_ROWS: &str = "src (0, 0) [t] -> [y=1]\nsnk (0, 0) [x=1] -> [total=1]\n";

const UNREADABLE: (u8, &str, &str) = (1, "", "fedrun: cannot read -\n");

/// Words, what standard input holds, and what is answered: the status, and what is on standard output and on standard
/// error. Of two files `-` the second can't be read, but recorded inputs are none.
const GIVEN: &[(&[&str], &str, (u8, &str, &str))] = &[
    (&["whole", "-", "-", "2"], COUNTER, (0, FIRST_ROWS, "")),
    (&["check", "-"], "", (1, "", "fedrun: 31 WrongShape stop\n")),
    (
        &["lint", "-"],
        "stop = \"1 s\"",
        (
            1,
            "-:1: wrong: 10 NoFederate: write at least one table [[federate]]\n",
            "fedrun: not taken\n",
        ),
    ),
    (&["replay", "-", "-", "-"], ONE, UNREADABLE),
];

// Whether the words are answered so over the machine's files and this standard input.
fn is_answered<
    R: Machine + rt::Files + Net<Stream = TcpStream, Listener = TcpListener>,
    I: Read + Drop,
>(rt: &R, words: &[&str], stdin: I, wanted: (u8, &str, &str)) -> bool {
    let mut files = MachineFiles::new(rt, stdin);
    let outcome = outcome_over(rt, words, &mut files);
    shown(&outcome) == Some(wanted)
}

// The place of the first words that are answered otherwise.
fn first_wrong<R: Machine + rt::Files + Net<Stream = TcpStream, Listener = TcpListener>>(
    rt: &R,
) -> Option<usize> {
    for (place, (words, given, wanted)) in GIVEN.iter().enumerate() {
        if !is_answered(rt, words, given.as_bytes(), *wanted) {
            return Some(place);
        }
    }
    None
}

#[test]
fn answers_of_standard_input_as_of_a_file(rt: HostRuntime) {
    assert_eq!(rt; first_wrong(&rt), None);
}

const CHECK: &[&str] = &["check", "-"];

const OVER_LIMIT: (u8, &str, &str) = (1, "", "fedrun: 36 OverLimit\n");

#[test]
fn refuses_standard_input_that_fails_or_is_too_long(rt: HostRuntime) {
    let failing = Pieces::new(5_000, Some(ErrorKind::Other));
    let long = Pieces::new(1_048_577, None);
    let answered = [
        is_answered(&rt, CHECK, failing, UNREADABLE),
        is_answered(&rt, CHECK, long, OVER_LIMIT),
    ];
    assert_eq!(rt; answered, [true; 2]);
}
