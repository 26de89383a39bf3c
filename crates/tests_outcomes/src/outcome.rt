//! What a command answers and writes, over files in memory.
use crate::machine::CommandMachine;
use crate::named_files::NamedFiles;
use fedrun_commands::answer;
use fedrun_files::Files;
use fedrun_progress::{NoProgress, Progress};
use std::alloc::Global;
use std::io::Write;
use std::net::{Net, TcpListener, TcpStream};

/// What a command answered and wrote.
#[derive(Debug, PartialEq, Eq, Drop)]
pub struct Outcome {
    pub status: u8,
    pub out: String,
    pub err: String,
}

impl Outcome {
    /// The status, and what is on standard output and on standard error.
    pub fn texts(&self) -> (u8, &str, &str) {
        (self.status, self.out.as_str(), self.err.as_str())
    }
}

/// The words, as the program gets them; None where there is no memory.
pub fn given(alloc: Global, words: &[&str]) -> Option<Vec<String>> {
    let mut given = Vec::new(alloc);
    for word in words {
        given.push(String::from_str(alloc, word).ok()?).ok()?;
    }
    Some(given)
}

/// The status of what the words give over these files, into these writers; None where there is no memory for the words.
pub fn status_into<
    R: CommandMachine + Net<Stream = TcpStream, Listener = TcpListener>,
    F: Files,
    O: Write,
    E: Write,
    P: Progress + Sync,
>(rt: &R, words: &[&str], files: &mut F, out: &mut O, err: &mut E, progress: &P) -> Option<u8> {
    let words = given(rt.alloc(), words)?;
    Some(answer(rt, words.as_slice(), files, out, err, progress).status)
}

/// What the words give over these files, where the command tells how far it is; None where there is no memory for the
/// words, or what is written is no UTF-8.
pub fn outcome_told<
    R: CommandMachine + Net<Stream = TcpStream, Listener = TcpListener>,
    F: Files,
    P: Progress + Sync,
>(rt: &R, words: &[&str], files: &mut F, progress: &P) -> Option<Outcome> {
    let mut out = Vec::new(rt.alloc());
    let mut err = Vec::new(rt.alloc());
    let status = status_into(rt, words, files, &mut out, &mut err, progress)?;
    Some(Outcome {
        status,
        out: String::from_utf8(out).ok()?,
        err: String::from_utf8(err).ok()?,
    })
}

/// The same, where nobody is told.
pub fn outcome_over<R: CommandMachine + Net<Stream = TcpStream, Listener = TcpListener>, F: Files>(
    rt: &R,
    words: &[&str],
    files: &mut F,
) -> Option<Outcome> {
    outcome_told(rt, words, files, &NoProgress)
}

/// The same over files of these names and bytes.
pub fn outcome_of<R: CommandMachine + Net<Stream = TcpStream, Listener = TcpListener>>(
    rt: &R,
    words: &[&str],
    files: &[(&str, &[u8])],
) -> Option<Outcome> {
    outcome_over(rt, words, &mut NamedFiles::new(rt.alloc(), files))
}

/// The status, and what is on standard output and on standard error; None where there is no outcome.
pub fn shown(outcome: &Option<Outcome>) -> Option<(u8, &str, &str)> {
    outcome.as_ref().map(Outcome::texts)
}
