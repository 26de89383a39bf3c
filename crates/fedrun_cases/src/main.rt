//! What the program answers to words, over files in memory: transcripts (`data/*.case`), each run by the very function
//! that `main` of `fedrun` calls, and compared with what they say. No part of the product.
//!
//! It prints for each file how many of its cases passed, and which didn't; the gate compares that with `stdout`. How a
//! file of cases is written docs/CHANGING.md says. Begin with `transcript.rt`, then `playing.rt`.
#![tactic(auto)]

mod comparing;
mod files;
mod filling;
mod outcome;
mod playing;
mod saying;
mod transcript;

use crate::playing::{Tally, play_file};
use fedrun_program::Machine;
use std::fs::File;
use std::io::Write;
use std::net::{Net, TcpListener, TcpStream};
use std::process::ExitCode;
use std::{fs, io, rt};

/// How the files of cases are called.
const ENDING: &str = ".case";

fn main(rt: HostRuntime) -> ExitCode {
    let mut out = rt.stdout();
    match play_all(&rt, &mut out) {
        Ok(()) => ExitCode::SUCCESS,
        Err(_) => ExitCode::from(1),
    }
}

// Plays all files of cases that lie here, in the order of their names.
fn play_all<
    R: Machine
        + Net<Stream = TcpStream, Listener = TcpListener>
        + rt::Files<File = File>
        + Clone
        + Drop,
    O: Write,
>(rt: &R, out: &mut O) -> io::Result<()> {
    let mut all = Tally::new();
    for name in names(rt)?.as_slice() {
        let text = fs::read_to_string(rt, name.as_str())?;
        let tally = play_file(rt, name.as_str(), text.as_str(), out)?;
        all.add(tally);
    }
    all.say("all", out)
}

// The names of the files of cases.
fn names<R: rt::Files + AllocGlobal + Clone + Drop>(rt: &R) -> io::Result<Vec<String>> {
    let mut names = Vec::new(rt.alloc());
    for entry in fs::read_dir(rt, ".")? {
        let entry = entry?;
        if entry.file_name().ends_with(ENDING) {
            names.push(String::from_str(rt.alloc(), entry.file_name())?)?;
        }
    }
    names.sort()?;
    Ok(names)
}
