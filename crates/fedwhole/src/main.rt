//! The program `fedwhole`: `whole` and `check` alone, as `fedrun` has them. It stands on few crates, and so is proved
//! sooner.
//!
//! All it does is `fedrun_whole::command`, a function over words, files and writers; `main` hands it the machine's, and
//! shows beside it how far it is, where that is asked for.
#![tactic(auto)]

mod version;

use crate::version::{COMMIT, PROOF};
use fedrun_files::MachineFiles;
use fedrun_help::{asks_for_hints, print_version, words_hint};
use fedrun_progress::{NoProgress, ProgressLine, asks_for_progress};
use fedrun_whole::{command, given};
use fedrun_words::{Fault, NoSuchCommand, asks_for_version, print_text, refuse};
use std::alloc::Global;
use std::io::{IsTerminal, Write};
use std::process::ExitCode;
use std::thread;

/// The exit status where words are no command.
const USAGE: u8 = 2;

fn main(rt: HostRuntime) -> ExitCode {
    let mut err = rt.stderr();
    let status = match given(&rt, rt.stdout()) {
        Ok((words, mut out)) => {
            let (words, said) = asks_for_hints(words.as_slice());
            let hints = said.unwrap_or(err.is_terminal());
            let mut files = MachineFiles::new(&rt, rt.stdin());
            let status = if asks_for_version(words) {
                say_version(&mut out, &mut err)
            } else if asks_for_progress(words) {
                let line = ProgressLine::new(&rt);
                let mut shown = rt.stderr();
                let (_, status) = thread::join(
                    &rt,
                    || line.show(rt.alloc(), &mut shown),
                    || command(rt.alloc(), words, &mut files, &mut out, &mut err, &line),
                );
                status
            } else {
                command(
                    rt.alloc(),
                    words,
                    &mut files,
                    &mut out,
                    &mut err,
                    &NoProgress,
                )
            };
            if hints && status == USAGE {
                hint(rt.alloc(), words, &mut err);
            }
            status
        }
        Err(why) => {
            let fault: Fault<'_, NoSuchCommand> = Fault::of_words(why);
            refuse(&fault, &mut err).status
        }
    };
    ExitCode::from(status)
}

// Says why words are no command, and what they may be.
fn hint<E: Write>(alloc: Global, words: &[String], err: &mut E) {
    if let Some(hint) = words_hint(alloc, words) {
        let _is_told = print_text(err, &hint);
    }
}

// Says which version of the program this is, and answers the exit status.
fn say_version<O: Write, E: Write>(out: &mut O, err: &mut E) -> u8 {
    if print_version(COMMIT, PROOF, out) {
        return 0;
    }
    let fault: Fault<'_, NoSuchCommand> = Fault::CannotWrite;
    refuse(&fault, err).status
}
