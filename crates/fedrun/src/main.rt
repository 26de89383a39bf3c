//! The program `fedrun`: reads its words and files, and prints the rows of a federation.
//!
//! All it does is `run` of `fedrun_program`; `main` hands it the machine's words, files, disks and streams.
#![tactic(auto)]

mod version;

use crate::version::{COMMIT, PROOF};
use fedrun_commands::NodeFault;
use fedrun_files::MachineFiles;
use fedrun_logs::MachineLogs;
use fedrun_program::{Edges, Version, run};
use fedrun_stats::RegularFiles;
use fedrun_whole::given;
use fedrun_words::{Fault, refuse};
use files_saving::MachineDisk;
use std::fs::OpenOptions;
use std::io::{ErrorKind, IsTerminal};
use std::process::ExitCode;
use std::{fs, rt};

const VERSION: Version<'static> = Version {
    commit: COMMIT,
    proof: PROOF,
};

fn main(rt: HostRuntime) -> ExitCode {
    let _input = stand_in(&rt, "/proc/self/fd/0", OpenOptions::new().write(true));
    let _output = stand_in(&rt, "/proc/self/fd/1", OpenOptions::new().read(true));
    let _error = stand_in(&rt, "/proc/self/fd/2", OpenOptions::new().read(true));
    let mut err = rt.stderr();
    let status = match given(&rt, rt.stdout()) {
        Ok((words, mut out)) => {
            let hints = err.is_terminal();
            let mut edges = Edges {
                files: &mut MachineFiles::new(&rt, rt.stdin()),
                regular: &mut RegularFiles::new(&rt),
                disk: &mut MachineDisk::new(&rt),
                logs: &mut MachineLogs::new(&rt),
                out: &mut out,
                err: &mut err,
                hints,
            };
            run(&rt, words.as_slice(), VERSION, &mut edges, &mut rt.stderr())
        }
        Err(why) => {
            let fault: Fault<'_, NodeFault<'_>> = Fault::of_words(why);
            refuse(&fault, &mut err).status
        }
    };
    ExitCode::from(status)
}

// A file in place of a standard stream that is closed, opened by options with which it can't serve as that stream. Else
// the next file that is opened would have the stream's number: a report would be read as standard input, say, or what is
// printed be written into it.
fn stand_in<R: rt::Files>(rt: &R, stream: &str, options: &OpenOptions) -> Option<R::File> {
    match fs::symlink_metadata(rt, stream) {
        Err(error) if error.kind() == ErrorKind::NotFound => options.open(rt, "/dev/null").ok(),
        _ => None,
    }
}
