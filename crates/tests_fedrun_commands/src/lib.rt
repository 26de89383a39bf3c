//! Tests of the commands that no text says: which files a command reads and how, standard input as one of them; what is
//! answered where a writer refuses, where nothing can listen, and without memory for a file; what is shown of how far a
//! command is, and what is measured of a run; what `audit` answers of report files and of logs; and what the program of
//! `whole` and `check` alone answers. What words are answered over files stands in the cases of `fedrun_cases`. No
//! program uses this crate.
//!
//! Begin with `reader` and `asked`, then `audits`.
#![tactic(auto)]

#[cfg(test)]
mod alone;
#[cfg(test)]
mod asked;
#[cfg(test)]
mod audits;
#[cfg(test)]
mod known_file;
#[cfg(test)]
mod logs;
#[cfg(test)]
mod measured;
#[cfg(test)]
mod memory;
#[cfg(test)]
mod offline;
#[cfg(test)]
mod progress_line;
#[cfg(test)]
mod progress_told;
#[cfg(test)]
mod reader;
#[cfg(test)]
mod reports;
#[cfg(test)]
mod stdin;
#[cfg(test)]
mod writers;
