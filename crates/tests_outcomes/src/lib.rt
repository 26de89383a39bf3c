//! What a command answers and writes, over files in memory, and tables of such answers. No part of the product, and no
//! tests: those of several crates of tests stand on it.
//!
//! Begin with `outcome_over` in `outcome.rt`, then `answered_over` in `answers.rt`.
#![tactic(auto)]

pub mod answers;
pub mod machine;
pub mod named_files;
pub mod outcome;

pub use answers::{ANY, Answer, WrongAnswer, answered_over, is_text};
pub use machine::CommandMachine;
pub use named_files::NamedFiles;
pub use outcome::{Outcome, given, outcome_of, outcome_over, outcome_told, shown, status_into};
