//! The command `expand`: a source as the federation file that it becomes.
//!
//! Promise to the layer above: with status 0 what the source in the file of a name becomes was printed, and nothing
//! else (`specs/Printed`); with another status nothing of it, but where it couldn't be written. Why it isn't printed is
//! told on one line, with the line of the source. Where a parameter has several values, a file is saved for each, and no
//! other file changes (`specs/Saved`). Begin with `command`, then `printing` and `saving`; `telling` says why.
#![tactic(auto)]

pub mod command;
pub mod fault;
mod naming;
mod printing;
mod saving;
mod telling;
pub mod words;

pub use command::{expand_command, expand_each_command};
pub use fault::ExpandFailure;
pub use words::{asks_for_each, asks_for_expand};
