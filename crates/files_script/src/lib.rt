//! The schedule file: which steps a world is to make, line by line.
//!
//! Promise to the layer above: `read_script` gives exactly the commands that a file's lines spell (`specs/Words`), in
//! their order, each with the number of its line (`specs/Scripts`); or it answers the first line that spells none.
//! Begin with `script`, then `reading`; what a line may ask for stands in `command`.
#![tactic(auto)]

pub mod command;
pub mod fault;
mod reading;
pub mod script;
mod words;

pub use command::Command;
pub use fault::ScriptFault;
pub use script::{MOST_BYTES, ScheduleLine, Script, read_script};
