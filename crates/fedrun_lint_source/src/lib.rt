//! The command `lint` of a source: what is wrong in it, or in the federation that it becomes, and what is odd there, each
//! at its line of the source.
//!
//! Promise to the layer above: with status 0 the source in the file of a name becomes a federation file, and the report
//! of `fedrun_lint` on that and on the inputs beside it was printed under the source's name: nothing is wrong in them
//! (`specs/Looked`). Begin with `command`, then `looking`; `tracing` finds the lines of the source.
#![tactic(auto)]

pub mod command;
pub mod fault;
mod looking;
mod printing;
mod tracing;
mod words;

pub use command::lint_source_command;
pub use fault::NotTaken;
pub use words::{asks_for_source_lint, read_lint_words};
