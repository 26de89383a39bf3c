//! A list of steps as a schedule file, so that a run can be played again.
//!
//! Promise to the layer above: what is written is a line for each step, in the words of the schedule file
//! (`specs/StepText`), and `read_script` of `files_script` reads it again as these steps and nothing else, the n-th on
//! line n (`laws`). Begin with `specs/StepText`, then `writing`.
#![tactic(auto)]

pub mod laws;
pub mod writing;

pub use writing::write_steps;
