//! What is told behind the line of a fault, where hints are wanted: where it is in the files, and what to do.
//!
//! No clause says what: nothing rests on it. Of files that aren't taken it is what `lint` prints of them, read again by
//! their names among regular files (`findings.rt`); of all else it is a line of `advice.rt`, or of `node_ends.rt` where
//! a node isn't finished; how far federates were the coordinator's own report or log says (`standings.rt`).
//! Begin with `print_hint` in `hinting.rt`.
#![tactic(auto)]

mod advice;
mod findings;
pub mod hinting;
mod node_ends;
mod standings;

pub use hinting::{print_hint, print_node_hint, print_stats_hint};
