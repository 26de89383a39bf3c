//! The file that `--stats` saves of a command: what its nodes counted, and how long each phase of it took, as TOML.
//!
//! Promise to the layer above: the text is `specs/Stats`. Its keys and units stand in docs/COMMANDS.md.
//!
//! Begin with `Stats` in `stats.rt`; `node_tables` has a node's tables, `lines` the lines of which all are made.
#![tactic(auto)]

mod lines;
mod node_tables;
pub mod stats;

pub use stats::{Phases, Stats, is_stats};
