//! The program `fedrun` over any machine: its words, files, disks and streams go in, and an exit status comes out.
//!
//! `main` hands it the machine's, and a crate of tests files, disks and logs in memory, so that what is tested is the
//! program. No clause: of what commands print those of `fedrun_commands`, `fedrun_hosts`, `fedrun_expand` and
//! `fedrun_lint_source` speak. Begin with `run` in `running.rt`; a node by itself is `single_node.rt`, all other commands
//! that run or read something are `commands.rt`.
#![tactic(auto)]

mod commands;
pub mod edges;
pub mod machine;
mod measuring;
pub mod running;
mod single_node;

pub use edges::Edges;
pub use machine::Machine;
pub use running::{Version, run};
