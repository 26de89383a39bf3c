//! `--stats` of `run`, `coordinate` and `join`: what is measured of a command, and its file.
//!
//!     begin_stats     whether FILE can be saved, before anything is begun
//!     RunMeasures     beside a `run`, which tells it how far it is, and then what its nodes counted
//!     NodeMeasures    takes what a node tells of itself, over a channel
//!     end_stats   --> FILE.NUMBER.part, with what was measured, which becomes FILE
//!
//! Promise to the layer above: what is saved is the text of `files_stats`, under its name and in place of a file that
//! had it, and no other file changes (`specs/Saved`). A file of the name that doesn't begin as such a file does stays
//! as it is (`begin_stats`, `end_stats`). A command's status changes only where it was 0 and the file can't be saved
//! (`end_stats`). How long what took is reckoned from its moments as `specs/Measured` says; that these are told when
//! they come, and what was counted, is shown by tests: nothing that a command does rests on it.
//!
//! What has the name is read among the machine's regular files (`RegularFiles`): nothing else is opened.
//!
//! Begin with `saving.rt`, then `measures.rt`.
#![tactic(auto)]

pub mod fault;
mod measures;
pub mod node_measures;
pub mod regular;
pub mod run_measures;
pub mod saving;

pub use fault::StatsFault;
pub use node_measures::NodeMeasures;
pub use regular::RegularFiles;
pub use run_measures::RunMeasures;
pub use saving::{begin_stats, end_stats, save_stats};
