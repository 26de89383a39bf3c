//! A node on a machine of its own: the commands `coordinate` and `join`.
//!
//! Promise to the layer above: with status 0 the node's report stands in the file of its name, whole, or where it keeps
//! a log, that has its end and the name; and no other file changed (`specs/Ended`). What `coordinate` leaves is of a
//! coordinator that is finished. `join` ends so where it was told that the run is finished, by whoever has the secret,
//! which no clause says. With another status a fault is printed on one line (`specs/Faults`). What other nodes say is
//! never believed: rows are printed by an audit of all reports alone.
//!
//! What is saved or kept is looked at again before (`fedrun_reports`): what the journal makes of the node that the
//! node's own files give, so that nothing which is said of it rests on what threads left.
//!
//! A node with a log goes on from it by the same words (`logged`). One without reserves its report's name before it
//! listens or connects, and keeps it where it ends in the midst. So a node that has lost what it knew isn't begun anew
//! by the same words, be it to keep a log then or not (`report`). While one of both kinds runs no other begins that has
//! its report's name (`locked`).
//!
//! Whoever watches a node is told what happens there, through a channel for which nobody waits (`Teller` of
//! `wires_hosts`). What is written to `err` is the fault alone.
//!
//! Begin with `request`, then `coordinate` and `join`.
#![tactic(auto)]

pub mod command;
pub mod coordinate;
pub mod fault;
mod gathering;
pub mod join;
pub mod listen_fault;
mod loaded;
mod locked;
mod logged;
mod looks;
mod patience;
mod report;
pub mod request;
mod saying;
mod secret;
pub mod unfinished;
mod watched;
pub mod words;

pub use command::{NodeAnswer, node_answer, node_command};
pub use fault::HostFault;
pub use listen_fault::ListenFault;
pub use request::{HostRequest, NodeRequest};
pub use unfinished::Unfinished;
pub use words::{asks_for_node, read_node_words};
