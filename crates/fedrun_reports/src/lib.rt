//! What nodes' files say of a run, whichever of the two forms each has: a report, or a log that a node wrote as it went.
//!
//! Promise to the layer above: as the coordinator's journal is taken what its report or its log says, and as a federate's
//! report either what its report says, or the journal of its log with the rows that its node makes by that (`specs/Files`).
//! A file says one thing at most (`laws`). Nothing of it is believed by that: an audit judges it.
//!
//!     bytes --> read_coordinator                    for an audit: the coordinator's journal
//!     bytes --> take_federate --> Collector         for an audit: a federate's report beside those before it
//!     journal --> replayed_federate, .._coordinator the node that a plan and a journal make
//!
//! Begin with `specs/Files`, then `taking` and `replayed`.
#![tactic(auto)]

pub mod laws;
pub mod node_file_fault;
pub mod replayed;
pub mod rules;
pub mod taking;

pub use node_file_fault::NodeFileFault;
pub use replayed::{replayed_coordinator, replayed_federate};
pub use rules::RULES;
pub use taking::{read_coordinator, take_federate};
