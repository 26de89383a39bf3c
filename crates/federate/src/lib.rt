//! A federate: one reactor of a federation, as a node behind its station.
//!
//! Promise to the layer above: each call is the step of `node_cores/specs/FederateCore`, and a call without memory
//! changes nothing.
//!
//!     accept ------> admit                   what the signal changes, or why it is refused
//!            ------> apply                   the change
//!     announce ----> Outbox::reserve_all     all memory, then
//!              ----> Outbox::put_all         NET
//!     advance -----> prepare                 the turn, its messages and its LTC, in room that is kept for the next
//!             -----> Outbox::reserve_all     room and memory for what it sends
//!             -----> take_in                 memory for what is pending and for the row, and both change
//!             -----> put_all, commit_from    what can't fail
//!
//! Begin with the struct in `federate`; what it keeps is in `specs/Invariant`.
#![tactic(auto)]

mod change;
pub mod federate;
pub mod memory;
mod messages;
mod outlet;
mod prepared;
mod recorded;
mod scheduled;

pub use federate::Federate;
pub use memory::Memory;
