//! The coordinator of a federation: it takes the federates' signals, sends messages on, and grants each federate as
//! much as is safe.
//!
//! Promise to the layer above: `Coordinator` is the node of `node_cores`, `specs/CoordinatorCore`: each accepted signal
//! is the step of `protocol`, on its list of records, or changes nothing.
//!
//!     Coordinator::accept --> State::take       is the signal refused?
//!                                |
//!                                +--> Table      the sender's record, or the receiver's: who is eligible then
//!                                +--> prepare    a TAG to each of them; room and memory for all, or all is taken back
//!                                +--> send       the TAGs are noted as granted; the signals go out
//!
//! Begin with `take` in `state`, then `eligible` and `grant` of the table, in the crate `grants`; `coordinator` makes a
//! node of it.
#![tactic(auto)]

pub mod coordinator;
pub mod memory;
mod sending;
mod state;
mod tags;

pub use coordinator::Coordinator;
pub use memory::Memory;
