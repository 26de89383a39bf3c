//! The agenda of one federate: the events that are still pending, up to stop.
//!
//! Promise to the layer above: an agenda is the list of what is pending (`specs/Agenda`), timer firings up to stop
//! included, and each call does to it what the words of `network` say. Begin with `agenda`; what it keeps is in
//! `specs/Invariant`.
#![tactic(auto)]

pub mod agenda;
mod firings;
mod key;
pub mod memory;
mod ordered;
pub mod pending_event;
mod present;
mod puts;
mod timers;
mod undo;

pub use agenda::{Agenda, Put};
pub use memory::Memory;
pub use pending_event::PendingEvent;
