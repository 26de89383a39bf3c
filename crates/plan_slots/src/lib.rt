//! What a federate has, by name and by number: startup, ports, timers and actions.
//!
//! Promise to the layer above: a slot's number is the definition's (`specs/Numbering`), and so are the limits of a
//! federate's slots (`specs/Limits`). Begin with `Slots`.
#![tactic(auto)]

pub mod limits;
pub mod slots;

pub use slots::{Slots, Timer, Timers};
