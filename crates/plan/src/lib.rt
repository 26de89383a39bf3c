//! A federation that was checked: its federates, connections and ranks, and recorded inputs.
//!
//! Promise to the layer above: a `Plan` is a legal draft (`specs/Legal`), and each fault of a draft or of recorded
//! inputs is printed as its number, its name and what it is about (`specs/PlanFaults`, `specs/InputFaults`). Begin with
//! `specs/Legal`, then `Plan::check` in `plan`.
#![tactic(auto)]

mod connect;
mod cycle;
pub mod draft;
pub mod input;
pub mod input_fault;
pub mod laws;
mod legal;
pub mod limits;
mod lookup;
pub mod plan;
pub mod plan_fault;
mod repeated;
mod sources;

pub use draft::{ConnectionDraft, Connections, Draft, Federate, Federates};
pub use input::{Input, Inputs};
pub use input_fault::InputFault;
pub use plan::Plan;
pub use plan_fault::PlanFault;
pub use plan_slots::{Slots, Timer, Timers};
