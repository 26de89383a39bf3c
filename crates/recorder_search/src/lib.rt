//! The search for a list of steps that agrees with what each node of a federation wrote down.
//!
//! Promise to the layer above: with an Ok the step maker made steps in which each node's events are its journal, or no
//! further event of a journal can be placed (`specs/Journals`), whichever step maker makes the steps. The search keeps
//! no list of them. The journals may grow while a `Reading` reads ahead: what is said at the end is said of the whole
//! journals (`growing`).
//!
//!     Reading::new --> read_ahead ...   rounds by guesses alone, until one moves nothing: while journals still grow
//!          |
//!          +---------> finish           rounds by guesses; after one that moved nothing, exactly: when they are whole
//!                        |
//!                        +--> round     every node once
//!                               |
//!                               +--> read_on            one journal, as far as it goes
//!                                       |
//!                                       +--> StepMaker::place   makes the step that is the next event, or finds none
//!
//! `search` is a `Reading` that is finished at once. Begin with `step_maker`, then `searching`.
#![tactic(auto)]

pub mod found;
pub mod growing;
pub mod memory;
mod reading;
pub mod searching;
pub mod step_maker;

pub use found::Found;
pub use memory::Memory;
pub use searching::{Reading, search};
pub use step_maker::StepMaker;
