//! A world of any nodes: all stations, all frames that they ever sent, and the steps made; and what holds of a
//! federation's.
//!
//! Promise to the layer above: each step is the definition's (`specs/World`), whatever the nodes do, and a step without
//! memory changes nothing. And laws: whatever frames are lost, repeated or come out of order, and whoever forgets, each
//! federate that keeps its state computes a prefix of what the undivided program computes.
//!
//!     Step --> Stations::apply --> occurrence     which event is it, and at which station?
//!                    |
//!                    +-----------> reserve        memory for all that the station may send, then
//!                    +-----------> Station::step  what it makes of the event
//!                    +-----------> append         what it sends, after all that was sent before
//!     Outcome <------+
//!
//! `apply_known` is told which event it is, and so begins at `reserve`.
//!
//! Begin with `specs/World` and `specs/Federation`, then `world_laws` and `stations`; `sent` keeps the frames of one
//! direction, `made_steps` the steps, and `blank` makes a station that forgot all.
#![tactic(auto)]

mod blank;
pub mod dir;
mod directions;
pub mod limits;
pub mod made_steps;
pub mod memory;
mod occurrence;
pub mod outcome;
mod replies;
mod sent;
pub mod stations;
pub mod step;
pub mod world_laws;

pub use dir::Dir;
pub use limits::LINK_ROOM;
pub use made_steps::MadeSteps;
pub use memory::Memory;
pub use outcome::Outcome;
pub use stations::Stations;
pub use step::Step;
