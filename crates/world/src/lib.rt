//! The world of a federation: its coordinator and its federates over one schedule of frames, step by step.
//!
//! Promise to the layer above: `IsFaithful` of `specs/Faithful`, after every step: whatever frames were lost, repeated
//! or overtaken, and whoever forgot, each federate that kept its state computes a prefix of what the undivided program
//! computes.
//!
//! Begin with `specs/World` and `specs/Faithful`, then `world`.
#![tactic(auto)]

pub mod initial;
pub mod world;

pub use initial::{new_coordinator, new_federate};
pub use world::World;
pub use world_stations::{Dir, Memory, Outcome, Step};
