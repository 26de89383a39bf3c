//! A node for tests, and tests of stations and desks: what the coordinator and federates answer at their stations, and
//! that they send in order whatever comes; at how many federates the coordinator's table looks; two stations that talk
//! over lines where frames are lost, repeated and overtaken; two workers at one desk; where journals look for a place;
//! and worlds, desks and audits that are out of memory in the midst of their steps. No program uses this crate: it is
//! there so that a node meets the trait, and stations and desks are run.
//!
//! Begin with `counter`, the node.
#![tactic(auto)]

#[cfg(test)]
mod coordinators;
pub mod counter;
#[cfg(test)]
mod desks;
#[cfg(test)]
mod federates;
#[cfg(test)]
mod growths;
#[cfg(test)]
mod joined;
#[cfg(test)]
mod journals;
#[cfg(test)]
mod looks;
#[cfg(test)]
mod made_up;
#[cfg(test)]
mod outboxes;
#[cfg(test)]
mod rows;
#[cfg(test)]
mod stations;
#[cfg(test)]
mod steps;

pub use counter::Counter;
