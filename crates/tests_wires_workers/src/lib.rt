//! Tests of the workers of a node: what they hand on, who of them writes, and who is notified.
//! No program uses this crate.
//!
//! Begin with `counting`, an end of a connection on which sends are counted, then `who_writes`, then `taking_in`. Where
//! it matters who is notified, no time goes by, or each wait ends at once: see `clocks`.
#![tactic(auto)]

#[cfg(test)]
mod clocks;
#[cfg(test)]
mod counting;
#[cfg(test)]
mod ending;
#[cfg(test)]
mod handing;
#[cfg(test)]
mod lone_acks;
#[cfg(test)]
mod nodes;
#[cfg(test)]
mod notified;
#[cfg(test)]
mod said;
#[cfg(test)]
mod steps;
#[cfg(test)]
mod taking_in;
#[cfg(test)]
mod who_writes;
