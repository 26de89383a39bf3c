//! Tests of the undivided program and of what it is made of: the rows of a counter, turns, and which of several values
//! for one slot counts.
//!
//! Begin with `rows`, then `puts`; `opened` loads what both run.
#![tactic(auto)]

#[cfg(test)]
mod opened;
#[cfg(test)]
mod puts;
#[cfg(test)]
mod rows;
#[cfg(test)]
mod turns;
