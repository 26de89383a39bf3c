//! Tests of sources as federation files: what they become, byte by byte, their rows, worked by hand, and their
//! mistakes, each with its line.
//!
//! Begin with `sources`, which are those of docs/EXPANDING.md, then `rows`.
#![tactic(auto)]

#[cfg(test)]
mod answers;
#[cfg(test)]
mod expansions;
#[cfg(test)]
mod mistakes;
#[cfg(test)]
mod rows;
#[cfg(test)]
mod slips;
#[cfg(test)]
mod sources;
