//! Tests of connections between machines, over TCP on loopback: who is let in, who isn't and what comes of it, who hears
//! that the run is finished, and what whoever watches is told of all this. No program uses this crate.
//!
//! Begin with `process` and `entrance`, then `letting_in`; where time is the subject, with `simulated`, then `silences`.
#![tactic(auto)]

#[cfg(test)]
mod attempts;
#[cfg(test)]
mod barred;
#[cfg(test)]
mod choices;
#[cfg(test)]
mod entrance;
#[cfg(test)]
mod finishing;
#[cfg(test)]
mod hearing;
#[cfg(test)]
mod letting_in;
#[cfg(test)]
mod names;
#[cfg(test)]
mod process;
#[cfg(test)]
mod refusals;
#[cfg(test)]
mod silences;
#[cfg(test)]
mod simulated;
#[cfg(test)]
mod sources;
#[cfg(test)]
mod stillness;
#[cfg(test)]
mod told;
#[cfg(test)]
mod watching;
