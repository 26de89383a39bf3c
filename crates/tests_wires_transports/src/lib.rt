//! Tests of connections over TCP: which of them are let in, and how they end. No program uses this crate.
#![tactic(auto)]

#[cfg(test)]
mod crowded;
#[cfg(test)]
mod held;
#[cfg(test)]
mod letting_in;
#[cfg(test)]
mod streams;
