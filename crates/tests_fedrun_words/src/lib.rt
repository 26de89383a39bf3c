//! Tests of the words of the command line: what they give parameters of a source, what the tables of commands say, what
//! is printed of each fault, and how a text is written. Which words are which command stands in the cases of
//! `fedrun_cases`.
//!
//! Begin with `values`.
#![tactic(auto)]

#[cfg(test)]
mod faults;
#[cfg(test)]
mod plain;
#[cfg(test)]
mod refused_bytes;
#[cfg(test)]
mod texts;
#[cfg(test)]
mod values;
