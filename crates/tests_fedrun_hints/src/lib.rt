//! Tests of hints on faults that no words bring about over files in memory: constructed faults, each with what is told.
//! What is told of files and of words stands in the cases `hints.case` and `hints-words.case`.
//!
//! Begin with `told_of_command` in `told`.
#![tactic(auto)]

#[cfg(test)]
mod advice;
#[cfg(test)]
mod ends;
#[cfg(test)]
mod told;
