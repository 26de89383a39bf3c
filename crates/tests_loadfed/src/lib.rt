//! Tests of what is loaded: how federation files and input files are answered, and what body lines are read as.
//!
//! Begin with `federations`, whose texts the others load, then `files`.
#![tactic(auto)]

#[cfg(test)]
mod federations;
#[cfg(test)]
mod files;
#[cfg(test)]
mod lines;
