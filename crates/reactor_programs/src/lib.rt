//! A program for each federate of a plan.
//!
//! Promise to the layer above: there are as many programs as federates, each with its federate's slots
//! (`specs/Programs`). Begin with `Programs` in `programs`.
#![tactic(auto)]

pub mod programs;

pub use programs::Programs;
