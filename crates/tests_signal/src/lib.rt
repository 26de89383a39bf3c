//! Tests of frames as bytes: examples of each kind and of several signals in one body, in any pieces; how frames in a
//! row are cut; and what is refused, for good.
//!
//! Begin with `frames`, whose bytes `batches` uses too.
#![tactic(auto)]

#[cfg(test)]
mod batches;
#[cfg(test)]
mod frames;
