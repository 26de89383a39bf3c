//! Tests of tags, delays and durations: sums of tags and delays at their limits, how both are printed, and which texts
//! are durations.
//!
//! Begin with `tags`.
#![tactic(auto)]

#[cfg(test)]
mod spelled;
#[cfg(test)]
mod tags;
