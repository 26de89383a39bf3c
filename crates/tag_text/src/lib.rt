//! Durations and decimal digits, read from text.
//!
//! Promise to the layer above: `parse_duration` takes exactly the texts that `specs/Duration` says, and reads back what
//! a time prints. Begin with `duration`, then `specs/Duration`.
#![tactic(auto)]

pub mod decimal;
pub mod duration;
pub mod laws;

pub use decimal::digits_value;
pub use duration::{DurationFault, parse_duration};
