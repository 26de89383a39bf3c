//! Laws of runs that are recorded and played again.
//!
//! Promise to the layer above: a replay of the schedule that steps were recorded as, where an audit proved reports by
//! these steps, prints the reports' rows, and the end (`specs/PlayedAgain`). Begin with `laws`.
#![tactic(auto)]

pub mod laws;
