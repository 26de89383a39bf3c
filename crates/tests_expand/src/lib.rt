//! Tests of shorter sources: what expressions are read as, which are refused, what bodies become, and their rows.
//!
//! Begin with `expressions`, then `bodies`; `worked` has laws, what the definitions give for bodies worked by hand.
#![tactic(auto)]

#[cfg(test)]
mod bodies;
#[cfg(test)]
mod expressions;
#[cfg(test)]
mod rows;
pub mod worked;
