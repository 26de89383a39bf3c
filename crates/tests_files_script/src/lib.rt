//! Tests of the schedule file: each form of a line and what it asks for, which lines are refused, and how lines are
//! counted.
//!
//! Begin with `FORMS` in `schedules`.
#![tactic(auto)]

#[cfg(test)]
mod schedules;
