//! Tests of one end of a link: what it has no room for, what it sends again, in which turn it takes signals, and that a
//! refusal closes it.
//!
//! Begin with `Step` in `link_ends`, of which the examples are made.
#![tactic(auto)]

#[cfg(test)]
mod link_ends;
