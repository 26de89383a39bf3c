//! Tests of report files: bytes worked by hand, with digests by another program, and counts that no file has bytes for.
//!
//! Begin with `worked`.
#![tactic(auto)]

#[cfg(test)]
mod counts;
#[cfg(test)]
mod worked;
