//! Tests of logs: bytes worked by hand, with sums and digests by other programs, and with each bit flipped.
//!
//! Begin with `worked`, then `changed`.
#![tactic(auto)]

#[cfg(test)]
mod changed;
#[cfg(test)]
mod outcome;
#[cfg(test)]
mod worked;
#[cfg(test)]
mod written;
