//! Tests of the greeting between machines: HMAC-SHA-256 by published examples, and greetings worked by hand, up to who
//! is let in and who counts as told that the run is finished. No program uses this crate.
#![tactic(auto)]

#[cfg(test)]
mod vectors;
#[cfg(test)]
mod worked;
