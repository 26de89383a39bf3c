//! Tests of nodes' logs: over a disk in memory of which each call fails in turn, with each front left of what wasn't
//! synced, a node that is begun again has done all that others have seen, and goes on to its end; and many events at
//! once. No part of the product.
//!
//! Begin with `life`, then `failing`.
#![tactic(auto)]

#[cfg(test)]
mod failing;
#[cfg(test)]
mod lent;
#[cfg(test)]
mod life;
#[cfg(test)]
mod many;
#[cfg(test)]
mod together;
