//! Tests of logs that a disk keeps: what is answered whichever call of a disk in memory fails, and a log on the
//! machine's. No part of the product.
#![tactic(auto)]

#[cfg(test)]
mod failing;
#[cfg(test)]
mod machine;
