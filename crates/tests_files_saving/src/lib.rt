//! Tests of names that are reserved, or not, over a disk in memory of which a call fails; and of files that are saved
//! under them whole or not at all, on the machine's. No part of the product.
//!
//! Begin with `failing`.
#![tactic(auto)]

#[cfg(test)]
mod failing;
#[cfg(test)]
mod machine;
#[cfg(test)]
mod memory_disk;
#[cfg(test)]
mod saved;
#[cfg(test)]
mod unsynced;
