//! Tests of nodes on machines of their own: the commands `coordinate`, `join` and `audit`, each node in a thread of its
//! own in the place of a process, over TCP on loopback, with files in memory that all processes of a machine have, or on
//! the machine's disk; of nodes that keep no logs, and of nodes that do; and of what is measured of them. No program
//! uses this crate.
//!
//! Begin with `nodes` and `runs`, then `worked`; of logs with `going_on`; of files with `shared_files`. What is read of
//! words alone is in `words`.
#![tactic(auto)]

#[cfg(test)]
mod beside;
#[cfg(test)]
mod going_on;
#[cfg(test)]
mod logged;
#[cfg(test)]
mod measured;
#[cfg(test)]
mod no_room;
#[cfg(test)]
mod nodes;
#[cfg(test)]
mod not_begun;
#[cfg(test)]
mod refused;
#[cfg(test)]
mod rows;
#[cfg(test)]
mod runs;
#[cfg(test)]
mod shared_files;
#[cfg(test)]
mod spoken;
#[cfg(test)]
mod told;
#[cfg(test)]
mod versions;
#[cfg(test)]
mod watched;
#[cfg(test)]
mod words;
#[cfg(test)]
mod worked;
