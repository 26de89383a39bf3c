//! Tests of a whole federation whose nodes keep their logs over disks in memory: one of them is dropped at each of its
//! sends in turn, begun again over what its disk kept, and goes on: the run comes to its end with all rows, an audit
//! believes the logs, and nothing has left the node before its cause was kept. No part of the product.
//!
//! Begin with `dropped`, then `barred`, a node in it.
#![tactic(auto)]

#[cfg(test)]
mod barred;
#[cfg(test)]
mod cases;
#[cfg(test)]
mod dropped;
#[cfg(test)]
mod fuse;
#[cfg(test)]
mod given;
#[cfg(test)]
mod judging;
#[cfg(test)]
mod lines;
#[cfg(test)]
mod noted;
#[cfg(test)]
mod stop;
