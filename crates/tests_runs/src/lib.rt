//! Tests of federations in threads, over memory and over TCP, their nodes together or each by itself: they have the rows
//! of the undivided program, also where connections break, lose something or carry what is no frame; what their workers
//! count; and that a federate that lies, or takes another's place, is refused and not believed. No program uses this
//! crate.
//!
//! Begin with `tap`, by which a test has its hands on connections and workers, then `seen`, which says what is seen of a
//! run, and `lines`, which makes one. Each other module is a test of a few rows.
#![tactic(auto)]

#[cfg(test)]
mod apart;
#[cfg(test)]
mod attempts;
#[cfg(test)]
mod blank;
#[cfg(test)]
mod bounded;
#[cfg(test)]
mod by_run;
#[cfg(test)]
mod counts;
#[cfg(test)]
mod federations;
#[cfg(test)]
mod fused;
#[cfg(test)]
mod journals;
#[cfg(test)]
mod left;
#[cfg(test)]
mod lines;
#[cfg(test)]
mod listening;
#[cfg(test)]
mod lying;
#[cfg(test)]
mod meeting;
#[cfg(test)]
mod nodes;
#[cfg(test)]
mod one_send;
#[cfg(test)]
mod seen;
#[cfg(test)]
mod silence;
#[cfg(test)]
mod started;
#[cfg(test)]
mod tap;
#[cfg(test)]
mod unsent;
