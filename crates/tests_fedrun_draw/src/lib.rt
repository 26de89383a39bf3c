//! Tests of pictures: where boxes, lines and texts stand in those of federations, and what those of schedules show. No
//! program uses this crate.
//!
//! Begin with `standing`, which says what no picture may have.
#![tactic(auto)]

#[cfg(test)]
mod federations;
#[cfg(test)]
mod made;
#[cfg(test)]
mod schedules;
#[cfg(test)]
mod standing;
#[cfg(test)]
mod texts;
