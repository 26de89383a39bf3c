//! Logical time: tags, delays, their sums, and how times, tags and delays look as text.
//!
//! Promise to the layer above: a sum of this crate is the sum of `specs/LogicalTime`, whatever the
//! numbers, and the laws of `laws` hold of it. Begin with `specs/LogicalTime`, then `sums`.
#![tactic(auto)]

pub mod delay;
pub mod finite_tag;
pub mod laws;
pub mod sums;
pub mod tag;
pub mod time;

pub use delay::Delay;
pub use finite_tag::{FiniteTag, is_past};
pub use sums::{plus, pred, succ, then};
pub use tag::{Tag, greater, lesser};
pub use time::{Time, in_units};
