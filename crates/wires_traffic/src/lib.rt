//! What goes over a node's connections, counted: frames by kind, Batches, bytes, sends.
//!
//! Promise to the layer above: of frames that go in one send each is counted as what it is, and none twice
//! (`specs/Kinds`); sums are field by field, and stop at the greatest number that there is room for (`specs/Sums`). What
//! a `Counter` counts is each send, each read and each frame that came, with the Batches in which frames are written
//! (`specs/Counter`). Nothing that a node does rests on any of it.
//!
//! Each worker counts for itself, in plain numbers, and leaves what it counted (`Counts`). Begin with `kind.rt`, then
//! `frame_counts.rt`; what a worker calls is `Counter`.
#![tactic(auto)]

pub mod counter;
pub mod counts;
pub mod frame_counts;
pub mod kind;
pub mod traffic;

pub use counter::Counter;
pub use counts::{Counts, RunCounts};
pub use frame_counts::FrameCounts;
pub use kind::FrameKind;
pub use traffic::Traffic;
