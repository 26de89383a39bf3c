//! How far a command is, for whoever waits for it: one line, renewed four times a second, which goes before anything
//! else is written.
//!
//! It promises nothing to the layer above, and nothing that a command prints rests on it. Begin with `Progress`, which
//! commands tell; `ProgressLine` is the line.
#![tactic(auto)]

mod count;
pub mod line;

pub use line::{ProgressLine, asks_for_progress};
use tag::{Tag, Time};
use wires_traffic::RunCounts;

/// Is told how far a command is.
pub trait Progress {
    /// The command goes on until this time.
    fn until(&self, stop: Time);

    /// This many more rows are made, of which the last has this tag.
    fn rows(&self, more: usize, latest: Tag);

    /// This many steps are made by now.
    fn steps(&self, made: usize);

    /// All workers of a run's nodes have ended, and counted this.
    fn ran(&self, _counts: &RunCounts) {}

    /// Nothing more is shown: something else is to be written.
    fn end(&self);
}

/// Nobody is told.
#[derive(Clone, Copy, Debug, PartialEq, Eq)]
pub struct NoProgress;

impl Progress for NoProgress {
    fn until(&self, _stop: Time) {}

    fn rows(&self, _more: usize, _latest: Tag) {}

    fn steps(&self, _made: usize) {}

    fn end(&self) {}
}
