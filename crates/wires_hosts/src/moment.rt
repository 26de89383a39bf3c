//! What is measured of a node, for whoever asks how long what took and how much went over its connections.
use wires_traffic::Counts;

/// A moment of a node's run.
#[derive(Clone, Copy, Debug, PartialEq, Eq)]
pub enum Moment {
    /// Its workers begin.
    Runs,
    /// All workers of the coordinator have ended, and counted this.
    CoordinatorRan(Counts),
    /// The same of a federate's.
    FederateRan(Counts),
    /// The coordinator begins to tell federates that the run is finished.
    Tells,
    /// It has told them so, or its patience for that is over.
    HasTold,
}

/// A moment that was measured.
#[derive(Clone, Copy, Debug, PartialEq, Eq)]
pub struct Measured {
    /// When, in ms since the node began.
    pub millis: u64,
    pub moment: Moment,
}
