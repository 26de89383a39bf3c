//! How a node is looked at while it runs, for whoever watches it.
use crate::standing::Reached;
use std::sync::Wait;
use tag::Time;

/// Looks at a node while it runs. It holds no lock of the node longer than a few reads take.
pub trait Look: Drop {
    /// How far the federate at this place is: of the coordinator's, or at place 0 a federate itself.
    fn look<R: Wait>(&self, rt: &R, federate: usize) -> Reached;

    /// The time at which the run is over; None where it isn't known.
    fn stop(&self) -> Option<Time>;

    /// Whether the node is a federate, whose one peer is the coordinator.
    fn is_federate(&self) -> bool;
}

/// Nobody looks.
#[derive(Drop)]
pub struct NoLook;

impl Look for NoLook {
    fn look<R: Wait>(&self, _rt: &R, _federate: usize) -> Reached {
        Reached::nothing()
    }

    fn stop(&self) -> Option<Time> {
        None
    }

    fn is_federate(&self) -> bool {
        false
    }
}
