use std::sync::Wait;

/// What came to the node isn't kept, and won't be: nothing may leave it any more.
#[derive(Clone, Copy, Debug, PartialEq, Eq)]
pub struct Unkept;

/// What stands between a node's steps and all that leaves it: the events that caused it are kept before, so that a node
/// that is killed, and begun again from what was kept, has done all that others have seen. One is shared by all workers
/// of a node.
///
/// No contract says what is kept while threads run. Whoever is refused once is refused from then on.
pub trait Barrier {
    /// With Ok all events are kept that came to the node before this call.
    fn reach<R: Wait>(&self, rt: &R) -> Result<(), Unkept>;

    /// The same, and that the run is finished, as the node has heard or is about to say for the last time.
    fn tell<R: Wait>(&self, rt: &R) -> Result<(), Unkept>;

    /// Whether a call was refused: then the run is to end.
    fn has_failed(&self) -> bool;
}

/// Nothing is kept: a node that is killed doesn't go on.
#[derive(Drop)]
pub struct NoBarrier;

impl Barrier for NoBarrier {
    fn reach<R: Wait>(&self, _rt: &R) -> Result<(), Unkept> {
        Ok(())
    }

    fn tell<R: Wait>(&self, _rt: &R) -> Result<(), Unkept> {
        Ok(())
    }

    fn has_failed(&self) -> bool {
        false
    }
}
