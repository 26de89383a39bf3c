use signal::Signal;

/// A signal to a peer: the coordinator's peers are the federates by number, a federate's one peer is the coordinator.
#[derive(Clone, Copy, Debug, PartialEq, Eq)]
pub struct Post {
    pub peer: usize,
    pub signal: Signal,
}
