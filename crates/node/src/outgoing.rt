use signal::Frame;

/// A frame that is to be sent to a peer.
#[derive(Clone, Copy, Debug, PartialEq, Eq)]
pub struct Outgoing {
    pub peer: usize,
    pub frame: Frame,
}
