use signal::Frame;

/// What comes to a station: one event is one step.
#[derive(Clone, Copy, Debug, PartialEq, Eq)]
pub enum Event {
    /// A frame came from a peer.
    Frame(usize, Frame),
    /// What a peer hasn't acknowledged is to be sent again.
    Resend(usize),
    /// A new connection to a peer: it is to be greeted.
    Hello(usize),
    /// The node is to say what comes next.
    Announce,
    /// The node is to run what comes next.
    Advance,
}
