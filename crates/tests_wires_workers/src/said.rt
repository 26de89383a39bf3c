//! What peers say.
use node::Event;
use signal::{Frame, Signal};

/// A signal of this number, in the first incarnation.
pub(crate) fn data(number: u64, signal: Signal) -> Frame {
    Frame::Data {
        incarnation: 1,
        number,
        signal,
    }
}

/// An acknowledgement of this many signals.
pub(crate) fn acknowledgement(last_taken: u64) -> Frame {
    Frame::Ack {
        incarnation: 1,
        last_taken,
    }
}

/// A frame as it comes from a peer.
pub(crate) fn came(peer: usize, frame: Frame) -> Event {
    Event::Frame(peer, frame)
}
