use crate::dir::Dir;

/// What may happen next in a world. A step of a federate or a frame that isn't there changes nothing.
#[derive(Clone, Copy, Debug, PartialEq, Eq)]
pub enum Step {
    /// The k-th frame ever sent in a direction, counted from 1, comes: now, and as often as one likes.
    Deliver(Dir, usize),
    /// The sender of a direction sends again what isn't acknowledged.
    Resend(Dir),
    /// The sender of a direction greets, as over a new connection.
    Reconnect(Dir),
    /// A federate says what comes next.
    Announce(usize),
    /// A federate runs what comes next, if it may.
    Advance(usize),
    /// A federate loses its state: a blank one with the next incarnation stands in its place. Where there is none, it
    /// doesn't.
    Forget(usize),
}
