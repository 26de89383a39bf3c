/// What a frame is to the end that it comes to.
#[derive(Clone, Copy, Debug, PartialEq, Eq)]
pub enum Arrival {
    /// The next signal: it may be taken.
    Signal,
    /// A signal that was taken before.
    Repeated,
    /// The other side has all signals up to a number.
    Acked,
    /// As `Acked`, by a side that starts again: all that is kept is to be sent again.
    Resume,
    /// The other side refuses everything from now on.
    Closed,
}
