/// Why a node makes no more steps, or what isn't as it has to be.
#[derive(Clone, Copy, Debug)]
pub(crate) enum Stop {
    /// Nothing may leave it any more.
    Fell,
    /// Something left it whose cause its disk didn't keep.
    LeftUnkept,
    /// Something left it that its barrier didn't let by, or the other way round.
    LeftUnasked,
    /// Begun again, it doesn't go on.
    DoesNotGoOn,
    /// The run doesn't come to its end.
    Hangs,
    /// A log doesn't say that the run is finished, or hasn't its end.
    Unended,
    /// A log isn't read.
    Unread,
    /// An audit doesn't believe the logs.
    Unproved,
    /// The coordinator isn't finished by its log.
    Unfinished,
    /// The rows are others.
    OtherRows,
    /// There was no memory.
    Memory,
}
