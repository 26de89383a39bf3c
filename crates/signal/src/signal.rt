use tag::FiniteTag;

/// What one side of a link says to the other. FOREVER stands in `Net` alone.
#[derive(Clone, Copy, Debug, PartialEq, Eq)]
pub enum Signal {
    /// Next event tag: the federate's earliest pending event.
    Net(tag::Tag),
    /// Logical tag complete: all events at this tag are done.
    Ltc(FiniteTag),
    /// Tag advance grant: the federate may advance up to and including this tag.
    Tag(FiniteTag),
    /// A value for the port at the end of a connection, with the tag at which it arrives.
    Msg {
        connection: u16,
        tag: FiniteTag,
        value: i64,
    },
}

impl Signal {
    ghost use Rattle.signal.specs.Signal.{IsSignal};

    /// What every signal keeps.
    pub fn invariant(self)
        ensures { IsSignal self }
    {}
}
