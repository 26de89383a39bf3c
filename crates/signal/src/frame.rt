use crate::signal::Signal;

/// How an end starts again: what it took so far.
#[derive(Clone, Copy, Debug, PartialEq, Eq)]
pub struct Hello {
    /// The number of the link's federate.
    pub federate: u16,
    pub incarnation: u32,
    /// The number of the signal that it took last.
    pub last_taken: u64,
}

/// What is sent over a link.
#[derive(Clone, Copy, Debug, PartialEq, Eq)]
pub enum Frame {
    /// The greeting by which an end starts again.
    Hello(Hello),
    /// A numbered signal.
    Data {
        incarnation: u32,
        number: u64,
        signal: Signal,
    },
    /// The number of the last signal taken.
    Ack {
        incarnation: u32,
        last_taken: u64,
    },
    /// The end refuses everything of that incarnation, for this reason.
    Refuse {
        incarnation: u32,
        refusal: u16,
    },
}

impl Frame {
    ghost use Rattle.signal.specs.Frame.{IsFrame};

    /// What every frame keeps.
    pub fn invariant(self)
        ensures { IsFrame self }
    {}
}
