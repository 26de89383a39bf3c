ghost use Rattle.std.specs.Prelude.{◌≡◌};

use std::fmt;

/// Why bytes are no frame. Who wrote them is at fault, and the stream can't be read on: whoever reads it gives it up.
#[derive(Clone, Copy, Debug, PartialEq, Eq)]
pub enum FrameFault {
    /// The writer sent a length of 0 or above 1486, or a body shorter than its kind needs.
    BadLength,
    /// The writer sent a kind of frame or of signal that there isn't, a Hello of version 0, or a Batch of fewer than 2
    /// or more than 64 signals, or one whose last number is above 2^64 - 1.
    BadKind,
    /// The writer sent a time of 2^62 ns or more that isn't FOREVER, or FOREVER in another signal than a NET.
    BadTag,
    /// The writer sent a body longer than its kind needs.
    Trailing,
}

impl FrameFault {
    ghost use Rattle.signal.specs.Fault.{number_of};

    /// The number by which it is printed.
    pub fn number(self) -> u16
        ensures { result ≡ number_of self }
    {
        match self {
            FrameFault::BadLength => 40,
            FrameFault::BadKind => 41,
            FrameFault::BadTag => 42,
            FrameFault::Trailing => 43,
        }
    }
}

impl fmt::Display for FrameFault {
    ghost use Rattle.std.specs.Prelude.{Some};
    ghost use Rattle.signal.specs.Fault.{text_of};

    ghost output = { λ fault. Some (text_of fault) };

    fn fmt<W: fmt::Write>(&self, f: &mut fmt::Formatter<W>) -> fmt::Result {
        let name = match self {
            FrameFault::BadLength => "BadLength",
            FrameFault::BadKind => "BadKind",
            FrameFault::BadTag => "BadTag",
            FrameFault::Trailing => "Trailing",
        };
        write!(f, "{} {name}", self.number())
    }
}

impl std::error::Error for FrameFault {}
