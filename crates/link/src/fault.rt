ghost use Rattle.std.specs.Prelude.{◌≡◌};

use std::alloc::{AllocError, AllocFailed};
use std::fmt;

/// Why an end refuses. The end is as it was before.
#[derive(Clone, Copy, Debug, PartialEq, Eq)]
pub enum LinkFault {
    /// As many signals are kept as there is room for: the other side acknowledges more slowly than this one offers.
    /// Offer again after an acknowledgement.
    Full,
    /// The other side speaks of another incarnation or another federate. Drop the frame.
    Stranger,
    /// The way to here lost a signal. Drop the frame: the other side sends again all that isn't acknowledged.
    Gap,
    /// The other side acknowledges a signal that was never offered here: it isn't what it says it is. Drop the frame.
    AckOfUnsent,
    /// The machine had no memory for more signals. The same call may succeed later.
    Memory,
    /// This side closed the link, or the other refused to go on. Nothing is said over it any more.
    Closed,
}

impl LinkFault {
    ghost use Rattle.link.specs.Fault.{number_of};

    /// The number by which it is printed.
    pub const fn number(self) -> u16
        ensures { result ≡ number_of self }
    {
        match self {
            LinkFault::Full => 50,
            LinkFault::Stranger => 51,
            LinkFault::Gap => 52,
            LinkFault::AckOfUnsent => 53,
            LinkFault::Memory => 54,
            LinkFault::Closed => 55,
        }
    }
}

impl fmt::Display for LinkFault {
    ghost use Rattle.std.specs.Prelude.{Some};
    ghost use Rattle.link.specs.Fault.{text_of};

    ghost output = { λ fault. Some (text_of fault) };

    fn fmt<W: fmt::Write>(&self, f: &mut fmt::Formatter<W>) -> fmt::Result {
        let name = match self {
            LinkFault::Full => "Full",
            LinkFault::Stranger => "Stranger",
            LinkFault::Gap => "Gap",
            LinkFault::AckOfUnsent => "AckOfUnsent",
            LinkFault::Memory => "Memory",
            LinkFault::Closed => "Closed",
        };
        write!(f, "{} {name}", self.number())
    }
}

impl std::error::Error for LinkFault {}

impl From<AllocError> for LinkFault {
    ghost use Rattle.std.specs.Prelude.{◌≡◌};
    ghost use Rattle.link.specs.declared.fault.LinkFault.TheVariants.{Memory};

    ghost from_gives = { λ _ e. e ≡ Memory };

    fn from(_: AllocError) -> LinkFault {
        LinkFault::Memory
    }
}

impl<T: Drop> From<AllocFailed<T>> for LinkFault {
    ghost use Rattle.std.specs.Prelude.{◌≡◌};
    ghost use Rattle.link.specs.declared.fault.LinkFault.TheVariants.{Memory};

    ghost from_gives = { λ _ e. e ≡ Memory };

    fn from(_: AllocFailed<T>) -> LinkFault {
        LinkFault::Memory
    }
}
