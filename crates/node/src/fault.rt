ghost use Rattle.std.specs.Prelude.{◌≡◌};

use crate::memory::Memory;
use protocol::Refusal;
use std::alloc::{AllocError, AllocFailed};
use std::fmt;

/// Why a node doesn't do what it was asked. The node is as it was before.
#[derive(Clone, Copy, Debug, PartialEq, Eq)]
pub enum NodeFault {
    /// The node doesn't take the signal.
    Refused(Refusal),
    /// The node would do it, but its signals for a peer don't fit in that link. Once that peer has acknowledged
    /// some, the same call succeeds.
    NoRoom,
    /// No memory was to be had. The same call may succeed later.
    Memory,
}

impl NodeFault {
    ghost use Rattle.node.specs.Numbers.{fault_number};

    /// The number by which a station answers it.
    pub fn number(self) -> u16
        ensures { result ≡ fault_number self }
    {
        match self {
            NodeFault::Refused(refusal) => refusal.number(),
            NodeFault::NoRoom => 60,
            NodeFault::Memory => Memory.number(),
        }
    }
}

impl fmt::Display for NodeFault {
    ghost use Rattle.std.specs.Prelude.{Some};
    ghost use Rattle.node.specs.Numbers.{fault_text};

    ghost output = { λ fault. Some (fault_text fault) };

    fn fmt<W: fmt::Write>(&self, f: &mut fmt::Formatter<W>) -> fmt::Result {
        match self {
            NodeFault::Refused(refusal) => write!(f, "{refusal}"),
            NodeFault::NoRoom => write!(f, "{} NoRoom", self.number()),
            NodeFault::Memory => write!(f, "{}", Memory),
        }
    }
}

impl std::error::Error for NodeFault {}

impl From<AllocError> for NodeFault {
    ghost use Rattle.std.specs.Prelude.{◌≡◌};
    ghost use Rattle.node.specs.declared.fault.NodeFault.TheVariants.{Memory};

    ghost from_gives = { λ _ fault. fault ≡ Memory };

    fn from(_: AllocError) -> NodeFault {
        NodeFault::Memory
    }
}

impl<T: Drop> From<AllocFailed<T>> for NodeFault {
    ghost use Rattle.std.specs.Prelude.{◌≡◌};
    ghost use Rattle.node.specs.declared.fault.NodeFault.TheVariants.{Memory};

    ghost from_gives = { λ _ fault. fault ≡ Memory };

    fn from(_: AllocFailed<T>) -> NodeFault {
        NodeFault::Memory
    }
}
