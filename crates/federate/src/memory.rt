ghost use Rattle.std.specs.Prelude.{◌≡◌};

use node::NodeFault;
use std::alloc::{AllocError, AllocFailed};
use std::fmt;

/// No memory was to be had: what was passed in is as it was.
#[derive(Clone, Copy, Debug, PartialEq, Eq)]
pub struct Memory;

impl Memory {
    ghost use Rattle.federate.specs.Fault.{memory_number};

    /// The number by which it is printed.
    pub const fn number(self) -> u16
        ensures { result ≡ memory_number }
    {
        64
    }
}

impl fmt::Display for Memory {
    ghost use Rattle.std.specs.Prelude.{Some};
    ghost use Rattle.federate.specs.Fault.{memory_text};

    ghost output = { λ _. Some memory_text };

    fn fmt<W: fmt::Write>(&self, f: &mut fmt::Formatter<W>) -> fmt::Result {
        write!(f, "{} Memory", self.number())
    }
}

impl std::error::Error for Memory {}

impl From<AllocError> for Memory {
    fn from(_error: AllocError) -> Memory {
        Memory
    }
}

impl<T: Drop> From<AllocFailed<T>> for Memory {
    fn from(_failed: AllocFailed<T>) -> Memory {
        Memory
    }
}

impl From<reactor_agenda::Memory> for Memory {
    fn from(_memory: reactor_agenda::Memory) -> Memory {
        Memory
    }
}

impl From<reactor::Memory> for Memory {
    fn from(_memory: reactor::Memory) -> Memory {
        Memory
    }
}

impl From<Memory> for NodeFault {
    ghost use Rattle.std.specs.Prelude.{◌≡◌};
    ghost use Rattle.node.specs.declared.fault.NodeFault.TheVariants as faults;

    ghost from_gives = { λ _ fault. fault ≡ faults.Memory };

    fn from(_memory: Memory) -> NodeFault {
        NodeFault::Memory
    }
}

impl From<Memory> for node::Memory {
    fn from(_memory: Memory) -> node::Memory {
        node::Memory
    }
}
