ghost use Rattle.std.specs.Prelude.{◌≡◌};

use crate::fault::LinkFault;
use std::alloc::{AllocError, AllocFailed};
use std::fmt;

/// There was no memory for frames. It is the machine that lacks it: nothing changed, and the same call may succeed
/// later.
#[derive(Clone, Copy, Debug, PartialEq, Eq)]
pub struct Memory;

impl Memory {
    ghost use Rattle.link.specs.Fault.{number_of};
    ghost use Rattle.link.specs.declared.fault.LinkFault.TheVariants as LinkFaults;

    /// The number by which it is printed.
    pub const fn number(self) -> u16
        ensures { result ≡ number_of LinkFaults.Memory }
    {
        LinkFault::Memory.number()
    }
}

impl fmt::Display for Memory {
    ghost use Rattle.std.specs.Prelude.{Some};
    ghost use Rattle.link.specs.Fault.{text_of};
    ghost use Rattle.link.specs.declared.fault.LinkFault.TheVariants as LinkFaults;

    ghost output = { λ _. Some (text_of LinkFaults.Memory) };

    fn fmt<W: fmt::Write>(&self, f: &mut fmt::Formatter<W>) -> fmt::Result {
        fmt::Display::fmt(&LinkFault::Memory, f)
    }
}

impl std::error::Error for Memory {}

impl From<AllocError> for Memory {
    fn from(_: AllocError) -> Memory {
        Memory
    }
}

impl<T: Drop> From<AllocFailed<T>> for Memory {
    fn from(_: AllocFailed<T>) -> Memory {
        Memory
    }
}
