ghost use Rattle.std.specs.Prelude.{◌≡◌};

use std::alloc::{AllocError, AllocFailed};
use std::fmt;

/// No memory was to be had for a step: the world is as before that step.
#[derive(Clone, Copy, Debug, PartialEq, Eq)]
pub struct Memory;

impl Memory {
    ghost use Rattle.world_stations.specs.Numbers.{out_of_memory};

    /// The number by which it is printed.
    pub fn number(self) -> u16
        ensures { result ≡ out_of_memory }
    {
        90
    }
}

impl fmt::Display for Memory {
    ghost use Rattle.std.specs.Prelude.{Some};
    ghost use Rattle.world_stations.specs.Numbers.{out_of_memory_text};

    ghost output = { λ memory. Some out_of_memory_text };

    fn fmt<W: fmt::Write>(&self, f: &mut fmt::Formatter<W>) -> fmt::Result {
        let number = self.number();
        write!(f, "{number} Memory")
    }
}

impl std::error::Error for Memory {}

impl From<AllocError> for Memory {
    fn from(_: AllocError) -> Memory {
        Memory
    }
}

impl<T: Drop> From<AllocFailed<T>> for Memory {
    fn from(_: AllocFailed<T>) -> Memory {
        Memory
    }
}

impl From<node::Memory> for Memory {
    fn from(_: node::Memory) -> Memory {
        Memory
    }
}
