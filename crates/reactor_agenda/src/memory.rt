ghost use Rattle.std.specs.Prelude.{◌≡◌};

use reactor_program::ProgramFault;
use std::alloc::{AllocError, AllocFailed};
use std::fmt;

/// No memory was to be had for what is pending. It is printed as want of memory for a turn is.
#[derive(Clone, Copy, Debug, PartialEq, Eq)]
pub struct Memory;

impl Memory {
    ghost use Rattle.reactor_program.specs.ProgramFaults.{fault_number};
    ghost use Rattle.reactor_program.specs.declared.program_fault.ProgramFault.TheVariants as ProgramFaults;

    /// The number by which it is printed.
    pub const fn number(self) -> u16
        ensures { result ≡ fault_number ProgramFaults.Memory }
    {
        ProgramFault::Memory.number()
    }
}

impl fmt::Display for Memory {
    ghost use Rattle.std.specs.Prelude.{Some};
    ghost use Rattle.reactor_program.specs.ProgramFaults.{printed_memory};

    ghost output = { λ _. Some printed_memory };

    fn fmt<W: fmt::Write>(&self, f: &mut fmt::Formatter<W>) -> fmt::Result {
        write!(f, "{} Memory", self.number())
    }
}

impl From<AllocError> for Memory {
    fn from(_error: AllocError) -> Memory {
        Memory
    }
}

impl<T: Drop> From<AllocFailed<T>> for Memory {
    fn from(_failed: AllocFailed<T>) -> Memory {
        Memory
    }
}
