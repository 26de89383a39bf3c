ghost use Rattle.std.specs.Prelude.{◌≡◌};
ghost use Rattle.reactor_program.specs.ProgramFaults.{fault_number};
ghost use Rattle.reactor_program.specs.declared.program_fault.ProgramFault.TheVariants as ProgramFaults;

use reactor_program::ProgramFault;
use std::alloc::{AllocError, AllocFailed};
use std::fmt;

/// There is no memory for a turn or for what is made before the first, or a program has more registers than memory can
/// hold. Rows and states are as they were. Room that was passed in holds any turn. The same call may be made again.
#[derive(Clone, Copy, Debug, PartialEq, Eq)]
pub struct Memory;

impl Memory {
    /// The number of this fault.
    pub const fn number(self) -> u16
        ensures { result ≡ fault_number ProgramFaults.Memory }
    {
        ProgramFault::Memory.number()
    }
}

impl fmt::Display for Memory {
    ghost use Rattle.std.specs.Prelude.{Some};
    ghost use Rattle.reactor_program.specs.ProgramFaults.{printed_memory};

    ghost output = { λ _. Some printed_memory };

    fn fmt<W: fmt::Write>(&self, f: &mut fmt::Formatter<W>) -> fmt::Result {
        let number = self.number();
        write!(f, "{number} Memory")
    }
}

impl From<AllocError> for Memory {
    fn from(_error: AllocError) -> Memory {
        Memory
    }
}

impl<T: Drop> From<AllocFailed<T>> for Memory {
    fn from(_failed: AllocFailed<T>) -> Memory {
        Memory
    }
}
