ghost use Rattle.std.specs.Prelude.{◌≡◌};

use std::alloc::{AllocError, AllocFailed};
use std::fmt;

/// Why reactions are no program. Nothing of it is kept. Reactions and lines count from 1; line 0 is the list of
/// triggers. But for `Memory`, whoever wrote the program caused it: the caller prints them, with the federate's name
/// (`of`), and may read the program again once it is changed.
#[derive(Clone, Copy, Debug)]
pub enum ProgramFault {
    /// The line is of no form. Write it in one of the forms.
    BadLine { reaction: usize, line: usize },
    /// A name in the line isn't there, or is of another kind. Declare it, or correct the name.
    UnknownOperand { reaction: usize, line: usize },
    /// An allocation failed: the machine caused it, and the program may be good. The same call may be made again.
    Memory,
    /// Two states have one name. Rename one of them.
    RepeatedState,
}

impl ProgramFault {
    ghost use Rattle.reactor_program.specs.ProgramFaults.{fault_number};

    /// The fault's number.
    pub const fn number(self) -> u16
        ensures { result ≡ fault_number self }
    {
        match self {
            ProgramFault::BadLine { .. } => 20,
            ProgramFault::UnknownOperand { .. } => 21,
            ProgramFault::Memory => 22,
            ProgramFault::RepeatedState => 23,
        }
    }

    /// The fault of the program of the federate of this name, to be printed.
    pub fn of(self, federate: &str) -> FaultOf<'_>
        ensures { (result.federate ≡ federate.entry) × (result.fault ≡ self) }
    {
        FaultOf {
            federate,
            fault: self,
        }
    }
}

/// A fault of the program of the federate of this name, to be printed.
#[derive(Clone, Copy)]
pub struct FaultOf<'a> {
    pub federate: &'a str,
    pub fault: ProgramFault,
}

impl fmt::Display for FaultOf<'_> {
    ghost use Rattle.std.specs.Prelude.{Some};
    ghost use Rattle.reactor_program.specs.ProgramFaults.{printed_fault_of};

    ghost output = { λ told. Some (printed_fault_of told.federate.now told.fault) };

    fn fmt<W: fmt::Write>(&self, f: &mut fmt::Formatter<W>) -> fmt::Result {
        let number = self.fault.number();
        let federate = self.federate;
        match self.fault {
            ProgramFault::BadLine { reaction, line } => {
                write!(f, "{number} BadLine {federate} {reaction} {line}")
            }
            ProgramFault::UnknownOperand { reaction, line } => {
                write!(f, "{number} UnknownOperand {federate} {reaction} {line}")
            }
            ProgramFault::Memory => write!(f, "{number} Memory"),
            ProgramFault::RepeatedState => write!(f, "{number} RepeatedState {federate}"),
        }
    }
}

impl From<AllocError> for ProgramFault {
    ghost use Rattle.reactor_program.specs.declared.program_fault.ProgramFault.TheVariants.{Memory};

    ghost from_gives = { λ _ fault. fault ≡ Memory };

    fn from(_error: AllocError) -> ProgramFault {
        ProgramFault::Memory
    }
}

impl<T: Drop> From<AllocFailed<T>> for ProgramFault {
    ghost use Rattle.reactor_program.specs.declared.program_fault.ProgramFault.TheVariants.{Memory};

    ghost from_gives = { λ _ fault. fault ≡ Memory };

    fn from(_failed: AllocFailed<T>) -> ProgramFault {
        ProgramFault::Memory
    }
}
