ghost use Rattle.std.specs.Prelude.{◌≡◌};
ghost use Rattle.files_script.specs.declared.fault.ScriptFault.TheVariants.{Memory};

use plan::InputFault;
use std::alloc::{AllocError, AllocFailed};
use std::fmt;

/// Why a schedule isn't taken. Nothing of it is kept. But for `Memory`, whoever wrote the file caused it: the caller
/// prints them, and may read it again once it is changed.
#[derive(Clone, Copy, Debug, PartialEq, Eq)]
pub enum ScriptFault {
    /// The file is too long. Write fewer lines.
    OverLimit,
    /// The line of this number, counted from 1, has no form that there is, or names no federate. Correct it; later
    /// lines may be bad too.
    ScheduleLine(usize),
    /// An allocation failed: the machine caused it, and the file may be good. The same call may be made again.
    Memory,
}

impl fmt::Display for ScriptFault {
    ghost use Rattle.std.specs.Prelude.{Some};
    ghost use Rattle.files_script.specs.Faults.{printed_fault};

    ghost output = { λ fault. Some (printed_fault fault) };

    fn fmt<W: fmt::Write>(&self, f: &mut fmt::Formatter<W>) -> fmt::Result {
        match self {
            ScriptFault::OverLimit => write!(f, "{}", InputFault::OverLimit),
            ScriptFault::ScheduleLine(number) => write!(f, "schedule line {number}"),
            ScriptFault::Memory => write!(f, "{}", InputFault::Memory),
        }
    }
}

impl From<AllocError> for ScriptFault {
    ghost from_gives = { λ _ fault. fault ≡ Memory };

    fn from(_error: AllocError) -> ScriptFault {
        ScriptFault::Memory
    }
}

impl<T: Drop> From<AllocFailed<T>> for ScriptFault {
    ghost from_gives = { λ _ fault. fault ≡ Memory };

    fn from(_failed: AllocFailed<T>) -> ScriptFault {
        ScriptFault::Memory
    }
}
