ghost use Rattle.std.specs.Prelude.{◌≡◌};
ghost use Rattle.wires.specs.declared.run_fault.RunFault.TheVariants.{Memory};

use std::alloc::{AllocError, AllocFailed};
use std::fmt;

/// Why a run isn't finished.
#[derive(Clone, Copy, Debug, PartialEq, Eq)]
pub enum Cause {
    /// There was no listener on loopback.
    NoListener,
    /// A thread couldn't be started.
    NoThread,
    /// A node's workers don't agree with its journal, or there are workers of another count of federates.
    SharesDisagree,
    /// The coordinator isn't finished: a federate's turns were made before. More turns may finish the run.
    TurnsUsedUp,
}

/// Why a run gives no desks.
#[derive(Clone, Copy, Debug, PartialEq, Eq)]
pub enum RunFault {
    /// The run isn't finished, for this cause. It may be made again.
    NotFinished(Cause),
    /// No memory was to be had for nodes or workers. The same run may be made again.
    Memory,
}

impl fmt::Display for RunFault {
    ghost use Rattle.std.specs.Prelude.{Some};
    ghost use Rattle.wires.specs.Fault.{text_of};

    ghost output = { λ fault. Some (text_of fault) };

    fn fmt<W: fmt::Write>(&self, f: &mut fmt::Formatter<W>) -> fmt::Result {
        match self {
            RunFault::NotFinished(_) => write!(f, "not finished"),
            RunFault::Memory => write!(f, "{}", desk::Memory),
        }
    }
}

impl std::error::Error for RunFault {}

impl From<AllocError> for RunFault {
    ghost from_gives = { λ _ fault. fault ≡ Memory };

    fn from(_: AllocError) -> RunFault {
        RunFault::Memory
    }
}

impl<T: Drop> From<AllocFailed<T>> for RunFault {
    ghost from_gives = { λ _ fault. fault ≡ Memory };

    fn from(_: AllocFailed<T>) -> RunFault {
        RunFault::Memory
    }
}
