ghost use Rattle.std.specs.Prelude.{◌≡◌};
ghost use Rattle.fedrun_draw.specs.declared.fault.DrawFault.TheVariants as fault;

use std::alloc::{AllocError, AllocFailed};
use std::fmt;

/// The most steps of a schedule that are drawn.
pub const MOST_STEPS: usize = 2_000;

/// The most frames of a schedule that are drawn.
pub const MOST_FRAMES: usize = 16_384;

/// No memory for a step of a schedule, or for a picture.
#[derive(Clone, Copy, Debug, PartialEq, Eq)]
pub struct OutOfMemory;

impl From<AllocError> for OutOfMemory {
    fn from(_error: AllocError) -> OutOfMemory {
        OutOfMemory
    }
}

impl<T: Drop> From<AllocFailed<T>> for OutOfMemory {
    fn from(_failed: AllocFailed<T>) -> OutOfMemory {
        OutOfMemory
    }
}

impl From<world::Memory> for OutOfMemory {
    fn from(_memory: world::Memory) -> OutOfMemory {
        OutOfMemory
    }
}

/// Why a picture isn't drawn. But for `CannotWrite`, nothing was written.
#[derive(Clone, Copy, Debug, PartialEq, Eq)]
pub enum DrawFault {
    /// The schedule, with its closing rounds, has this many steps, more than are drawn. Draw a shorter one.
    TooManySteps(usize),
    /// This many frames were sent, more than are drawn. Draw a shorter schedule.
    TooManyFrames(usize),
    /// No memory for a step of the schedule, or for the picture. The same call may be made again.
    Memory,
    /// The output refused a write. How much of the picture it took isn't known.
    CannotWrite,
}

impl fmt::Display for DrawFault {
    ghost use Rattle.std.specs.Prelude.{Some};
    ghost use Rattle.fedrun_draw.specs.Faults.{printed_fault};

    ghost output = { λ fault. Some (printed_fault fault) };

    fn fmt<W: fmt::Write>(&self, f: &mut fmt::Formatter<W>) -> fmt::Result {
        match self {
            DrawFault::TooManySteps(count) => {
                write!(f, "{count} steps: a picture has at most {MOST_STEPS}")
            }
            DrawFault::TooManyFrames(count) => {
                write!(f, "{count} frames: a picture has at most {MOST_FRAMES}")
            }
            DrawFault::Memory => write!(f, "{}", files_text::Memory),
            DrawFault::CannotWrite => write!(f, "cannot write"),
        }
    }
}

impl From<OutOfMemory> for DrawFault {
    ghost from_gives = { λ _ made. made ≡ fault.Memory };

    fn from(_error: OutOfMemory) -> DrawFault {
        DrawFault::Memory
    }
}

impl From<AllocError> for DrawFault {
    ghost from_gives = { λ _ made. made ≡ fault.Memory };

    fn from(_error: AllocError) -> DrawFault {
        DrawFault::Memory
    }
}
