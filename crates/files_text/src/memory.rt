ghost use Rattle.std.specs.Prelude.{◌≡◌};

use std::alloc::AllocError;
use std::fmt;

/// An allocation for printed text failed. The machine caused it; nothing was printed, and the call may be made again.
#[derive(Clone, Copy, Debug, PartialEq, Eq)]
pub struct Memory;

impl Memory {
    ghost use Rattle.files_text.specs.Memory.{memory_number};

    /// The number by which it is printed.
    pub const fn number(self) -> u16
        ensures { result ≡ memory_number }
    {
        91
    }
}

impl fmt::Display for Memory {
    ghost use Rattle.std.specs.Prelude.{Some};
    ghost use Rattle.files_text.specs.Memory.{memory_text};

    ghost output = { λ _. Some memory_text };

    fn fmt<W: fmt::Write>(&self, f: &mut fmt::Formatter<W>) -> fmt::Result {
        write!(f, "{} Memory", self.number())
    }
}

impl From<AllocError> for Memory {
    fn from(_error: AllocError) -> Memory {
        Memory
    }
}
