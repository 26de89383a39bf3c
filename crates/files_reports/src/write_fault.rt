ghost use Rattle.std.specs.Prelude.{◌≡◌};
ghost use Rattle.files_reports.specs.declared.write_fault.WriteFault.TheVariants as Faults;

use crate::memory::Memory;
use std::fmt;

/// Why a report isn't written.
#[derive(Clone, Copy, Debug, PartialEq, Eq)]
pub enum WriteFault {
    /// The federate's number isn't below the coordinator's, or a row isn't its own. Whoever made the report is at
    /// fault.
    NotOwn,
    /// The file would have more than 4 GiB.
    TooLong,
    /// An allocation failed. The same report may be written again.
    Memory,
}

impl WriteFault {
    ghost use Rattle.files_reports.specs.Faults.{write_number};

    /// The number by which it is printed.
    pub const fn number(self) -> u16
        ensures { result ≡ write_number self }
    {
        match self {
            WriteFault::NotOwn => 110,
            WriteFault::TooLong => 101,
            WriteFault::Memory => Memory.number(),
        }
    }
}

impl fmt::Display for WriteFault {
    ghost use Rattle.std.specs.Prelude.{Some};
    ghost use Rattle.files_reports.specs.Faults.{write_text};

    ghost output = { λ fault. Some (write_text fault) };

    fn fmt<W: fmt::Write>(&self, f: &mut fmt::Formatter<W>) -> fmt::Result {
        let name = match self {
            WriteFault::NotOwn => "NotOwn",
            WriteFault::TooLong => "TooLong",
            WriteFault::Memory => "Memory",
        };
        write!(f, "{} {name}", self.number())
    }
}

impl std::error::Error for WriteFault {}

impl From<Memory> for WriteFault {
    ghost from_gives = { λ _ fault. fault ≡ Faults.Memory };

    fn from(_: Memory) -> WriteFault {
        WriteFault::Memory
    }
}
