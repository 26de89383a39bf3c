ghost use Rattle.std.specs.Prelude.{◌≡◌};
ghost use Rattle.files_logs.specs.declared.write_fault.LogWriteFault.TheVariants as Faults;

use files_reports::Memory;
use std::fmt;

/// Why a block isn't written.
#[derive(Clone, Copy, Debug, PartialEq, Eq)]
pub enum LogWriteFault {
    /// Its events would take more than 16 MiB. Fewer at once do not: 10,000 events always have room.
    TooLong,
    /// An allocation failed. The same block may be written again.
    Memory,
}

impl LogWriteFault {
    ghost use Rattle.files_logs.specs.Faults.{write_number};

    /// The number by which it is printed.
    pub const fn number(self) -> u16
        ensures { result ≡ write_number self }
    {
        match self {
            LogWriteFault::TooLong => 101,
            LogWriteFault::Memory => Memory.number(),
        }
    }
}

impl fmt::Display for LogWriteFault {
    ghost use Rattle.std.specs.Prelude.{Some};
    ghost use Rattle.files_logs.specs.Faults.{write_text};

    ghost output = { λ fault. Some (write_text fault) };

    fn fmt<W: fmt::Write>(&self, f: &mut fmt::Formatter<W>) -> fmt::Result {
        let name = match self {
            LogWriteFault::TooLong => "TooLong",
            LogWriteFault::Memory => "Memory",
        };
        write!(f, "{} {name}", self.number())
    }
}

impl std::error::Error for LogWriteFault {}

impl From<Memory> for LogWriteFault {
    ghost from_gives = { λ _ fault. fault ≡ Faults.Memory };

    fn from(_: Memory) -> LogWriteFault {
        LogWriteFault::Memory
    }
}
