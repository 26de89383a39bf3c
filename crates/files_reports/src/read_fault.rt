ghost use Rattle.std.specs.Prelude.{◌≡◌};
ghost use Rattle.files_reports.specs.declared.read_fault.ReadFault.TheVariants as Faults;

use crate::content_fault::ContentFault;
use crate::memory::Memory;
use std::alloc::{AllocError, AllocFailed};
use std::fmt;

/// Why bytes aren't read as a report of a run. They are tested in this order, but for `Memory`, which is answered only
/// of a sealed file of these files, and then at any time.
#[derive(Clone, Copy, Debug, PartialEq, Eq)]
pub enum ReadFault {
    /// They don't begin with the name of the format: this is no report, or one of another version.
    NoReport,
    /// They are more than 4 GiB.
    TooLong,
    /// The digest at their end isn't that of all before it: the file was cut short, or changed. The node's own file may
    /// be whole.
    CutShort,
    /// It is of a run of another federation file, or of other recorded inputs.
    OtherFiles,
    /// What is said there has this fault: whoever wrote it wrote no report.
    Content(ContentFault),
    /// An allocation failed. The same bytes may be read again.
    Memory,
}

impl ReadFault {
    ghost use Rattle.files_reports.specs.Faults.{read_number};

    /// The number by which it is printed.
    pub const fn number(self) -> u16
        ensures { result ≡ read_number self }
    {
        match self {
            ReadFault::NoReport => 100,
            ReadFault::TooLong => 101,
            ReadFault::CutShort => 102,
            ReadFault::OtherFiles => 103,
            ReadFault::Content(fault) => fault.number(),
            ReadFault::Memory => Memory.number(),
        }
    }
}

impl fmt::Display for ReadFault {
    ghost use Rattle.std.specs.Prelude.{Some};
    ghost use Rattle.files_reports.specs.Faults.{read_text};

    ghost output = { λ fault. Some (read_text fault) };

    fn fmt<W: fmt::Write>(&self, f: &mut fmt::Formatter<W>) -> fmt::Result {
        let name = match self {
            ReadFault::NoReport => "NoReport",
            ReadFault::TooLong => "TooLong",
            ReadFault::CutShort => "CutShort",
            ReadFault::OtherFiles => "OtherFiles",
            ReadFault::Content(fault) => fault.name(),
            ReadFault::Memory => "Memory",
        };
        write!(f, "{} {name}", self.number())
    }
}

impl std::error::Error for ReadFault {}

impl From<ContentFault> for ReadFault {
    ghost from_gives = { λ content fault. fault ≡ Faults.Content content };

    fn from(fault: ContentFault) -> ReadFault {
        ReadFault::Content(fault)
    }
}

impl From<AllocError> for ReadFault {
    ghost from_gives = { λ _ fault. fault ≡ Faults.Memory };

    fn from(_: AllocError) -> ReadFault {
        ReadFault::Memory
    }
}

impl<T: Drop> From<AllocFailed<T>> for ReadFault {
    ghost from_gives = { λ _ fault. fault ≡ Faults.Memory };

    fn from(_: AllocFailed<T>) -> ReadFault {
        ReadFault::Memory
    }
}

impl From<signal::Memory> for ReadFault {
    ghost from_gives = { λ _ fault. fault ≡ Faults.Memory };

    fn from(_: signal::Memory) -> ReadFault {
        ReadFault::Memory
    }
}

impl From<reactor::Memory> for ReadFault {
    ghost from_gives = { λ _ fault. fault ≡ Faults.Memory };

    fn from(_: reactor::Memory) -> ReadFault {
        ReadFault::Memory
    }
}
