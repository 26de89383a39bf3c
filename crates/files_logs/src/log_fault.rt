ghost use Rattle.std.specs.Prelude.{◌≡◌};
ghost use Rattle.files_logs.specs.declared.log_fault.LogFault.TheVariants as Faults;

use files_reports::{ContentFault, Memory};
use std::alloc::AllocError;
use std::fmt;

/// Why bytes aren't read as the log of a node in a run. They are tested in this order, but for `Memory`, which is
/// answered only of a log with the right head, and then at any time.
#[derive(Clone, Copy, Debug, PartialEq, Eq)]
pub enum LogFault {
    /// There is no log: bytes that don't begin with the name of the format, or no more than a head, and that isn't
    /// whole. In the latter a crash has left a log that wasn't begun: a new one may take its place.
    NoLog,
    /// Something before the last block isn't as it was written. What is behind can't be read; the file must not be
    /// written to.
    Damaged,
    /// It is of a run of another federation file, or of other recorded inputs.
    OtherFiles,
    /// It is another node's.
    OtherNode,
    /// It was written by a program with other rules, and its events make another state by those of this one.
    OtherLog,
    /// A block whose sum is right doesn't say events: whoever wrote it wrote no log.
    Content(ContentFault),
    /// The log has an end, and the digest there isn't that of all before it, or bytes stand behind it: the file was
    /// changed.
    CutShort,
    /// An allocation failed. The same bytes may be read again.
    Memory,
}

impl LogFault {
    ghost use Rattle.files_logs.specs.Faults.{log_number};

    /// The number by which it is printed.
    pub const fn number(self) -> u16
        ensures { result ≡ log_number self }
    {
        match self {
            LogFault::NoLog => 100,
            LogFault::Damaged => 122,
            LogFault::OtherFiles => 103,
            LogFault::OtherNode => 111,
            LogFault::OtherLog => 121,
            LogFault::Content(fault) => fault.number(),
            LogFault::CutShort => 102,
            LogFault::Memory => Memory.number(),
        }
    }
}

impl fmt::Display for LogFault {
    ghost use Rattle.std.specs.Prelude.{Some};
    ghost use Rattle.files_logs.specs.Faults.{log_text};

    ghost output = { λ fault. Some (log_text fault) };

    fn fmt<W: fmt::Write>(&self, f: &mut fmt::Formatter<W>) -> fmt::Result {
        let name = match self {
            LogFault::NoLog => "NoReport",
            LogFault::Damaged => "Damaged",
            LogFault::OtherFiles => "OtherFiles",
            LogFault::OtherNode => "OtherNode",
            LogFault::OtherLog => "OtherLog",
            LogFault::Content(fault) => fault.name(),
            LogFault::CutShort => "CutShort",
            LogFault::Memory => "Memory",
        };
        write!(f, "{} {name}", self.number())
    }
}

impl std::error::Error for LogFault {}

impl From<AllocError> for LogFault {
    ghost from_gives = { λ _ fault. fault ≡ Faults.Memory };

    fn from(_: AllocError) -> LogFault {
        LogFault::Memory
    }
}
