ghost use Rattle.std.specs.Prelude.{◌≡◌};

use crate::read_fault::ReadFault;
use recorder_reports::ReportFault;
use std::fmt;

/// Why a file isn't taken as a report of a run.
#[derive(Clone, Copy, Debug, PartialEq, Eq)]
pub enum ReportFileFault {
    /// Its bytes aren't read as a report of a run of these files.
    Unread(ReadFault),
    /// It is the coordinator's, where a federate's is due, or a federate's in the place of the coordinator's. Files
    /// were exchanged.
    OtherNode,
    /// The report in it isn't taken beside those before it.
    NotTaken(ReportFault),
}

impl ReportFileFault {
    ghost use Rattle.files_reports.specs.Faults.{file_number};

    /// The number by which it is printed.
    pub const fn number(self) -> u16
        ensures { result ≡ file_number self }
    {
        match self {
            ReportFileFault::Unread(fault) => fault.number(),
            ReportFileFault::OtherNode => 111,
            ReportFileFault::NotTaken(fault) => fault.number(),
        }
    }
}

impl fmt::Display for ReportFileFault {
    ghost use Rattle.std.specs.Prelude.{Some};
    ghost use Rattle.files_reports.specs.Faults.{file_text};

    ghost output = { λ fault. Some (file_text fault) };

    fn fmt<W: fmt::Write>(&self, f: &mut fmt::Formatter<W>) -> fmt::Result {
        match self {
            ReportFileFault::Unread(fault) => write!(f, "{fault}"),
            ReportFileFault::OtherNode => write!(f, "{} OtherNode", self.number()),
            ReportFileFault::NotTaken(fault) => write!(f, "{fault}"),
        }
    }
}

impl std::error::Error for ReportFileFault {}
