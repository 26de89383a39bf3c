ghost use Rattle.std.specs.Prelude.{◌≡◌};

use files_logs::LogFault;
use files_reports::ReportFileFault;
use recorder_reports::ReportFault;
use std::fmt;

/// Why a file isn't taken as what a node says of a run.
#[derive(Clone, Copy, Debug, PartialEq, Eq)]
pub enum NodeFileFault {
    /// It isn't named as a log, and isn't taken as a report.
    Report(ReportFileFault),
    /// It is named as a log, and isn't read as one of the node that is due. The coordinator's in the place of a
    /// federate's is `OtherNode`.
    Log(LogFault),
    /// It is a federate's log, and what it reports isn't taken beside the reports before it.
    NotTaken(ReportFault),
}

impl NodeFileFault {
    ghost use Rattle.fedrun_reports.specs.Faults.{node_file_number};

    /// The number by which it is printed.
    pub const fn number(self) -> u16
        ensures { result ≡ node_file_number self }
    {
        match self {
            NodeFileFault::Report(fault) => fault.number(),
            NodeFileFault::Log(fault) => fault.number(),
            NodeFileFault::NotTaken(fault) => fault.number(),
        }
    }
}

impl fmt::Display for NodeFileFault {
    ghost use Rattle.std.specs.Prelude.{Some};
    ghost use Rattle.fedrun_reports.specs.Faults.{node_file_text};

    ghost output = { λ fault. Some (node_file_text fault) };

    fn fmt<W: fmt::Write>(&self, f: &mut fmt::Formatter<W>) -> fmt::Result {
        match self {
            NodeFileFault::Report(fault) => write!(f, "{fault}"),
            NodeFileFault::Log(fault) => write!(f, "{fault}"),
            NodeFileFault::NotTaken(fault) => write!(f, "{fault}"),
        }
    }
}

impl std::error::Error for NodeFileFault {}
