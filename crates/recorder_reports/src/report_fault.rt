ghost use Rattle.std.specs.Prelude.{◌≡◌};
ghost use Rattle.recorder_reports.specs.Numbers.{number_of_report_fault};

use crate::report::Report;
use crate::unproved::Unproved;
use std::fmt;

/// Why a report isn't taken. They are tested in this order.
#[derive(Clone, Copy, Debug, PartialEq, Eq)]
pub enum ReportFault {
    /// There is no such federate: whoever sent it is a stranger.
    Stranger,
    /// This federate's report is there already; the first one stays.
    Double,
    /// An allocation failed. The same report may be added again.
    Memory,
}

impl ReportFault {
    /// The number by which it is printed.
    pub const fn number(self) -> u16
        ensures { result ≡ number_of_report_fault self }
    {
        match self {
            ReportFault::Stranger => Unproved::Stranger.number(),
            ReportFault::Double => Unproved::Double.number(),
            ReportFault::Memory => Unproved::Memory.number(),
        }
    }
}

impl fmt::Display for ReportFault {
    ghost use Rattle.std.specs.Prelude.{Some};
    ghost use Rattle.recorder_reports.specs.Numbers.{text_of_report_fault};

    ghost output = { λ fault. Some (text_of_report_fault fault) };

    fn fmt<W: fmt::Write>(&self, f: &mut fmt::Formatter<W>) -> fmt::Result {
        let name = match self {
            ReportFault::Stranger => "Stranger",
            ReportFault::Double => "Double",
            ReportFault::Memory => "Memory",
        };
        write!(f, "{} {name}", self.number())
    }
}

impl std::error::Error for ReportFault {}

/// A report that isn't taken, handed back.
#[derive(Debug, Drop)]
pub struct Refused {
    pub report: Report,
    pub fault: ReportFault,
}
