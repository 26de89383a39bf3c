ghost use Rattle.std.specs.Prelude.{◌≡◌, ◌↔◌, ◌⊎◌, IsTrue, IsSome};

use crate::report::{Report, ReportLines};
use fedrun_lint_schedule::{ScheduleRefusal, ScheduleRefusalLines};
use std::fmt;

/// What there is to say of all files that are looked at together.
#[derive(Drop)]
pub struct FullReport {
    /// Of the federation file and the file of recorded inputs.
    pub files: Report,
    /// Why the schedule is refused, if there is one and it is: of a refused federation for its form alone.
    pub schedule: Option<ScheduleRefusal>,
}

impl FullReport {
    /// Whether something is wrong.
    pub fn is_wrong(&self) -> bool
        ensures { IsTrue result ↔ ((IsSome self.now.files.federation ⊎ IsSome self.now.files.inputs)
            ⊎ IsSome self.now.schedule) }
    {
        self.files.is_wrong() || self.schedule.is_some()
    }

    /// The report as it is printed, of files of these names.
    pub fn lines<'a>(
        &'a self,
        federation: &'a str,
        inputs: &'a str,
        schedule: &'a str,
    ) -> FullReportLines<'a>
        ensures { (result.report ≡ self.entry) × (result.federation ≡ federation.entry)
            × (result.inputs ≡ inputs.entry) × (result.schedule ≡ schedule.entry) }
    {
        FullReportLines {
            report: self,
            federation,
            inputs,
            schedule,
        }
    }
}

/// A full report as it is printed: a line for each fault, and for each thing that is odd.
#[derive(Drop)]
pub struct FullReportLines<'a> {
    pub report: &'a FullReport,
    /// The name of the federation file.
    pub federation: &'a str,
    /// The name of the file of recorded inputs.
    pub inputs: &'a str,
    /// The name of the schedule, if there is one.
    pub schedule: &'a str,
}

impl fmt::Display for FullReportLines<'_> {
    ghost use Rattle.std.specs.Prelude.{Some};
    ghost use Rattle.fedrun_lint.specs.Printed.{printed_full_report};

    ghost output = { λ lines.
        Some (printed_full_report lines.federation.now lines.inputs.now lines.schedule.now lines.report.now) };

    fn fmt<W: fmt::Write>(&self, f: &mut fmt::Formatter<W>) -> fmt::Result {
        let files = ReportLines {
            report: &self.report.files,
            federation: self.federation,
            inputs: self.inputs,
        };
        let schedule = ScheduleRefusalLines {
            file: self.schedule,
            refusal: &self.report.schedule,
        };
        write!(f, "{files}{schedule}")
    }
}
