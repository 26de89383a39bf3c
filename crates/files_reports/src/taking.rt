//! Report files as an audit takes them: the coordinator's, and those of federates one after the other.

ghost use Rattle.std.specs.Prelude.{◌≡◌, ◌++◌, ◌∷◌, [], OnOk, OnErr, IfOk, IfErr};
ghost use Rattle.recorder_reports.specs.Reports.{IsRefusedFor};
ghost use Rattle.recorder_reports.specs.declared.report.Report.{Report as IsReport};
ghost use Rattle.files_reports.specs.Said.{by_coordinator};
ghost use Rattle.files_reports.specs.File.{IsReportOf};
ghost use Rattle.files_reports.specs.Taken.{by_report, IsCoordinatorFault, IsFederateFault};

use crate::file_digests::FileDigests;
use crate::node_report::NodeReport;
use crate::read::read_report;
use crate::report_file_fault::ReportFileFault;
use node_journal::Journal;
use recorder_reports::{Collector, Report, ReportFault};
use std::alloc::Global;

/// The coordinator's journal, from the bytes of its report of a run of these files.
pub fn read_coordinator(
    alloc: Global,
    files: &FileDigests,
    bytes: &[u8],
) -> Result<Journal, ReportFileFault>
    ensures read { IfOk result (λ journal. IsReportOf files.now (by_coordinator journal) bytes.now) }
    ensures fault { IfErr result (IsCoordinatorFault files.now bytes.now) }
{
    match read_report(alloc, files, bytes) {
        Ok(NodeReport::Coordinator(journal)) => Ok(journal),
        Ok(NodeReport::Federate(_)) => Err(ReportFileFault::OtherNode),
        Err(fault) => Err(ReportFileFault::Unread(fault)),
    }
}

/// Adds a federate's report to those that were taken before, from the bytes of its file.
pub fn take_report(
    alloc: Global,
    collector: &mut Collector<'_>,
    files: &FileDigests,
    bytes: &[u8],
) -> Result<(), ReportFileFault>
    ensures count { collector.new.count ≡ collector.old.count }
    ensures taken { OnOk result ((report : IsReport) × IsReportOf files.now (by_report report) bytes.now
        × (collector.new.reports ≡ collector.old.reports ++ report ∷ [])) }
    ensures fault { IfErr result (IsFederateFault collector.old files.now bytes.now) }
    ensures unchanged { OnErr result (collector.new ≡ collector.old) }
{
    match read_report(alloc, files, bytes) {
        Ok(NodeReport::Federate(report)) => match add(collector, report) {
            Ok(()) => Ok(()),
            Err(fault) => Err(ReportFileFault::NotTaken(fault)),
        },
        Ok(NodeReport::Coordinator(_)) => Err(ReportFileFault::OtherNode),
        Err(fault) => Err(ReportFileFault::Unread(fault)),
    }
}

// Adds a report; one that isn't taken is discarded.
fn add(collector: &mut Collector<'_>, report: Report) -> Result<(), ReportFault>
    ensures count { collector.new.count ≡ collector.old.count }
    ensures taken { OnOk result (collector.new.reports ≡ collector.old.reports ++ report ∷ []) }
    ensures refused { IfErr result (IsRefusedFor collector.old report) }
    ensures unchanged { OnErr result (collector.new ≡ collector.old) }
{
    match collector.add(report) {
        Ok(()) => Ok(()),
        Err(refused) => Err(refused.fault),
    }
}
