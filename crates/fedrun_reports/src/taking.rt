//! Nodes' files as an audit takes them: the coordinator's, and those of federates one after the other.

ghost use Rattle.std.specs.Prelude.{◌≡◌, ◌≢◌, ◌++◌, ◌∷◌, [], ◌<◌, OnOk, OnErr, IfOk, IfErr};
ghost use Rattle.plan.specs.External.{AreInputsOf};
ghost use Rattle.plan.specs.Federation.{federate_count};
ghost use Rattle.reactor_programs.specs.Programs.{AreProgramsOf};
ghost use Rattle.recorder_reports.specs.Reports.{IsRefusedFor};
ghost use Rattle.recorder_reports.specs.declared.report.Report.{Report as IsReport};
ghost use Rattle.fedrun_reports.specs.Files as definition;
ghost use Rattle.fedrun_reports.specs.Files.{IsOfCoordinator, IsCoordinatorFault, IsOfFederate, IsFederateFault};
ghost use Rattle.fedrun_reports.specs.Files.{IsFederateLog, IsFederateLogFault};

use crate::node_file_fault::NodeFileFault;
use crate::replayed::replayed_federate;
use crate::rules::RULES;
use desk::Memory;
use fedrun_files::Sources;
use files_logs::{Log, LogFault, is_log, read_log};
use files_reports::layout::COORDINATOR;
use files_reports::{FileDigests, take_report};
use node_journal::Journal;
use recorder_reports::{Collector, Report, ReportFault};
use std::alloc::Global;

/// The coordinator's journal, from the bytes of its report or of its log of a run of these files.
pub fn read_coordinator(
    alloc: Global,
    files: &FileDigests,
    bytes: &[u8],
) -> Result<Journal, NodeFileFault>
    ensures read { IfOk result (λ journal. IsOfCoordinator files.now journal bytes.now) }
    ensures fault { IfErr result (IsCoordinatorFault files.now bytes.now) }
{
    if is_log(bytes) {
        return match read_log(alloc, files, Some(COORDINATOR), RULES, bytes) {
            Ok(log) => Ok(log.journal),
            Err(fault) => Err(NodeFileFault::Log(fault)),
        };
    }
    match files_reports::read_coordinator(alloc, files, bytes) {
        Ok(journal) => Ok(journal),
        Err(fault) => Err(NodeFileFault::Report(fault)),
    }
}

/// Adds a federate's report to those that were taken before, from the bytes of its report or of its log. The rows that a
/// log doesn't say are made by the federate's node.
pub fn take_federate(
    alloc: Global,
    sources: &Sources,
    collector: &mut Collector<'_>,
    files: &FileDigests,
    bytes: &[u8],
) -> Result<(), NodeFileFault>
    requires programs { AreProgramsOf sources.now.plan sources.now.programs }
    requires inputs { AreInputsOf sources.now.plan sources.now.inputs }
    requires of_plan { collector.old.count ≡ federate_count sources.now.plan }
    ensures count { collector.new.count ≡ collector.old.count }
    ensures taken { OnOk result ((report : IsReport) × IsOfFederate files.now sources.now report bytes.now
        × (collector.new.reports ≡ collector.old.reports ++ report ∷ [])) }
    ensures fault { IfErr result (IsFederateFault collector.old files.now sources.now bytes.now) }
    ensures unchanged { OnErr result (collector.new ≡ collector.old) }
{
    if !is_log(bytes) {
        return match take_report(alloc, collector, files, bytes) {
            Ok(()) => Ok(()),
            Err(fault) => Err(NodeFileFault::Report(fault)),
        };
    }
    let log = match federate_log(alloc, files, bytes) {
        Ok(log) => log,
        Err(fault) => return Err(NodeFileFault::Log(fault)),
    };
    if usize::from(log.who) >= sources.plan.federate_count() {
        return Err(NodeFileFault::NotTaken(ReportFault::Stranger));
    }
    let Ok(report) = report_by(alloc, sources, log) else {
        return Err(NodeFileFault::Log(LogFault::Memory));
    };
    match add(collector, report) {
        Ok(()) => Ok(()),
        Err(fault) => Err(NodeFileFault::NotTaken(fault)),
    }
}

// The log that all of these bytes are, of some federate.
fn federate_log(alloc: Global, files: &FileDigests, bytes: &[u8]) -> Result<Log, LogFault>
    ensures read { IfOk result (IsFederateLog files.now bytes.now) }
    ensures fault { IfErr result (IsFederateLogFault files.now bytes.now) }
{
    let log = match read_log(alloc, files, None, RULES, bytes) {
        Ok(log) => log,
        Err(fault) => return Err(fault),
    };
    if log.who == COORDINATOR {
        return Err(LogFault::OtherNode);
    }
    Ok(log)
}

// What a federate's log reports.
fn report_by(alloc: Global, sources: &Sources, log: Log) -> Result<Report, Memory>
    requires programs { AreProgramsOf sources.now.plan sources.now.programs }
    requires inputs { AreInputsOf sources.now.plan sources.now.inputs }
    requires there { log.who < federate_count sources.now.plan }
    ensures { IfOk result (λ report. report ≡ definition.report_by sources.now log) }
{
    let federate = usize::from(log.who);
    let desk = replayed_federate(alloc, sources, federate, log.journal)?;
    let (station, journal) = desk.into_parts();
    Ok(Report {
        federate,
        rows: station.into_node().into_rows(),
        journal,
    })
}

// Adds a report; one that isn't taken is discarded.
fn add(collector: &mut Collector<'_>, report: Report) -> Result<(), ReportFault>
    ensures count { collector.new.count ≡ collector.old.count }
    ensures taken { OnOk result (collector.new.reports ≡ collector.old.reports ++ report ∷ []) }
    ensures refused { IfErr result (IsRefusedFor collector.old report) }
    ensures unchanged { OnErr result (collector.new ≡ collector.old) }
{
    match collector.add(report) {
        Ok(()) => Ok(()),
        Err(refused) => Err(refused.fault),
    }
}
