//! What nodes' logs come to: an audit believes them, and the rows are those that were worked out.
ghost use Rattle.std.specs.Prelude.{◌≡◌};
ghost use Rattle.plan.specs.External.{AreInputsOf};
ghost use Rattle.plan.specs.Federation.{federate_count};
ghost use Rattle.reactor_programs.specs.Programs.{AreProgramsOf};

use crate::given::Given;
use crate::stop::Stop;
use fedrun_files::Sources;
use fedrun_reports::{RULES, read_coordinator, take_federate};
use files_logs::read_log;
use files_reports::FileDigests;
use files_text::{RowFormat, write_rows};
use plan::Plan;
use recorder::audit_run;
use recorder_reports::{Collector, Report};
use std::alloc::Global;

/// The bytes of all nodes' logs.
#[derive(Drop)]
pub(crate) struct Logs {
    pub coordinator: Vec<u8>,
    pub federates: Vec<Vec<u8>>,
}

/// Whether a log says that the run is finished, and has its end.
pub(crate) fn is_ended(alloc: Global, given: &Given, bytes: &[u8]) -> bool {
    match read_log(alloc, given.digests(), None, RULES, bytes) {
        Ok(log) => log.is_told && log.is_ended,
        Err(_) => false,
    }
}

/// Judges what the logs have at the end of a run.
pub(crate) fn judge(alloc: Global, given: &Given, logs: &Logs) -> Result<(), Stop> {
    let Ok(coordinator) = read_coordinator(alloc, given.digests(), &logs.coordinator) else {
        return Err(Stop::Unread);
    };
    let sources = given.sources();
    let mut collector = Collector::new(alloc, &sources.plan);
    take_all(
        alloc,
        sources,
        given.digests(),
        &logs.federates,
        &mut collector,
    )?;
    let reports = collector.reports();
    match audit_run(
        alloc,
        &sources.plan,
        &sources.programs,
        &sources.inputs,
        reports,
        &coordinator,
    ) {
        Ok(audited) if !audited.is_finished => Err(Stop::Unfinished),
        Ok(_) if have_rows(alloc, &sources.plan, reports, given.rows()) => Ok(()),
        Ok(_) => Err(Stop::OtherRows),
        Err(_) => Err(Stop::Unproved),
    }
}

// Takes what the federates' logs report.
fn take_all(
    alloc: Global,
    sources: &Sources,
    digests: &FileDigests,
    logs: &[Vec<u8>],
    collector: &mut Collector<'_>,
) -> Result<(), Stop>
    requires programs { AreProgramsOf sources.now.plan sources.now.programs }
    requires inputs { AreInputsOf sources.now.plan sources.now.inputs }
    requires of_plan { collector.old.count ≡ federate_count sources.now.plan }
{
    for bytes in logs {
        match take_federate(alloc, sources, collector, digests, bytes.as_slice()) {
            Ok(()) => {}
            Err(_) => return Err(Stop::Unread),
        }
    }
    Ok(())
}

// Whether these are the rows that are reported, federate by federate.
fn have_rows(alloc: Global, plan: &Plan, reports: &[Report], rows: &str) -> bool {
    let mut text = Vec::new(alloc);
    for report in reports {
        if write_rows(&mut text, plan, &report.rows, RowFormat::Text).is_err() {
            return false;
        }
    }
    text.as_slice() == rows.as_bytes()
}
