ghost use Rattle.std.specs.Prelude.{◌≡◌, ◌≢◌, ◌∷◌, [], OnOk, IfErr, IfSome};
ghost use Rattle.std.specs.Io.KnownBytes.{Appends};
ghost use Rattle.files_text.specs.Formats.{formatted_rows};
ghost use Rattle.recorder_reports.specs.Reports.{reported_rows};
ghost use Rattle.files_record.specs.StepText.{printed_steps};
ghost use Rattle.fedrun_run.specs.Printed.{PrintsReports, IsAuditedFaultOf, IsTextOf, printed_reports, printed_run};

use crate::audit_failure::AuditFailure;
use crate::fault::AuditedFault;
use crate::output::RunOutput;
use files_record::write_steps;
use files_text::{CannotWrite, RowFormat, write_heading, write_rows};
use node_journal::Journal;
use plan::Plan;
use recorder::IncrementalAudit;
use recorder_reports::{Report, report_of};
use std::alloc::Global;
use std::io::Write;
use wires::Cause;
use world_stations::{MadeSteps, Step};

/// Ends the audit with these reports and the coordinator's journal, and where they are proved and the coordinator is
/// finished, prints their rows, federate by federate, or the steps that prove them. The caller flushes.
pub fn print_audited<O: Write>(
    alloc: Global,
    plan: &Plan,
    audit: IncrementalAudit<'_>,
    reports: &[Report],
    coordinator: &Journal,
    output: RunOutput,
    out: &mut O,
) -> Result<(), AuditedFault>
    requires plan { audit.draft ≡ plan.now }
    ensures ok { OnOk result (PrintsReports output plan.now audit.entry.programs audit.entry.inputs reports.now
        coordinator.now (O.contents out.old) (O.contents out.new)) }
    ensures fault { IfErr result (IsAuditedFaultOf plan.now audit.entry.programs audit.entry.inputs reports.now
        coordinator.now) }
    ensures untouched { IfErr result
        (λ fault. fault ≢ AuditedFault.CannotWrite → O.contents out.new ≡ O.contents out.old) }
{
    print_audited_text(alloc, plan, audit, reports, coordinator, output, None, out)
}

/// The same, where the rows may stand as text already.
pub(crate) fn print_audited_text<O: Write>(
    alloc: Global,
    plan: &Plan,
    audit: IncrementalAudit<'_>,
    reports: &[Report],
    coordinator: &Journal,
    output: RunOutput,
    text: Option<&[u8]>,
    out: &mut O,
) -> Result<(), AuditedFault>
    requires plan { audit.draft ≡ plan.now }
    requires text { IfSome text (λ text. IsTextOf output plan.now reports.now text.now) }
    ensures ok { OnOk result (PrintsReports output plan.now audit.entry.programs audit.entry.inputs reports.now
        coordinator.now (O.contents out.old) (O.contents out.new)) }
    ensures fault { IfErr result (IsAuditedFaultOf plan.now audit.entry.programs audit.entry.inputs reports.now
        coordinator.now) }
    ensures untouched { IfErr result
        (λ fault. fault ≢ AuditedFault.CannotWrite → O.contents out.new ≡ O.contents out.old) }
{
    match audit.conclude(alloc, reports, coordinator) {
        Ok(audited) if audited.is_finished => {
            print_run(out, plan, reports, &audited.steps, output, text).map_err(
                |_| AuditedFault::CannotWrite,
            )
        }
        Ok(_) => Err(AuditedFault::NotFinished(Cause::TurnsUsedUp)),
        Err(fault) => Err(AuditedFault::Unproved(AuditFailure::new(alloc, plan, fault))),
    }
}

/// The rows of reports as they are printed, before it is known whether they are proved: none where steps are printed,
/// or there is no memory for them.
pub(crate) fn text_of(
    alloc: Global,
    plan: &Plan,
    reports: &[Report],
    output: RunOutput,
) -> Option<Vec<u8>>
    ensures { IfSome result (λ text. IsTextOf output plan.now reports.now text.items) }
{
    match output {
        RunOutput::Rows(format) => {
            let mut text = Vec::new(alloc);
            print_reports(&mut text, plan, reports, format).ok()?;
            Some(text)
        }
        RunOutput::Steps => None,
    }
}

// Prints the rows of reports, which may stand as text already, or the steps that prove them.
fn print_run<O: Write>(
    out: &mut O,
    plan: &Plan,
    reports: &[Report],
    steps: &MadeSteps,
    output: RunOutput,
    text: Option<&[u8]>,
) -> Result<(), CannotWrite>
    requires text { IfSome text (λ text. IsTextOf output plan.now reports.now text.now) }
    ensures { OnOk result (Appends (O.contents out.old) (O.contents out.new)
        (printed_run output plan.now reports.now steps.now.steps)) }
{
    match (output, text) {
        (RunOutput::Rows(_), Some(text)) => print_text(out, text),
        (RunOutput::Rows(format), None) => print_reports(out, plan, reports, format),
        (RunOutput::Steps, _) => print_steps(out, plan, steps),
    }
}

// Prints a text.
fn print_text<O: Write>(out: &mut O, text: &[u8]) -> Result<(), CannotWrite>
    ensures { OnOk result (Appends (O.contents out.old) (O.contents out.new) text.now) }
{
    match out.write_all(text) {
        Ok(()) => Ok(()),
        Err(_) => Err(CannotWrite),
    }
}

// Prints steps as a schedule file.
fn print_steps<O: Write>(out: &mut O, plan: &Plan, steps: &MadeSteps) -> Result<(), CannotWrite>
    ensures { OnOk result (Appends (O.contents out.old) (O.contents out.new) (printed_steps plan.now steps.now.steps)) }
{
    for place in 0..steps.len() {
        if let Some(step) = steps.get(place) {
            print_step(out, plan, step)?;
        }
    }
    Ok(())
}

// Prints a step.
fn print_step<O: Write>(out: &mut O, plan: &Plan, step: Step) -> Result<(), CannotWrite>
    ensures { OnOk result (Appends (O.contents out.old) (O.contents out.new) (printed_steps plan.now (step ∷ []))) }
{
    match write_steps(out, plan, &[step]) {
        Ok(()) => Ok(()),
        Err(_) => Err(CannotWrite),
    }
}

// Prints the rows that each federate reports, federate by federate, under their heading.
fn print_reports<O: Write>(
    out: &mut O,
    plan: &Plan,
    reports: &[Report],
    format: RowFormat,
) -> Result<(), CannotWrite>
    ensures { OnOk result (Appends (O.contents out.old) (O.contents out.new)
        (printed_reports format plan.now reports.now)) }
{
    write_heading(out, format)?;
    for federate in 0..plan.federate_count() {
        print_report(out, plan, reports, federate, format)?;
    }
    Ok(())
}

// Prints the rows that a federate reports.
fn print_report<O: Write>(
    out: &mut O,
    plan: &Plan,
    reports: &[Report],
    federate: usize,
    format: RowFormat,
) -> Result<(), CannotWrite>
    ensures { OnOk result (Appends (O.contents out.old) (O.contents out.new)
        (formatted_rows format plan.now.federates (reported_rows reports.now federate))) }
{
    match report_of(reports, federate) {
        Some(report) => write_rows(out, plan, &report.rows, format),
        None => Ok(()),
    }
}
