//! Auditing report files and logs: those of a run's nodes, whoever brings them.
ghost use Rattle.std.specs.Prelude.{◌≡◌, ◌≢◌, ◌++◌, ◌∷◌, [], IfErr, IfOk, OnOk};
ghost use Rattle.node.specs.declared.event.Event.{Event as IsEvent};
ghost use Rattle.plan.specs.External.{AreInputsOf};
ghost use Rattle.plan.specs.Federation.{federate_count};
ghost use Rattle.reactor_programs.specs.Programs.{AreProgramsOf};
ghost use Rattle.recorder_reports.specs.declared.report.Report.{Report as IsReport};
ghost use Rattle.fedrun_run.specs.declared.output.RunOutput.TheVariants.{Rows};
ghost use Rattle.fedrun_run.specs.Printed.{PrintsReports};
ghost use Rattle.fedrun_files.specs.Answers.{Answers, given};
ghost use Rattle.fedrun_commands.specs.Faults.{status_of};
ghost use Rattle.fedrun_commands.specs.Printed.{PrintsFor};
ghost use Rattle.fedrun_commands.specs.Refused.{IsFaultOf};
ghost use Rattle.fedrun_commands.specs.ReportFiles.{all_given, AreFederateFiles, IsCoordinatorFile};
ghost use Rattle.fedrun_commands.specs.ReportFiles.{IsCoordinatorFileFault, IsFederateFile, IsFederateFileFault};
ghost use Rattle.fedrun_commands.specs.ReportFiles.{IsFirstFileFault, IsUnprinted};

use crate::fault::NodeFault;
use crate::printing::flush;
use fedrun_files::{Files, Sources, bytes_of, read_sources_and_bytes};
use fedrun_reports::{read_coordinator, take_federate};
use fedrun_run::{AuditedFault, RunOutput, print_audited};
use fedrun_words::{AuditRequest, Fault, Request};
use files_reports::FileDigests;
use files_reports::layout::LONGEST_REPORT;
use files_text::RowFormat;
use node_journal::Journal;
use recorder::IncrementalAudit;
use recorder_reports::{Collector, Report};
use std::alloc::Global;
use std::io::Write;

/// Prints the rows that nodes' files prove, reports or logs: the coordinator's, and each federate's, in any order. Files
/// are read in the order in which they are named, each before the next.
#[tactic(auto, using(fedrun_files::proofs::InTurn::answered_in_turn))]
pub(crate) fn audit<'a, F: Files, O: Write>(
    alloc: Global,
    request: &AuditRequest<'a>,
    files: &mut F,
    out: &mut O,
) -> Result<(), Fault<'a, NodeFault<'a>>>
    ensures ok { OnOk result (PrintsFor (F.contents files.old) (Request.Audit request.now) (O.contents out.old)
        (O.contents out.new)) }
    ensures stands { IfErr result (IsFaultOf (F.contents files.old)
        (Answers (F.answers files.old) (F.answers files.new)) (O.contents out.old) (O.contents out.new)
        (Request.Audit request.now)) }
    ensures untouched { IfErr result (λ fault. status_of fault ≢ 3 → out.new ≡ out.old) }
{
    let (sources, bytes) = match read_sources_and_bytes(
        alloc,
        request.federation,
        request.inputs,
        files,
    ) {
        Ok(read) => read,
        Err(fault) => return Err(fault),
    };
    let digests = FileDigests::new(bytes.federation.as_slice(), bytes.inputs.as_slice());
    drop(bytes);
    let journal = match read_coordinator_file(alloc, &digests, request.coordinator, files) {
        Ok(journal) => journal,
        Err(fault) => return Err(fault),
    };
    let mut collector = Collector::new(alloc, &sources.plan);
    let federates = request.federates.as_slice();
    match take_files(alloc, &digests, &sources, federates, &mut collector, files) {
        Ok(()) => print_reports(
            alloc,
            &sources,
            collector.reports(),
            &journal,
            request.format,
            out,
        ),
        Err(fault) => Err(fault),
    }
}

// The coordinator's journal, from its file of a run of these files.
fn read_coordinator_file<'a, F: Files>(
    alloc: Global,
    digests: &FileDigests,
    name: &'a str,
    files: &mut F,
) -> Result<Journal, Fault<'a, NodeFault<'a>>>
    ensures ok { IfOk result (λ journal. IsCoordinatorFile digests.now (F.contents files.old name.entry.now) journal) }
    ensures asked { OnOk result (Answers (F.answers files.old) (F.answers files.new) (given name.entry.now ∷ [])) }
    ensures err { IfErr result (IsCoordinatorFileFault digests.now name.entry (F.contents files.old)
        (Answers (F.answers files.old) (F.answers files.new))) }
    ensures early { IfErr result (λ fault. status_of fault ≡ 1) }
    ensures same { F.contents files.new ≡ F.contents files.old }
{
    let bytes = match bytes_of(name, files, LONGEST_REPORT) {
        Ok(bytes) => bytes,
        Err(fault) => return Err(fault),
    };
    match read_coordinator(alloc, digests, bytes.as_slice()) {
        Ok(journal) => Ok(journal),
        Err(why) => Err(Fault::More(NodeFault::ReportFile(name, why))),
    }
}

// Takes what the federates' files report, file by file.
#[tactic(auto, using(fedrun_files::proofs::InTurn::answered_in_turn))]
fn take_files<'a, F: Files>(
    alloc: Global,
    digests: &FileDigests,
    sources: &Sources,
    names: &[&'a str],
    collector: &mut Collector<'_>,
    files: &mut F,
) -> Result<(), Fault<'a, NodeFault<'a>>>
    requires programs { AreProgramsOf sources.now.plan sources.now.programs }
    requires inputs { AreInputsOf sources.now.plan sources.now.inputs }
    requires none { collector.old.reports ≡ [] }
    requires of_plan { collector.old.count ≡ federate_count sources.now.plan }
    ensures ok { OnOk result
        (AreFederateFiles (F.contents files.old) digests.now sources.now names.now collector.new.reports) }
    ensures asked { OnOk result (Answers (F.answers files.old) (F.answers files.new) (all_given names.now)) }
    ensures err { IfErr result (IsFirstFileFault digests.now sources.now names.now (F.contents files.old)
        (Answers (F.answers files.old) (F.answers files.new))) }
    ensures early { IfErr result (λ fault. status_of fault ≡ 1) }
{
    for name in names {
        match take_file(alloc, digests, sources, *name, collector, files) {
            Ok(()) => {}
            Err(fault) => return Err(fault),
        }
    }
    Ok(())
}

// Takes what a federate's file reports.
fn take_file<'a, F: Files>(
    alloc: Global,
    digests: &FileDigests,
    sources: &Sources,
    name: &'a str,
    collector: &mut Collector<'_>,
    files: &mut F,
) -> Result<(), Fault<'a, NodeFault<'a>>>
    requires programs { AreProgramsOf sources.now.plan sources.now.programs }
    requires inputs { AreInputsOf sources.now.plan sources.now.inputs }
    requires of_plan { collector.old.count ≡ federate_count sources.now.plan }
    ensures count { collector.new.count ≡ collector.old.count }
    ensures ok { OnOk result ((report : IsReport)
        × IsFederateFile digests.now sources.now (F.contents files.old name.entry.now) report
        × (collector.new.reports ≡ collector.old.reports ++ report ∷ [])) }
    ensures asked { OnOk result (Answers (F.answers files.old) (F.answers files.new) (given name.entry.now ∷ [])) }
    ensures err { IfErr result (IsFederateFileFault digests.now sources.now collector.old.reports name.entry
        (F.contents files.old) (Answers (F.answers files.old) (F.answers files.new))) }
    ensures early { IfErr result (λ fault. status_of fault ≡ 1) }
    ensures same { F.contents files.new ≡ F.contents files.old }
{
    let bytes = match bytes_of(name, files, LONGEST_REPORT) {
        Ok(bytes) => bytes,
        Err(fault) => return Err(fault),
    };
    match take_federate(alloc, sources, collector, digests, bytes.as_slice()) {
        Ok(()) => Ok(()),
        Err(why) => Err(Fault::More(NodeFault::ReportFile(name, why))),
    }
}

// Prints the rows of reports that an audit proves with the coordinator's journal.
fn print_reports<O: Write>(
    alloc: Global,
    sources: &Sources,
    reports: &[Report],
    journal: &Journal,
    format: RowFormat,
    out: &mut O,
) -> Result<(), Fault<'static, NodeFault<'static>>>
    requires programs { AreProgramsOf sources.now.plan sources.now.programs }
    requires inputs { AreInputsOf sources.now.plan sources.now.inputs }
    ensures ok { OnOk result (PrintsReports (Rows format) sources.now.plan sources.now.programs sources.now.inputs
        reports.now journal.now (O.contents out.old) (O.contents out.new)) }
    ensures stands { IfErr result (IsUnprinted sources.now reports.now journal.now (O.contents out.old)
        (O.contents out.new)) }
    ensures late { IfErr result (λ fault. status_of fault ≡ 3) }
{
    let Ok(audit) = IncrementalAudit::new(alloc, &sources.plan, &sources.programs, &sources.inputs)
    else {
        return Err(Fault::More(NodeFault::Run(desk::Memory)));
    };
    match print_audited(
        alloc,
        &sources.plan,
        audit,
        reports,
        journal,
        RunOutput::Rows(format),
        out,
    ) {
        Ok(()) => flush(out),
        Err(AuditedFault::NotFinished(cause)) => Err(Fault::More(NodeFault::NotFinished(cause))),
        Err(AuditedFault::Unproved(failure)) => Err(Fault::More(NodeFault::Unproved(failure))),
        Err(AuditedFault::Memory) => Err(Fault::More(NodeFault::Run(desk::Memory))),
        Err(AuditedFault::CannotWrite) => Err(Fault::CannotWrite),
    }
}
