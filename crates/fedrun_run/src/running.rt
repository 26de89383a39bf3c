ghost use Rattle.std.specs.Prelude.{◌≡◌, ◌≢◌, length, List, Option, OnOk, IfOk, IfErr, IfSome, IsOkAnd};
ghost use Rattle.plan.specs.Federation.{federate_count};
ghost use Rattle.plan.specs.External.{AreInputsOf};
ghost use Rattle.reactor_programs.specs.Programs.{AreProgramsOf};
ghost use Rattle.wires.specs.declared.threads.RunResults.{RunResults as IsLeft};
ghost use Rattle.fedrun_run.specs.Reported.{AreReported};
ghost use Rattle.fedrun_run.specs.Printed.{PrintsAudited, IsAuditedFault, IsOfTheRun, IsTextOf};

use crate::node_reports::{NodeReports, reports_by};
use crate::printing::print_audited_text;
use crate::reporting::Reporting;
use crate::watching::watch;
use crate::{AuditedFault, RunOutput, coordinator_desk, federate_desks};
use coordinator::Coordinator;
use federate::Federate;
use fedrun_progress::Progress;
use node::Node;
use plan::{Inputs, Plan};
use reactor_programs::Programs;
use recorder::IncrementalAudit;
use std::alloc::Global;
use std::io::Write;
use std::thread;
use std::thread::Threads;
use wires::{NetRuntime, Nodes, RunFault, RunResults, Terms, run_over_tcp};
use wires_workers::NoGate;

/// Runs the federation in threads over TCP on loopback until the coordinator is finished or a federate's turns are
/// made, audits what its nodes wrote down, and prints each federate's rows, federate by federate, or the steps that
/// prove them. The caller flushes. That a run isn't finished comes before any failure of the audit.
pub fn print_audited_run<R: NetRuntime, O: Write, P: Progress + Sync>(
    rt: &R,
    alloc: Global,
    plan: &Plan,
    programs: &Programs,
    inputs: &Inputs,
    terms: Terms,
    output: RunOutput,
    out: &mut O,
    progress: &P,
) -> Result<(), AuditedFault>
    requires programs { AreProgramsOf plan.now programs.now }
    requires inputs { AreInputsOf plan.now inputs.now }
    ensures ok { OnOk result (PrintsAudited output plan.now programs.now inputs.now (O.contents out.old)
        (O.contents out.new)) }
    ensures fault { IfErr result (IsAuditedFault plan.now programs.now inputs.now) }
    ensures untouched { IfErr result
        (λ fault. fault ≢ AuditedFault.CannotWrite → O.contents out.new ≡ O.contents out.old) }
{
    progress.until(plan.stop_time());
    let Ok(audit) = IncrementalAudit::new(alloc, plan, programs, inputs) else {
        return Err(AuditedFault::Memory);
    };
    let Ok(nodes) = nodes_of(alloc, plan, programs, inputs) else {
        return Err(AuditedFault::Memory);
    };
    let (audit, node_reports) = run_and_ask(rt, alloc, plan, nodes, audit, terms, output, progress);
    progress.end();
    let node_reports = node_reports?;
    print_audited_text(
        alloc,
        plan,
        audit,
        node_reports.reports.reports(),
        &node_reports.coordinator,
        output,
        node_reports.text.as_deref(),
        out,
    )
}

// Runs the nodes, and asks them what they say, with the audit beside both.
fn run_and_ask<'a, R: NetRuntime, H: Node + Send, M: Reporting + Send, P: Progress + Sync>(
    rt: &R,
    alloc: Global,
    plan: &'a Plan,
    nodes: Nodes<H, M>,
    audit: IncrementalAudit<'a>,
    terms: Terms,
    output: RunOutput,
    progress: &P,
) -> (IncrementalAudit<'a>, Result<NodeReports<'a>, AuditedFault>)
    requires each { length nodes.federates.items ≡ federate_count plan.now }
    ensures audit { result.0 ≡ audit.entry }
    ensures reported { IfOk result.1
        (λ asked. (left : IsLeft)
        × AreReported H.core H.HUB M.core M.HUB M.tells left asked.reports.reports asked.coordinator) }
    ensures text { IfOk result.1 (λ asked.
        IfSome asked.text (λ text. IsTextOf output plan.now asked.reports.reports text.items)) }
    ensures fault { IfErr result.1 IsOfTheRun }
{
    let (audit, results) = run_watched(rt, alloc, &nodes, audit, terms, progress);
    take_apart(rt, alloc, plan, nodes, results, audit, output)
}

// Runs the nodes, and makes steps of the audit beside the run, or after it where there is no thread for that.
fn run_watched<'a, R: NetRuntime, H: Node + Send, M: Node + Send, P: Progress + Sync>(
    rt: &R,
    alloc: Global,
    nodes: &Nodes<H, M>,
    audit: IncrementalAudit<'a>,
    terms: Terms,
    progress: &P,
) -> (IncrementalAudit<'a>, Result<RunResults, RunFault>)
    ensures { result.0 ≡ audit.entry }
{
    thread::join(
        rt,
        ||
            ensures { result ≡ audit.entry }
        { watch(rt, alloc, nodes, audit, progress) },
        || run_counted(rt, alloc, nodes, terms, progress),
    )
}

// Runs the nodes, and tells what their workers counted.
fn run_counted<R: NetRuntime, H: Node + Send, M: Node + Send, P: Progress>(
    rt: &R,
    alloc: Global,
    nodes: &Nodes<H, M>,
    terms: Terms,
    progress: &P,
) -> Result<RunResults, RunFault> {
    let results = run_over_tcp(rt, alloc, nodes, &NoGate, terms);
    if let Ok(left) = &results {
        progress.ran(&left.counts());
    }
    results
}

// Takes the desks apart, and writes their rows as text, and makes what is left of the audit's steps beside that.
fn take_apart<'a, R: Threads + Sync, H: Node + Send, M: Reporting + Send>(
    rt: &R,
    alloc: Global,
    plan: &'a Plan,
    nodes: Nodes<H, M>,
    results: Result<RunResults, RunFault>,
    mut audit: IncrementalAudit<'a>,
    output: RunOutput,
) -> (IncrementalAudit<'a>, Result<NodeReports<'a>, AuditedFault>)
    requires each { length nodes.federates.items ≡ federate_count plan.now }
    ensures audit { result.0 ≡ audit.entry }
    ensures reported { IfOk result.1
        (λ asked. IsOkAnd results (λ left.
        AreReported H.core H.HUB M.core M.HUB M.tells left asked.reports.reports asked.coordinator)) }
    ensures text { IfOk result.1 (λ asked.
        IfSome asked.text (λ text. IsTextOf output plan.now asked.reports.reports text.items)) }
    ensures fault { IfErr result.1 IsOfTheRun }
{
    thread::join(
        rt,
        ||
            ensures { result ≡ audit.entry }
        {
            audit.go_on(alloc);
            audit
        },
        ||
            requires { length nodes.federates.items ≡ federate_count plan.now }
            ensures reported { IfOk result
                (λ asked. IsOkAnd results (λ left.
                AreReported H.core H.HUB M.core M.HUB M.tells left asked.reports.reports asked.coordinator)) }
            ensures text { IfOk result (λ asked.
                IfSome asked.text (λ text. IsTextOf output plan.entry.now asked.reports.reports text.items)) }
            ensures fault { IfErr result IsOfTheRun }
        { reports_by(alloc, plan, nodes, results, output) },
    )
}

// The desks of all nodes of a federation, before their workers begin.
fn nodes_of<'a>(
    alloc: Global,
    plan: &'a Plan,
    programs: &'a Programs,
    inputs: &'a Inputs,
) -> Result<Nodes<Coordinator<'a>, Federate<'a>>, RunFault>
    requires programs { AreProgramsOf plan.now programs.now }
    requires inputs { AreInputsOf plan.now inputs.now }
    ensures each { IfOk result (λ nodes. length nodes.federates.items ≡ federate_count plan.now) }
{
    let Ok(federates) = federate_desks(alloc, plan, programs, inputs) else {
        return Err(RunFault::Memory);
    };
    let Ok(coordinator) = coordinator_desk(alloc, plan) else {
        return Err(RunFault::Memory);
    };
    Nodes::new(alloc, coordinator, federates)
}
