//! What the desks of a finished run's nodes say.
ghost use Rattle.std.specs.Prelude.{◌≡◌, true, false, length, [], ◌∷◌, ◌++◌, IfErr, IfOk, IfSome, IsOkAnd, OnOk, Err};
ghost use Rattle.plan.specs.Federation.{federate_count};
ghost use Rattle.recorder_reports.specs.Reports.{IsFirst};
ghost use Rattle.wires.specs.Gathered.{AreGathered};
ghost use Rattle.wires.specs.declared.run_fault.Cause.TheVariants.{TurnsUsedUp};
ghost use Rattle.fedrun_run.specs.Printed.{IsOfTheRun, IsTextOf, fault_of_run};
ghost use Rattle.fedrun_run.specs.Reported.{IsReportOf, AreReportsOf, AreReported};

use crate::printing::text_of;
use crate::reporting::Reporting;
use crate::{AuditedFault, RunOutput};
use desk::Desk;
use node::Node;
use node_journal::Journal;
use plan::Plan;
use recorder_reports::{Collector, Report, ReportFault};
use std::alloc::Global;
use wires::{Cause, Gathered, Nodes, RunFault, RunResults};

/// What the nodes of a finished run say.
#[derive(Drop)]
pub(crate) struct NodeReports<'a> {
    /// What each federate reports.
    pub reports: Collector<'a>,
    /// The coordinator's journal.
    pub coordinator: Journal,
    /// Their rows as they are printed, where they stand as text already.
    pub text: Option<Vec<u8>>,
}

/// What all nodes say, when all their workers have ended, from what these leave. That a run isn't finished comes before
/// anything of a report. Their rows are written as text.
pub(crate) fn reports_by<'a, H: Node, M: Reporting>(
    alloc: Global,
    plan: &'a Plan,
    nodes: Nodes<H, M>,
    results: Result<RunResults, RunFault>,
    output: RunOutput,
) -> Result<NodeReports<'a>, AuditedFault>
    requires each { length nodes.federates.items ≡ federate_count plan.now }
    ensures ok { IfOk result (λ asked.
        IsOkAnd results (λ left. AreReported H.core H.HUB M.core M.HUB M.tells left
        asked.reports.reports
        asked.coordinator)) }
    ensures text { IfOk result (λ asked.
        IfSome asked.text (λ text. IsTextOf output plan.now asked.reports.reports text.items)) }
    ensures fault { IfErr result IsOfTheRun }
{
    let gathered = finished(gathered(alloc, nodes, results))?;
    let Ok(reports) = reports_of(alloc, plan, gathered.federates) else {
        return Err(AuditedFault::Memory);
    };
    let (_, coordinator) = gathered.coordinator.into_parts();
    let text = text_of(alloc, plan, reports.reports(), output);
    Ok(NodeReports {
        reports,
        coordinator,
        text,
    })
}

// The desks of all nodes, when all their workers have ended.
fn gathered<H: Node, M: Node>(
    alloc: Global,
    nodes: Nodes<H, M>,
    results: Result<RunResults, RunFault>,
) -> Result<Gathered<H, M>, RunFault>
    ensures each { IfOk result (λ gathered. length gathered.federates.items ≡ length nodes.federates.items) }
    ensures shares { IfOk result (λ gathered.
        IsOkAnd results (λ left. AreGathered gathered.coordinator gathered.federates.items left)) }
    ensures run { IfErr results (λ why. result ≡ Err why) }
{
    match results {
        Ok(results) => nodes.gather(alloc, results),
        Err(fault) => Err(fault),
    }
}

// The same desks, where the coordinator is finished.
fn finished<H: Node, M: Node>(
    gathered: Result<Gathered<H, M>, RunFault>,
) -> Result<Gathered<H, M>, AuditedFault>
    ensures same { IfOk result (λ desks. gathered ≡ Ok desks) }
    ensures finished { IfOk result (λ desks. H.core.finished desks.coordinator.station.node ≡ true) }
    ensures unfinished { IfErr result
        (λ fault. IfOk gathered (λ desks. (H.core.finished desks.coordinator.station.node ≡ false)
        × (fault ≡ AuditedFault.NotFinished TurnsUsedUp))) }
    ensures fault { IfErr result (λ fault. IfErr gathered (λ why. fault ≡ fault_of_run why)) }
{
    match gathered {
        Ok(desks) => {
            if desks.coordinator.station().node().finished() {
                Ok(desks)
            } else {
                Err(AuditedFault::NotFinished(Cause::TurnsUsedUp))
            }
        }
        Err(why) => Err(fault_of_run(why)),
    }
}

// Why a run gives no desks, as the fault that is printed.
fn fault_of_run(why: RunFault) -> AuditedFault
    ensures { result ≡ fault_of_run why }
{
    match why {
        RunFault::NotFinished(cause) => AuditedFault::NotFinished(cause),
        RunFault::Memory => AuditedFault::Memory,
    }
}

// What each federate reports. There are as many desks as federates, so nothing but memory can be lacking.
fn reports_of<'a, M: Reporting>(
    alloc: Global,
    plan: &'a Plan,
    desks: Vec<Desk<M>>,
) -> Result<Collector<'a>, ReportFault>
    requires each { length desks.items ≡ federate_count plan.now }
    ensures ok { IfOk result (λ collected. AreReportsOf M.core M.HUB M.tells desks.items collected.reports) }
    ensures memory { IfErr result (λ fault. fault ≡ ReportFault.Memory) }
{
    let mut reports = Collector::new(alloc, plan);
    for desk in desks {
        let federate = reports.reports().len();
        add(&mut reports, report(federate, desk))?;
    }
    Ok(reports)
}

// Adds the first report of a federate that is there.
fn add(reports: &mut Collector<'_>, report: Report) -> Result<(), ReportFault>
    requires first { IsFirst reports.old report }
    ensures count { reports.new.count ≡ reports.old.count }
    ensures taken { OnOk result (reports.new.reports ≡ reports.old.reports ++ report ∷ []) }
    ensures memory { IfErr result (λ fault. fault ≡ ReportFault.Memory) }
{
    match reports.add(report) {
        Ok(()) => Ok(()),
        Err(refused) => Err(refused.fault),
    }
}

// What a federate's desk says: the node's rows, and the journal.
fn report<M: Reporting>(federate: usize, desk: Desk<M>) -> Report
    ensures { IsReportOf M.core M.HUB M.tells federate desk result }
{
    let (station, journal) = desk.into_parts();
    station.into_node().report(federate, journal)
}
