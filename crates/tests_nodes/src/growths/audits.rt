//! Reports of desks are collected and audited. A report that is refused is handed back, an audit that is out of memory
//! may be made again, and one that is begun while journals grow goes on.
use crate::growths::is_so_of_counter;
use crate::growths::runs::{Run, played};
use crate::rows::are_first;
use desk::Desk;
use federate::Federate;
use node::NodeId;
use node_journal::Journal;
use recorder::{Collector, IncrementalAudit, Refused, Report, Unproved, audit};
use std::alloc::Global;
use tests_samples::Federation;
use world_stations::Step;

// ---- reports

// What a federate's desk says.
fn report_of(federate: usize, desk: Desk<Federate<'_>>) -> Report {
    let (station, journal) = desk.into_parts();
    Report {
        federate,
        rows: station.into_node().into_rows(),
        journal,
    }
}

// Whose report this is, and how many rows and events it has.
fn size_of(report: &Report) -> [usize; 3] {
    [report.federate, report.rows.len(), report.journal.len()]
}

// Whether a report is taken: at once, or where it was out of memory and handed back, and all is as before, the next
// time.
fn takes(collector: &mut Collector<'_>, report: Report) -> bool {
    let (size, count) = (size_of(&report), collector.reports().len());
    match collector.add(report) {
        Ok(()) => true,
        Err(Refused { report, fault }) => fault.number() == 85
            && size_of(&report) == size
            && collector.reports().len() == count
            && collector.add(report).is_ok(),
    }
}

// Whether each report has all rows of its federate.
fn are_whole(reports: &[Report]) -> bool {
    for report in reports {
        if !are_first(&report.rows, report.federate, 3) {
            return false;
        }
    }
    reports.len() == 2
}

/// What the nodes of a run say.
#[derive(Clone, Copy)]
struct Claim<'a> {
    federation: &'a Federation,
    reports: &'a [Report],
    coordinator: &'a Journal,
}

// ---- audits

fn audited(alloc: Global, claim: &Claim<'_>) -> Result<Vec<Step>, Unproved> {
    let federation = claim.federation;
    audit(
        alloc,
        federation.plan(),
        federation.programs(),
        federation.inputs(),
        claim.reports,
        claim.coordinator,
    )
}

// Whether an audit believes what they say, at the second attempt where the first was out of memory.
fn is_audited(alloc: Global, claim: &Claim<'_>) -> bool {
    match audited(alloc, claim) {
        Ok(_) => true,
        Err(fault) => fault.number() == 85 && audited(alloc, claim).is_ok(),
    }
}

// ---- audits of journals that grow

// Whether an audit knows these events of a node too: at once, or where it was out of memory and knows none of them, the
// next time.
fn learns(audit: &mut IncrementalAudit<'_>, node: NodeId, events: &Journal) -> bool {
    let known = audit.known(node);
    if audit.add(node, events).is_err() {
        if audit.known(node) != known || audit.add(node, events).is_err() {
            return false;
        }
    }
    audit.known(node) == known.saturating_add(events.len())
}

// Whether it knows the first half of a node's journal too, or the second.
fn learns_half(
    alloc: Global,
    audit: &mut IncrementalAudit<'_>,
    node: NodeId,
    journal: &Journal,
    is_first: bool,
) -> bool {
    let middle = journal.len() / 2;
    let place = if is_first { 0 } else { middle };
    let most = if is_first { middle } else { journal.len() };
    let mut half = Journal::new(alloc);
    if half.append(journal, place, most).is_err() && half.append(journal, place, most).is_err() {
        return false;
    }
    learns(audit, node, &half)
}

// Whether it knows a half of each journal too. Then it goes on.
fn goes_on(
    alloc: Global,
    audit: &mut IncrementalAudit<'_>,
    claim: &Claim<'_>,
    is_first: bool,
) -> bool {
    if !learns_half(
        alloc,
        audit,
        NodeId::Coordinator,
        claim.coordinator,
        is_first,
    ) {
        return false;
    }
    for report in claim.reports {
        let node = NodeId::Federate(report.federate);
        if !learns_half(alloc, audit, node, &report.journal, is_first) {
            return false;
        }
    }
    audit.go_on(alloc);
    true
}

// An audit of which nothing is known, at the second attempt where the first was out of memory.
fn begun<'a>(alloc: Global, federation: &'a Federation) -> Option<IncrementalAudit<'a>> {
    let plan = federation.plan();
    let programs = federation.programs();
    let inputs = federation.inputs();
    match IncrementalAudit::new(alloc, plan, programs, inputs) {
        Ok(audit) => Some(audit),
        Err(fault) if fault.number() == 85 => {
            IncrementalAudit::new(alloc, plan, programs, inputs).ok()
        }
        Err(_) => None,
    }
}

// Whether an audit that went on after each half of the journals has lost no step, and has memory for its end, at which
// it believes a finished run; None where it doesn't believe one.
fn concludes(alloc: Global, claim: &Claim<'_>) -> Option<bool> {
    let mut audit = begun(alloc, claim.federation)?;
    let knows_all = goes_on(alloc, &mut audit, claim, true)
        && goes_on(alloc, &mut audit, claim, false);
    let has_all = !audit.is_given_up();
    match audit.conclude(alloc, claim.reports, claim.coordinator) {
        Ok(audited) if knows_all && audited.is_finished => Some(has_all),
        Err(fault) if fault.number() == 85 => Some(false),
        _ => None,
    }
}

// The same of one of two audits at least: one request at most is refused, and only where steps were lost by that
// nothing more is of use.
fn concludes_once(alloc: Global, claim: &Claim<'_>) -> bool {
    match (concludes(alloc, claim), concludes(alloc, claim)) {
        (Some(first), Some(second)) => first || second,
        _ => false,
    }
}

// ---- all of it

// Whether what the nodes of a run say is taken and believed.
fn is_run_believed(alloc: Global, federation: &Federation) -> bool {
    match played(alloc, federation) {
        Some(run) => is_believed(alloc, federation, run),
        None => false,
    }
}

fn is_believed(alloc: Global, federation: &Federation, run: Run<'_>) -> bool {
    let Run {
        coordinator,
        src,
        snk,
    } = run;
    let mut collector = Collector::new(alloc, federation.plan());
    takes(&mut collector, report_of(0, src))
        && takes(&mut collector, report_of(1, snk))
        && is_claim_believed(
            alloc,
            &Claim {
                federation,
                reports: collector.reports(),
                coordinator: coordinator.journal(),
            },
        )
}

fn is_claim_believed(alloc: Global, claim: &Claim<'_>) -> bool {
    are_whole(claim.reports) && is_audited(alloc, claim) && concludes_once(alloc, claim)
}

#[test]
fn believes_the_same_reports_after_a_refusal(rt: HostRuntime) {
    let alloc = rt.alloc();
    assert!(rt; is_so_of_counter(alloc, |counter| is_run_believed(alloc, counter)));
}
