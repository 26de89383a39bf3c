//! What is seen of a run: what its nodes leave, and what an audit says of that and prints.
use crate::journals::events_of;
use crate::left::Left;
use fedrun_run::{AuditFailure, AuditedFault, RunOutput, print_audited};
use files_text::RowFormat;
use node::Event;
use node_journal::Journal;
use reactor::Rows;
use recorder::{IncrementalAudit, Report};
use std::alloc::Global;
use tests_samples::{Federation, are_rows_of, undivided};
use wires_traffic::RunCounts;

/// What is seen of a node after a run.
#[derive(Drop)]
pub(crate) struct NodeSeen {
    pub(crate) events: Vec<Event>,
    pub(crate) rows: usize,
    /// Whether its ends for its first two peers are closed.
    pub(crate) closed: [bool; 2],
}

impl NodeSeen {
    /// How often an event came to it.
    pub(crate) fn count_of(&self, event: &Event) -> usize {
        self.events.iter().filter(|other| **other == *event).count()
    }
}

/// What is seen of a run.
#[derive(Drop)]
pub(crate) struct Seen {
    pub(crate) coordinator: NodeSeen,
    pub(crate) federates: Vec<NodeSeen>,
    pub(crate) counts: RunCounts,
    /// Whether the coordinator is finished.
    pub(crate) is_finished: bool,
    /// Whether it is, each federate has its rows of the undivided program, and an audit proves them.
    pub(crate) is_right: bool,
    /// Whether an audit is stuck on the coordinator's journal, and no row is printed; where there is a blank federate,
    /// with the report of the one whose place it took as with its own.
    pub(crate) is_disbelieved: bool,
}

// Prints the rows of these reports as they are printed after a run.
fn print(
    alloc: Global,
    federation: &Federation,
    reports: &[Report],
    coordinator: &Journal,
    out: &mut Vec<u8>,
) -> Result<(), AuditedFault> {
    let plan = federation.plan();
    let Ok(audit) = IncrementalAudit::new(alloc, plan, federation.programs(), federation.inputs())
    else {
        return Err(AuditedFault::Memory);
    };
    let rows = RunOutput::Rows(RowFormat::Text);
    print_audited(alloc, plan, audit, reports, coordinator, rows, out)
}

// Whether an audit proves them, and the coordinator is finished.
fn is_believed(
    alloc: Global,
    federation: &Federation,
    reports: &[Report],
    coordinator: &Journal,
) -> bool {
    let mut out = Vec::new(alloc);
    print(alloc, federation, reports, coordinator, &mut out).is_ok()
}

// Whether an audit is stuck on the coordinator's journal, and no row is printed.
fn is_disbelieved(
    alloc: Global,
    federation: &Federation,
    reports: &[Report],
    coordinator: &Journal,
) -> bool {
    let mut out = Vec::new(alloc);
    match print(alloc, federation, reports, coordinator, &mut out) {
        Err(fault) => is_stuck(&fault) && out.is_empty(),
        Ok(()) => false,
    }
}

// Whether an audit is stuck on the coordinator's journal.
fn is_stuck(fault: &AuditedFault) -> bool {
    match fault {
        AuditedFault::Unproved(AuditFailure::Stuck { node, event: _ }) => {
            node.as_str() == "coordinator"
        }
        _ => false,
    }
}

// Whether each of these reports has its federate's rows among all.
fn have_rows(reports: &[Report], all: &Rows) -> bool {
    for report in reports {
        if !are_rows_of(&report.rows, report.federate, all) {
            return false;
        }
    }
    true
}

// Whether each of them has its federate's rows of the undivided program.
fn have_all_rows(alloc: Global, federation: &Federation, reports: &[Report]) -> bool {
    match undivided(alloc, federation) {
        Some(whole) => have_rows(reports, whole.rows()),
        None => false,
    }
}

// What is seen of a node.
fn node_seen(alloc: Global, journal: &Journal, rows: usize, closed: [bool; 2]) -> Option<NodeSeen> {
    Some(NodeSeen {
        events: events_of(alloc, journal)?,
        rows,
        closed,
    })
}

// What is seen of each federate.
fn federates_seen(alloc: Global, left: &Left) -> Option<Vec<NodeSeen>> {
    let mut seen = Vec::new(alloc);
    for (report, is_closed) in left.reports.iter().zip(left.closed.iter()) {
        let closed = [*is_closed, false];
        let federate = node_seen(alloc, &report.journal, report.rows.len(), closed)?;
        seen.push(federate).ok()?;
    }
    Some(seen)
}

// The same where it isn't looked at yet what an audit says.
fn unjudged(alloc: Global, left: &Left) -> Option<Seen> {
    let coordinator = &left.coordinator;
    Some(Seen {
        coordinator: node_seen(alloc, &coordinator.journal, 0, coordinator.closed)?,
        federates: federates_seen(alloc, left)?,
        counts: left.counts,
        is_finished: coordinator.is_finished,
        is_right: false,
        is_disbelieved: false,
    })
}

// Looks at what an audit says of these reports.
fn judge(
    alloc: Global,
    federation: &Federation,
    reports: &[Report],
    coordinator: &Journal,
    seen: &mut Seen,
) {
    seen.is_right = seen.is_finished
        && have_all_rows(alloc, federation, reports)
        && is_believed(alloc, federation, reports, coordinator);
    seen.is_disbelieved = !seen.is_right && is_disbelieved(alloc, federation, reports, coordinator);
}

// Has the blank federate's report, the last of three, stand in the place of the second's.
fn put_blank(reports: &mut Vec<Report>) -> Option<()> {
    let mut blank = reports.pop()?;
    reports.pop()?;
    blank.federate = 1;
    reports.push(blank).ok()
}

/// What is seen of a run whose nodes left this; None where there is no memory for it.
pub(crate) fn seen_of(alloc: Global, federation: &Federation, left: &mut Left) -> Option<Seen> {
    let mut seen = unjudged(alloc, left)?;
    let count = federation.plan().federate_count();
    judge(
        alloc,
        federation,
        left.reports.as_slice().get(..count)?,
        &left.coordinator.journal,
        &mut seen,
    );
    if left.reports.len() > count {
        put_blank(&mut left.reports)?;
        let journal = &left.coordinator.journal;
        seen.is_disbelieved = seen.is_disbelieved
            && is_disbelieved(alloc, federation, &left.reports, journal);
    }
    Some(seen)
}

/// The first of these that isn't so.
pub(crate) fn first_wrong(checks: &[(bool, &'static str)]) -> Option<&'static str> {
    for (is_so, what) in checks {
        if !*is_so {
            return Some(*what);
        }
    }
    None
}
