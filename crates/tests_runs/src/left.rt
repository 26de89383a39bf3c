//! What the nodes of a run leave, as plain data.
use coordinator::Coordinator;
use desk::Desk;
use federate::Federate;
use node::{Node, Station};
use node_journal::Journal;
use recorder::Report;
use std::alloc::Global;
use wires::Gathered;
use wires_traffic::{Counts, RunCounts};

/// What the nodes of a run leave.
#[derive(Drop)]
pub(crate) struct Left {
    pub(crate) coordinator: CoordinatorLeft,
    /// Whether each federate's end is closed.
    pub(crate) closed: Vec<bool>,
    pub(crate) reports: Vec<Report>,
    pub(crate) counts: RunCounts,
}

/// What the coordinator leaves.
#[derive(Drop)]
pub(crate) struct CoordinatorLeft {
    pub(crate) journal: Journal,
    pub(crate) is_finished: bool,
    /// Whether its ends for the first two federates are closed.
    pub(crate) closed: [bool; 2],
}

/// What a federate leaves.
#[derive(Drop)]
pub(crate) struct FederateLeft {
    pub(crate) is_closed: bool,
    pub(crate) report: Report,
    pub(crate) counts: Counts,
}

// Whether a station's end for a peer is closed.
fn is_closed<N: Node>(station: &Station<N>, peer: usize) -> bool {
    match station.end(peer) {
        Some(end) => end.is_closed(),
        None => false,
    }
}

/// What the coordinator leaves.
pub(crate) fn coordinator_left(desk: Desk<Coordinator<'_>>) -> CoordinatorLeft {
    let (station, journal) = desk.into_parts();
    CoordinatorLeft {
        journal,
        is_finished: station.node().finished(),
        closed: [is_closed(&station, 0), is_closed(&station, 1)],
    }
}

/// What the federate of this number leaves, whose workers counted this.
pub(crate) fn federate_left(
    federate: usize,
    desk: Desk<Federate<'_>>,
    counts: Counts,
) -> FederateLeft {
    let (station, journal) = desk.into_parts();
    FederateLeft {
        is_closed: is_closed(&station, 0),
        report: Report {
            federate,
            rows: station.into_node().into_rows(),
            journal,
        },
        counts,
    }
}

impl Left {
    /// What the coordinator leaves, whose workers counted this, and no federate yet.
    pub(crate) fn new(alloc: Global, coordinator: CoordinatorLeft, counts: Counts) -> Left {
        Left {
            coordinator,
            closed: Vec::new(alloc),
            reports: Vec::new(alloc),
            counts: RunCounts {
                coordinator: counts,
                federates: Counts::none(),
            },
        }
    }

    /// And this federate. None without memory for it.
    pub(crate) fn add(&mut self, left: FederateLeft) -> Option<()> {
        let FederateLeft {
            is_closed,
            report,
            counts,
        } = left;
        self.counts.federates = self.counts.federates.plus(counts);
        self.closed.push(is_closed).ok()?;
        self.reports.push(report).ok()
    }
}

/// What the nodes leave that were gathered, whose workers counted this. None without memory for it.
pub(crate) fn left_of(
    alloc: Global,
    gathered: Gathered<Coordinator<'_>, Federate<'_>>,
    counts: RunCounts,
) -> Option<Left> {
    let Gathered {
        coordinator,
        federates,
    } = gathered;
    let mut left = Left::new(alloc, coordinator_left(coordinator), counts.coordinator);
    add_all(&mut left, federates)?;
    left.counts = counts;
    Some(left)
}

fn add_all(left: &mut Left, federates: Vec<Desk<Federate<'_>>>) -> Option<()> {
    let mut is_added = true;
    for (number, desk) in federates.into_iter().enumerate() {
        let one = federate_left(number, desk, Counts::none());
        is_added = left.add(one).is_some() && is_added;
    }
    if is_added { Some(()) } else { None }
}
