//! Nodes that run each by itself, as `coordinate` and `join` run them: each in a thread in the place of a process.
//!
//! Each node's run has an end of its own. That the coordinator's run is at its end a federate hears where it would
//! connect, as the greeting between machines says it. The coordinator's ends at the latest with all federates' runs, as
//! it does where nobody was heard for its patience.
ghost use Rattle.std.specs.Thread.{IsSend, IsSync};

use crate::left::{FederateLeft, Left, coordinator_left, federate_left};
use crate::nodes::desk_of;
use crate::tap::{Tap, TapGate};
use crossbeam_channel::Receiver;
use desk::Shared;
use federate::Federate;
use fedrun_run::coordinator_desk;
use std::alloc::Global;
use std::sync::Wait;
use std::thread;
use std::time::{Clock, Duration};
use tests_samples::Federation;
use wires::{
    CoordinatorLines, FederateLines, NoAcceptor, NoWatcher, NodeResults, Runtime, Work,
    WorkerResult, counts_of, gather_desk, run_coordinator, run_federate,
};
use wires_transports::{Accepted, Cut, Dial, Ending, Transport};

/// Whether the runs are to end: the coordinator's, and each federate's by its number.
#[derive(Drop)]
pub(crate) struct Endings {
    coordinator: Ending,
    federates: Vec<Ending>,
}

impl Endings {
    /// All runs go on; None where there is no memory.
    pub(crate) fn new(alloc: Global, federates: usize) -> Option<Endings> {
        let mut endings = Vec::with_capacity(alloc, federates).ok()?;
        for _ in 0..federates {
            endings.push(Ending::new()).ok()?;
        }
        Some(Endings {
            coordinator: Ending::new(),
            federates: endings,
        })
    }

    /// Whether the coordinator's run is to end. Then the run of the federate that hears so is to end, too.
    pub(crate) fn is_coordinator_ending(&self, federate: usize) -> bool {
        if !self.coordinator.is_set() {
            return false;
        }
        if let Some(own) = self.federates.get(federate) {
            own.set();
        }
        true
    }

    // Whether all federates' runs are to end.
    fn are_federates_ending(&self) -> bool {
        for ending in &self.federates {
            if !ending.is_set() {
                return false;
            }
        }
        true
    }
}

/// Ends the coordinator's run once all federates' runs are to end.
#[derive(Drop)]
struct EndWithFederates<'r> {
    endings: &'r Endings,
}

impl<'r> Work for EndWithFederates<'r> {
    fn work<R: Wait + Clock>(self, rt: &R, _alloc: Global) -> WorkerResult {
        let ending = &self.endings.coordinator;
        for _ in rt.forever() {
            if ending.is_set() || self.endings.are_federates_ending() {
                break;
            }
            thread::sleep(rt, Duration::from_millis(1));
        }
        ending.set();
        WorkerResult::none()
    }
}

// Runs a federate to its end; what it leaves.
fn ran<
    'f,
    'g,
    R: Runtime,
    P: Tap + Sync,
    D: Dial<T, C> + Drop + Send,
    T: Transport + Send,
    C: Cut + Send + Sync,
>(
    rt: &R,
    alloc: Global,
    federation: &'f Federation,
    lines: FederateLines<D>,
    gate: &TapGate<'g, P>,
    endings: &Endings,
) -> Option<FederateLeft> {
    let number = lines.number;
    let ending = endings.federates.get(number)?;
    let shared = Shared::new(desk_of(alloc, federation, number)?);
    let run = run_federate::<R, Federate<'f>, TapGate<'g, P>, T, C, D, NoWatcher>(
        rt, alloc, &shared, lines, NoWatcher, gate, ending,
    );
    let NodeResults { shares, workers } = run.ok()?.results;
    let counts = counts_of(workers.as_slice());
    let desk = gather_desk(shared, shares).ok()?;
    Some(federate_left(number, desk, counts))
}

// Runs each federate in a thread; what they leave.
fn all_ran<
    R: Runtime,
    P: Tap + Sync,
    D: Dial<T, C> + Drop + Send,
    T: Transport + Send,
    C: Cut + Send + Sync,
>(
    rt: &R,
    alloc: Global,
    federation: &Federation,
    lines: Vec<FederateLines<D>>,
    gate: &TapGate<'_, P>,
    endings: &Endings,
) -> Option<Vec<Option<FederateLeft>>> {
    let ends = thread::map_vec(
        rt,
        lines,
        &|own| -> Option<FederateLeft>
            requires { IsSync R.row × IsSync P.row × IsSend D.row × IsSend T.row × IsSend C.row × IsSync C.row }
        { ran::<R, P, D, T, C>(rt, alloc, federation, own, gate, endings) },
    );
    ends.ok()
}

// Runs the coordinator to its end; what it leaves.
fn coordinator_ran<R: Runtime, P: Tap + Sync, T: Transport + Send, C: Cut + Send + Sync>(
    rt: &R,
    alloc: Global,
    federation: &Federation,
    arrivals: Vec<Receiver<Accepted<T, C>>>,
    gate: &TapGate<'_, P>,
    endings: &Endings,
) -> Option<Left> {
    let shared = Shared::new(coordinator_desk(alloc, federation.plan()).ok()?);
    let lines = CoordinatorLines {
        arrivals,
        acceptor: NoAcceptor,
    };
    let watcher = EndWithFederates { endings };
    let ending = &endings.coordinator;
    let run = run_coordinator(rt, alloc, &shared, lines, watcher, gate, ending);
    let NodeResults { shares, workers } = run.ok()?;
    let counts = counts_of(workers.as_slice());
    let desk = gather_desk(shared, shares).ok()?;
    Some(Left::new(alloc, coordinator_left(desk), counts))
}

// Adds what each federate left, where each has.
fn add_all(left: &mut Left, federates: Vec<Option<FederateLeft>>) -> Option<()> {
    for one in federates {
        add_one(left, one)?;
    }
    Some(())
}

fn add_one(left: &mut Left, federate: Option<FederateLeft>) -> Option<()> {
    left.add(federate?)
}

/// What nodes leave that have run each by itself, where federates are connected so, and their connections come there.
pub(crate) fn run_apart<
    R: Runtime,
    P: Tap + Sync,
    D: Dial<T, C> + Drop + Send,
    T: Transport + Send,
    C: Cut + Send + Sync,
>(
    rt: &R,
    alloc: Global,
    federation: &Federation,
    lines: Vec<FederateLines<D>>,
    arrivals: Vec<Receiver<Accepted<T, C>>>,
    gate: &TapGate<'_, P>,
    endings: &Endings,
) -> Option<Left> {
    let (federates, coordinator) = thread::join(
        rt,
        || all_ran::<R, P, D, T, C>(rt, alloc, federation, lines, gate, endings),
        || coordinator_ran(rt, alloc, federation, arrivals, gate, endings),
    );
    let mut left = coordinator?;
    add_all(&mut left, federates?)?;
    Some(left)
}
