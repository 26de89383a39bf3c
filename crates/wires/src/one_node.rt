//! One node's run, where each node has a process of its own.
ghost use Rattle.std.specs.List.{list_any};
ghost use Rattle.std.specs.Prelude.{◌≡◌, IfOk};

use crate::job::{Job, Work, WorkerResult};
use crate::jobs::{Connector, jobs_of_coordinator, jobs_of_federate};
use crate::lines::{CoordinatorLines, FederateLines};
use crate::nobody::{NoAcceptor, NoDial};
use crate::node_workers::NodeWorkers;
use crate::run_fault::RunFault;
use crate::runtime::Runtime;
use crate::share_channel::ShareChannel;
use crate::threads::start;
use desk::{Share, Shared};
use node::{Node, NodeId};
use std::alloc::Global;
use wires_transports::{Acceptor, Cut, Dial, Ending, Transport};
use wires_workers::Gate;

/// What the workers of one node leave.
#[derive(Drop)]
pub struct NodeResults {
    /// The shares that came back, from which the node's desk is gathered: `gather_desk`.
    pub shares: Vec<Share>,
    /// What each said at its end.
    pub workers: Vec<WorkerResult>,
}

/// Runs the coordinator in threads until `ending` is set: a worker sets it once the coordinator is finished, and
/// acceptor and watcher may before. Returns what its workers leave. All of them have ended when it returns, and
/// `ending` is set.
///
/// Acceptor and watcher end once `ending` is set, and the acceptor ends then what connections are left. Where a thread
/// can't be started, the others end: `NoThread`.
pub fn run_coordinator<
    R: Runtime,
    H: Node + Send,
    G: Gate + Sync,
    T: Transport + Send,
    C: Cut + Send + Sync,
    E: Acceptor + Send,
    W: Work + Send,
>(
    rt: &R,
    alloc: Global,
    shared: &Shared<H>,
    lines: CoordinatorLines<E, T, C>,
    watcher: W,
    gate: &G,
    ending: &Ending,
) -> Result<NodeResults, RunFault> {
    let results = coordinator_results(rt, alloc, shared, lines, watcher, gate, ending);
    ending.set();
    results
}

// Runs the coordinator's workers, and returns what they leave.
fn coordinator_results<
    R: Runtime,
    H: Node + Send,
    G: Gate + Sync,
    T: Transport + Send,
    C: Cut + Send + Sync,
    E: Acceptor + Send,
    W: Work + Send,
>(
    rt: &R,
    alloc: Global,
    shared: &Shared<H>,
    lines: CoordinatorLines<E, T, C>,
    watcher: W,
    gate: &G,
    ending: &Ending,
) -> Result<NodeResults, RunFault> {
    let CoordinatorLines { arrivals, acceptor } = lines;
    let count = arrivals.len();
    if arrivals.is_empty() {
        ending.set();
    }
    let workers: NodeWorkers<'_, H, T, C> = NodeWorkers::new(
        alloc,
        NodeId::Coordinator,
        shared,
        count,
        false,
    )?;
    let jobs: Vec<Job<'_, H, G, T, C, NoDial, E, W>> = jobs_of_coordinator(
        alloc,
        &workers,
        &arrivals,
        acceptor,
        Some(watcher),
        gate,
        ending,
    )?;
    run_jobs(rt, alloc, jobs, &workers.shares, ending)
}

// Starts a node's jobs, and waits for all of them; what they leave, and the shares that come back by this channel.
fn run_jobs<'a, R: Runtime, J: Work + Send + 'a>(
    rt: &R,
    alloc: Global,
    jobs: Vec<J>,
    shares: &ShareChannel,
    ending: &Ending,
) -> Result<NodeResults, RunFault> {
    let workers = start(rt, alloc, jobs, ending)?;
    let shares = shares.take_all(rt, alloc)?;
    Ok(NodeResults { shares, workers })
}

/// What a federate leaves that ran by itself.
#[derive(Drop)]
pub struct FederateRun {
    /// What its workers leave.
    pub results: NodeResults,
    /// Whether it ended since the coordinator acknowledged a signal that was never offered to it.
    pub shows_other_history: bool,
}

/// Runs a federate in threads until `ending` is set: a worker sets it once the turns are made, the federate's end is
/// closed, or the coordinator speaks of another history, and dial and watcher may before. Returns what its workers
/// leave, and whether the last of these was so. All of them have ended when it returns, and `ending` is set.
///
/// The thread that makes the connections owns the dial and lets it go at its end. Once `ending` is set the watcher ends
/// the connection on which the coordinator says nothing more, since nobody else is there to, and then itself. Where a
/// thread can't be started, the others end: `NoThread`.
pub fn run_federate<
    R: Runtime,
    M: Node + Send,
    G: Gate + Sync,
    T: Transport + Send,
    C: Cut + Send + Sync,
    D: Dial<T, C> + Drop + Send,
    W: Work + Send,
>(
    rt: &R,
    alloc: Global,
    shared: &Shared<M>,
    lines: FederateLines<D>,
    watcher: W,
    gate: &G,
    ending: &Ending,
) -> Result<FederateRun, RunFault>
    ensures history { IfOk result
        (λ run. run.shows_other_history ≡ list_any (λ left. left.shows_other_history) run.results.workers.items) }
{
    let results = federate_results::<R, M, G, T, C, D, W>(
        rt, alloc, shared, lines, watcher, gate, ending,
    );
    ending.set();
    let results = results?;
    let shows_other_history = shows_other_history(&results.workers);
    Ok(FederateRun {
        results,
        shows_other_history,
    })
}

// Whether one of the workers that left these ended since the coordinator speaks of another history.
fn shows_other_history(results: &[WorkerResult]) -> bool
    ensures { result ≡ list_any (λ left. left.shows_other_history) results.now }
{
    results.iter().any(|left| left.shows_other_history)
}

// Runs a federate's workers, and returns what they leave.
fn federate_results<
    R: Runtime,
    M: Node + Send,
    G: Gate + Sync,
    T: Transport + Send,
    C: Cut + Send + Sync,
    D: Dial<T, C> + Drop + Send,
    W: Work + Send,
>(
    rt: &R,
    alloc: Global,
    shared: &Shared<M>,
    lines: FederateLines<D>,
    watcher: W,
    gate: &G,
    ending: &Ending,
) -> Result<NodeResults, RunFault> {
    let FederateLines {
        number,
        dial,
        terms,
    } = lines;
    let workers: NodeWorkers<'_, M, T, C> = NodeWorkers::new(
        alloc,
        NodeId::Federate(number),
        shared,
        1,
        true,
    )?;
    let connector = Connector::Alone(dial, watcher);
    let jobs: Vec<Job<'_, M, G, T, C, D, NoAcceptor, W>> = jobs_of_federate(
        alloc, &workers, connector, terms, gate, ending,
    )?;
    run_jobs(rt, alloc, jobs, &workers.shares, ending)
}
