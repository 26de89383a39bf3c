//! The jobs of one node, in the order in which they are started.
use crate::job::Job;
use crate::node_workers::NodeWorkers;
use crate::run_fault::RunFault;
use crate::terms::Terms;
use crossbeam_channel::Receiver;
use node::Node;
use signal::wire::BATCHING;
use std::alloc::Global;
use wires_transports::{Accepted, Ending};
use wires_workers::Gate;

/// The coordinator's jobs. The acceptor is started last. Where a thread before it can't be started it never runs:
/// nobody is told that the run is finished, and its ends of the channels are dropped, so readers end.
pub(crate) fn jobs_of_coordinator<
    'a,
    'n,
    H: Node,
    G: Gate,
    T: Drop,
    C: Drop,
    D: Drop,
    E: Drop,
    W: Drop,
>(
    alloc: Global,
    workers: &'a NodeWorkers<'n, H, T, C>,
    arrivals: &'a [Receiver<Accepted<T, C>>],
    acceptor: E,
    watcher: Option<W>,
    gate: &'a G,
    ending: &'a Ending,
) -> Result<Vec<Job<'a, H, G, T, C, D, E, W>>, RunFault> {
    let mut jobs = Vec::new(alloc);
    for writer in &workers.writers {
        jobs.push(Job::Write(writer, ending, BATCHING))?;
    }
    if let Some(watcher) = watcher {
        jobs.push(Job::Watch(watcher))?;
    }
    for (federate, arrivals) in arrivals.iter().enumerate() {
        let context = workers.context(gate, ending);
        jobs.push(Job::Read(context, federate, arrivals, &workers.shares))?;
    }
    jobs.push(Job::LetIn(acceptor, ending))?;
    Ok(jobs)
}

/// The last job of a federate: its reader, which makes its connections too.
#[derive(Drop)]
pub(crate) enum Connector<D: Drop, W: Drop> {
    /// In one process with all other nodes.
    Together(D),
    /// In a process of its own, beside what the caller wants done.
    Alone(D, W),
}

/// A federate's jobs: the reader waits for what comes, so it stands behind those that end it.
pub(crate) fn jobs_of_federate<
    'a,
    'n,
    M: Node,
    G: Gate,
    T: Drop,
    C: Drop,
    D: Drop,
    E: Drop,
    W: Drop,
>(
    alloc: Global,
    workers: &'a NodeWorkers<'n, M, T, C>,
    connector: Connector<D, W>,
    terms: Terms,
    gate: &'a G,
    ending: &'a Ending,
) -> Result<Vec<Job<'a, M, G, T, C, D, E, W>>, RunFault> {
    let mut jobs = Vec::new(alloc);
    for writer in &workers.writers {
        jobs.push(Job::Write(writer, ending, terms.frames))?;
    }
    if let Some(wake_ups) = &workers.runner {
        let context = workers.context(gate, ending);
        jobs.push(Job::Run(context, wake_ups, terms.turns, &workers.shares))?;
    }
    let context = workers.context(gate, ending);
    let shares = &workers.shares;
    match connector {
        Connector::Together(dial) => jobs.push(Job::Connect(context, dial, shares))?,
        Connector::Alone(dial, watcher) => {
            jobs.push(Job::Watch(watcher))?;
            jobs.push(Job::ConnectAlone(context, dial, shares))?;
        }
    }
    Ok(jobs)
}
