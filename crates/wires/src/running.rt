//! A federation in threads: what runs, over which connections.
//!
//! Each federate has three threads: one reads, one writes, one runs. The coordinator has two for each federate, which
//! read and write, and one more that lets connections in. No contract says that they end. They are made to: a runner
//! sees between two turns that the run is to end, then writers do, then readers come to the end of what was sent.
use crate::job::{Job, NoWatcher};
use crate::jobs::{Connector, jobs_of_coordinator, jobs_of_federate};
use crate::lines::{Endpoint, FederationLines};
use crate::nobody::{NoAcceptor, NoDial};
use crate::node_workers::{NodeWorkers, channels};
use crate::nodes::Nodes;
use crate::run_fault::{Cause, RunFault};
use crate::runtime::{NetRuntime, Runtime};
use crate::share_channel::ShareChannel;
use crate::terms::Terms;
use crate::threads::{RunResults, start_all};
use crossbeam_channel::Receiver;
use node::{Node, NodeId};
use std::alloc::Global;
use std::net::{Net, TcpListener, TcpStream};
use wires_traffic::RunCounts;
use wires_transports::{
    Accepted, Acceptor, Cut, Dial, Ending, ExpectedPeers, TcpAcceptor, TcpCut, TcpDial,
    TcpTransport, Transport, listen,
};
use wires_workers::Gate;

/// Runs a federation in threads, until the coordinator is finished or a federate's turns are made, and returns what its
/// workers leave. All of them have ended when it returns, and the run is at its end. Where a thread can't be started,
/// the others end: `NoThread`.
pub fn run<
    R: Runtime,
    H: Node + Send,
    M: Node + Send,
    G: Gate + Sync,
    T: Transport + Send,
    C: Cut + Send + Sync,
    D: Dial<T, C> + Drop + Send,
    E: Acceptor + Send,
>(
    rt: &R,
    alloc: Global,
    nodes: &Nodes<H, M>,
    lines: FederationLines<D, E, T, C>,
    gate: &G,
    terms: Terms,
) -> Result<RunResults, RunFault> {
    let results = run_lines(rt, alloc, nodes, lines, gate, terms);
    nodes.ending.set();
    results
}

// Runs a federation that is connected so.
fn run_lines<
    R: Runtime,
    H: Node + Send,
    M: Node + Send,
    G: Gate + Sync,
    T: Transport + Send,
    C: Cut + Send + Sync,
    D: Dial<T, C> + Drop + Send,
    E: Acceptor + Send,
>(
    rt: &R,
    alloc: Global,
    nodes: &Nodes<H, M>,
    lines: FederationLines<D, E, T, C>,
    gate: &G,
    terms: Terms,
) -> Result<RunResults, RunFault> {
    let FederationLines {
        federates,
        acceptor,
    } = lines;
    let (dials, arrivals) = split(alloc, federates)?;
    let ending = &nodes.ending;
    if arrivals.is_empty() {
        ending.set();
    }
    let count = arrivals.len();
    let coordinator = NodeWorkers::new(
        alloc,
        NodeId::Coordinator,
        &nodes.coordinator,
        count,
        false,
    )?;
    let federates = workers_of(alloc, nodes)?;
    let coordinator_jobs: Vec<Job<'_, H, G, T, C, NoDial, E, NoWatcher>> = jobs_of_coordinator(
        alloc,
        &coordinator,
        &arrivals,
        acceptor,
        None,
        gate,
        ending,
    )?;
    let federate_jobs = jobs_of_federates(alloc, &federates, dials, terms, gate, ending)?;
    let counts = start_all(rt, alloc, coordinator_jobs, federate_jobs, ending)?;
    results_of(rt, alloc, &coordinator.shares, &federates, counts)
}

// What the workers left that counted this. The coordinator's shares came back by this channel, the federates' by their
// own.
fn results_of<R: Runtime, M: Node, T: Drop, C: Drop>(
    rt: &R,
    alloc: Global,
    coordinator: &ShareChannel,
    federates: &[NodeWorkers<'_, M, T, C>],
    counts: RunCounts,
) -> Result<RunResults, RunFault> {
    let mut shares = Vec::with_capacity(alloc, federates.len())?;
    for workers in federates {
        shares.push(workers.shares.take_all(rt, alloc)?)?;
    }
    Ok(RunResults {
        coordinator: coordinator.take_all(rt, alloc)?,
        federates: shares,
        counts,
    })
}

// How the federates connect, and where the coordinator's ends of their connections come.
fn split<D: Drop, T: Drop, C: Drop>(
    alloc: Global,
    lines: Vec<Endpoint<D, T, C>>,
) -> Result<(Vec<D>, Vec<Receiver<Accepted<T, C>>>), RunFault> {
    let mut dials = Vec::with_capacity(alloc, lines.len())?;
    let mut arrivals = Vec::with_capacity(alloc, lines.len())?;
    for line in lines {
        dials.push(line.dial)?;
        arrivals.push(line.arrivals)?;
    }
    Ok((dials, arrivals))
}

// That by which the federates' workers talk, by their numbers.
fn workers_of<'n, H: Node, M: Node, T: Drop, C: Drop>(
    alloc: Global,
    nodes: &'n Nodes<H, M>,
) -> Result<Vec<NodeWorkers<'n, M, T, C>>, RunFault> {
    let mut federates = Vec::with_capacity(alloc, nodes.federates.len())?;
    for (number, shared) in nodes.federates.iter().enumerate() {
        federates.push(NodeWorkers::new(alloc, NodeId::Federate(number), shared, 1, true)?)?;
    }
    Ok(federates)
}

// All federates' jobs.
fn jobs_of_federates<'a, 'n, M: Node, G: Gate, T: Drop, C: Drop, D: Drop>(
    alloc: Global,
    federates: &'a [NodeWorkers<'n, M, T, C>],
    dials: Vec<D>,
    terms: Terms,
    gate: &'a G,
    ending: &'a Ending,
) -> Result<Vec<Job<'a, M, G, T, C, D, NoAcceptor, NoWatcher>>, RunFault> {
    let mut jobs = Vec::new(alloc);
    for (workers, dial) in federates.iter().zip(dials) {
        let connector = Connector::Together(dial);
        let mut own = jobs_of_federate(alloc, workers, connector, terms, gate, ending)?;
        jobs.append(&mut own)?;
    }
    Ok(jobs)
}

/// Runs a federation in threads over TCP on loopback, on a port that the system gives: see `run`. A connection that
/// none of its federates has made is closed before anything is read of it.
pub fn run_over_tcp<R: NetRuntime, H: Node + Send, M: Node + Send, G: Gate + Sync>(
    rt: &R,
    alloc: Global,
    nodes: &Nodes<H, M>,
    gate: &G,
    terms: Terms,
) -> Result<RunResults, RunFault> {
    let results = run_on_loopback(rt, alloc, nodes, gate, terms);
    nodes.ending.set();
    results
}

// Runs a federation in threads over TCP, and returns what its workers leave.
fn run_on_loopback<R: NetRuntime, H: Node + Send, M: Node + Send, G: Gate + Sync>(
    rt: &R,
    alloc: Global,
    nodes: &Nodes<H, M>,
    gate: &G,
    terms: Terms,
) -> Result<RunResults, RunFault> {
    let count = nodes.federates.len();
    let expected = ExpectedPeers::new(alloc, count)?;
    let lines = open(rt, alloc, &expected, count)?;
    run(rt, alloc, nodes, lines, gate, terms)
}

// An acceptor on a port that the system gives, and for each of this many federates a line to it.
fn open<'a, R: Net<Stream = TcpStream, Listener = TcpListener>>(
    rt: &'a R,
    alloc: Global,
    expected: &'a ExpectedPeers,
    count: usize,
) -> Result<FederationLines<TcpDial<'a, R>, TcpAcceptor<'a>, TcpTransport, TcpCut>, RunFault> {
    let Ok(listener) = listen(rt) else {
        return Err(RunFault::NotFinished(Cause::NoListener));
    };
    let Ok(address) = listener.local_addr() else {
        return Err(RunFault::NotFinished(Cause::NoListener));
    };
    let (readers, arrivals) = channels(alloc, count)?;
    let mut federates = Vec::with_capacity(alloc, count)?;
    for (federate, arrivals) in arrivals.into_iter().enumerate() {
        let dial = TcpDial {
            net: rt,
            address,
            expected,
            federate,
        };
        federates.push(Endpoint { dial, arrivals })?;
    }
    let acceptor = TcpAcceptor::new(alloc, listener, expected, readers)?;
    Ok(FederationLines {
        federates,
        acceptor,
    })
}
