//! Federations in threads over connections that a test has its hands on.
use crate::apart::{Endings, run_apart};
use crate::left::{Left, left_of};
use crate::nodes::{SNK, nodes_of};
use crate::seen::{Seen, seen_of};
use crate::tap::{End, Tap, TapGate, Tapped, between};
use crossbeam_channel::{Receiver, Sender};
use std::alloc::Global;
use std::net::{Net, SocketAddr, TcpListener, TcpStream};
use std::sync::Wait;
use tests_samples::{Federation, Machine, with_loaded};
use wires::{
    Endpoint, FederateLines, FederationLines, NoAcceptor, Runtime, Terms, channels, run,
    run_over_tcp,
};
use wires_transports::tcp::connection;
use wires_transports::{
    Accepted, Connection, Cut, Dial, MemoryCut, MemoryTransport, TcpCut, TcpTransport, Transport,
    pair,
};
use wires_workers::NoGate;

/// As many turns as each run needs that comes to its end.
pub(crate) const AMPLE: Terms = Terms {
    turns: 100_000,
    frames: 2,
};

/// How the nodes of a federation run.
#[derive(Clone, Copy, Debug, PartialEq, Eq)]
pub(crate) enum Nodes {
    /// Their workers are started together, as `run` starts them.
    Together,
    /// The same, and a blank federate takes the place of the second one: it connects as that one.
    WithBlank,
    /// Each node's are started by themselves, as `coordinate` and `join` start them: see `apart`.
    Apart,
}

impl Nodes {
    // How many federates run.
    fn count(self, federation: &Federation) -> usize {
        let count = federation.plan().federate_count();
        match self {
            Nodes::WithBlank => count.saturating_add(1),
            _ => count,
        }
    }
}

/// Each way to run the nodes of a federation.
pub(crate) const EACH_WAY: [Nodes; 2] = [Nodes::Together, Nodes::Apart];

/// What runs, and how.
#[derive(Clone, Copy)]
pub(crate) struct Case {
    pub(crate) federation: &'static str,
    pub(crate) nodes: Nodes,
    pub(crate) terms: Terms,
}

impl Case {
    /// With as many turns as each run needs that comes to its end.
    pub(crate) fn ample(federation: &'static str, nodes: Nodes) -> Case {
        Case {
            federation,
            nodes,
            terms: AMPLE,
        }
    }
}

/// The two ends of a federate's connection: its own, and the coordinator's.
#[derive(Drop)]
struct Ends<T: Drop, C: Drop> {
    own: Connection<T, C>,
    other: Connection<T, C>,
}

/// How connections are made.
trait Pairing<T: Drop, C: Drop> {
    // A connection of this federate's; None where it can't be had.
    fn pair<R: Wait>(&self, rt: &R, alloc: Global, federate: usize) -> Option<Ends<T, C>>;
}

/// Over memory.
#[derive(Drop)]
struct InMemory<'a, P: Tap> {
    tap: &'a P,
}

impl<'a, P: Tap> Pairing<Tapped<'a, MemoryTransport, P>, MemoryCut> for InMemory<'a, P> {
    fn pair<R: Wait>(
        &self,
        _rt: &R,
        alloc: Global,
        federate: usize,
    ) -> Option<Ends<Tapped<'a, MemoryTransport, P>, MemoryCut>> {
        if !self.tap.connects(federate) {
            return None;
        }
        let (own, other) = pair(alloc).ok()?;
        Some(tapped(alloc, federate, self.tap, own, other))
    }
}

/// Over TCP on loopback, each connection by a listener of its own.
#[derive(Drop)]
struct OverTcp<'m, 'a, M: Net<Stream = TcpStream, Listener = TcpListener>, P: Tap> {
    net: &'m M,
    tap: &'a P,
}

impl<'m, 'a, M: Net<Stream = TcpStream, Listener = TcpListener>, P: Tap> Pairing<
    Tapped<'a, TcpTransport, P>,
    TcpCut,
> for OverTcp<'m, 'a, M, P> {
    fn pair<R: Wait>(
        &self,
        _rt: &R,
        alloc: Global,
        federate: usize,
    ) -> Option<Ends<Tapped<'a, TcpTransport, P>, TcpCut>> {
        if !self.tap.connects(federate) {
            return None;
        }
        let (own, other) = streams(self.net)?;
        let own = connection(alloc, own).ok()?;
        let other = connection(alloc, other).ok()?;
        Some(tapped(alloc, federate, self.tap, own, other))
    }
}

// Two connected streams.
fn streams<M: Net<Stream = TcpStream, Listener = TcpListener>>(
    net: &M,
) -> Option<(TcpStream, TcpStream)> {
    let listener = TcpListener::bind(net, SocketAddr::from(([127, 0, 0, 1], 0))).ok()?;
    let address = listener.local_addr().ok()?;
    let own = TcpStream::connect(net, address).ok()?;
    let (other, _) = listener.accept().ok()?;
    Some((own, other))
}

// A connection of this federate's, with the test between the workers and it.
fn tapped<'a, T: Drop, C: Drop, P: Tap>(
    alloc: Global,
    federate: usize,
    tap: &'a P,
    own: Connection<T, C>,
    other: Connection<T, C>,
) -> Ends<Tapped<'a, T, P>, C> {
    let own_end = End {
        federate,
        is_own: true,
    };
    let other_end = End {
        federate,
        is_own: false,
    };
    Ends {
        own: between(alloc, own_end, tap, own),
        other: between(alloc, other_end, tap, other),
    }
}

/// Makes a federate's connections while the coordinator's run goes on, and hands their other ends to the coordinator's
/// reader. After that the federate's run is to end.
#[derive(Drop)]
struct PairDial<'p, L, T: Drop, C: Drop> {
    federate: usize,
    pairing: &'p L,
    endings: &'p Endings,
    arrivals: Sender<Accepted<T, C>>,
}

impl<'p, L: Pairing<T, C>, T: Drop, C: Drop> Dial<T, C> for PairDial<'p, L, T, C> {
    fn dial<R: Wait>(&self, rt: &R, alloc: Global) -> Option<Connection<T, C>> {
        if self.endings.is_coordinator_ending(self.federate) {
            return None;
        }
        let Ends { own, other } = self.pairing.pair(rt, alloc, self.federate)?;
        let accepted = Accepted {
            connection: other,
            first: Vec::new(alloc),
        };
        self.arrivals.send(rt, accepted).ok()?;
        Some(own)
    }
}

// How each federate is connected: these are the other ends of where its connections come.
fn lines<'p, L: Pairing<T, C>, T: Drop, C: Drop>(
    alloc: Global,
    senders: Vec<Sender<Accepted<T, C>>>,
    pairing: &'p L,
    endings: &'p Endings,
    terms: Terms,
) -> Option<Vec<FederateLines<PairDial<'p, L, T, C>>>> {
    let mut lines = Vec::new(alloc);
    for (number, arrivals) in senders.into_iter().enumerate() {
        let dial = PairDial {
            federate: number,
            pairing,
            endings,
            arrivals,
        };
        lines
            .push(FederateLines {
                number,
                dial,
                terms,
            })
            .ok()?;
    }
    Some(lines)
}

// Has the last one's connections come where the second one's do.
fn connect_as_second<O: Drop>(senders: &mut Vec<Sender<O>>) -> Option<()> {
    let second = senders.get(SNK)?.clone().ok()?;
    senders.pop()?;
    senders.push(second).ok()
}

// What nodes leave that run over connections that are made so.
fn ran<
    R: Runtime,
    P: Tap + Sync,
    T: Transport + Send,
    C: Cut + Send + Sync,
    L: Pairing<T, C> + Sync,
>(
    rt: &R,
    alloc: Global,
    federation: &Federation,
    nodes: Nodes,
    terms: Terms,
    tap: &P,
    pairing: &L,
) -> Option<Left> {
    let count = nodes.count(federation);
    let endings = Endings::new(alloc, count)?;
    let (mut senders, arrivals) = channels(alloc, count).ok()?;
    if nodes == Nodes::WithBlank {
        connect_as_second(&mut senders)?;
    }
    let lines = lines(alloc, senders, pairing, &endings, terms)?;
    let gate = TapGate { tap };
    match nodes {
        Nodes::Apart => run_apart(rt, alloc, federation, lines, arrivals, &gate, &endings),
        _ => run_together(rt, alloc, federation, nodes, terms, lines, arrivals, &gate),
    }
}

// What nodes leave that run together, where federates are connected so, and their connections come there.
fn run_together<
    R: Runtime,
    P: Tap + Sync,
    D: Dial<T, C> + Drop + Send,
    T: Transport + Send,
    C: Cut + Send + Sync,
>(
    rt: &R,
    alloc: Global,
    federation: &Federation,
    which: Nodes,
    terms: Terms,
    lines: Vec<FederateLines<D>>,
    arrivals: Vec<Receiver<Accepted<T, C>>>,
    gate: &TapGate<'_, P>,
) -> Option<Left> {
    let lines = FederationLines {
        federates: endpoints(alloc, lines, arrivals)?,
        acceptor: NoAcceptor,
    };
    let nodes = nodes_of(alloc, federation, which == Nodes::WithBlank)?;
    let results = run(rt, alloc, &nodes, lines, gate, terms).ok()?;
    let counts = results.counts();
    left_of(alloc, nodes.gather(alloc, results).ok()?, counts)
}

// How each federate is connected in a run of all nodes.
fn endpoints<D: Drop, T: Drop, C: Drop>(
    alloc: Global,
    lines: Vec<FederateLines<D>>,
    arrivals: Vec<Receiver<Accepted<T, C>>>,
) -> Option<Vec<Endpoint<D, T, C>>> {
    let mut endpoints = Vec::new(alloc);
    for (line, arrivals) in lines.into_iter().zip(arrivals) {
        let endpoint = Endpoint {
            dial: line.dial,
            arrivals,
        };
        endpoints.push(endpoint).ok()?;
    }
    Some(endpoints)
}

// What is seen of a run of a federation that is lent, over connections that are made so.
fn seen_over<
    R: Machine,
    P: Tap + Sync,
    T: Transport + Send,
    C: Cut + Send + Sync,
    L: Pairing<T, C> + Sync,
>(
    rt: &R,
    federation: &Federation,
    nodes: Nodes,
    terms: Terms,
    tap: &P,
    pairing: &L,
) -> Option<Seen> {
    let mut left = ran(rt, rt.alloc(), federation, nodes, terms, tap, pairing)?;
    seen_of(rt.alloc(), federation, &mut left)
}

/// What is seen of a run over memory; None where its nodes leave nothing.
pub(crate) fn seen_in_memory<R: Machine, P: Tap + Sync>(
    rt: &R,
    case: &Case,
    tap: &P,
) -> Option<Seen> {
    with_loaded(rt.alloc(), case.federation, "", |federation| {
        seen_over(
            rt,
            federation,
            case.nodes,
            case.terms,
            tap,
            &InMemory { tap },
        )
    })
}

/// The same over TCP.
pub(crate) fn seen_over_tcp<
    R: Machine + Net<Stream = TcpStream, Listener = TcpListener>,
    P: Tap + Sync,
>(rt: &R, case: &Case, tap: &P) -> Option<Seen> {
    with_loaded(rt.alloc(), case.federation, "", |federation| {
        seen_over(
            rt,
            federation,
            case.nodes,
            case.terms,
            tap,
            &OverTcp { net: rt, tap },
        )
    })
}

// What nodes leave that run together and make their connections over TCP themselves.
fn ran_by_itself<R: Runtime + Net<Stream = TcpStream, Listener = TcpListener>>(
    rt: &R,
    alloc: Global,
    federation: &Federation,
    terms: Terms,
) -> Option<Left> {
    let nodes = nodes_of(alloc, federation, false)?;
    let results = run_over_tcp(rt, alloc, &nodes, &NoGate, terms).ok()?;
    let counts = results.counts();
    left_of(alloc, nodes.gather(alloc, results).ok()?, counts)
}

// What is seen of such a run of a federation that is lent.
fn seen_by_itself<R: Machine + Net<Stream = TcpStream, Listener = TcpListener>>(
    rt: &R,
    federation: &Federation,
    terms: Terms,
) -> Option<Seen> {
    let mut left = ran_by_itself(rt, rt.alloc(), federation, terms)?;
    seen_of(rt.alloc(), federation, &mut left)
}

/// What is seen of a run that makes its connections over TCP itself, of a federation with its inputs.
pub(crate) fn seen_of_run<R: Machine + Net<Stream = TcpStream, Listener = TcpListener>>(
    rt: &R,
    federation: &str,
    inputs: &str,
    terms: Terms,
) -> Option<Seen> {
    with_loaded(rt.alloc(), federation, inputs, |federation| {
        seen_by_itself(rt, federation, terms)
    })
}
