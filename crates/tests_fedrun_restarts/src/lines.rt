//! How nodes in threads are connected: over memory, behind their barriers.
use crate::noted::{NotedTransport, Sends};
use crossbeam_channel::{Receiver, Sender};
use std::alloc::Global;
use std::sync::{Arc, Wait};
use std::thread;
use std::time::{Clock, Duration};
use wires::{Work, WorkerResult};
use wires_hosts::{Barrier, Heard, HeardTransport};
use wires_transports::{
    Accepted, Acceptor, Connection, CurrentConnections, Cut, Dial, Ending, MemoryCut,
    MemoryTransport, pair,
};

/// A run that takes longer doesn't come to its end, in ms.
const LONGEST_MS: u64 = 10_000;

/// An end of a node's connection, behind its barrier.
pub(crate) type Own<'a, B> = HeardTransport<'a, NotedTransport, B>;

/// A federate's connection, on its way to the coordinator.
#[derive(Drop)]
pub(crate) struct Coming {
    pub federate: usize,
    pub connection: Connection<MemoryTransport, MemoryCut>,
}

/// Makes a federate's connections.
#[derive(Drop)]
pub(crate) struct MemoryDial<'a, B: Barrier> {
    pub federate: usize,
    pub to: Sender<Coming>,
    pub heard: &'a Heard,
    pub barrier: &'a B,
    pub sends: &'a Arc<Sends>,
}

impl<'a, B: Barrier> Dial<Own<'a, B>, MemoryCut> for MemoryDial<'a, B> {
    fn dial<R: Wait>(&self, rt: &R, alloc: Global) -> Option<Connection<Own<'a, B>, MemoryCut>> {
        let (own, other) = pair(alloc).ok()?;
        let own = NotedTransport::around(own, self.sends)?;
        let coming = Coming {
            federate: self.federate,
            connection: other,
        };
        self.to.send(rt, coming).ok()?;
        Some(HeardTransport::around(own, self.heard, self.barrier))
    }
}

/// Lets federates' connections in.
#[derive(Drop)]
pub(crate) struct MemoryAcceptor<'a, B: Barrier> {
    pub coming: &'a Receiver<Coming>,
    pub current: CurrentConnections<Own<'a, B>, MemoryCut>,
    pub heard: &'a Heard,
    pub barrier: &'a B,
    pub sends: &'a Arc<Sends>,
}

impl<'a, B: Barrier> Acceptor for MemoryAcceptor<'a, B> {
    fn let_in<R: Wait + Clock>(self, rt: &R, alloc: Global, ending: &Ending) {
        let MemoryAcceptor {
            coming,
            mut current,
            heard,
            barrier,
            sends,
        } = self;
        for _ in rt.forever() {
            if ending.is_set() {
                break;
            }
            if let Ok(came) = coming.recv_timeout(rt, Duration::from_millis(1)) {
                let Coming {
                    federate,
                    connection,
                } = came;
                let Some(connection) = NotedTransport::around(connection, sends) else {
                    break;
                };
                let accepted = Accepted {
                    connection: HeardTransport::around(connection, heard, barrier),
                    first: Vec::new(alloc),
                };
                current.hand_on(rt, federate, accepted);
            }
        }
        current.end(rt);
    }
}

/// Nobody is let in any more. Whoever comes within a ms is turned away.
pub(crate) fn turn_away<R: Wait + Clock>(rt: &R, coming: &Receiver<Coming>) {
    if let Ok(came) = coming.recv_timeout(rt, Duration::from_millis(1)) {
        came.connection.cut.cut(rt);
    }
}

/// Ends a node's run once it hears that the federation's run is finished, which is kept first, or where that takes too
/// long.
#[derive(Drop)]
pub(crate) struct EndWithRun<'a, B: Barrier> {
    pub finished: &'a Ending,
    pub barrier: &'a B,
    pub ending: &'a Ending,
}

impl<'a, B: Barrier> Work for EndWithRun<'a, B> {
    fn work<R: Wait + Clock>(self, rt: &R, _alloc: Global) -> WorkerResult {
        for _ in 0..LONGEST_MS {
            if self.ending.is_set() {
                break;
            }
            if self.finished.is_set() {
                let _ = self.barrier.tell(rt);
                break;
            }
            thread::sleep(rt, Duration::from_millis(1));
        }
        self.ending.set();
        WorkerResult::none()
    }
}
