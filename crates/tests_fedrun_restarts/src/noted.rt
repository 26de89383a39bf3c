//! Notes what leaves a node in threads below its barrier: nothing may that the barrier didn't let by.
ghost use Rattle.std.specs.Prelude.{◌≡◌, ◌≤◌, ◌<◌};

use std::alloc::Global;
use std::sync::atomic::{AtomicBool, AtomicU64, Ordering};
use std::sync::{Arc, Wait};
use wires_transports::{Broken, Connection, Failures, MemoryCut, MemoryTransport, Transport};

/// The sends of a node.
#[derive(Drop)]
pub(crate) struct Sends {
    // How many its barrier let by.
    let_by: AtomicU64,
    // How many left on its lines.
    gone: AtomicU64,
    // Whether one left that the barrier hadn't let by.
    is_past_the_barrier: AtomicBool,
}

impl Sends {
    /// None so far; None where there is no memory.
    pub(crate) fn none(alloc: Global) -> Option<Arc<Sends>> {
        let sends = Sends {
            let_by: AtomicU64::new(0),
            gone: AtomicU64::new(0),
            is_past_the_barrier: AtomicBool::new(false),
        };
        Arc::new(alloc, sends).ok()
    }

    /// The barrier lets one by.
    pub(crate) fn let_by(&self) {
        self.let_by.fetch_add(1, Ordering::SeqCst);
    }

    // One leaves.
    fn leave(&self) {
        if self.gone.fetch_add(1, Ordering::SeqCst) >= self.let_by.load(Ordering::SeqCst) {
            self.is_past_the_barrier.store(true, Ordering::SeqCst);
        }
    }

    /// Whether those left that the barrier let by, and no others. Asked for once nothing is sent any more.
    pub(crate) fn are_those_let_by(&self) -> bool {
        !self.is_past_the_barrier.load(Ordering::SeqCst)
            && self.gone.load(Ordering::SeqCst) == self.let_by.load(Ordering::SeqCst)
    }
}

/// One end of a connection over memory, which notes each send. It is otherwise the same.
#[derive(Drop)]
pub(crate) struct NotedTransport {
    inner: MemoryTransport,
    sends: Arc<Sends>,
    failures: Failures,
}

impl NotedTransport {
    fn new(inner: MemoryTransport, sends: &Arc<Sends>) -> Option<NotedTransport> {
        Some(NotedTransport {
            inner,
            sends: Arc::try_clone(sends).ok()?,
            failures: Failures::new(),
        })
    }

    /// A connection with such ends around its own; None where there is no memory.
    pub(crate) fn around(
        connection: Connection<MemoryTransport, MemoryCut>,
        sends: &Arc<Sends>,
    ) -> Option<Connection<NotedTransport, MemoryCut>> {
        let Connection {
            incoming,
            outgoing,
            cut,
        } = connection;
        Some(Connection {
            incoming: NotedTransport::new(incoming, sends)?,
            outgoing: NotedTransport::new(outgoing, sends)?,
            cut,
        })
    }
}

impl Transport for NotedTransport {
    ghost failures = { λ t. t.failures };

    fn send<R: Wait>(&mut self, rt: &R, bytes: &[u8]) -> Result<(), Broken> {
        self.sends.leave();
        match self.inner.send(rt, bytes) {
            Ok(()) => Ok(()),
            Err(_) => self.failures.tell(()),
        }
    }

    fn recv<R: Wait>(&mut self, rt: &R, room: &mut [u8]) -> Result<usize, Broken> {
        match self.inner.recv(rt, room) {
            Ok(count) => Ok(count),
            Err(_) => self.failures.tell(0),
        }
    }

    fn finish<R: Wait>(&mut self, rt: &R) {
        self.inner.finish(rt);
    }
}
