//! Connections over memory.
ghost use Rattle.std.specs.Prelude.{◌≡◌};

use crate::broken::Broken;
use crate::connection::Connection;
use crate::cut::Cut;
use crate::failures::Failures;
use crate::memory::Memory;
use crate::pipe::Pipe;
use crate::transport::Transport;
use std::alloc::Global;
use std::sync::{Arc, Condvar, Mutex, Wait};

// One direction, which two ends share.
#[derive(Drop)]
struct Way {
    pipe: Mutex<Pipe>,
    changed: Condvar,
}

impl Way {
    fn new(alloc: Global) -> Way {
        Way {
            pipe: Mutex::new(Pipe::new(alloc)),
            changed: Condvar::new(),
        }
    }

    // Whether the bytes are on their way: not if this way has ended, nor where memory runs out.
    fn put<R: Wait>(&self, rt: &R, bytes: &[u8]) -> bool {
        let mut pipe = self.pipe.lock(rt);
        let is_put = !pipe.is_ended() && pipe.put(bytes).is_ok();
        self.changed.notify_all();
        is_put
    }

    fn end<R: Wait>(&self, rt: &R) {
        self.pipe.lock(rt).end();
        self.changed.notify_all();
    }
}

/// One end of a connection over memory. Sending fails where that direction has ended, or where there is no memory.
#[derive(Drop)]
pub struct MemoryTransport {
    incoming: Arc<Way>,
    outgoing: Arc<Way>,
    failures: Failures,
}

impl MemoryTransport {
    fn new(incoming: &Arc<Way>, outgoing: &Arc<Way>) -> Result<MemoryTransport, Memory> {
        Ok(MemoryTransport {
            incoming: Arc::try_clone(incoming)?,
            outgoing: Arc::try_clone(outgoing)?,
            failures: Failures::new(),
        })
    }
}

impl Transport for MemoryTransport {
    ghost failures = { λ t. t.failures };

    fn send<R: Wait>(&mut self, rt: &R, bytes: &[u8]) -> Result<(), Broken> {
        if self.outgoing.put(rt, bytes) {
            Ok(())
        } else {
            self.failures.tell(())
        }
    }

    fn recv<R: Wait>(&mut self, rt: &R, room: &mut [u8]) -> Result<usize, Broken> {
        let way = &self.incoming;
        let mut pipe = way
            .changed
            .wait_while(rt, way.pipe.lock(rt), |pipe| pipe.must_wait());
        Ok(pipe.take(room))
    }

    fn finish<R: Wait>(&mut self, rt: &R) {
        self.outgoing.end(rt);
    }
}

/// Ends a connection over memory. What was sent before is still read.
#[derive(Drop)]
pub struct MemoryCut {
    first: Arc<Way>,
    second: Arc<Way>,
}

impl Cut for MemoryCut {
    fn cut<R: Wait>(&self, rt: &R) {
        self.first.end(rt);
        self.second.end(rt);
    }
}

/// The two ends of a connection.
pub type Pair = (
    Connection<MemoryTransport, MemoryCut>,
    Connection<MemoryTransport, MemoryCut>,
);

/// Two connected ends.
pub fn pair(alloc: Global) -> Result<Pair, Memory> {
    let there = Arc::new(alloc, Way::new(alloc))?;
    let back = Arc::new(alloc, Way::new(alloc))?;
    Ok((end(alloc, &back, &there)?, end(alloc, &there, &back)?))
}

// The end to which one direction comes, and from which the other goes.
fn end(
    alloc: Global,
    incoming: &Arc<Way>,
    outgoing: &Arc<Way>,
) -> Result<Connection<MemoryTransport, MemoryCut>, Memory> {
    Ok(Connection {
        incoming: MemoryTransport::new(incoming, outgoing)?,
        outgoing: MemoryTransport::new(incoming, outgoing)?,
        cut: Arc::new(
            alloc,
            MemoryCut {
                first: Arc::try_clone(incoming)?,
                second: Arc::try_clone(outgoing)?,
            },
        )?,
    })
}
