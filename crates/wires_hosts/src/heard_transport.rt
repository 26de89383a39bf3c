ghost use Rattle.std.specs.Prelude.{◌≡◌, ◌<◌, ◌+◌, IfErr, OnOk, OnErr};

use crate::attendance::LetInFrom;
use crate::barrier::{Barrier, Unkept};
use crate::heard::Heard;
use std::sync::Wait;
use wires_transports::{Broken, Connection, Failures, Transport};

/// One end of a connection, around another one: it counts each time that bytes came, notes where no more come, and
/// nothing leaves before the barrier lets it. It is otherwise the same.
#[derive(Drop)]
pub struct HeardTransport<'a, T: Transport, B: Barrier> {
    inner: T,
    heard: &'a Heard,
    barrier: &'a B,
    // Sends that the barrier refused.
    refusals: Failures,
    // Which federate it comes from, and which of its connections it is: at the coordinator.
    from: Option<LetInFrom>,
}

impl<'a, T: Transport, B: Barrier> HeardTransport<'a, T, B> {
    /// Around this one.
    pub fn new(inner: T, heard: &'a Heard, barrier: &'a B) -> HeardTransport<'a, T, B> {
        HeardTransport {
            inner,
            heard,
            barrier,
            refusals: Failures::new(),
            from: None,
        }
    }

    /// A connection with such ends around its own.
    pub fn around<C: Drop>(
        connection: Connection<T, C>,
        heard: &'a Heard,
        barrier: &'a B,
    ) -> Connection<HeardTransport<'a, T, B>, C> {
        HeardTransport::around_let_in(connection, heard, barrier, None)
    }

    /// The same of this connection of a federate, at the coordinator: it is noted where nothing more comes on it.
    pub(crate) fn around_let_in<C: Drop>(
        connection: Connection<T, C>,
        heard: &'a Heard,
        barrier: &'a B,
        from: Option<LetInFrom>,
    ) -> Connection<HeardTransport<'a, T, B>, C> {
        let Connection {
            incoming,
            outgoing,
            cut,
        } = connection;
        Connection {
            incoming: HeardTransport {
                inner: incoming,
                heard,
                barrier,
                refusals: Failures::new(),
                from,
            },
            outgoing: HeardTransport::new(outgoing, heard, barrier),
            cut,
        }
    }

    // Notes that something came.
    fn note_heard(&self) {
        self.heard.hear();
        match self.from {
            Some(from) => self.heard.hear_of(from.federate),
            // A federate hears of its own place.
            None => self.heard.hear_of(0),
        }
    }

    // Notes that nothing more comes: it was closed at the other end, or broke.
    fn note_ended(&self, is_closed: bool) {
        match self.from {
            Some(from) => self.heard.note_ended(from.federate, from.connection),
            None => self.heard.note_disconnected(is_closed),
        }
    }

    // Sends these bytes where all that caused them is kept. Else nothing leaves, and the call failed.
    fn send_kept<R: Wait>(
        &mut self,
        rt: &R,
        kept: Result<(), Unkept>,
        bytes: &[u8],
    ) -> Result<(), Broken>
        ensures refused { IfErr kept (λ _. self.new.inner ≡ self.old.inner) }
        ensures sent { OnOk result (T.failures self.new.inner + self.new.refusals
            ≡ T.failures self.old.inner + self.old.refusals) }
        ensures broken { OnErr result (T.failures self.old.inner + self.old.refusals
            < T.failures self.new.inner + self.new.refusals) }
    {
        match kept {
            Ok(()) => self.inner.send(rt, bytes),
            Err(Unkept) => self.refusals.tell(()),
        }
    }
}

impl<'a, T: Transport, B: Barrier> Transport for HeardTransport<'a, T, B> {
    ghost failures = { λ t. T.failures t.inner + t.refusals };

    fn send<R: Wait>(&mut self, rt: &R, bytes: &[u8]) -> Result<(), Broken> {
        // Every byte of every frame leaves here, and what caused it was handed in before.
        let kept = self.barrier.reach(rt);
        self.send_kept(rt, kept, bytes)
    }

    fn recv<R: Wait>(&mut self, rt: &R, room: &mut [u8]) -> Result<usize, Broken> {
        let received = self.inner.recv(rt, room);
        if matches!(received, Ok(1..)) {
            self.note_heard();
        } else {
            self.note_ended(received.is_ok());
        }
        received
    }

    fn finish<R: Wait>(&mut self, rt: &R) {
        self.inner.finish(rt);
    }
}
