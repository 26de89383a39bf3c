//! A connection that hasn't yet said whose it is.
ghost use Rattle.std.specs.Prelude.{◌≡◌};
ghost use Rattle.wires_transports.specs.Greeter.{greeter_of};

use crate::connection::{Accepted, Connection};
use crate::deadline::Deadline;
use crate::tcp::{TcpCut, TcpTransport};
use crate::times::SILENCE_MS;
use signal::{Frame, FrameReader};
use std::alloc::Global;
use std::sync::Arc;
use std::time::Clock;

// A Hello's bytes: no more are read at once, and a whole frame is there after them or never.
const HELLO_BYTES: usize = 20;

/// The federate that this frame greets for: only a Hello does, of a federate that there is.
pub(crate) fn greeter(frame: &Frame, federates: usize) -> Option<usize>
    ensures { result ≡ greeter_of frame.now federates }
{
    match *frame {
        Frame::Hello(hello) if usize::from(hello.federate) < federates => {
            Some(usize::from(hello.federate))
        }
        _ => None,
    }
}

/// What came of a connection so far.
pub(crate) enum HandshakeState {
    /// No whole frame.
    NotYet,
    /// First the Hello of this federate.
    Hello(usize),
    /// What is no federate's Hello, or the end, or nothing for too long.
    NoHello,
}

/// A connection that hasn't yet said whose it is.
#[derive(Drop)]
pub(crate) struct PendingConnection {
    connection: Connection<TcpTransport, TcpCut>,
    frames: FrameReader,
    first: Vec<u8>,
    silence: Deadline,
}

impl PendingConnection {
    /// Nothing came of it so far.
    pub(crate) fn new<R: Clock>(
        rt: &R,
        alloc: Global,
        connection: Connection<TcpTransport, TcpCut>,
    ) -> PendingConnection {
        PendingConnection {
            connection,
            frames: FrameReader::new(alloc),
            first: Vec::new(alloc),
            silence: Deadline::after(rt, SILENCE_MS),
        }
    }

    /// Its way to be ended.
    pub(crate) fn cut(&self) -> &Arc<TcpCut> {
        &self.connection.cut
    }

    /// The connection, with the bytes that came of it.
    pub(crate) fn into_accepted(self) -> Accepted<TcpTransport, TcpCut> {
        let PendingConnection {
            connection,
            first,
            ..
        } = self;
        Accepted { connection, first }
    }

    /// Reads what has come, without waiting.
    pub(crate) fn listen<R: Clock>(&mut self, rt: &R, federates: usize) -> HandshakeState {
        match self.next_frame() {
            Some(Some(frame)) => match greeter(&frame, federates) {
                Some(federate) => HandshakeState::Hello(federate),
                None => HandshakeState::NoHello,
            },
            Some(None) if !self.silence.has_passed(rt) => HandshakeState::NotYet,
            _ => HandshakeState::NoHello,
        }
    }

    // The first frame, once it is whole. None at all where there will be no frame.
    fn next_frame(&mut self) -> Option<Option<Frame>> {
        let mut room = [0; HELLO_BYTES];
        match self.connection.incoming.read_now(&mut room).ok()? {
            Some(0) => None,
            Some(count) => {
                self.first.extend_from_slice(&room[..count]).ok()?;
                self.frames.feed(&room[..count]).ok()?;
                self.frames.next().ok()
            }
            None => Some(None),
        }
    }
}
