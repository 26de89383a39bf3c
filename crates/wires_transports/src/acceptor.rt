//! The worker that lets connections in, for the node to which the others are linked.
ghost use Rattle.std.specs.Prelude.{◌≡◌};

use crate::connection::Accepted;
use crate::current_connections::CurrentConnections;
use crate::cut::Cut;
use crate::deadline::Deadline;
use crate::ending::Ending;
use crate::expected_peers::{ExpectedPeers, Origin};
use crate::pending_connection::{HandshakeState, PendingConnection};
use crate::tcp::{TcpCut, TcpTransport, connection};
use crate::times::{CALM_AFTER_MS, CALM_PAUSE_MS, PAUSE_MS};
use crossbeam_channel::Sender;
use std::alloc::{AllocError, Global};
use std::net::{TcpListener, TcpStream};
use std::sync::Wait;
use std::thread;
use std::time::{Clock, Duration};

// Connections that are taken from the listener in a row, at most.
const AT_ONCE: usize = 64;

// Connections of which it isn't clear whose they are, at most. Of more the oldest are closed.
const UNCLEAR_MOST: usize = 64;

/// How connections come to the node to which the others are linked.
pub trait Acceptor: Drop {
    /// Lets connections in until the run is to end.
    fn let_in<R: Wait + Clock>(self, rt: &R, alloc: Global, ending: &Ending);
}

/// Lets connections in over TCP that federates of the run have made, each once; all others are closed before anything
/// is read of them. Each federate's go to its reader, and the older one, if there is one, is ended. A federate's
/// connection that doesn't begin with a federate's Hello is closed; one that is silent keeps no other waiting. What its
/// readers haven't read to the end a second after the run is to end is ended.
#[derive(Drop)]
pub struct TcpAcceptor<'a> {
    listener: TcpListener,
    expected: &'a ExpectedPeers,
    current: CurrentConnections<TcpTransport, TcpCut>,
}

impl<'a> TcpAcceptor<'a> {
    /// What comes to this listener (see `listen`) and is expected goes to these readers, of each federate by its
    /// number.
    pub fn new(
        alloc: Global,
        listener: TcpListener,
        expected: &'a ExpectedPeers,
        readers: Vec<Sender<Accepted<TcpTransport, TcpCut>>>,
    ) -> Result<TcpAcceptor<'a>, AllocError> {
        let current = CurrentConnections::new(alloc, readers)?;
        Ok(TcpAcceptor {
            listener,
            expected,
            current,
        })
    }
}

impl<'a> Acceptor for TcpAcceptor<'a> {
    fn let_in<R: Wait + Clock>(self, rt: &R, alloc: Global, ending: &Ending) {
        let TcpAcceptor {
            listener,
            expected,
            mut current,
        } = self;
        let mut arrived = Vec::new(alloc);
        let mut pending = Vec::new(alloc);
        let mut calm = Deadline::after(rt, CALM_AFTER_MS);
        for _ in rt.forever() {
            if ending.is_set() {
                break;
            }
            let came = accept_some(&listener, &mut arrived);
            if came || !arrived.is_empty() || !pending.is_empty() || !current.are_all_there() {
                calm = Deadline::after(rt, CALM_AFTER_MS);
            }
            if !came {
                thread::sleep(rt, Duration::from_millis(pause(calm.has_passed(rt))));
            }
            arrived = sort_out(rt, alloc, expected, arrived, &mut pending);
            pending = listen_to(rt, alloc, pending, &mut current);
        }
        current.end(rt);
    }
}

/// How long an acceptor waits for connections before it looks again, in ms.
pub fn pause(is_calm: bool) -> u64 {
    if is_calm { CALM_PAUSE_MS } else { PAUSE_MS }
}

// Takes connections that came, `AT_ONCE` at most. Returns whether one came. One for which there is no memory is closed.
fn accept_some(listener: &TcpListener, arrived: &mut Vec<TcpStream>) -> bool {
    for count in 0..AT_ONCE {
        match listener.accept() {
            Ok((stream, _)) => {
                let _ = arrived.push(stream);
            }
            Err(_) => return count > 0,
        }
    }
    true
}

// Puts federates' connections to those that are pending, and closes strangers'. Returns those that aren't clear yet.
fn sort_out<R: Wait + Clock>(
    rt: &R,
    alloc: Global,
    expected: &ExpectedPeers,
    arrived: Vec<TcpStream>,
    pending: &mut Vec<PendingConnection>,
) -> Vec<TcpStream> {
    let mut unclear = Vec::new(alloc);
    for stream in arrived {
        match expected.origin(rt, &stream) {
            Origin::Federate(_) => {
                if let Ok(connection) = connection(alloc, stream) {
                    let _ = pending.push(PendingConnection::new(rt, alloc, connection));
                }
            }
            Origin::Unclear => {
                let _ = unclear.push(stream);
            }
            Origin::Stranger => {}
        }
    }
    let too_many = unclear.len().saturating_sub(UNCLEAR_MOST);
    unclear.drain(..too_many);
    unclear
}

// Listens to all pending. Returns those that are pending still. One that says whose it is goes to its reader, one that
// can't say it any more is closed, and so is one that there is no memory to keep.
fn listen_to<R: Wait + Clock>(
    rt: &R,
    alloc: Global,
    pending: Vec<PendingConnection>,
    current: &mut CurrentConnections<TcpTransport, TcpCut>,
) -> Vec<PendingConnection> {
    let mut left = Vec::new(alloc);
    for mut connection in pending {
        match connection.listen(rt, current.federate_count()) {
            HandshakeState::NotYet => {
                let _ = left.push(connection);
            }
            HandshakeState::Hello(federate) => {
                current.hand_on(rt, federate, connection.into_accepted());
            }
            HandshakeState::NoHello => connection.cut().cut(rt),
        }
    }
    left
}
