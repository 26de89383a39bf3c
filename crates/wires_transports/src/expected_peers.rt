//! Which connections are a run's own.
//!
//! Whoever is on the machine can connect to a run's port. But all connections of a run are made by the run itself: one
//! is let in only where its other end is a socket that a federate's dialer has connected.
ghost use Rattle.std.specs.Prelude.{◌≡◌, ◌≢◌, ◌↔◌, None, Some, All, IsTrue, IfSome, slice_get};
ghost use Rattle.wires_transports.specs.ExpectedPeers.{IsJudged};

use std::alloc::{AllocError, Global};
use std::net::{SocketAddr, TcpStream};
use std::sync::{Mutex, Wait};

/// What the dialer of a federate is at.
#[derive(Clone, Copy, PartialEq, Eq)]
pub enum DialState {
    /// No connection of it waits to be let in.
    Idle,
    /// It is connecting, by a socket whose address isn't known yet.
    Connecting,
    /// It has connected by a socket of this address, which wasn't let in so far.
    Connected(SocketAddr),
}

/// Whose a connection is that came to a run's listener.
#[derive(Clone, Copy, PartialEq, Eq)]
pub enum Origin {
    /// The federate's of this number.
    Federate(usize),
    /// Perhaps a federate's: a dialer is connecting whose socket's address isn't known yet.
    Unclear,
    /// None of this run's.
    Stranger,
}

// What the dialers are at, and of those that have connected the socket, of each federate by its number.
#[derive(Drop)]
struct Dialers {
    states: Vec<DialState>,
    sockets: Vec<Option<TcpStream>>,
}

/// What the dialers of a run's federates are at: they say it, and the acceptor asks.
#[derive(Drop)]
pub struct ExpectedPeers {
    dialers: Mutex<Dialers>,
}

impl ExpectedPeers {
    /// Of this many federates, none of which connects so far.
    pub fn new(alloc: Global, federates: usize) -> Result<ExpectedPeers, AllocError> {
        let mut states = Vec::new(alloc);
        states.resize_with(federates, || DialState::Idle)?;
        let mut sockets = Vec::new(alloc);
        sockets.resize_with(federates, || None)?;
        Ok(ExpectedPeers {
            dialers: Mutex::new(Dialers { states, sockets }),
        })
    }

    /// The federate's dialer is at this now. What it connected before isn't expected any more.
    pub(crate) fn set<R: Wait>(
        &self,
        rt: &R,
        federate: usize,
        state: DialState,
        socket: Option<TcpStream>,
    ) {
        let mut dialers = self.dialers.lock(rt);
        if let Some(place) = dialers.states.get_mut(federate) {
            *place = state;
        }
        if let Some(place) = dialers.sockets.get_mut(federate) {
            *place = socket;
        }
    }

    /// Whose this connection is: a federate's once.
    ///
    /// Two connections between the same addresses can't be at a time. So where first this one and then the dialer's
    /// socket is still connected, they are the two ends of one connection, and no stranger has taken the address of a
    /// socket that was closed.
    pub(crate) fn origin<R: Wait>(&self, rt: &R, arrived: &TcpStream) -> Origin {
        let mut dialers = self.dialers.lock(rt);
        let Ok(peer) = arrived.peer_addr() else {
            return Origin::Stranger;
        };
        let origin = judge(dialers.states.as_mut_slice(), peer);
        match origin {
            Origin::Federate(federate) => {
                let socket = take_socket(dialers.sockets.as_mut_slice(), federate);
                if is_connected(socket.as_ref()) {
                    origin
                } else {
                    Origin::Stranger
                }
            }
            Origin::Unclear | Origin::Stranger => origin,
        }
    }
}

// Whose a connection from this address is. A dialer is said to be connecting before it connects, so what comes where
// none is connecting is no federate's.
fn judge(states: &mut [DialState], peer: SocketAddr) -> Origin
    ensures { IsJudged peer states.old result states.new }
{
    match place_of(states, DialState::Connected(peer)) {
        Some(federate) => {
            states[federate] = DialState::Idle;
            Origin::Federate(federate)
        }
        None => match place_of(states, DialState::Connecting) {
            Some(_) => Origin::Unclear,
            None => Origin::Stranger,
        },
    }
}

// The place of the first dialer that is at this.
fn place_of(states: &[DialState], state: DialState) -> Option<usize>
    ensures found { IfSome result (λ place. slice_get states.now place ≡ Some state) }
    ensures none { result ≡ None → All (λ other. other ≢ state) states.now }
{
    for (place, other) in states.iter().enumerate() {
        if is_same(*other, state) {
            return Some(place);
        }
    }
    None
}

// Whether two dialers are at the same.
fn is_same(one: DialState, other: DialState) -> bool
    ensures { IsTrue result ↔ (one ≡ other) }
{
    one == other
}

// The dialer's socket, taken out.
fn take_socket(sockets: &mut [Option<TcpStream>], federate: usize) -> Option<TcpStream> {
    match sockets.get_mut(federate) {
        Some(place) => place.take(),
        None => None,
    }
}

// Whether a socket is still connected.
fn is_connected(socket: Option<&TcpStream>) -> bool {
    match socket {
        Some(socket) => socket.peer_addr().is_ok(),
        None => false,
    }
}
