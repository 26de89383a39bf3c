//! How a federate makes its connections.
use crate::connection::Connection;
use crate::expected_peers::{DialState, ExpectedPeers};
use crate::tcp::{TcpCut, TcpTransport, connect};
use std::alloc::Global;
use std::net::{Net, SocketAddr, TcpListener, TcpStream};
use std::sync::Wait;

/// Makes connections to a node.
pub trait Dial<T: Drop, C: Drop> {
    /// A new connection, or None where the attempt failed.
    fn dial<R: Wait>(&self, rt: &R, alloc: Global) -> Option<Connection<T, C>>;
}

/// Makes a federate's connections over TCP to a listener, whose acceptor expects them.
#[derive(Drop)]
pub struct TcpDial<'a, R: Net<Stream = TcpStream, Listener = TcpListener>> {
    pub net: &'a R,
    pub address: SocketAddr,
    pub expected: &'a ExpectedPeers,
    pub federate: usize,
}

impl<'a, M: Net<Stream = TcpStream, Listener = TcpListener>> Dial<TcpTransport, TcpCut>
    for TcpDial<'a, M> {
    fn dial<R: Wait>(&self, rt: &R, alloc: Global) -> Option<Connection<TcpTransport, TcpCut>> {
        self.expected
            .set(rt, self.federate, DialState::Connecting, None);
        match connect(self.net, alloc, self.address) {
            Ok(connected) => {
                let state = DialState::Connected(connected.address);
                self.expected
                    .set(rt, self.federate, state, Some(connected.socket));
                Some(connected.connection)
            }
            Err(_) => {
                self.expected.set(rt, self.federate, DialState::Idle, None);
                None
            }
        }
    }
}
