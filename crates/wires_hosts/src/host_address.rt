//! Where a coordinator is.

use crate::unreached::{Missed, Unreached};
use arrayvec::ArrayString;
use std::net::{Net, SocketAddr, TcpListener, TcpStream, ToSocketAddrs};
use std::time::Duration;
use std::{fmt, io};
use wires_transports::times::CONNECT_MS;

/// The longest name that a host can have.
pub const MOST_HOST_BYTES: usize = 253;

// How many addresses of one name an attempt tries.
const MOST_TRIED: usize = 4;

/// Where a coordinator listens, and where federates find it.
#[derive(Clone, Copy, Debug, PartialEq, Eq)]
pub enum HostAddress {
    /// An address and a port.
    At(SocketAddr),
    /// A host's name and a port. The system looks the name up, anew for each attempt, so that a host may move.
    Named(ArrayString<MOST_HOST_BYTES>, u16),
}

impl HostAddress {
    /// A port of the host of a name. None where no host has so long a name.
    pub fn named(host: &str, port: u16) -> Option<HostAddress> {
        let host = ArrayString::from(host).ok()?;
        Some(HostAddress::Named(host, port))
    }

    /// The port. Who listens at port 0 is given another one by the system.
    pub fn port(&self) -> u16 {
        match self {
            HostAddress::At(address) => address.port(),
            HostAddress::Named(_, port) => *port,
        }
    }

    /// A listener there.
    pub(crate) fn bind<R: Net<Stream = TcpStream, Listener = TcpListener>>(
        &self,
        net: &R,
    ) -> io::Result<TcpListener> {
        match self {
            HostAddress::At(address) => TcpListener::bind(net, *address),
            HostAddress::Named(host, port) => TcpListener::bind(net, (host.as_str(), *port)),
        }
    }

    /// A connection to whoever listens there, or why there is none. Of a name the first few addresses are tried, each
    /// for as long as any; why it is none is said of the last of them.
    pub fn connect<R: Net<Stream = TcpStream>>(&self, net: &R) -> Result<TcpStream, Missed> {
        match self {
            HostAddress::At(address) => match connect_to(net, address) {
                Ok(stream) => Ok(stream),
                Err(why) => Err(Missed { why, tried: None }),
            },
            HostAddress::Named(host, port) => connect_to_one(net, host.as_str(), *port),
        }
    }

    /// Where a connection to there leads that a host's name was looked up for; None of an address.
    pub(crate) fn found(&self, stream: &TcpStream) -> Option<SocketAddr> {
        match self {
            HostAddress::At(_) => None,
            HostAddress::Named(_, _) => stream.peer_addr().ok(),
        }
    }
}

impl fmt::Display for HostAddress {
    fn fmt<W: fmt::Write>(&self, f: &mut fmt::Formatter<W>) -> fmt::Result {
        match self {
            HostAddress::At(address) => write!(f, "{address}"),
            HostAddress::Named(host, port) => write!(f, "{host}:{port}"),
        }
    }
}

fn connect_to<R: Net<Stream = TcpStream>>(
    net: &R,
    address: &SocketAddr,
) -> Result<TcpStream, Unreached> {
    match TcpStream::connect_timeout(net, address, Duration::from_millis(CONNECT_MS)) {
        Ok(stream) => Ok(stream),
        Err(error) => Err(Unreached::of(&error)),
    }
}

fn connect_to_one<R: Net<Stream = TcpStream>>(
    net: &R,
    host: &str,
    port: u16,
) -> Result<TcpStream, Missed> {
    let mut last = Missed {
        why: Unreached::NoAddress,
        tried: None,
    };
    let Ok(found) = (host, port).to_socket_addrs(net) else {
        return Err(last);
    };
    for address in found.take(MOST_TRIED) {
        match connect_to(net, &address) {
            Ok(stream) => return Ok(stream),
            Err(why) => {
                last = Missed {
                    why,
                    tried: Some(address),
                }
            }
        }
    }
    Err(last)
}
