//! Connections over TCP on loopback.
ghost use Rattle.std.specs.Prelude.{◌≡◌, ◌≤◌, IfOk, IfSome, length};

use crate::broken::Broken;
use crate::connection::Connection;
use crate::cut::Cut;
use crate::failures::Failures;
use crate::times::CONNECT_MS;
use crate::transport::Transport;
use std::alloc::Global;
use std::io;
use std::io::{ErrorKind, Read, Write};
use std::net::{Net, Shutdown, SocketAddr, TcpListener, TcpStream};
use std::sync::{Arc, Wait};
use std::time::Duration;

/// One end of a connection over TCP.
#[derive(Drop)]
pub struct TcpTransport {
    stream: TcpStream,
    failures: Failures,
}

impl TcpTransport {
    /// Reads what has come, without waiting. Returns how many bytes, or None where nothing has come. It is asked before
    /// the workers have the connection, since it changes for a moment how both ends of the stream wait.
    pub(crate) fn read_now(&mut self, room: &mut [u8]) -> io::Result<Option<usize>>
        ensures room { length room.new ≡ length room.old }
        ensures came { IfOk result (λ read. IfSome read (λ count. count ≤ length room.new)) }
    {
        self.stream.set_nonblocking(true)?;
        let read = self.stream.read(room);
        self.stream.set_nonblocking(false)?;
        match read {
            Ok(count) => Ok(Some(count)),
            Err(error) if error.kind() == ErrorKind::WouldBlock => Ok(None),
            Err(error) => Err(error),
        }
    }
}

impl Transport for TcpTransport {
    ghost failures = { λ t. t.failures };

    fn send<R: Wait>(&mut self, _rt: &R, bytes: &[u8]) -> Result<(), Broken> {
        match self.stream.write_all(bytes) {
            Ok(()) => Ok(()),
            Err(_) => self.failures.tell(()),
        }
    }

    fn recv<R: Wait>(&mut self, _rt: &R, room: &mut [u8]) -> Result<usize, Broken> {
        match self.stream.read(room) {
            Ok(count) => Ok(count),
            Err(_) => self.failures.tell(0),
        }
    }

    fn finish<R: Wait>(&mut self, _rt: &R) {
        let _ = self.stream.shutdown(Shutdown::Write);
    }
}

/// Ends a connection over TCP.
#[derive(Drop)]
pub struct TcpCut {
    stream: TcpStream,
}

impl Cut for TcpCut {
    fn cut<R: Wait>(&self, _rt: &R) {
        let _ = self.stream.shutdown(Shutdown::Both);
    }
}

/// A listener on 127.0.0.1, on a port that the system gives. Who asks it for a connection doesn't wait for one.
pub fn listen<R: Net<Stream = TcpStream, Listener = TcpListener>>(
    rt: &R,
) -> io::Result<TcpListener> {
    let listener = TcpListener::bind(rt, SocketAddr::from(([127, 0, 0, 1], 0)))?;
    listener.set_nonblocking(true)?;
    Ok(listener)
}

/// A connection that was made, with its socket and that one's own address.
#[derive(Drop)]
pub(crate) struct Connected {
    pub connection: Connection<TcpTransport, TcpCut>,
    pub socket: TcpStream,
    pub address: SocketAddr,
}

/// A new connection to a listener.
pub(crate) fn connect<R: Net<Stream = TcpStream>>(
    rt: &R,
    alloc: Global,
    address: SocketAddr,
) -> io::Result<Connected> {
    let stream = TcpStream::connect_timeout(rt, &address, Duration::from_millis(CONNECT_MS))?;
    let socket = stream.try_clone()?;
    let address = stream.local_addr()?;
    Ok(Connected {
        connection: connection(alloc, stream)?,
        socket,
        address,
    })
}

/// A connected stream as a connection, for its two workers. Frames are small and go at once.
pub fn connection(
    alloc: Global,
    stream: TcpStream,
) -> io::Result<Connection<TcpTransport, TcpCut>> {
    stream.set_nodelay(true)?;
    let outgoing = stream.try_clone()?;
    let cut = stream.try_clone()?;
    Ok(Connection {
        incoming: TcpTransport {
            stream,
            failures: Failures::new(),
        },
        outgoing: TcpTransport {
            stream: outgoing,
            failures: Failures::new(),
        },
        cut: Arc::new(alloc, TcpCut { stream: cut })?,
    })
}
