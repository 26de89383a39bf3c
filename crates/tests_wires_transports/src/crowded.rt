//! What a run's acceptor does with connections whose other end isn't known yet: a dialer is connecting meanwhile.
use crossbeam_channel::{Receiver, unbounded};
use std::alloc::Global;
use std::io::{ErrorKind, Read};
use std::net::{Net, SocketAddr, TcpListener, TcpStream};
use std::sync::{Mutex, Wait};
use std::time::{Clock, Duration};
use std::{io, thread};
use tests_samples::Machine;
use wires_transports::acceptor::pause;
use wires_transports::{
    Accepted, Acceptor, Dial, Ending, ExpectedPeers, TcpAcceptor, TcpCut, TcpDial, TcpTransport,
    Transport, listen,
};

// The Hello of federate 0 in incarnation 1.
const HELLO: [u8; 20] = [0, 0, 0, 16, 1, 1, 0, 0, 0, 0, 0, 1, 0, 0, 0, 0, 0, 0, 0, 0];

// Longer than anything here takes.
const LONG_MS: u64 = 20_000;

// As many connections are kept of which it isn't clear whose they are.
const KEPT: usize = 64;

// So many strangers more come while a dialer connects.
const TOO_MANY: usize = 6;

/// What comes to a federate's reader.
type Arrivals = Receiver<Accepted<TcpTransport, TcpCut>>;

/// What a test does where a run of one federate listens.
trait Visit {
    /// What it sees.
    fn visit<R: Wait + Clock + Net<Stream = TcpStream, Listener = TcpListener>>(
        rt: &R,
        alloc: Global,
        address: SocketAddr,
        expected: &ExpectedPeers,
        arrivals: &Arrivals,
    ) -> Option<bool>;
}

// What a visit sees, while the acceptor lets in what comes. None where there is no listener or no memory.
fn visited<V: Visit, R: Machine + Net<Stream = TcpStream, Listener = TcpListener>>(
    rt: &R,
) -> Option<bool> {
    let alloc = rt.alloc();
    let listener = listen(rt).ok()?;
    let address = listener.local_addr().ok()?;
    let expected = ExpectedPeers::new(alloc, 1).ok()?;
    let (reader, arrivals) = unbounded(alloc).ok()?;
    let mut readers = Vec::new(alloc);
    readers.push(reader).ok()?;
    let acceptor = TcpAcceptor::new(alloc, listener, &expected, readers).ok()?;
    let ending = Ending::new();
    let ((), seen) = thread::join(
        rt,
        || acceptor.let_in(rt, alloc, &ending),
        || {
            let seen = V::visit(rt, alloc, address, &expected, &arrivals);
            ending.set();
            seen
        },
    );
    seen
}

// Whether a connection is closed by the other end, on which nothing is said.
fn is_closed(stream: &TcpStream) -> bool {
    if stream
        .set_read_timeout(Some(Duration::from_millis(LONG_MS)))
        .is_err()
    {
        return false;
    }
    let mut reader = stream;
    match reader.read(&mut [0]) {
        Ok(count) => count == 0,
        Err(error) => error.kind() != ErrorKind::WouldBlock,
    }
}

// Whether it isn't closed so far.
fn is_open(stream: &TcpStream) -> bool {
    if stream.set_nonblocking(true).is_err() {
        return false;
    }
    let mut reader = stream;
    match reader.read(&mut [0]) {
        Ok(_) => false,
        Err(error) => error.kind() == ErrorKind::WouldBlock,
    }
}

/// A network on which strangers come before a dialer's connection is made: as many as are kept, and some more. It is
/// made once the oldest of them were closed, and is handed to the dialer once one more was, and no other: so the
/// acceptor has it by then, and doesn't know whose it is.
#[derive(Drop)]
struct Crowded<'a, R> {
    rt: &'a R,
    alloc: Global,
    // They stay.
    strangers: Mutex<Vec<TcpStream>>,
}

impl<'a, R: Wait + Net<Stream = TcpStream, Listener = TcpListener>> Crowded<'a, R> {
    // The dialer's connection. None where the oldest weren't closed, or more than these.
    fn connected(&self, address: SocketAddr) -> Option<TcpStream> {
        let mut strangers = self.strangers.lock(self.rt);
        for _ in 0..KEPT + TOO_MANY {
            strangers
                .push(TcpStream::connect(self.rt, address).ok()?)
                .ok()?;
        }
        for stranger in strangers.get(..TOO_MANY)? {
            if !is_closed(stranger) {
                return None;
            }
        }
        let own = TcpStream::connect(self.rt, address).ok()?;
        if is_closed(strangers.get(TOO_MANY)?) && is_open(strangers.get(TOO_MANY + 1)?) {
            Some(own)
        } else {
            None
        }
    }
}

impl<'a, R: Wait + Net<Stream = TcpStream, Listener = TcpListener>> Net for Crowded<'a, R> {
    type Stream = TcpStream;

    type Listener = TcpListener;

    fn bind(&self, addr: SocketAddr) -> io::Result<TcpListener> {
        self.rt.bind(addr)
    }

    fn connect(&self, addr: SocketAddr) -> io::Result<TcpStream> {
        self.connected(addr)
            .ok_or(io::Error::from(ErrorKind::Other))
    }

    fn connect_timeout(&self, addr: SocketAddr, _timeout: Duration) -> io::Result<TcpStream> {
        self.connect(addr)
    }
}

/// A federate's connection comes last of more than are kept: those that came first are closed, and it is let in.
struct Newest;

impl Visit for Newest {
    fn visit<R: Wait + Clock + Net<Stream = TcpStream, Listener = TcpListener>>(
        rt: &R,
        alloc: Global,
        address: SocketAddr,
        expected: &ExpectedPeers,
        arrivals: &Arrivals,
    ) -> Option<bool> {
        let net = Crowded {
            rt,
            alloc,
            strangers: Mutex::new(Vec::new(alloc)),
        };
        let dial = TcpDial {
            net: &net,
            address,
            expected,
            federate: 0,
        };
        let mut own = dial.dial(rt, alloc)?;
        own.outgoing.send(rt, &HELLO).ok()?;
        let let_in = arrivals
            .recv_timeout(rt, Duration::from_millis(LONG_MS))
            .ok()?;
        Some(let_in.first.as_slice() == HELLO.as_slice())
    }
}

#[test]
fn closes_the_oldest_of_too_many_whose_other_end_is_not_known(rt: HostRuntime) {
    assert_eq!(rt; visited::<Newest, _>(&rt), Some(true));
}

/// A network on which nobody is there.
#[derive(Drop)]
struct Nobody<'a, R> {
    rt: &'a R,
}

impl<'a, R: Net<Stream = TcpStream, Listener = TcpListener>> Net for Nobody<'a, R> {
    type Stream = TcpStream;

    type Listener = TcpListener;

    fn bind(&self, addr: SocketAddr) -> io::Result<TcpListener> {
        self.rt.bind(addr)
    }

    fn connect(&self, _addr: SocketAddr) -> io::Result<TcpStream> {
        Err(io::Error::from(ErrorKind::ConnectionRefused))
    }

    fn connect_timeout(&self, addr: SocketAddr, _timeout: Duration) -> io::Result<TcpStream> {
        self.connect(addr)
    }
}

/// A dialer's attempt has failed, so it connects no more: whoever comes then is a stranger at once.
struct BehindAFailure;

impl Visit for BehindAFailure {
    fn visit<R: Wait + Clock + Net<Stream = TcpStream, Listener = TcpListener>>(
        rt: &R,
        alloc: Global,
        address: SocketAddr,
        expected: &ExpectedPeers,
        arrivals: &Arrivals,
    ) -> Option<bool> {
        let net = Nobody { rt };
        let dial = TcpDial {
            net: &net,
            address,
            expected,
            federate: 0,
        };
        let has_failed = dial.dial(rt, alloc).is_none();
        let stranger = TcpStream::connect(rt, address).ok()?;
        Some(has_failed && is_closed(&stranger) && arrivals.try_recv(rt).is_err())
    }
}

#[test]
fn closes_a_stranger_behind_an_attempt_that_failed(rt: HostRuntime) {
    assert_eq!(rt; visited::<BehindAFailure, _>(&rt), Some(true));
}

// A crowd would fill the system's queue of a listener that is looked at seldom.
#[test]
fn looks_each_ms_and_where_it_is_calm_each_10_ms(rt: HostRuntime) {
    let pauses = [pause(false), pause(true)];
    assert_eq!(rt; pauses, [1, 10]);
}
