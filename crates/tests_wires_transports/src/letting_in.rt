//! Which connections a run's acceptor lets in over TCP.
use crossbeam_channel::{Receiver, Sender, unbounded};
use std::alloc::Global;
use std::io::{ErrorKind, Read, Write};
use std::net::{Net, SocketAddr, TcpListener, TcpStream};
use std::sync::Wait;
use std::thread;
use std::time::{Clock, Duration};
use tests_samples::Machine;
use wires_transports::{
    Accepted, Acceptor, Connection, Dial, Ending, ExpectedPeers, TcpAcceptor, TcpCut, TcpDial,
    TcpTransport, Transport, listen,
};

// The Hello of federate 0 in incarnation 1.
const HELLO: [u8; 20] = [0, 0, 0, 16, 1, 1, 0, 0, 0, 0, 0, 1, 0, 0, 0, 0, 0, 0, 0, 0];

// An Ack, which no connection begins with.
const ACK: [u8; 17] = [0, 0, 0, 13, 3, 0, 0, 0, 1, 0, 0, 0, 0, 0, 0, 0, 2];

// Longer than anything here takes.
const LONG_MS: u64 = 20_000;

/// What comes to a federate's reader.
type Arrivals = Receiver<Accepted<TcpTransport, TcpCut>>;

/// Where a run of one federate listens, and what it lets in.
#[derive(Drop)]
struct Entrance<'a> {
    alloc: Global,
    address: SocketAddr,
    expected: &'a ExpectedPeers,
    arrivals: Arrivals,
    ending: &'a Ending,
}

/// What a test does at an entrance.
trait Visit {
    /// What it sees.
    fn visit<R: Wait + Clock + Net<Stream = TcpStream, Listener = TcpListener>>(
        rt: &R,
        entrance: Entrance<'_>,
    ) -> Option<bool>;
}

// What a visit sees, while the acceptor of one federate lets in what comes. None where there is no listener.
fn visited<V: Visit, R: Machine + Net<Stream = TcpStream, Listener = TcpListener>>(
    rt: &R,
) -> Option<bool> {
    let alloc = rt.alloc();
    let listener = listen(rt).ok()?;
    let address = listener.local_addr().ok()?;
    let expected = ExpectedPeers::new(alloc, 1).ok()?;
    let (reader, arrivals) = unbounded(alloc).ok()?;
    let acceptor = TcpAcceptor::new(alloc, listener, &expected, alone(alloc, reader)?).ok()?;
    let ending = Ending::new();
    let entrance = Entrance {
        alloc,
        address,
        expected: &expected,
        arrivals,
        ending: &ending,
    };
    let ((), seen) = thread::join(
        rt,
        || acceptor.let_in(rt, alloc, &ending),
        || {
            let seen = V::visit(rt, entrance);
            ending.set();
            seen
        },
    );
    seen
}

// A list of one.
fn alone<T: Drop>(alloc: Global, item: T) -> Option<Vec<T>> {
    let mut items = Vec::new(alloc);
    items.push(item).ok()?;
    Some(items)
}

// The federate's connection, on which this was sent.
fn dialed<R: Wait + Clock + Net<Stream = TcpStream, Listener = TcpListener>>(
    rt: &R,
    entrance: &Entrance<'_>,
    first: &[u8],
) -> Option<Connection<TcpTransport, TcpCut>> {
    let dial = TcpDial {
        net: rt,
        address: entrance.address,
        expected: entrance.expected,
        federate: 0,
    };
    let mut connection = dial.dial(rt, entrance.alloc)?;
    connection.outgoing.send(rt, first).ok()?;
    Some(connection)
}

// The next that comes to the reader.
fn next<R: Wait + Clock>(rt: &R, arrivals: &Arrivals) -> Option<Accepted<TcpTransport, TcpCut>> {
    arrivals
        .recv_timeout(rt, Duration::from_millis(LONG_MS))
        .ok()
}

// Whether what is sent at one end comes out at the other.
fn are_joined<R: Wait>(rt: &R, sender: &mut TcpTransport, receiver: &mut TcpTransport) -> bool {
    let mut room = [0; 8];
    sender.send(rt, &[42]).is_ok() && receiver.recv(rt, &mut room) == Ok(1) && room[0] == 42
}

// Whether nothing more comes, for the other end has ended.
fn is_ended<R: Wait>(rt: &R, incoming: &mut TcpTransport) -> bool {
    let mut room = [0; 8];
    !matches!(incoming.recv(rt, &mut room), Ok(1..))
}

// Whether a stranger's connection was closed.
fn is_closed(stream: &mut TcpStream) -> bool {
    let mut room = [0; 8];
    let limit = Some(Duration::from_millis(LONG_MS));
    match (stream.set_read_timeout(limit), stream.read(&mut room)) {
        (Ok(()), Ok(count)) => count == 0,
        (Ok(()), Err(error)) => error.kind() != ErrorKind::WouldBlock,
        (Err(_), _) => false,
    }
}

// This many connections that no federate makes, each second of which says that it is federate 0.
fn strangers<R: Wait + Clock + Net<Stream = TcpStream, Listener = TcpListener>>(
    rt: &R,
    entrance: &Entrance<'_>,
    count: usize,
) -> Option<Vec<TcpStream>> {
    let mut streams = Vec::new(entrance.alloc);
    for number in 0..count {
        let mut stream = TcpStream::connect(rt, entrance.address).ok()?;
        if number % 2 == 0 {
            stream.write_all(&HELLO).ok()?;
        }
        streams.push(stream).ok()?;
    }
    Some(streams)
}

/// 200 strangers come first, and stay: the federate's connection alone is let in, and the strangers' are closed.
struct AmongStrangers;

impl Visit for AmongStrangers {
    fn visit<R: Wait + Clock + Net<Stream = TcpStream, Listener = TcpListener>>(
        rt: &R,
        entrance: Entrance<'_>,
    ) -> Option<bool> {
        let mut strangers = strangers(rt, &entrance, 200)?;
        let mut own = dialed(rt, &entrance, &HELLO)?;
        let mut let_in = next(rt, &entrance.arrivals)?;
        let is_own = let_in.first.as_slice() == HELLO.as_slice()
            && are_joined(rt, &mut let_in.connection.outgoing, &mut own.incoming);
        let are_closed = strangers.iter_mut().all(is_closed);
        Some(is_own && are_closed && entrance.arrivals.try_recv(rt).is_err())
    }
}

#[test]
fn lets_in_the_federate_alone_among_200_strangers(rt: HostRuntime) {
    assert_eq!(rt; visited::<AmongStrangers, _>(&rt), Some(true));
}

/// The federate connects again: the newer connection is let in, and the older one is ended.
struct Replaced;

impl Visit for Replaced {
    fn visit<R: Wait + Clock + Net<Stream = TcpStream, Listener = TcpListener>>(
        rt: &R,
        entrance: Entrance<'_>,
    ) -> Option<bool> {
        let mut older = dialed(rt, &entrance, &HELLO)?;
        let mut older_let_in = next(rt, &entrance.arrivals)?;
        let mut newer = dialed(rt, &entrance, &HELLO)?;
        let mut newer_let_in = next(rt, &entrance.arrivals)?;
        Some(
            is_ended(rt, &mut older_let_in.connection.incoming)
                && is_ended(rt, &mut older.incoming)
                && are_joined(
                    rt,
                    &mut newer.outgoing,
                    &mut newer_let_in.connection.incoming,
                ),
        )
    }
}

#[test]
fn ends_the_older_connection_of_a_federate(rt: HostRuntime) {
    assert_eq!(rt; visited::<Replaced, _>(&rt), Some(true));
}

/// A federate's connection that begins with another frame, or is silent, is closed.
struct WithoutHello;

impl Visit for WithoutHello {
    fn visit<R: Wait + Clock + Net<Stream = TcpStream, Listener = TcpListener>>(
        rt: &R,
        entrance: Entrance<'_>,
    ) -> Option<bool> {
        let mut acknowledging = dialed(rt, &entrance, &ACK)?;
        let is_refused = is_ended(rt, &mut acknowledging.incoming);
        let mut silent = dialed(rt, &entrance, &[])?;
        let is_given_up = is_ended(rt, &mut silent.incoming);
        Some(is_refused && is_given_up && entrance.arrivals.try_recv(rt).is_err())
    }
}

#[test]
fn closes_a_connection_without_a_hello(rt: HostRuntime) {
    assert_eq!(rt; visited::<WithoutHello, _>(&rt), Some(true));
}

/// Where the reader takes no connection any more, the one that was to be handed to it is closed.
struct WithoutReader;

impl Visit for WithoutReader {
    fn visit<R: Wait + Clock + Net<Stream = TcpStream, Listener = TcpListener>>(
        rt: &R,
        entrance: Entrance<'_>,
    ) -> Option<bool> {
        let Entrance {
            alloc,
            address,
            expected,
            arrivals,
            ending,
        } = entrance;
        drop(arrivals);
        let (_, none) = unbounded(alloc).ok()?;
        let entrance = Entrance {
            alloc,
            address,
            expected,
            arrivals: none,
            ending,
        };
        let mut own = dialed(rt, &entrance, &HELLO)?;
        Some(is_ended(rt, &mut own.incoming))
    }
}

#[test]
fn closes_a_connection_that_no_reader_takes(rt: HostRuntime) {
    assert_eq!(rt; visited::<WithoutReader, _>(&rt), Some(true));
}

/// A connection that was let in, and that nobody reads, is ended a while after the run is to end.
struct Held;

impl Visit for Held {
    fn visit<R: Wait + Clock + Net<Stream = TcpStream, Listener = TcpListener>>(
        rt: &R,
        entrance: Entrance<'_>,
    ) -> Option<bool> {
        let mut own = dialed(rt, &entrance, &HELLO)?;
        let mut held = next(rt, &entrance.arrivals)?;
        entrance.ending.set();
        Some(is_ended(rt, &mut own.incoming) && is_ended(rt, &mut held.connection.incoming))
    }
}

#[test]
fn ends_with_the_run_though_a_connection_is_held(rt: HostRuntime) {
    assert_eq!(rt; visited::<Held, _>(&rt), Some(true));
}
