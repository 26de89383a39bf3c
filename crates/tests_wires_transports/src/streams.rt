//! How a connection over TCP is set: what is sent goes at once, and who reads waits for what comes, also where somebody
//! has looked before whether something came.
use crossbeam_channel::{Receiver, unbounded};
use std::alloc::Global;
use std::net::{Net, SocketAddr, TcpListener, TcpStream};
use std::sync::Wait;
use std::sync::atomic::{AtomicBool, Ordering};
use std::thread;
use std::time::{Clock, Duration};
use tests_samples::Machine;
use wires_transports::tcp::connection;
use wires_transports::{
    Accepted, Acceptor, Dial, Ending, ExpectedPeers, TcpAcceptor, TcpCut, TcpDial, TcpTransport,
    Transport, listen,
};

// The Hello of federate 0 in incarnation 1.
const HELLO: [u8; 20] = [0, 0, 0, 16, 1, 1, 0, 0, 0, 0, 0, 1, 0, 0, 0, 0, 0, 0, 0, 0];

// Longer than anything here takes.
const LONG_MS: u64 = 20_000;

// Whether a stream sends at once what is written on it, before and once it is a connection's.
fn is_undelayed<R: Net<Stream = TcpStream, Listener = TcpListener>>(
    rt: &R,
    alloc: Global,
) -> Option<(bool, bool)> {
    let listener = TcpListener::bind(rt, SocketAddr::from(([127, 0, 0, 1], 0))).ok()?;
    let stream = TcpStream::connect(rt, listener.local_addr().ok()?).ok()?;
    let other = stream.try_clone().ok()?;
    let before = other.nodelay().ok()?;
    let _connection = connection(alloc, stream).ok()?;
    Some((before, other.nodelay().ok()?))
}

#[test]
fn sends_frames_at_once(rt: HostRuntime) {
    assert_eq!(rt; is_undelayed(&rt, rt.alloc()), Some((false, true)));
}

/// How far a reader is.
#[derive(Drop)]
struct Reader {
    has_begun: AtomicBool,
    has_ended: AtomicBool,
}

// Reads a byte, which isn't there so far.
fn reads<R: Wait, T: Transport>(rt: &R, incoming: &mut T, reader: &Reader) -> bool {
    reader.has_begun.store(true, Ordering::SeqCst);
    let mut room = [0; 8];
    let read = incoming.recv(rt, &mut room);
    reader.has_ended.store(true, Ordering::SeqCst);
    read == Ok(1) && room[0] == 42
}

// Sends a byte a while after the reader has begun; whether that waits still.
fn sends<R: Wait + Clock, T: Transport>(rt: &R, outgoing: &mut T, reader: &Reader) -> bool {
    for _ in rt.forever() {
        if reader.has_begun.load(Ordering::SeqCst) {
            break;
        }
        thread::sleep(rt, Duration::from_millis(1));
    }
    thread::sleep(rt, Duration::from_millis(100));
    let is_waiting = !reader.has_ended.load(Ordering::SeqCst);
    outgoing.send(rt, &[42]).is_ok() && is_waiting
}

// Whether who reads at one end waits until something is sent at the other.
fn waits<R: Machine>(rt: &R, incoming: &mut TcpTransport, outgoing: &mut TcpTransport) -> bool {
    let reader = Reader {
        has_begun: AtomicBool::new(false),
        has_ended: AtomicBool::new(false),
    };
    let (has_read, was_waiting) = thread::join(
        rt,
        || reads(rt, incoming, &reader),
        || sends(rt, outgoing, &reader),
    );
    has_read && was_waiting
}

// Whether a connection's two ends wait for each other, which a federate makes and an acceptor lets in: the federate's
// for what the other one sends, and the other one for what that sends.
fn ends_wait<R: Machine + Net<Stream = TcpStream, Listener = TcpListener>>(
    rt: &R,
) -> Option<(bool, bool)> {
    let alloc = rt.alloc();
    let listener = listen(rt).ok()?;
    let address = listener.local_addr().ok()?;
    let expected = ExpectedPeers::new(alloc, 1).ok()?;
    let (reader, arrivals) = unbounded(alloc).ok()?;
    let mut readers = Vec::new(alloc);
    readers.push(reader).ok()?;
    let acceptor = TcpAcceptor::new(alloc, listener, &expected, readers).ok()?;
    let ending = Ending::new();
    let dial = TcpDial {
        net: rt,
        address,
        expected: &expected,
        federate: 0,
    };
    let ((), seen) = thread::join(
        rt,
        || acceptor.let_in(rt, alloc, &ending),
        || {
            let seen = both_wait(rt, alloc, &dial, &arrivals);
            ending.set();
            seen
        },
    );
    seen
}

// The same of the connection that this makes, and that arrives there.
fn both_wait<R: Machine + Net<Stream = TcpStream, Listener = TcpListener>>(
    rt: &R,
    alloc: Global,
    dial: &TcpDial<'_, R>,
    arrivals: &Receiver<Accepted<TcpTransport, TcpCut>>,
) -> Option<(bool, bool)> {
    let mut own = dial.dial(rt, alloc)?;
    own.outgoing.send(rt, &HELLO).ok()?;
    let limit = Duration::from_millis(LONG_MS);
    let mut other = arrivals.recv_timeout(rt, limit).ok()?.connection;
    let first = waits(rt, &mut own.incoming, &mut other.outgoing);
    let second = waits(rt, &mut other.incoming, &mut own.outgoing);
    Some((first, second))
}

#[test]
fn waits_for_what_comes(rt: HostRuntime) {
    assert_eq!(rt; ends_wait(&rt), Some((true, true)));
}
