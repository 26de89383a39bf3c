//! Where a coordinator of three federates lets processes in, and what a test does there.
use crate::process::{CountingBarrier, Process};
use crossbeam_channel::{Receiver, Sender, unbounded};
use std::alloc::Global;
use std::io::{ErrorKind, Read, Write};
use std::net::{Net, SocketAddr, TcpListener, TcpStream};
use std::process::Abort;
use std::random::RandomSource;
use std::sync::Wait;
use std::thread::Threads;
use std::time::{Clock, Duration};
use std::{io, thread};
use wires_greeting::{CoordinatorSide, FederateSide, Greeting, Key};
use wires_hosts::{
    FederateHost, HeardTransport, HostAcceptor, HostAddress, HostEntrance, listen_at,
};
use wires_transports::{Accepted, Acceptor, Connection, TcpCut, TcpTransport, Transport};

/// What a test's connections need of the machine, beside the network.
pub trait Host: Wait + Clock + RandomSource {}

impl<R: Wait + Clock + RandomSource> Host for R {}

/// The machine of a test, with threads.
pub trait Machine: Host + AllocGlobal + Abort + Threads + Sync {}

impl<R: Host + AllocGlobal + Abort + Threads + Sync> Machine for R {}

/// The secret that the coordinator has.
pub const SECRET: &[u8; 16] = b"0123456789abcdef";

/// The digest of the files that it has.
pub const FILES: [u8; 32] = [7; 32];

/// The Hello of federate 0 in incarnation 1.
pub const HELLO: [u8; 20] = [0, 0, 0, 16, 1, 1, 0, 0, 0, 0, 0, 1, 0, 0, 0, 0, 0, 0, 0, 0];

/// The Hello of federate 1.
pub const OTHER_HELLO: [u8; 20] = [0, 0, 0, 16, 1, 1, 0, 1, 0, 0, 0, 1, 0, 0, 0, 0, 0, 0, 0, 0];

/// The Hello of federate 2.
pub const THIRD_HELLO: [u8; 20] = [0, 0, 0, 16, 1, 1, 0, 2, 0, 0, 0, 1, 0, 0, 0, 0, 0, 0, 0, 0];

/// An acknowledgement.
pub const ACKNOWLEDGEMENT: [u8; 20] = [0, 0, 0, 13, 3, 0, 0, 0, 1, 0, 0, 0, 0, 0, 0, 0, 2, 0, 0, 0];

/// Longer than anything here takes.
pub const LONG_MS: u64 = 20_000;

/// One end of a federate's connection.
pub type Own<'a> = Connection<HeardTransport<'a, TcpTransport, CountingBarrier>, TcpCut>;

/// What comes to a federate's reader at the coordinator.
pub type Came<'a> = Accepted<HeardTransport<'a, TcpTransport, CountingBarrier>, TcpCut>;

/// Where a coordinator of three federates lets processes in.
#[derive(Drop)]
pub struct Entrance<'a> {
    pub alloc: Global,
    pub address: SocketAddr,
    pub coordinator: &'a Process,
    /// A federate's process.
    pub process: &'a Process,
    /// What comes to each federate's reader, by its number.
    pub arrivals: Vec<Receiver<Came<'a>>>,
}

/// Random bytes that a test knows: all are this one.
#[derive(Drop)]
pub struct Known {
    pub byte: u8,
}

impl RandomSource for Known {
    fn fill_bytes(&self, buf: &mut [u8]) -> io::Result<()> {
        buf.fill(self.byte);
        Ok(())
    }
}

/// A listener on loopback, which doesn't wait.
pub fn listener_of<R: Net<Stream = TcpStream, Listener = TcpListener>>(
    rt: &R,
) -> Option<TcpListener> {
    listen_at(rt, HostAddress::At(SocketAddr::from(([127, 0, 0, 1], 0)))).ok()
}

/// One that waits until somebody connects.
pub fn waiting_listener_of<R: Net<Stream = TcpStream, Listener = TcpListener>>(
    rt: &R,
) -> Option<TcpListener> {
    let listener = listener_of(rt)?;
    listener.set_nonblocking(false).ok()?;
    Some(listener)
}

/// Whether a visit to a coordinator of three federates sees what it should, whose random bytes come from this source.
/// None where there is no listener or no memory. A run that the visit doesn't end is given up behind it.
pub fn visited<
    R: Machine + Net<Stream = TcpStream, Listener = TcpListener>,
    S: RandomSource + Sync,
    V: FnOnce(&R, &Entrance<'_>) -> Option<bool> + Send,
>(rt: &R, random: &S, visit: V) -> Option<bool>
    requires { (visit : _) (rt : _) (entrance : _) → V.pre visit rt entrance }
{
    let processes = Processes::new(rt.alloc())?;
    visited_at(rt, random, &processes, LONG_MS, visit)
}

/// Whether each of three federates was told that the run is finished, and whether all were, behind a visit that sees
/// what it should. The coordinator tells whoever asks so for this long, in ms.
pub fn told_behind<
    R: Machine + Net<Stream = TcpStream, Listener = TcpListener>,
    V: FnOnce(&R, &Entrance<'_>) -> Option<bool> + Send,
>(rt: &R, patience_ms: u64, visit: V) -> Option<[bool; 4]>
    requires { (visit : _) (rt : _) (entrance : _) → V.pre visit rt entrance }
{
    let processes = Processes::new(rt.alloc())?;
    if visited_at(rt, rt, &processes, patience_ms, visit) != Some(true) {
        return None;
    }
    let heard = &processes.coordinator.heard;
    Some([
        heard.is_told(0),
        heard.is_told(1),
        heard.is_told(2),
        heard.are_all_told(),
    ])
}

/// The coordinator's process, of three federates, and one of a federate.
#[derive(Drop)]
struct Processes {
    coordinator: Process,
    federate: Process,
}

impl Processes {
    fn new(alloc: Global) -> Option<Processes> {
        Some(Processes {
            coordinator: Process::of(alloc, 3)?,
            federate: Process::new(alloc)?,
        })
    }
}

// Whether a visit to this coordinator sees what it should.
fn visited_at<
    R: Machine + Net<Stream = TcpStream, Listener = TcpListener>,
    S: RandomSource + Sync,
    V: FnOnce(&R, &Entrance<'_>) -> Option<bool> + Send,
>(rt: &R, random: &S, processes: &Processes, patience_ms: u64, visit: V) -> Option<bool>
    requires { (visit : _) (rt : _) (entrance : _) → V.pre visit rt entrance }
{
    let alloc = rt.alloc();
    let coordinator = &processes.coordinator;
    let listener = listener_of(rt)?;
    let address = listener.local_addr().ok()?;
    let host = host_at(listener, patience_ms)?;
    let (acceptor, arrivals) = acceptor_at(alloc, random, host, coordinator, 3)?;
    let entrance = Entrance {
        alloc,
        address,
        coordinator,
        process: &processes.federate,
        arrivals,
    };
    let ((), seen) = thread::join(
        rt,
        || acceptor.let_in(rt, alloc, &coordinator.ending),
        || {
            let seen = visit(rt, &entrance);
            if !coordinator.ending.is_set() {
                coordinator.heard.give_up();
                coordinator.ending.set();
            }
            seen
        },
    );
    seen
}

/// What a coordinator that listens there has, and how long it tells whoever asks that the run is finished, in ms.
pub fn host_at(listener: TcpListener, patience_ms: u64) -> Option<HostEntrance> {
    Some(HostEntrance {
        listener,
        key: key_of(SECRET)?,
        files: FILES,
        patience: Duration::from_millis(patience_ms),
    })
}

/// The acceptor of a coordinator with readers for this many federates, and what comes to each of them.
pub fn acceptor_at<'a, S: RandomSource>(
    alloc: Global,
    random: &'a S,
    host: HostEntrance,
    coordinator: &'a Process,
    federates: usize,
) -> Option<
    (
        HostAcceptor<'a, S, CountingBarrier>,
        Vec<Receiver<Came<'a>>>,
    ),
> {
    let mut readers = Vec::new(alloc);
    let mut arrivals = Vec::new(alloc);
    for _ in 0..federates {
        add_reader(alloc, &mut readers, &mut arrivals)?;
    }
    let heard = &coordinator.heard;
    let barrier = &coordinator.barrier;
    let acceptor = HostAcceptor::new(alloc, random, host, heard, barrier, readers).ok()?;
    Some((acceptor, arrivals))
}

// One reader more, and what comes to it.
fn add_reader<'a>(
    alloc: Global,
    readers: &mut Vec<Sender<Came<'a>>>,
    arrivals: &mut Vec<Receiver<Came<'a>>>,
) -> Option<()> {
    let (reader, came) = unbounded(alloc).ok()?;
    readers.push(reader).ok()?;
    arrivals.push(came).ok()
}

/// The key of a secret.
pub fn key_of(secret: &[u8]) -> Option<Key> {
    Key::of_secret(secret).ok()
}

/// A federate's process of this number that has what the coordinator at this address has.
pub fn host_of(address: SocketAddr, federate: u16) -> Option<FederateHost> {
    Some(FederateHost {
        address: HostAddress::At(address),
        key: key_of(SECRET)?,
        files: FILES,
        federate,
    })
}

/// Such a process of federate 0, where the coordinator listens there.
pub fn host_to(listener: &TcpListener) -> Option<FederateHost> {
    host_of(listener.local_addr().ok()?, 0)
}

/// What is seen at a connection of this federate's process, whose end comes first, and then that at the coordinator. It
/// says its Hello, and that comes to its own reader. None where that isn't so, or where anything came before it.
pub fn when_let_in<
    R: Host + Net<Stream = TcpStream, Listener = TcpListener>,
    L: FnOnce(&mut Own<'_>, &mut Own<'_>) -> Option<bool>,
>(rt: &R, entrance: &Entrance<'_>, process: &Process, federate: u16, look: L) -> Option<bool>
    requires { L.IsAlwaysCallable look }
{
    let host = host_of(entrance.address, federate)?;
    let mut own = process.dial(rt, entrance.alloc, host)?;
    if is_empty(rt, entrance) && says_hello(rt, &mut own, federate) {
        looked_at(rt, entrance, &mut own, federate, look)
    } else {
        None
    }
}

// What is seen there once it has said its Hello.
fn looked_at<R: Host, L: FnOnce(&mut Own<'_>, &mut Own<'_>) -> Option<bool>>(
    rt: &R,
    entrance: &Entrance<'_>,
    own: &mut Own<'_>,
    federate: u16,
    look: L,
) -> Option<bool>
    requires { L.IsAlwaysCallable look }
{
    let mut other = let_in(rt, entrance, federate)?;
    look(own, &mut other)
}

// Says the Hello of this federate.
fn says_hello<R: Wait>(rt: &R, own: &mut Own<'_>, federate: u16) -> bool {
    match hello_of(federate) {
        Some(hello) => own.outgoing.send(rt, &hello).is_ok(),
        None => false,
    }
}

// The Hello of this federate.
fn hello_of(federate: u16) -> Option<[u8; 20]> {
    match federate {
        0 => Some(HELLO),
        1 => Some(OTHER_HELLO),
        2 => Some(THIRD_HELLO),
        _ => None,
    }
}

// The next connection that comes to this federate's reader, where its Hello comes first.
fn let_in<'a, R: Host>(rt: &R, entrance: &Entrance<'a>, federate: u16) -> Option<Own<'a>> {
    let hello = hello_of(federate)?;
    let Accepted { connection, first } = next(rt, entrance, federate)?;
    if first.as_slice() == hello.as_slice() {
        Some(connection)
    } else {
        None
    }
}

/// The next that comes to this federate's reader.
pub fn next<'a, R: Host>(rt: &R, entrance: &Entrance<'a>, federate: u16) -> Option<Came<'a>> {
    entrance
        .arrivals
        .get(usize::from(federate))?
        .recv_timeout(rt, Duration::from_millis(LONG_MS))
        .ok()
}

/// Whether a federate's process is let in now, frames pass both ways, both sides have heard what came, and nobody else
/// was let in before it or behind it.
pub fn is_let_in<R: Host + Net<Stream = TcpStream, Listener = TcpListener>>(
    rt: &R,
    entrance: &Entrance<'_>,
    federate: u16,
) -> Option<bool> {
    let process = entrance.process;
    let before = (process.heard.count(), entrance.coordinator.heard.count());
    let are_both = when_let_in(rt, entrance, process, federate, |own, other| {
        Some(
            are_joined(rt, &mut other.outgoing, &mut own.incoming)
                && are_joined(rt, &mut own.outgoing, &mut other.incoming),
        )
    });
    let heard = (process.heard.count(), entrance.coordinator.heard.count());
    let is_heard = heard == (before.0.saturating_add(1), before.1.saturating_add(2));
    let goes_on = process.heard.last_fault(rt).is_none() && !process.ending.is_set();
    Some(are_both == Some(true) && is_heard && goes_on && is_empty(rt, entrance))
}

/// Whether nothing waits for a reader.
pub fn is_empty<R: Host>(rt: &R, entrance: &Entrance<'_>) -> bool {
    for arrivals in &entrance.arrivals {
        if arrivals.try_recv(rt).is_ok() {
            return false;
        }
    }
    true
}

/// The run is to end: whether federate 0's reader gets no more connections.
pub fn gets_no_more<R: Host>(rt: &R, entrance: &Entrance<'_>) -> bool {
    entrance.coordinator.ending.set();
    match entrance.arrivals.first() {
        Some(arrivals) => arrivals.recv(rt).is_err(),
        None => false,
    }
}

/// Whether what is sent at one end comes out at the other.
pub fn are_joined<R: Wait, S: Transport, T: Transport>(
    rt: &R,
    sender: &mut S,
    receiver: &mut T,
) -> bool {
    let mut room = [0; 8];
    sender.send(rt, &[42]).is_ok() && receiver.recv(rt, &mut room) == Ok(1) && room[0] == 42
}

/// Whether nothing more comes, for the other end has ended.
pub fn is_ended<R: Wait, T: Transport>(rt: &R, incoming: &mut T) -> bool {
    let mut room = [0; 8];
    !matches!(incoming.recv(rt, &mut room), Ok(1..))
}

/// Whether a connection is closed by the other end, behind at most this many bytes.
pub fn is_closed(stream: &TcpStream, most: usize) -> bool {
    let limit = Some(Duration::from_millis(LONG_MS));
    if stream.set_read_timeout(limit).is_err() {
        return false;
    }
    let mut reader = stream;
    let mut room = [0; 1];
    for _ in 0..=most {
        match reader.read(&mut room) {
            Ok(0) => return true,
            Ok(_) => {}
            Err(error) => return error.kind() != ErrorKind::WouldBlock,
        }
    }
    false
}

/// What a federate says first, by hand.
pub fn greeting_of(federate: u16) -> Greeting {
    Greeting {
        federate,
        files: FILES,
        random: [8; 32],
    }
}

/// A connection on which a federate has said this many bytes of its greeting by hand.
pub fn greeted<R: Net<Stream = TcpStream, Listener = TcpListener>>(
    rt: &R,
    address: SocketAddr,
    federate: u16,
    size: usize,
) -> Option<TcpStream> {
    let bytes = greeting_of(federate).bytes();
    let said = bytes.get(..size)?;
    let mut stream = TcpStream::connect(rt, address).ok()?;
    stream.write_all(said).ok()?;
    Some(stream)
}

/// A connection on which a federate has greeted by hand, and what it was answered.
pub fn challenged<R: Net<Stream = TcpStream, Listener = TcpListener>>(
    rt: &R,
    address: SocketAddr,
    federate: u16,
) -> Option<(TcpStream, [u8; 65])> {
    let mut stream = greeted(rt, address, federate, 74)?;
    let mut challenge = [0; 65];
    stream.read_exact(&mut challenge).ok()?;
    Some((stream, challenge))
}

/// What such a federate proves where it was answered this.
pub fn proof_of(federate: u16, challenge: &[u8; 65]) -> Option<[u8; 32]> {
    let mut side = FederateSide::new(key_of(SECRET)?, greeting_of(federate));
    side.challenged(challenge)
}

/// A connection on which a federate greeted by hand, and proved it, and then said this; and its proof.
pub fn said<R: Net<Stream = TcpStream, Listener = TcpListener>>(
    rt: &R,
    address: SocketAddr,
    federate: u16,
    first: &[u8],
) -> Option<(TcpStream, [u8; 32])> {
    let (mut stream, challenge) = challenged(rt, address, federate)?;
    let proof = proof_of(federate, &challenge)?;
    stream.write_all(&proof).ok()?;
    stream.write_all(first).ok()?;
    Some((stream, proof))
}

/// The next connection to somebody who listens in the coordinator's place, and its greeting.
pub fn greeting_at(listener: &TcpListener) -> Option<(TcpStream, [u8; 74])> {
    let (mut stream, _) = listener.accept().ok()?;
    let mut greeting = [0; 74];
    stream.read_exact(&mut greeting).ok()?;
    Some((stream, greeting))
}

/// What a coordinator with this secret answers to a greeting of federate 0, where that may take part or not and the run
/// is finished or not.
pub fn answer_to(
    greeting: &[u8; 74],
    secret: &[u8; 16],
    allowed: bool,
    finished: bool,
) -> Option<[u8; 65]> {
    let mut side = CoordinatorSide::new(key_of(secret)?, FILES);
    side.greeted(greeting, &[9; 32], &[allowed], finished)
}
