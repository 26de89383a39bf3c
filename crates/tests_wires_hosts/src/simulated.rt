//! A machine whose time and random bytes are in a test's hands, and what is done there.
use crate::entrance::{Host, LONG_MS, Machine, acceptor_at, host_at};
use crate::process::{Meeting, Process};
use std::io;
use std::io::{ErrorKind, Read};
use std::net::{Net, SocketAddr, TcpListener, TcpStream};
use std::random::RandomSource;
use std::sync::Wait;
use std::sync::atomic::{AtomicU64, Ordering};
use std::time::{Clock, Duration};
use wires::Work;
use wires_hosts::DialFault;
use wires_transports::{Acceptor, Ending};

/// What else happens as time goes by.
pub trait Meanwhile: Drop {
    /// What happens at this time, in ms since the machine began.
    fn at(&self, ms: u64);

    /// For how long the process is stopped then, in ms. Nothing happens meanwhile.
    fn stopped_ms(&self, _ms: u64) -> u64 {
        0
    }
}

/// Nothing.
#[derive(Drop)]
pub struct Nothing;

impl Meanwhile for Nothing {
    fn at(&self, _ms: u64) {}
}

/// The run is to end at this time, in ms since the machine began.
#[derive(Drop)]
pub struct EndsAt<'a> {
    pub ending: &'a Ending,
    pub ms: u64,
}

impl<'a> Meanwhile for EndsAt<'a> {
    fn at(&self, ms: u64) {
        if ms == self.ms {
            self.ending.set();
        }
    }
}

/// A machine on which a sleep takes no time: its clock goes on by as much, from ms to ms, and meanwhile happens what a
/// test wants. Its random bytes come from a test too, and its connections from the real machine.
#[derive(Drop)]
pub struct Simulated<'a, R, S, M: Drop> {
    rt: &'a R,
    random: &'a S,
    meanwhile: M,
    // In ms.
    time: AtomicU64,
}

impl<'a, R, S, M: Drop> Simulated<'a, R, S, M> {
    /// Its time begins.
    pub fn new(rt: &'a R, random: &'a S, meanwhile: M) -> Simulated<'a, R, S, M> {
        Simulated {
            rt,
            random,
            meanwhile,
            time: AtomicU64::new(0),
        }
    }

    /// What time it is, in ms since it began.
    pub fn time(&self) -> u64 {
        self.time.load(Ordering::SeqCst)
    }
}

impl<'a, R: Wait, S, M: Drop> Wait for Simulated<'a, R, S, M> {}

impl<'a, R, S, M: Meanwhile> Clock for Simulated<'a, R, S, M> {
    fn monotonic(&self) -> io::Result<Duration> {
        Ok(Duration::from_millis(self.time()))
    }

    fn since_1970(&self) -> io::Result<Duration> {
        Ok(Duration::from_millis(self.time()))
    }

    fn sleep(&self, duration: Duration) {
        for _ in 0..duration.as_secs() {
            for _ in 0..1000_u32 {
                self.go_on();
            }
        }
        for _ in 0..duration.subsec_millis() {
            self.go_on();
        }
    }
}

impl<'a, R, S, M: Meanwhile> Simulated<'a, R, S, M> {
    // A millisecond goes by, or so much more as the process is stopped then.
    fn go_on(&self) {
        let before = self.time.fetch_add(1, Ordering::SeqCst);
        let now = before.saturating_add(1);
        self.meanwhile.at(now);
        self.time
            .fetch_add(self.meanwhile.stopped_ms(now), Ordering::SeqCst);
    }
}

impl<'a, R, S: RandomSource, M: Drop> RandomSource for Simulated<'a, R, S, M> {
    fn fill_bytes(&self, buf: &mut [u8]) -> io::Result<()> {
        self.random.fill_bytes(buf)
    }
}

impl<'a, R: Net<Stream = TcpStream, Listener = TcpListener>, S, M: Drop> Net
    for Simulated<'a, R, S, M> {
    type Stream = TcpStream;

    type Listener = TcpListener;

    fn bind(&self, addr: SocketAddr) -> io::Result<TcpListener> {
        self.rt.bind(addr)
    }

    fn connect(&self, addr: SocketAddr) -> io::Result<TcpStream> {
        self.rt.connect(addr)
    }

    fn connect_timeout(&self, addr: SocketAddr, timeout: Duration) -> io::Result<TcpStream> {
        self.rt.connect_timeout(addr, timeout)
    }
}

/// Random bytes of which none is as the one before: 1, 2, 3 and so on.
#[derive(Drop)]
pub struct Counting {
    given: AtomicU64,
}

impl Counting {
    /// The first is 1.
    pub fn new() -> Counting {
        Counting {
            given: AtomicU64::new(0),
        }
    }
}

impl RandomSource for Counting {
    fn fill_bytes(&self, buf: &mut [u8]) -> io::Result<()> {
        for byte in buf.iter_mut() {
            let given = self.given.fetch_add(1, Ordering::SeqCst);
            *byte = u8::try_from(given % 255).unwrap_or(0).saturating_add(1);
        }
        Ok(())
    }
}

/// As many random bytes as a greeting has, of those that `Counting` gives, behind this many others.
pub fn counted(before: u8) -> [u8; 32] {
    let mut bytes = [0; 32];
    let mut last = before;
    for byte in bytes.iter_mut() {
        last = last.saturating_add(1);
        *byte = last;
    }
    bytes
}

/// A source that always fails, though it leaves bytes.
#[derive(Drop)]
pub struct Broken;

impl RandomSource for Broken {
    fn fill_bytes(&self, buf: &mut [u8]) -> io::Result<()> {
        buf.fill(7);
        Err(io::Error::from(ErrorKind::Other))
    }
}

/// When the first attempt of a process is over that comes to nothing for this, in ms, and ends its run or not.
pub fn attempted_until<R: Host + Net<Stream = TcpStream, Listener = TcpListener>, M: Meanwhile>(
    rt: &R,
    meeting: &Meeting,
    fault: DialFault,
    ends: bool,
    meanwhile: M,
) -> Option<u64> {
    let source = Counting::new();
    let machine = Simulated::new(rt, &source, meanwhile);
    let process = &meeting.process;
    if process.is_refused(&machine, meeting.alloc, meeting.host, fault, ends) {
        Some(machine.time())
    } else {
        None
    }
}

/// How long a coordinator that listens there lets processes in, in ms, with readers for this many federates. None where
/// anything comes to one of them.
pub fn let_in_for<R: Machine + Net<Stream = TcpStream, Listener = TcpListener>, M: Meanwhile>(
    rt: &R,
    listener: TcpListener,
    coordinator: &Process,
    federates: usize,
    meanwhile: M,
) -> Option<u64> {
    let alloc = rt.alloc();
    let source = Counting::new();
    let host = host_at(listener, LONG_MS)?;
    let (acceptor, arrivals) = acceptor_at(alloc, &source, host, coordinator, federates)?;
    let machine = Simulated::new(rt, &source, meanwhile);
    acceptor.let_in(&machine, alloc, &coordinator.ending);
    for came in &arrivals {
        if came.try_recv(rt).is_ok() {
            return None;
        }
    }
    Some(machine.time())
}

/// When the run of a process is over that is watched with this patience, in ms.
pub fn watched_until<R: Machine, M: Meanwhile>(
    rt: &R,
    process: &Process,
    most: Option<Duration>,
    meanwhile: M,
) -> u64 {
    let machine = Simulated::new(rt, &Broken, meanwhile);
    let _ = process.patience(most).work(&machine, rt.alloc());
    machine.time()
}

/// Whether a connection is closed by the other end so far, behind 128 bytes at most. They are taken from it.
pub fn is_over(stream: &TcpStream) -> bool {
    if stream.set_nonblocking(true).is_err() {
        return false;
    }
    let is_over = reads_end(stream);
    stream.set_nonblocking(false).is_ok() && is_over
}

// Whether the end comes behind 128 bytes at most.
fn reads_end(stream: &TcpStream) -> bool {
    let mut reader = stream;
    for _ in 0..=128 {
        match reader.read(&mut [0]) {
            Ok(0) => return true,
            Ok(_) => {}
            Err(error) => return error.kind() != ErrorKind::WouldBlock,
        }
    }
    false
}
