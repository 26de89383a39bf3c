//! How long a greeting may take. No time goes by in these tests: their clocks are simulated.
use crate::entrance::{Host, Machine, greeted, greeting_of, is_closed, listener_of, proof_of};
use crate::process::{Meeting, Process, met};
use crate::simulated::{EndsAt, Meanwhile, attempted_until, is_over, let_in_for};
use std::alloc::Global;
use std::io::{Read, Write};
use std::net::{Net, Shutdown, SocketAddr, TcpListener, TcpStream};
use std::os::fd::OwnedFd;
use std::sync::atomic::{AtomicU64, Ordering};
use std::sync::{Mutex, Wait};
use wires_hosts::DialFault;
use wires_transports::Ending;

// How long an attempt takes that nobody answers, in ms.
fn unanswered_for<R: Host + Net<Stream = TcpStream, Listener = TcpListener>>(
    rt: &R,
    meeting: &Meeting,
) -> Option<u64> {
    let meanwhile = EndsAt {
        ending: &meeting.process.ending,
        ms: 6000,
    };
    attempted_until(rt, meeting, DialFault::NoAnswer, false, meanwhile)
}

#[test]
fn ends_an_attempt_that_nobody_answers_for_5_s(rt: HostRuntime) {
    assert_eq!(rt; met(&rt, unanswered_for), Some(5000));
}

/// A coordinator that says a byte of its challenge each 100 ms, which takes 6.5 s. The run is to end after 6 s.
#[derive(Drop)]
struct SlowCoordinator<'a, R> {
    rt: &'a R,
    listener: &'a TcpListener,
    ending: &'a Ending,
    stream: Mutex<Option<TcpStream>>,
    // How many bytes it said.
    said: AtomicU64,
}

impl<'a, R: Wait> SlowCoordinator<'a, R> {
    // Says one byte more.
    fn go_on(&self) {
        let mut stream = self.stream.lock(self.rt);
        if stream.is_none() {
            if let Ok((accepted, _)) = self.listener.accept() {
                *stream = Some(accepted);
            }
        }
        if let Some(stream) = &mut *stream {
            if stream.write_all(&[1]).is_ok() {
                self.said.fetch_add(1, Ordering::SeqCst);
            }
        }
    }
}

impl<'a, R: Wait> Meanwhile for &SlowCoordinator<'a, R> {
    fn at(&self, ms: u64) {
        if ms % 100 == 0 {
            self.go_on();
        }
        if ms == 6000 {
            self.ending.set();
        }
    }
}

// How long an attempt takes that such a coordinator answers, in ms, and how many bytes that said.
fn slowly_answered_for<R: Host + Net<Stream = TcpStream, Listener = TcpListener>>(
    rt: &R,
    meeting: &Meeting,
) -> Option<(u64, u64)> {
    let meanwhile = SlowCoordinator {
        rt,
        listener: &meeting.listener,
        ending: &meeting.process.ending,
        stream: Mutex::new(None),
        said: AtomicU64::new(0),
    };
    let ms = attempted_until(rt, meeting, DialFault::NoAnswer, false, &meanwhile)?;
    Some((ms, meanwhile.said.load(Ordering::SeqCst)))
}

#[test]
fn ends_an_attempt_whose_challenge_takes_longer_than_5_s(rt: HostRuntime) {
    assert_eq!(rt; met(&rt, slowly_answered_for), Some((5000, 50)));
}

// How many of these connections are closed by the other end so far.
fn over_count(streams: &[TcpStream]) -> u64 {
    let mut count = 0_u64;
    for stream in streams {
        if is_over(stream) {
            count = count.saturating_add(1);
        }
    }
    count
}

// How many of them are closed, up to the first that isn't.
fn closed_count(streams: &[TcpStream]) -> u64 {
    let mut count = 0_u64;
    for stream in streams {
        if !is_closed(stream, 128) {
            break;
        }
        count = count.saturating_add(1);
    }
    count
}

/// Strangers at a coordinator's listener. Before this time, in ms, somebody counts how many of their connections were
/// closed, and again behind it, when the run is to end.
#[derive(Drop)]
struct Strangers<'a> {
    coordinator: &'a Process,
    streams: Vec<TcpStream>,
    ms: u64,
    early: AtomicU64,
    late: AtomicU64,
}

impl<'a> Strangers<'a> {
    fn new(coordinator: &'a Process, streams: Vec<TcpStream>, ms: u64) -> Strangers<'a> {
        Strangers {
            coordinator,
            streams,
            ms,
            early: AtomicU64::new(0),
            late: AtomicU64::new(0),
        }
    }

    // Counts 100 ms before that time, and 100 ms behind it.
    fn count(&self, ms: u64) {
        if ms.saturating_add(100) == self.ms {
            self.early
                .store(over_count(&self.streams), Ordering::SeqCst);
        }
        if ms == self.ms.saturating_add(100) {
            self.late
                .store(closed_count(&self.streams), Ordering::SeqCst);
            self.coordinator.ending.set();
        }
    }

    // How many were closed early, and how many late.
    fn counts(&self) -> (u64, u64) {
        (
            self.early.load(Ordering::SeqCst),
            self.late.load(Ordering::SeqCst),
        )
    }
}

/// Five of them, two of which go on: the third says a byte of a greeting each 100 ms, and the last proves after 1 s that
/// it has the secret, and says no Hello.
#[derive(Drop)]
struct Speaking<'a> {
    strangers: &'a Strangers<'a>,
}

impl<'a> Speaking<'a> {
    // Says this byte of a greeting.
    fn go_on(&self, place: u64) -> Option<()> {
        let bytes = greeting_of(0).bytes();
        let byte = bytes.get(usize::try_from(place).ok()?)?;
        let mut stream = self.strangers.streams.get(2)?;
        stream.write_all(&[*byte]).ok()
    }

    // What doesn't come about ends the run, before anything is counted.
    fn end_unless(&self, done: Option<()>) {
        if done.is_none() {
            self.strangers.coordinator.ending.set();
        }
    }

    // Answers the challenge.
    fn prove(&self) -> Option<()> {
        let mut stream = self.strangers.streams.get(4)?;
        let mut challenge = [0; 65];
        stream.read_exact(&mut challenge).ok()?;
        stream.write_all(&proof_of(0, &challenge)?).ok()
    }
}

impl<'a> Meanwhile for Speaking<'a> {
    fn at(&self, ms: u64) {
        if ms % 100 == 0 {
            self.end_unless(self.go_on(ms / 100));
        }
        if ms == 1000 {
            self.end_unless(self.prove());
        }
        self.strangers.count(ms);
    }
}

// Connections to an address, on each of which this many bytes of a greeting are said.
fn connections<R: Machine + Net<Stream = TcpStream, Listener = TcpListener>>(
    rt: &R,
    address: SocketAddr,
    sizes: &[usize],
) -> Option<Vec<TcpStream>> {
    let mut streams = Vec::new(rt.alloc());
    for size in sizes {
        streams.push(greeted(rt, address, 0, *size)?).ok()?;
    }
    Some(streams)
}

// The coordinator's process, of one federate. Whoever asks behind the end isn't told that the run is finished.
fn coordinator_of(alloc: Global) -> Option<Process> {
    let coordinator = Process::of(alloc, 1)?;
    coordinator.heard.give_up();
    Some(coordinator)
}

// How many of such connections were closed early, and how many late. None of them comes to a reader.
fn closed_early_and_late<R: Machine + Net<Stream = TcpStream, Listener = TcpListener>>(
    rt: &R,
    coordinator: &Process,
) -> Option<(u64, u64)> {
    let listener = listener_of(rt)?;
    let address = listener.local_addr().ok()?;
    let streams = connections(rt, address, &[0, 30, 1, 74, 74])?;
    let strangers = Strangers::new(coordinator, streams, 5000);
    let speaking = Speaking {
        strangers: &strangers,
    };
    let ms = let_in_for(rt, listener, coordinator, 1, speaking);
    if ms.is_some() {
        Some(strangers.counts())
    } else {
        None
    }
}

#[test]
fn closes_whoever_is_not_let_in_after_5_s(rt: HostRuntime) {
    let coordinator = coordinator_of(rt.alloc());
    let closed = coordinator
        .as_ref()
        .map(|it| closed_early_and_late(&rt, it));
    assert_eq!(rt; closed, Some(Some((0, 5))));
}

/// Silent ones, at a listener that takes no more of them after 1 s.
#[derive(Drop)]
struct Full<'a> {
    strangers: &'a Strangers<'a>,
    listener: TcpStream,
}

impl<'a> Meanwhile for Full<'a> {
    fn at(&self, ms: u64) {
        if ms == 1000 {
            let _ = self.listener.shutdown(Shutdown::Both);
        }
        self.strangers.count(ms);
    }
}

// How many of three silent connections were closed before none can be taken any more, and how many behind that.
fn given_up<R: Machine + Net<Stream = TcpStream, Listener = TcpListener>>(
    rt: &R,
    coordinator: &Process,
) -> Option<(u64, u64)> {
    let listener = listener_of(rt)?;
    let other = listener.try_clone().ok()?;
    let address = listener.local_addr().ok()?;
    let streams = connections(rt, address, &[0, 0, 0])?;
    let strangers = Strangers::new(coordinator, streams, 1000);
    let full = Full {
        strangers: &strangers,
        listener: TcpStream::from(OwnedFd::from(other)),
    };
    let ms = let_in_for(rt, listener, coordinator, 1, full);
    if ms.is_some() {
        Some(strangers.counts())
    } else {
        None
    }
}

// As where no more files may be open: one that waits is given up for each that can't be taken.
#[test]
fn gives_up_who_is_not_let_in_where_no_connection_can_be_taken(rt: HostRuntime) {
    let coordinator = coordinator_of(rt.alloc());
    let closed = coordinator.as_ref().map(|it| given_up(&rt, it));
    assert_eq!(rt; closed, Some(Some((0, 3))));
}
