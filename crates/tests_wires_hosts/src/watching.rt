//! Who ends a federate's last connection, and when. No time goes by in these tests: their clocks are simulated.
use crate::entrance::{
    Machine, Own, SECRET, answer_to, greeting_at, host_to, is_closed, waiting_listener_of,
};
use crate::process::Process;
use crate::simulated::{EndsAt, Meanwhile, is_over, watched_until};
use std::alloc::Global;
use std::io::{Read, Write};
use std::net::{Net, TcpListener, TcpStream};
use std::sync::Wait;
use std::sync::atomic::{AtomicBool, Ordering};
use std::thread;
use std::time::Duration;

// The coordinator's end of the next connection, which is let in by hand.
fn let_in_by_hand(listener: &TcpListener) -> Option<TcpStream> {
    let (mut stream, greeting) = greeting_at(listener)?;
    let challenge = answer_to(&greeting, SECRET, true, false)?;
    stream.write_all(&challenge).ok()?;
    let mut proof = [0; 32];
    stream.read_exact(&mut proof).ok()?;
    Some(stream)
}

// Both ends of a connection of this process.
fn connected<'a, R: Machine + Net<Stream = TcpStream, Listener = TcpListener>>(
    rt: &'a R,
    process: &'a Process,
) -> Option<(Own<'a>, TcpStream)> {
    let listener = waiting_listener_of(rt)?;
    let host = host_to(&listener)?;
    let (other, own) = thread::join(
        rt,
        || let_in_by_hand(&listener),
        || process.dial(rt, rt.alloc(), host),
    );
    Some((own?, other?))
}

/// A run that is to end at one time; at another one somebody looks whether its last connection is open.
#[derive(Drop)]
struct Course<'a> {
    process: &'a Process,
    end_ms: u64,
    other: &'a TcpStream,
    look_ms: u64,
    was_open: AtomicBool,
}

impl<'a> Meanwhile for &Course<'a> {
    fn at(&self, ms: u64) {
        if ms == self.look_ms {
            self.was_open.store(!is_over(self.other), Ordering::SeqCst);
        }
        if ms == self.end_ms {
            self.process.ending.set();
        }
    }
}

/// How a process's last connection is watched.
#[derive(Clone, Copy)]
struct Case {
    /// How long nothing has to be heard until the run is given up, in ms.
    patience: Option<u64>,
    /// When the run is to end, if it isn't given up.
    end_ms: u64,
    /// Whether a worker has the connection still.
    is_held: bool,
    /// When the connection is ended.
    ended_ms: u64,
    /// Whether it is the second one of the process.
    is_second: bool,
}

// Whether the last connection is ended then, and is open 100 ms before.
fn is_last_ended<R: Machine + Net<Stream = TcpStream, Listener = TcpListener>>(
    rt: &R,
    case: &Case,
) -> Option<bool> {
    let process = Process::new(rt.alloc())?;
    if case.is_second && connected(rt, &process).is_none() {
        return None;
    }
    let (own, other) = connected(rt, &process)?;
    Some(is_ended_then(rt, &process, case, own, &other))
}

// A connection that a worker has still, or not.
fn held_if<'a>(is_held: bool, own: Own<'a>) -> Option<Own<'a>> {
    if is_held { Some(own) } else { None }
}

// Whether this one, of which the other end is there, is ended then.
fn is_ended_then<R: Machine>(
    rt: &R,
    process: &Process,
    case: &Case,
    own: Own<'_>,
    other: &TcpStream,
) -> bool {
    let held = held_if(case.is_held, own);
    let course = Course {
        process,
        end_ms: case.end_ms,
        other,
        look_ms: case.ended_ms.saturating_sub(100),
        was_open: AtomicBool::new(false),
    };
    let patience = case.patience.map(Duration::from_millis);
    let is_then = watched_until(rt, process, patience, &course) == case.ended_ms;
    let is_ended = is_closed(other, 0);
    drop(held);
    is_then && is_ended && course.was_open.load(Ordering::SeqCst)
}

// The place of the first of these that is ended at another time.
fn first_wrong<R: Machine + Net<Stream = TcpStream, Listener = TcpListener>>(
    rt: &R,
) -> Option<usize> {
    CASES
        .iter()
        .position(|case| is_last_ended(rt, case) != Some(true))
}

/// A worker has the first connection still, and nobody has to be heard.
const HELD: Case = Case {
    patience: None,
    end_ms: 5000,
    is_held: true,
    ended_ms: 6000,
    is_second: false,
};

const CASES: &[Case] = &[
    HELD,
    Case {
        patience: Some(60_000),
        ..HELD
    },
    Case {
        patience: Some(3000),
        end_ms: 60_000,
        ended_ms: 4000,
        ..HELD
    },
    Case {
        end_ms: 1000,
        ended_ms: 2000,
        is_second: true,
        ..HELD
    },
    Case {
        is_held: false,
        ended_ms: 5000,
        ..HELD
    },
    Case {
        patience: Some(3000),
        end_ms: 60_000,
        is_held: false,
        ended_ms: 3000,
        ..HELD
    },
];

#[test]
fn ends_the_last_connection_with_the_run_or_1_s_behind_it_where_a_worker_has_it(rt: HostRuntime) {
    assert_eq!(rt; first_wrong(&rt), None);
}

// How long a process is watched that never had a connection, and whose run is to end at this time, in ms.
fn watched_for<R: Machine>(rt: &R, end_ms: u64) -> Option<u64> {
    let process = Process::new(rt.alloc())?;
    if end_ms == 0 {
        process.ending.set();
    }
    let ends = EndsAt {
        ending: &process.ending,
        ms: end_ms,
    };
    let patience = Some(Duration::from_millis(60_000));
    Some(watched_until(rt, &process, patience, ends))
}

#[test]
fn watches_no_longer_than_the_run_where_there_is_no_connection(rt: HostRuntime) {
    let watched = [watched_for(&rt, 0), watched_for(&rt, 5000)];
    assert_eq!(rt; watched, [Some(0), Some(5000)]);
}

/// A run that is given up, and whether somebody looks on.
#[derive(Drop)]
struct Watched {
    process: Process,
    is_watched: AtomicBool,
}

/// Time goes by only where somebody looks on.
#[derive(Drop)]
struct OnceWatched<'a, R> {
    rt: &'a R,
    run: &'a Watched,
}

impl<'a, R: Wait> Meanwhile for OnceWatched<'a, R> {
    fn at(&self, _ms: u64) {
        for _ in self.rt.forever() {
            if self.run.is_watched.load(Ordering::SeqCst) {
                break;
            }
        }
    }
}

// Many runs in which nothing is heard, one after the other.
fn runs(alloc: Global) -> Option<Vec<Watched>> {
    let mut runs = Vec::new(alloc);
    for _ in 0..500 {
        let run = Watched {
            process: Process::new(alloc)?,
            is_watched: AtomicBool::new(false),
        };
        runs.push(run).ok()?;
    }
    Some(runs)
}

// Gives all of them up.
fn give_all_up<R: Machine>(rt: &R, runs: &[Watched]) {
    let patience = Some(Duration::from_millis(50));
    for run in runs {
        watched_until(rt, &run.process, patience, OnceWatched { rt, run });
    }
}

// Looks on until the run is to end; whether it never looked finished.
fn never_looks_finished<R: Machine>(rt: &R, run: &Watched) -> bool {
    let process = &run.process;
    run.is_watched.store(true, Ordering::SeqCst);
    for _ in rt.forever() {
        if process.heard.is_finished(&process.ending) {
            return false;
        }
        if process.ending.is_set() {
            break;
        }
    }
    true
}

// Looks on at all of them; whether none ever looked finished.
fn none_looks_finished<R: Machine>(rt: &R, runs: &[Watched]) -> bool {
    let mut is_right = true;
    for run in runs {
        if !never_looks_finished(rt, run) {
            is_right = false;
        }
    }
    is_right
}

// Whether none of many runs looks finished to another thread, even for a moment.
fn are_given_up_first<R: Machine>(rt: &R) -> Option<bool> {
    let runs = runs(rt.alloc())?;
    let ((), is_right) = thread::join(
        rt,
        || give_all_up(rt, &runs),
        || none_looks_finished(rt, &runs),
    );
    Some(is_right)
}

#[test]
fn says_that_it_gives_up_before_the_run_is_to_end(rt: HostRuntime) {
    assert_eq!(rt; are_given_up_first(&rt), Some(true));
}
