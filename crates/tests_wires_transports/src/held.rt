//! Which connections an acceptor has still, and when it ends them. No time goes by in these tests: their clock is
//! simulated.
use crossbeam_channel::{Receiver, unbounded};
use std::alloc::Global;
use std::io;
use std::sync::atomic::{AtomicU64, Ordering};
use std::sync::{Arc, Wait};
use std::time::{Clock, Duration};
use wires_transports::{Accepted, Connection, CurrentConnections, Cut};

/// A machine whose clock goes on by as much as somebody sleeps.
#[derive(Drop)]
struct Sleeping<'a, R> {
    rt: &'a R,
    // In ms.
    time: AtomicU64,
}

impl<'a, R> Sleeping<'a, R> {
    // Its time begins.
    fn new(rt: &'a R) -> Sleeping<'a, R> {
        Sleeping {
            rt,
            time: AtomicU64::new(0),
        }
    }
}

impl<'a, R: Wait> Wait for Sleeping<'a, R> {}

impl<'a, R: Clock> Clock for Sleeping<'a, R> {
    fn monotonic(&self) -> io::Result<Duration> {
        Ok(Duration::from_millis(self.time.load(Ordering::SeqCst)))
    }

    fn since_1970(&self) -> io::Result<Duration> {
        self.rt.since_1970()
    }

    fn sleep(&self, duration: Duration) {
        self.time
            .fetch_add(u64::from(duration.subsec_millis()), Ordering::SeqCst);
    }
}

/// The end of a connection over nothing.
#[derive(Drop)]
struct End;

/// Counts how often connections were ended.
#[derive(Drop)]
struct CountedCut<'a> {
    cuts: &'a AtomicU64,
}

impl<'a> Cut for CountedCut<'a> {
    fn cut<R: Wait>(&self, _rt: &R) {
        self.cuts.fetch_add(1, Ordering::SeqCst);
    }
}

/// What comes to the readers of two federates, whose connections were handed on.
#[derive(Drop)]
struct Handed<'a> {
    current: CurrentConnections<End, CountedCut<'a>>,
    first: Receiver<Accepted<End, CountedCut<'a>>>,
    second: Receiver<Accepted<End, CountedCut<'a>>>,
}

// A connection.
fn connection<'a>(alloc: Global, cuts: &'a AtomicU64) -> Option<Accepted<End, CountedCut<'a>>> {
    Some(Accepted {
        connection: Connection {
            incoming: End,
            outgoing: End,
            cut: Arc::new(alloc, CountedCut { cuts }).ok()?,
        },
        first: Vec::new(alloc),
    })
}

// Two federates, the first of which has a connection.
fn with_first<'a, R: Wait>(rt: &R, alloc: Global, cuts: &'a AtomicU64) -> Option<Handed<'a>> {
    let (first_reader, first) = unbounded(alloc).ok()?;
    let (second_reader, second) = unbounded(alloc).ok()?;
    let mut readers = Vec::new(alloc);
    readers.push(first_reader).ok()?;
    readers.push(second_reader).ok()?;
    let mut current = CurrentConnections::new(alloc, readers).ok()?;
    current.hand_on(rt, 0, connection(alloc, cuts)?);
    Some(Handed {
        current,
        first,
        second,
    })
}

// Whether all federates are there: where the first has a connection, where both have, and where the first one's worker
// has let it go.
fn are_all_there<R: Wait>(rt: &R, alloc: Global) -> Option<[bool; 3]> {
    let cuts = AtomicU64::new(0);
    let mut handed = with_first(rt, alloc, &cuts)?;
    let with_one = handed.current.are_all_there();
    handed.current.hand_on(rt, 1, connection(alloc, &cuts)?);
    let with_both = handed.current.are_all_there();
    drop(handed.first.try_recv(rt).ok()?);
    let without_first = handed.current.are_all_there();
    Some([with_one, with_both, without_first])
}

#[test]
fn all_are_there_where_each_federate_has_a_connection(rt: HostRuntime) {
    assert_eq!(rt; are_all_there(&rt, rt.alloc()), Some([false, true, false]));
}

// How long it takes until the connections of two federates are ended, in ms, and how many are: where both workers have
// let theirs go, where the second has it still, and where the first has.
fn ended_in<R: Wait + Clock>(
    rt: &R,
    alloc: Global,
    holds_first: bool,
    holds_second: bool,
) -> Option<(u64, u64)> {
    let clock = Sleeping::new(rt);
    let cuts = AtomicU64::new(0);
    let mut handed = with_first(&clock, alloc, &cuts)?;
    handed.current.hand_on(&clock, 1, connection(alloc, &cuts)?);
    if !holds_first {
        drop(handed.first.try_recv(&clock).ok()?);
    }
    if !holds_second {
        drop(handed.second.try_recv(&clock).ok()?);
    }
    handed.current.end(&clock);
    let time = clock.time.load(Ordering::SeqCst);
    Some((time, cuts.load(Ordering::SeqCst)))
}

#[test]
fn ends_connections_at_once_where_no_worker_has_one_and_else_after_1_s(rt: HostRuntime) {
    for (holds_first, holds_second, time) in [
        (false, false, 0),
        (false, true, 1000),
        (true, false, 1000),
        (true, true, 1000),
    ] {
        assert_eq!(rt;
            ended_in(&rt, rt.alloc(), holds_first, holds_second),
            Some((time, 2))
        );
    }
}
