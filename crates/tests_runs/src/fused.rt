//! Whichever call over the connections fails, and however much of a send went before that, a run has its rows, and an
//! audit proves them: the federate connects again. Each connection begins with a greeting at both ends.
use crate::lines::{Case, EACH_WAY, Nodes, seen_in_memory, seen_over_tcp};
use crate::tap::{End, Fate, Tap};
use std::net::{Net, TcpListener, TcpStream};
use std::sync::atomic::{AtomicU64, Ordering};
use tests_samples::{COUNTER, Machine};

/// Lets this many calls pass over the connections of two federates, fails the next one, and lets all pass after it.
#[derive(Drop)]
struct Fuse {
    passing: u64,
    /// How many bytes of a send go at most before it fails. Its last byte never goes.
    goes: usize,
    calls: AtomicU64,
    /// How many ends of connections begin with something else than a Hello.
    ungreeted: AtomicU64,
}

impl Fuse {
    fn new(passing: u64, goes: usize) -> Fuse {
        Fuse {
            passing,
            goes,
            calls: AtomicU64::new(0),
            ungreeted: AtomicU64::new(0),
        }
    }

    // Whether the next call fails.
    fn blows(&self) -> bool {
        self.calls.fetch_add(1, Ordering::SeqCst) == self.passing
    }

    // Whether a call has failed.
    fn has_blown(&self) -> bool {
        self.calls.load(Ordering::SeqCst) > self.passing
    }

    // Whether all ends of connections begin with a Hello.
    fn is_greeted(&self) -> bool {
        self.ungreeted.load(Ordering::SeqCst) == 0
    }
}

impl Tap for Fuse {
    fn sends(&self, _end: End, before: u64, bytes: &[u8]) -> Fate {
        // The fifth byte is the first frame's kind.
        if before == 0 && bytes.get(4) != Some(&1) {
            self.ungreeted.fetch_add(1, Ordering::SeqCst);
        }
        if self.blows() {
            Fate::broken(self.goes.min(bytes.len().saturating_sub(1)))
        } else {
            Fate::whole()
        }
    }

    fn breaks(&self, _end: End) -> bool {
        self.blows()
    }
}

/// Each of the four ends sends twice at least, and reads twice.
const FEWEST_CALLS: u64 = 16;

// These many calls, where they are too few.
fn too_few(calls: u64) -> Option<u64> {
    if calls < FEWEST_CALLS {
        Some(calls)
    } else {
        None
    }
}

// The first call in a run over memory whose failure isn't mended, where so many bytes go, or how many calls it makes if
// these are too few; None where all are mended, up to a run in which none fails any more.
fn unmended<R: Machine>(rt: &R, nodes: Nodes, goes: usize) -> Option<u64> {
    for passing in 0..1000 {
        let fuse = Fuse::new(passing, goes);
        match seen_in_memory(rt, &Case::ample(COUNTER, nodes), &fuse) {
            Some(seen) if seen.is_right && fuse.is_greeted() => {}
            _ => return Some(passing),
        }
        if !fuse.has_blown() {
            return too_few(passing);
        }
    }
    Some(1000)
}

fn assert_mends<R: Machine>(rt: &R, goes: usize) {
    for nodes in EACH_WAY {
        assert_eq!(rt; unmended(rt, nodes, goes), None, "{nodes:?}");
    }
}

#[test]
fn mends_each_failure_before_the_first_byte(rt: HostRuntime) {
    assert_mends(&rt, 0);
}

#[test]
fn mends_each_failure_behind_the_first_byte(rt: HostRuntime) {
    assert_mends(&rt, 1);
}

#[test]
fn mends_each_failure_before_the_last_byte(rt: HostRuntime) {
    assert_mends(&rt, usize::MAX);
}

/// Calls that fail over TCP, by how many calls pass before them.
const FAILING: [u64; 7] = [0, 3, 5, 8, 10, 13, 15];

/// How many bytes of a send go: none, one, and all but one.
const GOING: [usize; 3] = [0, 1, usize::MAX];

// Whether such a failure is mended over TCP.
fn is_mended<R: Machine + Net<Stream = TcpStream, Listener = TcpListener>>(
    rt: &R,
    nodes: Nodes,
    passing: u64,
    goes: usize,
) -> bool {
    let fuse = Fuse::new(passing, goes);
    match seen_over_tcp(rt, &Case::ample(COUNTER, nodes), &fuse) {
        Some(seen) => seen.is_right && fuse.has_blown() && fuse.is_greeted(),
        None => false,
    }
}

// A failure that isn't mended over TCP, where nodes run so; None where all are.
fn exception_over_tcp<R: Machine + Net<Stream = TcpStream, Listener = TcpListener>>(
    rt: &R,
    nodes: Nodes,
) -> Option<(u64, usize)> {
    for passing in FAILING {
        for goes in GOING {
            if !is_mended(rt, nodes, passing, goes) {
                return Some((passing, goes));
            }
        }
    }
    None
}

#[test]
fn mends_failures_over_tcp(rt: HostRuntime) {
    for nodes in EACH_WAY {
        assert_eq!(rt; exception_over_tcp(&rt, nodes), None, "{nodes:?}");
    }
}
