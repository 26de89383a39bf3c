//! What stands between a node and all that leaves it: where it refuses, the run is given up; that the run is finished
//! is kept before anybody is told; and a federate that is let in keeps no end.
use crate::entrance::{Entrance, Host, Machine, host_of, listener_of, visited};
use crate::process::{Process, told_by_now};
use crate::simulated::{Meanwhile, Nothing, let_in_for, watched_until};
use std::net::{Net, TcpListener, TcpStream};
use wires_hosts::{GivenUp, Happening};

/// A run whose barrier refuses from some time on, and which ends by itself at another, both in ms.
#[derive(Drop)]
struct Course<'a> {
    process: &'a Process,
    fails_ms: u64,
    ends_ms: u64,
}

impl<'a> Meanwhile for Course<'a> {
    fn at(&self, ms: u64) {
        if ms == self.fails_ms {
            self.process.barrier.refuse();
        }
        if ms == self.ends_ms {
            self.process.ending.set();
        }
    }
}

// When a run is over whose barrier refuses from this time on, in ms, whether it was given up, and what whoever watches
// was told. It ends by itself after 1 s, and is watched with any patience.
fn over_at<R: Machine>(rt: &R, fails_ms: u64) -> Option<(u64, bool, Option<Happening>)> {
    let process = Process::new(rt.alloc())?;
    let course = Course {
        process: &process,
        fails_ms,
        ends_ms: 1000,
    };
    let ms = watched_until(rt, &process, None, course);
    Some((
        ms,
        process.heard.has_given_up(),
        told_by_now(rt, &process.told),
    ))
}

// The other run ends by itself, in which all is kept until then.
#[test]
fn a_run_is_given_up_in_which_nothing_may_leave(rt: HostRuntime) {
    let over = [over_at(&rt, 300), over_at(&rt, 2000)];
    let told = Happening::GaveUp(GivenUp::Unkept);
    assert_eq!(rt;
        over,
        [Some((300, true, Some(told))), Some((1000, false, None))]
    );
}

// How long a coordinator with such a barrier tells that the run is finished, in ms, where nobody asks, and how often the
// barrier was asked. It tells so for 20 s at most.
fn told_for<R: Machine + Net<Stream = TcpStream, Listener = TcpListener>>(
    rt: &R,
    refuses: bool,
) -> Option<(u64, (u64, u64))> {
    let listener = listener_of(rt)?;
    let coordinator = Process::of(rt.alloc(), 1)?;
    if refuses {
        coordinator.barrier.refuse();
    }
    coordinator.ending.set();
    let ms = let_in_for(rt, listener, &coordinator, 0, Nothing)?;
    Some((ms, coordinator.barrier.counts()))
}

// It tells nobody where that isn't kept.
#[test]
fn tells_that_the_run_is_finished_once_that_is_kept(rt: HostRuntime) {
    let told = [told_for(&rt, false), told_for(&rt, true)];
    assert_eq!(rt; told, [Some((20_000, (1, 0))), Some((0, (1, 0)))]);
}

// Whether a federate that is let in tells nothing: there is no end to be kept.
fn tells_nothing<R: Host + Net<Stream = TcpStream, Listener = TcpListener>>(
    rt: &R,
    entrance: &Entrance<'_>,
) -> Option<bool> {
    let host = host_of(entrance.address, 0)?;
    let is_let_in = !entrance.process.is_in_vain(rt, entrance.alloc, host);
    Some(is_let_in && entrance.process.barrier.counts() == (0, 0))
}

#[test]
fn tells_nothing_where_it_is_let_in(rt: HostRuntime) {
    assert_eq!(rt; visited(&rt, &rt, tells_nothing), Some(true));
}
