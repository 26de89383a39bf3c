//! What is heard, and who waits for it.
use crate::entrance::{Host, Machine};
use std::alloc::Global;
use std::sync::Wait;
use std::time::Duration;
use wires::Work;
use wires_hosts::{Heard, HeardTransport, NoBarrier, Patience};
use wires_transports::{Connection, Ending, Transport, pair};

// How often something was heard by a process, as bytes come to it, then none, and then the end.
fn counts_of<R: Wait, S: Transport, T: Transport, C: Drop>(
    rt: &R,
    heard: &Heard,
    sender: &mut S,
    other: &mut Connection<T, C>,
) -> Option<[u64; 3]> {
    let mut room = [0; 8];
    sender.send(rt, &[1, 2, 3]).ok()?;
    let three = other.incoming.recv(rt, &mut room).ok()?;
    let first = heard.count();
    other.outgoing.send(rt, &[4]).ok()?;
    sender.send(rt, &[5]).ok()?;
    let one = other.incoming.recv(rt, &mut room).ok()?;
    let second = heard.count();
    sender.finish(rt);
    let none = other.incoming.recv(rt, &mut room).ok()?;
    if (three, one, none) == (3, 1, 0) {
        Some([first, second, heard.count()])
    } else {
        None
    }
}

// The same at one end of a connection.
fn heard_of<R: Host>(rt: &R, alloc: Global) -> Option<[u64; 3]> {
    let heard = Heard::new(alloc, 0).ok()?;
    let (mut one, other) = pair(alloc).ok()?;
    let mut other = HeardTransport::around(other, &heard, &NoBarrier);
    counts_of(rt, &heard, &mut one.outgoing, &mut other)
}

#[test]
fn counts_each_time_that_bytes_come(rt: HostRuntime) {
    assert_eq!(rt; heard_of(&rt, rt.alloc()), Some([1, 2, 2]));
}

// Whether nothing is given up in a run that has ended, or whose patience has no end.
fn is_kept<R: Machine>(rt: &R, most: Option<Duration>) -> Option<bool> {
    let heard = Heard::new(rt.alloc(), 0).ok()?;
    let ending = Ending::new();
    ending.set();
    let barrier = NoBarrier;
    let patience = Patience {
        heard: &heard,
        barrier: &barrier,
        ending: &ending,
        most,
        last: None,
    };
    let _ = patience.work(rt, rt.alloc());
    Some(!heard.has_given_up() && heard.is_finished(&ending))
}

#[test]
fn gives_up_no_run_that_has_ended(rt: HostRuntime) {
    for most in [None, Some(0), Some(100)] {
        assert_eq!(rt; is_kept(&rt, most.map(Duration::from_millis)), Some(true));
    }
}
