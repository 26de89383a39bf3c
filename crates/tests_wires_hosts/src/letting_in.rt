//! Who is let in.
use crate::entrance::{
    Entrance, Host, Known, LONG_MS, Own, gets_no_more, is_ended, is_let_in, visited, when_let_in,
};
use std::io::{ErrorKind, Read};
use std::net::{Net, TcpListener, TcpStream};
use std::thread;
use std::time::{Duration, Instant};
use wires_hosts::host_acceptor::PENDING_MOST;
use wires_transports::Deadline;

// Whether the process of each federate with the secret and the files is let in, and its connection goes to its own
// reader. Its Hello comes first, frames pass both ways, and both sides have heard what came.
fn are_let_in<R: Host + Net<Stream = TcpStream, Listener = TcpListener>>(
    rt: &R,
    entrance: &Entrance<'_>,
) -> Option<bool> {
    for federate in 0..3 {
        if is_let_in(rt, entrance, federate) != Some(true) {
            return Some(false);
        }
    }
    Some(true)
}

#[test]
fn lets_in_a_federate_with_the_secret(rt: HostRuntime) {
    assert_eq!(rt; visited(&rt, &rt, are_let_in), Some(true));
}

// This many connections on which nothing is said. They don't wait.
fn silent<R: Host + Net<Stream = TcpStream, Listener = TcpListener>>(
    rt: &R,
    entrance: &Entrance<'_>,
    count: usize,
) -> Option<Vec<TcpStream>> {
    let mut silent = Vec::new(entrance.alloc);
    for _ in 0..count {
        let stream = TcpStream::connect(rt, entrance.address).ok()?;
        stream.set_nonblocking(true).ok()?;
        silent.push(stream).ok()?;
    }
    Some(silent)
}

// Whether a connection that doesn't wait isn't closed by the other end, on which nothing is said.
fn is_open(stream: &mut TcpStream) -> bool {
    match stream.read(&mut [0]) {
        Ok(_) => false,
        Err(error) => error.kind() == ErrorKind::WouldBlock,
    }
}

// How many of these connections are open still.
fn open_count(streams: &mut [TcpStream]) -> usize {
    let mut open = 0_usize;
    for stream in streams {
        if is_open(stream) {
            open = open.saturating_add(1);
        }
    }
    open
}

// How many of these connections are open once one of them is closed, or it takes too long.
fn open_once_one_is_closed<R: Host>(rt: &R, streams: &mut [TcpStream]) -> usize {
    let deadline = Deadline::after(rt, LONG_MS);
    let mut open = streams.len();
    for _ in rt.forever() {
        open = open_count(streams);
        if open < streams.len() || deadline.has_passed(rt) {
            break;
        }
        thread::sleep(rt, Duration::from_millis(1));
    }
    open
}

// Whether the connection at this place is given up, and silent ones keep nobody out but whoever is drawn himself.
fn is_drawn<R: Host + Net<Stream = TcpStream, Listener = TcpListener>>(
    rt: &R,
    entrance: &Entrance<'_>,
    place: usize,
) -> Option<bool> {
    let mut silent = silent(rt, entrance, PENDING_MOST + 1)?;
    let open = open_once_one_is_closed(rt, &mut silent);
    let closed = silent.iter_mut().position(|stream| !is_open(stream))?;
    let are_let_in = place == PENDING_MOST || is_let_in(rt, entrance, 0)?;
    Some((open, closed) == (PENDING_MOST, place) && are_let_in)
}

// The coordinator's random bytes draw which one is given up. A number of eight bytes that are all the same is divided by
// 129: of 0 there is 0 left, of 0x0101010101010101 44, and of 0x5555555555555555 128.
#[test]
fn gives_up_the_connection_that_is_drawn(rt: HostRuntime) {
    for (byte, place) in &[(0, 0), (1, 44), (0x55, 128)] {
        let known = Known { byte: *byte };
        let drawn = visited(&rt, &known, |rt, entrance| {
            is_drawn(rt, entrance, *place)
        });
        assert_eq!(rt; drawn, Some(true));
    }
}

// Whether readers get no more connections at once, once the run is to end, though one of them holds this one; it is
// ended later.
fn is_ended_later<R: Host>(
    rt: &R,
    entrance: &Entrance<'_>,
    own: &mut Own<'_>,
    held: &mut Own<'_>,
) -> Option<bool> {
    let begin = Instant::now(rt).ok()?;
    entrance.coordinator.heard.give_up();
    let gets_no_more = gets_no_more(rt, entrance);
    let is_at_once = begin.elapsed(rt).ok()? < Duration::from_millis(1000);
    let are_ended = is_ended(rt, &mut own.incoming) && is_ended(rt, &mut held.incoming);
    Some(gets_no_more && is_at_once && are_ended)
}

// Whether a connection that was let in is.
fn is_held<R: Host + Net<Stream = TcpStream, Listener = TcpListener>>(
    rt: &R,
    entrance: &Entrance<'_>,
) -> Option<bool> {
    when_let_in(rt, entrance, entrance.process, 0, |own, held| {
        is_ended_later(rt, entrance, own, held)
    })
}

#[test]
fn ends_with_the_run_though_a_connection_is_held(rt: HostRuntime) {
    assert_eq!(rt; visited(&rt, &rt, is_held), Some(true));
}
