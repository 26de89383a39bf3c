//! What whoever watches a node is told, in which order, and that nobody waits for him.
use crate::entrance::{
    ACKNOWLEDGEMENT, Entrance, FILES, HELLO, Host, LONG_MS, OTHER_HELLO, challenged, host_of,
    is_closed, is_empty, is_ended, next, said, told_behind, visited,
};
use crate::finishing::all_hear;
use crate::process::{is_told, next_told};
use crossbeam_channel::{Receiver, TryRecvError};
use std::alloc::Global;
use std::io::Write;
use std::net::{Net, SocketAddr, TcpListener, TcpStream};
use wires_greeting::Greeting;
use wires_hosts::teller::MOST_WAITING;
use wires_hosts::{
    Awaited, Disconnection, GivenUp, Happening, HostAddress, HostDial, Loss, NotLetIn, Replaced,
    Teller, Told, Watcher,
};
use wires_transports::Dial;

// A connection that federate 0 makes by hand and on which it is let in, and its address.
fn let_in_by_hand<R: Net<Stream = TcpStream, Listener = TcpListener>>(
    rt: &R,
    entrance: &Entrance<'_>,
) -> Option<(TcpStream, SocketAddr)> {
    let (stream, _) = said(rt, entrance.address, 0, &HELLO)?;
    let address = stream.local_addr().ok()?;
    Some((stream, address))
}

// A connection of federate 0 that takes another one's place, the first to do so.
fn replacement(now: SocketAddr, before: SocketAddr) -> Replaced {
    Replaced {
        federate: 0,
        now,
        before,
        quiet_ms: 0,
        times: 1,
        may_be_two: false,
    }
}

// The end of federate 0's connection from there, in a run of it and two that never came.
fn loss(address: SocketAddr) -> Loss {
    Loss {
        federate: 0,
        address,
        quiet_ms: 0,
        connected: Awaited {
            present: 0,
            federates: 3,
            first: Some(0),
            more: 2,
        },
    }
}

// Whether it is told next that federate 0 has lost its connection from there.
fn is_lost<R: Host>(rt: &R, told: &Receiver<Told>, from: SocketAddr) -> bool {
    match next_told(rt, told) {
        Some(happened) => happened.what == Happening::Lost(loss(from)),
        None => false,
    }
}

// Federate 0 is let in; another connection of it takes the place of the first, which is read to its end behind that;
// the second ends, and a third comes. Whether each is told once, in this order.
fn are_comings_told<R: Host + Net<Stream = TcpStream, Listener = TcpListener>>(
    rt: &R,
    entrance: &Entrance<'_>,
) -> Option<bool> {
    let told = &entrance.coordinator.told;
    let (_first_stream, first) = let_in_by_hand(rt, entrance)?;
    let mut first_came = next(rt, entrance, 0)?;
    let (second_stream, second) = let_in_by_hand(rt, entrance)?;
    let mut second_came = next(rt, entrance, 0)?;
    let is_first_ended = is_ended(rt, &mut first_came.connection.incoming);
    drop(second_stream);
    let is_second_ended = is_ended(rt, &mut second_came.connection.incoming);
    let are_told = is_told(rt, told, Happening::LetIn(0, first))
        && is_told(rt, told, Happening::Replaced(replacement(second, first)))
        && is_lost(rt, told, second);
    // That the second has ended was told before another one comes.
    let (_third_stream, third) = let_in_by_hand(rt, entrance)?;
    let is_third = is_told(rt, told, Happening::LetIn(0, third));
    Some(is_first_ended && is_second_ended && are_told && is_third)
}

#[test]
fn tells_who_comes_and_whose_connection_has_ended(rt: HostRuntime) {
    assert_eq!(rt; visited(&rt, &rt, are_comings_told), Some(true));
}

/// Whoever isn't let in: he is closed once he has said as much as is waited for, and else ends the connection himself.
#[derive(Clone, Copy)]
enum Stranger {
    Silent,
    /// As many bytes as a greeting has, all of them this one.
    Noise(u8),
    /// With files whose digest is all this byte, as this federate.
    Greets(u8, u16),
    /// Says this behind the challenge.
    Unproved(&'static [u8]),
    /// Proves the secret as this federate, and says this.
    Unheard(u16, &'static [u8]),
}

/// Why each isn't let in, and how many in a row weren't for that, where that is told: of the first, the second, the
/// fourth.
const STRANGERS: &[(Stranger, NotLetIn, Option<u64>)] = &[
    (Stranger::Silent, NotLetIn::NoGreeting, Some(1)),
    (Stranger::Noise(0), NotLetIn::OtherProtocol, Some(1)),
    (Stranger::Greets(8, 0), NotLetIn::OtherFiles, Some(1)),
    (
        Stranger::Greets(FILES[0], 3),
        NotLetIn::NoSuchFederate,
        Some(1),
    ),
    (Stranger::Unproved(&[]), NotLetIn::NoProof, Some(1)),
    (Stranger::Unproved(&[0; 31]), NotLetIn::NoProof, Some(2)),
    (Stranger::Unproved(&[0; 32]), NotLetIn::NotProved, Some(1)),
    (Stranger::Unheard(0, &[]), NotLetIn::NoHello, Some(1)),
    (Stranger::Unheard(0, &[0; 20]), NotLetIn::NoHello, Some(2)),
    (Stranger::Unheard(0, &OTHER_HELLO), NotLetIn::NoHello, None),
    (Stranger::Unheard(2, &HELLO), NotLetIn::NoHello, Some(4)),
    (
        Stranger::Unheard(2, &ACKNOWLEDGEMENT),
        NotLetIn::NoHello,
        None,
    ),
    // Rows that others came between go on.
    (Stranger::Silent, NotLetIn::NoGreeting, Some(2)),
    (Stranger::Noise(0x66), NotLetIn::OtherProtocol, Some(2)),
    (Stranger::Silent, NotLetIn::NoGreeting, None),
    (Stranger::Silent, NotLetIn::NoGreeting, Some(4)),
];

// What it says; the address of its connection, which has ended then. None where it isn't closed that is to be.
fn heard_of<R: Net<Stream = TcpStream, Listener = TcpListener>>(
    rt: &R,
    address: SocketAddr,
    stranger: Stranger,
) -> Option<SocketAddr> {
    match stranger {
        Stranger::Silent => said_on(TcpStream::connect(rt, address).ok()?, &[], false),
        Stranger::Noise(byte) => said_on(TcpStream::connect(rt, address).ok()?, &[byte; 74], true),
        Stranger::Greets(file, federate) => {
            let greeting = Greeting {
                federate,
                files: [file; 32],
                random: [8; 32],
            };
            let stream = TcpStream::connect(rt, address).ok()?;
            said_on(stream, &greeting.bytes(), true)
        }
        Stranger::Unproved(bytes) => {
            let (stream, _) = challenged(rt, address, 0)?;
            said_on(stream, bytes, bytes.len() == 32)
        }
        Stranger::Unheard(federate, bytes) => {
            let (stream, _) = said(rt, address, federate, &[])?;
            said_on(stream, bytes, bytes.len() == HELLO.len())
        }
    }
}

// The address of a connection on which this was said, and which the other end closes then, if so, behind its challenge
// at most.
fn said_on(stream: TcpStream, bytes: &[u8], is_to_be_closed: bool) -> Option<SocketAddr> {
    let mut stream = stream;
    stream.write_all(bytes).ok()?;
    let address = stream.local_addr().ok()?;
    if is_to_be_closed && !is_closed(&stream, 65) {
        return None;
    }
    Some(address)
}

// Whether it is told of each of the strangers why it isn't let in, and from where it came, as seldom as it should; then
// a federate is let in, none before, and the rows of its machine are over.
fn are_strangers_told<R: Host + Net<Stream = TcpStream, Listener = TcpListener>>(
    rt: &R,
    entrance: &Entrance<'_>,
) -> Option<bool> {
    let told = &entrance.coordinator.told;
    for (stranger, why, count) in STRANGERS {
        let from = heard_of(rt, entrance.address, *stranger)?;
        if let Some(count) = count {
            if !is_told(rt, told, Happening::Closed(from, *why, *count)) {
                return Some(false);
            }
        }
    }
    let is_none_let_in = is_empty(rt, entrance);
    let (_stream, address) = let_in_by_hand(rt, entrance)?;
    let is_let_in = is_told(rt, told, Happening::LetIn(0, address));
    let from = heard_of(rt, entrance.address, Stranger::Silent)?;
    let is_over = is_told(rt, told, Happening::Closed(from, NotLetIn::NoGreeting, 1));
    Some(is_none_let_in && is_let_in && is_over)
}

#[test]
fn closes_who_isnt_let_in_and_tells_why_ever_fewer_times(rt: HostRuntime) {
    assert_eq!(rt; visited(&rt, &rt, are_strangers_told), Some(true));
}

// Whether it is told next that a connection to there has ended that wasn't read to its end, the first or the second
// that stood for a moment.
fn is_end_told<R: Host>(rt: &R, told: &Receiver<Told>, at: SocketAddr) -> bool {
    match next_told(rt, told) {
        Some(happened) => [1, 2].iter().any(|times| {
            happened.what
                == Happening::Disconnected(
                    HostAddress::At(at),
                    Disconnection {
                        is_closed: false,
                        times: *times,
                    },
                )
        }),
        None => false,
    }
}

// A federate connects, and connects anew where its connection has ended; then it hears that the run is finished. Whether
// it is told so.
fn is_own_life_told<R: Host + Net<Stream = TcpStream, Listener = TcpListener>>(
    rt: &R,
    entrance: &Entrance<'_>,
) -> Option<bool> {
    let process = entrance.process;
    let at = entrance.address;
    let dial = HostDial::new(
        rt,
        host_of(at, 0)?,
        &process.heard,
        &process.barrier,
        &process.last,
        &process.ending,
    );
    let is_connected = dial.dial(rt, entrance.alloc).is_some();
    let is_connected_again = dial.dial(rt, entrance.alloc).is_some();
    entrance.coordinator.ending.set();
    let is_in_vain = dial.dial(rt, entrance.alloc).is_none();
    let told = &process.told;
    let connected = Happening::Connected(HostAddress::At(at), None);
    let are_told = is_told(rt, told, connected)
        && is_end_told(rt, told, at)
        && is_told(rt, told, connected)
        && is_end_told(rt, told, at)
        && is_told(rt, told, Happening::Finished);
    Some(is_connected && is_connected_again && is_in_vain && are_told && all_hear(rt, entrance)?)
}

#[test]
fn tells_what_happens_to_a_federate(rt: HostRuntime) {
    assert_eq!(rt;
        told_behind(&rt, LONG_MS, is_own_life_told),
        Some([true; 4])
    );
}

// How much was left out, as it is told with what has room: of the first and the last that have, where nobody takes any
// until there is no room, and then one is taken; and how much behind the last. Two tell, of whom either is left out at
// both times. None where it isn't as many as there is room for.
fn left_out<R: Host>(rt: &R, alloc: Global) -> Option<[u64; 3]> {
    let (teller, watcher) = Teller::watched(rt, alloc).ok()?;
    let told = &watcher.told;
    let other = teller.another();
    for _ in 0..MOST_WAITING + 2 {
        teller.tell(rt, rt, Happening::Finished);
    }
    other.tell(rt, rt, Happening::Finished);
    let first = next_told(rt, told)?;
    teller.tell(rt, rt, Happening::GaveUp(GivenUp::Silence));
    other.tell(rt, rt, Happening::Finished);
    teller.tell(rt, rt, Happening::Finished);
    for _ in 1..MOST_WAITING {
        if !is_told(rt, told, Happening::Finished) {
            return None;
        }
    }
    let last = next_told(rt, told)?;
    if last.what == Happening::GaveUp(GivenUp::Silence) && told.try_recv(rt).is_err() {
        Some([first.left_out, last.left_out, watcher.left_out()])
    } else {
        None
    }
}

// Whoever tells waits for nobody: else this wouldn't end.
#[test]
fn waits_for_nobody_and_counts_what_is_left_out(rt: HostRuntime) {
    assert_eq!(rt; left_out(&rt, rt.alloc()), Some([0, 3, 2]));
}

// Whether more may be told while one of those is there who could, nothing once all are gone, and none is watched that
// was made of one that isn't.
fn are_over<R: Host>(rt: &R, alloc: Global) -> Option<[bool; 3]> {
    let (teller, Watcher { told, .. }) = Teller::watched(rt, alloc).ok()?;
    let other = teller.another();
    drop(teller);
    let is_open = matches!(told.try_recv(rt), Err(TryRecvError::Empty));
    drop(other);
    let is_over = matches!(told.try_recv(rt), Err(TryRecvError::Disconnected));
    Some([is_open, is_over, !Teller::silent().another().is_watched()])
}

#[test]
fn nothing_more_is_told_once_the_node_has_ended(rt: HostRuntime) {
    assert_eq!(rt; are_over(&rt, rt.alloc()), Some([true; 3]));
}
