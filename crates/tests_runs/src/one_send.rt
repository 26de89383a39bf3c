//! One send of a run on which something befalls: it is followed by bytes that are no frame, it fails, it is lost, it goes
//! twice, or its first frame goes last.
use crate::federations::BY_TURNS;
use crate::lines::{Case, EACH_WAY, Nodes, seen_in_memory};
use crate::tap::{End, Fate, Tap};
use signal::FrameReader;
use std::alloc::Global;
use std::sync::atomic::{AtomicU64, Ordering};
use tests_samples::Machine;
use wires::Terms;

/// Far more than a run needs, which ends within 20 s of idle turns all the same.
const TURNS: u32 = 2_000;

/// What befalls one send at an end, the n-th of all its connections, counted from 0; and how often each of two
/// federates connects.
#[derive(Drop)]
struct Once {
    end: End,
    nth: u64,
    fate: Fate,
    /// The version of frames that federates write.
    frames: u8,
    sends: AtomicU64,
    connections: [AtomicU64; 2],
}

impl Once {
    fn new(end: End, nth: u64, fate: Fate, frames: u8) -> Once {
        Once {
            end,
            nth,
            fate,
            frames,
            sends: AtomicU64::new(0),
            connections: [AtomicU64::new(0), AtomicU64::new(0)],
        }
    }

    // How often each federate connected.
    fn connections(&self) -> [u64; 2] {
        let [src, snk] = &self.connections;
        [src.load(Ordering::SeqCst), snk.load(Ordering::SeqCst)]
    }
}

impl Tap for Once {
    fn connects(&self, federate: usize) -> bool {
        if let Some(connections) = self.connections.get(federate) {
            connections.fetch_add(1, Ordering::SeqCst);
        }
        true
    }

    fn sends(&self, end: End, _before: u64, _bytes: &[u8]) -> Fate {
        if end == self.end && self.sends.fetch_add(1, Ordering::SeqCst) == self.nth {
            self.fate
        } else {
            Fate::whole()
        }
    }
}

// How often src and snk connect in a run in which this befalls one send; none where the run isn't right.
fn connections<R: Machine>(rt: &R, nodes: Nodes, once: &Once) -> Option<[u64; 2]> {
    let case = Case {
        federation: BY_TURNS,
        nodes,
        terms: Terms {
            turns: TURNS,
            frames: once.frames,
        },
    };
    let seen = seen_in_memory(rt, &case, once)?;
    if seen.is_right {
        Some(once.connections())
    } else {
        None
    }
}

// The first of so many sends of src or to it that makes src and snk connect otherwise where this befalls it: whether it
// is src's own, which one, and how often they connect then. None where each makes them connect so.
fn exception<R: Machine>(rt: &R, nodes: Nodes, row: &Row) -> Option<(bool, u64, Option<[u64; 2]>)> {
    for is_own in [true, false] {
        for nth in 0..row.sends {
            let end = End {
                federate: 0,
                is_own,
            };
            let connected = connections(rt, nodes, &Once::new(end, nth, row.fate, row.frames));
            if connected != Some(row.connections) {
                return Some((is_own, nth, connected));
            }
        }
    }
    None
}

/// What befalls each of so many sends of src or to it, where federates write this version of frames, and how often src
/// and snk connect then.
#[derive(Clone, Copy)]
struct Row {
    fate: Fate,
    sends: u64,
    frames: u8,
    connections: [u64; 2],
}

impl Row {
    // What ends a connection of src.
    fn ends(fate: Fate) -> Row {
        Row {
            fate,
            sends: 3,
            frames: 2,
            connections: [2, 1],
        }
    }

    // What ends none, where a frame carries one signal.
    fn ends_none(fate: Fate) -> Row {
        Row {
            fate,
            sends: 4,
            frames: 1,
            connections: [1, 1],
        }
    }
}

// That it is so, however nodes run. A row is told by this number.
fn assert_row<R: Machine>(rt: &R, number: u16, row: &Row) {
    for nodes in EACH_WAY {
        assert_eq!(rt; exception(rt, nodes, row), None, "{number}: {nodes:?}");
    }
}

/// Bytes that are no frame, with the number of their fault: a length of 0; a body of no kind; an LTC with FOREVER; an
/// Ack with a byte too many.
const MALICIOUS: &[(u16, &[u8])] = &[
    (40, &[0, 0, 0, 0]),
    (41, &[0, 0, 0, 1, 9]),
    (
        42,
        &[
            0, 0, 0, 26, 2, 0, 0, 0, 1, 0, 0, 0, 0, 0, 0, 0, 1, 2, 255, 255, 255, 255, 255, 255,
            255, 255, 255, 255, 255, 255,
        ],
    ),
    (43, &[0, 0, 0, 14, 3, 0, 0, 0, 1, 0, 0, 0, 0, 0, 0, 0, 0, 0]),
];

// The fault of these bytes; none where they have none.
fn fault(alloc: Global, bytes: &[u8]) -> Option<u16> {
    let mut frames = FrameReader::new(alloc);
    frames.feed(bytes).ok()?;
    match frames.next() {
        Ok(_) => None,
        Err(fault) => Some(fault.number()),
    }
}

#[test]
fn ends_a_connection_on_which_something_is_no_frame(rt: HostRuntime) {
    for (number, bytes) in MALICIOUS {
        assert_eq!(rt; fault(rt.alloc(), *bytes), Some(*number));
        assert_row(&rt, *number, &Row::ends(Fate::followed(*bytes)));
    }
}

#[test]
fn ends_a_connection_on_which_a_send_failed(rt: HostRuntime) {
    for goes in [0, 1, 19] {
        assert_row(&rt, goes, &Row::ends(Fate::broken(usize::from(goes))));
    }
}

// What is lost without breaking a connection is sent again, at either end.
#[test]
fn sends_again_what_was_lost(rt: HostRuntime) {
    assert_row(&rt, 0, &Row::ends_none(Fate::lost()));
}

// No signal is taken twice, and none before one that was said before it.
#[test]
fn takes_once_and_in_order_what_comes_twice_or_turned(rt: HostRuntime) {
    assert_row(&rt, 2, &Row::ends_none(Fate::twice()));
    assert_row(&rt, 1, &Row::ends_none(Fate::first_last()));
}
