//! What the workers of a run count is what goes over its connections. Where both ends have version 2 and many signals
//! wait, Batches go over a connection; where one has version 1, none does.
use crate::federations::MANY_TICKS;
use crate::lines::{AMPLE, Case, EACH_WAY, Nodes, seen_in_memory};
use crate::tap::{End, Fate, Tap};
use signal::Frame;
use std::sync::atomic::{AtomicU64, Ordering};
use tests_samples::{COUNTER, Machine};
use wires::Terms;
use wires_traffic::{FrameCounts, RunCounts, Traffic};

/// The first byte of a Batch's body, and of a Hello's.
const BATCH: u8 = 5;

const HELLO: u8 = 1;

// The kind of the frame at the front, and the bytes behind it; None where there is no whole one.
fn first_frame(bytes: &[u8]) -> Option<(u8, &[u8])> {
    let size = match bytes {
        [0, 0, high, low, ..] => 4 + usize::from(*high) * 256 + usize::from(*low),
        _ => return None,
    };
    Some((*bytes.get(4)?, bytes.get(size..)?))
}

// How many of these frames are of a kind, by the first byte of its body.
fn of_kind(wanted: u8, bytes: &[u8]) -> u64 {
    let mut count: u64 = 0;
    let mut left = bytes;
    for _ in bytes {
        match first_frame(left) {
            Some((kind, behind)) => {
                if kind == wanted {
                    count = count.saturating_add(1);
                }
                left = behind;
            }
            None => break,
        }
    }
    count
}

/// What goes one way over all connections: what is sent and what is read, and which frames come.
#[derive(Drop)]
struct Way {
    sends: AtomicU64,
    bytes: AtomicU64,
    batches: AtomicU64,
    hellos_sent: AtomicU64,
    reads: AtomicU64,
    bytes_read: AtomicU64,
    hellos: AtomicU64,
    signals: AtomicU64,
    acks: AtomicU64,
}

impl Way {
    fn new() -> Way {
        Way {
            sends: AtomicU64::new(0),
            bytes: AtomicU64::new(0),
            batches: AtomicU64::new(0),
            hellos_sent: AtomicU64::new(0),
            reads: AtomicU64::new(0),
            bytes_read: AtomicU64::new(0),
            hellos: AtomicU64::new(0),
            signals: AtomicU64::new(0),
            acks: AtomicU64::new(0),
        }
    }

    // Whether just this was sent.
    fn is_sent(&self, sent: &Traffic) -> bool {
        sent.calls == self.sends.load(Ordering::SeqCst)
            && sent.bytes == self.bytes.load(Ordering::SeqCst)
            && sent.batches == self.batches.load(Ordering::SeqCst)
            && sent.frames.hello == self.hellos_sent.load(Ordering::SeqCst)
    }

    // Whether just this was read.
    fn is_read(&self, read: &Traffic) -> bool {
        read.calls == self.reads.load(Ordering::SeqCst)
            && read.bytes == self.bytes_read.load(Ordering::SeqCst)
            && read.batches == 0
            && self.came(&read.frames)
    }

    // Whether just these frames came.
    fn came(&self, came: &FrameCounts) -> bool {
        came.hello == self.hellos.load(Ordering::SeqCst)
            && signals(came) == self.signals.load(Ordering::SeqCst)
            && came.ack == self.acks.load(Ordering::SeqCst)
            && came.refuse == 0
    }
}

// All signals, those that went before among them.
fn signals(frames: &FrameCounts) -> u64 {
    frames
        .again
        .saturating_add(frames.net)
        .saturating_add(frames.ltc)
        .saturating_add(frames.tag)
        .saturating_add(frames.msg)
}

/// Counts what goes to the coordinator and what goes to federates, and loses one send of the first federate, the n-th
/// of its connection, if that is said.
#[derive(Drop)]
struct Counting {
    to_coordinator: Way,
    to_federates: Way,
    lost: Option<u64>,
}

impl Counting {
    fn new(lost: Option<u64>) -> Counting {
        Counting {
            to_coordinator: Way::new(),
            to_federates: Way::new(),
            lost,
        }
    }

    // Which way comes to an end.
    fn way_to(&self, end: End) -> &Way {
        if end.is_own {
            &self.to_federates
        } else {
            &self.to_coordinator
        }
    }

    // Whether the workers counted the same.
    fn agrees(&self, counts: &RunCounts) -> bool {
        self.to_coordinator.is_sent(&counts.federates.sent)
            && self.to_federates.is_sent(&counts.coordinator.sent)
            && self.to_coordinator.is_read(&counts.coordinator.received)
            && self.to_federates.is_read(&counts.federates.received)
    }
}

impl Tap for Counting {
    fn sends(&self, end: End, before: u64, bytes: &[u8]) -> Fate {
        let way = if end.is_own {
            &self.to_coordinator
        } else {
            &self.to_federates
        };
        way.sends.fetch_add(1, Ordering::SeqCst);
        way.bytes.fetch_add(bytes.len() as u64, Ordering::SeqCst);
        way.batches
            .fetch_add(of_kind(BATCH, bytes), Ordering::SeqCst);
        way.hellos_sent
            .fetch_add(of_kind(HELLO, bytes), Ordering::SeqCst);
        if end.is_own && end.federate == 0 && self.lost == Some(before) {
            Fate::lost()
        } else {
            Fate::whole()
        }
    }

    fn reads(&self, end: End, bytes: usize) {
        let way = self.way_to(end);
        way.reads.fetch_add(1, Ordering::SeqCst);
        way.bytes_read.fetch_add(bytes as u64, Ordering::SeqCst);
    }

    fn comes(&self, end: End, frame: &Frame) {
        let way = self.way_to(end);
        let count = match frame {
            Frame::Hello(_) => &way.hellos,
            Frame::Data { .. } => &way.signals,
            _ => &way.acks,
        };
        count.fetch_add(1, Ordering::SeqCst);
    }
}

// What the workers counted in a run that is right, in which federates write this version of frames and a send is lost
// if that is said; None where that isn't what went over connections.
fn counted<R: Machine>(
    rt: &R,
    federation: &'static str,
    nodes: Nodes,
    frames: u8,
    lost: Option<u64>,
) -> Option<RunCounts> {
    let counting = Counting::new(lost);
    let case = Case {
        federation,
        nodes,
        terms: Terms { frames, ..AMPLE },
    };
    let seen = seen_in_memory(rt, &case, &counting)?;
    if seen.is_right && counting.agrees(&seen.counts) {
        Some(seen.counts)
    } else {
        None
    }
}

// Whether the counter's signals are counted by kind, worked out by hand: of each federate an LTC for each of its three
// rows, and as many MSGs from one to the other as rows. src says NET of 0, 10 and 20 ms and of FOREVER, and is granted
// all at once; snk says these four, and FOREVER up to three times before them, and is granted a tag at a time or more at
// once. Where a send was lost, signals are counted that are sent again, by themselves.
fn is_counter(counts: &RunCounts, is_lost: bool) -> bool {
    let own = counts.federates.sent.frames;
    let other = counts.coordinator.sent.frames;
    own.ltc == 6
        && own.msg == 3
        && (8..=11).contains(&own.net)
        && own.tag == 0
        && other.msg == 3
        && (2..=4).contains(&other.tag)
        && other.net == 0
        && other.ltc == 0
        && counts.coordinator.received.frames.ltc == 6
        && counts.federates.received.frames.msg == 3
        && (own.again > 0 || !is_lost)
}

// Whether those of one federate alone are that has 201 ticks and is granted all of them at once: as Batches where it
// writes version 2.
fn is_many_ticks(counts: &RunCounts, frames: u8) -> bool {
    let own = counts.federates.sent.frames;
    let other = counts.coordinator.sent.frames;
    (own.net, own.ltc, own.tag, own.msg) == (202, 201, 0, 0)
        && (other.net, other.ltc, other.tag, other.msg) == (0, 0, 1, 0)
        && (counts.coordinator.connections, counts.federates.connections) == (1, 1)
        && (counts.federates.sent.batches > 0) == (frames == 2)
}

// Whether a run of the counter is counted so.
fn counter_is_right<R: Machine>(rt: &R, nodes: Nodes, frames: u8, lost: Option<u64>) -> bool {
    match counted(rt, COUNTER, nodes, frames, lost) {
        Some(counts) => is_counter(&counts, lost.is_some()),
        None => false,
    }
}

// Whether one of many ticks is.
fn ticks_are_right<R: Machine>(rt: &R, nodes: Nodes, frames: u8) -> bool {
    match counted(rt, MANY_TICKS, nodes, frames, None) {
        Some(counts) => is_many_ticks(&counts, frames),
        None => false,
    }
}

#[test]
fn counts_what_goes_over_connections_and_each_signal_once(rt: HostRuntime) {
    for nodes in EACH_WAY {
        for frames in [1, 2] {
            assert!(rt;
                counter_is_right(&rt, nodes, frames, None),
                "{nodes:?}: {frames}"
            );
            assert!(rt; ticks_are_right(&rt, nodes, frames), "{nodes:?}: {frames}");
        }
        assert!(rt; counter_is_right(&rt, nodes, 1, Some(1)), "{nodes:?}: lost");
    }
}
