//! Of frames that wait for a writer this many are kept, and no more: those that came first.
use crate::tap::frames_of;
use node::Outgoing;
use signal::Frame;
use std::alloc::Global;
use std::sync::Wait;
use std::time::Clock;
use wires_transports::{Connection, Ending, MemoryCut, MemoryTransport, Transport, pair};
use wires_workers::{Side, WriterQueue, write};

/// This many frames wait at most.
const MOST: usize = 16_384;

// This many frames for the peer, which refuse with this number.
fn frames(alloc: Global, count: usize, refusal: u16) -> Option<Vec<Outgoing>> {
    let frame = Frame::Refuse {
        incarnation: 1,
        refusal,
    };
    Vec::from_elem(alloc, Outgoing { peer: 0, frame }, count).ok()
}

// All that came over a connection up to its end.
fn read<R: Wait>(rt: &R, alloc: Global, incoming: &mut MemoryTransport) -> Option<Vec<u8>> {
    let mut bytes = Vec::new(alloc);
    let mut room = [0; 4096];
    for _ in rt.forever() {
        match incoming.recv(rt, &mut room) {
            Ok(0) | Err(_) => break,
            Ok(count) => bytes.extend_from_slice(&room[..count]).ok()?,
        }
    }
    Some(bytes)
}

fn is_second(frame: &Frame) -> bool {
    matches!(frame, Frame::Refuse { refusal: 71, .. })
}

// How many frames of each of the two refusals are written, where this many of the one wait and then this many of the
// other are put.
fn written<R: Wait + Clock>(
    rt: &R,
    alloc: Global,
    first: usize,
    second: usize,
) -> Option<(usize, usize)> {
    let queue: WriterQueue<MemoryTransport, MemoryCut> = WriterQueue::new(alloc).ok()?;
    let (own, other) = pair(alloc).ok()?;
    let Connection { outgoing, cut, .. } = own;
    let Connection { mut incoming, .. } = other;
    let side = Side {
        transport: outgoing,
        cut,
    };
    queue.begin(rt, side, Vec::new(alloc));
    queue.catch_up(rt);
    queue.put(rt, &frames(alloc, first, 70)?, true);
    queue.put(rt, &frames(alloc, second, 71)?, true);
    let ending = Ending::new();
    ending.set();
    write(rt, alloc, &queue, &ending, 1);
    let bytes = read(rt, alloc, &mut incoming)?;
    let came = frames_of(alloc, &bytes)?;
    let seconds = came.iter().filter(|frame| is_second(*frame)).count();
    Some((came.len().checked_sub(seconds)?, seconds))
}

/// How many frames of each of the two refusals are put, and how many of each are written.
const PUT: [(usize, usize, usize, usize); 5] = [
    (2, 1, 2, 1),
    (MOST - 1, 1, MOST - 1, 1),
    (MOST, 1, MOST, 0),
    (MOST - 1, 2, MOST - 1, 0),
    (MOST + 1, 2, 0, 2),
];

// Of which counts others are written than have to be, and how many.
fn exception<R: Wait + Clock>(
    rt: &R,
    alloc: Global,
) -> Option<(usize, usize, Option<(usize, usize)>)> {
    for (first, second, firsts, seconds) in PUT {
        let written = written(rt, alloc, first, second);
        if written != Some((firsts, seconds)) {
            return Some((first, second, written));
        }
    }
    None
}

#[test]
fn keeps_so_many_frames_that_wait(rt: HostRuntime) {
    assert_eq!(rt; exception(&rt, rt.alloc()), None);
}
