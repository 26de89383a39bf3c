//! Who is notified of what is left to be done. No time goes by in these tests: who isn't notified doesn't go on.
use crate::clocks::Standing;
use crate::counting::{Queue, Seen, refusal, side};
use std::alloc::Global;
use std::sync::Wait;
use std::thread;
use std::thread::Threads;
use wires_workers::{WriterQueue, write};

// Puts a frame while the writer sends one. At its third look the writer has been notified of its connection, and waits
// once more. The run is to end behind that frame, and nobody is notified of the end.
fn put_meanwhile<R: Wait>(rt: &R, machine: &Standing<'_, R>, queue: &Queue<'_>, seen: &Seen) {
    machine.wait_for_looks(3);
    queue.put(rt, &[refusal()], false);
    queue.notify(rt);
    machine.expect_no_wait();
    seen.wait_for_sends(rt, 1);
    queue.put(rt, &[refusal()], false);
    queue.send(rt);
    seen.ending.set();
    seen.hold(false);
}

// How many sends there are then, and whether the writer wasn't notified of the second.
fn sent_meanwhile<R: Threads + Wait + Sync>(
    rt: &R,
    alloc: Global,
    seen: &Seen,
) -> Option<(u32, bool)> {
    seen.hold(true);
    let queue = WriterQueue::new(alloc).ok()?;
    queue.begin(rt, side(alloc, seen)?, Vec::new(alloc));
    let machine = Standing::new(rt);
    thread::join(
        rt,
        || write(&machine, alloc, &queue, &seen.ending, 2),
        || put_meanwhile(rt, &machine, &queue, seen),
    );
    Some((seen.sends(), machine.is_late()))
}

// Who finds that somebody writes leaves his frames, and the writer looks once more.
#[test]
fn writes_what_is_put_while_it_writes(rt: HostRuntime) {
    let seen = Seen::new(false);
    assert_eq!(rt; sent_meanwhile(&rt, rt.alloc(), &seen), Some((2, false)));
}

/// What a writer hears of while it waits.
#[derive(Clone, Copy)]
enum News {
    /// A connection, on which a frame is sent first.
    Connection,
    /// A frame for a peer that is behind, on a connection that it has.
    Frame,
}

// Lets a writer hear of it that waits, and nobody notifies it by hand. The run is to end behind the frame.
fn tell_meanwhile<'s, R: Wait>(
    rt: &R,
    alloc: Global,
    machine: &Standing<'_, R>,
    queue: &Queue<'s>,
    seen: &'s Seen,
    news: News,
) -> Option<()> {
    let mut greeting = Vec::new(alloc);
    greeting.push(refusal()).ok()?;
    machine.wait_for_looks(3);
    match news {
        News::Connection => queue.begin(rt, side(alloc, seen)?, greeting),
        News::Frame => {
            queue.put(rt, &[refusal()], true);
            queue.send(rt);
        }
    }
    machine.expect_no_wait();
    seen.wait_for_sends(rt, 1);
    seen.ending.set();
    queue.notify(rt);
    Some(())
}

// How many sends there are then, and whether the writer wasn't notified of it.
fn sent_of<R: Threads + Wait + Sync>(
    rt: &R,
    alloc: Global,
    seen: &Seen,
    news: News,
) -> Option<(u32, bool)> {
    let queue = WriterQueue::new(alloc).ok()?;
    if let News::Frame = news {
        queue.begin(rt, side(alloc, seen)?, Vec::new(alloc));
        queue.catch_up(rt);
    }
    let machine = Standing::new(rt);
    let (_, told) = thread::join(
        rt,
        || write(&machine, alloc, &queue, &seen.ending, 2),
        || tell_meanwhile(rt, alloc, &machine, &queue, seen, news),
    );
    told?;
    Some((seen.sends(), machine.is_late()))
}

// What is left to the writer, which has nothing to do, it is notified of.
#[test]
fn is_notified_of_a_connection_and_of_what_is_for_a_peer_that_is_behind(rt: HostRuntime) {
    for news in [News::Connection, News::Frame] {
        let seen = Seen::new(false);
        assert_eq!(rt; sent_of(&rt, rt.alloc(), &seen, news), Some((1, false)));
    }
}
