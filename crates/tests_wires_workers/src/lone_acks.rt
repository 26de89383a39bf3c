//! Acks are written also where nothing else goes to their peer: a little later, and at the end.
use crate::counting::{Queue, Seen, ack, side};
use std::alloc::Global;
use std::io;
use std::io::ErrorKind;
use std::sync::Wait;
use std::sync::atomic::{AtomicU32, Ordering};
use std::time::{Clock, Duration};
use wires_workers::{WriterQueue, write};

/// How often a writer looks at the clock before the test gives it up.
const MOST_LOOKS: u32 = 1_000;

/// A machine whose clock can't be read, so that each wait for a wake-up is over at once. Whenever the writer is to wait
/// there, it is asked for an Ack, if the one before was sent. The run is to end behind the last one: once that was
/// sent, or right away.
#[derive(Drop)]
struct Asking<'q, 's, R> {
    rt: &'q R,
    queue: &'q Queue<'s>,
    seen: &'s Seen,
    // How many Acks are asked for.
    count: u32,
    ends_at_once: bool,
    asked: AtomicU32,
    looks: AtomicU32,
}

impl<'q, 's, R: Wait> Asking<'q, 's, R> {
    fn go_on(&self) {
        let looks = self.looks.fetch_add(1, Ordering::SeqCst);
        let asked = self.asked.load(Ordering::SeqCst);
        if asked < self.count && self.seen.sends() == asked {
            self.ask(asked.saturating_add(1));
        } else if looks > MOST_LOOKS || self.seen.sends() == self.count {
            self.seen.ending.set();
        }
    }

    // Asks for the Ack of this number.
    fn ask(&self, number: u32) {
        self.asked.store(number, Ordering::SeqCst);
        self.queue.put(self.rt, &[ack(u64::from(number))], false);
        self.queue.send(self.rt);
        if self.ends_at_once && number == self.count {
            self.seen.ending.set();
        }
    }
}

impl<'q, 's, R: Wait> Wait for Asking<'q, 's, R> {}

impl<'q, 's, R: Wait> Clock for Asking<'q, 's, R> {
    fn monotonic(&self) -> io::Result<Duration> {
        self.go_on();
        Err(io::Error::from(ErrorKind::Unsupported))
    }

    fn since_1970(&self) -> io::Result<Duration> {
        self.monotonic()
    }
}

// How many sends there are where so many Acks are asked for.
fn sends<R: Wait>(
    rt: &R,
    alloc: Global,
    seen: &Seen,
    count: u32,
    ends_at_once: bool,
) -> Option<u32> {
    let queue = WriterQueue::new(alloc).ok()?;
    queue.begin(rt, side(alloc, seen)?, Vec::new(alloc));
    let machine = Asking {
        rt,
        queue: &queue,
        seen,
        count,
        ends_at_once,
        asked: AtomicU32::new(0),
        looks: AtomicU32::new(0),
    };
    write(&machine, alloc, &queue, &seen.ending, 2);
    Some(seen.sends())
}

#[test]
fn writes_each_ack_though_nothing_else_is_sent_and_the_last_at_the_end(rt: HostRuntime) {
    for (count, ends_at_once) in [(5, false), (1, true)] {
        let seen = Seen::new(false);
        assert_eq!(rt;
            sends(&rt, rt.alloc(), &seen, count, ends_at_once),
            Some(count)
        );
    }
}
