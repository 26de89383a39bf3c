//! An end of a connection on which sends are counted.
use crate::said::acknowledgement;
use node::Outgoing;
use signal::Frame;
use std::alloc::Global;
use std::sync::atomic::{AtomicBool, AtomicU32, Ordering};
use std::sync::{Arc, Wait};
use std::thread;
use wires_transports::{Broken, Cut, Ending, Failures, Transport};
use wires_workers::{Side, WriterQueue};

/// A run, and what became of a connection in it.
#[derive(Drop)]
pub(crate) struct Seen {
    pub ending: Ending,
    // Whether each send fails.
    fails: bool,
    // Whether a send lasts until it doesn't hold any more.
    is_held: AtomicBool,
    sends: AtomicU32,
    // How many of the sends came when the run was to end.
    last_sends: AtomicU32,
    cuts: AtomicU32,
}

impl Seen {
    /// Nothing was sent.
    pub fn new(fails: bool) -> Seen {
        Seen {
            ending: Ending::new(),
            fails,
            is_held: AtomicBool::new(false),
            sends: AtomicU32::new(0),
            last_sends: AtomicU32::new(0),
            cuts: AtomicU32::new(0),
        }
    }

    /// From now on each send lasts until it is said that they don't.
    pub fn hold(&self, is_held: bool) {
        self.is_held.store(is_held, Ordering::SeqCst);
    }

    /// Waits until so many sends have begun.
    pub fn wait_for_sends<R: Wait>(&self, rt: &R, count: u32) {
        for _ in rt.forever() {
            if self.sends() >= count {
                break;
            }
            thread::yield_now();
        }
    }

    // Waits until sends don't last any more.
    fn pass<R: Wait>(&self, rt: &R) {
        for _ in rt.forever() {
            if !self.is_held.load(Ordering::SeqCst) {
                break;
            }
            thread::yield_now();
        }
    }

    /// How often something was sent.
    pub fn sends(&self) -> u32 {
        self.sends.load(Ordering::SeqCst)
    }

    /// How often when the run was to end.
    pub fn last_sends(&self) -> u32 {
        self.last_sends.load(Ordering::SeqCst)
    }

    /// How often the connection was cut.
    pub fn cuts(&self) -> u32 {
        self.cuts.load(Ordering::SeqCst)
    }
}

/// An end of the connection.
#[derive(Drop)]
pub(crate) struct Counting<'a> {
    seen: &'a Seen,
    failures: Failures,
}

impl<'a> Transport for Counting<'a> {
    ghost failures = { λ t. t.failures };

    fn send<R: Wait>(&mut self, rt: &R, _bytes: &[u8]) -> Result<(), Broken> {
        self.seen.sends.fetch_add(1, Ordering::SeqCst);
        if self.seen.ending.is_set() {
            self.seen.last_sends.fetch_add(1, Ordering::SeqCst);
        }
        self.seen.pass(rt);
        if self.seen.fails {
            self.failures.tell(())
        } else {
            Ok(())
        }
    }

    fn recv<R: Wait>(&mut self, _rt: &R, _room: &mut [u8]) -> Result<usize, Broken> {
        self.failures.tell(0)
    }

    fn finish<R: Wait>(&mut self, _rt: &R) {}
}

/// What cuts it.
#[derive(Drop)]
pub(crate) struct Counted<'a> {
    seen: &'a Seen,
}

impl<'a> Cut for Counted<'a> {
    fn cut<R: Wait>(&self, _rt: &R) {
        self.seen.cuts.fetch_add(1, Ordering::SeqCst);
    }
}

/// What is asked of a writer on such a connection.
pub(crate) type Queue<'a> = WriterQueue<Counting<'a>, Counted<'a>>;

/// An end of it.
pub(crate) fn side<'s>(alloc: Global, seen: &'s Seen) -> Option<Side<Counting<'s>, Counted<'s>>> {
    let transport = Counting {
        seen,
        failures: Failures::new(),
    };
    let cut = Arc::new(alloc, Counted { seen }).ok()?;
    Some(Side { transport, cut })
}

/// A writer begins on such a connection, on which nothing waits; None without memory.
pub(crate) fn begin<'s, R: Wait>(
    rt: &R,
    alloc: Global,
    queue: &Queue<'s>,
    seen: &'s Seen,
) -> Option<()> {
    begin_on(rt, alloc, queue, side(alloc, seen)?);
    Some(())
}

/// The same on any connection.
pub(crate) fn begin_on<R: Wait, T: Transport, C: Cut>(
    rt: &R,
    alloc: Global,
    queue: &WriterQueue<T, C>,
    side: Side<T, C>,
) {
    queue.open(rt, alloc, 2);
    queue.begin(rt, side, Vec::new(alloc));
    queue.catch_up(rt);
    queue.send_all(rt, false);
}

/// Queues of this many writers.
pub(crate) fn queues<T: Drop, C: Drop>(
    alloc: Global,
    count: usize,
) -> Option<Vec<WriterQueue<T, C>>> {
    let mut queues = Vec::with_capacity(alloc, count).ok()?;
    for _ in 0..count {
        queues.push(WriterQueue::new(alloc).ok()?).ok()?;
    }
    Some(queues)
}

/// A frame that goes at once.
pub(crate) fn refusal() -> Outgoing {
    Outgoing {
        peer: 0,
        frame: Frame::Refuse {
            incarnation: 1,
            refusal: 63,
        },
    }
}

/// An Ack, which waits a little for other frames.
pub(crate) fn ack(last_taken: u64) -> Outgoing {
    Outgoing {
        peer: 0,
        frame: acknowledgement(last_taken),
    }
}
