//! What a test does to the connections and to the workers of a run: it sees what is sent and what comes, may break, lose
//! or add something, and may make workers wait.
ghost use Rattle.std.specs.Prelude.{◌≡◌, ◌≤◌, ◌<◌};

use node::NodeId;
use signal::{Frame, FrameReader, Signal};
use std::alloc::Global;
use std::sync::Wait;
use std::sync::atomic::{AtomicBool, Ordering};
use std::thread;
use std::time::{Clock, Duration};
use wires_transports::{Broken, Connection, Failures, Transport};
use wires_workers::{Gate, Point};

/// An end of a federate's connection: the federate's own, or the coordinator's.
#[derive(Clone, Copy, Debug, PartialEq, Eq)]
pub(crate) struct End {
    pub(crate) federate: usize,
    pub(crate) is_own: bool,
}

/// In which order a send's bytes go, and how often.
#[derive(Clone, Copy)]
pub(crate) enum Course {
    Once,
    Twice,
    /// The first frame goes last.
    FirstLast,
}

impl Course {
    // What goes of these frames, in two pieces.
    fn pieces(self, bytes: &[u8]) -> (&[u8], &[u8]) {
        match self {
            Course::Once => (bytes, &[]),
            Course::Twice => (bytes, bytes),
            Course::FirstLast => {
                let end = first_frame_end(bytes).min(bytes.len());
                let (first, behind) = bytes.split_at(end);
                (behind, first)
            }
        }
    }
}

// Where the first of these frames ends.
fn first_frame_end(bytes: &[u8]) -> usize {
    match bytes {
        [0, 0, high, low, ..] => 4 + usize::from(*high) * 256 + usize::from(*low),
        _ => bytes.len(),
    }
}

/// What becomes of a send.
#[derive(Clone, Copy)]
pub(crate) struct Fate {
    /// How many of its bytes go, at most.
    pub(crate) goes: usize,
    /// In which order they go, and how often.
    pub(crate) course: Course,
    /// What goes behind them.
    pub(crate) behind: &'static [u8],
    /// Whether it fails then.
    pub(crate) fails: bool,
}

impl Fate {
    /// All of it goes.
    pub(crate) fn whole() -> Fate {
        Fate::followed(&[])
    }

    /// All of it goes, the first frame last.
    pub(crate) fn first_last() -> Fate {
        Fate {
            course: Course::FirstLast,
            ..Fate::whole()
        }
    }

    /// All of it goes, and once more.
    pub(crate) fn twice() -> Fate {
        Fate {
            course: Course::Twice,
            ..Fate::whole()
        }
    }

    /// All of it goes, and these bytes behind it.
    pub(crate) fn followed(behind: &'static [u8]) -> Fate {
        Fate {
            goes: usize::MAX,
            course: Course::Once,
            behind,
            fails: false,
        }
    }

    /// This many bytes of it go, and it fails.
    pub(crate) fn broken(goes: usize) -> Fate {
        Fate {
            goes,
            course: Course::Once,
            behind: &[],
            fails: true,
        }
    }

    /// Nothing of it goes, and nobody is told.
    pub(crate) fn lost() -> Fate {
        Fate {
            goes: 0,
            course: Course::Once,
            behind: &[],
            fails: false,
        }
    }
}

/// What a test does to the connections and the workers of a run. Each method is called by the worker that makes the
/// call.
pub(crate) trait Tap {
    /// A federate is about to connect; whether it can.
    fn connects(&self, _federate: usize) -> bool {
        true
    }

    /// These bytes, which are whole frames, are about to be sent at an end, where this many sends went before them on
    /// the same connection; what becomes of them.
    fn sends(&self, _end: End, _before: u64, _bytes: &[u8]) -> Fate {
        Fate::whole()
    }

    /// An end is about to read; whether that fails.
    fn breaks(&self, _end: End) -> bool {
        false
    }

    /// So many bytes were read at once at an end, one at least.
    fn reads(&self, _end: End, _bytes: usize) {}

    /// This frame came to an end.
    fn comes(&self, _end: End, _frame: &Frame) {}

    /// Whether no worker is made to wait.
    fn is_open(&self) -> bool {
        true
    }

    /// A worker of this node is about to hand in an event of this kind. It may be made to wait.
    fn holds<R: Wait + Clock>(&self, _rt: &R, _node: NodeId, _point: Point) {}
}

/// The gate that a run's workers pass.
#[derive(Drop)]
pub(crate) struct TapGate<'a, P: Tap> {
    pub(crate) tap: &'a P,
}

impl<'a, P: Tap> Gate for TapGate<'a, P> {
    fn is_open(&self) -> bool {
        self.tap.is_open()
    }

    fn pass<R: Wait + Clock>(&self, rt: &R, node: NodeId, point: Point) {
        self.tap.holds(rt, node, point);
    }
}

/// What workers wait for, at most 10,000 times 1 ms.
#[derive(Drop)]
pub(crate) struct Awaited {
    has_come: AtomicBool,
    is_given_up: AtomicBool,
}

impl Awaited {
    pub(crate) fn new() -> Awaited {
        Awaited {
            has_come: AtomicBool::new(false),
            is_given_up: AtomicBool::new(false),
        }
    }

    /// It has come.
    pub(crate) fn come(&self) {
        self.has_come.store(true, Ordering::SeqCst);
    }

    /// Whether it has.
    pub(crate) fn has_come(&self) -> bool {
        self.has_come.load(Ordering::SeqCst)
    }

    /// Whether it has, and nobody has waited in vain.
    pub(crate) fn came_in_time(&self) -> bool {
        self.has_come() && !self.is_given_up.load(Ordering::SeqCst)
    }

    pub(crate) fn wait<R: Clock>(&self, rt: &R) {
        for _ in 0..10_000 {
            if self.has_come() {
                return;
            }
            thread::sleep(rt, Duration::from_millis(1));
        }
        self.is_given_up.store(true, Ordering::SeqCst);
    }
}

/// Leaves all as it is.
#[derive(Drop)]
pub(crate) struct Untouched;

impl Tap for Untouched {}

/// One end of a connection, as a test has it.
#[derive(Drop)]
pub(crate) struct Tapped<'a, T: Drop, P: Tap> {
    inner: T,
    end: End,
    tap: &'a P,
    sends: u64,
    frames: FrameReader,
    failures: Failures,
}

impl<'a, T: Transport, P: Tap> Transport for Tapped<'a, T, P> {
    ghost failures = { λ t. t.failures };

    fn send<R: Wait>(&mut self, rt: &R, bytes: &[u8]) -> Result<(), Broken> {
        let Fate {
            goes,
            course,
            behind,
            fails,
        } = self.tap.sends(self.end, self.sends, bytes);
        self.sends = self.sends.saturating_add(1);
        let (first, second) = course.pieces(&bytes[..goes.min(bytes.len())]);
        let is_sent = self.inner.send(rt, first).is_ok()
            && self.inner.send(rt, second).is_ok()
            && self.inner.send(rt, behind).is_ok();
        if is_sent && !fails {
            Ok(())
        } else {
            self.failures.tell(())
        }
    }

    fn recv<R: Wait>(&mut self, rt: &R, room: &mut [u8]) -> Result<usize, Broken> {
        if self.tap.breaks(self.end) {
            return self.failures.tell(0);
        }
        match self.inner.recv(rt, room) {
            Ok(count) => {
                if count > 0 {
                    self.tap.reads(self.end, count);
                }
                show(self.tap, self.end, &mut self.frames, &room[..count]);
                Ok(count)
            }
            Err(_) => self.failures.tell(0),
        }
    }

    fn finish<R: Wait>(&mut self, rt: &R) {
        self.inner.finish(rt);
    }
}

// Shows the frames that are whole with these bytes.
fn show<P: Tap>(tap: &P, end: End, frames: &mut FrameReader, bytes: &[u8]) {
    if frames.feed(bytes).is_err() {
        return;
    }
    for _ in bytes {
        match frames.next() {
            Ok(Some(frame)) => tap.comes(end, &frame),
            _ => return,
        }
    }
}

/// A federate's connection at one of its ends, with the test between the workers and it.
pub(crate) fn between<'a, T: Drop, C: Drop, P: Tap>(
    alloc: Global,
    end: End,
    tap: &'a P,
    connection: Connection<T, C>,
) -> Connection<Tapped<'a, T, P>, C> {
    Connection {
        incoming: between_calls(alloc, end, tap, connection.incoming),
        outgoing: between_calls(alloc, end, tap, connection.outgoing),
        cut: connection.cut,
    }
}

// One of its two transports.
fn between_calls<'a, T: Drop, P: Tap>(
    alloc: Global,
    end: End,
    tap: &'a P,
    inner: T,
) -> Tapped<'a, T, P> {
    Tapped {
        inner,
        end,
        tap,
        sends: 0,
        frames: FrameReader::new(alloc),
        failures: Failures::new(),
    }
}

/// The frames of these bytes; None where there is no memory for them.
pub(crate) fn frames_of(alloc: Global, bytes: &[u8]) -> Option<Vec<Frame>> {
    let mut reader = FrameReader::new(alloc);
    reader.feed(bytes).ok()?;
    let mut frames = Vec::new(alloc);
    for _ in bytes {
        match reader.next() {
            Ok(Some(frame)) => frames.push(frame).ok()?,
            _ => break,
        }
    }
    Some(frames)
}

/// Whether a frame is a message.
pub(crate) fn is_message(frame: &Frame) -> bool {
    matches!(
        frame,
        Frame::Data {
            signal: Signal::Msg { .. },
            ..
        }
    )
}
