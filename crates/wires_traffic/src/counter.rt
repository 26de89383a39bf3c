//! Counting, as a worker does it.
ghost use Rattle.std.specs.Prelude.{◌≡◌, ◌+◌, ◌<◌, ◌&&◌, if◌then◌else◌, nat_eq, nat_lt, [], ◌∷◌};
ghost use Rattle.signal.specs.Pieces.{follows};
ghost use Rattle.wires_traffic.specs.Sums.{kept};
ghost use Rattle.wires_traffic.specs.Counter as definition;

use crate::frame_counts::FrameCounts;
use crate::kind::FrameKind;
use crate::traffic::Traffic;
use signal::Frame;
use signal::wire::MOST_SIGNALS;
use std::marker::Model;

/// Counts what goes one way between a node and one peer, whatever connections they have.
#[derive(Clone, Copy, Debug, PartialEq, Eq)]
pub struct Counter {
    traffic: Traffic,
    // The signals up to this number went before: those between two ends are numbered from 1 on, whatever connections
    // they have.
    highest: u64,
}

impl Model for Counter {
    ghost use Rattle.wires_traffic.specs.Counter.{Counted};

    ghost Value = { Counted };

    ghost view = { λ c. record { traffic = c.traffic; highest = c.highest } };

    ghost inverse = { λ c. record { traffic = c.traffic; highest = c.highest } };
}

impl Counter {
    /// Nothing went so far.
    pub fn new() -> Counter
        ensures { result ≡ definition.nothing_counted }
    {
        Counter {
            traffic: Traffic::none(),
            highest: 0,
        }
    }

    /// What went so far.
    pub fn so_far(&self) -> Traffic
        ensures { result ≡ self.now.traffic }
    {
        self.traffic
    }

    /// Counts frames that are sent at once, as so many bytes; in Batches, where both ends read them.
    pub fn send(&mut self, frames: &[Frame], bytes: usize, in_batches: bool)
        ensures { self.new ≡ definition.with_send self.old frames.now bytes in_batches }
    {
        let sent = one_send(self.highest, frames, bytes, in_batches);
        self.traffic = self.traffic.plus(sent);
        self.highest = highest_after(self.highest, frames);
    }

    /// Counts bytes that were read at once.
    pub fn read(&mut self, bytes: usize)
        ensures { self.new ≡ definition.with_read self.old bytes }
    {
        let read = Traffic {
            frames: FrameCounts::none(),
            batches: 0,
            bytes: bytes as u64,
            calls: 1,
        };
        self.traffic = self.traffic.plus(read);
    }

    /// Counts a frame that was read.
    pub fn take(&mut self, frame: &Frame)
        ensures { self.new ≡ definition.with_frame self.old frame.now }
    {
        self.traffic.frames.add(FrameKind::of(frame, self.highest));
        self.highest = highest_with(self.highest, frame);
    }
}

// One send of these frames, where the signals up to a number went before.
fn one_send(before: u64, frames: &[Frame], bytes: usize, in_batches: bool) -> Traffic
    ensures { result ≡ definition.one_send before frames.now bytes in_batches }
{
    Traffic {
        frames: FrameCounts::of(frames, before),
        batches: batches_sent(frames, in_batches),
        bytes: bytes as u64,
        calls: 1,
    }
}

// Up to which number signals went behind these frames.
fn highest_after(before: u64, frames: &[Frame]) -> u64
    ensures { result ≡ definition.highest_after before frames.now }
{
    let mut highest = before;
    for frame in frames {
        highest = highest_with(highest, frame);
    }
    highest
}

// The same behind one frame.
fn highest_with(before: u64, frame: &Frame) -> u64
    ensures { result ≡ definition.highest_after before (frame.now ∷ []) }
{
    match frame {
        Frame::Data { number, .. } => before.max(*number),
        _ => before,
    }
}

// How many Batches go in one send of these frames.
fn batches_sent(frames: &[Frame], in_batches: bool) -> u64
    ensures { result ≡ definition.batches_sent frames.now in_batches }
{
    if in_batches { batches(frames) } else { 0 }
}

// How many Batches there are among these frames as they are written for a peer that reads Batches.
fn batches(frames: &[Frame]) -> u64
    ensures { result ≡ kept (definition.batches_in frames.now) }
{
    let mut batches: u64 = 0;
    // How many frames the piece has so far of which the frame before is.
    let mut size: usize = 1;
    for place in 1..frames.len() {
        size = size_with(size, &frames[place - 1], &frames[place]);
        batches = batches.saturating_add(begun_by(size));
    }
    batches
}

// How many frames the piece has so far of which the second frame is, where there are so many with the first one. Where
// that has no room for it, or it doesn't go on with it, it begins another one.
fn size_with(size: usize, frame: &Frame, next: &Frame) -> usize
    ensures { result ≡ (if nat_lt size MOST_SIGNALS && follows frame.now next.now then size + 1 else 1) }
{
    if size < MOST_SIGNALS && follows(frame, next) {
        size + 1
    } else {
        1
    }
}

// How many Batches begin where a piece has so many frames: the second makes it one.
fn begun_by(size: usize) -> u64
    ensures { result ≡ (if nat_eq size 2 then 1 else 0) }
{
    if size == 2 { 1 } else { 0 }
}

// Whether a frame has the next signal of the same incarnation.
fn follows(frame: &Frame, next: &Frame) -> bool
    ensures { result ≡ follows frame.now next.now }
{
    match (*frame, *next) {
        (
            Frame::Data {
                incarnation,
                number,
                ..
            },
            Frame::Data {
                incarnation: other,
                number: next,
                ..
            },
        ) => other == incarnation && next > number && next - number == 1,
        _ => false,
    }
}
