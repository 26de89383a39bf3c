//! Two stations joined by bytes, where frames are lost, repeated and overtaken.
ghost use Rattle.std.specs.Prelude.{◌<◌};

use crate::counter::Counter;
use link::LinkEnd;
use node::{Event, Outgoing, Reply, Station};
use signal::{Frame, FrameReader, write_frame};
use std::alloc::{AllocError, Global};

/// Numbers made up from a seed.
#[derive(Clone, Copy)]
pub(crate) struct Chance(pub u64);

impl Chance {
    /// A number below this one.
    pub(crate) fn below(&mut self, limit: usize) -> usize
        requires { 0 < limit }
        ensures { result < limit }
    {
        self.0 = self
            .0
            .wrapping_mul(6_364_136_223_846_793_005)
            .wrapping_add(1_442_695_040_888_963_407);
        (self.0 >> 33) as usize % limit
    }
}

/// A station, and what is on its way to it.
#[derive(Drop)]
struct Side {
    station: Station<Counter>,
    reader: FrameReader,
    coming: Vec<Frame>,
}

impl Side {
    fn new(alloc: Global) -> Result<Side, AllocError> {
        let mut ends = Vec::with_capacity(alloc, 1)?;
        ends.push(LinkEnd::new(alloc, 0, 1, 4))?;
        Ok(Side {
            station: Station::new(alloc, Counter::new(), ends),
            reader: FrameReader::new(alloc),
            coming: Vec::new(alloc),
        })
    }

    // Whether it has taken a hundred messages, and the other side has all of its own.
    fn has_all(&self) -> bool {
        match self.station.end(0) {
            Some(end) => self.station.node().taken == 100
                && self.station.node().sent == 100
                && end.unacked() == 0,
            None => false,
        }
    }

    // One step, whose frames are on their way to the other side then. None where something else is refused than a number
    // above the next, or a message for which there is no room.
    fn step(&mut self, chance: &mut Chance, event: Event, other: &mut Side) -> Option<()> {
        match self.station.step(event) {
            Ok(Reply::Nothing | Reply::Refused(52 | 60, _)) => Some(()),
            Ok(Reply::Done(frames)) => other.add(chance, &frames),
            _ => None,
        }
    }

    // Frames are on their way to it, each not at all, once or twice.
    fn add(&mut self, chance: &mut Chance, frames: &[Outgoing]) -> Option<()> {
        for outgoing in frames {
            for _ in 0..chance.below(3) {
                self.coming.push(outgoing.frame).ok()?;
            }
        }
        Some(())
    }

    // Some of what is on its way, in any order, as bytes.
    fn arriving(&mut self, alloc: Global, chance: &mut Chance) -> Option<Vec<u8>> {
        let mut bytes = Vec::new(alloc);
        for _ in 0..chance.below(8) {
            if !self.coming.is_empty() {
                let place = chance.below(self.coming.len());
                let frame = self.coming.swap_remove(place);
                write_frame(&frame, &mut bytes).ok()?;
            }
        }
        Some(bytes)
    }

    // Reads bytes in pieces. No frame is shorter than a piece, so that each piece ends one frame at most.
    fn read(&mut self, chance: &mut Chance, bytes: &[u8], other: &mut Side) -> Option<()> {
        for piece in bytes.chunks(1 + chance.below(11)) {
            self.reader.feed(piece).ok()?;
            if let Some(frame) = self.reader.next().ok()? {
                self.step(chance, Event::Frame(0, frame), other)?;
            }
        }
        Some(())
    }

    // What this side does in one round. What it keeps is sent again at times.
    fn turn(&mut self, alloc: Global, chance: &mut Chance, other: &mut Side) -> Option<()> {
        self.step(chance, Event::Advance, other)?;
        if chance.below(4) == 0 {
            self.step(chance, Event::Resend(0), other)?;
        }
        if chance.below(16) == 0 {
            self.step(chance, Event::Hello(0), other)?;
        }
        let bytes = self.arriving(alloc, chance)?;
        self.read(chance, &bytes, other)
    }
}

// Whether both sides have taken all within 2,000 rounds. They take messages in order alone.
fn all_taken(
    alloc: Global,
    chance: &mut Chance,
    left: &mut Side,
    right: &mut Side,
) -> Option<bool> {
    for _ in 0..2000 {
        left.turn(alloc, chance, right)?;
        right.turn(alloc, chance, left)?;
        if left.has_all() && right.has_all() {
            return Some(true);
        }
    }
    Some(false)
}

// The same of two fresh ones.
fn all_taken_by_chance(alloc: Global, seed: u64) -> Option<bool> {
    let mut left = Side::new(alloc).ok()?;
    let mut right = Side::new(alloc).ok()?;
    all_taken(alloc, &mut Chance(seed), &mut left, &mut right)
}

#[test]
fn takes_all_in_order_over_lossy_lines(rt: HostRuntime) {
    let taken = [1, 2, 3].map(|seed| all_taken_by_chance(rt.alloc(), seed));
    assert_eq!(rt; taken, [Some(true); 3]);
}
