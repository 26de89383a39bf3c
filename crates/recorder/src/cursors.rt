use signal::Frame;
use std::alloc::{AllocError, Global};
use world_stations::Dir;

/// Where the next frame is looked for, direction by direction, and where it was looked for in vain. A writer writes
/// Acks after all else, and leaves some out; so they are looked for by themselves. No answer rests on it, where the
/// search is exact.
#[derive(Drop)]
pub(crate) struct Cursors {
    up: Vec<Pair>,
    down: Vec<Pair>,
}

// In one direction.
#[derive(Clone, Copy)]
struct Pair {
    acks: Cursor,
    others: Cursor,
}

// Of frames that come in the order in which they were sent.
#[derive(Clone, Copy)]
struct Cursor {
    // The place after the last one that was found.
    next: usize,
    // The place after those at which the next one was looked for in vain.
    unseen: usize,
}

impl Cursors {
    /// Each at the first frame, for this many federates.
    pub(crate) fn new(alloc: Global, count: usize) -> Result<Cursors, AllocError> {
        let first = Pair {
            acks: Cursor::after(0),
            others: Cursor::after(0),
        };
        let up = Vec::from_elem(alloc, first, count)?;
        let down = Vec::from_elem(alloc, first, count)?;
        Ok(Cursors { up, down })
    }

    /// The place from which on this frame is looked for, if it comes next in this direction.
    pub(crate) fn unseen(&self, dir: Dir, frame: &Frame) -> usize {
        self.at(dir, frame).unseen
    }

    /// This frame was found at this place.
    pub(crate) fn find(&mut self, dir: Dir, frame: &Frame, k: usize) {
        let next = self.at(dir, frame).next;
        self.set(dir, frame, Cursor::after(k.max(next.saturating_sub(1))));
    }

    /// This frame, which comes next, isn't among this many that were sent.
    pub(crate) fn miss(&mut self, dir: Dir, frame: &Frame, sent: usize) {
        let next = self.at(dir, frame).next;
        let unseen = sent.saturating_add(1).max(next);
        self.set(dir, frame, Cursor { next, unseen });
    }

    // What holds of such frames in this direction.
    fn at(&self, dir: Dir, frame: &Frame) -> Cursor {
        let pair = match dir {
            Dir::Up(federate) => self.up.get(federate),
            Dir::Down(federate) => self.down.get(federate),
        };
        match (pair, frame) {
            (Some(pair), Frame::Ack { .. }) => pair.acks,
            (Some(pair), _) => pair.others,
            (None, _) => Cursor::after(0),
        }
    }

    // Sets what holds of such frames in this direction.
    fn set(&mut self, dir: Dir, frame: &Frame, cursor: Cursor) {
        match dir {
            Dir::Up(federate) => set(&mut self.up, federate, frame, cursor),
            Dir::Down(federate) => set(&mut self.down, federate, frame, cursor),
        }
    }
}

impl Cursor {
    // After the frame at this place.
    fn after(k: usize) -> Cursor {
        let next = k.saturating_add(1);
        Cursor { next, unseen: next }
    }
}

// Sets what holds of such frames at this federate, if there is one.
fn set(pairs: &mut Vec<Pair>, federate: usize, frame: &Frame, cursor: Cursor) {
    if let Some(pair) = pairs.get_mut(federate) {
        match frame {
            Frame::Ack { .. } => pair.acks = cursor,
            _ => pair.others = cursor,
        }
    }
}
