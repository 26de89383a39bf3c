//! The worker that writes what a node sends to one peer.
ghost use Rattle.std.specs.Prelude.{◌≡◌, ◌<◌, [], OnOk, OnErr};
ghost use Rattle.wires_workers.specs.Waiting.{fresh, emptied, with_frame, covers, all_bytes};

use crate::side::Side;
use crate::writer_queue::WriterQueue;
use node::Outgoing;
use signal::wire::{BATCHING, FIRST_VERSION};
use signal::{Frame, Memory, write_frames};
use std::alloc::Global;
use std::marker::Model;
use std::sync::Wait;
use std::thread;
use std::time::Clock;
use wires_traffic::{Counter, Traffic};
use wires_transports::{Cut, Ending, Transport};

/// A writer: the connection on which it writes, if there is one, and the frames that it writes next. Of Acks that a
/// later one covers only the later one is written, behind all else.
#[derive(Drop)]
pub struct Writer<T: Drop, C: Drop> {
    side: Option<Side<T, C>>,
    // The version that its node writes, 1 or more.
    own: u8,
    // The version of the peer's last Hello on this connection, or the first version before one came.
    peer: u8,
    frames: Vec<Frame>,
    ack: Option<Frame>,
    // Room for the bytes of a send.
    bytes: Vec<u8>,
    // What was sent so far, on all connections.
    sent: Counter,
}

impl<T: Drop, C: Drop> Model for Writer<T, C> {
    ghost use Rattle.std.specs.Prelude.{◌<◌};
    ghost use Rattle.wires_workers.specs.Waiting as waiting;

    ghost Value = { waiting.Waiting };

    ghost view = { λ w. record { own = w.own; peer = w.peer; frames = w.frames.items; ack = w.ack } };

    ghost invariant = { λ w. 0 < w.own };
}

impl<T: Transport, C: Cut> Writer<T, C> {
    /// It has no connection, and nothing to write. Its node writes this version of frames, 1 or more.
    pub fn new(alloc: Global, own: u8) -> Writer<T, C>
        requires { 0 < own }
        ensures { result ≡ fresh own }
    {
        Writer {
            side: None,
            own,
            peer: FIRST_VERSION,
            frames: Vec::new(alloc),
            ack: None,
            bytes: Vec::new(alloc),
            sent: Counter::new(),
        }
    }

    /// Puts a frame behind what is written next. An Ack takes the place of one that it covers.
    pub fn add(&mut self, frame: &Frame) -> Result<(), Memory>
        ensures waits { OnOk result (self.new ≡ with_frame self.old frame.now) }
        ensures unchanged { OnErr result (self.new ≡ self.old) }
    {
        if let Frame::Ack { .. } = frame {
            if let Some(earlier) = &self.ack {
                if !covers(frame, earlier) {
                    self.frames.push(*earlier)?;
                }
            }
            self.ack = Some(*frame);
            Ok(())
        } else {
            self.frames.push(*frame)?;
            Ok(())
        }
    }

    /// Writes from now on on this connection. What was not yet sent is dropped, and no Hello has come on it.
    pub fn begin(&mut self, side: Side<T, C>)
        ensures { self.new ≡ fresh self.old.own }
    {
        self.side = Some(side);
        self.peer = FIRST_VERSION;
        self.clear();
    }

    /// The peer's last Hello on this connection has this version.
    pub fn hear(&mut self, version: u8)
        ensures { self.new ≡ record self.old { peer = version } }
    {
        self.peer = version;
    }

    /// Sends all that is to be written, at once. A connection that fails is cut. Where there is no memory for the
    /// bytes, the frames are lost, as on a line that loses frames. What is handed to a connection is counted.
    pub fn flush<R: Wait>(&mut self, rt: &R)
        ensures { self.new ≡ emptied self.old }
    {
        self.bytes.clear();
        let _ = write_waiting(
            &mut self.frames,
            self.ack,
            self.own,
            self.peer,
            &mut self.bytes,
        );
        if self.side.is_some() && !self.bytes.is_empty() {
            let in_batches = self.own >= BATCHING && self.peer >= BATCHING;
            self.sent.send(&self.frames, self.bytes.len(), in_batches);
        }
        let has_failed = match &mut self.side {
            Some(side) if !self.bytes.is_empty() => side.transport.send(rt, &self.bytes).is_err(),
            _ => false,
        };
        self.clear();
        if has_failed {
            if let Some(side) = self.side.take() {
                side.cut.cut(rt);
            }
        }
    }

    // Forgets what is to be written.
    fn clear(&mut self)
        ensures { self.new ≡ emptied self.old }
    {
        self.frames.clear();
        self.ack = None;
    }

    /// Ends what it sends.
    pub fn finish<R: Wait>(&mut self, rt: &R)
        ensures { self.new ≡ self.old }
    {
        if let Some(side) = &mut self.side {
            side.transport.finish(rt);
        }
    }

    /// What was sent so far, on all connections.
    pub fn sent(&self) -> Traffic {
        self.sent.so_far()
    }

    /// Puts frames behind what is written next. A frame for which there is no memory is lost, as on a line that loses
    /// frames.
    pub(crate) fn add_all(&mut self, frames: &[Outgoing]) {
        for outgoing in frames {
            let _ = self.add(&outgoing.frame);
        }
    }
}

// The bytes of all frames, and of the Ack behind them. Where there is no memory, there are none.
fn write_waiting(
    frames: &mut Vec<Frame>,
    ack: Option<Frame>,
    own: u8,
    peer: u8,
    bytes: &mut Vec<u8>,
) -> Result<(), Memory>
    requires own { 0 < own }
    requires none { bytes.old.items ≡ [] }
    ensures all { OnOk result (bytes.new.items
        ≡ all_bytes (record { own = own; peer = peer; frames = frames.old.items; ack = ack })) }
    ensures nothing { OnErr result (bytes.new.items ≡ []) }
{
    if let Some(ack) = ack {
        frames.push(ack)?;
    }
    write_frames(frames, own, peer, bytes)
}

// Whether an Ack needn't be sent where this one is.
fn covers(frame: &Frame, ack: &Frame) -> bool
    ensures { result ≡ covers frame.now ack.now }
{
    match (frame, ack) {
        (
            Frame::Ack {
                incarnation,
                last_taken,
            },
            Frame::Ack {
                incarnation: other,
                last_taken: earlier,
            },
        ) => incarnation == other && earlier <= last_taken,
        _ => false,
    }
}

/// Writes what is waiting and nobody else writes, each time in one send, until the run is to end, by this version of
/// frames: 1, or 2 or more with Batches where the peer reads them. Acks alone, while they are few, wait a little for
/// other frames. What was asked before the end is still written. Returns what was sent, by whomever.
pub fn write<R: Wait + Clock, T: Transport, C: Cut>(
    rt: &R,
    alloc: Global,
    queue: &WriterQueue<T, C>,
    ending: &Ending,
    own: u8,
) -> Traffic {
    queue.open(rt, alloc, own.max(FIRST_VERSION));
    let mut is_late = false;
    for _ in rt.forever() {
        // Before it sees whether the run is to end: else the notification of the end may be the one that it has had
        // already.
        queue.look();
        let is_last = ending.is_set();
        let looks_soon = queue.send_all(rt, is_late || is_last);
        if is_last {
            break;
        }
        is_late = !queue.wait(rt, looks_soon);
        // What is asked until others have run is written in the same send.
        thread::yield_now();
    }
    queue.finish(rt)
}
