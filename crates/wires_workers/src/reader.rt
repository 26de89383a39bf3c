//! The worker that reads what one peer sends to a node.
ghost use Rattle.std.specs.Prelude.{◌≡◌, ◌≢◌, ℕ, List, [], ◌++◌, None};
ghost use Rattle.signal.specs.Stream.{Stream};
ghost use Rattle.node.specs.declared.event.Event.{Event as IsEvent};
ghost use Rattle.wires_workers.specs.AreRead.{AreRead};
ghost use Rattle.wires_workers.specs.HandedIn.{AreHandedIn, events_of_turns};

use crate::context::Context;
use crate::gate::Gate;
use crate::greeted::Greeted;
use crate::handing_in::TakenIn;
use crate::side::Side;
use crossbeam_channel::Receiver;
use desk::Share;
use node::{Event, Node, Reply};
use signal::FrameReader;
use std::alloc::Global;
use std::sync::{Arc, Wait};
use std::time::Clock;
use wires_traffic::{Counter, Counts, Traffic};
use wires_transports::{Accepted, Connection, Cut, Transport};

// Bytes of one read, at most: some 500 frames. What comes of them is one send to each peer, which wakes one thread
// there. With more at once the nodes behind would wait for them too long.
const ROOM: usize = 16_384;
// Events that are handed in at once, at most.
const AT_ONCE: usize = 512;
// The same, where a peer is far behind that was sent something by the last ones.
const FEW_AT_ONCE: usize = 64;

// What a reader does next on a connection.
#[derive(Clone, Copy, Debug, PartialEq, Eq)]
enum ReaderStep {
    // It hands in whole frames that may have come.
    HandIn,
    // It reads what comes next: no whole frame is left.
    Read,
    // It ends the connection: that has ended, what came is no frame, or there is no memory.
    End,
}

/// How a connection ended.
#[derive(Clone, Copy, Debug, PartialEq, Eq)]
pub(crate) enum ConnectionEnd {
    /// A frame came on it.
    Heard,
    /// No frame came on it, or there was no memory for it.
    Silent,
    /// The node's end for the peer is closed.
    Closed,
    /// At a federate: the peer acknowledged a signal that was never offered to it, so it speaks of another history.
    OtherHistory,
}

// What came on a connection, and how much of it is handed in at once.
#[derive(Drop)]
struct Received {
    // Who sent it.
    peer: usize,
    // What isn't handed in yet.
    frames: FrameReader,
    // The version of the last Hello, as the writer heard of it.
    heard: u8,
    // How many events are handed in next, at most.
    most: usize,
    // Room for these events.
    events: Vec<Event>,
    // Whether the peer acknowledged a signal that was never offered to it.
    shows_other_history: bool,
}

/// What a reader leaves of all its connections.
#[derive(Drop)]
pub struct Reading {
    /// Its share of the journal.
    pub share: Share,
    // What came.
    received: Counter,
    // How many connections it read.
    connections: u64,
}

impl Reading {
    /// Nothing came so far.
    pub(crate) fn new(alloc: Global) -> Reading {
        Reading {
            share: Share::new(alloc),
            received: Counter::new(),
            connections: 0,
        }
    }

    /// What came, counted.
    pub fn counts(&self) -> Counts {
        Counts {
            sent: Traffic::none(),
            received: self.received.so_far(),
            connections: self.connections,
        }
    }

    // One more connection, of which so many bytes were read before.
    fn begin(&mut self, bytes: usize) {
        self.connections = self.connections.saturating_add(1);
        if bytes > 0 {
            self.received.read(bytes);
        }
    }

    // The frames came of which these events are.
    fn take(&mut self, events: &[Event]) {
        for event in events {
            if let Event::Frame(_, frame) = event {
                self.received.take(frame);
            }
        }
    }
}

/// Reads a peer's connections one after the other, as they come, until no more come. Each is greeted first.
pub fn read<R: Wait + Clock, N: Node, G: Gate, T: Transport, C: Cut>(
    rt: &R,
    alloc: Global,
    context: &Context<'_, N, G, T, C>,
    peer: usize,
    arrivals: &Receiver<Accepted<T, C>>,
) -> Reading {
    let mut reading = Reading::new(alloc);
    for _ in rt.forever() {
        let Ok(arrived) = arrivals.recv(rt) else {
            break;
        };
        read_connection(rt, alloc, context, &mut reading, peer, arrived);
    }
    reading
}

/// Greets the peer on a new connection, and reads that to its end.
pub(crate) fn read_connection<R: Wait + Clock, N: Node, G: Gate, T: Transport, C: Cut>(
    rt: &R,
    alloc: Global,
    context: &Context<'_, N, G, T, C>,
    reading: &mut Reading,
    peer: usize,
    arrived: Accepted<T, C>,
) -> ConnectionEnd {
    match greet(rt, context, &mut reading.share, peer) {
        Some(Reply::Done(greeting)) => {
            let greeted = Greeted {
                peer,
                arrived,
                greeting,
            };
            read_greeted(rt, alloc, context, reading, greeted)
        }
        Some(_) => {
            arrived.connection.cut.cut(rt);
            ConnectionEnd::Closed
        }
        None => {
            arrived.connection.cut.cut(rt);
            ConnectionEnd::Silent
        }
    }
}

// Greets the peer on a new connection. The reply has the frame that is sent first; it is nothing where the end is
// closed.
fn greet<R: Wait + Clock, N: Node, G: Gate, T: Transport, C: Cut>(
    rt: &R,
    context: &Context<'_, N, G, T, C>,
    share: &mut Share,
    peer: usize,
) -> Option<Reply> {
    let reply = context.step(rt, share, Event::Hello(peer));
    context.watch(rt);
    reply
}

// Reads a connection to its end. The writer is asked to begin with the greeting. At the end, and where what came is no
// frame, both directions are ended. Where the run is to end, the writer may have ended before: then nothing is read.
fn read_greeted<R: Wait + Clock, N: Node, G: Gate, T: Transport, C: Cut>(
    rt: &R,
    alloc: Global,
    context: &Context<'_, N, G, T, C>,
    reading: &mut Reading,
    greeted: Greeted<T, C>,
) -> ConnectionEnd {
    let Greeted {
        peer,
        arrived: Accepted { connection, first },
        greeting,
    } = greeted;
    let Connection {
        mut incoming,
        outgoing,
        cut,
    } = connection;
    let mut end = ConnectionEnd::Silent;
    if let Ok(other) = Arc::try_clone(&cut) {
        if let Some(writer) = context.writers.get(peer) {
            let side = Side {
                transport: outgoing,
                cut: other,
            };
            writer.begin(rt, side, greeting);
            if !context.ending.is_set() {
                end = read_begun(rt, alloc, context, reading, peer, &mut incoming, &first);
            }
        }
    }
    cut.cut(rt);
    end
}

// Reads a connection on which the writer begins to its end. These bytes were read of it before.
fn read_begun<R: Wait + Clock, N: Node, G: Gate, T: Transport, C: Cut>(
    rt: &R,
    alloc: Global,
    context: &Context<'_, N, G, T, C>,
    reading: &mut Reading,
    peer: usize,
    incoming: &mut T,
    first: &[u8],
) -> ConnectionEnd {
    reading.begin(first.len());
    let mut frames = FrameReader::new(alloc);
    if frames.feed(first).is_err() {
        return ConnectionEnd::Silent;
    }
    let mut received = Received {
        peer,
        heard: frames.version(),
        frames,
        most: AT_ONCE,
        events: Vec::new(alloc),
        shows_other_history: false,
    };
    let before = reading.share.slips().len();
    read_on(rt, alloc, context, reading, incoming, &mut received);
    if received.shows_other_history {
        ConnectionEnd::OtherHistory
    } else if reading.share.slips().len() > before {
        ConnectionEnd::Heard
    } else {
        ConnectionEnd::Silent
    }
}

// Hands in all whole frames that are there, and reads what comes next, to the end of the connection or what is no
// frame.
fn read_on<R: Wait + Clock, N: Node, G: Gate, T: Transport, C: Cut>(
    rt: &R,
    alloc: Global,
    context: &Context<'_, N, G, T, C>,
    reading: &mut Reading,
    incoming: &mut T,
    received: &mut Received,
) {
    let Ok(mut room) = Vec::from_elem(alloc, 0, ROOM) else {
        return;
    };
    let mut step = ReaderStep::HandIn;
    for _ in rt.forever() {
        step = match step {
            ReaderStep::HandIn => {
                let next = take_some(rt, alloc, context, &mut reading.share, received);
                reading.take(&received.events);
                next
            }
            ReaderStep::Read => {
                read_more(
                    rt,
                    incoming,
                    &mut room,
                    &mut received.frames,
                    &mut reading.received,
                )
            }
            ReaderStep::End => break,
        };
    }
}

// Reads what comes next.
fn read_more<R: Wait, T: Transport>(
    rt: &R,
    incoming: &mut T,
    room: &mut [u8],
    frames: &mut FrameReader,
    counter: &mut Counter,
) -> ReaderStep {
    match incoming.recv(rt, room) {
        Ok(0) | Err(_) => ReaderStep::End,
        Ok(count) => {
            counter.read(count);
            match frames.feed(&room[..count]) {
                Ok(()) => ReaderStep::HandIn,
                Err(_) => ReaderStep::End,
            }
        }
    }
}

// Hands in whole frames, as many as are handed in at once, and makes turns behind them. What comes after them, and is
// no frame, is no event. Where a Hello has another version than the last one, the writer hears of it before the node
// answers. A federate, whose only peer is the coordinator, ends the connection where that speaks of another history;
// the coordinator goes on with its other peers, and refuses such frames.
fn take_some<R: Wait + Clock, N: Node, G: Gate, T: Transport, C: Cut>(
    rt: &R,
    alloc: Global,
    context: &Context<'_, N, G, T, C>,
    share: &mut Share,
    received: &mut Received,
) -> ReaderStep
    ensures events { (events : List IsEvent) × (stream : Stream) × (turns : ℕ)
        × AreRead received.old.peer received.old.frames events stream
        × AreHandedIn share.old (events ++ events_of_turns turns) share.new × (context.now.runner ≡ None → turns ≡ 0)
        × (result ≢ ReaderStep.End → received.new.frames ≡ stream) }
    ensures heard { received.new.heard ≡ received.new.frames.version }
    ensures peer { received.new.peer ≡ received.old.peer }
{
    received.events.clear();
    let step = collect(
        received.peer,
        &mut received.frames,
        received.most,
        &mut received.events,
    );
    let version = received.frames.version();
    if version != received.heard {
        context.hear(rt, received.peer, version);
    }
    received.heard = version;
    let TakenIn {
        behind,
        shows_other_history,
        ..
    } = context.take_in(rt, alloc, share, &received.events);
    received.most = pace(rt, context, received.peer, behind);
    received.shows_other_history = shows_other_history && context.runner.is_some();
    if received.shows_other_history {
        ReaderStep::End
    } else {
        step
    }
}

// Waits a little for a peer that is far behind, if that isn't the reader's own: it would have no room for more, and
// what it has no room for has to be sent again. Returns how many events are handed in next, at most.
fn pace<R: Wait + Clock, N: Node, G: Gate, T: Transport, C: Cut>(
    rt: &R,
    context: &Context<'_, N, G, T, C>,
    own: usize,
    behind: Option<usize>,
) -> usize {
    match behind {
        Some(peer) if peer != own => {
            context.wait_for(rt, peer);
            FEW_AT_ONCE
        }
        _ => AT_ONCE,
    }
}

// Makes an event of each of the next whole frames, at most this many. The connection is to end where what comes next is
// no frame, or there is no memory for the event.
fn collect(
    peer: usize,
    frames: &mut FrameReader,
    most: usize,
    events: &mut Vec<Event>,
) -> ReaderStep
    requires { events.old.items ≡ [] }
    ensures { (stream : Stream) × AreRead peer frames.old events.new.items stream
        × (result ≢ ReaderStep.End → frames.new ≡ stream) }
{
    for _ in 0..most {
        let Ok(()) = events.reserve(1) else {
            return ReaderStep::End;
        };
        match frames.next() {
            Ok(Some(frame)) => events.push_reserved(Event::Frame(peer, frame)),
            Ok(None) => return ReaderStep::Read,
            Err(_) => return ReaderStep::End,
        }
    }
    ReaderStep::HandIn
}
