//! Desks that get the events of rounds, on one thread, with their frames in memory between them.
use crate::growths::is_so_of_counter;
use crate::rows::are_first;
use crate::stations::{coordinator_station, federate_station};
use coordinator::Coordinator;
use desk::{Desk, Memory};
use federate::Federate;
use link::LinkEnd;
use node::{Event, Node, NodeId, Outgoing, Reply};
use std::alloc::Global;
use tests_samples::Federation;

// Whether frames are on their way, behind all that were ever sent: at once, or where that was out of memory, the next
// time. The peer of a frame to a federate is that one; of one to the coordinator it is 2 more than the one that sent it.
fn are_sent(sent: &mut Vec<Outgoing>, sender: NodeId, frames: &[Outgoing]) -> bool {
    for outgoing in frames {
        let peer = match sender {
            NodeId::Coordinator => outgoing.peer,
            NodeId::Federate(number) => number.saturating_add(2),
        };
        if sent.reserve(1).is_err() && sent.reserve(1).is_err() {
            return false;
        }
        let frame = outgoing.frame;
        if sent.push(Outgoing { peer, frame }).is_err() {
            return false;
        }
    }
    true
}

/// How far a desk has come: its node's rows, its events, and of each end how many signals it keeps and may still offer.
type Marks = [Option<usize>; 6];

fn marks_of<N: Node>(desk: &Desk<N>, rows: usize) -> Marks {
    let station = desk.station();
    [
        Some(rows),
        Some(desk.journal().len()),
        unacked(station.end(0)),
        unacked(station.end(1)),
        room_left(station.end(0)),
        room_left(station.end(1)),
    ]
}

fn unacked(end: Option<&LinkEnd>) -> Option<usize> {
    Some(end?.unacked())
}

fn room_left(end: Option<&LinkEnd>) -> Option<usize> {
    Some(end?.room_left())
}

/// The desks of all nodes.
#[derive(Drop)]
pub(crate) struct Run<'a> {
    pub coordinator: Desk<Coordinator<'a>>,
    pub src: Desk<Federate<'a>>,
    pub snk: Desk<Federate<'a>>,
}

impl<'a> Run<'a> {
    fn marks(&self, node: NodeId) -> Marks {
        match node {
            NodeId::Coordinator => marks_of(&self.coordinator, 0),
            NodeId::Federate(0) => marks_of(&self.src, self.src.station().node().rows().len()),
            NodeId::Federate(_) => marks_of(&self.snk, self.snk.station().node().rows().len()),
        }
    }

    fn handle(&mut self, node: NodeId, event: Event) -> Result<Reply, Memory> {
        match node {
            NodeId::Coordinator => self.coordinator.handle(event),
            NodeId::Federate(0) => self.src.handle(event),
            NodeId::Federate(_) => self.snk.handle(event),
        }
    }

    // What a node's desk answers to an event: at once, or where it was out of memory and all is as before, the next
    // time.
    fn reply(&mut self, node: NodeId, event: &Event) -> Option<Reply> {
        let before = self.marks(node);
        match self.handle(node, *event) {
            Ok(reply) => Some(reply),
            Err(memory) if memory.number() == 91 && self.marks(node) == before => {
                self.handle(node, *event).ok()
            }
            Err(_) => None,
        }
    }

    // Whether a node's desk takes an event, and what it answers is on its way.
    fn takes(&mut self, sent: &mut Vec<Outgoing>, node: NodeId, event: Event) -> bool {
        match self.reply(node, &event) {
            Some(Reply::Nothing) => true,
            Some(Reply::Done(frames)) => are_sent(sent, node, &frames),
            Some(Reply::Refused(_, _)) | None => false,
        }
    }

    // Whether a federate's turn is taken.
    fn takes_turn(&mut self, sent: &mut Vec<Outgoing>, number: usize) -> bool {
        let node = NodeId::Federate(number);
        self.takes(sent, node, Event::Announce) && self.takes(sent, node, Event::Advance)
    }

    // Whether a frame that was sent is taken.
    fn takes_sent(&mut self, sent: &mut Vec<Outgoing>, outgoing: &Outgoing) -> bool {
        let node = if outgoing.peer < 2 {
            NodeId::Federate(outgoing.peer)
        } else {
            NodeId::Coordinator
        };
        let event = Event::Frame(outgoing.peer.saturating_sub(2), outgoing.frame);
        self.takes(sent, node, event)
    }

    // Whether the frames come behind this many, up to those that were sent by now, and are counted.
    fn takes_all(&mut self, sent: &mut Vec<Outgoing>, cursor: &mut usize) -> bool {
        for place in *cursor..sent.len() {
            let Some(outgoing) = sent.get(place).copied() else {
                return false;
            };
            if !self.takes_sent(sent, &outgoing) {
                return false;
            }
            *cursor = place + 1;
        }
        true
    }

    // Whether ten rounds are played.
    fn is_played(&mut self, alloc: Global) -> bool {
        let (mut sent, mut cursor) = (Vec::new(alloc), 0);
        for _ in 0..10 {
            let are_taken = self.takes_turn(&mut sent, 0)
                && self.takes_turn(&mut sent, 1)
                && self.takes_all(&mut sent, &mut cursor);
            if !are_taken {
                return false;
            }
        }
        true
    }

    // Whether the coordinator is finished, and each federate has all its rows.
    fn has_ended(&self) -> bool {
        self.coordinator.station().node().finished()
            && are_first(self.src.station().node().rows(), 0, 3)
            && are_first(self.snk.station().node().rows(), 1, 3)
    }
}

fn opened_at_once(alloc: Global, federation: &Federation) -> Option<Run<'_>> {
    let coordinator = coordinator_station(alloc, federation)?;
    let src = federate_station(alloc, federation, 0)?;
    let snk = federate_station(alloc, federation, 1)?;
    Some(Run {
        coordinator: Desk::new(alloc, coordinator),
        src: Desk::new(alloc, src),
        snk: Desk::new(alloc, snk),
    })
}

// A run before any event, at the second attempt where the first was out of memory.
fn opened(alloc: Global, federation: &Federation) -> Option<Run<'_>> {
    match opened_at_once(alloc, federation) {
        Some(run) => Some(run),
        None => opened_at_once(alloc, federation),
    }
}

/// A run after all rounds; None where it hasn't ended by them.
pub(crate) fn played(alloc: Global, federation: &Federation) -> Option<Run<'_>> {
    let mut run = opened(alloc, federation)?;
    if run.is_played(alloc) && run.has_ended() {
        Some(run)
    } else {
        None
    }
}

#[test]
fn takes_the_same_event_after_a_refusal(rt: HostRuntime) {
    let alloc = rt.alloc();
    assert!(rt; is_so_of_counter(alloc, |counter| played(alloc, counter).is_some()));
}
