//! How a worker gives its node's desk up: which frames of the replies go to which peer, and who sends them.
ghost use Rattle.std.specs.Prelude.{ℕ};
ghost use Rattle.wires_workers.specs.ByPeer.{frames_to};
ghost use Rattle.wires_workers.specs.LeavingOut.{IsHandedOn};

use crate::behind::{is_behind, is_far_behind};
use crate::by_peer::{next_part, sort_by_peer};
use crate::context::Context;
use crate::covered_acks::{LeftOut, leave_out_covered};
use crate::gate::Gate;
use crate::session::Session;
use desk::{BatchReply, DeskGuard};
use node::{Event, Node, Outgoing};
use signal::Frame;
use std::sync::Wait;
use wires_transports::{Cut, Transport};

/// What a worker handed on when it gave its node's desk up.
#[derive(Drop)]
pub(crate) struct HandedOn {
    /// The frames, each of which was passed to its peer's queue, if there is such a peer; those for one peer in order.
    pub frames: Vec<Outgoing>,
    /// A peer that was sent something and is far behind, if there is one.
    pub behind: Option<usize>,
}

impl<'a, N: Node, G: Gate, T: Transport, C: Cut> Context<'a, N, G, T, C> {
    /// Ends a session in which these events of peers were handed in: puts the frames of the replies into their peers'
    /// queues, gives the lock up, and then sends what waits there. Acks are left out that a later one covers: the peer
    /// needs the last one alone. Where the node is finished, the run is to end before that: a send may wait for a peer
    /// that reads nothing.
    pub(crate) fn leave<R: Wait>(
        &self,
        rt: &R,
        session: Session<'_, N>,
        events: &[Event],
    ) -> HandedOn
        ensures { (peer : ℕ)
            → IsHandedOn (frames_to peer session.entry.replies.frames.items) (frames_to peer result.frames.items) }
    {
        let Session { desk, replies } = session;
        self.catch_up(rt, events);
        let is_finished = !self.ending.is_set() && desk.finished();
        let (frames, left_out) = to_hand_on(replies, self.writers.len());
        let behind = self.put(rt, &desk, &frames, left_out);
        desk.release();
        if is_finished {
            self.end(rt);
        }
        self.send(rt, &frames);
        HandedOn { frames, behind }
    }

    // Tells the queues of peers that what is put next has all signals which these haven't acknowledged: so it is where
    // a peer's Hello is among the events, or a Resend. The desk's lock is held, so nothing is put in between.
    fn catch_up<R: Wait>(&self, rt: &R, events: &[Event]) {
        for event in events {
            match event {
                Event::Frame(peer, Frame::Hello(_)) | Event::Resend(peer) => {
                    if let Some(writer) = self.writers.get(*peer) {
                        writer.catch_up(rt);
                    }
                }
                _ => {}
            }
        }
    }

    // Puts frames into their peers' queues. Only who holds the desk's lock may, so frames for one peer stand there in
    // the order of the steps, whoever hands in. These Acks were left out of them. A peer of them that is far behind, if
    // there is one.
    fn put<R: Wait>(
        &self,
        rt: &R,
        desk: &DeskGuard<'_, N>,
        frames: &[Outgoing],
        left_out: LeftOut,
    ) -> Option<usize> {
        let mut behind = None;
        let mut left = frames;
        while let Some((part, others)) = next_part(left) {
            left = others;
            if let Some(writer) = self.writers.get(part.peer) {
                let unacked = desk.unacked(part.peer);
                writer.put_without(rt, part.frames, left_out.to(part.peer), is_behind(unacked));
                if is_far_behind(unacked) {
                    behind = Some(part.peer);
                }
            }
        }
        behind
    }

    // Sends what waits for the peers of these frames, with no lock held.
    fn send<R: Wait>(&self, rt: &R, frames: &[Outgoing]) {
        let mut left = frames;
        while let Some((part, others)) = next_part(left) {
            left = others;
            if let Some(writer) = self.writers.get(part.peer) {
                writer.send(rt);
            }
        }
    }
}

// What is handed on of the replies' frames, sorted by their peers, of which there are this many; and what is left out.
#[tactic(auto, using(crate::proofs::CoveredAcks::sorted_is_handed_on))]
fn to_hand_on(replies: BatchReply, peers: usize) -> (Vec<Outgoing>, LeftOut)
    ensures { (peer : ℕ) → IsHandedOn (frames_to peer replies.frames.items) (frames_to peer result.0.items) }
{
    let BatchReply { mut frames, .. } = replies;
    let left_out = leave_out_covered(&mut frames);
    sort_by_peer(&mut frames, peers);
    (frames, left_out)
}
