ghost use Rattle.std.specs.Prelude.{◌≡◌, ◌↔◌, ◌<◌, length, IfOk, IsTrue, OnErr, Ok, Some, map, option_map, slice_get};
ghost use Rattle.link.specs.Image.{Image, answer_of};
ghost use Rattle.link.specs.declared.arrival.Arrival.TheVariants as Arrivals;
ghost use Rattle.signal.specs.declared.frame.Frame.TheVariants as Frames;
ghost use Rattle.node.specs.Core.{ending_of};
ghost use Rattle.node.specs.Step.{Station as StationOf, answer_in, step_of, frame_comes, comes, admits, resends};
ghost use Rattle.node.specs.Step.{greets};
ghost use Rattle.node.specs.Step.{acts, unsent, IsIdle};

use crate::closing::closes;
use crate::event::Event;
use crate::fault::NodeFault;
use crate::memory::Memory;
use crate::node::Node;
use crate::noting::note;
use crate::outbox::Outbox;
use crate::outgoing::Outgoing;
use crate::replies::{address, decline, one, reply_with, tell, turn_away};
use crate::reply::Reply;
use link::{Arrival, LinkEnd, LinkFault};
use signal::{Frame, Signal};
use std::alloc::Global;
use std::marker::Model;

/// A node with its link ends.
#[derive(Drop)]
pub struct Station<N: Node> {
    node: N,
    outbox: Outbox,
}

impl<N: Node> Model for Station<N> {
    ghost use Rattle.std.specs.Prelude.{◌≡◌, []};
    ghost use Rattle.node.specs.Step as step;

    ghost Value = { step.Station N };

    ghost view = { λ s. record { node = s.node; ends = s.outbox.mail.ends } };

    ghost invariant = { λ s. s.outbox.mail.frames ≡ [] };
}

impl<N: Node> Station<N> {
    /// A station of a node that nothing was asked of yet; peer p's end stands at place p.
    pub fn new(alloc: Global, node: N, ends: Vec<LinkEnd>) -> Station<N>
        ensures { result ≡ record { node = node; ends = map (λ e. e.image) ends.items } }
    {
        Station {
            node,
            outbox: Outbox::new(alloc, ends),
        }
    }

    /// The node.
    pub fn node(&self) -> &N
        ensures { result.now ≡ self.now.node }
    {
        &self.node
    }

    /// A peer's end.
    pub fn end(&self, peer: usize) -> Option<&LinkEnd>
        ensures { option_map (λ e. e.now.image) result ≡ slice_get self.now.ends peer }
    {
        self.outbox.end(peer)
    }

    /// Whether this is an event of a turn for which the node has nothing to do: then its step changes nothing and says
    /// nothing. To ask takes no memory.
    pub fn is_idle(&self, event: &Event) -> bool
        ensures { IsTrue result ↔ IsIdle N.core self.now event.now }
    {
        match event {
            Event::Announce => self.node.has_nothing_to_say(),
            Event::Advance => self.node.has_nothing_to_run(),
            Event::Frame(..) | Event::Resend(_) | Event::Hello(_) => false,
        }
    }

    /// The node alone.
    pub fn into_node(self) -> N
        ensures { result ≡ self.node }
    {
        self.node
    }

    /// Makes one step. Without memory nothing has changed, and the same event may come again.
    pub fn step(&mut self, event: Event) -> Result<Reply, Memory>
        ensures ended { IfOk result (λ reply. record { station = self.new; answer = answer_in reply }
            ≡ step_of N.core N.HUB self.old event) }
        ensures unchanged { OnErr result (self.new ≡ self.old) }
    {
        match event {
            Event::Frame(peer, frame) => self.receive(peer, &frame),
            Event::Resend(peer) => self.resend(peer),
            Event::Hello(peer) => self.greet(peer),
            Event::Announce => self.announce(),
            Event::Advance => self.advance(),
        }
    }

    /// Takes back the room of a reply's frames, for the frames of later steps.
    pub fn reuse(&mut self, reply: Reply)
        ensures { self.new ≡ self.old }
    {
        match reply {
            Reply::Done(frames) => self.outbox.reuse(frames),
            Reply::Refused(_, frames) => self.outbox.reuse(frames),
            Reply::Nothing => {}
        }
    }

    // A frame of a peer.
    fn receive(&mut self, peer: usize, frame: &Frame) -> Result<Reply, Memory>
        ensures ended { IfOk result (λ reply. record { station = self.new; answer = answer_in reply }
            ≡ frame_comes N.core N.HUB self.old peer frame.now (slice_get self.old.ends peer)) }
        ensures unchanged { OnErr result (self.new ≡ self.old) }
    {
        let alloc = self.outbox.alloc();
        let Some(end) = self.outbox.end(peer) else {
            return Ok(Reply::Refused(LinkFault::Stranger.number(), Vec::new(alloc)));
        };
        match end.peek(frame) {
            Ok(arrival) => self.let_in(peer, frame, arrival),
            Err(fault) => {
                let frames = turn_away(alloc, self.node.is_coordinator(), peer, end, frame)?;
                Ok(Reply::Refused(fault.number(), frames))
            }
        }
    }

    // A frame that the end doesn't refuse.
    fn let_in(&mut self, peer: usize, frame: &Frame, arrival: Arrival) -> Result<Reply, Memory>
        requires there { peer < length self.old.ends }
        requires answered { (e : Image) → slice_get self.old.ends peer ≡ Some e → answer_of e frame.now ≡ Ok arrival }
        ensures ended { (e : Image) → slice_get self.old.ends peer ≡ Some e
            → IfOk result (λ reply. record { station = self.new; answer = answer_in reply }
            ≡ admits N.core self.old peer e frame.now arrival) }
        ensures unchanged { OnErr result (self.new ≡ self.old) }
    {
        match (*frame, arrival) {
            (
                Frame::Data {
                    incarnation,
                    number,
                    signal,
                },
                Arrival::Signal,
            ) => { self.take(peer, frame, incarnation, number, signal) }
            _ => note(&mut self.outbox, peer, frame),
        }
    }

    // A signal in its turn.
    fn take(
        &mut self,
        peer: usize,
        frame: &Frame,
        incarnation: u32,
        number: u64,
        signal: Signal,
    ) -> Result<Reply, Memory>
        requires data { frame.now ≡ Frames.Data incarnation number signal }
        requires in_turn { (e : Image) → slice_get self.old.ends peer ≡ Some e
            → answer_of e (Frames.Data incarnation number signal) ≡ Ok Arrivals.Signal }
        ensures ended { (e : Image) → slice_get self.old.ends peer ≡ Some e
            → IfOk result (λ reply. record { station = self.new; answer = answer_in reply }
            ≡ admits N.core self.old peer e (Frames.Data incarnation number signal) Arrivals.Signal) }
        ensures unchanged { OnErr result (self.new ≡ self.old) }
    {
        self.outbox.begin(
            peer,
            Frame::Ack {
                incarnation,
                last_taken: number,
            },
        )?;
        match self.node.accept(peer, signal, &mut self.outbox) {
            Ok(_) => {
                self.outbox.receive(peer, frame);
                Ok(Reply::Done(self.outbox.take_frames()))
            }
            Err(NodeFault::Refused(refusal)) if closes(refusal) => {
                let refusal = refusal.number();
                self.outbox.close(peer);
                self.outbox.replace_first(
                    peer,
                    Frame::Refuse {
                        incarnation,
                        refusal,
                    },
                );
                Ok(Reply::Refused(refusal, self.outbox.take_frames()))
            }
            Err(fault) => decline(&mut self.outbox, fault),
        }
    }

    // What a peer hasn't acknowledged is sent again.
    fn resend(&mut self, peer: usize) -> Result<Reply, Memory>
        ensures ended { IfOk result (λ reply. record { station = self.new; answer = answer_in reply }
            ≡ resends self.old peer (slice_get self.old.ends peer)) }
        ensures unchanged { OnErr result (self.new ≡ self.old) }
    {
        let alloc = self.outbox.alloc();
        let Some(end) = self.outbox.end(peer) else {
            return Ok(Reply::Refused(LinkFault::Stranger.number(), Vec::new(alloc)));
        };
        let Ok(kept) = end.resend() else {
            return Err(Memory);
        };
        let mut frames = Vec::with_capacity(alloc, kept.len())?;
        address(&mut frames, peer, &kept);
        Ok(reply_with(false, frames))
    }

    // A new connection to a peer.
    fn greet(&mut self, peer: usize) -> Result<Reply, Memory>
        ensures ended { IfOk result (λ reply. record { station = self.new; answer = answer_in reply }
            ≡ greets self.old peer (slice_get self.old.ends peer)) }
        ensures unchanged { OnErr result (self.new ≡ self.old) }
    {
        let alloc = self.outbox.alloc();
        let Some(end) = self.outbox.end(peer) else {
            return Ok(Reply::Refused(LinkFault::Stranger.number(), Vec::new(alloc)));
        };
        match end.hello() {
            Some(hello) => Ok(Reply::Done(one(alloc, peer, hello)?)),
            None => Ok(Reply::Nothing),
        }
    }

    // The node says what comes next.
    fn announce(&mut self) -> Result<Reply, Memory>
        ensures ended { IfOk result (λ reply. record { station = self.new; answer = answer_in reply }
            ≡ acts self.old (ending_of (unsent self.old) (N.core.announce self.old.node))) }
        ensures unchanged { OnErr result (self.new ≡ self.old) }
    {
        let answer = self.node.announce(&mut self.outbox);
        tell(&mut self.outbox, answer)
    }

    // The node runs what comes next.
    fn advance(&mut self) -> Result<Reply, Memory>
        ensures ended { IfOk result (λ reply. record { station = self.new; answer = answer_in reply }
            ≡ acts self.old (ending_of (unsent self.old) (N.core.advance self.old.node))) }
        ensures unchanged { OnErr result (self.new ≡ self.old) }
    {
        let answer = self.node.advance(&mut self.outbox);
        tell(&mut self.outbox, answer)
    }
}
