ghost use Rattle.std.specs.Prelude.{◌≡◌, ℕ, None, ◌∷◌, ◌++◌, [], IfSome};

use crate::gate::{Gate, Point};
use crate::wake_ups::{WakeUp, WakeUps};
use crate::writer_queue::WriterQueue;
use desk::{Share, Shared, is_done};
use node::{Event, Node, NodeId, Reply};
use std::sync::Wait;
use std::time::Clock;
use wires_transports::{Cut, Ending, Transport};

/// What the workers of one node are passed. How they hand events in stands in `handing_in`.
#[derive(Drop)]
pub struct Context<'a, N: Node, G: Gate, T: Drop, C: Drop> {
    pub node: NodeId,
    pub shared: &'a Shared<N>,
    pub gate: &'a G,
    /// To the writer of each peer, by the peer's number.
    pub writers: &'a [WriterQueue<T, C>],
    /// To the node's runner, if it has one.
    pub runner: Option<&'a WakeUps>,
    pub ending: &'a Ending,
}

impl<'a, N: Node, G: Gate, T: Transport, C: Cut> Context<'a, N, G, T, C> {
    /// Passes the gate and makes the event's step. Where it did something, the runner gets a wake-up. The reply's
    /// frames are the caller's to send. None where there was no memory: then nothing has changed.
    pub fn step<R: Wait + Clock>(&self, rt: &R, share: &mut Share, event: Event) -> Option<Reply>
        ensures slip { IfSome result (λ _. (place : ℕ)
            × (share.new ≡ share.old ++ record { place = place; event = event } ∷ [])) }
        ensures unchanged { result ≡ None → share.new ≡ share.old }
    {
        self.gate.pass(rt, self.node, Point::of(&event));
        match self.shared.handle(rt, share, event) {
            Ok(reply) => {
                if is_done(&reply) {
                    self.wake_up(rt, WakeUp::Done);
                }
                Some(reply)
            }
            Err(_) => None,
        }
    }

    /// Notifies the node's runner, if it has one.
    pub fn wake_up<R: Wait>(&self, rt: &R, wake_up: WakeUp) {
        if let Some(runner) = self.runner {
            runner.tell(rt, wake_up);
        }
    }

    /// Says to a peer's writer which version the peer's Hello on this connection has.
    pub fn hear<R: Wait>(&self, rt: &R, peer: usize, version: u8) {
        if let Some(writer) = self.writers.get(peer) {
            writer.hear(rt, version);
        }
    }

    /// Asks the node whether nothing is left to do: then the run is to end.
    pub fn watch<R: Wait>(&self, rt: &R) {
        if !self.ending.is_set() && self.shared.finished(rt) {
            self.end(rt);
        }
    }

    /// The run is to end. The node's writers are woken, so that they needn't see it by themselves.
    pub fn end<R: Wait>(&self, rt: &R) {
        self.ending.set();
        for writer in self.writers {
            writer.notify(rt);
        }
    }
}
