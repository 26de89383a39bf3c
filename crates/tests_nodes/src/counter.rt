//! A node that counts.
ghost use Rattle.std.specs.Prelude.{◌≡◌};

use node::laws::nothing_needs_no_room;
use node::{Node, NodeFault, Outbox, Post};
use protocol::Refusal;
use signal::Signal;
use tag::{FiniteTag, Time};

/// Sends a hundred messages to its first peer, numbered by their connection, and takes a peer's in their order alone.
/// It answers a NET with a TAG, and refuses a TAG.
#[derive(Drop)]
pub struct Counter {
    pub sent: u16,
    pub taken: u32,
}

impl Counter {
    /// A counter that has sent and taken nothing.
    pub fn new() -> Counter
        ensures { result ≡ record { sent = 0; taken = 0 } }
    {
        Counter { sent: 0, taken: 0 }
    }
}

impl Node for Counter {
    ghost use Rattle.std.specs.Prelude.{true, []};
    ghost use Rattle.tests_nodes.specs.Counting.{counting, goes_on as goes};

    type Row = u32;

    type Rows = ();

    ghost listed = { λ none. [] };

    ghost HUB = { true };

    ghost core = { counting };

    fn accept(
        &mut self,
        peer: usize,
        signal: Signal,
        outbox: &mut Outbox,
    ) -> Result<bool, NodeFault> {
        match signal {
            Signal::Net(_) => {
                let tag = FiniteTag::new(Time::zero(), 0);
                let posts = [Post {
                    peer,
                    signal: Signal::Tag(tag),
                }];
                outbox.reserve_all(&posts)?;
                outbox.put_all(&posts);
                Ok(true)
            }
            Signal::Ltc(_) => Ok(false),
            Signal::Tag(_) => Err(NodeFault::Refused(Refusal::NotForCoordinator)),
            Signal::Msg { connection, .. } => {
                if u32::from(connection) != self.taken {
                    return Err(NodeFault::Refused(Refusal::WrongSignal));
                }
                nothing_needs_no_room();
                self.taken += 1;
                Ok(true)
            }
        }
    }

    fn announce(&mut self, _outbox: &mut Outbox) -> Result<bool, NodeFault> {
        Ok(false)
    }

    fn advance(&mut self, outbox: &mut Outbox) -> Result<bool, NodeFault> {
        if self.sent >= 100 {
            return Ok(false);
        }
        let signal = Signal::Msg {
            connection: self.sent,
            tag: FiniteTag::new(Time::zero(), 0),
            value: 0,
        };
        let posts = [Post { peer: 0, signal }];
        outbox.reserve_all(&posts)?;
        outbox.put_all(&posts);
        self.sent += 1;
        Ok(true)
    }

    fn has_nothing_to_say(&self) -> bool {
        true
    }

    fn has_nothing_to_run(&self) -> bool {
        self.sent >= 100
    }

    fn is_coordinator(&self) -> bool {
        true
    }

    fn rows(&self) -> &() {
        &()
    }

    fn finished(&self) -> bool {
        false
    }

    ghost goes_on = { goes };
}
