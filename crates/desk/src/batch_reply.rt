ghost use Rattle.std.specs.Prelude.{◌≡◌, false, ◌||◌, ◌++◌, [], OnOk, OnErr};
ghost use Rattle.node.specs.Step.{answer_in};
ghost use Rattle.desk.specs.Replies.{is_done, shows_other_history, frames_of};

use link::LinkFault;
use node::{Outgoing, Reply};
use std::alloc::{AllocError, Global};

/// What a desk says to several events: the frames of all its replies, and what one of them at least says.
#[derive(Drop)]
pub struct BatchReply {
    /// The frames, in their order.
    pub frames: Vec<Outgoing>,
    /// Whether something changed, or is to be sent.
    pub has_done: bool,
    /// Whether a peer acknowledged a signal that was never offered to it: then it speaks of another history than this
    /// node's.
    pub shows_other_history: bool,
}

impl BatchReply {
    /// Nothing.
    pub fn new(alloc: Global) -> BatchReply
        ensures frames { result.frames.items ≡ [] }
        ensures has_done { result.has_done ≡ false }
        ensures history { result.shows_other_history ≡ false }
    {
        BatchReply {
            frames: Vec::new(alloc),
            has_done: false,
            shows_other_history: false,
        }
    }

    /// Nothing, with room for this many frames, if there is memory for it.
    pub fn with_room(alloc: Global, count: usize) -> BatchReply
        ensures frames { result.frames.items ≡ [] }
        ensures has_done { result.has_done ≡ false }
        ensures history { result.shows_other_history ≡ false }
    {
        match Vec::with_capacity(alloc, count) {
            Ok(frames) => BatchReply {
                frames,
                has_done: false,
                shows_other_history: false,
            },
            Err(_) => BatchReply::new(alloc),
        }
    }

    /// Adds what a reply says. Without memory its frames aren't added.
    pub fn add(&mut self, reply: &Reply) -> Result<(), AllocError>
        ensures has_done { self.new.has_done ≡ self.old.has_done || is_done (answer_in reply.now) }
        ensures history { self.new.shows_other_history
            ≡ self.old.shows_other_history || shows_other_history (answer_in reply.now) }
        ensures frames { OnOk result (self.new.frames.items ≡ self.old.frames.items
            ++ frames_of (answer_in reply.now)) }
        ensures unchanged { OnErr result (self.new.frames.items ≡ self.old.frames.items) }
    {
        self.shows_other_history = self.shows_other_history || shows_other_history(reply);
        match reply {
            Reply::Done(frames) => {
                self.has_done = true;
                self.frames.extend_from_slice(frames)
            }
            Reply::Refused(_, frames) => self.frames.extend_from_slice(frames),
            Reply::Nothing => Ok(()),
        }
    }
}

/// Whether a reply says that something was done.
pub fn is_done(reply: &Reply) -> bool
    ensures { result ≡ is_done (answer_in reply.now) }
{
    matches!(reply, Reply::Done(_))
}

// Whether a reply says that the peer acknowledged a signal that was never offered to it.
fn shows_other_history(reply: &Reply) -> bool
    ensures { result ≡ shows_other_history (answer_in reply.now) }
{
    match reply {
        Reply::Refused(number, _) => *number == LinkFault::AckOfUnsent.number(),
        Reply::Nothing | Reply::Done(_) => false,
    }
}
