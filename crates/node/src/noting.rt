//! Frames that an end takes in by itself.
ghost use Rattle.std.specs.Prelude.{◌≡◌, ◌<◌, List, ◌∷◌, [], length, IfOk, OnOk, OnErr, IsOk, Some, slice_get};
ghost use Rattle.link.specs.Image.{Image, answer_of, after_frame};
ghost use Rattle.node.specs.Kinds.{IsHello, IsData};
ghost use Rattle.node.specs.Step.{answer_in, answer_with, addressed, changes, returned, received};

use crate::memory::Memory;
use crate::outbox::Outbox;
use crate::outgoing::Outgoing;
use crate::replies::{address, reply_with};
use crate::reply::Reply;
use signal::Frame;

/// What the end makes of the frame, and what is sent for it.
pub(crate) fn note(outbox: &mut Outbox, peer: usize, frame: &Frame) -> Result<Reply, Memory>
    requires there { peer < length outbox.old.mail.ends }
    requires ok { (e : Image) → slice_get outbox.old.mail.ends peer ≡ Some e → IsOk (answer_of e frame.now) }
    ensures reply { (e : Image) → slice_get outbox.old.mail.ends peer ≡ Some e
        → IfOk result (λ reply. answer_in reply
        ≡ answer_with (changes e frame.now) (addressed peer (returned (after_frame e frame.now) frame.now))) }
    ensures received { OnOk result (outbox.new.mail ≡ received peer frame.now outbox.old.mail) }
    ensures unchanged { OnErr result (outbox.new.mail ≡ outbox.old.mail) }
{
    match *frame {
        Frame::Hello(_) => resume(outbox, peer, frame),
        Frame::Data { .. } => repeat(outbox, peer, frame),
        Frame::Ack { .. } | Frame::Refuse { .. } => {
            let changed = take_in(outbox, peer, frame);
            Ok(reply_with(changed, Vec::new(outbox.alloc())))
        }
    }
}

// Takes in the frame. Returns whether that changes the end, other than by a signal.
fn take_in(outbox: &mut Outbox, peer: usize, frame: &Frame) -> bool
    requires there { peer < length outbox.old.mail.ends }
    requires ok { (e : Image) → slice_get outbox.old.mail.ends peer ≡ Some e → IsOk (answer_of e frame.now) }
    ensures changes { (e : Image) → slice_get outbox.old.mail.ends peer ≡ Some e → result ≡ changes e frame.now }
    ensures received { outbox.new.mail ≡ received peer frame.now outbox.old.mail }
{
    let before = outbox.at(peer).unacked();
    outbox.receive(peer, frame);
    let end = outbox.at(peer);
    end.is_closed() || end.unacked() < before
}

// A Hello: what is still kept after it is sent again.
fn resume(outbox: &mut Outbox, peer: usize, frame: &Frame) -> Result<Reply, Memory>
    requires there { peer < length outbox.old.mail.ends }
    requires ok { (e : Image) → slice_get outbox.old.mail.ends peer ≡ Some e → IsOk (answer_of e frame.now) }
    requires hello { IsHello frame.now }
    ensures reply { (e : Image) → slice_get outbox.old.mail.ends peer ≡ Some e
        → IfOk result (λ reply. answer_in reply
        ≡ answer_with (changes e frame.now) (addressed peer (returned (after_frame e frame.now) frame.now))) }
    ensures received { OnOk result (outbox.new.mail ≡ received peer frame.now outbox.old.mail) }
    ensures unchanged { OnErr result (outbox.new.mail ≡ outbox.old.mail) }
{
    let Ok(kept) = outbox.at(peer).resend() else {
        return Err(Memory);
    };
    let mut frames = Vec::with_capacity(outbox.alloc(), kept.len())?;
    let changed = take_in(outbox, peer, frame);
    let gone = kept.len() - outbox.at(peer).unacked();
    address(&mut frames, peer, &kept[gone..]);
    Ok(reply_with(changed, frames))
}

// A signal that was taken before.
fn repeat(outbox: &mut Outbox, peer: usize, frame: &Frame) -> Result<Reply, Memory>
    requires there { peer < length outbox.old.mail.ends }
    requires ok { (e : Image) → slice_get outbox.old.mail.ends peer ≡ Some e → IsOk (answer_of e frame.now) }
    requires data { IsData frame.now }
    ensures reply { (e : Image) → slice_get outbox.old.mail.ends peer ≡ Some e
        → IfOk result (λ reply. answer_in reply
        ≡ answer_with (changes e frame.now) (addressed peer (returned (after_frame e frame.now) frame.now))) }
    ensures received { OnOk result (outbox.new.mail ≡ received peer frame.now outbox.old.mail) }
    ensures unchanged { OnErr result (outbox.new.mail ≡ outbox.old.mail) }
{
    let mut frames = Vec::with_capacity(outbox.alloc(), 1)?;
    outbox.receive(peer, frame);
    let ack = outbox.at(peer).ack();
    frames.push_reserved(Outgoing { peer, frame: ack });
    Ok(Reply::Done(frames))
}
