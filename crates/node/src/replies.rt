//! How replies are made.
ghost use Rattle.std.specs.Prelude.{◌≡◌, ◌≢◌, [], ◌∷◌, ◌≤◌, length, IfOk, OnOk, OnErr, Ok, Err, true, false};
ghost use Rattle.std.specs.Vec.{vec_capacity};
ghost use Rattle.node.specs.declared.fault.NodeFault.{NodeFault as Fault};
ghost use Rattle.node.specs.Step.{answer_in, answer_with, addressed, turned_away, Declines, Says, Silent};
ghost use Rattle.node.specs.Numbers.{fault_number};
ghost use Rattle.node.specs.declared.fault.NodeFault.TheVariants as Faults;

use crate::fault::NodeFault;
use crate::memory::Memory;
use crate::outbox::Outbox;
use crate::outgoing::Outgoing;
use crate::reply::Reply;
use link::{LinkEnd, LinkFault};
use signal::{Frame, Hello};
use std::alloc::Global;

/// What changed something or not, and sends these.
pub(crate) fn reply_with(changed: bool, frames: Vec<Outgoing>) -> Reply
    ensures { answer_in result ≡ answer_with changed frames.items }
{
    if changed || !frames.is_empty() {
        Reply::Done(frames)
    } else {
        Reply::Nothing
    }
}

/// One frame to a peer.
pub(crate) fn one(alloc: Global, peer: usize, frame: Frame) -> Result<Vec<Outgoing>, Memory>
    ensures { IfOk result (λ frames. frames.items ≡ addressed peer (frame ∷ [])) }
{
    let mut frames = Vec::new(alloc);
    frames.push(Outgoing { peer, frame })?;
    Ok(frames)
}

/// Frames to a peer, put into memory that was taken before.
pub(crate) fn address(to: &mut Vec<Outgoing>, peer: usize, frames: &[Frame])
    requires none { to.old.items ≡ [] }
    requires places { length frames.now ≤ vec_capacity to.old }
    ensures { to.new.items ≡ addressed peer frames.now }
{
    for frame in frames {
        to.push_reserved(Outgoing {
            peer,
            frame: *frame,
        });
    }
}

/// What a stranger's frame is answered.
pub(crate) fn turn_away(
    alloc: Global,
    is_coordinator: bool,
    peer: usize,
    end: &LinkEnd,
    frame: &Frame,
) -> Result<Vec<Outgoing>, Memory>
    ensures { IfOk result (λ frames. frames.items ≡ turned_away is_coordinator peer end.now.image frame.now) }
{
    match (end.ack(), *frame) {
        (
            Frame::Ack {
                incarnation: own,
                ..
            },
            Frame::Hello(Hello { incarnation, .. }),
        ) if is_coordinator && incarnation != own => {
            let refusal = LinkFault::Stranger.number();
            one(
                alloc,
                peer,
                Frame::Refuse {
                    incarnation,
                    refusal,
                },
            )
        }
        _ => Ok(Vec::new(alloc)),
    }
}

/// A node's fault, after which nothing is sent.
pub(crate) fn decline(outbox: &mut Outbox, fault: NodeFault) -> Result<Reply, Memory>
    ensures reply { IfOk result (λ reply. answer_in reply ≡ Declines (fault_number fault) []) }
    ensures done { OnOk result (fault ≢ Faults.Memory) }
    ensures memory { OnErr result (fault ≡ Faults.Memory) }
    ensures mail { outbox.new.mail ≡ record { ends = outbox.old.mail.ends; frames = [] } }
{
    outbox.clear_frames();
    if let NodeFault::Memory = fault {
        return Err(Memory);
    }
    Ok(Reply::Refused(fault.number(), Vec::new(outbox.alloc())))
}

/// What a node did by itself.
pub(crate) fn tell(outbox: &mut Outbox, answer: Result<bool, NodeFault>) -> Result<Reply, Memory>
    ensures done { answer ≡ Ok true → IfOk result (λ reply. answer_in reply ≡ Says outbox.old.mail.frames) }
    ensures nothing { answer ≡ Ok false → IfOk result (λ reply. answer_in reply ≡ Silent) }
    ensures refused { (fault : Fault) → answer ≡ Err fault
        → IfOk result (λ reply. answer_in reply ≡ Declines (fault_number fault) []) }
    ensures memory { OnErr result (answer ≡ Err Faults.Memory) }
    ensures no_memory { OnOk result (answer ≢ Err Faults.Memory) }
    ensures mail { outbox.new.mail ≡ record { ends = outbox.old.mail.ends; frames = [] } }
{
    match answer {
        Ok(true) => Ok(Reply::Done(outbox.take_frames())),
        Ok(false) => {
            outbox.clear_frames();
            Ok(Reply::Nothing)
        }
        Err(fault) => decline(outbox, fault),
    }
}
