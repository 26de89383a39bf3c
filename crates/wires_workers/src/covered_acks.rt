//! Acks that needn't be handed on, since a later one says all that they say.
ghost use Rattle.std.specs.Prelude.{◌≡◌, ◌+◌, ℕ, length, nat_eq, if◌then◌else◌};
ghost use Rattle.wires_workers.specs.ByPeer.{frames_to};
ghost use Rattle.wires_workers.specs.LeavingOut.{IsHandedOn, last_ack, says_less, without_below};
ghost use Rattle.wires_workers.specs.LoneAcks.{is_ack};

use node::Outgoing;
use signal::Frame;

/// Acks that were left out.
#[derive(Clone, Copy, Debug, PartialEq, Eq)]
pub(crate) struct LeftOut {
    /// The peer that they were for.
    pub peer: usize,
    pub count: usize,
}

impl LeftOut {
    /// How many of them were for a peer.
    pub fn to(self, peer: usize) -> usize
        ensures { result ≡ (if nat_eq peer self.peer then self.count else 0) }
    {
        if peer == self.peer { self.count } else { 0 }
    }
}

/// Leaves Acks out that a later one covers: those for the last Ack's peer, of its incarnation, that say less.
pub(crate) fn leave_out_covered(frames: &mut Vec<Outgoing>) -> LeftOut
    ensures handed_on { (peer : ℕ) → IsHandedOn (frames_to peer frames.old.items) (frames_to peer frames.new.items) }
    ensures counted { length frames.new.items + result.count ≡ length frames.old.items }
{
    match last_ack(frames) {
        Some(last) => LeftOut {
            peer: last.peer,
            count: leave_out_below(frames, &last),
        },
        None => LeftOut { peer: 0, count: 0 },
    }
}

// Leaves out the Acks that say less than this one. Returns how many.
fn leave_out_below(frames: &mut Vec<Outgoing>, ack: &Outgoing) -> usize
    ensures left { frames.new.items ≡ without_below ack.now frames.old.items }
    ensures counted { length frames.new.items + result ≡ length frames.old.items }
{
    let before = frames.len();
    frames.retain(|outgoing| !says_less(outgoing, ack));
    before - frames.len()
}

// The last Ack among frames.
fn last_ack(frames: &[Outgoing]) -> Option<Outgoing>
    ensures { result ≡ last_ack frames.now }
{
    for place in (0..frames.len()).rev() {
        let outgoing = &frames[place];
        if is_ack(&outgoing.frame) {
            return Some(*outgoing);
        }
    }
    None
}

// Whether it is an Ack for the same peer and of the same incarnation as another one, and says less.
fn says_less(outgoing: &Outgoing, ack: &Outgoing) -> bool
    ensures { result ≡ says_less outgoing.now ack.now }
{
    match (&outgoing.frame, &ack.frame) {
        (
            Frame::Ack {
                incarnation,
                last_taken,
            },
            Frame::Ack {
                incarnation: other,
                last_taken: later,
            },
        ) => outgoing.peer == ack.peer && *incarnation == *other && *last_taken < *later,
        _ => false,
    }
}

// Whether it is an Ack.
fn is_ack(frame: &Frame) -> bool
    ensures { result ≡ is_ack frame.now }
{
    matches!(frame, Frame::Ack { .. })
}
