//! What holds of ends for themselves. Each function is a law: it does nothing.
ghost use Rattle.std.specs.Prelude.{◌≡◌, ◌≢◌, ◌+◌, ℕ, ◌≤◌, ◌++◌, [], length, take, drop, if◌then◌else◌, IsOk, All};
ghost use Rattle.std.specs.Prelude.{List};
ghost use Rattle.signal.specs.declared.signal.Signal.{Signal};
ghost use Rattle.signal.specs.declared.frame.Frame.{Frame};
ghost use Rattle.signal.specs.Batch.{numbered};
ghost use Rattle.link.specs.Image.{Image, IsImage, last_number, room_left, offer_of, answer_of, resent_by, after_offer};
ghost use Rattle.link.specs.Image.{after_frame, after_close, blank};
ghost use Rattle.link.specs.End.{End, IsLawful};
ghost use Rattle.link.specs.End as ends;
ghost use Rattle.link.specs.Taken.{Carries, after_all, taken_of};

use crate::arrival::Arrival;

/// What a caller sees of an end tells how many signals were offered, and which of their frames are sent again.
#[tactic(auto, using(crate::proofs::Ends::ends))]
pub fn image_tells()
    ensures number { (e : End) → IsLawful e → last_number e.image ≡ length e.offered }
    ensures resent { (e : End) → IsLawful e
        → resent_by e.image ≡ (if e.image.closed then []
        else drop e.image.acknowledged (numbered e.image.incarnation 1 e.offered)) }
{}

/// An end stays lawful.
#[tactic(auto, using(crate::proofs::Ends::ends))]
pub fn stays_lawful()
    ensures blank { (federate incarnation room : ℕ) → IsLawful (ends.blank federate incarnation room) }
    ensures offer { (e : End) (signal : Signal) → IsLawful e → IsLawful (ends.after_offer e signal) }
    ensures frame { (e : End) (frame : Frame) → IsLawful e → IsOk (answer_of e.image frame)
        → IsLawful (ends.after_frame e frame) }
    ensures close { (e : End) → IsLawful e → IsLawful (ends.after_close e) }
{}

/// An image stays one of an end.
pub fn stays_image()
    ensures blank { (federate incarnation room : ℕ) → IsImage (blank federate incarnation room) }
    ensures offer { (i : Image) (signal : Signal) → IsImage i → IsOk (offer_of i signal)
        → IsImage (after_offer i signal) }
    ensures frame { (i : Image) (frame : Frame) → IsImage i → IsOk (answer_of i frame) → IsImage (after_frame i frame) }
    ensures close { (i : Image) → IsImage i → IsImage (after_close i) }
{}

/// An offer takes one of the places left.
pub fn offer_takes_one_place()
    ensures { (i : Image) (signal : Signal) → IsOk (offer_of i signal)
        → room_left (after_offer i signal) + 1 ≡ room_left i }
{}

/// The number taken rises by one at a signal in its turn, and stays at every other frame.
pub fn takes_in_turn()
    ensures signal { (i : Image) (frame : Frame) → answer_of i frame ≡ Ok Arrival.Signal
        → (after_frame i frame).taken ≡ i.taken + 1 }
    ensures others { (i : Image) (frame : Frame) → IsOk (answer_of i frame) → answer_of i frame ≢ Ok Arrival.Signal
        → (after_frame i frame).taken ≡ i.taken }
{}

/// What is taken of frames that come one after the other, where each carries the signal of its number: a prefix of
/// what was offered, each number once.
#[tactic(none)]
pub fn takes_a_prefix()
    ensures goes_on { (i : Image) (frames : List Frame) (incarnation : ℕ) (offered : List Signal)
        → i.incarnation ≡ incarnation → All (Carries incarnation offered) frames →
        take i.taken offered ++ taken_of i frames ≡ take (after_all i frames).taken offered }
    ensures offered_only { (i : Image) (frames : List Frame) (incarnation : ℕ) (offered : List Signal)
        → i.incarnation ≡ incarnation → All (Carries incarnation offered) frames →
        i.taken ≤ length offered → (after_all i frames).taken ≤ length offered }
    ensures each_once { (i : Image) (frames : List Frame)
        → i.taken + length (taken_of i frames) ≡ (after_all i frames).taken }
{}

/// Each frame that an end sends carries the signal of its number, and goes on to do so as more is offered.
#[tactic(none)]
pub fn sends_what_was_offered()
    ensures offer { (e : End) (signal : Signal) (frame : Frame) → IsLawful e → offer_of e.image signal ≡ Ok frame
        → Carries e.image.incarnation (ends.after_offer e signal).offered frame }
    ensures resent { (e : End) → IsLawful e → All (Carries e.image.incarnation e.offered) (resent_by e.image) }
    ensures later { (incarnation : ℕ) (offered more : List Signal) (frame : Frame) → Carries incarnation offered frame
        → Carries incarnation (offered ++ more) frame }
{}
