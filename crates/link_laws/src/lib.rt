//! From frames to signals: what a direction of a link offered, and that it is taken in order.
//!
//! Promise to the layer above: whatever frames are lost, repeated or come out of order, and whatever the nodes at both
//! ends do, each takes a prefix of what the other offered. Begin with `specs/Link`, then `what_is_taken_was_offered`.
#![tactic(auto)]

ghost use Rattle.std.specs.Prelude.{◌≡◌, ℕ, ◌+◌, ◌≤◌, false, ◌∷◌, [], ◌++◌, List, length, drop, slice_get, All, IsTrue};
ghost use Rattle.std.specs.Prelude.{Some, Ok};
ghost use Rattle.signal.specs.declared.signal.Signal.{Signal};
ghost use Rattle.signal.specs.declared.frame.Frame.{Frame};
ghost use Rattle.signal.specs.declared.frame.Frame.TheVariants.{Data};
ghost use Rattle.signal.specs.Batch.{numbered};
ghost use Rattle.link.specs.Image.{after_offer, last_number};
ghost use Rattle.link_laws.specs.Direction.{offered_in, is_old, IsGenuine, IsGenuineDirection};
ghost use Rattle.link_laws.specs.Link.{Side, offers, At, initial_link, after_acts, IsTakenInOrder, TellsNothingUnsent};

/// What a direction offered: signals that are sent under the next numbers are offered after all others; old frames, as
/// those that are sent again, bring none.
pub fn a_direction_offers()
    ensures more { (incarnation : ℕ) (frames : List Frame) (signals : List Signal) →
        offered_in incarnation (frames ++ numbered incarnation (length (offered_in incarnation frames) + 1) signals)
        ≡ offered_in incarnation frames ++ signals }
    ensures same { (incarnation : ℕ) (frames others : List Frame) →
        All (λ f. IsTrue (is_old incarnation (length (offered_in incarnation frames)) f)) others
        → offered_in incarnation (frames ++ others) ≡ offered_in incarnation frames }
    ensures resent { (incarnation acknowledged : ℕ) (offered : List Signal) → acknowledged ≤ length offered →
        All (λ f. IsTrue (is_old incarnation (length offered) f))
        (numbered incarnation (acknowledged + 1) (drop acknowledged offered)) }
{}

/// The frames of a direction stay what they say: as signals are offered, as they are sent again, and as more is told.
pub fn a_direction_says_what_it_offered()
    ensures more { (incarnation most more : ℕ) (frames : List Frame) (signals : List Signal) → most ≤ more
        → IsGenuineDirection incarnation most frames →
        IsGenuineDirection incarnation more
        (frames ++ numbered incarnation (length (offered_in incarnation frames) + 1) signals) }
    ensures old { (incarnation most more : ℕ) (frames others : List Frame) → most ≤ more
        → IsGenuineDirection incarnation most frames →
        All (λ f. IsTrue (is_old incarnation (length (offered_in incarnation frames)) f)) others →
        All (IsGenuine incarnation (offered_in incarnation frames) more) others
        → IsGenuineDirection incarnation more (frames ++ others) }
    ensures resent { (incarnation acknowledged most : ℕ) (offered : List Signal) → acknowledged ≤ length offered →
        All (IsGenuine incarnation offered most) (numbered incarnation (acknowledged + 1) (drop acknowledged offered)) }
{}

/// Whatever is done at both sides of a link, in whatever order, what each took is what the other offered, in order, up
/// to the number that it took: also where an end is closed, and where the second side forgot all and began another
/// incarnation, in which it takes nothing. And no frame tells of signals taken that were never offered.
pub fn what_is_taken_was_offered()
    ensures by_second { (federate incarnation room : ℕ) (acts : List At) →
        IsTakenInOrder (after_acts (initial_link federate incarnation room) acts).second.end.incarnation
        (after_acts (initial_link federate incarnation room) acts).first (after_acts (initial_link federate incarnation room) acts).second }
    ensures by_first { (federate incarnation room : ℕ) (acts : List At) →
        IsTakenInOrder incarnation (after_acts (initial_link federate incarnation room) acts).second (after_acts (initial_link federate incarnation room) acts).first }
    ensures first_is_told { (federate incarnation room : ℕ) (acts : List At) →
        TellsNothingUnsent (after_acts (initial_link federate incarnation room) acts).first (after_acts (initial_link federate incarnation room) acts).second }
    ensures second_is_told { (federate incarnation room : ℕ) (acts : List At) →
        TellsNothingUnsent (after_acts (initial_link federate incarnation room) acts).second (after_acts (initial_link federate incarnation room) acts).first }
{}

/// Signals that are offered together at an end that isn't closed might as well be offered one after the other; one
/// signal is offered as its end offers it, in a frame with the next number.
pub fn offers_come_one_by_one()
    ensures one { (s : Side) (signal : Signal) → s.end.closed ≡ false → offers s (signal ∷ []) ≡
        record { end = after_offer s.end signal; sent = s.sent ++ Data s.end.incarnation (last_number s.end + 1) signal ∷ []; took = s.took } }
    ensures more { (s : Side) (signals others : List Signal) → s.end.closed ≡ false
        → offers (offers s signals) others ≡ offers s (signals ++ others) }
{}
