//! The laws of tags and delays: each function's contract is one, for all logical times.

ghost use Rattle.std.specs.Prelude.{◌≡◌, ℕ, ◌+◌, ◌-◌, ◌*◌, ◌^◌, ◌<◌, ◌≤◌, ◌≢◌, ◌⊎◌, ◌↔◌, List, ◌++◌, length, All};
ghost use Rattle.std.specs.Prelude.{IfSome, IsSomeAnd, IsTrue, Some, false, min, max};
ghost use Rattle.tag.specs.LogicalTime.{LogicalTime, IsLogicalTime, IsFinite, CarriesNothing, origin, forever};
ghost use Rattle.tag.specs.LogicalTime.{logical_time, one_microstep, is_before, is_at_most, is_same, place, sum_of};
ghost use Rattle.tag.specs.LogicalTime.{successor_of, tag_before};
ghost use Rattle.tag.specs.Compared.{IsOrderOfTags};
ghost use Rattle.tag.specs.Total.{total_of, IsConnectionDelay};

use crate::delay::Delay;
use crate::finite_tag::FiniteTag;
use crate::tag::Tag;

/// Of two tags one is earlier, or they are one.
pub fn order_is_total()
    ensures irreflexive { (g : LogicalTime) → is_before g g ≡ false }
    ensures transitive { (g h k : LogicalTime) → IsTrue (is_before g h) → IsTrue (is_before h k)
        → IsTrue (is_before g k) }
    ensures one_of_three { (g h : LogicalTime) → IsTrue (is_before g h) ⊎ ((g ≡ h) ⊎ IsTrue (is_before h g)) }
    ensures at_most { (g h : LogicalTime) → IsTrue (is_at_most g h) ↔ (is_before h g ≡ false) }
    ensures same { (g h : LogicalTime) → IsTrue (is_same g h) ↔ (g ≡ h) }
{}

#[tactic(auto, unfolding(crate::specs::LogicalTime::place))]
/// A tag may be taken for its place, one number.
pub fn places_keep_the_order()
    ensures before { (g h : LogicalTime) → g.microstep < 2 ^ 32 → h.microstep < 2 ^ 32
        → IsTrue (is_before g h) ↔ (place g < place h) }
    ensures at_most { (g h : LogicalTime) → g.microstep < 2 ^ 32 → h.microstep < 2 ^ 32
        → IsTrue (is_at_most g h) ↔ (place g ≤ place h) }
    ensures one_tag_a_place { (g h : LogicalTime) → g.microstep < 2 ^ 32 → h.microstep < 2 ^ 32
        → place g ≡ place h → g ≡ h }
{}

#[tactic(auto, unfolding(crate::specs::LogicalTime::place))]
/// A sum is a tag or a delay, and where it stands.
pub fn sums_are_logical_times()
    ensures logical { (g d : LogicalTime) → IsLogicalTime g → IsLogicalTime d → IsLogicalTime (sum_of g d) }
    ensures place { (g d : LogicalTime) → IsLogicalTime g → IsLogicalTime d
        → place (sum_of g d) ≡ min (2 ^ 94) (min (place g + place d) (g.time * 2 ^ 32 + max (2 ^ 32) (place d))) }
{}

/// `(g + a) + b` against `g + (a then b)`.
pub fn adding_two_delays_or_their_sum()
    ensures at_least { (g a b : LogicalTime) → IsTrue (is_at_most (sum_of g (sum_of a b)) (sum_of (sum_of g a) b)) }
    ensures equal { (g a b : LogicalTime) → CarriesNothing g a → sum_of (sum_of g a) b ≡ sum_of g (sum_of a b) }
{}

/// `(a then b) then c` is `a then (b then c)` where no microstep carries.
pub fn then_associates()
    ensures { (a b c : LogicalTime) → CarriesNothing a b → sum_of (sum_of a b) c ≡ sum_of a (sum_of b c) }
{}

/// A permitted delay is none, one microstep, or a time below 2^62 ns.
#[tactic(auto, using(crate::proofs::Paths::plain_delays))]
pub fn permitted_delays()
    ensures { (d : LogicalTime) → IsConnectionDelay d
        ↔ ((d ≡ origin) ⊎ ((d ≡ one_microstep) ⊎ ((0 < d.time) × (d.time < 2 ^ 62) × (d.microstep ≡ 0)))) }
{}

/// The total of a path of fewer than 2^32 connections, wherever the path is cut.
pub fn paths_may_be_cut()
    ensures cut { (front back : List LogicalTime) → All IsConnectionDelay (front ++ back)
        → length (front ++ back) < 2 ^ 32
        → total_of (front ++ back) ≡ sum_of (total_of front) (total_of back) }
    ensures logical { (path : List LogicalTime) → All IsConnectionDelay path → IsLogicalTime (total_of path) }
{}

/// A later tag or a longer delay gives no earlier sum, and no sum is before its first part.
pub fn sums_keep_the_order()
    ensures first { (g h d : LogicalTime) → IsTrue (is_at_most g h) → IsTrue (is_at_most (sum_of g d) (sum_of h d)) }
    ensures second { (g d e : LogicalTime) → IsTrue (is_at_most d e) → IsTrue (is_at_most (sum_of g d) (sum_of g e)) }
    ensures not_before { (g d : LogicalTime) → IsLogicalTime g → IsTrue (is_at_most g (sum_of g d)) }
{}

pub fn sums_are_later()
    ensures { (g d : LogicalTime) → IsLogicalTime g → g ≢ forever → d ≢ origin → IsTrue (is_before g (sum_of g d)) }
{}

/// What `succ` gives is the least later tag.
pub fn successors_are_least()
    ensures later { (g : LogicalTime) → IsLogicalTime g → g ≢ forever → IsTrue (is_before g (successor_of g)) }
    ensures least { (g h : LogicalTime) → IsLogicalTime g → IsLogicalTime h → IsTrue (is_before g h)
        → IsTrue (is_at_most (successor_of g) h) }
    ensures forever_stays { successor_of forever ≡ forever }
{}

/// What `pred` gives is the greatest earlier tag, and takes `succ` back.
pub fn predecessors_are_greatest()
    ensures earlier { (g : LogicalTime) → IfSome (tag_before g) (λ h. IsTrue (is_before h g)) }
    ensures greatest { (g h : LogicalTime) → IsLogicalTime g → IsLogicalTime h → IsTrue (is_before h g)
        → IsSomeAnd (tag_before g) (λ k. IsTrue (is_at_most h k)) }
    ensures finite { (g : LogicalTime) → IsLogicalTime g → IfSome (tag_before g) IsFinite }
    ensures of_successor { (g : LogicalTime) → IsLogicalTime g → g ≢ forever → tag_before (successor_of g) ≡ Some g }
    ensures then_successor { (g : LogicalTime) → IsLogicalTime g → IfSome (tag_before g) (λ h. successor_of h ≡ g) }
{}

/// Sums at the limits of times and microsteps.
pub fn sums_at_the_limits()
    ensures last_time { sum_of (logical_time (2 ^ 62 - 2) 0) (logical_time 1 0) ≡ logical_time (2 ^ 62 - 1) 0 }
    ensures forever { sum_of (logical_time (2 ^ 62 - 2) 0) (logical_time 2 0) ≡ forever }
    ensures carry { sum_of (logical_time 0 (2 ^ 32 - 1)) (logical_time 0 1) ≡ logical_time 1 0 }
    ensures no_excess { sum_of (logical_time 0 (2 ^ 32 - 1)) (logical_time 0 2) ≡ logical_time 1 0 }
    ensures carry_into_forever { sum_of (logical_time (2 ^ 62 - 1) (2 ^ 32 - 1)) (logical_time 0 1) ≡ forever }
    ensures microstep { sum_of (logical_time 5 3) (logical_time 0 1) ≡ logical_time 5 4 }
    ensures time { sum_of (logical_time 5 3) (logical_time 2 0) ≡ logical_time 7 0 }
{}

/// The constants are the FOREVER of the definitions.
pub fn forever_of_both_kinds() -> (Tag, Delay)
    ensures tag { result.0 ≡ forever }
    ensures delay { result.1 ≡ forever }
{
    (Tag::FOREVER, Delay::FOREVER)
}

/// `==`, `<`, `<=`, `min` and `max` of the code are those of the definitions.
pub fn code_compares_as_defined()
    ensures tags { IsOrderOfTags ⟦<Tag as PartialEq>⟧.eq ⟦<Tag as PartialOrd>⟧.partial_cmp ⟦<Tag as Ord>⟧.cmp }
    ensures delays { IsOrderOfTags ⟦<Delay as PartialEq>⟧.eq ⟦<Delay as PartialOrd>⟧.partial_cmp ⟦<Delay as Ord>⟧.cmp }
    ensures finite_tags { IsOrderOfTags ⟦<FiniteTag as PartialEq>⟧.eq ⟦<FiniteTag as PartialOrd>⟧.partial_cmp
        ⟦<FiniteTag as Ord>⟧.cmp }
{}
