//! What is pending in the undivided program, seen slot by slot: which turn is next, and what it changes.

ghost use Rattle.std.specs.Prelude.{◌≡◌, ℕ, ◌+◌, ◌<◌, false, [], None};
ghost use Rattle.tag.specs.LogicalTime.{LogicalTime, is_before};
ghost use Rattle.network.specs.Event.{present_at};
ghost use Rattle.network.specs.Undivided.{made_by, effect_at, after_turn_at};
ghost use Rattle.network.specs.Network.{Network};
ghost use Rattle.network.specs.Lawful.{IsLawful};
ghost use Rattle.network.specs.Undivided.{undivided_after};
ghost use Rattle.network_laws.specs.Newest.{or_else};
ghost use Rattle.network_laws.specs.Pending.{IsNext, IsQuiet};

/// Where something is present for a reactor at a tag and nothing for an earlier turn, its turn there is the next.
pub fn what_is_present_first_is_next()
    ensures { (n : Network) → IsLawful n → (turns reactor : ℕ) (tag : LogicalTime)
        → IsNext n (undivided_after n turns).pending reactor tag →
        undivided_after n (turns + 1) ≡ after_turn_at n (undivided_after n turns) reactor tag }
{}

/// Where nothing is present nothing is pending.
pub fn where_all_is_quiet_nothing_is_pending()
    ensures { (n : Network) → IsLawful n → (turns : ℕ) → IsQuiet n (undivided_after n turns).pending
        → (undivided_after n turns).pending ≡ [] }
{}

/// After a turn nothing is left for its reactor up to its tag; elsewhere what the turn makes for a slot is present, or
/// else what was.
pub fn what_a_turn_makes_counts_first()
    ensures own { (n : Network) → IsLawful n → (turns reactor : ℕ) (tag : LogicalTime)
        → IsNext n (undivided_after n turns).pending reactor tag →
        (earlier : LogicalTime) (slot : ℕ) → is_before tag earlier ≡ false →
        present_at (after_turn_at n (undivided_after n turns) reactor tag).pending reactor earlier slot ≡ None }
    ensures elsewhere { (n : Network) → IsLawful n → (turns reactor : ℕ) (tag : LogicalTime)
        → IsNext n (undivided_after n turns).pending reactor tag →
        (other : ℕ) → other < n.reactors → (then : LogicalTime) (slot : ℕ) → (reactor ≡ other → tag ≡ then → ⊥) →
        present_at (after_turn_at n (undivided_after n turns) reactor tag).pending other then slot
        ≡ or_else (present_at (made_by n reactor tag (effect_at n (undivided_after n turns) reactor tag)) other
        then slot) (present_at (undivided_after n turns).pending other then slot) }
{}
