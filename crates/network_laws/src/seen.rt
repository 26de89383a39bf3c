//! What a reactor should see according to a trace, said slot by slot: from outside, at a port, and what it scheduled
//! itself.

ghost use Rattle.std.specs.Prelude.{◌≡◌, ◌≢◌, ℕ, ◌<◌, List, ◌∷◌, All, IsTrue, Some};
ghost use Rattle.tag.specs.LogicalTime.{LogicalTime, is_at_most};
ghost use Rattle.network.specs.Event.{present_at};
ghost use Rattle.network.specs.Undivided.{made_by};
ghost use Rattle.network.specs.Network.{Network};
ghost use Rattle.network.specs.Lawful.{IsLawful};
ghost use Rattle.network_laws.specs.History.{Turn, HasRisingTags, effect_after, with_turn};
ghost use Rattle.network_laws.specs.Sees.{sees};
ghost use Rattle.network_laws.specs.Newest.{or_else, last_carried, last_scheduled};

/// An external event's value is seen at its slot and tag.
pub fn external_events_are_seen()
    ensures { (n : Network) → IsLawful n → (trace : ℕ → List Turn)
        → All (λ e. sees n trace e.reactor e.tag e.slot ≡ Some e.value) n.external }
{}

/// At a connection's slot a reactor sees what was set at the connection's port by the newest turn that set it and from
/// which the connection leads to the tag.
pub fn ports_see_what_was_carried_last()
    ensures { (n : Network) → IsLawful n → (trace : ℕ → List Turn) →
        All (λ c. HasRisingTags (trace c.source) → (tag : LogicalTime) → IsTrue (is_at_most tag n.stop) →
        sees n trace c.target tag c.slot ≡ last_carried n c tag (trace c.source)) n.connections }
{}

/// At a slot that neither a connection nor an external event reaches, a reactor sees what was scheduled for the slot
/// and the tag by its newest turn that scheduled anything for them: the last of that turn's schedulings for them.
pub fn actions_see_what_was_scheduled_last()
    ensures { (n : Network) → IsLawful n → (trace : ℕ → List Turn) (reactor slot : ℕ) → reactor < n.reactors →
        All (λ c. c.target ≡ reactor → c.slot ≢ slot) n.connections
        → All (λ e. e.reactor ≡ reactor → e.slot ≢ slot) n.external →
        HasRisingTags (trace reactor) → (tag : LogicalTime) → IsTrue (is_at_most tag n.stop) →
        sees n trace reactor tag slot ≡ last_scheduled n reactor slot tag (trace reactor) }
{}

/// After one more turn of a reactor, later than its others, what that turn makes for a slot is seen there, or else what
/// was seen.
pub fn newer_turns_count_first()
    ensures { (n : Network) → IsLawful n → (trace : ℕ → List Turn) (reactor : ℕ) (turn : Turn)
        → HasRisingTags (turn ∷ trace reactor) →
        (other : ℕ) → other < n.reactors → (tag : LogicalTime) (slot : ℕ) →
        sees n (with_turn trace reactor turn) other tag slot
        ≡ or_else (present_at (made_by n reactor turn.tag (effect_after n reactor (trace reactor) turn)) other tag slot)
        (sees n trace other tag slot) }
{}
