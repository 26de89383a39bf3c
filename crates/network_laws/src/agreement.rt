//! Two consistent traces agree, and the trace of the undivided program is consistent: over every lawful network.

ghost use Rattle.std.specs.Prelude.{◌≡◌, ℕ, ◌<◌, Bool, List};
ghost use Rattle.tag.specs.LogicalTime.{LogicalTime};
ghost use Rattle.network.specs.Network.{Network};
ghost use Rattle.network.specs.Lawful.{IsLawful};
ghost use Rattle.network.specs.Undivided.{undivided_after, whole, part};
ghost use Rattle.network_laws.specs.Settled.{is_settled, BeginsWith, IsEnough};
ghost use Rattle.network_laws.specs.History.{Turn, trace_of, up_to, rows_of};
ghost use Rattle.network_laws.specs.Consistent.{IsInTime, IsConsistent, Where};

/// Where a reactor's tag is settled in two consistent traces, both have the same history of the reactor up to it.
pub fn consistent_traces_agree()
    ensures { (n : Network) → IsLawful n
        → (trace other : ℕ → List Turn) (settled settled_in_other : ℕ → LogicalTime → Bool) →
        IsConsistent n trace (Where settled) → IsConsistent n other (Where settled_in_other) →
        (reactor : ℕ) (tag : LogicalTime) → IsInTime n reactor tag → Where settled reactor tag
        → Where settled_in_other reactor tag →
        up_to tag (trace reactor) ≡ up_to tag (other reactor) }
{}

/// The rows of the undivided program after any number of turns tell a consistent trace.
pub fn the_undivided_program_is_consistent()
    ensures { (n : Network) → IsLawful n → (turns : ℕ)
        → IsConsistent n (trace_of (whole n turns)) (Where (is_settled n (undivided_after n turns))) }
{}

/// Two numbers of turns agree on what is settled after both.
pub fn the_undivided_program_agrees_with_itself()
    ensures { (n : Network) → IsLawful n → (turns other reactor : ℕ) (tag : LogicalTime) → IsInTime n reactor tag →
        Where (is_settled n (undivided_after n turns)) reactor tag
        → Where (is_settled n (undivided_after n other)) reactor tag →
        up_to tag (trace_of (whole n turns) reactor) ≡ up_to tag (trace_of (whole n other) reactor) }
{}

/// A reactor's rows are those that replaying its history gives.
pub fn rows_are_replayed()
    ensures { (n : Network) → IsLawful n → (turns reactor : ℕ)
        → part reactor (whole n turns) ≡ rows_of n reactor (trace_of (whole n turns) reactor) }
{}

/// What is settled in a consistent trace is the undivided program's after enough turns for the tag: a reactor's history
/// up to it, and its rows, with which the reactor's part begins.
pub fn consistent_traces_follow_the_undivided_program()
    ensures history { (n : Network) → IsLawful n → (trace : ℕ → List Turn) (settled : ℕ → LogicalTime → Bool)
        → IsConsistent n trace (Where settled) →
        (reactor : ℕ) (tag : LogicalTime) (turns : ℕ) → IsInTime n reactor tag → Where settled reactor tag
        → IsEnough tag turns →
        up_to tag (trace reactor) ≡ up_to tag (trace_of (whole n turns) reactor) }
    ensures rows { (n : Network) → IsLawful n → (trace : ℕ → List Turn) (settled : ℕ → LogicalTime → Bool)
        → IsConsistent n trace (Where settled) →
        (reactor : ℕ) (tag : LogicalTime) (turns : ℕ) → IsInTime n reactor tag → Where settled reactor tag
        → IsEnough tag turns →
        BeginsWith (part reactor (whole n turns)) (rows_of n reactor (up_to tag (trace reactor))) }
{}

/// Where all of a reactor's turns are settled in a consistent trace, its rows begin with its part of the undivided
/// program's, after any number of turns: none is missing.
pub fn settled_traces_have_every_row()
    ensures { (n : Network) → IsLawful n → (trace : ℕ → List Turn) (settled : ℕ → LogicalTime → Bool)
        → IsConsistent n trace (Where settled) →
        (reactor : ℕ) → reactor < n.reactors → Where settled reactor n.stop → (turns : ℕ) →
        BeginsWith (rows_of n reactor (trace reactor)) (part reactor (whole n turns)) }
{}
