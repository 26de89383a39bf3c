//! What the federates of a run computed is what the undivided program computes, and so what those of every other run
//! do: over every lawful network, whatever moves were made, by any rules that grant what is safe.
//!
//! Begin with `rows_are_a_prefix`; its words are in `specs/Rows`.

ghost use Rattle.std.specs.Prelude.{◌≡◌, ℕ, ◌<◌, ◌⊎◌, List, IsTrue};
ghost use Rattle.tag.specs.LogicalTime.{LogicalTime, IsFinite, is_reached};
ghost use Rattle.network.specs.Network.{Network};
ghost use Rattle.network.specs.Lawful.{IsLawful};
ghost use Rattle.network.specs.Undivided.{part, whole};
ghost use Rattle.network.specs.Tables.{Table, IsAtMostEveryPath};
ghost use Rattle.network_laws.specs.Settled.{BeginsWith, IsEnough};
ghost use Rattle.network_laws.specs.History.{up_to};
ghost use Rattle.network_laws.specs.Consistent.{IsInTime};
ghost use Rattle.protocol.specs.KeptAlone.{last_row_tag};
ghost use Rattle.protocol.specs.Grant.{Rule, IsSafeRule};
ghost use Rattle.protocol.specs.Machine.{Move, after_moves};
ghost use Rattle.protocol_laws.specs.Rows.{rows_of_run, rows_up_to};
ghost use Rattle.protocol_laws.specs.Histories.{histories_of, IsSettled};

/// Whatever moves were made, each federate's rows, a lost one's as they stood, are a prefix of its part of the
/// undivided program's rows: after some number of turns, and after any number that is enough for stop.
pub fn rows_are_a_prefix()
    ensures some_turns { (n : Network) (table : Table) (rules : ℕ → Rule) → IsLawful n → IsAtMostEveryPath n table →
        ((move : ℕ) → IsSafeRule n table (rules move)) → (moves : List Move) (j : ℕ) → j < n.reactors →
        (turns : ℕ) × BeginsWith (part j (whole n turns)) (rows_of_run n rules moves j) }
    ensures from_then_on { (n : Network) (table : Table) (rules : ℕ → Rule) → IsLawful n → IsAtMostEveryPath n table →
        ((move : ℕ) → IsSafeRule n table (rules move)) → (moves : List Move) (j : ℕ) → j < n.reactors →
        (turns : ℕ) → IsEnough n.stop turns → BeginsWith (part j (whole n turns)) (rows_of_run n rules moves j) }
{}

/// Whatever moves were made, what a federate completed last is the tag of its last row.
pub fn the_last_row_is_completed()
    ensures { (n : Network) (table : Table) (rules : ℕ → Rule) (moves : List Move) (j : ℕ) → IsLawful n
        → IsAtMostEveryPath n table →
        ((move : ℕ) → IsSafeRule n table (rules move)) →
        (after_moves n rules moves j).federate.completed ≡ last_row_tag (after_moves n rules moves j).federate.rows }
{}

/// In two runs of one network, whatever the moves, the rules and the tables, a federate took the same turns up to a tag
/// that is settled in both; it has the same rows up to a tag that it completed in both; and of its rows one list begins
/// with the other.
pub fn runs_agree()
    ensures histories { (n : Network) (table other_table : Table) (rules others : ℕ → Rule) → IsLawful n
        → IsAtMostEveryPath n table → IsAtMostEveryPath n other_table →
        ((move : ℕ) → IsSafeRule n table (rules move)) → ((move : ℕ) → IsSafeRule n other_table (others move)) →
        (moves other_moves : List Move) (j : ℕ) (tag : LogicalTime) → IsInTime n j tag →
        IsSettled n (after_moves n rules moves) j tag → IsSettled n (after_moves n others other_moves) j tag →
        up_to tag (histories_of (after_moves n rules moves) j)
        ≡ up_to tag (histories_of (after_moves n others other_moves) j) }
    ensures rows { (n : Network) (table other_table : Table) (rules others : ℕ → Rule) → IsLawful n
        → IsAtMostEveryPath n table
        → IsAtMostEveryPath n other_table →
        ((move : ℕ) → IsSafeRule n table (rules move)) → ((move : ℕ) → IsSafeRule n other_table (others move)) →
        (moves other_moves : List Move) (j : ℕ) → j < n.reactors → (tag : LogicalTime) → IsFinite tag →
        IsTrue (is_reached (after_moves n rules moves j).federate.completed tag)
        → IsTrue (is_reached (after_moves n others other_moves j).federate.completed tag) →
        rows_up_to tag (rows_of_run n rules moves j) ≡ rows_up_to tag (rows_of_run n others other_moves j) }
    ensures prefixes { (n : Network) (table other_table : Table) (rules others : ℕ → Rule) → IsLawful n
        → IsAtMostEveryPath n table → IsAtMostEveryPath n other_table →
        ((move : ℕ) → IsSafeRule n table (rules move)) → ((move : ℕ) → IsSafeRule n other_table (others move)) →
        (moves other_moves : List Move) (j : ℕ) → j < n.reactors →
        BeginsWith (rows_of_run n rules moves j) (rows_of_run n others other_moves j)
        ⊎ BeginsWith (rows_of_run n others other_moves j) (rows_of_run n rules moves j) }
{}
