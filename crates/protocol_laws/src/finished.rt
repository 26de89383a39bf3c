//! A run that has come to its end, or can't go on, has every row of the undivided program, and no other: over every
//! lawful network.

ghost use Rattle.std.specs.Prelude.{◌≡◌, ℕ, ◌<◌, List};
ghost use Rattle.tag.specs.LogicalTime.{forever};
ghost use Rattle.network.specs.Network.{Network};
ghost use Rattle.network.specs.Lawful.{IsLawful};
ghost use Rattle.network.specs.Undivided.{part, whole};
ghost use Rattle.network.specs.Tables.{Table, IsAtMostEveryPath, IsLeastTable};
ghost use Rattle.network_laws.specs.Settled.{IsEnough};
ghost use Rattle.protocol.specs.Grant.{Rule, IsSafeRule};
ghost use Rattle.protocol.specs.Machine.{Move, after_moves};
ghost use Rattle.protocol_laws.specs.Runs.{IsStuck, IsFullRule};
ghost use Rattle.protocol_laws.specs.Rows.{rows_of_run, HasEveryRow};

/// Where every federate's next tag is FOREVER, each federate's rows begin with its part of the undivided program's rows
/// after any number of turns; after enough turns for stop they are that part.
pub fn a_finished_run_has_every_row()
    ensures none_missing { (n : Network) (table : Table) (rules : ℕ → Rule) → IsLawful n → IsAtMostEveryPath n table →
        ((move : ℕ) → IsSafeRule n table (rules move)) → (moves : List Move) →
        ((j : ℕ) → j < n.reactors → (after_moves n rules moves j).federate_record.next ≡ forever) →
        (j : ℕ) → j < n.reactors → HasEveryRow n j (rows_of_run n rules moves j) }
    ensures no_other { (n : Network) (table : Table) (rules : ℕ → Rule) → IsLawful n → IsAtMostEveryPath n table →
        ((move : ℕ) → IsSafeRule n table (rules move)) → (moves : List Move) →
        ((j : ℕ) → j < n.reactors → (after_moves n rules moves j).federate_record.next ≡ forever) →
        (j : ℕ) → j < n.reactors → (turns : ℕ) → IsEnough n.stop turns
        → rows_of_run n rules moves j ≡ part j (whole n turns) }
{}

/// Where nothing can be taken, announced or advanced, by rules that grant what is safe and leave no eligible federate
/// without a grant, each federate's rows begin with its part of the undivided program's rows after any number of turns;
/// after enough turns for stop they are that part.
pub fn a_stuck_run_has_every_row()
    ensures none_missing { (n : Network) (table : Table) (rules : ℕ → Rule) → IsLawful n → IsLeastTable n table →
        ((move : ℕ) → IsSafeRule n table (rules move)) → ((move : ℕ) → IsFullRule n table (rules move))
        → (moves : List Move) →
        ((j : ℕ) → j < n.reactors → IsStuck n j (after_moves n rules moves j)) →
        (j : ℕ) → j < n.reactors → HasEveryRow n j (rows_of_run n rules moves j) }
    ensures no_other { (n : Network) (table : Table) (rules : ℕ → Rule) → IsLawful n → IsLeastTable n table →
        ((move : ℕ) → IsSafeRule n table (rules move)) → ((move : ℕ) → IsFullRule n table (rules move))
        → (moves : List Move) →
        ((j : ℕ) → j < n.reactors → IsStuck n j (after_moves n rules moves j)) →
        (j : ℕ) → j < n.reactors → (turns : ℕ) → IsEnough n.stop turns
        → rows_of_run n rules moves j ≡ part j (whole n turns) }
{}
