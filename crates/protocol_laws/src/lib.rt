//! The laws on which the goal stands, over every lawful network, each as the contract of a function with an empty body.
//!
//! Promise to the layer above: whatever steps as `protocol` defines, in whatever order, takes nothing late, computes a
//! prefix of the undivided program's rows, and all of them once it is finished or stuck. Begin with
//! `nothing_is_refused`, whose words are in `specs/Runs`, then `prefix` and `finished`.
#![tactic(auto)]

pub mod alone;
pub mod bounds;
pub mod federate_records;
pub mod finished;
pub mod prefix;

ghost use Rattle.std.specs.Prelude.{◌≡◌, ◌↔◌, ℕ, false, IsTrue, Option};
ghost use Rattle.tag.specs.LogicalTime.{LogicalTime, forever};
ghost use Rattle.network.specs.Network.{Network};
ghost use Rattle.network.specs.Lawful.{IsLawful};
ghost use Rattle.network.specs.Wiring.{IsWired};
ghost use Rattle.protocol.specs.FederateRecord.{FederateRecord};
ghost use Rattle.protocol.specs.Grant.{Rule, ByPaths, ByConnections, IsEligible, is_eligible, passes_paths};
ghost use Rattle.protocol.specs.Grant.{passes_connections, grant_next, grant_widest, grant_chosen, IsSafeRule};
ghost use Rattle.network.specs.Undivided.{part, whole};
ghost use Rattle.protocol_laws.specs.Ring.{ring, ring_table, ring_after, first_moves, all_moves};
ghost use Rattle.protocol_laws.specs.WeakerRules.{by_last_ltcs, by_equal_paths, by_direct, two_microsteps, one_tag};
ghost use Rattle.protocol_laws.specs.WeakerRules.{both_ends, line_table, both_microsteps, first_turn, second_turn};
ghost use Rattle.protocol_laws.specs.WeakerRules.{next_taken};
ghost use Rattle.network.specs.Examples.{at};
ghost use Rattle.network.specs.Tables.{Table, IsAtMostEveryPath, IsLeastTable, IsTotalOfPath};
ghost use Rattle.protocol.specs.declared.refusal.Refusal.TheVariants.{BelowGrant};
ghost use Rattle.protocol.specs.Outcome.{Refused};
ghost use Rattle.protocol.specs.Machine.{federate_records_of};
ghost use Rattle.protocol_laws.specs.Chains.{CompletesNothingEarly};
ghost use Rattle.protocol_laws.specs.Histories.{StaysConsistent};
ghost use Rattle.protocol_laws.specs.Runs.{RefusesNothing, IsQuietWhereNextIsForever, IsStuck, IsFullRule};
ghost use Rattle.protocol_laws.specs.Runs.{IsQuietWhereStuck};

/// Whatever moves were made, no move is refused, by any rule that grants what is safe; the rule may be another at each
/// move.
pub fn nothing_is_refused()
    ensures { (n : Network) (table : Table) (rules : ℕ → Rule) → IsLawful n → IsAtMostEveryPath n table →
        ((move : ℕ) → IsSafeRule n table (rules move)) → RefusesNothing n rules }
{}

/// Rules that grant what is safe: each eligible federate's next tag; the greatest tag before anything can still arrive
/// at it; and any choice of tags, of which those go out that are safe.
pub fn grants_are_safe()
    ensures next { (n : Network) (table : Table) → IsWired n → IsSafeRule n table (grant_next n table) }
    ensures widest { (n : Network) (table : Table) → IsWired n → IsSafeRule n table (grant_widest n table) }
    ensures chosen { (n : Network) (table : Table) (choice : ℕ → Option LogicalTime)
        → IsSafeRule n table (grant_chosen n table choice) }
{}

/// Where the table is that of the least delays, what the coordinator tests is what is said over all paths and all
/// connections: of any tag, that nothing arrives at or below it, over paths or over direct connections; and who is
/// eligible.
pub fn eligible_by_the_table()
    ensures paths { (n : Network) (table : Table) (federate_records : ℕ → FederateRecord) (j : ℕ) (tag : LogicalTime)
        → IsWired n → IsLeastTable n table →
        (ByPaths n federate_records j tag ↔ IsTrue (passes_paths n table federate_records j tag)) }
    ensures connections { (n : Network) (federate_records : ℕ → FederateRecord) (j : ℕ) (tag : LogicalTime) →
        (ByConnections n federate_records j tag ↔ IsTrue (passes_connections n federate_records j tag)) }
    ensures eligible { (n : Network) (table : Table) (federate_records : ℕ → FederateRecord) (j : ℕ) → IsWired n
        → IsLeastTable n table →
        (IsEligible n federate_records j ↔ IsTrue (is_eligible n table federate_records j)) }
{}

/// Whatever is pending, no chain of connections leads from it to a tag that the federate at its end has completed.
pub fn nothing_is_completed_early()
    ensures { (n : Network) (table : Table) (rules : ℕ → Rule) → IsLawful n → IsAtMostEveryPath n table →
        ((move : ℕ) → IsSafeRule n table (rules move)) → CompletesNothingEarly n rules }
{}

/// Whatever moves were made, the turns that the federates took, lost ones included, are a consistent trace: at each
/// just that was present which the trace itself calls for, and none is missing at a tag that no chain from what is
/// pending still reaches.
pub fn histories_are_consistent()
    ensures { (n : Network) (table : Table) (rules : ℕ → Rule) → IsLawful n → IsAtMostEveryPath n table →
        ((move : ℕ) → IsSafeRule n table (rules move)) → StaysConsistent n rules }
{}

/// Where a federate's next tag is FOREVER, no event of it is pending, no message that it sent waits for the
/// coordinator, and none waits for it on the way down. So where every federate's is, no message is on its way.
pub fn nothing_is_left()
    ensures { (n : Network) (table : Table) (rules : ℕ → Rule) → IsLawful n → IsAtMostEveryPath n table →
        ((move : ℕ) → IsSafeRule n table (rules move)) → IsQuietWhereNextIsForever n rules }
{}

/// Where nothing can be taken, announced or advanced, no event of any federate is pending, and no message is on its
/// way, by any rule that grants what is safe and leaves no eligible federate without a grant.
pub fn a_stuck_run_is_quiet()
    ensures { (n : Network) (table : Table) (rules : ℕ → Rule) → IsLawful n → IsLeastTable n table →
        ((move : ℕ) → IsSafeRule n table (rules move)) → ((move : ℕ) → IsFullRule n table (rules move)) →
        IsQuietWhereStuck n rules }
{}

/// Both forms of grant, the next tag and the widest, leave no eligible federate without a grant.
pub fn grants_are_full()
    ensures next { (n : Network) (table : Table) → IsFullRule n table (grant_next n table) }
    ensures widest { (n : Network) (table : Table) → IsWired n → IsFullRule n table (grant_widest n table) }
{}

/// The table of the least delays over all paths keeps the two facts of `IsAtMostEveryPath`, which the laws go by, in a
/// network of at most 64 reactors with delays that connections may have.
pub fn least_delays_suffice()
    ensures { (n : Network) (table : Table) → IsLawful n → IsLeastTable n table → IsAtMostEveryPath n table }
{}

/// A table that keeps the two facts of `IsAtMostEveryPath`, and whose entries are totals of paths, is that of the least
/// delays.
pub fn fixed_points_are_least()
    ensures { (n : Network) (table : Table) → IsAtMostEveryPath n table
        → ((i j : ℕ) → IsTotalOfPath n.connections i j (table i j)) →
        IsLeastTable n table }
{}

/// The networks of the examples are lawful, and the ring's table is that of its least delays.
pub fn examples_are_lawful()
    ensures ring { IsLawful ring }
    ensures ring_table { IsLeastTable ring ring_table }
    ensures two_microsteps { IsLawful two_microsteps }
    ensures one_tag { IsLawful one_tag }
    ensures both_ends { IsLawful both_ends }
{}

/// A run of a ring of three reactors to its end: each federate has its whole part, its next tag is FOREVER, and nothing
/// is left to do. Reactor 1's first grant is by its direct connection alone.
pub fn the_ring_ends()
    ensures rows_0 { (ring_after all_moves 0).federate.rows ≡ part 0 (whole ring 9) }
    ensures rows_1 { (ring_after all_moves 1).federate.rows ≡ part 1 (whole ring 9) }
    ensures rows_2 { (ring_after all_moves 2).federate.rows ≡ part 2 (whole ring 9) }
    ensures whole { whole ring 10 ≡ whole ring 9 }
    ensures next_0 { (ring_after all_moves 0).federate_record.next ≡ forever }
    ensures next_1 { (ring_after all_moves 1).federate_record.next ≡ forever }
    ensures next_2 { (ring_after all_moves 2).federate_record.next ≡ forever }
    ensures stuck_0 { IsStuck ring 0 (ring_after all_moves 0) }
    ensures stuck_1 { IsStuck ring 1 (ring_after all_moves 1) }
    ensures stuck_2 { IsStuck ring 2 (ring_after all_moves 2) }
    ensures granted { (ring_after first_moves 1).federate_record.granted ≡ Some (at 0 0) }
    ensures not_by_paths { passes_paths ring ring_table (federate_records_of (ring_after first_moves)) 1
        (at 0 0) ≡ false }
{}

/// By three weaker rules a message comes at or below a grant: by LTCs with next <= completed + delay; by next tags over
/// paths with <= in place of <; and by next tags over direct connections alone. The tables are those of the least
/// delays: by `nothing_is_refused`, rules that grant what is safe refuse nothing on these networks, whatever the moves.
pub fn weaker_rules_fail()
    ensures last_ltcs { next_taken two_microsteps by_last_ltcs both_microsteps 0 ≡ Refused BelowGrant }
    ensures equal_paths { next_taken one_tag by_equal_paths first_turn 0 ≡ Refused BelowGrant }
    ensures direct { next_taken both_ends by_direct second_turn 1 ≡ Refused BelowGrant }
    ensures last_ltcs_table { IsLeastTable two_microsteps (line_table (at 10 0)) }
    ensures equal_paths_table { IsLeastTable one_tag (line_table (at 0 0)) }
    ensures direct_table { IsLeastTable both_ends (line_table (at 0 0)) }
{}
