//! How much a run of the machine of queues can still do, and that closing rounds of a world do it: laws, with no code.
//!
//! Promise to the layer above: where nobody is lost, by rules that grant what is safe and only to who asked for it, the
//! moves that do something, and the signals that are sent, are at most as many as a number that goes by the rows of the
//! undivided program; and at the latest after twice as many closing rounds a federation's world is stuck. Begin with
//! `specs/Fuel`, which is that number, and `few_moves_do_anything`; `specs/Worth` is what is left of it. Then
//! `specs/Rounds` and `closing_rounds_end_stuck`.
#![tactic(auto)]

ghost use Rattle.std.specs.Prelude.{◌≡◌, ℕ, ◌+◌, ◌*◌, ◌^◌, ◌<◌, ◌≤◌, true, false, List, ◌++◌, length};
ghost use Rattle.std.specs.List.{list_any};
ghost use Rattle.network.specs.Network.{Network};
ghost use Rattle.network.specs.Lawful.{IsLawful};
ghost use Rattle.network.specs.Wiring.{IsWired};
ghost use Rattle.network.specs.Tables.{Table, IsAtMostEveryPath};
ghost use Rattle.network.specs.Undivided.{whole, part};
ghost use Rattle.network_laws.specs.Settled.{IsEnough};
ghost use Rattle.signal.specs.declared.signal.Signal.{Signal};
ghost use Rattle.protocol.specs.Outcome.{IfDone};
ghost use Rattle.protocol.specs.Federate.{Federate, federate_accepts, federate_announces, federate_advances};
ghost use Rattle.protocol.specs.FederateRecord.{FederateRecord};
ghost use Rattle.protocol.specs.Grant.{Rule, IsSafeRule, grant_next, grant_widest};
ghost use Rattle.protocol.specs.Coordinator.{coordinator_accepts};
ghost use Rattle.protocol.specs.Machine.{Move, initial_member, sent_to, after_moves};
ghost use Rattle.protocol_laws.specs.Runs.{IsStuck};
ghost use Rattle.plan.specs.declared.draft.Draft.{Draft};
ghost use Rattle.plan.specs.declared.input.Input.{Input};
ghost use Rattle.plan.specs.External.{AreInputsOf};
ghost use Rattle.plan.specs.Federation.{federate_count};
ghost use Rattle.plan.specs.Legal.{IsLegal};
ghost use Rattle.reactor_program.specs.Behaviour.{Behaviour};
ghost use Rattle.reactor_programs.specs.Programs.{AreProgramsOf};
ghost use Rattle.plan_network.specs.Network.{network_of};
ghost use Rattle.node_cores.specs.CoordinatorCore.{coordinator_core};
ghost use Rattle.world_stations.specs.declared.limits.TheConstants.{LINK_ROOM};
ghost use Rattle.world_stations.specs.declared.step.Step.{Step};
ghost use Rattle.world_stations.specs.Kept.{is_forget};
ghost use Rattle.world_stations.specs.Federation as world;
ghost use Rattle.world_stations.specs.Federation.{world_after};
ghost use Rattle.world_progress.specs.Rounds.{Playing, IsWithinSent, steps_of_tasks, closing_rounds_tasks};
ghost use Rattle.world_progress.specs.Rounds.{after_closing_rounds};
ghost use Rattle.world_progress.specs.SmallWorlds.{unplayed, quiet_steps, startup_steps};
ghost use Rattle.world_progress.specs.Fair.{AreFair, after_these, all_steps};
ghost use Rattle.world_progress.specs.Fuel.{sum_below, enough_turns, rows_of_part, outgoing_count, fuel_of};
ghost use Rattle.world_progress.specs.Worth.{left_of};
ghost use Rattle.world_progress.specs.Runs.{IsSparing, IsOfMember, AreOfMembers, takes, outcome_after, count_done};
ghost use Rattle.world_progress.specs.Runs.{count_taken, count_waiting, NothingDoes, EndsStuck};

/// By rules that grant what is safe, and only to who asked for it, only a bounded number of a run's moves do anything.
/// (Nobody is lost in it.)
pub fn few_moves_do_anything()
    ensures { (n : Network) (table : Table) (rules : ℕ → Rule) → IsLawful n → IsAtMostEveryPath n table →
        ((move : ℕ) → IsSafeRule n table (rules move)) → ((move : ℕ) → IsSparing (rules move)) →
        (moves : List Move) → AreOfMembers n moves → count_done n rules moves ≤ fuel_of n }
{}

/// In such a run only a bounded number of signals are sent: those that were taken, and those that wait in a queue.
pub fn few_signals_are_sent()
    ensures { (n : Network) (table : Table) (rules : ℕ → Rule) → IsLawful n → IsAtMostEveryPath n table →
        ((move : ℕ) → IsSafeRule n table (rules move)) → ((move : ℕ) → IsSparing (rules move)) →
        (moves : List Move) → AreOfMembers n moves
        → count_taken n rules moves + count_waiting n (after_moves n rules moves) ≤ fuel_of n }
{}

/// What is left is at first all that can be done; after each move that does something it is less by 1 at least, and by
/// 2 where that move takes a signal.
pub fn each_move_leaves_less()
    ensures initial { (n : Network) → left_of n (initial_member n) ≡ fuel_of n }
    ensures each { (n : Network) (table : Table) (rules : ℕ → Rule) → IsLawful n → IsAtMostEveryPath n table →
        ((move : ℕ) → IsSafeRule n table (rules move)) → ((move : ℕ) → IsSparing (rules move)) →
        (moves : List Move) (move : Move) → IsOfMember n move →
        IfDone (outcome_after n rules moves move)
        (λ after. left_of n after + (1 + takes move) ≤ left_of n (after_moves n rules moves)) }
{}

/// Both forms of grant go only to a federate whose next tag isn't granted yet, and give no less than that tag.
pub fn grants_are_sparing()
    ensures next { (n : Network) (table : Table) → IsSparing (grant_next n table) }
    ensures widest { (n : Network) (table : Table) → IsWired n → IsSparing (grant_widest n table) }
{}

/// In one step a federate that takes a signal sends nothing; one that announces sends one signal; one that runs a tag
/// sends at most one over each connection that begins at it, and one more; and the coordinator sends each federate at
/// most two.
pub fn a_step_sends_few_signals()
    ensures accept { (n : Network) (j : ℕ) (f : Federate) (signal : Signal)
        → IfDone (federate_accepts n j f signal) (λ made. length made.sent ≡ 0) }
    ensures announce { (f : Federate) → IfDone (federate_announces f) (λ made. length made.sent ≡ 1) }
    ensures advance { (n : Network) (j : ℕ) (f : Federate)
        → IfDone (federate_advances n j f) (λ made. length made.sent ≤ outgoing_count n j + 1) }
    ensures coordinator { (n : Network) (rule : Rule) (federate_records : ℕ → FederateRecord) (i : ℕ)
        (signal : Signal) →
        IfDone (coordinator_accepts n rule federate_records i signal)
        (λ made. (j : ℕ) → length (sent_to j made.sent) ≤ 2) }
{}

/// All federates' parts have together as many rows as the undivided program, after any number of turns; and after
/// enough turns for stop it has no more rows.
pub fn parts_have_all_rows()
    ensures any_turns { (n : Network) (turns : ℕ) → IsLawful n
        → sum_below n.reactors (λ j. length (part j (whole n turns))) ≡ length (whole n turns) }
    ensures in_the_end { (n : Network) → IsLawful n
        → sum_below n.reactors (rows_of_part n) ≡ length (whole n (enough_turns n)) }
    ensures no_more { (n : Network) (turns : ℕ) → IsLawful n → IsEnough n.stop turns
        → whole n turns ≡ whole n (enough_turns n) }
{}

/// What can be done in all is no more than this number, which goes by all rows of the undivided program and by all
/// connections.
pub fn fuel_by_all_rows()
    ensures { (n : Network) → IsLawful n
        → fuel_of n ≤ (9 * length n.connections + 8) * length (whole n (enough_turns n)) + 7 * n.reactors }
{}

/// Where no move does anything any more, every federate is stuck; and after any moves at most `fuel_of` more lead
/// there. (By `a_stuck_run_has_every_row` of `protocol_laws` no row is missing then, where the rules leave no eligible
/// federate without a grant.)
pub fn runs_end_stuck()
    ensures stuck { (n : Network) (table : Table) (rules : ℕ → Rule) → IsLawful n → IsAtMostEveryPath n table →
        ((move : ℕ) → IsSafeRule n table (rules move)) → (moves : List Move) → AreOfMembers n moves →
        NothingDoes n rules moves → (j : ℕ) → j < n.reactors → IsStuck n j (after_moves n rules moves j) }
    ensures more { (n : Network) (table : Table) (rules : ℕ → Rule) → IsLawful n → IsAtMostEveryPath n table →
        ((move : ℕ) → IsSafeRule n table (rules move)) → ((move : ℕ) → IsSparing (rules move)) →
        (moves : List Move) → AreOfMembers n moves → EndsStuck n rules moves (fuel_of n) }
{}

/// Whatever a node sends in one step fits a link of which nothing waits for its acknowledgement: what a federate sends
/// as it runs a tag, or as it announces one, and what the coordinator sends to each federate as it takes a signal.
pub fn a_turn_fits()
    ensures turn { (d : Draft) (programs : List Behaviour) (inputs : List Input) (j : ℕ) (f : Federate) → IsLegal d →
        IfDone (federate_advances (network_of d programs inputs) j f) (λ made. length made.sent ≤ LINK_ROOM) }
    ensures announcement { (f : Federate) → IfDone (federate_announces f) (λ made. length made.sent ≤ LINK_ROOM) }
    ensures coordinator { (n : Network) (rule : Rule) (federate_records : ℕ → FederateRecord) (i : ℕ)
        (signal : Signal) →
        IfDone (coordinator_accepts n rule federate_records i signal)
        (λ made. (j : ℕ) → length (sent_to j made.sent) ≤ LINK_ROOM) }
{}

/// In a world in which nobody forgot, whatever happened to its frames before and wherever rounds stand, one of the next
/// `2 * fuel_of` closing rounds leads to a stuck world. (`fuel_of` is below 2^63 as links number their signals below
/// 2^64.)
pub fn closing_rounds_end_stuck()
    ensures { (d : Draft) (programs : List Behaviour) (inputs : List Input) (steps : List Step) (p : Playing)
        → IsLegal d → AreProgramsOf d programs →
        AreInputsOf d inputs → list_any is_forget steps ≡ false → p.world ≡ world_after d programs inputs steps
        → IsWithinSent p →
        fuel_of (network_of d programs inputs) < 2 ^ 63 →
        (rounds : ℕ) × (rounds ≤ 2 * fuel_of (network_of d programs inputs)) × world.IsStuck (after_closing_rounds (federate_count d) rounds p).world }
{}

/// So does any schedule by which nobody forgets, if in each of its segments every federate is asked and every direction
/// is served, and it has more segments than `fuel_of`: after some of them the world is stuck.
pub fn fair_schedules_end_stuck()
    ensures { (d : Draft) (programs : List Behaviour) (inputs : List Input) (steps : List Step)
        (segments : List (List Step)) → IsLegal d → AreProgramsOf d programs →
        AreInputsOf d inputs → AreFair (federate_count d) (world_after d programs inputs steps) segments
        → list_any is_forget steps ≡ false →
        list_any is_forget (all_steps segments) ≡ false → fuel_of (network_of d programs inputs) < 2 ^ 63
        → fuel_of (network_of d programs inputs) < length segments →
        (before : List (List Step)) × (after : List (List Step)) × (segments ≡ before ++ after)
        × world.IsStuck (after_these (world_after d programs inputs steps) (all_steps before)) }
{}

/// A stuck world's coordinator says that all is finished.
pub fn a_stuck_world_is_finished()
    ensures { (d : Draft) (programs : List Behaviour) (inputs : List Input) (steps : List Step) → IsLegal d
        → AreProgramsOf d programs → AreInputsOf d inputs →
        world.IsStuck (world_after d programs inputs steps)
        → coordinator_core.finished (world_after d programs inputs steps).coordinator.node ≡ true }
{}

/// Two worlds of one federate each, reckoned by hand: which steps closing rounds make.
pub fn closing_rounds_by_hand()
    ensures quiet { steps_of_tasks (closing_rounds_tasks 1 2) (unplayed false) ≡ quiet_steps }
    ensures startup { steps_of_tasks (closing_rounds_tasks 1 4) (unplayed true) ≡ startup_steps }
{}
