//! What holds of every legal draft, as functions with no body.
ghost use Rattle.std.specs.Prelude.{◌≡◌, ◌↔◌, ℕ, ◌<◌, List, All, Contains, IfSome, MatchOption, filter};
ghost use Rattle.tag.specs.LogicalTime.{LogicalTime, origin, sum_of};
ghost use Rattle.network.specs.Connection.{Connection, IsPath, total_of, IsLeastDelay, IsUnreachable};
ghost use Rattle.network.specs.Tables.{IsWithin};
ghost use Rattle.plan_paths.specs.Levels.{IsLevel};
ghost use Rattle.plan_paths.specs.Least.{IsTotalWithin};
ghost use Rattle.plan.specs.declared.draft.Draft.{Draft};
ghost use Rattle.plan.specs.declared.input.Input.{Input};
ghost use Rattle.plan_slots.specs.declared.slots.Timer.{Timer};
ghost use Rattle.plan.specs.External.{external_of, external_to, is_for, firing_times, FiresAt};
ghost use Rattle.plan.specs.Federation.{connections_of, level_of, rank_of, federate_count};
ghost use Rattle.plan.specs.declared.limits.TheConstants.{MOST_FEDERATES};
ghost use Rattle.plan.specs.Least.{least_of};
ghost use Rattle.plan.specs.Legal.{IsLegal};

/// A federate's level is the number of connections on the longest zero-delay path that ends there.
#[tactic(auto, using(crate::proofs::Legality::level_laws))]
pub fn levels_are_longest_paths()
    ensures { (d : Draft) (j : ℕ) → IsLegal d → IsLevel (connections_of d) j (level_of d j) }
{}

/// Ranks rise along zero-delay paths, so along each zero-delay connection.
#[tactic(auto, using(crate::proofs::Legality::level_laws))]
pub fn ranks_rise()
    ensures { (d : Draft) (i j : ℕ) (path : List Connection) → IsLegal d → IsPath (connections_of d) i path j
        → total_of path ≡ origin → rank_of d i < rank_of d j }
{}

/// No two federates have one rank, and ranks are below the number of federates.
#[tactic(auto, using(plan_paths::proofs::Paths::ranks_differ))]
pub fn ranks_are_places()
    ensures below { (d : Draft) (i : ℕ) → i < federate_count d → rank_of d i < federate_count d }
    ensures apart { (d : Draft) (i j : ℕ) → i < federate_count d → j < federate_count d
        → rank_of d i ≡ rank_of d j → i ≡ j }
{}

/// What is defined as the least delay is so over all paths, and a path of at most as many connections as there may be
/// federates has it as its total.
#[tactic(auto, using(crate::proofs::LeastLaws::least_delays))]
pub fn least_delays_are_least()
    ensures least { (d : Draft) (i j : ℕ) → IsLegal d
        → MatchOption (least_of d i j) (IsUnreachable (connections_of d) i j) (IsLeastDelay (connections_of d) i j) }
    ensures few { (d : Draft) (i j : ℕ) → IsLegal d
        → IfSome (least_of d i j) (IsTotalWithin (connections_of d) MOST_FEDERATES i j) }
{}

/// Over one connection the least delay is at most its own; and where a connection leads to a path, the least delay from
/// its beginning is at most its own delay and then the path's least.
#[tactic(auto, using(crate::proofs::LeastLaws::least_delays_along))]
pub fn least_delays_follow_connections()
    ensures direct { (d : Draft) → IsLegal d
        → All (λ c. IsWithin (least_of d c.source c.target) c.delay) (connections_of d) }
    ensures onward { (d : Draft) (j : ℕ) → IsLegal d
        → All (λ c. IfSome (least_of d c.target j) (λ rest. IsWithin (least_of d c.source j) (sum_of c.delay rest)))
        (connections_of d) }
{}

/// The external events of one federate are its part of all external events.
#[tactic(auto, using(crate::proofs::Outside::external_parts))]
pub fn external_events_are_those_of_federates()
    ensures { (d : Draft) (inputs : List Input) (federate : ℕ)
        → external_to d inputs federate ≡ filter (is_for federate) (external_of d inputs) }
{}

/// A timer fires, up to stop, at its offset and each multiple of its period later, and never else.
pub fn timers_fire_by_their_periods()
    ensures { (stop : ℕ) (t : Timer) (tag : LogicalTime)
        → FiresAt stop t tag ↔ ((tag.microstep ≡ 0) × Contains (firing_times stop t) tag.time) }
{}
