//! Whom the coordinator grants a tag, and which: by its records and all paths, whatever table it keeps.
ghost use Rattle.std.specs.Prelude.{ℕ, MatchOption};
ghost use Rattle.signal.specs.declared.signal.Signal.{Signal};
ghost use Rattle.protocol.specs.FederateRecord.{FederateRecord};
ghost use Rattle.protocol.specs.FederateRecords.{federate_record_at};
ghost use Rattle.protocol.specs.Grant.{IsEligible};
ghost use Rattle.protocol.specs.Bound.{IsWidest};
ghost use Rattle.protocol.specs.Coordinator.{coordinator_takes};
ghost use Rattle.plan.specs.declared.draft.Draft.{Draft};
ghost use Rattle.plan.specs.Legal.{IsLegal};
ghost use Rattle.node_cores.specs.CoordinatorCore.{CoordinatorNode, wiring_in, rule_in, coordinator_core};
ghost use Rattle.node_laws.specs.Tags.{EndsWithTheTags};

/// In every legal federation the coordinator's rule grants a federate a tag exactly where it is eligible over all
/// paths, and then the widest one. So after each signal that is accepted TAGs go, in number order, to exactly the
/// federates that are eligible then.
pub fn the_coordinator_grants_over_all_paths()
    ensures rule { (d : Draft) (federate_records : ℕ → FederateRecord) (j : ℕ) → IsLegal d →
        MatchOption (rule_in d federate_records j) (IsEligible (wiring_in d) federate_records j → ⊥)
        (λ tag. IsEligible (wiring_in d) federate_records j × IsWidest (wiring_in d) federate_records j tag) }
    ensures step { (v : CoordinatorNode) (peer : ℕ) (signal : Signal) → IsLegal v.draft →
        EndsWithTheTags v
        (coordinator_takes (wiring_in v.draft) (federate_record_at v.federate_records) peer signal)
        (coordinator_core.accept v peer signal) }
{}
