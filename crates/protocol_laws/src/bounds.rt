//! How far the coordinator may grant: by the wiring of the network alone, and over all paths, whatever table it keeps.

ghost use Rattle.std.specs.Prelude.{◌≡◌, ◌↔◌, ℕ, MatchOption};
ghost use Rattle.tag.specs.LogicalTime.{LogicalTime};
ghost use Rattle.network.specs.Network.{Network};
ghost use Rattle.network.specs.Lawful.{IsLawful};
ghost use Rattle.network.specs.Wiring.{IsWired, wiring_of};
ghost use Rattle.network.specs.Tables.{Table, IsLeastTable};
ghost use Rattle.signal.specs.declared.signal.Signal.{Signal};
ghost use Rattle.protocol.specs.FederateRecord.{FederateRecord};
ghost use Rattle.protocol.specs.Grant.{Rule, IsEligible, bound_of, grant_next, grant_widest};
ghost use Rattle.protocol.specs.Bound.{IsBound, IsWidest, IsWithin};
ghost use Rattle.protocol.specs.Coordinator.{coordinator_accepts};

/// A lawful network is wired, and so is the wiring of a wired network, by itself.
pub fn lawful_networks_are_wired()
    ensures lawful { (n : Network) → IsLawful n → IsWired n }
    ensures wiring { (n : Network) → IsWired n → IsWired (wiring_of n) }
{}

/// Of a network the coordinator goes by its wiring alone: its step, who is eligible, both rules and the least delays
/// are those of the wiring.
pub fn the_coordinator_goes_by_the_wiring()
    ensures accept { (n : Network) (rule : Rule) (federate_records : ℕ → FederateRecord) (i : ℕ) (signal : Signal) →
        coordinator_accepts n rule federate_records i signal
        ≡ coordinator_accepts (wiring_of n) rule federate_records i signal }
    ensures eligible { (n : Network) (federate_records : ℕ → FederateRecord) (j : ℕ)
        → IsEligible n federate_records j ↔ IsEligible (wiring_of n) federate_records j }
    ensures next { (n : Network) (table : Table) → grant_next n table ≡ grant_next (wiring_of n) table }
    ensures widest { (n : Network) (table : Table) → grant_widest n table ≡ grant_widest (wiring_of n) table }
    ensures least { (n : Network) (table : Table) → IsLeastTable n table ↔ IsLeastTable (wiring_of n) table }
{}

/// There is one bound over all paths and direct connections, and it is what is computed by a table of the least delays.
pub fn the_table_gives_the_bound()
    ensures table { (n : Network) (table : Table) (federate_records : ℕ → FederateRecord) (j : ℕ) → IsWired n
        → IsLeastTable n table →
        IsBound n federate_records j (bound_of n table federate_records j) }
    ensures one { (n : Network) (federate_records : ℕ → FederateRecord) (j : ℕ) (bound other : LogicalTime)
        → IsBound n federate_records j bound →
        IsBound n federate_records j other → bound ≡ other }
{}

/// Who is eligible by next tags over all paths, or by LTCs over direct connections, is who has announced, and whose
/// next tag isn't granted yet, not later than stop, and before the bound.
pub fn eligible_before_the_bound()
    ensures { (n : Network) (federate_records : ℕ → FederateRecord) (j : ℕ) (bound : LogicalTime) → IsWired n
        → IsBound n federate_records j bound →
        (IsEligible n federate_records j ↔ IsWithin n federate_records j bound) }
{}

/// By the wider rule each eligible federate, and no other, is granted the last tag before the bound, or stop if that is
/// earlier.
pub fn the_widest_grant()
    ensures { (n : Network) (table : Table) (federate_records : ℕ → FederateRecord) (j : ℕ) → IsWired n
        → IsLeastTable n table →
        MatchOption (grant_widest n table federate_records j) (IsEligible n federate_records j → ⊥)
        (λ tag. IsEligible n federate_records j × IsWidest n federate_records j tag) }
{}
