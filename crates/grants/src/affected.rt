ghost use Rattle.std.specs.Prelude.{◌≡◌, ◌↔◌, ℕ, ◌+◌, ◌-◌, ◌^◌, ◌<◌, All, IfOk, true, false, if◌then◌else◌, length};
ghost use Rattle.std.specs.Prelude.{replicate, slice_index_or, slice_set};
ghost use Rattle.protocol.specs.Grant.{is_eligible};
ghost use Rattle.protocol.specs.FederateRecords.{federate_record_at};
ghost use Rattle.grants.specs.Wiring.{least_by, network_by};
ghost use Rattle.grants.specs.Looks.{counted};
ghost use Rattle.grants.specs.Invariant.{flags_after};

use crate::federate_record::FederateRecord;
use crate::memory::Memory;
use crate::wiring::Wiring;
use std::alloc::Global;
use std::marker::Model;

/// Who is eligible, and how often a federate was looked at to find out.
#[derive(Drop)]
pub struct AffectedFederates {
    eligible: Vec<bool>,
    /// How many federates are eligible.
    eligible_count: usize,
    /// At most 2^64 - 1: it stays there.
    looks: u64,
}

impl Model for AffectedFederates {
    ghost use Rattle.std.specs.Prelude.{◌≡◌};
    ghost use Rattle.grants.specs.Invariant.{Looked, set_count};

    ghost Value = { Looked };

    ghost view = { λ l. record { eligible = l.eligible.items; looks = l.looks } };

    ghost invariant = { λ l. l.eligible_count ≡ set_count l.eligible.items };
}

impl AffectedFederates {
    /// With nobody eligible, before any look.
    pub fn new(alloc: Global, federates: usize) -> Result<AffectedFederates, Memory>
        ensures { IfOk result (λ affected. affected ≡ record { eligible = replicate federates false; looks = 0 }) }
    {
        let eligible = vec![in alloc; false; federates]?;
        Ok(AffectedFederates {
            eligible,
            eligible_count: 0,
            looks: 0,
        })
    }

    /// How often a federate was looked at since `new`: at most 2^64 - 1.
    pub fn looks(&self) -> u64
        ensures { result ≡ self.now.looks }
    {
        self.looks
    }

    /// Whether a federate was eligible at the last look at it.
    pub fn is_eligible(&self, federate: usize) -> bool
        requires { federate < length self.now.eligible }
        ensures { result ≡ slice_index_or self.now.eligible federate false }
    {
        self.eligible[federate]
    }

    /// Whether any federate was eligible at the last look at it.
    pub fn has_eligible(&self) -> bool
        ensures { result ≡ false ↔ ((federate : ℕ) → slice_index_or self.now.eligible federate false ≡ false) }
    {
        self.eligible_count > 0
    }

    /// Looks at a federate: tests whether it is eligible, and counts that.
    pub fn look(&mut self, wiring: &Wiring, federate_records: &[FederateRecord], federate: usize)
        requires count { length federate_records.now ≡ wiring.now.federates }
        requires federate { federate < wiring.now.federates }
        requires flags { length self.old.eligible ≡ wiring.now.federates }
        ensures eligible { self.new.eligible
            ≡ slice_set self.old.eligible federate
            (is_eligible (network_by wiring.now) (least_by wiring.now)
            (federate_record_at federate_records.now) federate) }
        ensures looks { self.new.looks ≡ counted self.old.looks 1 }
    {
        let was = self.eligible[federate];
        let is = wiring.is_eligible(federate_records, federate);
        self.eligible[federate] = is;
        self.eligible_count = count_after(self.eligible_count, was, is);
        self.looks = self.looks.saturating_add(1);
    }

    /// Looks at each of these federates.
    pub fn look_at_each(
        &mut self,
        wiring: &Wiring,
        federate_records: &[FederateRecord],
        federates: &[usize],
    )
        requires count { length federate_records.now ≡ wiring.now.federates }
        requires federates { All (λ j. j < wiring.now.federates) federates.now }
        requires flags { length self.old.eligible ≡ wiring.now.federates }
        ensures eligible { self.new.eligible
            ≡ flags_after (is_eligible (network_by wiring.now) (least_by wiring.now)
            (federate_record_at federate_records.now)) federates.now self.old.eligible }
        ensures looks { self.new.looks ≡ counted self.old.looks (length federates.now) }
    {
        // For the prover: looks stay below 2^64.
        let _ = &self.looks;
        for federate in federates {
            self.look(wiring, federate_records, *federate);
        }
    }
}

// A count of flags that are set, after one of them changed so.
fn count_after(count: usize, was: bool, is: bool) -> usize
    requires room { was ≡ false → count < 2 ^ 64 - 1 }
    requires counted { was ≡ true → 0 < count }
    ensures { result + (if was then 1 else 0) ≡ count + (if is then 1 else 0) }
{
    match (was, is) {
        (false, true) => count + 1,
        (true, false) => count - 1,
        _ => count,
    }
}
