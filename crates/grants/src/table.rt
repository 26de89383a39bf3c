ghost use Rattle.std.specs.Prelude.{◌≡◌, ◌↔◌, ℕ, ◌+◌, ◌<◌, ◌≤◌, IfOk, OnOk, OnErr, IsTrue, Some, false, filter, length};
ghost use Rattle.std.specs.Prelude.{slice_get};
ghost use Rattle.tag.specs.LogicalTime.{LogicalTime, is_before, lesser, origin, predecessor_of};
ghost use Rattle.protocol.specs.FederateRecord.{least_with, initial_federate_record, with_tag};
ghost use Rattle.protocol.specs.FederateRecords.{federate_record_at, federate_records_listed};
ghost use Rattle.protocol.specs.Grant.{IsEligible, grant_widest};
ghost use Rattle.protocol.specs.Bound.{IsWidest};
ghost use Rattle.grants.specs.Transit.{lesser_with};
ghost use Rattle.grants.specs.Wiring.{least_by, network_by};
ghost use Rattle.grants.specs.Records.{AreRecords, changed_at, is_eligible_in, initial_records, with_looks};
ghost use Rattle.grants.specs.Looks.{changed_between, counted, reached_from};
ghost use Rattle.grants.specs.Routes.{connected_to, affected_by};

use crate::affected::AffectedFederates;
use crate::federate_record::FederateRecord;
use crate::memory::Memory;
use crate::wiring::Wiring;
use plan::Plan;
use std::alloc::Global;
use std::marker::Model;
use tag::{FiniteTag, Tag, pred};

/// What the coordinator knows of each federate, and who is eligible for a grant. Federates go by number. Each setter
/// takes any value, so that a change can be taken back.
#[derive(Drop)]
pub struct Table {
    wiring: Wiring,
    federate_records: Vec<FederateRecord>,
    affected: AffectedFederates,
}

impl Model for Table {
    ghost use Rattle.grants.specs.Records.{Records};
    ghost use Rattle.grants.specs.Invariant.{IsKept};

    ghost Value = { Records };

    ghost view = { λ t. record {
      wiring = t.wiring;
      federate_records = t.federate_records.items;
      looks = t.affected.looks;
    } };

    ghost invariant = { λ t. IsKept t.wiring t.federate_records.items t.affected.eligible };
}

impl Table {
    /// Of a plan's federates, before any signal came.
    pub fn new(alloc: Global, plan: &Plan) -> Result<Table, Memory>
        ensures { IfOk result (λ table. table ≡ initial_records plan.now) }
    {
        let wiring = Wiring::new(alloc, plan)?;
        let federate_records = initial_federate_records(alloc, plan.federate_count())?;
        let affected = AffectedFederates::new(alloc, plan.federate_count())?;
        Ok(Table {
            wiring,
            federate_records,
            affected,
        })
    }

    /// What every table keeps.
    pub fn invariant(&self)
        ensures { AreRecords self.now }
    {
        self.wiring.invariant();
    }

    pub fn federates(&self) -> usize
        ensures { result ≡ self.now.wiring.federates }
    {
        self.wiring.federates()
    }

    /// The last tag at which anything runs.
    pub fn stop(&self) -> FiniteTag
        ensures { result ≡ self.now.wiring.stop }
    {
        self.wiring.stop()
    }

    /// The tag of a federate's last LTC.
    pub fn completed(&self, federate: usize) -> Option<FiniteTag>
        requires { federate < self.now.wiring.federates }
        ensures { result ≡ (federate_record_at self.now.federate_records federate).completed }
    {
        self.federate_records[federate].completed()
    }

    /// The last TAG to a federate.
    pub fn granted(&self, federate: usize) -> Option<FiniteTag>
        requires { federate < self.now.wiring.federates }
        ensures { result ≡ (federate_record_at self.now.federate_records federate).granted }
    {
        self.federate_records[federate].granted()
    }

    /// Whether a NET of a federate came.
    pub fn announced(&self, federate: usize) -> bool
        requires { federate < self.now.wiring.federates }
        ensures { result ≡ (federate_record_at self.now.federate_records federate).announced }
    {
        self.federate_records[federate].announced()
    }

    /// Before this tag a federate does nothing, unless a message is routed to it first.
    pub fn next(&self, federate: usize) -> Tag
        requires { federate < self.now.wiring.federates }
        ensures { result ≡ (federate_record_at self.now.federate_records federate).next }
    {
        self.federate_records[federate].next()
    }

    /// The least tag of a message on its way to a federate.
    pub fn least_transit(&self, federate: usize) -> Option<FiniteTag>
        requires { federate < self.now.wiring.federates }
        ensures first { result ≡ slice_get (federate_record_at self.now.federate_records federate).transit 0 }
        ensures least { (tag : LogicalTime)
            → least_with tag (federate_record_at self.now.federate_records federate).transit ≡ lesser_with tag result }
    {
        self.federate_records[federate].least_transit()
    }

    /// How often a federate was looked at since `new`: at most 2^64 - 1.
    pub fn looks(&self) -> u64
        ensures { result ≡ self.now.looks }
    {
        self.affected.looks()
    }

    /// Whether a federate gets a grant.
    pub fn eligible(&self, federate: usize) -> bool
        requires { federate < self.now.wiring.federates }
        ensures paths { IsTrue result ↔ IsEligible (network_by self.now.wiring)
            (federate_record_at self.now.federate_records) federate }
        ensures table { result ≡ is_eligible_in self.now federate }
    {
        // For the prover: the least delays are least over all paths.
        self.wiring.invariant();
        self.affected.is_eligible(federate)
    }

    /// Whether any federate gets a grant. It takes the same time however many there are.
    pub fn has_eligible(&self) -> bool
        ensures { result ≡ false ↔ ((federate : ℕ) → federate < self.now.wiring.federates
            → is_eligible_in self.now federate ≡ false) }
    {
        self.affected.has_eligible()
    }

    /// How far an eligible federate may be granted: the last tag before anything can still arrive at it, or stop if
    /// that is earlier.
    pub fn grant(&self, federate: usize) -> FiniteTag
        requires federate { federate < self.now.wiring.federates }
        requires eligible { IsTrue (is_eligible_in self.now federate) }
        ensures widest { IsWidest (network_by self.now.wiring) (federate_record_at self.now.federate_records)
            federate result }
        ensures rule { grant_widest (network_by self.now.wiring) (least_by self.now.wiring)
            (federate_record_at self.now.federate_records) federate ≡ Some result }
    {
        // For the prover: the least delays are least over all paths.
        self.wiring.invariant();
        let bound = self
            .wiring
            .bound(self.federate_records.as_slice(), federate);
        last_before(bound, self.wiring.stop())
    }

    /// The federates that a change of this one's next tag may make eligible, in order: itself, and each that a path
    /// leads to from it.
    pub fn affected_by(&self, federate: usize) -> &[usize]
        requires { federate < self.now.wiring.federates }
        ensures { result.now ≡ affected_by self.now.wiring federate }
    {
        self.wiring.affected_by(federate)
    }

    /// Sets a federate's next tag. It looks at that federate, and at each that a path leads to from it.
    pub fn set_next(&mut self, federate: usize, next: Tag)
        requires { federate < self.old.wiring.federates }
        ensures value { self.new ≡ with_looks (changed_at self.old federate (λ s. record s { next = next }))
            self.new.looks }
        ensures few_looks { self.new.looks ≤ self.old.looks + 1 + reached_from self.old.wiring federate }
        ensures looks { counted self.old.looks (changed_between self.old self.new) ≤ self.new.looks }
    {
        // For the prover: the least delays are least over all paths.
        self.wiring.invariant();
        let federate_record = &mut self.federate_records[federate];
        federate_record.set_next(next);
        let federates = self.wiring.affected_by(federate);
        self.affected
            .look_at_each(&self.wiring, self.federate_records.as_slice(), federates);
    }

    /// Sets the tag of a federate's last LTC. It looks at each federate that a connection leads to from it: what it
    /// completed bears on nobody else.
    pub fn set_completed(&mut self, federate: usize, completed: Option<FiniteTag>)
        requires { federate < self.old.wiring.federates }
        ensures value { self.new ≡ with_looks (changed_at self.old federate (λ s. record s { completed = completed }))
            self.new.looks }
        ensures few_looks { self.new.looks ≤ self.old.looks + length (connected_to self.old.wiring federate) }
        ensures looks { counted self.old.looks (changed_between self.old self.new) ≤ self.new.looks }
    {
        // For the prover: the least delays are least over all paths.
        self.wiring.invariant();
        let federate_record = &mut self.federate_records[federate];
        federate_record.set_completed(completed);
        let federates = self.wiring.connected_to(federate);
        self.affected
            .look_at_each(&self.wiring, self.federate_records.as_slice(), federates);
    }

    /// Sets whether a NET of a federate came. It looks at that federate alone.
    pub fn set_announced(&mut self, federate: usize, announced: bool)
        requires { federate < self.old.wiring.federates }
        ensures value { self.new ≡ with_looks (changed_at self.old federate (λ s. record s { announced = announced }))
            self.new.looks }
        ensures few_looks { self.new.looks ≤ self.old.looks + 1 }
        ensures looks { counted self.old.looks (changed_between self.old self.new) ≤ self.new.looks }
    {
        // For the prover: the least delays are least over all paths.
        self.wiring.invariant();
        let federate_record = &mut self.federate_records[federate];
        federate_record.set_announced(announced);
        self.affected
            .look(&self.wiring, self.federate_records.as_slice(), federate);
    }

    /// Sets the last TAG to a federate. It looks at that federate alone.
    pub fn set_granted(&mut self, federate: usize, granted: Option<FiniteTag>)
        requires { federate < self.old.wiring.federates }
        ensures value { self.new ≡ with_looks (changed_at self.old federate (λ s. record s { granted = granted }))
            self.new.looks }
        ensures few_looks { self.new.looks ≤ self.old.looks + 1 }
        ensures looks { counted self.old.looks (changed_between self.old self.new) ≤ self.new.looks }
    {
        // For the prover: the least delays are least over all paths.
        self.wiring.invariant();
        let federate_record = &mut self.federate_records[federate];
        federate_record.set_granted(granted);
        self.affected
            .look(&self.wiring, self.federate_records.as_slice(), federate);
    }

    /// A message with this tag is on its way to a federate. It looks at nobody.
    pub fn add_transit(&mut self, federate: usize, tag: FiniteTag) -> Result<(), Memory>
        requires { federate < self.old.wiring.federates }
        ensures ok { OnOk result (self.new
            ≡ changed_at self.old federate (λ s. record s { transit = with_tag tag s.transit })) }
        ensures err { OnErr result (self.new ≡ self.old) }
    {
        // For the prover: the least delays are least over all paths.
        self.wiring.invariant();
        let federate_record = &mut self.federate_records[federate];
        federate_record.add_transit(tag)
    }

    /// No message up to this tag is on its way to a federate. It looks at nobody.
    pub fn drop_transit(&mut self, federate: usize, completed: FiniteTag)
        requires { federate < self.old.wiring.federates }
        ensures { self.new ≡ changed_at self.old federate
            (λ s. record s { transit = filter (λ t. is_before completed t) s.transit }) }
    {
        // For the prover: the least delays are least over all paths.
        self.wiring.invariant();
        let federate_record = &mut self.federate_records[federate];
        federate_record.drop_transit(completed);
    }
}

// This many records, before any signal came.
fn initial_federate_records(alloc: Global, count: usize) -> Result<Vec<FederateRecord>, Memory>
    ensures { IfOk result (λ federate_records. federate_records.items
        ≡ federate_records_listed count (λ j. initial_federate_record)) }
{
    let mut federate_records = Vec::new(alloc);
    for _federate in 0..count {
        federate_records.push(FederateRecord::new(alloc))?;
    }
    Ok(federate_records)
}

// The last tag before this one, which isn't the first, or stop if that is earlier.
fn last_before(bound: Tag, stop: FiniteTag) -> FiniteTag
    requires { IsTrue (is_before origin bound) }
    ensures { result ≡ lesser (predecessor_of bound) stop }
{
    match pred(bound).and_then(FiniteTag::of) {
        Some(last) => last.min(stop),
        None => stop,
    }
}
