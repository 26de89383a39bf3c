ghost use Rattle.std.specs.Prelude.{◌≡◌, ◌&&◌, OnErr, OnOk, filter, slice_get};
ghost use Rattle.tag.specs.LogicalTime.{LogicalTime, is_at_most, is_before, is_past};
ghost use Rattle.protocol.specs.FederateRecord.{initial_federate_record, least_with, with_tag};
ghost use Rattle.grants.specs.Transit.{Rises, has_up_to, lesser_with};

use crate::memory::Memory;
use std::alloc::Global;
use std::collections::BTreeSet;
use std::marker::Model;
use tag::{FiniteTag, Tag, is_past};

/// What the coordinator knows of one federate.
#[derive(Drop)]
pub struct FederateRecord {
    completed: Option<FiniteTag>,
    granted: Option<FiniteTag>,
    announced: bool,
    next: Tag,
    /// The tags of messages on their way to it.
    transit: BTreeSet<FiniteTag, Global>,
}

impl Model for FederateRecord {
    ghost use Rattle.protocol.specs.FederateRecord.{FederateRecord as FederateRecordOf};

    ghost Value = { FederateRecordOf };

    ghost view = { λ s. record {
      completed = s.completed;
      granted = s.granted;
      announced = s.announced;
      next = s.next;
      transit = s.transit.keys;
    } };
}

impl FederateRecord {
    /// Before any signal came.
    pub fn new(alloc: Global) -> FederateRecord
        ensures { result ≡ initial_federate_record }
    {
        FederateRecord {
            completed: None,
            granted: None,
            announced: false,
            next: Tag::origin(),
            transit: BTreeSet::new(alloc),
        }
    }

    /// The tag of its last LTC.
    pub fn completed(&self) -> Option<FiniteTag>
        ensures { result ≡ self.now.completed }
    {
        self.completed
    }

    /// The last TAG to it.
    pub fn granted(&self) -> Option<FiniteTag>
        ensures { result ≡ self.now.granted }
    {
        self.granted
    }

    /// Whether a NET of it came.
    pub fn announced(&self) -> bool
        ensures { result ≡ self.now.announced }
    {
        self.announced
    }

    /// Before this tag it does nothing, unless a message is routed to it first.
    pub fn next(&self) -> Tag
        ensures { result ≡ self.now.next }
    {
        self.next
    }

    /// The least tag of a message on its way to it.
    pub fn least_transit(&self) -> Option<FiniteTag>
        ensures first { result ≡ slice_get self.now.transit 0 }
        ensures least { (tag : LogicalTime) → least_with tag self.now.transit ≡ lesser_with tag result }
    {
        first_of(&self.transit)
    }

    /// Whether it waits for a grant: it has announced, and its next tag isn't granted yet and not later than stop.
    pub fn is_waiting(&self, stop: FiniteTag) -> bool
        ensures { result ≡ (self.now.announced && is_past self.now.granted self.now.next
            && is_at_most self.now.next stop) }
    {
        self.announced && is_past(self.granted, self.next) && self.next <= stop.tag()
    }

    pub fn set_completed(&mut self, completed: Option<FiniteTag>)
        ensures { self.new ≡ record self.old { completed = completed } }
    {
        self.completed = completed;
    }

    pub fn set_granted(&mut self, granted: Option<FiniteTag>)
        ensures { self.new ≡ record self.old { granted = granted } }
    {
        self.granted = granted;
    }

    pub fn set_announced(&mut self, announced: bool)
        ensures { self.new ≡ record self.old { announced = announced } }
    {
        self.announced = announced;
    }

    pub fn set_next(&mut self, next: Tag)
        ensures { self.new ≡ record self.old { next = next } }
    {
        self.next = next;
    }

    /// A message with this tag is on its way to it.
    pub fn add_transit(&mut self, tag: FiniteTag) -> Result<(), Memory>
        ensures ok { OnOk result (self.new ≡ record self.old { transit = with_tag tag self.old.transit }) }
        ensures err { OnErr result (self.new ≡ self.old) }
        ensures others { self.new ≡ record self.old { transit = self.new.transit } }
    {
        self.transit.insert(tag)?;
        Ok(())
    }

    /// No message up to this tag is on its way to it.
    pub fn drop_transit(&mut self, completed: FiniteTag)
        ensures { self.new ≡ record self.old { transit = filter (λ t. is_before completed t) self.old.transit } }
    {
        drop_up_to(&mut self.transit, completed);
    }
}

// The first tag.
fn first_of(tags: &BTreeSet<FiniteTag, Global>) -> Option<FiniteTag>
    ensures first { result ≡ slice_get tags.now.keys 0 }
    ensures rises { Rises tags.now.keys }
{
    // For the prover: the tags are in order.
    let _count = tags.len();
    tags.first().copied()
}

// Lets go of the tags up to this one.
fn drop_up_to(tags: &mut BTreeSet<FiniteTag, Global>, last: FiniteTag)
    ensures { tags.new.keys ≡ filter (λ t. is_before last t) tags.old.keys }
{
    while has_up_to(tags, last) {
        match tags.pop_first() {
            Some(_first) => {}
            None => {}
        }
    }
    // For the prover: the tags are in order.
    let _count = tags.len();
}

// Whether the first tag is not later than this one.
fn has_up_to(tags: &BTreeSet<FiniteTag, Global>, last: FiniteTag) -> bool
    ensures { result ≡ has_up_to last tags.now.keys }
{
    match tags.first() {
        Some(first) => *first <= last,
        None => false,
    }
}
