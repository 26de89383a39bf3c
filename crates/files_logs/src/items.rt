//! What a block says, read from its bytes.

ghost use Rattle.std.specs.Prelude.{◌≡◌, ◌||◌, ◌++◌, ◌∷◌, [], IfOk, IfErr, OnOk};
ghost use Rattle.files_reports.specs.Reading.{IsTaken};
ghost use Rattle.files_logs.specs.Items.{item_bytes, IsItem, events_of, is_told_in};
ghost use Rattle.files_logs.specs.Parts.{IsEventFault, IsItemFault, IsSayingFault, IsAdded};

use crate::item::Item;
use crate::layout::TOLD_KIND;
use crate::log_fault::LogFault;
use files_reports::journals::event_of;
use files_reports::{ContentFault, ReadFault};
use node::Event;
use node_journal::{Batch, Journal};
use std::alloc::{AllocError, Global};

// Whether one of two holds.
pub fn either(first: bool, second: bool) -> bool
    ensures { result ≡ (first || second) }
{
    first || second
}

/// Adds the events that a block says to a journal, and tells whether it says that the run is finished. Frames that came
/// one after the other are kept as a batch, and turns take no memory.
#[tactic(auto, using(crate::proofs::Found::gathered_added))]
pub fn add_said(alloc: Global, journal: &mut Journal, said: &[u8]) -> Result<bool, LogFault>
    ensures added { IfOk result (λ told. IsAdded said.now journal.old journal.new told []) }
    ensures fault { IfErr result (IsSayingFault said.now) }
{
    let mut gathered = Vec::new(alloc);
    let told = match add_items(alloc, journal, &mut gathered, said) {
        Ok(told) => told,
        Err(fault) => return Err(fault),
    };
    add_batch(alloc, journal, &mut gathered)?;
    Ok(told)
}

// Adds the events that a block says to a journal, and the last ones to those that are gathered, behind which they come.
// Tells whether it says that the run is finished.
fn add_items(
    alloc: Global,
    journal: &mut Journal,
    gathered: &mut Vec<Event>,
    said: &[u8],
) -> Result<bool, LogFault>
    ensures added { IfOk result (λ told. IsAdded said.now (journal.old ++ gathered.old.items)
        (journal.new ++ gathered.new.items) told []) }
    ensures fault { IfErr result (IsSayingFault said.now) }
{
    let mut told = false;
    let mut rest = said;
    while !rest.is_empty() {
        let (item, behind) = match item_of(alloc, rest) {
            Ok(taken) => taken,
            Err(fault) => return Err(fault),
        };
        let now = add_item(alloc, journal, gathered, &item)?;
        told = either(now, told);
        rest = behind;
    }
    Ok(told)
}

// Adds an event, or tells that the run is finished.
fn add_item(
    alloc: Global,
    journal: &mut Journal,
    gathered: &mut Vec<Event>,
    item: &Item,
) -> Result<bool, LogFault>
    ensures events { IfOk result (λ told. journal.new ++ gathered.new.items
        ≡ (journal.old ++ gathered.old.items) ++ events_of (item.now ∷ [])) }
    ensures told { IfOk result (λ told. told ≡ is_told_in (item.now ∷ [])) }
    ensures fault { IfErr result (λ fault. fault ≡ LogFault.Memory) }
{
    match item {
        Item::Came(event) => {
            add_event(alloc, journal, gathered, event)?;
            Ok(false)
        }
        Item::Told => Ok(true),
    }
}

// Adds an event: a turn's to the journal, once those are there that are gathered, and another to these.
#[tactic(auto, using(crate::proofs::Found::turn_added, crate::proofs::Found::one_gathered))]
fn add_event(
    alloc: Global,
    journal: &mut Journal,
    gathered: &mut Vec<Event>,
    event: &Event,
) -> Result<(), AllocError>
    ensures { OnOk result (journal.new ++ gathered.new.items
        ≡ (journal.old ++ gathered.old.items) ++ event.now ∷ []) }
{
    if matches!(event, Event::Announce | Event::Advance) {
        add_batch(alloc, journal, gathered)?;
        journal.push(event, None)
    } else {
        gathered.extend_from_slice(&[*event])
    }
}

// Adds the events that are gathered to the journal, as a batch.
#[tactic(auto, using(crate::proofs::Found::none_gathered))]
fn add_batch(
    alloc: Global,
    journal: &mut Journal,
    gathered: &mut Vec<Event>,
) -> Result<(), AllocError>
    ensures added { OnOk result (journal.new ≡ journal.old ++ gathered.old.items) }
    ensures none { OnOk result (gathered.new.items ≡ []) }
{
    if gathered.as_slice().is_empty() {
        return Ok(());
    }
    let batch = Batch::new(alloc, gathered.as_slice())?;
    journal.push_batch(&batch)?;
    gathered.clear();
    Ok(())
}

// What stands first, and the bytes behind it.
fn item_of(alloc: Global, bytes: &[u8]) -> Result<(Item, &[u8]), LogFault>
    ensures taken { IfOk result (λ x. IsTaken item_bytes IsItem bytes.now x.0 x.1.now) }
    ensures fault { IfErr result (IsItemFault bytes.now) }
{
    match bytes {
        [] => Err(LogFault::Content(ContentFault::Short)),
        [TOLD_KIND, rest @ ..] => Ok((Item::Told, rest)),
        _ => event_item(alloc, bytes),
    }
}

// An event.
fn event_item(alloc: Global, bytes: &[u8]) -> Result<(Item, &[u8]), LogFault>
    ensures taken { IfOk result (λ x. IsTaken item_bytes IsItem bytes.now x.0 x.1.now) }
    ensures fault { IfErr result (IsEventFault bytes.now) }
{
    match event_of(alloc, bytes) {
        Ok((event, rest)) => Ok((Item::Came(event), rest)),
        Err(ReadFault::Content(fault)) => Err(LogFault::Content(fault)),
        Err(_) => Err(LogFault::Memory),
    }
}
