//! A text with its changes.
ghost use Rattle.std.specs.Prelude.{◌≡◌, ◌-◌, ◌++◌, take, drop, OnOk, IfOk, string_bytes};
ghost use Rattle.expand_source.specs.Filling.{Appends};
ghost use Rattle.expand_federation.specs.Changes.{IsAdded, IsChanged};

use crate::change::{Added, Change, Joint};
use crate::texts::{body_text, states_text};
use expand_bodies::{BodyFault, BodyFaultKind, BodyNames, expand_body, scratch_names};
use plan_names::Text;
use std::alloc::{AllocError, Global};

/// A text with its changes, which are in the order of their places.
pub fn changed(alloc: Global, text: &[u8], changes: &[Change<'_>]) -> Result<Vec<u8>, BodyFault>
    ensures { IfOk result (λ made. IsChanged 0 text.now changes.now made.items) }
{
    let mut made = Vec::new(alloc);
    // What is left of the text, and how many bytes stand before that.
    let mut left = text;
    let mut before = 0;
    for change in changes {
        push(&mut made, up_to(left, before, change.from))?;
        push_added(alloc, change, &mut made)?;
        left = behind(left, before, change.to);
        before = change.to;
    }
    push(&mut made, left)?;
    Ok(made)
}

// What is put in, behind what there is.
fn push_added(alloc: Global, change: &Change<'_>, made: &mut Vec<u8>) -> Result<(), BodyFault>
    ensures { OnOk result (Appends made.old.items made.new.items (IsAdded change.now.names.now change.now.added)) }
{
    let added = added_text(alloc, change.names, change.added)?;
    push(made, added.as_bytes())?;
    Ok(())
}

// What is put in.
fn added_text(alloc: Global, names: &BodyNames, added: Added<'_>) -> Result<String, BodyFault>
    ensures { IfOk result (λ text. IsAdded names.now added.entry (string_bytes text)) }
{
    match added {
        Added::Body(lines) => expansion_text(alloc, names, lines),
        Added::States(joint, count) => match scratch_text(alloc, names, joint, count) {
            Ok(text) => Ok(text),
            Err(_) => Err(no_memory()),
        },
    }
}

// The expansion of a body.
fn expansion_text(alloc: Global, names: &BodyNames, lines: &[Text]) -> Result<String, BodyFault>
    ensures { IfOk result (λ text. IsAdded names.now (Added.Body lines.entry) (string_bytes text)) }
{
    let body = expand_body(alloc, names, lines)?;
    match body_text(alloc, body.lines.as_slice()) {
        Ok(text) => Ok(text),
        Err(_) => Err(no_memory()),
    }
}

// Scratch states.
fn scratch_text(
    alloc: Global,
    names: &BodyNames,
    joint: Joint,
    count: usize,
) -> Result<String, AllocError>
    ensures { IfOk result (λ text. IsAdded names.now (Added.States joint count) (string_bytes text)) }
{
    let scratch = scratch_names(alloc, &names.states, count)?;
    states_text(alloc, joint, scratch.as_slice())
}

fn no_memory() -> BodyFault {
    BodyFault {
        line: 0,
        kind: BodyFaultKind::Memory,
    }
}

fn push(made: &mut Vec<u8>, text: &[u8]) -> Result<(), BodyFault>
    ensures { OnOk result (made.new.items ≡ made.old.items ++ text.now) }
{
    match made.extend_from_slice(text) {
        Ok(()) => Ok(()),
        Err(_) => Err(no_memory()),
    }
}

// What of a text stands before a place, where this many bytes stand before the text.
#[tactic(auto, using(crate::proofs::Pieces::all_of))]
fn up_to(text: &[u8], before: usize, place: usize) -> &[u8]
    ensures { result.now ≡ take (place - before) text.now }
{
    let count = place.saturating_sub(before);
    if count >= text.len() {
        return text;
    }
    let (front, _) = text.split_at(count);
    front
}

// What of a text stands behind a place, where this many bytes stand before the text.
#[tactic(auto, using(crate::proofs::Pieces::none_behind))]
fn behind(text: &[u8], before: usize, place: usize) -> &[u8]
    ensures { result.now ≡ drop (place - before) text.now }
{
    let count = place.saturating_sub(before);
    if count >= text.len() {
        return &[];
    }
    let (_, rest) = text.split_at(count);
    rest
}
