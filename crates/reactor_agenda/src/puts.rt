ghost use Rattle.std.specs.Prelude.{◌≡◌, ◌+◌, ◌<◌, OnOk, OnErr, ◌≤◌, [], ◌∷◌, ◌++◌, IsTrue};
ghost use Rattle.std.specs.List.{AllByRecursion};
ghost use Rattle.std.specs.Vec.{vec_len, vec_capacity};
ghost use Rattle.tag.specs.LogicalTime.{LogicalTime, is_at_most};
ghost use Rattle.network.specs.Undone.{put, put_all, drop_up_to};
ghost use Rattle.reactor_agenda.specs.Agenda.{in_time};
ghost use Rattle.reactor_agenda.specs.Invariant.{undo_all, undo_to, has_due, IsFit};

use crate::key::Key;
use crate::memory::Memory;
use crate::ordered::Puts;
use crate::pending_event::PendingEvent;
use crate::undo::Undo;
use tag::{FiniteTag, Tag};

/// Puts events up to stop, all or none. Afterwards `undos` is what takes them back.
#[inline(always)]
pub fn put_in_time(
    puts: &mut Puts,
    undos: &mut Vec<Undo>,
    stop: FiniteTag,
    events: &[PendingEvent],
) -> Result<(), Memory>
    ensures put { OnOk result (puts.new ≡ put_all (in_time stop events.now) puts.old) }
    ensures undos { OnOk result (undo_all undos.new.items puts.new ≡ puts.old) }
    ensures fit { OnOk result (AllByRecursion (IsFit stop) puts.old → AllByRecursion (IsFit stop) puts.new) }
    ensures err { OnErr result (puts.new ≡ puts.old) }
{
    undos.clear();
    undos.reserve(events.len())?;
    for event in events {
        if !is_in_time(*event, stop) {
            continue;
        }
        match put_one(puts, undos, *event) {
            Ok(()) => {}
            Err(memory) => {
                undo_each(puts, undos);
                return Err(memory);
            }
        }
    }
    Ok(())
}

fn is_in_time(event: PendingEvent, stop: FiniteTag) -> bool
    ensures { result ≡ is_at_most event.tag stop }
{
    event.tag() <= stop
}

// Puts an event, and notes how to undo it.
#[inline(always)]
fn put_one(puts: &mut Puts, undos: &mut Vec<Undo>, event: PendingEvent) -> Result<(), Memory>
    requires { vec_len undos.old < vec_capacity undos.old }
    ensures put { OnOk result (puts.new ≡ put event puts.old) }
    ensures noted { OnOk result (undo_all undos.new.items puts.new ≡ undo_all undos.old.items puts.old) }
    ensures fit { OnOk result ((stop : LogicalTime) → IsTrue (is_at_most event.tag stop)
        → AllByRecursion (IsFit stop) puts.old → AllByRecursion (IsFit stop) puts.new) }
    ensures room { vec_capacity undos.new ≡ vec_capacity undos.old }
    ensures len { vec_len undos.new ≤ vec_len undos.old + 1 }
    ensures err { OnErr result (puts.new ≡ puts.old) }
    ensures not_noted { OnErr result (undos.new.items ≡ undos.old.items) }
{
    // For the prover: the tag is finite.
    event.tag().invariant();
    let was = puts.insert(key_of(event), event.value())?;
    let key = key_of(event);
    undos.push_reserved(Undo { key, was });
    Ok(())
}

// Where an event stands.
fn key_of(event: PendingEvent) -> Key
    ensures { result ≡ record { tag = event.tag; slot = event.slot } }
{
    Key {
        tag: event.tag(),
        slot: event.slot(),
    }
}

/// Undoes what was put, the last first. No memory is needed.
pub fn undo_each(puts: &mut Puts, undos: &mut Vec<Undo>)
    ensures pending { puts.new ≡ undo_all undos.old.items puts.old }
    ensures none_left { undos.new.items ≡ [] }
{
    while let Some(undo) = undos.pop() {
        undo_one(puts, undo);
    }
}

fn undo_one(puts: &mut Puts, undo: Undo)
    ensures { puts.new ≡ undo_to undo.key undo.was puts.old }
{
    match undo.was {
        None => puts.remove(&undo.key),
        Some(value) => puts.replace(undo.key, value),
    }
}

/// Lets go of what was put up to a tag.
pub fn drop_puts(puts: &mut Puts, tag: Tag)
    ensures { puts.new ≡ drop_up_to tag puts.old }
{
    while has_due(puts, tag) {
        puts.drop_first();
    }
    puts.in_order();
}

// Whether the first is not later than a tag.
fn has_due(puts: &Puts, tag: Tag) -> bool
    ensures { result ≡ has_due tag puts.now }
{
    match puts.front.front() {
        Some((key, _)) => is_at_most(key.tag, tag),
        None => false,
    }
}

pub fn is_at_most(finite: FiniteTag, tag: Tag) -> bool
    ensures { result ≡ is_at_most finite tag }
{
    finite.tag() <= tag
}
