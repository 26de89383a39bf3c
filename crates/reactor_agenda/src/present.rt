ghost use Rattle.std.specs.Prelude.{◌≡◌, ◌≤◌, OnOk, filter, length, map, [], ◌∷◌};
ghost use Rattle.std.specs.List.{AllByRecursion, insert};
ghost use Rattle.tag.specs.LogicalTime.{is_same};
ghost use Rattle.network.specs.Undone.{Rises};
ghost use Rattle.reactor_agenda.specs.Invariant.{held_at, held_in, firings_of, all_firings, IsTimer};
ghost use Rattle.reactor_agenda.specs.Present.{entry_of, set_entry, set_entries, AreInPlace};

use crate::firings::{Firings, are_same, fires_at};
use crate::key::Key;
use crate::memory::Memory;
use crate::ordered::Puts;
use crate::puts::is_at_most;
use reactor_program::Entry;
use std::alloc::Global;
use std::collections::{BTreeMap, VecDeque};
use tag::Tag;

/// Adds the timers that fire at a tag.
pub fn add_firings(entries: &mut Vec<Entry>, timers: &[Firings], tag: Tag) -> Result<(), Memory>
    requires timers { AllByRecursion IsTimer timers.now }
    requires in_place { AreInPlace entries.old.items }
    ensures { OnOk result (entries.new.items
        ≡ set_entries (map entry_of (filter (λ e. is_same e.tag tag) (all_firings timers.now))) entries.old.items) }
{
    for timer in timers {
        add_firing(entries, *timer, tag)?;
    }
    Ok(())
}

// Adds a timer, if it fires at a tag.
fn add_firing(entries: &mut Vec<Entry>, timer: Firings, tag: Tag) -> Result<(), Memory>
    requires timer { IsTimer timer }
    requires in_place { AreInPlace entries.old.items }
    ensures { OnOk result (entries.new.items
        ≡ set_entries (map entry_of (filter (λ e. is_same e.tag tag) (firings_of timer))) entries.old.items) }
{
    if fires_at(timer, tag) {
        set_entry(entries, Entry::new(timer.slot, 0))?;
    }
    Ok(())
}

/// Adds what was put for a tag. It goes over what was put before it.
pub fn add_puts(entries: &mut Vec<Entry>, puts: &Puts, tag: Tag) -> Result<(), Memory>
    requires { AreInPlace entries.old.items }
    ensures { OnOk result (entries.new.items
        ≡ set_entries (map entry_of (filter (λ e. is_same e.tag tag) puts.now)) entries.old.items) }
{
    add_front(entries, &puts.front, tag)?;
    add_rest(entries, &puts.rest, tag)
}

// Adds those in front.
fn add_front(
    entries: &mut Vec<Entry>,
    front: &VecDeque<(Key, i64), Global>,
    tag: Tag,
) -> Result<(), Memory>
    requires rises { Rises (held_in front.now.items) }
    requires in_place { AreInPlace entries.old.items }
    ensures { OnOk result (entries.new.items
        ≡ set_entries (map entry_of (filter (λ e. is_same e.tag tag) (held_in front.now.items))) entries.old.items) }
{
    for (key, value) in front.iter() {
        if !is_at_most(key.tag, tag) {
            return Ok(());
        }
        add_put(entries, key, *value, tag)?;
    }
    Ok(())
}

// Adds the others.
fn add_rest(
    entries: &mut Vec<Entry>,
    rest: &BTreeMap<Key, i64, Global>,
    tag: Tag,
) -> Result<(), Memory>
    requires { AreInPlace entries.old.items }
    ensures { OnOk result (entries.new.items
        ≡ set_entries (map entry_of (filter (λ e. is_same e.tag tag) (held_in rest.now.entries))) entries.old.items) }
{
    // For the prover: `len` hands out the order of the entries.
    let _count = rest.len();
    for (key, value) in rest {
        if !is_at_most(key.tag, tag) {
            return Ok(());
        }
        add_put(entries, key, *value, tag)?;
    }
    Ok(())
}

// Adds a value for a slot, if it was put for a tag.
fn add_put(entries: &mut Vec<Entry>, key: &Key, value: i64, tag: Tag) -> Result<(), Memory>
    requires { AreInPlace entries.old.items }
    ensures { OnOk result (entries.new.items
        ≡ set_entries (map entry_of (filter (λ e. is_same e.tag tag) (held_at (key.now, value) ∷ [])))
        entries.old.items) }
{
    if are_same(key.tag.tag(), tag) {
        set_entry(entries, Entry::new(key.slot, value))?;
    }
    Ok(())
}

// Adds an entry in its place; it replaces one for its slot.
#[inline(always)]
fn set_entry(entries: &mut Vec<Entry>, entry: Entry) -> Result<(), Memory>
    requires { AreInPlace entries.old.items }
    ensures { OnOk result (entries.new.items ≡ set_entry entry entries.old.items) }
{
    match entries
        .as_slice()
        .binary_search_by_key(&entry.place(), |other| other.place())
    {
        Ok(place) => entries[place] = entry,
        Err(place) => insert(entries, place, entry)?,
    }
    Ok(())
}

// Adds an entry at a place, which most often is the end.
fn insert(entries: &mut Vec<Entry>, place: usize, entry: Entry) -> Result<(), Memory>
    requires { place ≤ length entries.old.items }
    ensures { OnOk result (entries.new.items ≡ insert entries.old.items place entry) }
{
    if place == entries.len() {
        entries.push(entry)?;
    } else {
        entries.insert(place, entry)?;
    }
    Ok(())
}
