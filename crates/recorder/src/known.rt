//! What is known of journals while their nodes still write them.
ghost use Rattle.std.specs.Prelude.{◌≡◌, ◌↔◌, ◌≤◌, ◌++◌, [], map, set, get_or, length, true, IsTrue, IfOk, OnOk};
ghost use Rattle.std.specs.Prelude.{OnErr};
ghost use Rattle.recorder_search.specs.Reading.{GrewTo};
ghost use Rattle.network_laws.specs.Settled.{BeginsWith};

use node_journal::Journal;
use std::alloc::{AllocError, Global};

/// Of this many journals nothing.
pub(crate) fn none_known(alloc: Global, count: usize) -> Result<Vec<Journal>, AllocError> {
    let mut known = Vec::new(alloc);
    for _ in 0..count {
        known.push(Journal::new(alloc))?;
    }
    Ok(known)
}

/// The journal at a place goes on with these events, if it is there. Without memory nothing has changed.
pub(crate) fn add_to(
    known: &mut Vec<Journal>,
    place: usize,
    events: &Journal,
) -> Result<(), AllocError>
    ensures added { OnOk result (known.new.items
        ≡ set known.old.items place (get_or known.old.items place [] ++ events.now)) }
    ensures unchanged { OnErr result (known.new.items ≡ known.old.items) }
{
    match known.get_mut(place) {
        Some(journal) => journal.append(events, 0, events.len()),
        None => Ok(()),
    }
}

/// The same journals, as a search reads them.
pub(crate) fn references_to(alloc: Global, known: &[Journal]) -> Result<Vec<&Journal>, AllocError>
    ensures { IfOk result (λ journals. map (λ j. j.now) journals.items ≡ known.now) }
{
    let mut journals = Vec::new(alloc);
    for journal in known {
        journals.push(journal)?;
    }
    Ok(journals)
}

/// Whether all that is known is a prefix of these journals, each of the one at its place.
pub(crate) fn are_prefixes(known: &[Journal], journals: &[&Journal]) -> bool
    ensures { (result ≡ true)
        ↔ ((length known.now ≤ length journals.now) × GrewTo known.now (map (λ j. j.now) journals.now)) }
{
    if known.len() > journals.len() {
        return false;
    }
    for place in 0..known.len() {
        if !is_prefix(&known[place], journals[place]) {
            return false;
        }
    }
    true
}

// Whether these events are a prefix of a journal.
fn is_prefix(events: &Journal, journal: &Journal) -> bool
    ensures { IsTrue result ↔ BeginsWith journal.now events.now }
{
    if events.len() > journal.len() {
        return false;
    }
    let (mut near, mut near_other) = (0, 0);
    let mut place = 0;
    while place < events.len() {
        match events.same_from(journal, place, &mut near, &mut near_other) {
            Some(count) => place += count,
            None => return false,
        }
    }
    true
}
