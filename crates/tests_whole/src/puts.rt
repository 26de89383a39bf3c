//! Values for one slot at one tag: the later counts.
use crate::opened::{first_agenda, one_action};
use reactor_agenda::{Agenda, PendingEvent};
use reactor_program::Entry;
use std::alloc::Global;
use std::test::Fail;
use tag::{FiniteTag, Time};

// A value for the action at a time in ns.
fn event(time: u64, value: i64) -> PendingEvent {
    PendingEvent::new(tag(time), 1, value)
}

// The tag of a time in ns.
fn tag(time: u64) -> FiniteTag {
    FiniteTag::new(Time::new(time).unwrap_or(Time::zero()), 0)
}

// Whether this value alone is present at 5 ns. None, here and below, where there was no memory.
fn has(alloc: Global, agenda: &Agenda, value: i64) -> Option<bool> {
    let mut present = Vec::new(alloc);
    agenda.at(tag(5).tag(), &mut present).ok()?;
    Some(present.as_slice() == [Entry::new(1, value)].as_slice())
}

/// Values that are put together at 5 ns, whether they are taken back, and which value counts then.
const PUTS: &[(&[i64], bool, i64)] = &[
    (&[1], false, 1),
    (&[3, 4], false, 4),
    (&[8, 9], true, 4),
    (&[6], false, 6),
];

// These values at 5 ns.
fn events(alloc: Global, values: &[i64]) -> Option<Vec<PendingEvent>> {
    let mut events = Vec::new(alloc);
    for value in values {
        events.push(event(5, *value)).ok()?;
    }
    Some(events)
}

// Puts events, and takes them back if asked to.
fn put(agenda: &mut Agenda, events: &[PendingEvent], is_back: bool) -> Option<()> {
    let put = agenda.put_all(events).ok()?;
    if is_back {
        agenda.take_back(put);
    }
    Some(())
}

// Whether this value counts once those are put.
fn counts(
    alloc: Global,
    agenda: &mut Agenda,
    values: &[i64],
    is_back: bool,
    counted: i64,
) -> Option<bool> {
    let events = events(alloc, values)?;
    put(agenda, events.as_slice(), is_back)?;
    has(alloc, agenda, counted)
}

// Whether the later value counts each time.
fn all_count(alloc: Global, agenda: &mut Agenda) -> Option<bool> {
    for (values, is_back, counted) in PUTS {
        if !counts(alloc, agenda, values, *is_back, *counted)? {
            return Some(false);
        }
    }
    Some(true)
}

fn later_counts(alloc: Global) -> Option<bool> {
    let plan = one_action(alloc)?;
    let mut agenda = first_agenda(alloc, &plan)?;
    all_count(alloc, &mut agenda)
}

#[test]
fn shows_the_value_that_was_put_last(rt: HostRuntime) {
    assert_eq!(rt; later_counts(rt.alloc()), Some(true));
}
