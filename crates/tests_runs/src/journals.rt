//! The events of a journal, and what is copied of one while its node runs.
use crate::nodes::nodes_of;
use desk::{Share, Shared};
use federate::Federate;
use node::Event;
use node_journal::Journal;
use std::alloc::Global;
use std::sync::Wait;
use tests_samples::{Machine, SENDER, loaded};

/// A list of a journal's events; None without memory for it.
pub(crate) fn events_of(alloc: Global, journal: &Journal) -> Option<Vec<Event>> {
    let mut events = Vec::with_capacity(alloc, journal.len()).ok()?;
    let mut block = 0;
    for place in 0..journal.len() {
        let event = journal.event(place, &mut block);
        // For the prover: a list of one, since a pushed event has no proof here.
        events.extend_from_slice(&[event]).ok()?;
    }
    Some(events)
}

/// What is handed in, and so stands in the journal.
const HANDED_IN: [Event; 4] = [
    Event::Hello(0),
    Event::Announce,
    Event::Advance,
    Event::Resend(0),
];

/// What is in a journal before the events that are copied behind it.
const BEFORE: Event = Event::Resend(7);

/// From which place on events are copied, how many at most, and between which places they stand.
const COPIED: &[(usize, usize, usize, usize)] = &[
    (0, 10, 0, 4),
    (0, 4, 0, 4),
    (1, 2, 1, 3),
    (3, 1, 3, 4),
    (0, 0, 0, 0),
    (4, 5, 0, 0),
    (9, 5, 0, 0),
];

// What stands in a journal behind which events were copied so.
fn copied<R: Wait>(
    rt: &R,
    alloc: Global,
    shared: &Shared<Federate<'_>>,
    place: usize,
    most: usize,
) -> Option<Vec<Event>> {
    let mut journal = Journal::new(alloc);
    journal.push(&BEFORE, None).ok()?;
    shared.copy_events(rt, place, most, &mut journal).ok()?;
    events_of(alloc, &journal)
}

// Whether these events are copied each time, behind what is in the other journal before.
fn copies<R: Wait>(rt: &R, alloc: Global, shared: &Shared<Federate<'_>>) -> Option<bool> {
    let mut share = Share::new(alloc);
    let handed_in = HANDED_IN;
    for event in &handed_in {
        shared.handle(rt, &mut share, *event).ok()?;
    }
    for (place, most, from, to) in COPIED {
        let events = copied(rt, alloc, shared, *place, *most)?;
        let (first, behind) = events.as_slice().split_first()?;
        if *first != BEFORE || behind != handed_in.get(*from..*to)? {
            return Some(false);
        }
    }
    Some(true)
}

fn copies_of_sender<R: Machine>(rt: &R) -> Option<bool> {
    let federation = loaded(rt.alloc(), SENDER, "")?;
    let nodes = nodes_of(rt.alloc(), &federation, false)?;
    copies(rt, rt.alloc(), nodes.federates.first()?)
}

#[test]
fn copies_events_of_a_journal(rt: HostRuntime) {
    assert_eq!(rt; copies_of_sender(&rt), Some(true));
}
