//! How many events journals compare at once, and where they look for one first, which no contract says.
use node::Event;
use node_journal::{Batch, Blocks, Journal};
use std::alloc::{AllocError, Global};

/// Events that come together.
const TOGETHER: [Event; 3] = [Event::Resend(1), Event::Resend(2), Event::Resend(3)];

// Adds these turns.
fn add_turns(journal: &mut Journal, turns: u32) -> Result<(), AllocError> {
    for _ in 0..turns {
        journal.push(&Event::Announce, None)?;
        journal.push(&Event::Advance, None)?;
    }
    Ok(())
}

// Adds what comes together, as one batch.
fn add_together(alloc: Global, journal: &mut Journal) -> Result<(), AllocError> {
    let batch = Batch::new(alloc, &TOGETHER)?;
    for event in &TOGETHER {
        journal.push(event, Some(&batch))?;
    }
    Ok(())
}

// A journal of twice what comes together, each with this many turns behind it.
fn twice(alloc: Global, turns: u32) -> Result<Journal, AllocError> {
    let mut journal = Journal::new(alloc);
    for _ in 0..2 {
        add_together(alloc, &mut journal)?;
        add_turns(&mut journal, turns)?;
    }
    Ok(journal)
}

// How many events two such journals have in common from a place on, as far as that is seen at once.
fn common(alloc: Global, place: usize) -> Option<usize> {
    let journal = twice(alloc, 2).ok()?;
    let other = twice(alloc, 2).ok()?;
    let (mut near, mut near_other) = (0, 0);
    if place < journal.len() && place < other.len() {
        journal.same_from(&other, place, &mut near, &mut near_other)
    } else {
        None
    }
}

/// Places of them, and how many events are compared at once from there.
const COMMON: [(usize, usize); 5] = [(0, 7), (1, 1), (6, 1), (7, 7), (8, 1)];

// The first of these places from which another count is compared.
fn first_other_count(alloc: Global) -> Option<usize> {
    for (place, count) in &COMMON {
        if common(alloc, *place) != Some(*count) {
            return Some(*place);
        }
    }
    None
}

// Two blocks of seven events: they are compared whole where they begin, and else event by event.
#[test]
fn compares_whole_blocks(rt: HostRuntime) {
    assert_eq!(rt; first_other_count(rt.alloc()), None);
}

// Blocks of one event each, whose places are these.
fn placed(alloc: Global, places: &[usize]) -> Option<Blocks> {
    let mut blocks = Blocks::new(alloc);
    for place in places {
        let event = Event::Resend(*place);
        blocks.add(*place, &event, None).ok()?;
    }
    Some(blocks)
}

// Whether this is the event of a place in such blocks.
fn is_of(event: Option<&Event>, place: usize) -> bool {
    matches!(event, Some(Event::Resend(of)) if *of == place)
}

// In which block a place is found that is looked for near one.
fn found_in(alloc: Global, places: &[usize], place: usize, near: usize) -> Option<usize> {
    let blocks = placed(alloc, places)?;
    let mut near = near;
    let event = blocks.get(place, &mut near);
    if is_of(event.as_ref(), place) {
        Some(near)
    } else {
        None
    }
}

/// Places of blocks, the one that is looked for, near which block, and in which one it is found.
const LOOKED_FOR: &[(&[usize], usize, usize, usize)] = &[
    // in that block, behind it, and before it
    (&[5, 5, 5, 5, 5], 5, 2, 2),
    (&[4, 5, 5, 5, 5], 5, 0, 1),
    (&[5, 5, 5, 6, 7], 5, 3, 2),
    (&[5, 5, 5, 6, 7, 8], 5, 4, 2),
    // far away: the last one, as places rise
    (&[5, 5, 5, 6, 7, 8], 5, 9, 2),
    (&[1, 3, 5, 5, 9, 9], 5, 9, 3),
    (&[5, 5, 5], 5, 9, 2),
    // where they don't, the first one
    (&[9, 5, 5, 1, 1, 1, 1], 5, 9, 1),
];

// The number of the first of these that is found elsewhere.
fn first_found_elsewhere(alloc: Global) -> Option<usize> {
    for (number, (places, place, near, found)) in LOOKED_FOR.iter().enumerate() {
        if found_in(alloc, places, *place, *near) != Some(*found) {
            return Some(number);
        }
    }
    None
}

// A block is looked for beside the one where the last place was, then where it is if places rise, and only then in all
// blocks. Where several have a place, the one that is found shows it.
#[test]
fn looks_for_a_place_near_the_last_one(rt: HostRuntime) {
    assert_eq!(rt; first_found_elsewhere(rt.alloc()), None);
}
