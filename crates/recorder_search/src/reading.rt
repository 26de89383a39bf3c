//! Reading journals, with a step maker.
ghost use Rattle.std.specs.Prelude.{◌≡◌, ◌≢◌, ℕ, ◌<◌, ◌≤◌, true, false, length, get_or, slice_get, map, [], replicate};
ghost use Rattle.std.specs.Prelude.{IfOk, OnOk};
ghost use Rattle.recorder_search.specs.Journals.{node_at};
ghost use Rattle.recorder_search.specs.Reading.{GoesOn, IsBlocked, IsFirstUnread, IsReading};

use crate::memory::Memory;
use crate::step_maker::StepMaker;
use node::{Event, NodeId};
use node_journal::Journal;
use std::alloc::Global;

// Events of one journal that are read before the next journal is, at most.
const AT_ONCE: usize = 64;

/// The node of a place among the journals.
pub(crate) fn node_at(place: usize) -> NodeId
    ensures { result ≡ node_at place }
{
    match place.checked_sub(1) {
        Some(federate) => NodeId::Federate(federate),
        None => NodeId::Coordinator,
    }
}

// The next event of the journal at a place.
fn next_event(
    journals: &[&Journal],
    read: &[usize],
    near: &mut [usize],
    place: usize,
) -> Option<Event>
    requires { place < length read.now }
    ensures event { result ≡ slice_get (get_or (map (λ j. j.now) journals.now) place []) (get_or read.now place 0) }
    ensures small { result ≢ None → get_or read.now place 0 < usize.MAX }
{
    nth_event(journals.get(place)?, read[place], near, place)
}

// The event of a journal at a place, counted from 0, looked for near a block.
fn nth_event(journal: &Journal, event: usize, near: &mut [usize], place: usize) -> Option<Event>
    ensures event { result ≡ slice_get journal.now event }
    ensures small { result ≢ None → event < usize.MAX }
{
    if event < journal.len() {
        match near.get_mut(place) {
            Some(block) => journal.get(event, block),
            None => {
                let mut block = 0;
                journal.get(event, &mut block)
            }
        }
    } else {
        None
    }
}

// Reads the next event of the journal at a place, if the step maker has a step that is that event.
fn read_one<M: StepMaker>(
    step_maker: &mut M,
    journals: &[&Journal],
    read: &mut [usize],
    near: &mut [usize],
    place: usize,
    exact: bool,
) -> Result<bool, Memory>
    requires { place < length read.old }
    ensures goes_on { IfOk result (λ moved.
        GoesOn M.motion (map (λ j. j.now) journals.now) (record { state = step_maker.old; read = read.old })
        (record { state = step_maker.new; read = read.new }) moved) }
    ensures blocked { IfOk result (λ moved. moved ≡ false → exact ≡ true
        → IsBlocked M.motion (map (λ j. j.now) journals.now)
        (record { state = step_maker.old; read = read.old }) place) }
{
    let Some(event) = next_event(journals, read, near, place) else {
        return Ok(false);
    };
    let Some(_) = step_maker.place(node_at(place), event, exact)? else {
        return Ok(false);
    };
    read[place] += 1;
    Ok(true)
}

// Reads the journal at a place, as far as it goes now, but at most this many events at once: what a node sent is still
// near when another one takes it in.
fn read_on<M: StepMaker>(
    step_maker: &mut M,
    journals: &[&Journal],
    read: &mut [usize],
    near: &mut [usize],
    place: usize,
    exact: bool,
) -> Result<bool, Memory>
    requires { place < length read.old }
    ensures goes_on { IfOk result (λ moved.
        GoesOn M.motion (map (λ j. j.now) journals.now) (record { state = step_maker.old; read = read.old })
        (record { state = step_maker.new; read = read.new }) moved) }
    ensures blocked { IfOk result (λ moved. moved ≡ false → exact ≡ true
        → IsBlocked M.motion (map (λ j. j.now) journals.now)
        (record { state = step_maker.old; read = read.old }) place) }
{
    if !read_one(step_maker, journals, read, near, place, exact)? {
        return Ok(false);
    }
    for _ in 1..AT_ONCE {
        if !read_one(step_maker, journals, read, near, place, exact)? {
            break;
        }
    }
    Ok(true)
}

/// Reads each journal once, as far as it goes then.
pub(crate) fn round<M: StepMaker>(
    step_maker: &mut M,
    journals: &[&Journal],
    read: &mut [usize],
    near: &mut [usize],
    exact: bool,
) -> Result<bool, Memory>
    ensures goes_on { IfOk result (λ moved.
        GoesOn M.motion (map (λ j. j.now) journals.now) (record { state = step_maker.old; read = read.old })
        (record { state = step_maker.new; read = read.new }) moved) }
    ensures blocked { IfOk result (λ moved. moved ≡ false → exact ≡ true → (place : ℕ) → place < length read.old
        → IsBlocked M.motion (map (λ j. j.now) journals.now)
        (record { state = step_maker.old; read = read.old }) place) }
{
    let mut moved = false;
    for place in 0..read.len() {
        if read_on(step_maker, journals, read, near, place, exact)? {
            moved = true;
        }
    }
    Ok(moved)
}

/// The first node whose journal isn't used up, and its next event, counted from 1.
pub(crate) fn first_unread(
    journals: &[&Journal],
    read: &[usize],
    near: &mut [usize],
) -> Option<(NodeId, usize)>
    requires { length read.now ≡ length journals.now }
    ensures { IsFirstUnread (map (λ j. j.now) journals.now) read.now result }
{
    for place in 0..read.len() {
        if let Some(_) = next_event(journals, read, near, place) {
            return Some((node_at(place), read[place] + 1));
        }
    }
    None
}

/// Reads all journals, as far as they go: by guesses, and exactly where no guess is right.
pub(crate) fn read_all<M: StepMaker>(
    step_maker: &mut M,
    journals: &[&Journal],
    read: &mut [usize],
    near: &mut [usize],
) -> Result<(), Memory>
    ensures reading { OnOk result ((initial : M)
        → IsReading M.motion initial (map (λ j. j.now) journals.now)
        (record { state = step_maker.old; read = read.old })
        → IsReading M.motion initial (map (λ j. j.now) journals.now)
        (record { state = step_maker.new; read = read.new })) }
    ensures blocked { OnOk result ((place : ℕ) → place < length read.old
        → IsBlocked M.motion (map (λ j. j.now) journals.now)
        (record { state = step_maker.new; read = read.new }) place) }
{
    while round(step_maker, journals, read, near, false)?
        || round(step_maker, journals, read, near, true)?
    {}
    Ok(())
}

/// Reads all journals, as far as guesses go.
pub(crate) fn read_by_guesses<M: StepMaker>(
    step_maker: &mut M,
    journals: &[&Journal],
    read: &mut [usize],
    near: &mut [usize],
) -> Result<(), Memory>
    ensures reading { OnOk result ((initial : M)
        → IsReading M.motion initial (map (λ j. j.now) journals.now)
        (record { state = step_maker.old; read = read.old })
        → IsReading M.motion initial (map (λ j. j.now) journals.now)
        (record { state = step_maker.new; read = read.new })) }
{
    while round(step_maker, journals, read, near, false)? {}
    Ok(())
}

/// Of no journal anything is read.
pub(crate) fn none_read(alloc: Global, count: usize) -> Result<Vec<usize>, Memory>
    ensures { IfOk result (λ read. read.items ≡ replicate count 0) }
{
    Ok(Vec::from_elem(alloc, 0, count)?)
}
