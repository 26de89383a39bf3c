//! A node that was killed, and goes on: the events of its log are handed in again.
ghost use Rattle.std.specs.Prelude.{◌≡◌, ◌++◌, ◌<◌, length, take, drop, IfOk, OnOk};
ghost use Rattle.node_journal.specs.Numbered.{events_of};

use desk::{BatchReply, DeskGuard, Memory, Share, Shared};
use node::Node;
use node_journal::{Batch, Journal};
use std::alloc::{AllocError, Global};
use std::sync::Wait;

/// Events that are handed in at once.
const AT_ONCE: usize = 1000;

/// Hands the events of a log in to a desk to which nothing came, before any worker does. They are a share of their own,
/// as those of a worker: its slips have them all, each once, in their order. What the node answers to them was said
/// before it was killed, or is said again once a connection begins.
pub fn replay<N: Node, R: Wait>(
    rt: &R,
    alloc: Global,
    shared: &Shared<N>,
    journal: &Journal,
) -> Result<Share, Memory>
    ensures { IfOk result (λ share. events_of share ≡ journal.now) }
{
    let mut share = Share::new(alloc);
    let mut desk = shared.lock(rt);
    let handed_in = hand_in_all(alloc, &mut desk, &mut share, journal);
    desk.release();
    match handed_in {
        Ok(()) => Ok(share),
        Err(memory) => Err(memory),
    }
}

// Hands all events in, some at once.
fn hand_in_all<N: Node>(
    alloc: Global,
    desk: &mut DeskGuard<'_, N>,
    share: &mut Share,
    journal: &Journal,
) -> Result<(), Memory>
    ensures { OnOk result (events_of share.new ≡ events_of share.old ++ journal.now) }
{
    let mut near = 0;
    let mut place = 0;
    while place < journal.len() {
        let events = events_from(alloc, journal, place, &mut near)?;
        hand_in(alloc, desk, share, &events)?;
        place += events.events().len();
    }
    Ok(())
}

// Some events from this place on, at least one.
fn events_from(
    alloc: Global,
    journal: &Journal,
    place: usize,
    near: &mut usize,
) -> Result<Batch, AllocError>
    requires { place < length journal.now }
    ensures events { IfOk result (λ events. events ≡ take (length events) (drop place journal.now)) }
    ensures some { IfOk result (λ events. 0 < length events) }
{
    let end = journal.len().min(place.saturating_add(AT_ONCE));
    let mut events = Vec::new(alloc);
    for next in place..end {
        events.push(journal.event(next, near))?;
    }
    Batch::new(alloc, &events)
}

// Hands events in. Each one's step is made, or there was no memory.
fn hand_in<N: Node>(
    alloc: Global,
    desk: &mut DeskGuard<'_, N>,
    share: &mut Share,
    events: &Batch,
) -> Result<(), Memory>
    ensures { OnOk result (events_of share.new ≡ events_of share.old ++ events.now) }
{
    let mut replies = BatchReply::new(alloc);
    let made = desk.handle_batch(share, events, &mut replies);
    if made < events.events().len() {
        return Err(Memory);
    }
    Ok(())
}
