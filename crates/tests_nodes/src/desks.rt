//! What two workers at one desk are answered, and its journal.
ghost use Rattle.std.specs.Prelude.{◌≡◌, IfOk};
ghost use Rattle.tests_nodes.specs.Counting.{counting};
ghost use Rattle.node.specs.Step.{initial_of};

use crate::counter::Counter;
use desk::{BatchReply, Desk, Share, Shared, TurnSteps, gather};
use link::LinkEnd;
use node::{Event, Reply, Station};
use signal::{Frame, Signal};
use std::alloc::{AllocError, Global};
use std::sync::Wait;
use std::test::Fail;
use std::thread::{Threads, join};

// A station of which nothing was asked, with one peer.
fn opened(alloc: Global) -> Result<Station<Counter>, AllocError>
    ensures { IfOk result (λ station. station ≡ initial_of counting station) }
{
    let mut ends = Vec::with_capacity(alloc, 1)?;
    ends.push(LinkEnd::new(alloc, 0, 1, 128))?;
    Ok(Station::new(alloc, Counter::new(), ends))
}

// The number by which a reply refuses, or that of the message that it sends; none where it does neither.
fn told(reply: &Reply) -> Option<u64> {
    match reply {
        Reply::Nothing => None,
        Reply::Refused(number, _) => Some(u64::from(*number)),
        Reply::Done(frames) => match frames.first()?.frame {
            Frame::Data {
                signal: Signal::Msg { connection, .. },
                ..
            } => Some(u64::from(connection)),
            _ => None,
        },
    }
}

// Hands in advances; the share, where each is answered the number of its place in the journal: the station numbers
// them.
fn advance<R: Wait>(rt: &R, alloc: Global, shared: &Shared<Counter>, count: u32) -> Option<Share> {
    let mut share = Share::new(alloc);
    for _ in 0..count {
        let sent = told(&shared.handle(rt, &mut share, Event::Advance).ok()?)?;
        if share.slips().last()?.place as u64 != sent {
            return None;
        }
    }
    Some(share)
}

// Two workers hand in advances at once.
fn by_two<R: Threads + Wait + Sync>(
    rt: &R,
    alloc: Global,
    shared: &Shared<Counter>,
    count: u32,
) -> (Option<Share>, Option<Share>) {
    join(
        rt,
        || advance(rt, alloc, shared, count),
        || advance(rt, alloc, shared, count),
    )
}

// How many events the journal has that is gathered from these shares; None where they disagree, or there was no memory.
fn gathered(alloc: Global, shared: Shared<Counter>, first: Share, second: Share) -> Option<usize> {
    let mut shares = Vec::with_capacity(alloc, 2).ok()?;
    shares.push(first).ok()?;
    shares.push(second).ok()?;
    let desk = gather(shared, shares).ok()?;
    Some(desk.journal().len())
}

// The same of what two workers hand in at once.
fn journaled<R: Threads + Wait + Sync>(rt: &R, alloc: Global, count: u32) -> Option<usize> {
    let shared = Shared::new(Desk::new(alloc, opened(alloc).ok()?));
    let (first, second) = by_two(rt, alloc, &shared, count);
    gathered(alloc, shared, first?, second?)
}

#[test]
fn tells_two_workers_their_places_in_the_journal(rt: HostRuntime) {
    assert_eq!(rt; journaled(&rt, rt.alloc(), 40), Some(80));
}

// Has this many events of turns made at once, and then as many once more. Returns what came of both, and how many
// events the journal has that is gathered then.
fn made_at_once<R: Wait>(
    rt: &R,
    alloc: Global,
    events: usize,
) -> Option<(TurnSteps, TurnSteps, usize)> {
    let shared = Shared::new(Desk::new(alloc, opened(alloc).ok()?));
    let mut share = Share::new(alloc);
    let mut replies = BatchReply::new(alloc);
    let mut desk = shared.lock(rt);
    let first = desk.handle_turns(&mut share, events, &mut replies);
    let second = desk.handle_turns(&mut share, events, &mut replies);
    desk.release();
    let journaled = gathered(alloc, shared, share, Share::new(alloc))?;
    Some((first, second, journaled))
}

// The steps of this many events, and whether the last turn did nothing.
fn steps(made: (usize, bool)) -> TurnSteps {
    let (events, is_idle) = made;
    TurnSteps { events, is_idle }
}

/// Of a node that sends a hundred messages, one a turn: how many events of turns are made at once, of how many of them
/// the steps are made at first and then, whether the last turn did nothing each time, and how many are journaled.
const MADE: [(usize, (usize, bool), (usize, bool), usize); 4] = [
    (120, (120, false), (82, true), 202),
    (1000, (202, true), (2, true), 204),
    (200, (200, false), (2, true), 202),
    (0, (0, false), (0, false), 0),
];

#[test]
fn makes_turns_up_to_the_first_that_does_nothing(rt: HostRuntime) {
    for (events, first, second, journaled) in &MADE {
        let expected = (steps(*first), steps(*second), *journaled);
        assert_eq!(rt;
            made_at_once(&rt, rt.alloc(), *events),
            Some(expected),
            "{events}"
        );
    }
}
