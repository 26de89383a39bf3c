//! A node from its begin to its end, or until a call of its disk fails.
ghost use Rattle.std.specs.Prelude.{◌≡◌, false, IfOk};
ghost use Rattle.files_keeping.specs.Made.{memory_standing};
ghost use Rattle.node.specs.Step.{initial_of};
ghost use Rattle.tests_nodes.specs.Counting.{counting};

use crate::lent::Lent;
use desk::{Desk, Share, Shared, gather};
use fedrun_logs::{LogBarrier, LogFile, OpenedLog, begin_log, replay};
use files_keeping::{MemoryDevice, read_locked};
use files_logs::LogHead;
use files_reports::FileDigests;
use link::LinkEnd;
use node::{Event, Reply, Station};
use node_journal::Journal;
use signal::{Frame, Signal};
use std::alloc::{AllocError, Global};
use std::sync::Wait;
use tests_nodes::Counter;
use wires_hosts::Barrier;

/// How many events come to the node.
pub(crate) const EVENTS: usize = 12;

/// After which of them what they caused is to leave.
const LEAVES: [bool; EVENTS] = [
    true, false, true, false, false, true, true, false, true, false, false, true,
];

/// What came of a node.
#[derive(Clone, Copy, Debug, PartialEq, Eq)]
pub(crate) struct Life {
    /// How many events its log had as it began.
    pub(crate) begun: usize,
    /// How many events had come when something left it for the last time.
    pub(crate) left: usize,
    /// It has its end.
    pub(crate) is_ended: bool,
}

/// The head of its log.
pub(crate) fn head() -> LogHead {
    LogHead {
        files: FileDigests {
            federation: [3; 32],
            inputs: [5; 32],
        },
        who: 2,
        rules: 1,
    }
}

/// The event at a place: two turns' work, and then an announcement.
pub(crate) fn event_at(place: usize) -> Event {
    if place % 3 == 2 {
        Event::Announce
    } else {
        Event::Advance
    }
}

/// Whether these are the first events that come.
pub(crate) fn is_front(journal: &Journal) -> bool {
    let mut near = 0;
    for place in 0..journal.len() {
        if journal.event(place, &mut near) != event_at(place) {
            return false;
        }
    }
    journal.len() <= EVENTS
}

// The message that an event causes has this number: as many were sent before.
fn number_at(place: usize) -> Option<u16> {
    match event_at(place) {
        Event::Advance => u16::try_from(place - place / 3).ok(),
        _ => None,
    }
}

// The number of the message that a reply sends.
fn sent(reply: &Reply) -> Option<u16> {
    let Reply::Done(frames) = reply else {
        return None;
    };
    match frames.first()?.frame {
        Frame::Data {
            signal: Signal::Msg { connection, .. },
            ..
        } => Some(connection),
        _ => None,
    }
}

/// A station of which nothing was asked, with one peer.
pub(crate) fn station(alloc: Global) -> Result<Station<Counter>, AllocError>
    ensures { IfOk result (λ station. station ≡ initial_of counting station) }
{
    let mut ends = Vec::with_capacity(alloc, 1)?;
    ends.push(LinkEnd::new(alloc, 0, 1, 128))?;
    Ok(Station::new(alloc, Counter::new(), ends))
}

/// A node's life, with this disk. None where what it does isn't what a node does to which all these events came.
pub(crate) fn live<R: Wait>(rt: &R, alloc: Global, device: &mut MemoryDevice) -> Option<Life>
    requires { (memory_standing device.old).has_failed ≡ false }
{
    let none = Life {
        begun: 0,
        left: 0,
        is_ended: false,
    };
    let mut lent = Lent::new(device);
    let Ok(bytes) = read_locked(alloc, &mut lent) else {
        return Some(none);
    };
    let Ok(opened) = begin_log(alloc, lent, bytes.as_slice(), &head()) else {
        return Some(none);
    };
    go_on(rt, alloc, opened)
}

// A node goes on from its log, or begins.
fn go_on<R: Wait>(
    rt: &R,
    alloc: Global,
    opened: OpenedLog<Lent<'_, MemoryDevice>>,
) -> Option<Life> {
    let OpenedLog {
        journal,
        is_told,
        is_ended,
        file,
    } = opened;
    let begun = journal.len();
    if !is_front(&journal) || (is_told && begun < EVENTS) || (is_ended && !is_told) {
        return None;
    }
    let shared = Shared::new(Desk::new(alloc, station(alloc).ok()?));
    let replayed = replay(rt, alloc, &shared, &journal).ok()?;
    let barrier = LogBarrier::new(alloc, &shared, file);
    let mut share = Share::new(alloc);
    let left = work(rt, &shared, &barrier, &mut share, begun, is_told)?;
    let is_refused = barrier.has_failed();
    let file = barrier.into_file();
    if file.is_err() != is_refused || !is_gathered(alloc, shared, replayed, share) {
        return None;
    }
    Some(Life {
        begun,
        left,
        is_ended: match file {
            Ok(file) => end(alloc, file, is_ended),
            Err(_) => false,
        },
    })
}

// The rest of the events come. What they cause leaves as the barrier has it, until it refuses; then nothing does. How
// many events had come when something left for the last time, or None where the node sends what it doesn't.
fn work<R: Wait, B: Barrier>(
    rt: &R,
    shared: &Shared<Counter>,
    barrier: &B,
    share: &mut Share,
    begun: usize,
    is_told: bool,
) -> Option<usize> {
    let mut left = begun;
    for place in begun..EVENTS {
        let reply = shared.handle(rt, share, event_at(place)).ok()?;
        if sent(&reply) != number_at(place) {
            return None;
        }
        if !LEAVES[place] {
            continue;
        }
        match barrier.reach(rt) {
            Ok(()) => left = place.saturating_add(1),
            Err(_) => return if barrier.reach(rt).is_err() {
                Some(left)
            } else {
                None
            },
        }
    }
    if !is_told && barrier.tell(rt).is_err() && barrier.tell(rt).is_ok() {
        return None;
    }
    Some(left)
}

// Whether what was replayed and what came then are the desk's journal.
fn is_gathered(alloc: Global, shared: Shared<Counter>, replayed: Share, share: Share) -> bool {
    let mut shares = Vec::new(alloc);
    if shares.push(replayed).is_err() || shares.push(share).is_err() {
        return false;
    }
    gather(shared, shares).is_ok()
}

// Whether the log gets its end, or has it.
fn end(alloc: Global, file: LogFile<Lent<'_, MemoryDevice>>, is_ended: bool) -> bool {
    let mut file = file;
    if is_ended {
        file.bytes(alloc).is_ok()
    } else {
        file.end(alloc).is_ok()
    }
}
