//! What is done beside the threads of a run: what its nodes write down is read, and steps are made for it ahead.
ghost use Rattle.std.specs.Prelude.{◌≡◌};

use desk::Shared;
use fedrun_progress::Progress;
use node::{Event, Node, NodeId};
use node_journal::Journal;
use recorder::IncrementalAudit;
use signal::{Frame, Signal};
use std::alloc::Global;
use std::sync::Wait;
use std::thread;
use std::time::{Clock, Duration};
use wires::Nodes;
use wires_transports::times::AUDIT_PAUSE_MS;

// How many events are copied at once while a node's lock is held.
const AT_ONCE: usize = 16_384;

/// Reads what the nodes write down, and makes steps for it; when the run is to end, it only reads what is left. Nothing
/// rests on how much of it is read.
pub(crate) fn watch<'a, R: Wait + Clock, H: Node, M: Node, P: Progress>(
    rt: &R,
    alloc: Global,
    nodes: &Nodes<H, M>,
    mut audit: IncrementalAudit<'a>,
    progress: &P,
) -> IncrementalAudit<'a>
    ensures { result ≡ audit.entry }
{
    let mut events = Journal::new(alloc);
    for _ in rt.forever() {
        if audit.is_given_up() {
            break;
        }
        let is_ending = nodes.ending.is_set();
        let is_new = look(rt, nodes, &mut audit, &mut events, progress);
        if !is_ending {
            if is_new {
                audit.go_on(alloc);
            } else {
                thread::sleep(rt, Duration::from_millis(AUDIT_PAUSE_MS));
            }
        } else if !is_new {
            break;
        }
    }
    audit
}

// Takes in what the nodes wrote down since. Returns whether that is anything.
fn look<R: Wait, H: Node, M: Node, P: Progress>(
    rt: &R,
    nodes: &Nodes<H, M>,
    audit: &mut IncrementalAudit<'_>,
    events: &mut Journal,
    progress: &P,
) -> bool
    ensures { audit.new ≡ audit.old }
{
    let mut is_new = take(rt, &nodes.coordinator, NodeId::Coordinator, audit, events);
    if is_new {
        tell(events, progress);
    }
    for (number, federate) in nodes.federates.iter().enumerate() {
        if take(rt, federate, NodeId::Federate(number), audit, events) {
            is_new = true;
        }
    }
    is_new
}

// Takes in what a node wrote down since. Returns whether that is anything.
fn take<N: Node, R: Wait>(
    rt: &R,
    shared: &Shared<N>,
    node: NodeId,
    audit: &mut IncrementalAudit<'_>,
    events: &mut Journal,
) -> bool
    ensures { audit.new ≡ audit.old }
{
    events.clear();
    let copied = shared.copy_events(rt, audit.known(node), AT_ONCE, events);
    copied.is_ok() && events.len() > 0 && audit.add(node, events).is_ok()
}

// Tells how many rows federates have completed by what the coordinator hears. One that is heard of twice counts twice.
fn tell<P: Progress>(events: &Journal, progress: &P) {
    let mut block = 0;
    for place in 0..events.len() {
        tell_of(&events.event(place, &mut block), progress);
    }
}

// Tells of the row that a federate has completed, where the coordinator hears of one by this event.
fn tell_of<P: Progress>(event: &Event, progress: &P) {
    if let Event::Frame(
        _,
        Frame::Data {
            signal: Signal::Ltc(tag),
            ..
        },
    ) = event
    {
        progress.rows(1, tag.tag());
    }
}
