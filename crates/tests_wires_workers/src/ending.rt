//! How a node ends what it sends: the run is to end before more is sent where the node is finished, and nobody sends
//! once the writer has ended.
use crate::counting::{Counted, Counting, Seen, begin};
use crate::nodes::{context_alone, coordinator};
use crate::said::{came, data};
use crate::steps::{Step, right_steps};
use coordinator::Coordinator;
use desk::{Share, Shared};
use node::{Event, NodeId};
use signal::Signal;
use std::alloc::Global;
use std::sync::Wait;
use std::time::Clock;
use tag::Tag;
use tests_samples::{COUNTER, Machine, loaded};
use wires_workers::{Context, NoGate, WriterQueue};

/// What the workers of a coordinator are passed.
type Workers<'a, 'f, 's> = Context<'a, Coordinator<'f>, NoGate, Counting<'s>, Counted<'s>>;

// The first thing that a federate says: nothing is left to it.
fn nothing_is_left(federate: usize) -> Event {
    let signal = Signal::Net(Tag::FOREVER);
    came(federate, data(1, signal))
}

// The coordinator greets federate 0, and then hears of both federates that nothing is left, and greets it once more.
fn finish<R: Wait + Clock>(rt: &R, alloc: Global, context: &Workers<'_, '_, '_>) {
    let mut share = Share::new(alloc);
    context.hand_in(rt, alloc, &mut share, &[Event::Hello(0)]);
    let first = nothing_is_left(0);
    let second = nothing_is_left(1);
    context.hand_in(rt, alloc, &mut share, &[first, second, Event::Hello(0)]);
}

// How often something was sent to federate 0 then, and how often when the run was to end.
fn sent_by<R: Wait + Clock>(
    rt: &R,
    alloc: Global,
    shared: &Shared<Coordinator<'_>>,
) -> Option<(u32, u32)> {
    let seen = Seen::new(false);
    let writers = [WriterQueue::new(alloc).ok()?, WriterQueue::new(alloc).ok()?];
    begin(rt, alloc, &writers[0], &seen)?;
    let context = context_alone(NodeId::Coordinator, shared, &writers, &seen.ending);
    finish(rt, alloc, &context);
    Some((seen.sends(), seen.last_sends()))
}

fn sent_by_the_coordinator<R: Machine>(rt: &R) -> Option<(u32, u32)> {
    let federation = loaded(rt.alloc(), COUNTER, "")?;
    let shared = coordinator(rt.alloc(), &federation)?;
    sent_by(rt, rt.alloc(), &shared)
}

// A send may wait for a peer that reads nothing: the run doesn't wait for it.
#[test]
fn ends_the_run_before_the_last_frames_are_sent(rt: HostRuntime) {
    assert_eq!(rt; sent_by_the_coordinator(&rt), Some((2, 1)));
}

// Its connection is let go: who makes a step behind that sends nothing.
#[test]
fn sends_nothing_once_the_writer_has_ended(rt: HostRuntime) {
    let steps = [(Step::Put, 1), (Step::End, 1), (Step::Put, 1)];
    let seen = Seen::new(false);
    assert_eq!(rt;
        right_steps(&rt, rt.alloc(), &seen, &steps),
        Some(steps.len())
    );
}
