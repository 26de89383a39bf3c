//! What is done at a writer's queue, step by step, and how often something was sent by then.
use crate::counting::{Queue, Seen, ack, begin, refusal};
use node::Outgoing;
use std::alloc::Global;
use std::sync::Wait;
use wires_workers::WriterQueue;

/// What is done.
#[derive(Clone, Copy)]
pub(crate) enum Step {
    /// Who made the steps puts a frame that goes at once, and sends what waits.
    Put,
    /// The same for a peer that is behind.
    PutBehind,
    /// The same of an Ack, which waits a little for other frames.
    PutAck,
    /// The writer sends what waits.
    Write,
    /// The writer ends what it sends.
    End,
}

fn put<R: Wait>(rt: &R, queue: &Queue<'_>, outgoing: Outgoing, is_behind: bool) {
    queue.put(rt, &[outgoing], is_behind);
    queue.send(rt);
}

fn make<R: Wait>(rt: &R, queue: &Queue<'_>, step: Step) {
    match step {
        Step::Put => put(rt, queue, refusal(), false),
        Step::PutBehind => put(rt, queue, refusal(), true),
        Step::PutAck => put(rt, queue, ack(1), false),
        Step::Write => {
            queue.send_all(rt, true);
        }
        Step::End => {
            queue.finish(rt);
        }
    }
}

/// Makes steps at a queue on whose connection nothing waits, up to the first one behind which there weren't as many
/// sends in all as stands beside it. Returns how many steps came before that; None without memory.
pub(crate) fn right_steps<R: Wait>(
    rt: &R,
    alloc: Global,
    seen: &Seen,
    steps: &[(Step, u32)],
) -> Option<usize> {
    let queue = WriterQueue::new(alloc).ok()?;
    begin(rt, alloc, &queue, seen)?;
    for (place, (step, sends)) in steps.iter().enumerate() {
        make(rt, &queue, *step);
        if seen.sends() != *sends {
            return Some(place);
        }
    }
    Some(steps.len())
}
