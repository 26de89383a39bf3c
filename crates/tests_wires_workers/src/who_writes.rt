//! Who made the steps writes what waits for a peer, unless that is behind: then it is left to the writer. On a
//! connection on which a send failed nobody writes.
use crate::counting::{Seen, begin};
use crate::nodes::{at, context_alone, federate};
use crate::said::{acknowledgement, came};
use crate::steps::{Step, right_steps};
use crate::taking_in::{TICKS, Workers, grant};
use desk::{Share, Shared};
use federate::Federate;
use node::NodeId;
use std::alloc::Global;
use std::sync::Wait;
use std::time::Clock;
use tests_samples::{Machine, loaded};
use wires_workers::{RetryState, WriterQueue};

// Nothing goes to a peer that is behind before the writer sends it, and no Ack alone before other frames.
#[test]
fn is_sent_by_who_asks_unless_the_peer_is_behind(rt: HostRuntime) {
    let steps = [
        (Step::Put, 1),
        (Step::PutBehind, 1),
        (Step::PutBehind, 1),
        (Step::Write, 2),
        (Step::PutAck, 2),
        (Step::Put, 3),
        (Step::PutAck, 3),
        (Step::Write, 4),
    ];
    let seen = Seen::new(false);
    assert_eq!(rt;
        right_steps(&rt, rt.alloc(), &seen, &steps),
        Some(steps.len())
    );
}

#[test]
fn cuts_a_connection_on_which_a_send_failed(rt: HostRuntime) {
    let steps = [(Step::Put, 1), (Step::Put, 1)];
    let seen = Seen::new(true);
    assert_eq!(rt;
        right_steps(&rt, rt.alloc(), &seen, &steps),
        Some(steps.len())
    );
    assert_eq!(rt; seen.cuts(), 1);
}

// How many sends there were after each of four times 64 turns, and once more behind an Ack of 700 signals.
fn sends_of<R: Wait + Clock>(
    rt: &R,
    alloc: Global,
    context: &Workers<'_, '_, '_>,
    seen: &Seen,
) -> [u32; 5] {
    let mut share = Share::new(alloc);
    let mut counts = [0; 5];
    context.hand_in(rt, alloc, &mut share, &[grant(at(1000))]);
    for time in 0..5 {
        if time == 4 {
            context.hand_in(rt, alloc, &mut share, &[came(0, acknowledgement(700))]);
        }
        context.take_turns(rt, alloc, &mut share, &mut RetryState::new(64));
        counts[time] = seen.sends();
    }
    counts
}

// The same of src.
fn sends_by<R: Wait + Clock>(
    rt: &R,
    alloc: Global,
    shared: &Shared<Federate<'_>>,
) -> Option<[u32; 5]> {
    let seen = Seen::new(false);
    let writers = [WriterQueue::new(alloc).ok()?];
    begin(rt, alloc, &writers[0], &seen)?;
    let context = context_alone(NodeId::Federate(0), shared, &writers, &seen.ending);
    Some(sends_of(rt, alloc, &context, &seen))
}

fn sends_of_src<R: Machine>(rt: &R) -> Option<[u32; 5]> {
    let federation = loaded(rt.alloc(), TICKS, "")?;
    let shared = federate(rt.alloc(), &federation)?;
    sends_by(rt, rt.alloc(), &shared)
}

// A turn says three signals, NET, MSG and LTC: so after the third time 576 aren't acknowledged, and after the last one
// 260.
#[test]
fn leaves_what_is_for_a_peer_with_512_signals_to_the_writer(rt: HostRuntime) {
    assert_eq!(rt; sends_of_src(&rt), Some([1, 2, 2, 2, 3]));
}
