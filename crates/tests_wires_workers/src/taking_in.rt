//! Turns that are made behind what a peer sent: as many as something is done in, and one more, where they are left, and
//! 256 at most. The runner is notified where it has more to do: turns, or its end.
use crate::counting::{Counted, Counting};
use crate::nodes::{at, context, federate};
use crate::said::{acknowledgement, came, data};
use desk::{Share, Shared};
use federate::Federate;
use node::{Event, NodeId};
use signal::Signal;
use std::alloc::Global;
use std::sync::Wait;
use std::time::Clock;
use tag::FiniteTag;
use tests_samples::{COUNTER, Machine, loaded};
use wires_transports::Ending;
use wires_workers::{Context, NoGate, WakeUps, runner};

/// Each of src's 1,001 ticks sends.
pub(crate) const TICKS: &str = r#"stop = "1 s"
[[federate]]
name = "src"
outputs = ["y"]
timers = [{ name = "t", period = "1 ms" }]
state = [{ name = "n", value = 0 }]
reaction = [{ triggers = ["t"], body = ["n = n + 1", "out.y = n"] }]
[[federate]]
name = "snk"
inputs = ["x"]
state = [{ name = "n", value = 0 }]
reaction = [{ triggers = ["x"], body = ["n = in.x"] }]
[[connection]]
from = "src.y"
to = "snk.x"
"#;

/// What the workers of a federate are passed.
pub(crate) type Workers<'a, 'f, 's> = Context<'a, Federate<'f>, NoGate, Counting<'s>, Counted<'s>>;

/// The grant up to a tag, as the first thing that comes to a federate.
pub(crate) fn grant(tag: FiniteTag) -> Event {
    let signal = Signal::Tag(tag);
    came(0, data(1, signal))
}

/// How many turns follow a frame, and whether the runner is notified.
type Followed = (u32, bool);

// What follows an event.
fn followed<R: Wait + Clock>(
    rt: &R,
    alloc: Global,
    context: &Workers<'_, '_, '_>,
    wake_ups: &WakeUps,
    share: &mut Share,
    event: Event,
) -> Followed {
    let taken_in = context.take_in(rt, alloc, share, &[event]);
    (taken_in.turns, wake_ups.take_waiting(rt).has_done)
}

/// What comes of a grant, then of an acknowledgement of the first announcement, and how many slips the reader has then.
type AllFollowed = (Followed, Followed, usize);

// The same of a federate whose runner has begun with this many turns and has ended.
fn all_followed<R: Wait + Clock>(
    rt: &R,
    alloc: Global,
    shared: &Shared<Federate<'_>>,
    granted: FiniteTag,
    turns: u32,
) -> Option<AllFollowed> {
    let wake_ups = WakeUps::new(alloc).ok()?;
    let ending = Ending::new();
    ending.set();
    let context: Workers<'_, '_, '_> = context(
        NodeId::Federate(0),
        shared,
        &NoGate,
        &[],
        Some(&wake_ups),
        &ending,
    );
    runner::run(rt, alloc, &context, &wake_ups, turns);
    let mut share = Share::new(alloc);
    let first = followed(rt, alloc, &context, &wake_ups, &mut share, grant(granted));
    let second = followed(
        rt,
        alloc,
        &context,
        &wake_ups,
        &mut share,
        came(0, acknowledgement(1)),
    );
    Some((first, second, share.slips().len()))
}

// The same of src of a federation.
fn all_followed_at_src<R: Machine>(
    rt: &R,
    text: &str,
    granted: FiniteTag,
    turns: u32,
) -> Option<AllFollowed> {
    let federation = loaded(rt.alloc(), text, "")?;
    let shared = federate(rt.alloc(), &federation)?;
    all_followed(rt, rt.alloc(), &shared, granted, turns)
}

/// How many turns are left to src of the counter that is granted all, and what follows. Each of the first three
/// announces a tag and makes its row; the next one announces that none is left, and the fifth does nothing. After the
/// acknowledgement one more does nothing.
const COUNTED: &[(u32, AllFollowed)] = &[
    (0, ((0, true), (0, false), 2)),
    (3, ((3, true), (0, true), 8)),
    (5, ((5, true), (0, true), 12)),
    (6, ((5, false), (1, true), 14)),
    (100, ((5, false), (1, false), 14)),
];

// Of a federation with 1,001 ticks no more turns are made at once.
#[test]
fn makes_turns_until_one_does_nothing(rt: HostRuntime) {
    for (turns, expected) in COUNTED {
        assert_eq!(rt;
            all_followed_at_src(&rt, COUNTER, at(20), *turns),
            Some(*expected)
        );
    }
    assert_eq!(rt;
        all_followed_at_src(&rt, TICKS, at(1000), 1000),
        Some(((256, true), (256, true), 1026))
    );
}
