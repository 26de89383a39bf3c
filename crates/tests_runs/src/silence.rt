//! A federate that hears nothing: after ten waits of its runner it greets and sends again what may be lost, and each
//! time after ten more. The numbers are those of docs/PROTOCOL.md, written out: a test that cited the constants of the
//! code would pass with any.
use crate::lines::{Case, Nodes, seen_in_memory};
use crate::tap::{End, Fate, Tap};
use node::Event;
use tests_samples::{Machine, SENDER};
use wires::Terms;
use wires_transports::times::{RUNNER_WAIT_MS, WAITS_BEFORE_RESEND};

const TERMS: Terms = Terms {
    turns: 205,
    frames: 2,
};

/// Loses all that is sent.
#[derive(Drop)]
struct Losing;

impl Tap for Losing {
    fn sends(&self, _end: End, _before: u64, _bytes: &[u8]) -> Fate {
        Fate::lost()
    }
}

// How many turns there are between the last two resendings of a journal; none where there are fewer, or one of the two
// doesn't stand right behind a greeting.
fn turns_between(journal: &[Event]) -> Option<usize> {
    let mut between = None;
    // Since the last resending, where that stands right behind a greeting.
    let mut turns: Option<usize> = None;
    let mut is_greeted = false;
    for event in journal {
        match event {
            Event::Announce => turns = turns.map(|count| count.saturating_add(1)),
            Event::Resend(0) if is_greeted => {
                between = turns;
                turns = Some(0);
            }
            Event::Resend(0) => {
                between = None;
                turns = None;
            }
            _ => {}
        }
        is_greeted = *event == Event::Hello(0);
    }
    between
}

// The same of a federate to which nothing comes. It has connected long before the last resendings.
fn turns_between_resendings<R: Machine>(rt: &R, nodes: Nodes) -> Option<usize> {
    let case = Case {
        federation: SENDER,
        nodes,
        terms: TERMS,
    };
    let seen = seen_in_memory(rt, &case, &Losing)?;
    turns_between(&seen.federates.first()?.events)
}

#[test]
fn sends_again_after_ten_waits(rt: HostRuntime) {
    let together = turns_between_resendings(&rt, Nodes::Together);
    let apart = turns_between_resendings(&rt, Nodes::Apart);
    let times = (RUNNER_WAIT_MS, WAITS_BEFORE_RESEND);
    assert_eq!(rt; (together, apart, times), (Some(10), Some(10), (10, 10)));
}
