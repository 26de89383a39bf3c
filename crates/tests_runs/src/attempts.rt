//! Attempts to connect that come to nothing count as turns: where no connection is made, and where no frame comes on
//! one.
use crate::lines::{Case, EACH_WAY, Nodes, seen_in_memory};
use crate::tap::{Awaited, End, Tap};
use node::{Event, NodeId};
use std::sync::Wait;
use std::sync::atomic::{AtomicU64, Ordering};
use std::time::Clock;
use tests_samples::{Machine, SENDER};
use wires::Terms;
use wires_workers::Point;

/// Far more turns than attempts that are waited for, so that one is left where these come fast.
const TERMS: Terms = Terms {
    turns: 100,
    frames: 2,
};

/// How many attempts come to nothing before the federate's first turn.
const ATTEMPTS: u64 = 3;

/// Lets no attempt come to anything. The federate's first turn waits until this many have come to nothing.
#[derive(Drop)]
struct InVain {
    /// Whether a connection is made, on which nothing comes.
    connects: bool,
    attempts: AtomicU64,
    enough: Awaited,
}

impl Tap for InVain {
    // The runner was told of an attempt before the next one is made.
    fn connects(&self, _federate: usize) -> bool {
        if self.attempts.fetch_add(1, Ordering::SeqCst) == ATTEMPTS {
            self.enough.come();
        }
        self.connects
    }

    fn breaks(&self, end: End) -> bool {
        end.is_own
    }

    fn is_open(&self) -> bool {
        false
    }

    fn holds<R: Wait + Clock>(&self, rt: &R, _node: NodeId, point: Point) {
        if point == Point::Announce {
            self.enough.wait(rt);
        }
    }
}

// How many turns a federate makes before these and its attempts to connect are as many as it has; None where the run is
// finished, or its first turn waited in vain.
fn turns_beside_attempts<R: Machine>(rt: &R, nodes: Nodes, connects: bool) -> Option<usize> {
    let in_vain = InVain {
        connects,
        attempts: AtomicU64::new(0),
        enough: Awaited::new(),
    };
    let case = Case {
        federation: SENDER,
        nodes,
        terms: TERMS,
    };
    let seen = seen_in_memory(rt, &case, &in_vain)?;
    if seen.is_finished || !in_vain.enough.came_in_time() {
        None
    } else {
        Some(seen.federates.first()?.count_of(&Event::Announce))
    }
}

// Three attempts or more are turns of the hundred, so at most 97 are made otherwise, and one at least, in which the
// attempts came. How nodes run that make another count, whether a connection is made, and the count.
fn exception<R: Machine>(rt: &R) -> Option<(Nodes, bool, Option<usize>)> {
    for nodes in EACH_WAY {
        for connects in [false, true] {
            let turns = turns_beside_attempts(rt, nodes, connects);
            if !matches!(turns, Some(1..=97)) {
                return Some((nodes, connects, turns));
            }
        }
    }
    None
}

#[test]
fn counts_attempts_that_come_to_nothing_as_turns(rt: HostRuntime) {
    assert_eq!(rt; exception(&rt), None);
}
