//! Two federates that have nothing to do with each other run at the same time.
use crate::lines::{Case, EACH_WAY, Nodes, seen_in_memory};
use crate::tap::{Awaited, Tap};
use node::NodeId;
use std::sync::Wait;
use std::time::Clock;
use tests_samples::{APART, Machine};
use wires_workers::Point;

/// Each of two federates waits before it advances until the other has come too.
#[derive(Drop)]
struct Meeting {
    first: Awaited,
    second: Awaited,
}

impl Tap for Meeting {
    fn is_open(&self) -> bool {
        false
    }

    fn holds<R: Wait + Clock>(&self, rt: &R, node: NodeId, point: Point) {
        if point != Point::Advance {
            return;
        }
        match node {
            NodeId::Federate(0) => meet(rt, &self.first, &self.second),
            NodeId::Federate(_) => meet(rt, &self.second, &self.first),
            NodeId::Coordinator => {}
        }
    }
}

// One comes, and waits for the other.
fn meet<R: Clock>(rt: &R, own: &Awaited, other: &Awaited) {
    own.come();
    other.wait(rt);
}

// Whether both pass, and the run is right.
fn meets<R: Machine>(rt: &R, nodes: Nodes) -> bool {
    let meeting = Meeting {
        first: Awaited::new(),
        second: Awaited::new(),
    };
    match seen_in_memory(rt, &Case::ample(APART, nodes), &meeting) {
        Some(seen) => {
            seen.is_right && meeting.first.came_in_time() && meeting.second.came_in_time()
        }
        None => false,
    }
}

#[test]
fn advances_two_unconnected_federates_at_once(rt: HostRuntime) {
    for nodes in EACH_WAY {
        assert!(rt; meets(&rt, nodes), "{nodes:?}");
    }
}
