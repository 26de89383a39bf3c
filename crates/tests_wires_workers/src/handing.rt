//! What a worker hands on of what it hands in: the frames of all replies, also of those that refuse.
use crate::counting::{begin_on, queues};
use crate::nodes::{at, context_alone, coordinator};
use crate::said::{acknowledgement, came, data};
use coordinator::Coordinator;
use desk::{Share, Shared};
use node::{Event, NodeId};
use signal::{Frame, FrameReader, Signal};
use std::alloc::Global;
use std::sync::Wait;
use std::time::Clock;
use tests_samples::{COUNTER, Machine, loaded};
use wires_transports::{Connection, Ending, MemoryTransport, Transport, pair};
use wires_workers::Side;

// A NET, for which the coordinator grants a TAG, and then a TAG, which src of the counter never says.
fn next_and_tag() -> [Event; 2] {
    let next = Signal::Net(at(0).tag());
    let tag = Signal::Tag(at(0));
    [came(0, data(1, next)), came(0, data(2, tag))]
}

// What the coordinator says to that: acknowledgements are written last.
fn grant_and_refuse() -> [Frame; 3] {
    let grant = Signal::Tag(at(20));
    let refuse = Frame::Refuse {
        incarnation: 1,
        refusal: 75,
    };
    [data(1, grant), refuse, acknowledgement(1)]
}

// Whether these frames come to the other end of a connection, and nothing else.
fn receives<R: Wait>(
    rt: &R,
    alloc: Global,
    incoming: &mut MemoryTransport,
    frames: &[Frame],
) -> Option<bool> {
    let mut room = [0; 4096];
    let count = incoming.recv(rt, &mut room).ok()?;
    let mut reader = FrameReader::new(alloc);
    reader.feed(&room[..count]).ok()?;
    for frame in frames {
        if reader.next().ok()? != Some(*frame) {
            return Some(false);
        }
    }
    Some(reader.next().ok()?.is_none())
}

// Whether a coordinator says these frames to federate 0 where it gets these events.
fn handed_on<R: Wait + Clock>(
    rt: &R,
    alloc: Global,
    shared: &Shared<Coordinator<'_>>,
    events: &[Event],
    frames: &[Frame],
) -> Option<bool> {
    let (own, other) = pair(alloc).ok()?;
    let Connection { outgoing, cut, .. } = own;
    let Connection { mut incoming, .. } = other;
    let writers = queues(alloc, 2)?;
    let side = Side {
        transport: outgoing,
        cut,
    };
    begin_on(rt, alloc, writers.first()?, side);
    let ending = Ending::new();
    let context = context_alone(NodeId::Coordinator, shared, &writers, &ending);
    context.hand_in(rt, alloc, &mut Share::new(alloc), events);
    receives(rt, alloc, &mut incoming, frames)
}

// Whether the counter's coordinator hands that on.
fn grants_and_refuses<R: Machine>(rt: &R) -> Option<bool> {
    let federation = loaded(rt.alloc(), COUNTER, "")?;
    let shared = coordinator(rt.alloc(), &federation)?;
    handed_on(
        rt,
        rt.alloc(),
        &shared,
        &next_and_tag(),
        &grant_and_refuse(),
    )
}

#[test]
fn hands_on_a_grant_and_a_refusal(rt: HostRuntime) {
    assert_eq!(rt; grants_and_refuses(&rt), Some(true));
}
