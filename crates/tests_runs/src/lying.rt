//! A federate that the coordinator refuses, since it lies: in the place of its message goes what it never says, or what
//! it may not say any more, once its receiver was granted more. It hears of that and connects no more. Its run is at its
//! end then where it runs by itself, and no other's is. Where the Refuse is lost with its connection, it isn't sent
//! again: the federate goes on until its turns are used up. The receiver gets nothing of it, nobody believes it, and no
//! row is printed.
use crate::federations::LATE;
use crate::lines::{Case, EACH_WAY, Nodes, seen_in_memory};
use crate::nodes::SNK;
use crate::seen::{NodeSeen, Seen, first_wrong};
use crate::tap::{Awaited, End, Fate, Tap, frames_of, is_message};
use node::{Event, NodeId};
use signal::{Frame, Signal};
use std::alloc::Global;
use std::sync::Wait;
use std::sync::atomic::{AtomicBool, AtomicU64, Ordering};
use std::time::Clock;
use tag::{FiniteTag, Time};
use tests_samples::Machine;
use wires::Terms;
use wires_workers::Point;

/// How many turns each federate has: ample for what is asked, and used up within 3 s of idle turns.
const TURNS: u32 = 300;

const TERMS: Terms = Terms {
    turns: TURNS,
    frames: 2,
};

/// The federate that lies.
const SRC: usize = 0;

/// What goes in the place of src's message, as its second signal.
#[derive(Clone, Copy, Debug)]
enum Lie {
    /// A TAG, which no federate says.
    Tag,
    /// A message for 40 ms.
    Early,
}

/// TAG(0, 0).
const TAG: &[u8] = &[
    0, 0, 0, 26, 2, 0, 0, 0, 1, 0, 0, 0, 0, 0, 0, 0, 2, 3, 0, 0, 0, 0, 0, 0, 0, 0, 0, 0, 0, 0,
];

/// MSG(40 ms).
const EARLY: &[u8] = &[
    0, 0, 0, 36, 2, 0, 0, 0, 1, 0, 0, 0, 0, 0, 0, 0, 2, 4, 0, 0, 0, 0, 0, 0, 2, 98, 90, 0, 0, 0, 0,
    0, 0, 0, 0, 0, 0, 0, 0, 1,
];

// A tag in the first microstep of a time.
fn at(nanoseconds: u64) -> FiniteTag {
    FiniteTag::new(Time::new(nanoseconds).unwrap_or(Time::zero()), 0)
}

impl Lie {
    fn bytes(self) -> &'static [u8] {
        match self {
            Lie::Tag => TAG,
            Lie::Early => EARLY,
        }
    }

    // The same as a signal.
    fn signal(self) -> Signal {
        match self {
            Lie::Tag => Signal::Tag(at(0)),
            Lie::Early => Signal::Msg {
                connection: 0,
                tag: at(40_000_000),
                value: 1,
            },
        }
    }

    // What comes of it to the coordinator, and to src as the answer.
    fn events(self) -> (Event, Event) {
        let signal = self.signal();
        let lied = Frame::Data {
            incarnation: 1,
            number: 2,
            signal,
        };
        let refused = Frame::Refuse {
            incarnation: 1,
            refusal: match self {
                Lie::Tag => 75,
                Lie::Early => 71,
            },
        };
        (Event::Frame(SRC, lied), Event::Frame(0, refused))
    }
}

/// Has src lie. It is held before each of its advances until a TAG has come to snk. The connection on which the Refuse
/// is sent breaks: after it came, or before it goes.
#[derive(Drop)]
struct Lying {
    alloc: Global,
    lie: Lie,
    loses_refuse: bool,
    grant: Awaited,
    /// Whether the Refuse has come to src.
    is_told: AtomicBool,
    connections: AtomicU64,
}

fn is_refuse(frame: &Frame) -> bool {
    matches!(frame, Frame::Refuse { .. })
}

fn is_grant(frame: &Frame) -> bool {
    matches!(
        frame,
        Frame::Data {
            signal: Signal::Tag(_),
            ..
        }
    )
}

impl Tap for Lying {
    fn connects(&self, federate: usize) -> bool {
        if federate == SRC {
            self.connections.fetch_add(1, Ordering::SeqCst);
        }
        true
    }

    fn sends(&self, end: End, _before: u64, bytes: &[u8]) -> Fate {
        if end.federate != SRC {
            return Fate::whole();
        }
        let Some(frames) = frames_of(self.alloc, bytes) else {
            return Fate::whole();
        };
        if end.is_own && frames.iter().any(is_message) {
            return Fate {
                goes: 0,
                ..Fate::followed(self.lie.bytes())
            };
        }
        if self.loses_refuse && !end.is_own && frames.iter().any(is_refuse) {
            return Fate::broken(0);
        }
        Fate::whole()
    }

    fn breaks(&self, end: End) -> bool {
        end.federate == SRC && end.is_own && self.is_told.load(Ordering::SeqCst)
    }

    fn comes(&self, end: End, frame: &Frame) {
        if end.federate == SRC && end.is_own && is_refuse(frame) {
            self.is_told.store(true, Ordering::SeqCst);
        }
        if end.federate == SNK && end.is_own && is_grant(frame) {
            self.grant.come();
        }
    }

    fn is_open(&self) -> bool {
        false
    }

    fn holds<R: Wait + Clock>(&self, rt: &R, node: NodeId, point: Point) {
        if node == NodeId::Federate(SRC) && point == Point::Advance {
            self.grant.wait(rt);
        }
    }
}

impl Lying {
    // Whether src connected as often as it has to: where it hears of the refusal, once, though its connection breaks.
    fn has_connected_so(&self) -> bool {
        let connections = self.connections.load(Ordering::SeqCst);
        if self.loses_refuse {
            connections >= 5
        } else {
            connections == 1
        }
    }

    // Whether a run has ended as it has to, where src and snk made so many turns: of nodes together by the turns of one
    // of them; else src's before its turns were made, where it hears of the refusal, and snk's by its turns.
    fn has_ended_so(&self, nodes: Nodes, src: usize, snk: usize) -> bool {
        let all = TURNS as usize;
        match nodes {
            _ if self.loses_refuse => true,
            Nodes::Apart => src < all && snk == all,
            _ => src == all || snk == all,
        }
    }

    // The first thing that isn't so after a run of these nodes; None where all is.
    fn wrong_in(&self, nodes: Nodes, seen: &Seen) -> Option<&'static str> {
        let (Some(src), Some(snk)) = (seen.federates.get(SRC), seen.federates.get(SNK)) else {
            return Some("there are two federates");
        };
        let (lied, refused) = self.lie.events();
        let is_told = src.count_of(&refused) > 0;
        first_wrong(&[
            (self.grant.came_in_time(), "snk is granted before src sends"),
            (seen.coordinator.count_of(&lied) > 0, "it lies"),
            (
                is_told != self.loses_refuse,
                "src hears of it unless that is lost",
            ),
            (src.closed == [is_told, false], "src's end is closed then"),
            (
                seen.coordinator.closed == [true, false],
                "src is refused, and snk isn't",
            ),
            (snk.rows == 1, "snk has run 50 ms alone"),
            (!has_message(snk), "no message comes to snk"),
            (!seen.is_finished, "nobody is finished"),
            (self.has_connected_so(), "src connects"),
            (
                self.has_ended_so(
                    nodes,
                    src.count_of(&Event::Announce),
                    snk.count_of(&Event::Announce),
                ),
                "the run ends",
            ),
            (
                seen.is_disbelieved,
                "nobody believes it, and no row is printed",
            ),
        ])
    }
}

// Whether a message came to a node.
fn has_message(node: &NodeSeen) -> bool {
    node.events.iter().any(|event| matches!(event, Event::Frame(_, frame) if is_message(frame)))
}

// What isn't so after a run in which src lies so; None where all is.
fn wrong<R: Machine>(rt: &R, nodes: Nodes, lie: Lie, loses_refuse: bool) -> Option<&'static str> {
    let lying = Lying {
        alloc: rt.alloc(),
        lie,
        loses_refuse,
        grant: Awaited::new(),
        is_told: AtomicBool::new(false),
        connections: AtomicU64::new(0),
    };
    let case = Case {
        federation: LATE,
        nodes,
        terms: TERMS,
    };
    match seen_in_memory(rt, &case, &lying) {
        Some(seen) => lying.wrong_in(nodes, &seen),
        None => Some("it runs"),
    }
}

// The same, however nodes run.
fn wrong_either_way<R: Machine>(
    rt: &R,
    lie: Lie,
    loses_refuse: bool,
) -> Option<(Nodes, &'static str)> {
    for nodes in EACH_WAY {
        if let Some(what) = wrong(rt, nodes, lie, loses_refuse) {
            return Some((nodes, what));
        }
    }
    None
}

#[test]
fn refuses_a_message_at_or_below_what_its_receiver_was_granted(rt: HostRuntime) {
    assert_eq!(rt; wrong_either_way(&rt, Lie::Early, false), None);
}

// Where the Refuse is lost, the coordinator ends each of its later connections at once.
#[test]
fn connects_no_more_once_it_hears_that_it_is_refused(rt: HostRuntime) {
    for loses_refuse in [false, true] {
        assert_eq!(rt;
            wrong_either_way(&rt, Lie::Tag, loses_refuse),
            None,
            "{loses_refuse}"
        );
    }
}
