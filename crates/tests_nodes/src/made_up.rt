//! Lists of made-up signals, among them such as nobody may send: whatever comes, what a coordinator and a federate send
//! is in order.
ghost use Rattle.std.specs.Prelude.{◌<◌};

use crate::joined::Chance;
use crate::stations::federate_station;
use crate::steps::at;
use coordinator::Coordinator;
use federate::Federate;
use node::{Event, Node, Outgoing, Reply, Station};
use plan::Plan;
use signal::{Frame, Signal};
use std::alloc::Global;
use tag::{FiniteTag, Tag};
use tests_samples::{COUNTER, Federation, with_loaded};
use world::new_coordinator;

/// Two federates, each of which sends to the other, one of them after a delay.
const BOTH_WAYS: &str = r#"stop = "20 ms"
federate = [
    { name = "a", inputs = ["x"], outputs = ["y"] },
    { name = "b", inputs = ["x"], outputs = ["y"] },
]
connection = [{ from = "a.y", to = "b.x" }, { from = "b.y", to = "a.x", after = "1 ms" }]
"#;

const MILLISECOND: u64 = 1_000_000;

const LISTS: u32 = 10_000;

/// How many events each list has.
const EVENTS: u32 = 24;

/// What is drawn for a station with one or two peers, and what it answers.
#[derive(Clone, Copy)]
struct Course {
    chance: Chance,
    /// The time of the last tag that was drawn for each peer, in ns.
    times: [u64; 2],
    /// The number of the last signal of each that was taken.
    taken: [u64; 2],
    /// The last tag that a coordinator granted to each, or a federate completed.
    reached: [Option<FiniteTag>; 2],
    /// How many tags were granted or completed in all lists, and how many messages sent.
    tags: usize,
    messages: usize,
}

impl Course {
    // A list begins, behind others with this many tags and messages.
    fn new(chance: Chance, tags: usize, messages: usize) -> Course {
        Course {
            chance,
            times: [0, 0],
            taken: [0, 0],
            reached: [None, None],
            tags,
            messages,
        }
    }

    // A tag one or two ms after a time, and at it once in this many times.
    fn tag_after(&mut self, time: u64, seldom: usize) -> FiniteTag
        requires { 0 < seldom }
    {
        let time = if self.chance.below(seldom) == 0 {
            time
        } else {
            time.saturating_add(MILLISECOND * (1 + self.chance.below(2) as u64))
        };
        at(time, self.chance.below(2) as u32)
    }

    // The next tag of a peer, later than those before it for the most part.
    fn next_tag(&mut self, peer: usize, seldom: usize) -> FiniteTag
        requires there { peer < 2 }
        requires seldom { 0 < seldom }
    {
        let tag = self.tag_after(self.times[peer], seldom);
        self.times[peer] = tag.tag().time();
        tag
    }

    // A message to the other peer, at about the tag that was granted to that one last.
    fn message_to_other(&mut self, peer: usize, connection: usize) -> Signal
        requires there { peer < 2 }
        requires connection { connection < 2 }
    {
        let time = match self.reached[1 - peer] {
            Some(tag) => tag.tag().time(),
            None => 0,
        };
        Signal::Msg {
            connection: connection as u16,
            tag: self.tag_after(time, 16),
            value: 1,
        }
    }

    // A peer's next signal.
    fn coming(&self, peer: usize, signal: Signal) -> Event
        requires { peer < 2 }
    {
        Event::Frame(
            peer,
            Frame::Data {
                incarnation: 1,
                number: self.taken[peer].saturating_add(1),
                signal,
            },
        )
    }

    // A signal goes out to a peer. Whether that is in order: the tags that are reached rise, and a message is later
    // than the last one before it.
    fn sends(&mut self, peer: usize, signal: Signal) -> bool
        requires { peer < 2 }
    {
        let last = self.reached[peer];
        match signal {
            Signal::Net(_) => true,
            Signal::Tag(tag) | Signal::Ltc(tag) => {
                self.reached[peer] = Some(tag);
                self.tags = self.tags.saturating_add(1);
                last < Some(tag)
            }
            Signal::Msg { tag, .. } => {
                self.messages = self.messages.saturating_add(1);
                last < Some(tag)
            }
        }
    }

    // A frame goes out. Whether that is in order.
    fn says(&mut self, outgoing: &Outgoing) -> bool {
        let peer = outgoing.peer;
        if peer >= 2 {
            return false;
        }
        match outgoing.frame {
            Frame::Data { signal, .. } => self.sends(peer, signal),
            Frame::Ack { last_taken, .. } => {
                self.taken[peer] = last_taken;
                true
            }
            _ => true,
        }
    }

    fn says_all(&mut self, frames: &[Outgoing]) -> bool {
        for outgoing in frames {
            if !self.says(outgoing) {
                return false;
            }
        }
        true
    }

    fn answers(&mut self, reply: &Reply) -> bool {
        match reply {
            Reply::Done(frames) => self.says_all(frames),
            _ => true,
        }
    }
}

/// A node for which events are drawn.
trait Drawn: Node {
    fn drawn(course: &mut Course) -> Event;
}

/// Two federates seldom lie: that ends what a coordinator hears of them.
impl<'a> Drawn for Coordinator<'a> {
    fn drawn(course: &mut Course) -> Event {
        let peer = course.chance.below(2);
        let tag = course.next_tag(peer, 16);
        let signal = match course.chance.below(64) {
            0 => Signal::Tag(tag),
            1 => Signal::Net(Tag::FOREVER),
            2 => course.message_to_other(peer, 1 - peer),
            3..22 => Signal::Net(tag.tag()),
            22..42 => Signal::Ltc(tag),
            _ => course.message_to_other(peer, peer),
        };
        course.coming(peer, signal)
    }
}

/// A coordinator may lie as often as it likes, and in between a federate makes its turns.
impl<'a> Drawn for Federate<'a> {
    fn drawn(course: &mut Course) -> Event {
        let tag = course.next_tag(0, 3);
        let signal = match course.chance.below(32) {
            0..8 => return Event::Announce,
            8..16 => return Event::Advance,
            16 => Signal::Net(tag.tag()),
            17 => Signal::Ltc(tag),
            18..25 => Signal::Tag(tag),
            kind => Signal::Msg {
                connection: (kind == 25) as u16,
                tag,
                value: 1,
            },
        };
        course.coming(0, signal)
    }
}

// Whether a station sends in order that gets a list of events.
fn is_in_order<N: Drawn>(station: &mut Station<N>, course: &mut Course) -> bool {
    for _ in 0..EVENTS {
        let event = N::drawn(course);
        let in_order = match station.step(event) {
            Ok(reply) => course.answers(&reply),
            Err(_) => false,
        };
        if !in_order {
            return false;
        }
    }
    true
}

// Whether a fresh coordinator does.
fn is_coordinator_in_order(alloc: Global, plan: &Plan, course: &mut Course) -> bool {
    *course = Course::new(course.chance, course.tags, course.messages);
    match new_coordinator(alloc, plan) {
        Ok(mut station) => is_in_order(&mut station, course),
        Err(_) => false,
    }
}

// Whether a fresh federate does, either of the two.
fn is_federate_in_order(alloc: Global, federation: &Federation, course: &mut Course) -> bool {
    *course = Course::new(course.chance, course.tags, course.messages);
    let number = course.chance.below(2) as u16;
    match federate_station(alloc, federation, number) {
        Some(mut station) => is_in_order(&mut station, course),
        None => false,
    }
}

// What came of all lists; None where a coordinator doesn't send in order.
fn course_of_coordinators(alloc: Global, plan: &Plan) -> Option<Course> {
    let mut course = Course::new(Chance(7), 0, 0);
    for _ in 0..LISTS {
        if !is_coordinator_in_order(alloc, plan, &mut course) {
            return None;
        }
    }
    Some(course)
}

// What came of all lists; None where a federate doesn't send in order.
fn course_of_federates(alloc: Global, federation: &Federation) -> Option<Course> {
    let mut course = Course::new(Chance(1), 0, 0);
    for _ in 0..LISTS {
        if !is_federate_in_order(alloc, federation, &mut course) {
            return None;
        }
    }
    Some(course)
}

// Whether there were so many tags and messages that lists show something.
fn is_full(course: Option<Course>, tags: usize, messages: usize) -> bool {
    match course {
        Some(course) => course.tags > tags && course.messages > messages,
        None => false,
    }
}

#[test]
fn a_coordinator_grants_and_sends_in_order_whatever_comes(rt: HostRuntime) {
    let alloc = rt.alloc();
    let course = with_loaded(alloc, BOTH_WAYS, "", |both| {
        course_of_coordinators(alloc, both.plan())
    });
    assert!(rt; is_full(course, 15_000, 40_000));
}

#[test]
fn a_federate_completes_and_sends_in_order_whatever_comes(rt: HostRuntime) {
    let alloc = rt.alloc();
    let course = with_loaded(alloc, COUNTER, "", |counter| {
        course_of_federates(alloc, counter)
    });
    assert!(rt; is_full(course, 10_000, 4_000));
}
