//! Steps of a station as rows of a table, and how many of them it answers so.
use node::{Event, Node, Outgoing, Reply, Station};
use signal::{Frame, Hello, Signal};
use tag::{FiniteTag, Tag, Time};

/// A signal; its tag as a time in ns and a microstep. Each message has the value 1.
#[derive(Clone, Copy)]
pub(crate) enum Said {
    /// NET(FOREVER)
    Forever,
    Net(u64, u32),
    Ltc(u64, u32),
    Tag(u64, u32),
    /// Over a connection of this number.
    Msg(u16, u64, u32),
}

impl Said {
    fn signal(self) -> Signal {
        match self {
            Said::Forever => Signal::Net(Tag::FOREVER),
            Said::Net(time, microstep) => Signal::Net(at(time, microstep).tag()),
            Said::Ltc(time, microstep) => Signal::Ltc(at(time, microstep)),
            Said::Tag(time, microstep) => Signal::Tag(at(time, microstep)),
            Said::Msg(connection, time, microstep) => Signal::Msg {
                connection,
                tag: at(time, microstep),
                value: 1,
            },
        }
    }
}

/// A tag at a time in ns.
pub(crate) fn at(time: u64, microstep: u32) -> FiniteTag {
    FiniteTag::new(Time::new(time).unwrap_or(Time::zero()), microstep)
}

/// A frame between a station and a peer, of the first incarnation where it names none.
#[derive(Clone, Copy)]
pub(crate) enum Part {
    Ack(u64),
    Data(u64, Said),
    /// Of an incarnation, to which it says this number.
    Refuse(u32, u16),
    /// Of federate 0 in an incarnation, which has taken nothing.
    Hello(u32),
}

impl Part {
    fn frame(self) -> Frame {
        match self {
            Part::Ack(last_taken) => Frame::Ack {
                incarnation: 1,
                last_taken,
            },
            Part::Data(number, said) => Frame::Data {
                incarnation: 1,
                number,
                signal: said.signal(),
            },
            Part::Refuse(incarnation, refusal) => Frame::Refuse {
                incarnation,
                refusal,
            },
            Part::Hello(incarnation) => Frame::Hello(Hello {
                federate: 0,
                incarnation,
                last_taken: 0,
            }),
        }
    }
}

/// What comes to a station.
#[derive(Clone, Copy)]
pub(crate) enum Coming {
    Announce,
    Advance,
    From(usize, Part),
}

impl Coming {
    fn event(self) -> Event {
        match self {
            Coming::Announce => Event::Announce,
            Coming::Advance => Event::Advance,
            Coming::From(peer, part) => Event::Frame(peer, part.frame()),
        }
    }
}

/// What comes to a station, by which number it refuses that, and which frames it sends to whom.
pub(crate) type Step = (Coming, Option<u16>, &'static [(usize, Part)]);

fn is_sent(outgoing: &Outgoing, expected: &(usize, Part)) -> bool {
    outgoing.peer == expected.0 && outgoing.frame == expected.1.frame()
}

// No step of a table sends more than two frames.
fn are_sent(frames: &[Outgoing], expected: &[(usize, Part)]) -> bool {
    match (frames, expected) {
        ([], []) => true,
        ([one], [part]) => is_sent(one, part),
        ([one, other], [part, more]) => is_sent(one, part) && is_sent(other, more),
        _ => false,
    }
}

// A step that changes nothing, sends nothing and refuses nothing answers so.
fn is_answer(reply: &Reply, refusal: Option<u16>, expected: &[(usize, Part)]) -> bool {
    match reply {
        Reply::Nothing => refusal.is_none() && expected.is_empty(),
        Reply::Done(frames) => {
            refusal.is_none() && !expected.is_empty() && are_sent(frames, expected)
        }
        Reply::Refused(number, frames) => refusal == Some(*number) && are_sent(frames, expected),
    }
}

/// How many of these steps, one after the other, are answered so before one isn't; None where there is no memory.
pub(crate) fn answered<N: Node>(station: &mut Station<N>, steps: &[Step]) -> Option<usize> {
    for (place, (coming, refusal, expected)) in steps.iter().enumerate() {
        let reply = station.step(coming.event()).ok()?;
        if !is_answer(&reply, *refusal, expected) {
            return Some(place);
        }
    }
    Some(steps.len())
}
