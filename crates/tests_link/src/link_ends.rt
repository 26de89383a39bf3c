//! Link ends by worked examples.
use link::{Arrival, LinkEnd, LinkFault};
use signal::{Frame, Hello, Signal};
use std::alloc::Global;
use std::test::Fail;
use tag::{FiniteTag, Time};

// The signals differ by their connection.
fn signal(connection: u16) -> Signal {
    Signal::Msg {
        connection,
        tag: FiniteTag::new(Time::new(0).unwrap(), 0),
        value: -1,
    }
}

// Of the first incarnation, as are all frames here but one.
fn data(number: u64, connection: u16) -> Frame {
    Frame::Data {
        incarnation: 1,
        number,
        signal: signal(connection),
    }
}

fn ack(last_taken: u64) -> Frame {
    Frame::Ack {
        incarnation: 1,
        last_taken,
    }
}

fn hello(federate: u16, last_taken: u64) -> Frame {
    Frame::Hello(Hello {
        federate,
        incarnation: 1,
        last_taken,
    })
}

fn refuse(refusal: u16) -> Frame {
    Frame::Refuse {
        incarnation: 1,
        refusal,
    }
}

/// What an end of federate 4 has to do.
#[derive(Clone, Copy)]
enum Step {
    /// A signal is offered, and goes out in this frame.
    Offered(u16, Frame),
    /// A signal is offered, and refused.
    NotOffered(u16, LinkFault),
    /// A frame comes, is this to the end, and is taken in.
    Came(Frame, Arrival),
    /// A frame comes, and is refused.
    Refused(Frame, LinkFault),
    /// How many signals may be offered and how many are kept.
    Left(usize, usize),
    /// What it greets with and what it acknowledges.
    Says(Option<Frame>, Frame),
    /// This many frames are sent again, of which this is the first.
    Resends(usize, Option<Frame>),
    /// It is closed by this side.
    Closes,
}

fn is_done(end: &mut LinkEnd, step: Step) -> bool {
    match step {
        Step::Offered(connection, frame) => end.offer(signal(connection)) == Ok(frame),
        Step::NotOffered(connection, fault) => end.offer(signal(connection)) == Err(fault),
        Step::Came(frame, arrival) => is_taken_in(end, frame, arrival),
        Step::Refused(frame, fault) => end.peek(&frame) == Err(fault),
        Step::Left(room, kept) => end.room_left() == room && end.unacked() == kept,
        Step::Says(greeting, acknowledgement) => {
            end.hello() == greeting && end.ack() == acknowledgement
        }
        Step::Resends(count, first) => resends(end, count, first),
        Step::Closes => {
            end.close();
            end.is_closed()
        }
    }
}

fn is_taken_in(end: &mut LinkEnd, frame: Frame, arrival: Arrival) -> bool {
    match end.peek(&frame) {
        Ok(answer) => {
            end.receive(&frame);
            answer == arrival
        }
        Err(_) => false,
    }
}

fn resends(end: &LinkEnd, count: usize, first: Option<Frame>) -> bool {
    match end.resend() {
        Ok(resent) => resent.len() == count && resent.first().copied() == first,
        Err(_) => false,
    }
}

// The place of the first step that a fresh end with this much room doesn't do.
fn first_wrong(alloc: Global, room: usize, steps: &[Step]) -> Option<usize> {
    let mut end = LinkEnd::new(alloc, 4, 1, room);
    for (place, step) in steps.iter().enumerate() {
        if !is_done(&mut end, *step) {
            return Some(place);
        }
    }
    None
}

#[test]
fn refuses_what_it_has_no_room_for(rt: HostRuntime) {
    let steps = [
        Step::Offered(7, data(1, 7)),
        Step::NotOffered(8, LinkFault::Full),
        Step::Left(0, 1),
        Step::Came(ack(1), Arrival::Acked),
        Step::Offered(9, data(2, 9)),
        Step::Refused(ack(3), LinkFault::AckOfUnsent),
        Step::Refused(hello(4, 3), LinkFault::AckOfUnsent),
        Step::Refused(hello(5, 2), LinkFault::Stranger),
    ];
    assert_eq!(rt; first_wrong(rt.alloc(), 1, &steps), None);
}

#[test]
fn sends_again_what_was_not_taken(rt: HostRuntime) {
    let steps = [
        Step::Offered(1, data(1, 1)),
        Step::Offered(2, data(2, 2)),
        Step::Offered(3, data(3, 3)),
        Step::Left(0, 3),
        Step::Resends(3, Some(data(1, 1))),
        Step::Came(hello(4, 2), Arrival::Resume),
        Step::Left(2, 1),
        Step::Resends(1, Some(data(3, 3))),
    ];
    assert_eq!(rt; first_wrong(rt.alloc(), 3, &steps), None);
}

#[test]
fn takes_signals_in_turn(rt: HostRuntime) {
    let stranger = Frame::Data {
        incarnation: 2,
        number: 2,
        signal: signal(2),
    };
    let steps = [
        Step::Refused(data(2, 2), LinkFault::Gap),
        Step::Came(data(1, 1), Arrival::Signal),
        Step::Came(data(1, 1), Arrival::Repeated),
        Step::Says(Some(hello(4, 1)), ack(1)),
        Step::Refused(stranger, LinkFault::Stranger),
        Step::Came(data(2, 2), Arrival::Signal),
    ];
    assert_eq!(rt; first_wrong(rt.alloc(), 3, &steps), None);
}

// The place of the first step that an end doesn't do which is closed so.
fn wrong_once_closed(alloc: Global, closing: Step) -> Option<usize> {
    let stranger = Frame::Ack {
        incarnation: 2,
        last_taken: 9,
    };
    let steps = [
        Step::Offered(1, data(1, 1)),
        closing,
        Step::Refused(data(1, 1), LinkFault::Closed),
        Step::Refused(ack(9), LinkFault::Closed),
        Step::Refused(hello(4, 0), LinkFault::Closed),
        Step::Refused(refuse(71), LinkFault::Closed),
        Step::Refused(stranger, LinkFault::Stranger),
        Step::NotOffered(2, LinkFault::Closed),
        Step::Says(None, ack(0)),
        Step::Resends(0, None),
    ];
    first_wrong(alloc, 3, &steps)
}

#[test]
fn is_closed_by_a_refusal_and_by_this_side(rt: HostRuntime) {
    for closing in [Step::Came(refuse(71), Arrival::Closed), Step::Closes] {
        assert_eq!(rt; wrong_once_closed(rt.alloc(), closing), None);
    }
}
