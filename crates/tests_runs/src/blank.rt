//! A blank federate with the next incarnation takes the place of another after its first row, over memory: the
//! coordinator doesn't know it, it is told so, neither of the two is believed, and no row is printed.
use crate::federations::BY_TURNS;
use crate::lines::{Case, Nodes, seen_in_memory};
use crate::nodes::{NEXT, SNK};
use crate::seen::{Seen, first_wrong};
use crate::tap::{Awaited, End, Fate, Tap, is_message};
use node::Event;
use signal::{Frame, Hello};
use tests_samples::Machine;
use wires::Terms;

/// The blank federate, by its number in the run.
const BLANK: usize = 2;

/// Of all runners. Attempts to connect that come to nothing take a millisecond each.
const TERMS: Terms = Terms {
    turns: 3_000,
    frames: 2,
};

/// Who connects: the second federate up to its first message to the first, which comes behind its first row; from then
/// on the blank one.
#[derive(Drop)]
struct Relay {
    message: Awaited,
}

impl Tap for Relay {
    fn connects(&self, federate: usize) -> bool {
        match federate {
            SNK => !self.message.has_come(),
            BLANK => self.message.has_come(),
            _ => true,
        }
    }

    fn sends(&self, end: End, _before: u64, _bytes: &[u8]) -> Fate {
        if end.federate == SNK && self.message.has_come() {
            Fate::broken(0)
        } else {
            Fate::whole()
        }
    }

    fn comes(&self, end: End, frame: &Frame) {
        if end.federate == SNK && !end.is_own && is_message(frame) {
            self.message.come();
        }
    }
}

/// The blank federate's Hello, as it comes to the coordinator.
const GREETING: Event = Event::Frame(
    SNK,
    Frame::Hello(Hello {
        federate: 1,
        incarnation: NEXT,
        last_taken: 0,
    }),
);

/// The Refuse that answers it.
const REFUSED: Event = Event::Frame(
    0,
    Frame::Refuse {
        incarnation: NEXT,
        refusal: 51,
    },
);

// The first thing that isn't so after the run; None where all is.
fn wrong_in(seen: &Seen) -> Option<&'static str> {
    let (Some(snk), Some(blank)) = (seen.federates.get(SNK), seen.federates.get(BLANK)) else {
        return Some("there are three");
    };
    first_wrong(&[
        (
            seen.coordinator.count_of(&GREETING) > 0,
            "the blank one greets",
        ),
        (blank.count_of(&REFUSED) > 0, "it is told so"),
        (blank.closed == [true, false], "its end is closed"),
        (
            seen.coordinator.closed == [false, false],
            "that for whose place it took isn't",
        ),
        (snk.rows == 1, "that one has its first row"),
        (blank.rows == 0, "it has none"),
        (!seen.is_finished, "nobody is finished"),
        (
            seen.is_disbelieved,
            "nobody is believed, and no row is printed",
        ),
    ])
}

fn wrong<R: Machine>(rt: &R) -> Option<&'static str> {
    let relay = Relay {
        message: Awaited::new(),
    };
    let case = Case {
        federation: BY_TURNS,
        nodes: Nodes::WithBlank,
        terms: TERMS,
    };
    match seen_in_memory(rt, &case, &relay) {
        Some(seen) => wrong_in(&seen),
        None => Some("it runs"),
    }
}

#[test]
fn turns_a_blank_federate_away(rt: HostRuntime) {
    assert_eq!(rt; wrong(&rt), None);
}
