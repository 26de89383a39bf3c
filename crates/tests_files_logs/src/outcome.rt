//! What is read of bytes, and what is to be read of a front of the worked log.
use crate::worked::{FIRST_END, HEAD_END, SECOND_END, SUMS, THIRD_END, WHOLE, digests};
use files_logs::{Log, LogFault, read_log};
use node::Event;
use signal::Frame;
use std::alloc::Global;

/// A log of so many whole blocks, with its end or without; or a fault.
#[derive(Clone, Copy, Debug, PartialEq, Eq)]
pub(crate) enum Outcome {
    Blocks(usize),
    Ended,
    Fault(LogFault),
}

// Whether an event of the worked log stands at its place.
fn is_event(event: Event, place: usize) -> bool {
    match place {
        0 => event == Event::Announce,
        1 => matches!(event, Event::Frame(0, Frame::Data { number: 1, .. })),
        2 => event == Event::Advance,
        _ => event == Event::Hello(0),
    }
}

// Whether the log has the first events of the worked log, this many.
fn has_events(log: &Log, count: usize) -> bool {
    if log.journal.len() != count {
        return false;
    }
    let mut near = 0;
    for place in 0..count {
        match log.journal.get(place, &mut near) {
            Some(event) if is_event(event, place) => {}
            _ => return false,
        }
    }
    true
}

// Whether that is what the worked log says up to the end of a block.
fn is_front(log: &Log, count: usize, whole: usize) -> bool {
    let events = match count {
        0 => 0,
        1 => 2,
        2 => 3,
        _ => 4,
    };
    has_events(log, events)
        && log.who == 0
        && log.is_told == (count == 3)
        && log.whole == whole
        && count < SUMS.len()
        && log.sum == SUMS[count]
}

// How many blocks of the worked log end behind so many bytes.
fn blocks_within(whole: usize) -> usize {
    match whole {
        FIRST_END => 1,
        SECOND_END => 2,
        THIRD_END | WHOLE => 3,
        _ => 0,
    }
}

/// What is read of bytes, where it is a front of the worked log or a fault.
pub(crate) fn outcome_of(alloc: Global, bytes: &[u8]) -> Option<Outcome> {
    match read_log(alloc, &digests(), Some(0), 1, bytes) {
        Ok(log) => {
            let count = blocks_within(log.whole);
            if !is_front(&log, count, log.whole) {
                return None;
            }
            if log.is_ended {
                Some(Outcome::Ended)
            } else {
                Some(Outcome::Blocks(count))
            }
        }
        Err(fault) => Some(Outcome::Fault(fault)),
    }
}

/// What is to be read of the first bytes of the worked log, this many.
pub(crate) fn front(length: usize) -> Outcome {
    if length < HEAD_END {
        Outcome::Fault(LogFault::NoLog)
    } else if length < FIRST_END {
        Outcome::Blocks(0)
    } else if length < SECOND_END {
        Outcome::Blocks(1)
    } else if length < THIRD_END {
        Outcome::Blocks(2)
    } else if length < WHOLE {
        Outcome::Blocks(3)
    } else {
        Outcome::Ended
    }
}
