//! The worked log, written part by part.
use crate::worked::{END, FIRST, HEAD_END, SECOND, SUMS, THIRD_END, head, worked};
use files_logs::{write_block, write_end, write_head};
use node::Event;
use node_journal::Journal;
use signal::{Frame, Signal};
use std::alloc::Global;
use tag::{FiniteTag, Time};

// Whether its front is written as its head.
fn is_head_written(alloc: Global) -> Option<bool> {
    let log = worked(alloc).ok()?;
    let written = write_head(alloc, &head()).ok()?;
    Some(log.get(..HEAD_END) == Some(written.bytes.as_slice()) && written.sum == SUMS[0])
}

#[test]
fn writes_the_head(rt: HostRuntime) {
    assert_eq!(rt; is_head_written(rt.alloc()), Some(true));
}

// The event by which the first tag is granted.
fn granted() -> Event {
    let signal = Signal::Tag(FiniteTag::new(Time::zero(), 0));
    Event::Frame(
        0,
        Frame::Data {
            incarnation: 1,
            number: 1,
            signal,
        },
    )
}

// Whether these bytes are written of events behind a sum, and give the next sum.
fn is_block(alloc: Global, sums: [u64; 2], events: &[Event], bytes: &[u8]) -> Option<bool> {
    let events = Journal::of(alloc, events).ok()?;
    let written = write_block(alloc, sums[0], &events, false).ok()?;
    Some(written.bytes.as_slice() == bytes && written.sum == sums[1])
}

// Two blocks, and nothing where nothing is said.
#[test]
fn writes_blocks(rt: HostRuntime) {
    let first = [Event::Announce, granted()];
    let written = [
        is_block(rt.alloc(), [SUMS[0], SUMS[1]], &first, &FIRST),
        is_block(rt.alloc(), [SUMS[1], SUMS[2]], &[Event::Advance], &SECOND),
        is_block(rt.alloc(), [SUMS[1], SUMS[1]], &[], &[]),
    ];
    assert_eq!(rt; written, [Some(true); 3]);
}

// Whether its end is written.
fn is_end_written(alloc: Global) -> Option<bool> {
    let log = worked(alloc).ok()?;
    let end = write_end(alloc, SUMS[3], log.get(..THIRD_END)?).ok()?;
    Some(end.as_slice() == END.as_slice())
}

#[test]
fn writes_the_end(rt: HostRuntime) {
    assert_eq!(rt; is_end_written(rt.alloc()), Some(true));
}
