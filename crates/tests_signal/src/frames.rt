//! Frames as bytes: examples of each kind, in any pieces, and what is refused.
ghost use Rattle.std.specs.Prelude.{◌<◌};

use signal::{Frame, FrameReader, Hello, Signal, write_frame};
use std::alloc::{AllocError, Global};
use std::test::Fail;
use tag::{FiniteTag, Tag, Time};

/// Of version 1, which is the byte at place 5.
pub(crate) const HELLO: [u8; 20] = [
    0, 0, 0, 0x10, 0x01, 0x01, 0, 0, 0, 0, 0, 1, 0, 0, 0, 0, 0, 0, 0, 0,
];

const ACK: [u8; 17] = [0, 0, 0, 0x0d, 0x03, 0, 0, 0, 1, 0, 0, 0, 0, 0, 0, 0, 2];

const REFUSE: [u8; 11] = [0, 0, 0, 0x07, 0x04, 0, 0, 0, 2, 0, 0x33];

const NET_AT_ORIGIN: [u8; 30] = [
    0, 0, 0, 0x1a, 0x02, 0, 0, 0, 1, 0, 0, 0, 0, 0, 0, 0, 1, 0x01, 0, 0, 0, 0, 0, 0, 0, 0, 0, 0, 0,
    0,
];

const NET_FOREVER: [u8; 30] = [
    0, 0, 0, 0x1a, 0x02, 0, 0, 0, 1, 0, 0, 0, 0, 0, 0, 0, 1, 0x01, 0xff, 0xff, 0xff, 0xff, 0xff,
    0xff, 0xff, 0xff, 0xff, 0xff, 0xff, 0xff,
];

const MSG: [u8; 40] = [
    0, 0, 0, 0x24, 0x02, 0, 0, 0, 1, 0, 0, 0, 0, 0, 0, 0, 5, 0x04, 0, 0, 0, 0, 0, 0, 0, 0x98, 0x96,
    0x80, 0, 0, 0, 0, 0, 0, 0, 0, 0, 0, 0, 2,
];

const LTC: [u8; 30] = [
    0, 0, 0, 0x1a, 0x02, 0, 0, 0, 1, 0, 0, 0, 0, 0, 0, 0, 2, 0x02, 0, 0, 0, 0, 0, 0x98, 0x96, 0x80,
    0, 0, 0, 1,
];

/// At 10 ms.
pub(crate) fn finite(microstep: u32) -> FiniteTag {
    FiniteTag::new(Time::new(10_000_000).unwrap(), microstep)
}

pub(crate) fn data(number: u64, signal: Signal) -> Frame {
    Frame::Data {
        incarnation: 1,
        number,
        signal,
    }
}

/// What the frames look like as bytes.
const SPELLINGS: [&[u8]; 7] = [
    &HELLO,
    &ACK,
    &REFUSE,
    &NET_AT_ORIGIN,
    &NET_FOREVER,
    &MSG,
    &LTC,
];

fn frames() -> [Frame; 7] {
    let hello = Frame::Hello(Hello {
        federate: 0,
        incarnation: 1,
        last_taken: 0,
    });
    let ack = Frame::Ack {
        incarnation: 1,
        last_taken: 2,
    };
    let refuse = Frame::Refuse {
        incarnation: 2,
        refusal: 51,
    };
    let message = Signal::Msg {
        connection: 0,
        tag: finite(0),
        value: 2,
    };
    [
        hello,
        ack,
        refuse,
        data(1, Signal::Net(Tag::origin())),
        data(1, Signal::Net(Tag::FOREVER)),
        data(5, message),
        data(2, Signal::Ltc(finite(1))),
    ]
}

// Those of the frames that the reader has still to give when it gives no more; None where it gives another one, or a
// fault.
fn not_given<'a>(reader: &mut FrameReader, frames: &'a [Frame]) -> Option<&'a [Frame]> {
    let mut left = frames;
    for _ in 0..=frames.len() {
        match reader.next() {
            Ok(Some(frame)) => match left {
                [first, rest @ ..] if frame == *first => left = rest,
                _ => return None,
            },
            Ok(None) => return Some(left),
            Err(_) => return None,
        }
    }
    None
}

pub(crate) fn gives(reader: &mut FrameReader, frames: &[Frame]) -> bool {
    matches!(not_given(reader, frames), Some([]))
}

// Whether the frame is written as these bytes and read from them.
fn is_spelled(alloc: Global, frame: &Frame, bytes: &[u8]) -> bool {
    let mut out = Vec::new(alloc);
    let mut reader = FrameReader::new(alloc);
    write_frame(frame, &mut out).is_ok()
        && out.as_slice() == bytes
        && reader.feed(bytes).is_ok()
        && gives(&mut reader, &[*frame])
}

// The same of the spelling at this place.
fn is_spelled_there(alloc: Global, frame: &Frame, place: usize) -> bool {
    match SPELLINGS.get(place) {
        Some(bytes) => is_spelled(alloc, frame, bytes),
        None => false,
    }
}

#[test]
fn writes_and_reads_each_kind_of_frame(rt: HostRuntime) {
    for (place, frame) in frames().iter().enumerate() {
        assert!(rt; is_spelled_there(rt.alloc(), frame, place), "{frame:?}");
    }
}

/// Whether the bytes, fed in pieces of this size, are read as these frames.
pub(crate) fn are_read(alloc: Global, bytes: &[u8], size: usize, frames: &[Frame]) -> bool
    requires { 0 < size }
{
    let mut reader = FrameReader::new(alloc);
    let mut left = frames;
    for piece in bytes.chunks(size) {
        if reader.feed(piece).is_err() {
            return false;
        }
        match not_given(&mut reader, left) {
            Some(rest) => left = rest,
            None => return false,
        }
    }
    left.is_empty()
}

// All spellings, one after the other.
fn stream(alloc: Global) -> Result<Vec<u8>, AllocError> {
    let mut stream = Vec::new(alloc);
    for bytes in SPELLINGS {
        stream.extend_from_slice(bytes)?;
    }
    Ok(stream)
}

#[test]
fn reads_frames_in_any_pieces(rt: HostRuntime) -> Result<(), Fail> {
    let frames = frames();
    let stream = stream(rt.alloc())?;
    for size in [1, 7, 1000] {
        assert!(rt; are_read(rt.alloc(), &stream, size, &frames), "{size}");
    }
    Ok(())
}

/// Bytes that end inside a frame: before its body of 65 bytes, and inside that of an acknowledgement.
const BEGUN: [&[u8]; 2] = [&[0, 0, 0, 0x41], &[0, 0, 0, 0x0d, 0x03, 0, 0, 0, 1]];

#[test]
fn waits_for_the_rest_of_a_frame(rt: HostRuntime) {
    for bytes in BEGUN {
        assert!(rt; are_read(rt.alloc(), bytes, 1000, &[]));
    }
}

/// Bytes, and the number of the refusal that they meet.
const REFUSED: [(&[u8], u16); 10] = [
    (&[0, 0, 0, 0], 40),
    (&[0, 0, 0x05, 0xcf], 40),
    // an Ack needs 13 bytes
    (&[0, 0, 0, 5, 0x03, 0, 0, 0, 1], 40),
    // a Batch needs 14 bytes
    (&[0, 0, 0, 1, 0x05], 40),
    // no signal byte
    (
        &[0, 0, 0, 0x0d, 0x02, 0, 0, 0, 1, 0, 0, 0, 0, 0, 0, 0, 1],
        40,
    ),
    (&[0, 0, 0, 1, 9], 41),
    // a Hello of version 0
    (
        &[
            0, 0, 0, 0x10, 0x01, 0, 0, 0, 0, 0, 0, 1, 0, 0, 0, 0, 0, 0, 0, 0,
        ],
        41,
    ),
    // a time of 2^62
    (
        &[
            0, 0, 0, 0x1a, 0x02, 0, 0, 0, 1, 0, 0, 0, 0, 0, 0, 0, 1, 0x01, 0x40, 0, 0, 0, 0, 0, 0,
            0, 0, 0, 0, 0,
        ],
        42,
    ),
    // an Ack with a byte too many
    (
        &[0, 0, 0, 0x0e, 0x03, 0, 0, 0, 1, 0, 0, 0, 0, 0, 0, 0, 2, 0],
        43,
    ),
    // a Hello with a byte too many, answered before its version
    (
        &[
            0, 0, 0, 0x11, 0x01, 0, 0, 0, 0, 0, 0, 1, 0, 0, 0, 0, 0, 0, 0, 0, 0,
        ],
        43,
    ),
];

// The number by which these bytes behind a frame are refused for good; None where they aren't.
fn refusal(alloc: Global, bytes: &[u8]) -> Option<u16> {
    let mut reader = FrameReader::new(alloc);
    if reader.feed(&ACK).is_err() || reader.feed(bytes).is_err() || reader.next().is_err() {
        return None;
    }
    match reader.next() {
        Err(fault) => {
            if reader.feed(&ACK).is_ok() && reader.next() == Err(fault) {
                Some(fault.number())
            } else {
                None
            }
        }
        Ok(_) => None,
    }
}

#[test]
fn refuses_bytes_for_good(rt: HostRuntime) {
    for (bytes, number) in &REFUSED {
        assert_eq!(rt; refusal(rt.alloc(), *bytes), Some(*number));
    }
}

// How many acknowledgements a reader gives before anything else, at most this many.
fn acknowledgements(reader: &mut FrameReader, most: usize) -> usize {
    for count in 0..most {
        if !matches!(reader.next(), Ok(Some(Frame::Ack { .. }))) {
            return count;
        }
    }
    most
}

// Whether this many acknowledgements, fed in one piece, are read; None where there was no memory for them.
fn are_fed_at_once(alloc: Global, count: usize) -> Option<bool> {
    let mut stream = Vec::new(alloc);
    for _ in 0..count {
        stream.extend_from_slice(&ACK).ok()?;
    }
    let mut reader = FrameReader::new(alloc);
    reader.feed(&stream).ok()?;
    Some(acknowledgements(&mut reader, count) == count && gives(&mut reader, &[]))
}

// They are 1,048,577 bytes.
#[test]
fn takes_a_megabyte_at_once(rt: HostRuntime) {
    assert_eq!(rt; are_fed_at_once(rt.alloc(), 61_681), Some(true));
}

/// The rest of an acknowledgement, and the first byte of the next one.
const ACK_AND_NEXT: [u8; 17] = [0, 0, 0x0d, 0x03, 0, 0, 0, 1, 0, 0, 0, 0, 0, 0, 0, 2, 0];

// How long the text is that a reader is displayed as, with all bytes that it holds, once it read this many
// acknowledgements, of which each piece had the rest of one and the beginning of the next.
fn displayed_length(alloc: Global, count: usize) -> Option<usize> {
    let mut reader = FrameReader::new(alloc);
    reader.feed(&ACK[..1]).ok()?;
    for _ in 0..count {
        reader.feed(&ACK_AND_NEXT).ok()?;
        if acknowledgements(&mut reader, 2) != 1 {
            return None;
        }
    }
    let text = format!(in alloc; "{reader:?}").ok()?;
    Some(text.len())
}

// Else a stream on which there is always something on its way would fill the memory.
#[test]
fn holds_no_bytes_that_were_read_long_ago(rt: HostRuntime) {
    let length = displayed_length(rt.alloc(), 2_000);
    assert!(rt; length.is_some_and(|length| length < 1_000), "{length:?}");
}
