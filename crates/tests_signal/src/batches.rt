//! Several signals in one body: how frames in a row are cut and written, how they are read, and what is refused.
ghost use Rattle.std.specs.Prelude.{◌<◌};

use crate::frames::{HELLO, are_read, data, finite, gives};
use signal::{Frame, FrameReader, Hello, Signal, write_frames};
use std::alloc::Global;
use tag::{FiniteTag, Tag, Time};

/// A NET and an LTC at (0, 0), numbered 1 and 2.
const TWO_SIGNALS: [u8; 44] = [
    0, 0, 0, 0x28, 0x05, 0, 0, 0, 1, 0, 0, 0, 0, 0, 0, 0, 1, 0x02, 0x01, 0, 0, 0, 0, 0, 0, 0, 0, 0,
    0, 0, 0, 0x02, 0, 0, 0, 0, 0, 0, 0, 0, 0, 0, 0, 0,
];

// The frames that they carry.
fn net_and_ltc() -> [Frame; 2] {
    let origin = FiniteTag::new(Time::zero(), 0);
    [
        data(1, Signal::Net(Tag::origin())),
        data(2, Signal::Ltc(origin)),
    ]
}

// Whether the frames are written as these bytes and read from them.
fn are_spelled(alloc: Global, frames: &[Frame], bytes: &[u8]) -> bool {
    let mut out = Vec::new(alloc);
    let mut reader = FrameReader::new(alloc);
    write_frames(frames, 2, 2, &mut out).is_ok()
        && out.as_slice() == bytes
        && reader.feed(bytes).is_ok()
        && gives(&mut reader, frames)
}

#[test]
fn writes_and_reads_two_signals_in_one_body(rt: HostRuntime) {
    let frames = net_and_ltc();
    assert!(rt; are_spelled(rt.alloc(), &frames, &TWO_SIGNALS));
}

// ---- how frames are cut

// How many frames the spelling at the front carries, and the bytes behind it; None where there is no whole one.
fn first_piece(bytes: &[u8]) -> Option<(usize, &[u8])> {
    let size = match bytes {
        [0, 0, high, low, ..] => 4 + usize::from(*high) * 256 + usize::from(*low),
        _ => return None,
    };
    let count = match bytes.get(4) {
        Some(5) => usize::from(*bytes.get(17)?),
        _ => 1,
    };
    Some((count, bytes.get(size..)?))
}

// Whether the bytes are spellings of this many frames each.
fn is_cut(bytes: &[u8], counts: &[usize]) -> bool {
    let mut left = bytes;
    for count in counts {
        match first_piece(left) {
            Some((carried, behind)) if carried == *count => left = behind,
            _ => return false,
        }
    }
    left.is_empty()
}

// Whether frames are written as spellings of this many each, and read again. None, here and below, where there was no
// memory.
fn are_cut(alloc: Global, own: u8, peer: u8, frames: &[Frame], counts: &[usize]) -> Option<bool>
    requires { 0 < own }
{
    let mut bytes = Vec::new(alloc);
    write_frames(frames, own, peer, &mut bytes).ok()?;
    Some(is_cut(&bytes, counts) && are_read(alloc, &bytes, 7, frames))
}

// A NET of this incarnation and number.
fn net(incarnation: u32, number: u64) -> Frame {
    Frame::Data {
        incarnation,
        number,
        signal: Signal::Net(Tag::origin()),
    }
}

// NETs of these incarnations and numbers.
fn nets(alloc: Global, places: &[(u32, u64)]) -> Option<Vec<Frame>> {
    let mut frames = Vec::new(alloc);
    for (incarnation, number) in places {
        let signal = Signal::Net(Tag::origin());
        let frame = Frame::Data {
            incarnation: *incarnation,
            number: *number,
            signal,
        };
        frames.push(frame).ok()?;
    }
    Some(frames)
}

/// Incarnations and numbers, and how many frames go into each piece.
const BROKEN_ROWS: [(&[(u32, u64)], &[usize]); 3] = [
    // a number is left out
    (&[(1, 1), (1, 2), (1, 4), (1, 5)], &[2, 2]),
    // a number comes again
    (&[(1, 1), (1, 1), (1, 2)], &[1, 2]),
    // another incarnation
    (&[(1, 1), (1, 2), (2, 3)], &[2, 1]),
];

fn is_broken_row_cut(alloc: Global, places: &[(u32, u64)], counts: &[usize]) -> Option<bool> {
    let frames = nets(alloc, places)?;
    are_cut(alloc, 2, 2, &frames, counts)
}

#[test]
fn cuts_where_numbers_or_incarnations_break(rt: HostRuntime) {
    for (places, counts) in &BROKEN_ROWS {
        assert_eq!(rt; is_broken_row_cut(rt.alloc(), *places, *counts), Some(true));
    }
}

/// How many signals are in a row, and how many go into each piece.
const ROWS: [(u64, &[usize]); 3] = [(64, &[64]), (65, &[64, 1]), (66, &[64, 2])];

// This many messages in a row.
fn row(alloc: Global, count: u64) -> Option<Vec<Frame>> {
    let mut frames = Vec::new(alloc);
    for number in 1..=count {
        let message = Signal::Msg {
            connection: 1,
            tag: finite(0),
            value: -1,
        };
        frames.push(data(number, message)).ok()?;
    }
    Some(frames)
}

fn is_row_cut(alloc: Global, count: u64, counts: &[usize]) -> Option<bool> {
    let frames = row(alloc, count)?;
    are_cut(alloc, 2, 2, &frames, counts)
}

#[test]
fn cuts_rows_into_64_signals_each(rt: HostRuntime) {
    for (count, counts) in &ROWS {
        assert_eq!(rt; is_row_cut(rt.alloc(), *count, *counts), Some(true));
    }
}

#[test]
fn writes_other_frames_by_themselves(rt: HostRuntime) {
    let others = [
        Frame::Hello(Hello {
            federate: 1,
            incarnation: 1,
            last_taken: 0,
        }),
        Frame::Ack {
            incarnation: 1,
            last_taken: 2,
        },
        Frame::Refuse {
            incarnation: 1,
            refusal: 51,
        },
    ];
    for other in &others {
        let frames = [net(1, 1), net(1, 2), *other, net(1, 3)];
        assert_eq!(rt; are_cut(rt.alloc(), 2, 2, &frames, &[2, 1, 1]), Some(true));
    }
}

// ---- versions

// Whether three signals in a row are written one by one to this peer.
fn are_written_singly(alloc: Global, own: u8, peer: u8) -> Option<bool>
    requires { 0 < own }
{
    let frames = [net(1, 1), net(1, 2), net(1, 3)];
    are_cut(alloc, own, peer, &frames, &[1, 1, 1])
}

#[test]
fn writes_signals_singly_where_one_side_has_version_1(rt: HostRuntime) {
    assert_eq!(rt; are_written_singly(rt.alloc(), 1, 2), Some(true));
    assert_eq!(rt; are_written_singly(rt.alloc(), 2, 1), Some(true));
}

// The version in a Hello that is written with this one.
fn written_version(alloc: Global, own: u8) -> Option<u8>
    requires { 0 < own }
{
    let mut bytes = Vec::new(alloc);
    let hello = Frame::Hello(Hello {
        federate: 0,
        incarnation: 1,
        last_taken: 0,
    });
    write_frames(&[hello], own, 1, &mut bytes).ok()?;
    bytes.get(5).copied()
}

#[test]
fn writes_a_hello_of_its_own_version(rt: HostRuntime) {
    for own in [1, 2, 255] {
        assert_eq!(rt; written_version(rt.alloc(), own), Some(own));
    }
}

// What a reader tells once a Hello of this version was fed, and once it was given.
fn versions(reader: &mut FrameReader, version: u8) -> Option<(u8, u8)> {
    let mut bytes = HELLO;
    bytes[5] = version;
    reader.feed(&bytes).ok()?;
    let fed = reader.version();
    if reader.next().is_err() {
        return None;
    }
    Some((fed, reader.version()))
}

#[test]
fn tells_the_version_of_the_last_hello_given(rt: HostRuntime) {
    let mut reader = FrameReader::new(rt.alloc());
    for (before, version) in [(1, 1), (1, 2), (2, 255), (255, 1)] {
        assert_eq!(rt; versions(&mut reader, version), Some((before, version)));
    }
}

// ---- what is refused

/// Changed bytes of the two signals, behind which stands one byte more, and the number of the refusal that they meet.
const FAULTS: [(&[(usize, u8)], u16); 9] = [
    // nothing between the kind and the signals
    (&[(3, 1)], 40),
    // one signal, and more than 64
    (&[(17, 1)], 41),
    (&[(17, 65)], 41),
    // a number above the last one
    (
        &[
            (9, 0xff),
            (10, 0xff),
            (11, 0xff),
            (12, 0xff),
            (13, 0xff),
            (14, 0xff),
            (15, 0xff),
            (16, 0xff),
        ],
        41,
    ),
    // no byte of a third signal
    (&[(17, 3)], 40),
    // too few bytes for a MSG
    (&[(31, 4)], 40),
    // a byte too many, told before a bad tag
    (&[(3, 0x29), (19, 0x40)], 43),
    // a time of 2^62 in the second signal
    (&[(32, 0x40)], 42),
    // a signal of no kind, told before the first one's bad tag
    (&[(19, 0x40), (31, 9)], 41),
];

// The number of the refusal that comes first, and again; None where a frame comes, or nothing.
fn refusal(alloc: Global, changes: &[(usize, u8)]) -> Option<u16> {
    let mut bytes = TWO_SIGNALS;
    for (place, byte) in changes {
        *bytes.get_mut(*place)? = *byte;
    }
    let mut reader = FrameReader::new(alloc);
    reader.feed(&bytes).ok()?;
    reader.feed(&[0]).ok()?;
    let first = reader.next();
    match first {
        Err(fault) if reader.next() == first => Some(fault.number()),
        _ => None,
    }
}

#[test]
fn refuses_all_of_a_faulty_batch(rt: HostRuntime) {
    for (changes, number) in &FAULTS {
        assert_eq!(rt; refusal(rt.alloc(), *changes), Some(*number));
    }
}
