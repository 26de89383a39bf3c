//! Journals, read from the front of some bytes, and the bytes behind them.

ghost use Rattle.std.specs.Prelude.{◌≡◌, ◌^◌, ◌<◌, ◌∷◌, length, IfOk, OnOk};
ghost use Rattle.std.specs.List.{flat_map};
ghost use Rattle.signal.specs.Frame.{framed, frame_bytes, IsFrame};
ghost use Rattle.signal.specs.Stream.{fed};
ghost use Rattle.files_reports.specs.declared.layout.TheConstants.{FRAME_KIND};
ghost use Rattle.files_reports.specs.Said.{AreSoMany, AreCounted, IsEvent};
ghost use Rattle.files_reports.specs.Spelling.{counted, event_bytes};
ghost use Rattle.files_reports.specs.Reading.{Gives, IsTaken, body_part, frame_part, arrival_part, event_of_kind};
ghost use Rattle.files_reports.specs.Reading.{event_part, many, counted_part};

use crate::content_fault::ContentFault;
use crate::layout::{ADVANCE_KIND, ANNOUNCE_KIND, FRAME_KIND, HELLO_KIND, RESEND_KIND};
use crate::numbers::{number_of_eight, number_of_four};
use crate::read_fault::ReadFault;
use byteorder::{BigEndian, ByteOrder};
use node::Event;
use node_journal::Journal;
use signal::wire::{BATCH_KIND, FIRST_VERSION, LENGTH_SIZE};
use signal::{Frame, FrameReader};
use std::alloc::Global;

const BAD_FRAME: ReadFault = ReadFault::Content(ContentFault::BadFrame);

/// A journal, behind the count of its events.
#[tactic(auto, unfolding(crate::specs::Reading::counted_part))]
pub fn journal_of(alloc: Global, bytes: &[u8]) -> Result<(Journal, &[u8]), ReadFault>
    ensures given { Gives (λ x. (x.0, x.1.now)) result (counted_part event_part bytes.now) }
    ensures taken { IfOk result (λ x. IsTaken (counted event_bytes) (AreCounted IsEvent) bytes.now x.0 x.1.now) }
{
    let (count, rest) = number_of_eight(bytes)?;
    many_events(alloc, count, rest)
}

// This many events.
fn many_events(alloc: Global, count: u64, bytes: &[u8]) -> Result<(Journal, &[u8]), ReadFault>
    ensures given { Gives (λ x. (x.0, x.1.now)) result (many event_part count bytes.now) }
    ensures taken { IfOk result (λ x. IsTaken (flat_map event_bytes) (AreSoMany IsEvent count) bytes.now x.0 x.1.now) }
{
    let mut events = Journal::new(alloc);
    let mut rest = bytes;
    for _ in 0..count {
        let (event, behind) = match event_of(alloc, rest) {
            Ok(taken) => taken,
            Err(fault) => return Err(fault),
        };
        events.push(&event, None)?;
        rest = behind;
    }
    Ok((events, rest))
}

/// An event at the front of some bytes, and the bytes behind it. Logs read theirs by it too.
pub fn event_of(alloc: Global, bytes: &[u8]) -> Result<(Event, &[u8]), ReadFault>
    ensures given { Gives (λ x. (x.0, x.1.now)) result (event_part bytes.now) }
    ensures taken { IfOk result (λ x. IsTaken event_bytes IsEvent bytes.now x.0 x.1.now) }
{
    match bytes {
        [] => Err(ReadFault::Content(ContentFault::Short)),
        [kind, rest @ ..] => event_of_kind(alloc, *kind, rest),
    }
}

// An event of this kind, behind it.
#[tactic(auto, unfolding(crate::specs::Reading::event_of_kind))]
fn event_of_kind(alloc: Global, kind: u8, bytes: &[u8]) -> Result<(Event, &[u8]), ReadFault>
    ensures given { Gives (λ x. (x.0, x.1.now)) result (event_of_kind kind bytes.now) }
    ensures taken { IfOk result (λ x. IsTaken event_bytes IsEvent (kind ∷ bytes.now) x.0 x.1.now) }
{
    match kind {
        FRAME_KIND => arrival_of(alloc, bytes),
        RESEND_KIND => {
            let (peer, rest) = number_of_eight(bytes)?;
            Ok((Event::Resend(peer as usize), rest))
        }
        HELLO_KIND => {
            let (peer, rest) = number_of_eight(bytes)?;
            Ok((Event::Hello(peer as usize), rest))
        }
        ANNOUNCE_KIND => Ok((Event::Announce, bytes)),
        ADVANCE_KIND => Ok((Event::Advance, bytes)),
        _ => Err(ReadFault::Content(ContentFault::BadEvent)),
    }
}

// A frame that came from a peer.
#[tactic(auto, unfolding(crate::specs::Reading::arrival_part))]
fn arrival_of(alloc: Global, bytes: &[u8]) -> Result<(Event, &[u8]), ReadFault>
    ensures given { Gives (λ x. (x.0, x.1.now)) result (arrival_part bytes.now) }
    ensures taken { IfOk result (λ x. IsTaken event_bytes IsEvent (FRAME_KIND ∷ bytes.now) x.0 x.1.now) }
{
    let (peer, rest) = number_of_eight(bytes)?;
    let (frame, rest) = match frame_of(alloc, rest) {
        Ok(taken) => taken,
        Err(fault) => return Err(fault),
    };
    Ok((Event::Frame(peer as usize, frame), rest))
}

// A frame, as on the wire.
#[tactic(auto, unfolding(crate::specs::Reading::frame_part))]
fn frame_of(alloc: Global, bytes: &[u8]) -> Result<(Frame, &[u8]), ReadFault>
    ensures given { Gives (λ x. (x.0, x.1.now)) result (frame_part bytes.now) }
    ensures taken { IfOk result (λ x. IsTaken frame_bytes IsFrame bytes.now x.0 x.1.now) }
{
    let (length, behind) = number_of_four(bytes)?;
    let length = length as usize;
    if behind.len() < length {
        return Err(ReadFault::Content(ContentFault::Short));
    }
    let (body, rest) = behind.split_at(length);
    let frame = frame_in(alloc, body)?;
    Ok((frame, rest))
}

// The one frame of a body. A Hello of another version than the first would be written otherwise again, and so would be
// a Batch.
fn frame_in(alloc: Global, body: &[u8]) -> Result<Frame, ReadFault>
    requires { length body.now < 2 ^ 32 }
    ensures given { Gives (λ frame. frame) result (body_part body.now) }
    ensures taken { IfOk result (λ frame. IsFrame frame × (framed body.now ≡ frame_bytes frame)) }
{
    if body.is_empty() {
        return Err(BAD_FRAME);
    }
    if body[0] == BATCH_KIND {
        return Err(BAD_FRAME);
    }
    let mut reader = FrameReader::new(alloc);
    feed_framed(&mut reader, body)?;
    match reader.next() {
        Ok(Some(frame)) => {
            if reader.version() == FIRST_VERSION {
                Ok(frame)
            } else {
                Err(BAD_FRAME)
            }
        }
        Ok(None) => unreachable!(),
        Err(_) => Err(BAD_FRAME),
    }
}

// Feeds a body behind its length.
fn feed_framed(reader: &mut FrameReader, body: &[u8]) -> Result<(), signal::Memory>
    requires { length body.now < 2 ^ 32 }
    ensures { OnOk result (reader.new ≡ fed reader.old (framed body.now)) }
{
    let mut length = [0; LENGTH_SIZE];
    BigEndian::write_u32(&mut length, body.len() as u32);
    reader.feed(&length)?;
    reader.feed(body)
}
