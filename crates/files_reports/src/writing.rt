//! The bytes of rows and journals, written behind others.

ghost use Rattle.std.specs.Prelude.{◌≡◌, ◌++◌, ◌∷◌, [], OnOk, All};
ghost use Rattle.byteorder.specs.Endian.{big_bytes};
ghost use Rattle.files_reports.specs.Said.{IsRowOf, IsEvent, AreCounted};
ghost use Rattle.files_reports.specs.Spelling.{counted, row_bytes, event_bytes};

use crate::appending::{append_eight, append_entries, append_tag};
use crate::layout::{ADVANCE_KIND, ANNOUNCE_KIND, FRAME_KIND, HELLO_KIND, RESEND_KIND};
use crate::memory::Memory;
use node::Event;
use node_journal::Journal;
use reactor::{RowView, Rows};
use signal::{Frame, write_frame};

/// Appends a federate's rows behind their count.
pub fn append_rows(bytes: &mut Vec<u8>, federate: usize, rows: &Rows) -> Result<(), Memory>
    requires { All (λ row. row.reactor ≡ federate) rows.now }
    ensures written { OnOk result (bytes.new.items ≡ bytes.old.items ++ counted row_bytes rows.now) }
    ensures are_rows { OnOk result (AreCounted (IsRowOf federate) rows.now) }
{
    append_eight(bytes, rows.len() as u64)?;
    for place in 0..rows.len() {
        append_row(bytes, &rows.row(place))?;
    }
    Ok(())
}

fn append_row(bytes: &mut Vec<u8>, row: &RowView) -> Result<(), Memory>
    ensures written { OnOk result (bytes.new.items ≡ bytes.old.items ++ row_bytes row.now) }
    ensures is_row { OnOk result (IsRowOf row.now.reactor row.now) }
{
    append_tag(bytes, row.tag())?;
    append_entries(bytes, row.inputs())?;
    append_entries(bytes, row.outputs())
}

/// Appends a journal behind the count of its events.
pub fn append_journal(bytes: &mut Vec<u8>, journal: &Journal) -> Result<(), Memory>
    ensures written { OnOk result (bytes.new.items ≡ bytes.old.items ++ counted event_bytes journal.now) }
    ensures are_events { OnOk result (AreCounted IsEvent journal.now) }
{
    append_eight(bytes, journal.len() as u64)?;
    let mut block = 0;
    for place in 0..journal.len() {
        append_event(bytes, journal.event(place, &mut block))?;
    }
    Ok(())
}

/// Appends an event. Logs write theirs by it too.
pub fn append_event(bytes: &mut Vec<u8>, event: Event) -> Result<(), Memory>
    ensures written { OnOk result (bytes.new.items ≡ bytes.old.items ++ event_bytes event) }
    ensures is_event { OnOk result (IsEvent event) }
{
    match event {
        Event::Frame(peer, frame) => append_arrival(bytes, peer, &frame),
        Event::Resend(peer) => append_kind_and_peer(bytes, RESEND_KIND, peer),
        Event::Hello(peer) => append_kind_and_peer(bytes, HELLO_KIND, peer),
        Event::Announce => append_kind(bytes, ANNOUNCE_KIND),
        Event::Advance => append_kind(bytes, ADVANCE_KIND),
    }
}

fn append_arrival(bytes: &mut Vec<u8>, peer: usize, frame: &Frame) -> Result<(), Memory>
    ensures written { OnOk result (bytes.new.items ≡ bytes.old.items ++ event_bytes (Event.Frame peer frame.now)) }
    ensures is_event { IsEvent (Event.Frame peer frame.now) }
{
    frame.invariant();
    append_kind_and_peer(bytes, FRAME_KIND, peer)?;
    write_frame(frame, bytes)?;
    Ok(())
}

fn append_kind_and_peer(bytes: &mut Vec<u8>, kind: u8, peer: usize) -> Result<(), Memory>
    ensures { OnOk result (bytes.new.items ≡ bytes.old.items ++ kind ∷ big_bytes 8 peer) }
{
    append_kind(bytes, kind)?;
    append_eight(bytes, peer as u64)
}

fn append_kind(bytes: &mut Vec<u8>, kind: u8) -> Result<(), Memory>
    ensures { OnOk result (bytes.new.items ≡ bytes.old.items ++ kind ∷ []) }
{
    bytes.push(kind)?;
    Ok(())
}
