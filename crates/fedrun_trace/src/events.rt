//! Events of the trace, one of each kind.
ghost use Rattle.std.specs.Prelude.{OnOk};
ghost use Rattle.std.specs.Io.KnownBytes.{Appends};
ghost use Rattle.fedrun_trace.specs.Events.{begin_text, place_text, event_text, track_name, track_order, track_text};
ghost use Rattle.fedrun_trace.specs.Events.{seen_members, arrow_member, start_text, end_text, undelivered_name};
ghost use Rattle.fedrun_trace.specs.Events.{undelivered_head, undelivered_text};

use crate::carried::{frame_name, write_sent};
use crate::escaping::write_escaped;
use crate::seen_frame::SeenFrame;
use crate::tracks::{receiver_track, sender_track};
use plan::Plan;
use signal::Frame;
use std::io;
use std::io::Write;

/// Writes an event of this kind, up to its name.
#[tactic(auto, unfolding(crate::specs::Events::begin_text))]
pub(crate) fn write_beginning<W: Write>(out: &mut W, kind: &str) -> io::Result<()>
    ensures { OnOk result (Appends (W.contents out.old) (W.contents out.new) (begin_text kind.now)) }
{
    out.write_all(b",\n{\"ph\":\"")?;
    write!(out, "{kind}\",\"name\":\"")
}

/// Writes the end of its name, and where it stands.
#[tactic(auto, unfolding(crate::specs::Events::place_text))]
pub(crate) fn write_place<W: Write>(out: &mut W, track: usize, step: usize) -> io::Result<()>
    ensures { OnOk result (Appends (W.contents out.old) (W.contents out.new) (place_text track step)) }
{
    write!(out, "\",\"pid\":1,\"tid\":{track},\"ts\":{step}")
}

// Writes an event of this kind with this name, up to there.
#[tactic(auto, unfolding(crate::specs::Events::event_text))]
fn write_event<W: Write>(
    out: &mut W,
    kind: &str,
    name: &str,
    track: usize,
    step: usize,
) -> io::Result<()>
    ensures { OnOk result (Appends (W.contents out.old) (W.contents out.new)
        (event_text kind.now name.now track step)) }
{
    write_beginning(out, kind)?;
    out.write_all(name.as_bytes())?;
    write_place(out, track, step)
}

/// Writes a track.
#[tactic(auto, unfolding(crate::specs::Events::track_text))]
pub(crate) fn write_track<W: Write>(out: &mut W, track: usize, name: &str) -> io::Result<()>
    ensures { OnOk result (Appends (W.contents out.old) (W.contents out.new) (track_text track name.now)) }
{
    write_track_name(out, track, name)?;
    write_track_order(out, track)
}

// Writes the name of a track.
fn write_track_name<W: Write>(out: &mut W, track: usize, name: &str) -> io::Result<()>
    ensures { OnOk result (Appends (W.contents out.old) (W.contents out.new) (track_name track name.now)) }
{
    write_event(out, "M", "thread_name", track, 0)?;
    out.write_all(b",\"args\":{\"name\":\"")?;
    write_escaped(out, name)?;
    out.write_all(b"\"}}")
}

// Writes the place of a track among the others.
#[tactic(auto, unfolding(crate::specs::Events::track_order))]
fn write_track_order<W: Write>(out: &mut W, track: usize) -> io::Result<()>
    ensures { OnOk result (Appends (W.contents out.old) (W.contents out.new) (track_order track)) }
{
    write_event(out, "M", "thread_sort_index", track, 0)?;
    out.write_all(b",\"args\":{\"sort_index\":")?;
    write!(out, "{track}")?;
    out.write_all(b"}}")
}

// Writes which frame it is, and what it carries.
#[tactic(auto, unfolding(crate::specs::Events::seen_members))]
fn write_seen<W: Write>(out: &mut W, plan: &Plan, seen: &SeenFrame) -> io::Result<()>
    ensures { OnOk result (Appends (W.contents out.old) (W.contents out.new) (seen_members plan.now seen.now)) }
{
    out.write_all(b",\"args\":{")?;
    write_sent(out, plan, seen.dir, seen.number, seen.frame)
}

// Writes which arrow it is: that to the step of this number.
#[tactic(auto, unfolding(crate::specs::Events::arrow_member))]
fn write_arrow<W: Write>(out: &mut W, delivered: usize) -> io::Result<()>
    ensures { OnOk result (Appends (W.contents out.old) (W.contents out.new) (arrow_member delivered)) }
{
    write!(out, ",\"cat\":\"frame\",\"id\":{delivered}")
}

/// Writes where an arrow begins: a frame is sent, which the step of this number delivers.
#[tactic(auto, unfolding(crate::specs::Events::start_text))]
pub(crate) fn write_start<W: Write>(
    out: &mut W,
    plan: &Plan,
    seen: &SeenFrame,
    delivered: usize,
) -> io::Result<()>
    ensures { OnOk result (Appends (W.contents out.old) (W.contents out.new)
        (start_text plan.now seen.now delivered)) }
{
    let track = sender_track(plan, seen.dir);
    write_event(out, "s", frame_name(seen.frame), track, seen.step)?;
    write_arrow(out, delivered)?;
    write_seen(out, plan, seen)?;
    out.write_all(b"}}")
}

/// Writes where an arrow ends, up to how that step ended.
#[tactic(auto, unfolding(crate::specs::Events::end_text))]
pub(crate) fn write_end<W: Write>(out: &mut W, plan: &Plan, seen: &SeenFrame) -> io::Result<()>
    ensures { OnOk result (Appends (W.contents out.old) (W.contents out.new) (end_text plan.now seen.now)) }
{
    let track = receiver_track(plan, seen.dir);
    write_event(out, "f", frame_name(seen.frame), track, seen.step)?;
    out.write_all(b",\"bp\":\"e\"")?;
    write_arrow(out, seen.step)?;
    write_seen(out, plan, seen)
}

/// Writes a mark for a frame that is sent and that no step delivers.
#[tactic(auto, unfolding(crate::specs::Events::undelivered_text))]
pub(crate) fn write_undelivered<W: Write>(
    out: &mut W,
    plan: &Plan,
    seen: &SeenFrame,
) -> io::Result<()>
    ensures { OnOk result (Appends (W.contents out.old) (W.contents out.new)
        (undelivered_text plan.now seen.now)) }
{
    write_undelivered_head(out, plan, seen)?;
    out.write_all(b",\"cat\":\"frame\",\"s\":\"t\"")?;
    write_seen(out, plan, seen)?;
    out.write_all(b"}}")
}

// Writes it up to where that is.
#[tactic(auto, unfolding(crate::specs::Events::undelivered_head))]
fn write_undelivered_head<W: Write>(out: &mut W, plan: &Plan, seen: &SeenFrame) -> io::Result<()>
    ensures { OnOk result (Appends (W.contents out.old) (W.contents out.new)
        (undelivered_head plan.now seen.now)) }
{
    write_beginning(out, "i")?;
    write_undelivered_name(out, seen.frame)?;
    write_place(out, sender_track(plan, seen.dir), seen.step)
}

// Writes what the mark of a frame is called that no step delivers.
fn write_undelivered_name<W: Write>(out: &mut W, frame: Frame) -> io::Result<()>
    ensures { OnOk result (Appends (W.contents out.old) (W.contents out.new) (undelivered_name frame)) }
{
    let name = frame_name(frame);
    write!(out, "{name} never delivered")
}
