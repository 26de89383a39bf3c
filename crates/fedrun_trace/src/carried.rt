//! Frames: their names, and what they carry.
ghost use Rattle.std.specs.Prelude.{◌≡◌, ◌++◌, OnOk, codes, slice_get};
ghost use Rattle.std.specs.Fmt.{decimal};
ghost use Rattle.std.specs.Io.KnownBytes.{Appends};
ghost use Rattle.plan.specs.Federation.{connections_of};
ghost use Rattle.world_stations.specs.World.{federate_of};
ghost use Rattle.files_record.specs.StepText.{way_of};
ghost use Rattle.fedrun_trace.specs.Frames.{signal_name, frame_name, name_text, way_text, sent_name, tag_member};
ghost use Rattle.fedrun_trace.specs.Frames.{port_text, port_member, input_member, value_member, signal_members};
ghost use Rattle.fedrun_trace.specs.Frames.{incarnation_member, taken_members, refusal_members, number_member};
ghost use Rattle.fedrun_trace.specs.Frames.{frame_members, sent_members};

use crate::escaping::write_escaped;
use fedrun_frames::frame_text::input_name;
use files_text::federate_name;
use plan::Plan;
use signal::{Frame, Signal};
use std::io;
use std::io::Write;
use tag::Tag;
use world_stations::Dir;

/// A frame's name: that of the signal that it carries, if it carries one.
pub(crate) fn frame_name(frame: Frame) -> &'static str
    ensures { result.now ≡ frame_name frame }
{
    match frame {
        Frame::Hello(_) => "Hello",
        Frame::Data { signal, .. } => signal_name(signal),
        Frame::Ack { .. } => "Ack",
        Frame::Refuse { .. } => "Refuse",
    }
}

fn signal_name(signal: Signal) -> &'static str
    ensures { result.now ≡ signal_name signal }
{
    match signal {
        Signal::Net(_) => "NET",
        Signal::Ltc(_) => "LTC",
        Signal::Tag(_) => "TAG",
        Signal::Msg { .. } => "MSG",
    }
}

/// Writes a federate's name.
pub(crate) fn write_name<W: Write>(out: &mut W, plan: &Plan, federate: usize) -> io::Result<()>
    ensures { OnOk result (Appends (W.contents out.old) (W.contents out.new) (name_text plan.now federate)) }
{
    write_escaped(out, federate_name(plan, federate))
}

/// Writes one direction of a link.
pub(crate) fn write_way<W: Write>(out: &mut W, plan: &Plan, dir: Dir) -> io::Result<()>
    ensures { OnOk result (Appends (W.contents out.old) (W.contents out.new) (way_text plan.now dir)) }
{
    let (way, federate) = match dir {
        Dir::Up(federate) => ("up ", federate),
        Dir::Down(federate) => ("down ", federate),
    };
    out.write_all(way.as_bytes())?;
    write_name(out, plan, federate)
}

/// Writes a frame of a direction, by the words that `deliver` names it with.
pub(crate) fn write_sent_name<W: Write>(
    out: &mut W,
    plan: &Plan,
    dir: Dir,
    k: usize,
) -> io::Result<()>
    ensures { OnOk result (Appends (W.contents out.old) (W.contents out.new) (sent_name plan.now dir k)) }
{
    write_way(out, plan, dir)?;
    write!(out, " {k}")
}

/// Writes a tag.
#[tactic(auto, unfolding(crate::specs::Frames::tag_member))]
pub(crate) fn write_tag<W: Write>(out: &mut W, tag: Tag) -> io::Result<()>
    ensures { OnOk result (Appends (W.contents out.old) (W.contents out.new) (tag_member tag)) }
{
    write!(out, ",\"tag\":\"{tag}\"")
}

/// Writes which frame it is, and what it carries.
#[tactic(auto, unfolding(crate::specs::Frames::sent_members))]
pub(crate) fn write_sent<W: Write>(
    out: &mut W,
    plan: &Plan,
    dir: Dir,
    k: usize,
    frame: Frame,
) -> io::Result<()>
    ensures { OnOk result (Appends (W.contents out.old) (W.contents out.new) (sent_members plan.now dir k frame)) }
{
    out.write_all(b"\"frame\":\"")?;
    write_sent_name(out, plan, dir, k)?;
    out.write_all(b"\"")?;
    write_frame(out, plan, frame)
}

/// Writes what a frame carries.
#[tactic(auto, unfolding(crate::specs::Frames::frame_members))]
pub(crate) fn write_frame<W: Write>(out: &mut W, plan: &Plan, frame: Frame) -> io::Result<()>
    ensures { OnOk result (Appends (W.contents out.old) (W.contents out.new) (frame_members plan.now frame)) }
{
    match frame {
        Frame::Hello(hello) => write_taken(out, hello.last_taken, hello.incarnation),
        Frame::Data {
            incarnation,
            number,
            signal,
        } => {
            write_number(out, number)?;
            write_signal(out, plan, signal)?;
            write_incarnation(out, incarnation)
        }
        Frame::Ack {
            incarnation,
            last_taken,
        } => write_taken(out, last_taken, incarnation),
        Frame::Refuse {
            incarnation,
            refusal,
        } => write_refusal(out, refusal, incarnation),
    }
}

// Writes the number of a signal.
#[tactic(auto, unfolding(crate::specs::Frames::number_member))]
fn write_number<W: Write>(out: &mut W, number: u64) -> io::Result<()>
    ensures { OnOk result (Appends (W.contents out.old) (W.contents out.new) (number_member number)) }
{
    write!(out, ",\"number\":{number}")
}

// Writes why it refuses frames of an incarnation.
fn write_refusal<W: Write>(out: &mut W, refusal: u16, incarnation: u32) -> io::Result<()>
    ensures { OnOk result (Appends (W.contents out.old) (W.contents out.new) (refusal_members refusal incarnation)) }
{
    write!(out, ",\"refusal\":{refusal}")?;
    write_incarnation(out, incarnation)
}

// Writes which signal its sender took last.
#[tactic(auto, unfolding(crate::specs::Frames::taken_members))]
fn write_taken<W: Write>(out: &mut W, last_taken: u64, incarnation: u32) -> io::Result<()>
    ensures { OnOk result (Appends (W.contents out.old) (W.contents out.new) (taken_members last_taken incarnation)) }
{
    write!(out, ",\"taken\":{last_taken}")?;
    write_incarnation(out, incarnation)
}

#[tactic(auto, unfolding(crate::specs::Frames::incarnation_member))]
fn write_incarnation<W: Write>(out: &mut W, incarnation: u32) -> io::Result<()>
    ensures { OnOk result (Appends (W.contents out.old) (W.contents out.new) (incarnation_member incarnation)) }
{
    write!(out, ",\"incarnation\":{incarnation}")
}

// Writes what a signal says.
fn write_signal<W: Write>(out: &mut W, plan: &Plan, signal: Signal) -> io::Result<()>
    ensures { OnOk result (Appends (W.contents out.old) (W.contents out.new) (signal_members plan.now signal)) }
{
    match signal {
        Signal::Net(tag) => write_tag(out, tag),
        Signal::Ltc(tag) | Signal::Tag(tag) => write_tag(out, tag.tag()),
        Signal::Msg {
            connection,
            tag,
            value,
        } => {
            write_tag(out, tag.tag())?;
            write_input(out, plan, usize::from(connection))?;
            write_value(out, value)
        }
    }
}

// Writes the input at which a connection ends.
fn write_input<W: Write>(out: &mut W, plan: &Plan, connection: usize) -> io::Result<()>
    ensures { OnOk result (Appends (W.contents out.old) (W.contents out.new)
        (input_member plan.now (slice_get (connections_of plan.now) connection))) }
{
    match plan.connections().get(connection) {
        Some(connection) => write_port_member(out, plan, connection.target(), connection.slot()),
        None => Ok(()),
    }
}

// Writes the input at a slot of a federate, as a member.
fn write_port_member<W: Write>(
    out: &mut W,
    plan: &Plan,
    federate: usize,
    slot: usize,
) -> io::Result<()>
    ensures { OnOk result (Appends (W.contents out.old) (W.contents out.new) (port_member plan.now federate slot)) }
{
    out.write_all(b",\"input\":\"")?;
    write_port(out, plan, federate, slot)?;
    out.write_all(b"\"")
}

// Writes the input at a slot of a federate.
#[tactic(auto, unfolding(crate::specs::Frames::port_text))]
fn write_port<W: Write>(out: &mut W, plan: &Plan, federate: usize, slot: usize) -> io::Result<()>
    ensures { OnOk result (Appends (W.contents out.old) (W.contents out.new) (port_text plan.now federate slot)) }
{
    write_name(out, plan, federate)?;
    out.write_all(b".")?;
    write_escaped(out, input_name(plan, federate, slot))
}

// Writes the value of a message.
#[tactic(auto, unfolding(crate::specs::Frames::value_member))]
fn write_value<W: Write>(out: &mut W, value: i64) -> io::Result<()>
    ensures { OnOk result (Appends (W.contents out.old) (W.contents out.new) (value_member value)) }
{
    write!(out, ",\"value\":{value}")
}
