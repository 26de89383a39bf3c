//! Frames as text, written as they are asked for: no memory is needed.
ghost use Rattle.std.specs.Prelude.{◌≡◌, ◌++◌, OnOk, codes, slice_get};
ghost use Rattle.std.specs.Fmt.{decimal};
ghost use Rattle.std.specs.Io.KnownBytes.{Appends};
ghost use Rattle.plan.specs.Federation.{connections_of};
ghost use Rattle.fedrun_frames.specs.FrameText.{input_name, input_text, signal_text, incarnation_text, frame_text};

use files_text::federate_name;
use plan::{Plan, Slots};
use signal::{Frame, Signal};
use std::io;
use std::io::Write;

/// Writes a frame: its name, its number, and what it carries.
pub(crate) fn write_frame<W: Write>(out: &mut W, plan: &Plan, frame: Frame) -> io::Result<()>
    ensures { OnOk result (Appends (W.contents out.old) (W.contents out.new) (frame_text plan.now frame)) }
{
    match frame {
        Frame::Hello(hello) => write_hello(out, hello.last_taken, hello.incarnation),
        Frame::Data {
            incarnation,
            number,
            signal,
        } => {
            write!(out, "Data {number} ")?;
            write_signal(out, plan, signal)?;
            write_incarnation(out, incarnation)
        }
        Frame::Ack {
            incarnation,
            last_taken,
        } => {
            write!(out, "Ack {last_taken}")?;
            write_incarnation(out, incarnation)
        }
        Frame::Refuse {
            incarnation,
            refusal,
        } => {
            write!(out, "Refuse {refusal}")?;
            write_incarnation(out, incarnation)
        }
    }
}

// Writes a greeting: which signal its sender took last.
fn write_hello<W: Write>(out: &mut W, last_taken: u64, incarnation: u32) -> io::Result<()>
    ensures { OnOk result (Appends (W.contents out.old) (W.contents out.new)
        (codes "Hello taken " ++ (decimal last_taken ++ incarnation_text incarnation))) }
{
    write_last_taken(out, last_taken)?;
    write_incarnation(out, incarnation)
}

fn write_last_taken<W: Write>(out: &mut W, last_taken: u64) -> io::Result<()>
    ensures { OnOk result (Appends (W.contents out.old) (W.contents out.new)
        (codes "Hello taken " ++ decimal last_taken)) }
{
    write!(out, "Hello taken {last_taken}")
}

// Writes an incarnation, where it isn't the first.
fn write_incarnation<W: Write>(out: &mut W, incarnation: u32) -> io::Result<()>
    ensures { OnOk result (Appends (W.contents out.old) (W.contents out.new) (incarnation_text incarnation)) }
{
    if incarnation == 1 {
        return Ok(());
    }
    write!(out, ", incarnation {incarnation}")
}

// Writes a signal: its name, its tag, and what a message brings.
fn write_signal<W: Write>(out: &mut W, plan: &Plan, signal: Signal) -> io::Result<()>
    ensures { OnOk result (Appends (W.contents out.old) (W.contents out.new) (signal_text plan.now signal)) }
{
    match signal {
        Signal::Net(tag) => write!(out, "NET {tag}"),
        Signal::Ltc(tag) => write!(out, "LTC {tag}"),
        Signal::Tag(tag) => write!(out, "TAG {tag}"),
        Signal::Msg {
            connection,
            tag,
            value,
        } => {
            write!(out, "MSG {tag} ")?;
            write_input(out, plan, usize::from(connection))?;
            write!(out, "={value}")
        }
    }
}

// Writes the input at which a connection ends.
fn write_input<W: Write>(out: &mut W, plan: &Plan, connection: usize) -> io::Result<()>
    ensures { OnOk result (Appends (W.contents out.old) (W.contents out.new)
        (input_text plan.now (slice_get (connections_of plan.now) connection))) }
{
    match plan.connections().get(connection) {
        Some(connection) => {
            let name = federate_name(plan, connection.target());
            let input = input_name(plan, connection.target(), connection.slot());
            write!(out, "{name}.{input}")
        }
        None => out.write_all(b"."),
    }
}

/// The name of the input at a slot of a federate, or an empty text where there is none.
pub fn input_name(plan: &Plan, federate: usize, slot: usize) -> &str
    ensures { result.now ≡ input_name (slice_get plan.now.federates federate) slot }
{
    let Some(federate) = plan.federates().get(federate) else {
        return "";
    };
    let place = slot.saturating_sub(Slots::FIRST_INPUT);
    match federate.slots.inputs.as_slice().get(place) {
        Some(name) => name.as_str(),
        None => "",
    }
}
