//! How steps, frames and rows are written in a picture.
use crate::fault::OutOfMemory;
use files_pictures::shapes::Ink;
use files_record::write_steps;
use files_text::{RowFormat, federate_name, write_rows};
use plan::{Plan, Slots};
use reactor::Rows;
use signal::{Frame, Signal};
use std::alloc::{AllocError, Global};
use tag::{Tag, succ};
use world::{Outcome, Step};

/// The most bytes of the text of a row, or of a reaction; what is longer is cut.
const LONGEST_ROW: usize = 72;

/// A step, as a schedule has it, and how it ended, where it was refused.
pub(crate) fn step_text(
    alloc: Global,
    plan: &Plan,
    step: Step,
    outcome: Outcome,
) -> Result<String, OutOfMemory> {
    let line = step_line(alloc, plan, step)?;
    let words = str::from_utf8(line.as_slice()).unwrap_or("").trim_end();
    let text = match outcome {
        Outcome::Refused(refusal) => format!(in alloc; "{words} refused {refusal}")?,
        Outcome::Nothing | Outcome::Done => String::from_str(alloc, words)?,
    };
    Ok(text)
}

// A step as a line of a schedule.
fn step_line(alloc: Global, plan: &Plan, step: Step) -> Result<Vec<u8>, OutOfMemory> {
    let mut line = Vec::new(alloc);
    match write_steps(&mut line, plan, [step].as_slice()) {
        Ok(()) => Ok(line),
        Err(_) => Err(OutOfMemory),
    }
}

/// A frame: its number in its direction, and what it says.
pub(crate) fn frame_text(
    alloc: Global,
    plan: &Plan,
    number: usize,
    frame: &Frame,
) -> Result<String, AllocError> {
    let mut text = String::new(alloc);
    write!(text, "{number} ")?;
    push_frame(&mut text, plan, frame)?;
    Ok(text)
}

// Adds what a frame says.
fn push_frame(text: &mut String, plan: &Plan, frame: &Frame) -> Result<(), AllocError> {
    match frame {
        Frame::Hello(hello) => push_count(text, "Hello", hello.last_taken),
        Frame::Data { signal, .. } => push_signal(text, plan, *signal),
        Frame::Ack { last_taken, .. } => push_count(text, "Ack", *last_taken),
        Frame::Refuse { refusal, .. } => push_count(text, "Refuse", u64::from(*refusal)),
    }
}

fn push_count(text: &mut String, word: &str, count: u64) -> Result<(), AllocError> {
    write!(text, "{word} {count}")
}

// Adds a signal.
fn push_signal(text: &mut String, plan: &Plan, signal: Signal) -> Result<(), AllocError> {
    match signal {
        Signal::Net(tag) => push_tagged(text, "NET", tag),
        Signal::Ltc(tag) => push_tagged(text, "LTC", tag.tag()),
        Signal::Tag(tag) => push_tagged(text, "TAG", tag.tag()),
        Signal::Msg {
            connection,
            tag,
            value,
        } => {
            push_port(text, plan, usize::from(connection))?;
            write!(text, "={value} ")?;
            push_tag(text, tag.tag())
        }
    }
}

// Adds a word and a tag.
fn push_tagged(text: &mut String, word: &str, tag: Tag) -> Result<(), AllocError> {
    write!(text, "{word} ")?;
    push_tag(text, tag)
}

// Adds a tag. The last one of its time, as grants have it, stands as what it is: just before the next time.
fn push_tag(text: &mut String, tag: Tag) -> Result<(), AllocError> {
    if tag.microstep() == u32::MAX {
        let next = succ(tag);
        write!(text, "just before {next}")
    } else {
        write!(text, "{tag}")
    }
}

// Adds to which port a message goes.
fn push_port(text: &mut String, plan: &Plan, connection: usize) -> Result<(), AllocError> {
    let Some(connection) = plan.connections().get(connection) else {
        return write!(text, "MSG");
    };
    let place = connection.slot().saturating_sub(Slots::FIRST_INPUT);
    push_input(text, plan, connection.target(), place)
}

// Adds an input port.
fn push_input(
    text: &mut String,
    plan: &Plan,
    federate: usize,
    place: usize,
) -> Result<(), AllocError> {
    let name = federate_name(plan, federate);
    let port = input_name(plan, federate, place);
    write!(text, "MSG {name}.{port}")
}

// The name of an input; empty where there is none.
fn input_name(plan: &Plan, federate: usize, place: usize) -> &str {
    let Some(federate) = plan.federates().get(federate) else {
        return "";
    };
    match federate.slots.inputs.as_slice().get(place) {
        Some(name) => name.as_str(),
        None => "",
    }
}

/// The ink of a frame.
pub(crate) fn frame_ink(frame: &Frame) -> Ink {
    match frame {
        Frame::Hello(_) => Ink::Hello,
        Frame::Data { signal, .. } => signal_ink(*signal),
        Frame::Ack { .. } => Ink::Ack,
        Frame::Refuse { .. } => Ink::Refused,
    }
}

fn signal_ink(signal: Signal) -> Ink {
    match signal {
        Signal::Net(_) => Ink::Net,
        Signal::Ltc(_) => Ink::Ltc,
        Signal::Tag(_) => Ink::Tag,
        Signal::Msg { .. } => Ink::Msg,
    }
}

/// The row at a place, as rows are printed, without its federate's name. What is too long is cut.
pub(crate) fn row_text(
    alloc: Global,
    plan: &Plan,
    rows: &Rows,
    place: usize,
) -> Result<String, OutOfMemory> {
    let line = row_line(alloc, plan, rows, place)?;
    let text = cut_text(alloc, str::from_utf8(line.as_slice()).unwrap_or(""))?;
    Ok(text)
}

// The row at a place as a line.
fn row_line(alloc: Global, plan: &Plan, rows: &Rows, place: usize) -> Result<Vec<u8>, OutOfMemory> {
    let one = one_row(alloc, rows, place)?;
    let mut line = Vec::new(alloc);
    match write_rows(&mut line, plan, &one, RowFormat::Text) {
        Ok(()) => Ok(line),
        Err(_) => Err(OutOfMemory),
    }
}

// The row at a place, alone.
fn one_row(alloc: Global, rows: &Rows, place: usize) -> Result<Rows, OutOfMemory> {
    let mut one = Rows::new(alloc);
    if place < rows.len() {
        let row = rows.row(place);
        let pushed = one.push(row.federate(), row.tag(), row.inputs(), row.outputs());
        if pushed.is_err() {
            return Err(OutOfMemory);
        }
    }
    Ok(one)
}

// A line without its first word, and cut where it is too long.
fn cut_text(alloc: Global, line: &str) -> Result<String, AllocError> {
    let mut text = String::new(alloc);
    let mut is_past_name = false;
    for letter in line.chars() {
        if is_past_name && letter != '\n' {
            push_letter(&mut text, letter)?;
        }
        is_past_name = is_past_name || letter == ' ';
    }
    if text.len() >= LONGEST_ROW {
        text.push_str("...")?;
    }
    Ok(text)
}

/// A text, cut where it is too long.
pub(crate) fn cut(alloc: Global, text: &str) -> Result<String, AllocError> {
    let mut short = String::new(alloc);
    for letter in text.chars() {
        push_letter(&mut short, letter)?;
    }
    if text.len() > LONGEST_ROW {
        short.push_str("...")?;
    }
    Ok(short)
}

// Adds a letter, where there is room.
fn push_letter(text: &mut String, letter: char) -> Result<(), AllocError> {
    if text.len() < LONGEST_ROW {
        text.push(letter)?;
    }
    Ok(())
}
