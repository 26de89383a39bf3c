//! The slice of a step: what it is called, and what is told of it.
ghost use Rattle.std.specs.Prelude.{◌≡◌, OnOk};
ghost use Rattle.std.specs.Io.KnownBytes.{Appends};
ghost use Rattle.fedrun_trace.specs.Steps.{idle_word, done_word, ended_text, step_word, own_word, slice_word};
ghost use Rattle.fedrun_trace.specs.Steps.{step_name, found_members, line_members, slice_members, slice_name};
ghost use Rattle.fedrun_trace.specs.Steps.{slice_args, slice_text};

use crate::carried::{frame_name, write_frame, write_name, write_sent_name, write_way};
use crate::events::{write_beginning, write_place};
use crate::tracks::step_track;
use crate::turns::write_row;
use fedrun_frames::{Account, Brought};
use plan::Plan;
use signal::Frame;
use std::io;
use std::io::Write;
use world_stations::{Outcome, Step};

/// Writes the slice of a step with this number, which delivered this frame, if it delivered one.
#[tactic(auto, unfolding(crate::specs::Steps::slice_text))]
pub(crate) fn write_slice<W: Write>(
    out: &mut W,
    plan: &Plan,
    number: usize,
    found: &Option<Frame>,
    account: &Account,
) -> io::Result<()>
    ensures { OnOk result (Appends (W.contents out.old) (W.contents out.new)
        (slice_text plan.now number found.now account.now)) }
{
    write_beginning(out, "X")?;
    write_slice_name(out, found, account)?;
    write_place(out, step_track(plan, account.step()), number)?;
    write_slice_args(out, plan, found, account)
}

// Writes what a slice is called, with how the step ended.
#[tactic(auto, unfolding(crate::specs::Steps::slice_name))]
fn write_slice_name<W: Write>(
    out: &mut W,
    found: &Option<Frame>,
    account: &Account,
) -> io::Result<()>
    ensures { OnOk result (Appends (W.contents out.old) (W.contents out.new) (slice_name found.now account.now)) }
{
    out.write_all(slice_word(found, account).as_bytes())?;
    out.write_all(b" ")?;
    write_ended(out, account.brought(), account.outcome())
}

// Writes how long a slice is, and what is told of the step.
fn write_slice_args<W: Write>(
    out: &mut W,
    plan: &Plan,
    found: &Option<Frame>,
    account: &Account,
) -> io::Result<()>
    ensures { OnOk result (Appends (W.contents out.old) (W.contents out.new)
        (slice_args plan.now found.now account.now)) }
{
    out.write_all(b",\"dur\":1,\"cat\":\"step\",\"args\":{")?;
    write_members(out, plan, found, account)?;
    out.write_all(b"}}")
}

// What a slice is called: by the frame that the step delivered, if it delivered one.
fn slice_word(found: &Option<Frame>, account: &Account) -> &'static str
    ensures { result.now ≡ slice_word account.now.step found.now account.now.row }
{
    match found {
        Some(frame) => frame_name(*frame),
        None => own_word(account),
    }
}

fn own_word(account: &Account) -> &'static str
    ensures { result.now ≡ own_word account.now.step account.now.row }
{
    if account.row().len() == 0 {
        step_word(account.step())
    } else {
        "turn"
    }
}

fn step_word(step: Step) -> &'static str
    ensures { result.now ≡ step_word step }
{
    match step {
        Step::Deliver(_, _) => "deliver",
        Step::Resend(_) => "resend",
        Step::Reconnect(_) => "reconnect",
        Step::Announce(_) => "announce",
        Step::Advance(_) => "advance",
        Step::Forget(_) => "forget",
    }
}

/// Writes how a step ended that brought this.
pub(crate) fn write_ended<W: Write>(
    out: &mut W,
    brought: Brought,
    outcome: Outcome,
) -> io::Result<()>
    ensures { OnOk result (Appends (W.contents out.old) (W.contents out.new) (ended_text brought outcome)) }
{
    match outcome {
        Outcome::Nothing => out.write_all(idle_word(brought).as_bytes()),
        Outcome::Done => out.write_all(done_word(brought).as_bytes()),
        Outcome::Refused(number) => write!(out, "refused {number}"),
    }
}

fn idle_word(brought: Brought) -> &'static str
    ensures { result.now ≡ idle_word brought }
{
    match brought {
        Brought::NoFrame => "no such frame",
        Brought::NewSignal
        | Brought::KnownSignal
        | Brought::Note
        | Brought::Forgetting
        | Brought::Own => "nothing",
    }
}

fn done_word(brought: Brought) -> &'static str
    ensures { result.now ≡ done_word brought }
{
    match brought {
        Brought::NoFrame | Brought::Own => "done",
        Brought::NewSignal => "taken",
        Brought::KnownSignal => "taken before",
        Brought::Note => "noted",
        Brought::Forgetting => "forgotten",
    }
}

// Writes what is told of a step: its line, its words, what it delivered, the row that it made.
#[tactic(auto, unfolding(crate::specs::Steps::slice_members))]
fn write_members<W: Write>(
    out: &mut W,
    plan: &Plan,
    found: &Option<Frame>,
    account: &Account,
) -> io::Result<()>
    ensures { OnOk result (Appends (W.contents out.old) (W.contents out.new)
        (slice_members plan.now found.now account.now)) }
{
    write_line(out, plan, account.line(), account.step())?;
    write_found(out, plan, found)?;
    write_row(out, plan, account.row())
}

// Writes the line that a step was made for, and the step.
#[tactic(auto, unfolding(crate::specs::Steps::line_members))]
fn write_line<W: Write>(out: &mut W, plan: &Plan, line: usize, step: Step) -> io::Result<()>
    ensures { OnOk result (Appends (W.contents out.old) (W.contents out.new) (line_members plan.now line step)) }
{
    write!(out, "\"line\":{line},\"step\":\"")?;
    write_step_name(out, plan, step)?;
    out.write_all(b"\"")
}

// Writes what the frame carries that a step delivered, if it delivered one.
fn write_found<W: Write>(out: &mut W, plan: &Plan, found: &Option<Frame>) -> io::Result<()>
    ensures { OnOk result (Appends (W.contents out.old) (W.contents out.new) (found_members plan.now found.now)) }
{
    match found {
        Some(frame) => write_frame(out, plan, *frame),
        None => Ok(()),
    }
}

// Writes a step in the words of a schedule.
fn write_step_name<W: Write>(out: &mut W, plan: &Plan, step: Step) -> io::Result<()>
    ensures { OnOk result (Appends (W.contents out.old) (W.contents out.new) (step_name plan.now step)) }
{
    out.write_all(step_word(step).as_bytes())?;
    out.write_all(b" ")?;
    match step {
        Step::Deliver(dir, k) => write_sent_name(out, plan, dir, k),
        Step::Resend(dir) | Step::Reconnect(dir) => write_way(out, plan, dir),
        Step::Announce(federate) | Step::Advance(federate) | Step::Forget(federate) => {
            write_name(out, plan, federate)
        }
    }
}
