//! What came of a step, as text. No memory is needed.
ghost use Rattle.std.specs.Prelude.{◌≡◌, ◌++◌, ℕ, OnOk, length, codes, Option};
ghost use Rattle.std.specs.Fmt.{decimal};
ghost use Rattle.std.specs.Io.KnownBytes.{Appends};
ghost use Rattle.world_stations.specs.World.{frames_in, federate_of};
ghost use Rattle.world.specs.World.{stations_of};
ghost use Rattle.files_text.specs.PlanText.{federate_name};
ghost use Rattle.files_record.specs.StepText.{way_of, printed_step};
ghost use Rattle.fedrun_frames.specs.Brought.{nothing_text, done_text, ending_text};
ghost use Rattle.fedrun_frames.specs.Accounts.{sent_line, sent_after, link_text, sent_text, row_text, account_text};

use crate::account::Account;
use crate::brought::Brought;
use crate::counts::{LinkCounts, counts_of};
use crate::frame_text::write_frame;
use files_record::write_steps;
use files_text::{RowFormat, federate_name, write_rows};
use plan::Plan;
use reactor::Rows;
use signal::Frame;
use std::io;
use std::io::Write;
use world::World;
use world_stations::{Dir, Outcome, Step};

/// Writes what came of a step, in the world after it.
pub(crate) fn write_account<W: Write>(
    out: &mut W,
    plan: &Plan,
    world: &World<'_>,
    account: &Account,
) -> io::Result<()>
    ensures { OnOk result (Appends (W.contents out.old) (W.contents out.new)
        (account_text plan.now (stations_of world.now) account.now)) }
{
    write_step(out, plan, account.line, account.step)?;
    write_ending(out, account.brought, account.outcome)?;
    write_row(out, plan, &account.row)?;
    write_sent(out, plan, world, account.before.as_slice())
}

// Writes a step behind its line, as a schedule has it.
fn write_step<W: Write>(out: &mut W, plan: &Plan, line: usize, step: Step) -> io::Result<()>
    ensures { OnOk result (Appends (W.contents out.old) (W.contents out.new)
        (decimal line ++ (codes " " ++ printed_step plan.now step))) }
{
    write!(out, "{line} ")?;
    write_steps(out, plan, &[step])
}

// Writes how a step ended.
fn write_ending<W: Write>(out: &mut W, brought: Brought, outcome: Outcome) -> io::Result<()>
    ensures { OnOk result (Appends (W.contents out.old) (W.contents out.new) (ending_text brought outcome)) }
{
    match outcome {
        Outcome::Nothing => out.write_all(nothing_text(brought).as_bytes()),
        Outcome::Done => out.write_all(done_text(brought).as_bytes()),
        Outcome::Refused(number) => writeln!(out, "  refused {number}"),
    }
}

fn nothing_text(brought: Brought) -> &'static str
    ensures { result.now ≡ nothing_text brought }
{
    match brought {
        Brought::NoFrame => "  no such frame\n",
        Brought::NewSignal
        | Brought::KnownSignal
        | Brought::Note
        | Brought::Forgetting
        | Brought::Own => "  nothing\n",
    }
}

fn done_text(brought: Brought) -> &'static str
    ensures { result.now ≡ done_text brought }
{
    match brought {
        Brought::NoFrame | Brought::Own => "",
        Brought::NewSignal => "  taken\n",
        Brought::KnownSignal => "  taken before\n",
        Brought::Note => "  noted\n",
        Brought::Forgetting => "  forgotten\n",
    }
}

// Writes the row that a step made, if it made one.
fn write_row<W: Write>(out: &mut W, plan: &Plan, row: &Rows) -> io::Result<()>
    ensures { OnOk result (Appends (W.contents out.old) (W.contents out.new) (row_text plan.now row.now)) }
{
    if row.len() == 0 {
        return Ok(());
    }
    out.write_all(b"  ")?;
    write_rows(out, plan, row, RowFormat::Text)?;
    Ok(())
}

// Writes the frames sent over each link after this many, federate by federate.
fn write_sent<W: Write>(
    out: &mut W,
    plan: &Plan,
    world: &World<'_>,
    before: &[LinkCounts],
) -> io::Result<()>
    ensures { OnOk result (Appends (W.contents out.old) (W.contents out.new)
        (sent_text plan.now (stations_of world.now) before.now)) }
{
    for federate in 0..before.len() {
        write_link(out, plan, world, federate, counts_of(before, federate))?;
    }
    Ok(())
}

// Writes those of a federate, and then those to it.
fn write_link<W: Write>(
    out: &mut W,
    plan: &Plan,
    world: &World<'_>,
    federate: usize,
    before: LinkCounts,
) -> io::Result<()>
    ensures { OnOk result (Appends (W.contents out.old) (W.contents out.new)
        (link_text plan.now (stations_of world.now) before federate)) }
{
    write_sent_after(out, plan, world, Dir::Up(federate), before.up)?;
    write_sent_after(out, plan, world, Dir::Down(federate), before.down)
}

// Writes the frames of a direction after this many.
fn write_sent_after<W: Write>(
    out: &mut W,
    plan: &Plan,
    world: &World<'_>,
    dir: Dir,
    gone: usize,
) -> io::Result<()>
    ensures { OnOk result (Appends (W.contents out.old) (W.contents out.new)
        (sent_after plan.now dir gone (frames_in (stations_of world.now) dir))) }
{
    let sent = world.sent(dir);
    for before in gone..sent {
        write_sent_line(out, plan, dir, before + 1, world.frame(dir, before + 1))?;
    }
    Ok(())
}

// Writes a frame that was sent, if it is there, on a line of its own.
fn write_sent_line<W: Write>(
    out: &mut W,
    plan: &Plan,
    dir: Dir,
    k: usize,
    frame: Option<Frame>,
) -> io::Result<()>
    ensures { OnOk result (Appends (W.contents out.old) (W.contents out.new) (sent_line plan.now dir k frame)) }
{
    let Some(frame) = frame else {
        return Ok(());
    };
    write_name(out, plan, dir, k)?;
    write_frame(out, plan, frame)?;
    out.write_all(b"\n")
}

// Writes that a frame was sent, by the words that `deliver` names it with.
fn write_name<W: Write>(out: &mut W, plan: &Plan, dir: Dir, k: usize) -> io::Result<()>
    ensures { OnOk result (Appends (W.contents out.old) (W.contents out.new)
        (codes "  sent " ++ (way_of dir
        ++ (codes " " ++ (federate_name plan.now (federate_of dir) ++ (codes " " ++ (decimal k ++ codes ": "))))))) }
{
    let (way, federate) = match dir {
        Dir::Up(federate) => ("up", federate),
        Dir::Down(federate) => ("down", federate),
    };
    let name = federate_name(plan, federate);
    write!(out, "  sent {way} {name} {k}: ")
}
