//! What is printed at the end.
ghost use Rattle.std.specs.Prelude.{◌≡◌, ◌<◌, ◌++◌, OnOk};
ghost use Rattle.std.specs.Io.KnownBytes.{Appends};
ghost use Rattle.plan.specs.Federation.{federate_count};
ghost use Rattle.files_text.specs.CsvText.{csv_header};
ghost use Rattle.files_text.specs.declared.row_format.RowFormat.TheVariants.{Csv};
ghost use Rattle.fedrun_replay.specs.Replayed.{forgotten, history, each_history, histories, verdict, IsClosed, IsEnded};

use files_text::{RowFormat, federate_name, write_heading, write_rows};
use plan::Plan;
use std::io;
use std::io::Write;
use world::World;

/// Writes how closing rounds ended, if some were asked for; then each federate's history, and the end.
pub fn write_end<W: Write>(
    out: &mut W,
    plan: &Plan,
    world: &World<'_>,
    closing: Option<u32>,
) -> io::Result<()>
    requires { plan.now ≡ world.now.draft }
    ensures { OnOk result (IsEnded closing world.now (W.contents out.old) (W.contents out.new)) }
{
    match closing {
        Some(most) => write_closed(out, plan, world, most),
        None => write_histories(out, plan, world),
    }
}

// Writes how closing rounds ended, each federate's history, and the end.
fn write_closed<W: Write>(out: &mut W, plan: &Plan, world: &World<'_>, most: u32) -> io::Result<()>
    requires { plan.now ≡ world.now.draft }
    ensures { OnOk result (IsClosed most world.now (W.contents out.old) (W.contents out.new)) }
{
    write_verdict(out, most, world.stuck())?;
    write_histories(out, plan, world)
}

// Writes that the world is stuck, or how many rounds were made.
fn write_verdict<W: Write>(out: &mut W, most: u32, is_stuck: bool) -> io::Result<()>
    ensures { OnOk result (Appends (W.contents out.old) (W.contents out.new) (verdict most is_stuck)) }
{
    if is_stuck {
        out.write_all(b"stuck\n")
    } else {
        writeln!(out, "stopped at {most} rounds")
    }
}

// Writes each federate's rows, or that it forgot; then the end.
fn write_histories<W: Write>(out: &mut W, plan: &Plan, world: &World<'_>) -> io::Result<()>
    requires { plan.now ≡ world.now.draft }
    ensures { OnOk result (Appends (W.contents out.old) (W.contents out.new) (histories world.now)) }
{
    write_each_history(out, plan, world, RowFormat::Text)?;
    out.write_all(b"end\n")
}

/// Writes the rows of each federate that kept its state as comma-separated values, under the header.
pub fn write_csv_histories<W: Write>(out: &mut W, plan: &Plan, world: &World<'_>) -> io::Result<()>
    requires { plan.now ≡ world.now.draft }
    ensures { OnOk result (Appends (W.contents out.old) (W.contents out.new)
        (csv_header ++ each_history Csv world.now)) }
{
    write_heading(out, RowFormat::Csv)?;
    write_each_history(out, plan, world, RowFormat::Csv)
}

// Writes each federate's rows, or that it forgot.
fn write_each_history<W: Write>(
    out: &mut W,
    plan: &Plan,
    world: &World<'_>,
    format: RowFormat,
) -> io::Result<()>
    requires { plan.now ≡ world.now.draft }
    ensures { OnOk result (Appends (W.contents out.old) (W.contents out.new) (each_history format world.now)) }
{
    for federate in 0..plan.federate_count() {
        write_history(out, plan, world, federate, format)?;
    }
    Ok(())
}

// Writes a federate's rows, or that it forgot.
fn write_history<W: Write>(
    out: &mut W,
    plan: &Plan,
    world: &World<'_>,
    federate: usize,
    format: RowFormat,
) -> io::Result<()>
    requires same { plan.now ≡ world.now.draft }
    requires there { federate < federate_count plan.now }
    ensures { OnOk result (Appends (W.contents out.old) (W.contents out.new) (history format world.now federate)) }
{
    if !world.kept(federate) {
        return write_forgotten(out, plan, federate, format);
    }
    match world.rows(federate) {
        Some(rows) => {
            write_rows(out, plan, rows, format)?;
            Ok(())
        }
        None => Ok(()),
    }
}

// Writes that a federate forgot, in a format that says so.
fn write_forgotten<W: Write>(
    out: &mut W,
    plan: &Plan,
    federate: usize,
    format: RowFormat,
) -> io::Result<()>
    ensures { OnOk result (Appends (W.contents out.old) (W.contents out.new) (forgotten format plan.now federate)) }
{
    match format {
        RowFormat::Text => {
            out.write_all(federate_name(plan, federate).as_bytes())?;
            out.write_all(b" forgotten\n")
        }
        RowFormat::Csv => Ok(()),
    }
}
