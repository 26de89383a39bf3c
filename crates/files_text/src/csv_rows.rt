//! Rows as comma-separated values, written as they are asked for. No cell needs quotes: a name has letters, digits and
//! `_` alone.
ghost use Rattle.std.specs.Prelude.{◌≡◌, ◌++◌, OnOk};
ghost use Rattle.std.specs.Fmt.{decimal};
ghost use Rattle.std.specs.Io.KnownBytes.{Appends};
ghost use Rattle.std.specs.List.{flat_map};
ghost use Rattle.files_text.specs.CsvText.{csv_cell, csv_turn_cells, csv_value, csv_line, value_at, csv_input};
ghost use Rattle.files_text.specs.CsvText.{csv_output, csv_turn, csv_row};

use crate::names::{name_of, slot_name};
use crate::put::{CannotWrite, put};
use crate::tags::{write_count, write_value};
use itoa::Buffer;
use plan::{Federate, Slots};
use reactor::RowView;
use reactor_program::Entry;
use std::io::Write;
use tag::Tag;

/// Writes the lines of a row. Digits of numbers are put together in the room that is passed in.
pub(crate) fn write_csv_row<W: Write>(
    out: &mut W,
    digits: &mut Buffer,
    federates: &[Federate],
    row: &RowView<'_>,
) -> Result<(), CannotWrite>
    ensures { OnOk result (Appends (W.contents out.old) (W.contents out.new) (csv_row federates.now row.now)) }
{
    match federates.get(row.federate()) {
        Some(federate) => write_csv_turn(out, digits, federate, row),
        None => Ok(()),
    }
}

// Writes the lines of a row of this federate.
#[tactic(auto, unfolding(crate::specs::CsvText::csv_turn))]
fn write_csv_turn<W: Write>(
    out: &mut W,
    digits: &mut Buffer,
    federate: &Federate,
    row: &RowView<'_>,
) -> Result<(), CannotWrite>
    ensures { OnOk result (Appends (W.contents out.old) (W.contents out.new) (csv_turn federate.now row.now)) }
{
    let tag = row.tag();
    if row.inputs().is_empty() && row.outputs().is_empty() {
        return write_csv_line(out, digits, federate, tag, "row", "", None);
    }
    write_csv_inputs(out, digits, federate, tag, row.inputs())?;
    write_csv_outputs(out, digits, federate, tag, row.outputs())
}

// Writes the lines of the slots that were present.
fn write_csv_inputs<W: Write>(
    out: &mut W,
    digits: &mut Buffer,
    federate: &Federate,
    tag: Tag,
    entries: &[Entry],
) -> Result<(), CannotWrite>
    ensures { OnOk result (Appends (W.contents out.old) (W.contents out.new)
        (flat_map (csv_input federate.now tag) entries.now)) }
{
    for entry in entries {
        write_csv_input(out, digits, federate, tag, *entry)?;
    }
    Ok(())
}

// Writes the lines of the outputs that were set.
fn write_csv_outputs<W: Write>(
    out: &mut W,
    digits: &mut Buffer,
    federate: &Federate,
    tag: Tag,
    entries: &[Entry],
) -> Result<(), CannotWrite>
    ensures { OnOk result (Appends (W.contents out.old) (W.contents out.new)
        (flat_map (csv_output federate.now tag) entries.now)) }
{
    for entry in entries {
        write_csv_output(out, digits, federate, tag, *entry)?;
    }
    Ok(())
}

// Writes the line of a slot that was present.
#[tactic(auto, unfolding(crate::specs::CsvText::csv_input))]
fn write_csv_input<W: Write>(
    out: &mut W,
    digits: &mut Buffer,
    federate: &Federate,
    tag: Tag,
    entry: Entry,
) -> Result<(), CannotWrite>
    ensures { OnOk result (Appends (W.contents out.old) (W.contents out.new) (csv_input federate.now tag entry)) }
{
    let name = slot_name(&federate.slots, entry.place());
    let value = value_at(&federate.slots, entry);
    write_csv_line(out, digits, federate, tag, "in", name, value)
}

// Writes the line of an output that was set.
#[tactic(auto, unfolding(crate::specs::CsvText::csv_output))]
fn write_csv_output<W: Write>(
    out: &mut W,
    digits: &mut Buffer,
    federate: &Federate,
    tag: Tag,
    entry: Entry,
) -> Result<(), CannotWrite>
    ensures { OnOk result (Appends (W.contents out.old) (W.contents out.new) (csv_output federate.now tag entry)) }
{
    let name = name_of(federate.slots.outputs.as_slice(), entry.place());
    write_csv_line(out, digits, federate, tag, "out", name, Some(entry.value()))
}

// The value of a slot that was present; startup and timers have none.
fn value_at(slots: &Slots, entry: Entry) -> Option<i64>
    ensures { result ≡ value_at slots.now entry }
{
    if slots.is_bare(entry.place()) {
        None
    } else {
        Some(entry.value())
    }
}

// Writes a line of this kind, of what has this name and maybe a value.
#[tactic(auto, unfolding(crate::specs::CsvText::csv_line))]
fn write_csv_line<W: Write>(
    out: &mut W,
    digits: &mut Buffer,
    federate: &Federate,
    tag: Tag,
    kind: &str,
    name: &str,
    value: Option<i64>,
) -> Result<(), CannotWrite>
    ensures { OnOk result (Appends (W.contents out.old) (W.contents out.new)
        (csv_line federate.now tag kind.now name.now value)) }
{
    write_turn_cells(out, digits, federate, tag)?;
    write_cell(out, kind)?;
    write_cell(out, name)?;
    write_csv_value(out, digits, value)?;
    put(out, b"\n")
}

// Writes the cells of whose turn it is and when.
#[tactic(auto, unfolding(crate::specs::CsvText::csv_turn_cells))]
fn write_turn_cells<W: Write>(
    out: &mut W,
    digits: &mut Buffer,
    federate: &Federate,
    tag: Tag,
) -> Result<(), CannotWrite>
    ensures { OnOk result (Appends (W.contents out.old) (W.contents out.new) (csv_turn_cells federate.now tag)) }
{
    write_cell(out, federate.name.as_str())?;
    write_count_cell(out, digits, tag.time())?;
    write_count_cell(out, digits, u64::from(tag.microstep()))
}

// Writes a cell, and the comma after it.
#[tactic(auto, unfolding(crate::specs::CsvText::csv_cell))]
fn write_cell<W: Write>(out: &mut W, text: &str) -> Result<(), CannotWrite>
    ensures { OnOk result (Appends (W.contents out.old) (W.contents out.new) (csv_cell text.now)) }
{
    put(out, text.as_bytes())?;
    put(out, b",")
}

// Writes a cell with a number, and the comma after it.
#[tactic(auto, unfolding(crate::specs::CsvText::csv_cell))]
fn write_count_cell<W: Write>(
    out: &mut W,
    digits: &mut Buffer,
    count: u64,
) -> Result<(), CannotWrite>
    ensures { OnOk result (Appends (W.contents out.old) (W.contents out.new) (csv_cell (decimal count))) }
{
    write_count(out, digits, count)?;
    put(out, b",")
}

// Writes a value, where there is one.
fn write_csv_value<W: Write>(
    out: &mut W,
    digits: &mut Buffer,
    value: Option<i64>,
) -> Result<(), CannotWrite>
    ensures { OnOk result (Appends (W.contents out.old) (W.contents out.new) (csv_value value)) }
{
    match value {
        Some(value) => write_value(out, digits, value),
        None => Ok(()),
    }
}
