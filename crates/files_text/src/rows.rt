//! Rows, written as they are asked for: no memory is needed. How each looks as text; `csv_rows` has the other format.
ghost use Rattle.std.specs.Prelude.{◌≡◌, ◌≤◌, ◌++◌, OnOk, codes, length, slice_range};
ghost use Rattle.std.specs.Fmt.{signed_decimal};
ghost use Rattle.std.specs.Io.KnownBytes.{Appends};
ghost use Rattle.files_text.specs.RowText.{printed_input, printed_output, printed_inputs, printed_outputs, spaced_tag};
ghost use Rattle.files_text.specs.RowText.{printed_turn, printed_line};
ghost use Rattle.files_text.specs.Formats.{heading, formatted_row, formatted_rows};

use crate::csv_rows::write_csv_row;
use crate::fixed::FixedBytes;
use crate::names::{name_of, slot_name};
use crate::put::{CannotWrite, put};
use crate::row_format::RowFormat;
use crate::spelling::Spelling;
use crate::tags::write_value;
use itoa::Buffer;
use plan::{Federate, Plan, Slots};
use reactor::{RowView, Rows};
use reactor_program::Entry;
use std::io::Write;

/// How many rows are put together before they are written.
const ROWS_AT_ONCE: usize = 128;

/// Writes what stands above all rows in this format.
pub fn write_heading<W: Write>(out: &mut W, format: RowFormat) -> Result<(), CannotWrite>
    ensures { OnOk result (Appends (W.contents out.old) (W.contents out.new) (heading format)) }
{
    match format {
        RowFormat::Text => Ok(()),
        RowFormat::Csv => put(out, b"federate,time_ns,microstep,kind,name,value\n"),
    }
}

/// Writes the rows of a plan's federates, each on lines of its own. Where the writer refuses, some of them may have
/// been written.
pub fn write_rows<W: Write>(
    out: &mut W,
    plan: &Plan,
    rows: &Rows,
    format: RowFormat,
) -> Result<(), CannotWrite>
    ensures { OnOk result (Appends (W.contents out.old) (W.contents out.new)
        (formatted_rows format plan.now.federates rows.now)) }
{
    let mut room = FixedBytes::new();
    let mut spelling = Spelling::new();
    let count = rows.len();
    let mut first = 0;
    while first < count {
        let end = first + ROWS_AT_ONCE.min(count - first);
        write_some(
            out,
            &mut room,
            &mut spelling,
            plan.federates(),
            rows,
            format,
            first,
            end,
        )?;
        first = end;
    }
    Ok(())
}

// Writes the rows from one place up to another, put together where there is room for that.
fn write_some<W: Write>(
    out: &mut W,
    room: &mut FixedBytes,
    spelling: &mut Spelling,
    federates: &[Federate],
    rows: &Rows,
    format: RowFormat,
    first: usize,
    end: usize,
) -> Result<(), CannotWrite>
    requires in_order { first ≤ end }
    requires there { end ≤ length rows.now }
    ensures { OnOk result (Appends (W.contents out.old) (W.contents out.new)
        (formatted_rows format federates.now (slice_range rows.now first end))) }
{
    room.clear();
    match write_lines(room, spelling, federates, rows, format, first, end) {
        Ok(()) => put(out, room.as_slice()),
        Err(_) => write_lines(out, spelling, federates, rows, format, first, end),
    }
}

// Writes the rows from one place up to another.
fn write_lines<W: Write>(
    out: &mut W,
    spelling: &mut Spelling,
    federates: &[Federate],
    rows: &Rows,
    format: RowFormat,
    first: usize,
    end: usize,
) -> Result<(), CannotWrite>
    requires in_order { first ≤ end }
    requires there { end ≤ length rows.now }
    ensures { OnOk result (Appends (W.contents out.old) (W.contents out.new)
        (formatted_rows format federates.now (slice_range rows.now first end))) }
{
    for place in first..end {
        write_row(out, spelling, federates, &rows.row(place), format)?;
    }
    Ok(())
}

// Writes a row, with the ends of its lines.
fn write_row<W: Write>(
    out: &mut W,
    spelling: &mut Spelling,
    federates: &[Federate],
    row: &RowView<'_>,
    format: RowFormat,
) -> Result<(), CannotWrite>
    ensures { OnOk result (Appends (W.contents out.old) (W.contents out.new)
        (formatted_row format federates.now row.now)) }
{
    match format {
        RowFormat::Text => write_line(out, spelling, federates, row),
        RowFormat::Csv => write_csv_row(out, &mut spelling.digits, federates, row),
    }
}

// Writes a row and the end of its line.
fn write_line<W: Write>(
    out: &mut W,
    spelling: &mut Spelling,
    federates: &[Federate],
    row: &RowView<'_>,
) -> Result<(), CannotWrite>
    ensures { OnOk result (Appends (W.contents out.old) (W.contents out.new) (printed_line federates.now row.now)) }
{
    match federates.get(row.federate()) {
        Some(federate) => write_turn(out, spelling, federate, row),
        None => put(out, b"\n"),
    }
}

// Writes a row of this federate and the end of its line.
fn write_turn<W: Write>(
    out: &mut W,
    spelling: &mut Spelling,
    federate: &Federate,
    row: &RowView<'_>,
) -> Result<(), CannotWrite>
    ensures { OnOk result (Appends (W.contents out.old) (W.contents out.new)
        (printed_turn federate.now row.now ++ codes "\n")) }
{
    write_parts(out, spelling, federate, row)
}

// Writes the parts of a row one after the other, each with what parts it from the next.
fn write_parts<W: Write>(
    out: &mut W,
    spelling: &mut Spelling,
    federate: &Federate,
    row: &RowView<'_>,
) -> Result<(), CannotWrite>
    ensures { OnOk result (Appends (W.contents out.old) (W.contents out.new)
        (federate.now.name ++ (spaced_tag row.now.tag
        ++ (printed_inputs federate.now.slots row.now.inputs ++ printed_outputs federate.now.slots row.now.outputs)))) }
{
    put(out, federate.name.as_str().as_bytes())?;
    spelling.write_tag(out, row.tag())?;
    write_inputs(out, &mut spelling.digits, &federate.slots, row.inputs())?;
    write_outputs(out, &mut spelling.digits, &federate.slots, row.outputs())
}

// Writes the slots that were present, in brackets, and an arrow.
#[tactic(auto, unfolding(crate::specs::RowText::printed_inputs))]
fn write_inputs<W: Write>(
    out: &mut W,
    digits: &mut Buffer,
    slots: &Slots,
    entries: &[Entry],
) -> Result<(), CannotWrite>
    ensures { OnOk result (Appends (W.contents out.old) (W.contents out.new) (printed_inputs slots.now entries.now)) }
{
    let Some((first, rest)) = entries.split_first() else {
        return put(out, b"[] -> ");
    };
    put(out, b"[")?;
    write_input(out, digits, slots, *first)?;
    for entry in rest {
        write_next_input(out, digits, slots, *entry)?;
    }
    put(out, b"] -> ")
}

// Writes the outputs that were set, in brackets, and the end of the line.
#[tactic(auto, unfolding(crate::specs::RowText::printed_outputs))]
fn write_outputs<W: Write>(
    out: &mut W,
    digits: &mut Buffer,
    slots: &Slots,
    entries: &[Entry],
) -> Result<(), CannotWrite>
    ensures { OnOk result (Appends (W.contents out.old) (W.contents out.new) (printed_outputs slots.now entries.now)) }
{
    let Some((first, rest)) = entries.split_first() else {
        return put(out, b"[]\n");
    };
    put(out, b"[")?;
    write_output(out, digits, slots, *first)?;
    for entry in rest {
        write_next_output(out, digits, slots, *entry)?;
    }
    put(out, b"]\n")
}

// Writes a slot that was present.
#[tactic(auto, unfolding(crate::specs::RowText::printed_input))]
fn write_input<W: Write>(
    out: &mut W,
    digits: &mut Buffer,
    slots: &Slots,
    entry: Entry,
) -> Result<(), CannotWrite>
    ensures { OnOk result (Appends (W.contents out.old) (W.contents out.new) (printed_input slots.now entry)) }
{
    let slot = entry.place();
    let name = slot_name(slots, slot);
    if slots.is_bare(slot) {
        return put(out, name.as_bytes());
    }
    write_valued(out, digits, name, entry.value())
}

// Writes a further slot that was present.
fn write_next_input<W: Write>(
    out: &mut W,
    digits: &mut Buffer,
    slots: &Slots,
    entry: Entry,
) -> Result<(), CannotWrite>
    ensures { OnOk result (Appends (W.contents out.old) (W.contents out.new)
        (codes " " ++ printed_input slots.now entry)) }
{
    put(out, b" ")?;
    write_input(out, digits, slots, entry)
}

// Writes a name with a value.
#[inline(always)]
fn write_valued<W: Write>(
    out: &mut W,
    digits: &mut Buffer,
    name: &str,
    value: i64,
) -> Result<(), CannotWrite>
    ensures { OnOk result (Appends (W.contents out.old) (W.contents out.new)
        (name.now ++ (codes "=" ++ signed_decimal value))) }
{
    put(out, name.as_bytes())?;
    put(out, b"=")?;
    write_value(out, digits, value)
}

// Writes an output that was set.
#[tactic(auto, unfolding(crate::specs::RowText::printed_output))]
fn write_output<W: Write>(
    out: &mut W,
    digits: &mut Buffer,
    slots: &Slots,
    entry: Entry,
) -> Result<(), CannotWrite>
    ensures { OnOk result (Appends (W.contents out.old) (W.contents out.new) (printed_output slots.now entry)) }
{
    let name = name_of(slots.outputs.as_slice(), entry.place());
    write_valued(out, digits, name, entry.value())
}

// Writes a further output that was set.
fn write_next_output<W: Write>(
    out: &mut W,
    digits: &mut Buffer,
    slots: &Slots,
    entry: Entry,
) -> Result<(), CannotWrite>
    ensures { OnOk result (Appends (W.contents out.old) (W.contents out.new)
        (codes " " ++ printed_output slots.now entry)) }
{
    put(out, b" ")?;
    write_output(out, digits, slots, entry)
}
