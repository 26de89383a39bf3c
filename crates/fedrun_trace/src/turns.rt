//! Rows: their tag, what was present, and what was set.
ghost use Rattle.std.specs.Prelude.{◌≡◌, ◌++◌, OnOk, Some, codes, slice_get};
ghost use Rattle.std.specs.Io.KnownBytes.{Appends};
ghost use Rattle.plan_slots.specs.Numbering.{timer_names};
ghost use Rattle.reactor_program.specs.Resolution.{slot_names};
ghost use Rattle.files_text.specs.RowText.{name_at};
ghost use Rattle.fedrun_trace.specs.Turns.{valued_member, bare_member, present_member, set_member, object_text};
ghost use Rattle.fedrun_trace.specs.Turns.{inputs_member, outputs_member, turn_members, row_members};

use crate::carried::write_tag;
use crate::escaping::write_escaped;
use plan::{Federate, Plan, Slots, Timer};
use plan_names::Text;
use reactor::{RowView, Rows};
use reactor_program::Entry;
use std::io;
use std::io::Write;

/// Writes the row that a step made, if it made one.
pub(crate) fn write_row<W: Write>(out: &mut W, plan: &Plan, row: &Rows) -> io::Result<()>
    ensures { OnOk result (Appends (W.contents out.old) (W.contents out.new) (row_members plan.now row.now)) }
{
    if row.len() == 0 {
        return Ok(());
    }
    write_turn(out, plan, &row.row(0))
}

// Writes a row.
fn write_turn<W: Write>(out: &mut W, plan: &Plan, row: &RowView<'_>) -> io::Result<()>
    ensures { OnOk result (Appends (W.contents out.old) (W.contents out.new)
        (turn_members (slice_get plan.now.federates row.now.reactor) row.now)) }
{
    match plan.federates().get(row.federate()) {
        Some(federate) => write_turn_of(out, federate, row),
        None => Ok(()),
    }
}

// Writes a row of this federate.
fn write_turn_of<W: Write>(out: &mut W, federate: &Federate, row: &RowView<'_>) -> io::Result<()>
    ensures { OnOk result (Appends (W.contents out.old) (W.contents out.new)
        (turn_members (Some federate.now) row.now)) }
{
    write_tag(out, row.tag())?;
    write_inputs_member(out, &federate.slots, row.inputs())?;
    write_outputs_member(out, &federate.slots, row.outputs())
}

// Writes what was present.
#[tactic(auto, unfolding(crate::specs::Turns::inputs_member))]
fn write_inputs_member<W: Write>(out: &mut W, slots: &Slots, entries: &[Entry]) -> io::Result<()>
    ensures { OnOk result (Appends (W.contents out.old) (W.contents out.new)
        (inputs_member slots.now entries.now)) }
{
    out.write_all(b",\"inputs\":")?;
    write_inputs(out, slots, entries)
}

// Writes what was set.
fn write_outputs_member<W: Write>(out: &mut W, slots: &Slots, entries: &[Entry]) -> io::Result<()>
    ensures { OnOk result (Appends (W.contents out.old) (W.contents out.new)
        (outputs_member slots.now entries.now)) }
{
    out.write_all(b",\"outputs\":")?;
    write_outputs(out, slots, entries)
}

// Writes the slots that were present.
#[tactic(auto, unfolding(crate::specs::Turns::object_text))]
fn write_inputs<W: Write>(out: &mut W, slots: &Slots, entries: &[Entry]) -> io::Result<()>
    ensures { OnOk result (Appends (W.contents out.old) (W.contents out.new)
        (object_text (present_member slots.now) entries.now)) }
{
    let Some((first, rest)) = entries.split_first() else {
        return out.write_all(b"{}");
    };
    out.write_all(b"{")?;
    write_present(out, slots, *first)?;
    for entry in rest {
        write_next_present(out, slots, *entry)?;
    }
    out.write_all(b"}")
}

// Writes the outputs that were set.
#[tactic(auto, unfolding(crate::specs::Turns::object_text))]
fn write_outputs<W: Write>(out: &mut W, slots: &Slots, entries: &[Entry]) -> io::Result<()>
    ensures { OnOk result (Appends (W.contents out.old) (W.contents out.new)
        (object_text (set_member slots.now) entries.now)) }
{
    let Some((first, rest)) = entries.split_first() else {
        return out.write_all(b"{}");
    };
    out.write_all(b"{")?;
    write_set(out, slots, *first)?;
    for entry in rest {
        write_next_set(out, slots, *entry)?;
    }
    out.write_all(b"}")
}

// Writes a further slot that was present.
fn write_next_present<W: Write>(out: &mut W, slots: &Slots, entry: Entry) -> io::Result<()>
    ensures { OnOk result (Appends (W.contents out.old) (W.contents out.new)
        (codes "," ++ present_member slots.now entry)) }
{
    out.write_all(b",")?;
    write_present(out, slots, entry)
}

// Writes a further output that was set.
fn write_next_set<W: Write>(out: &mut W, slots: &Slots, entry: Entry) -> io::Result<()>
    ensures { OnOk result (Appends (W.contents out.old) (W.contents out.new)
        (codes "," ++ set_member slots.now entry)) }
{
    out.write_all(b",")?;
    write_set(out, slots, entry)
}

// Writes a slot that was present.
#[tactic(auto, unfolding(crate::specs::Turns::present_member))]
fn write_present<W: Write>(out: &mut W, slots: &Slots, entry: Entry) -> io::Result<()>
    ensures { OnOk result (Appends (W.contents out.old) (W.contents out.new) (present_member slots.now entry)) }
{
    let name = slot_name(slots, entry.place());
    if slots.is_bare(entry.place()) {
        write_bare(out, name)
    } else {
        write_valued(out, name, entry.value())
    }
}

// Writes an output that was set.
#[tactic(auto, unfolding(crate::specs::Turns::set_member))]
fn write_set<W: Write>(out: &mut W, slots: &Slots, entry: Entry) -> io::Result<()>
    ensures { OnOk result (Appends (W.contents out.old) (W.contents out.new) (set_member slots.now entry)) }
{
    let name = name_of(slots.outputs.as_slice(), entry.place());
    write_valued(out, name, entry.value())
}

// Writes a name with its value.
#[tactic(auto, unfolding(crate::specs::Turns::valued_member))]
fn write_valued<W: Write>(out: &mut W, name: &str, value: i64) -> io::Result<()>
    ensures { OnOk result (Appends (W.contents out.old) (W.contents out.new) (valued_member name.now value)) }
{
    out.write_all(b"\"")?;
    write_escaped(out, name)?;
    write!(out, "\":{value}")
}

// Writes the name of what has no value.
#[tactic(auto, unfolding(crate::specs::Turns::bare_member))]
fn write_bare<W: Write>(out: &mut W, name: &str) -> io::Result<()>
    ensures { OnOk result (Appends (W.contents out.old) (W.contents out.new) (bare_member name.now)) }
{
    out.write_all(b"\"")?;
    write_escaped(out, name)?;
    out.write_all(b"\":true")
}

// The name of a slot, or an empty text where there is none.
fn slot_name(slots: &Slots, slot: usize) -> &str
    ensures { result.now ≡ name_at (slot_names slots.now) slot }
{
    if slot == 0 {
        return "startup";
    }
    let place = slot - 1;
    let inputs = slots.inputs.as_slice();
    if place < inputs.len() {
        return name_of(inputs, place);
    }
    let place = place - inputs.len();
    let timers = slots.timers.as_slice();
    if place < timers.len() {
        return timer_name(timers, place);
    }
    let place = place - timers.len();
    let actions = slots.actions.as_slice();
    if place < actions.len() {
        return name_of(actions, place);
    }
    name_of(slots.physical.as_slice(), place - actions.len())
}

// The name at a place, or an empty text where there is none.
fn name_of(names: &[Text], place: usize) -> &str
    ensures { result.now ≡ name_at names.now place }
{
    match names.get(place) {
        Some(name) => name.as_str(),
        None => "",
    }
}

// The name of the timer at a place, or an empty text where there is none.
fn timer_name(timers: &[Timer], place: usize) -> &str
    ensures { result.now ≡ name_at (timer_names timers.now) place }
{
    match timers.get(place) {
        Some(timer) => timer.name.as_str(),
        None => "",
    }
}
