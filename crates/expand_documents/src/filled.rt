//! Values with their braces filled.
ghost use Rattle.std.specs.Prelude.{◌≡◌, ℕ, ℤ, List, map, OnOk};
ghost use Rattle.expand_source.specs.Expansion.{HasValue, IsFilled};
ghost use Rattle.toml.specs.Data.{string, integer, array, table};
ghost use Rattle.toml.specs.View.{view, table_view, items_of};
ghost use Rattle.expand_documents.specs.Entries.{members_of_entries};
ghost use Rattle.expand_documents.specs.Filled.{is_whole, IsTextFilled, IsValueFilled, AreItemsFilled};
ghost use Rattle.expand_documents.specs.Filled.{AreMembersFilled};

use crate::entries::{Entry, all_entries};
use crate::mismatch::{Mismatch, want};
use crate::values::{as_number, as_table, as_text, as_values, want_number, want_table, want_text};
use expand_expressions::NamedOperand;
use expand_source::filling::{Hole, MOST_HOLES, fill_text, next_hole};
use expand_source::numbers::number;
use std::alloc::Global;
use toml::{Table, Value};

/// How deep arrays and tables may stand in one another; those of a federation are six deep.
pub(crate) const MOST_DEPTH: usize = 16;

/// Goes on where one value is the other with its braces filled.
#[cycle(filled)]
pub(crate) fn want_filled(
    alloc: Global,
    names: &[NamedOperand],
    value: &Value,
    made: &Value,
    depth: usize,
) -> Result<(), Mismatch>
    ensures { OnOk result (IsValueFilled names.now (view value.now) (view made.now)) }
{
    if let Some(text) = as_text(value) {
        return want_text_filled(alloc, names, text.as_bytes(), made);
    }
    if let Some(number) = as_number(value) {
        return want_number(made, number);
    }
    let Some(less) = depth.checked_sub(1) else {
        return Err(Mismatch::Differs);
    };
    if let Some(items) = as_values(value) {
        return want_array_filled(alloc, names, items, made, less);
    }
    match as_table(value) {
        Some(table) => want_table_filled(alloc, names, table, made, less),
        None => Err(Mismatch::Differs),
    }
}

#[cycle(filled)]
fn want_array_filled(
    alloc: Global,
    names: &[NamedOperand],
    items: &[Value],
    made: &Value,
    depth: usize,
) -> Result<(), Mismatch>
    ensures { OnOk result (IsValueFilled names.now (array (items_of (map view items.now))) (view made.now)) }
{
    match as_values(made) {
        Some(made) => {
            want_items_filled(alloc, names, items, made, depth)?;
            Ok(())
        }
        None => Err(Mismatch::Differs),
    }
}

#[cycle(filled)]
fn want_table_filled(
    alloc: Global,
    names: &[NamedOperand],
    members: &Table,
    made: &Value,
    depth: usize,
) -> Result<(), Mismatch>
    ensures { OnOk result (IsValueFilled names.now (table (table_view members.now)) (view made.now)) }
{
    let made = want_table(made)?;
    let entries = all_entries(alloc, members)?;
    let others = all_entries(alloc, made)?;
    want_members_filled(alloc, names, entries.as_slice(), others.as_slice(), depth)?;
    Ok(())
}

#[cycle(filled)]
#[tactic(auto, using(crate::proofs::Fillings::one_item_more, crate::proofs::Fillings::all_items))]
fn want_items_filled(
    alloc: Global,
    names: &[NamedOperand],
    items: &[Value],
    made: &[Value],
    depth: usize,
) -> Result<(), Mismatch>
    ensures { OnOk result (AreItemsFilled names.now (items_of (map view items.now)) (items_of (map view made.now))) }
{
    want(items.len() == made.len())?;
    for (place, item) in items.iter().enumerate() {
        let Some(other) = made.get(place) else {
            return Err(Mismatch::Differs);
        };
        want_filled(alloc, names, item, other, depth)?;
    }
    Ok(())
}

/// Goes on where the members are those of one table with their braces filled.
#[cycle(filled)]
#[tactic(auto, using(crate::proofs::Fillings::one_member_more, crate::proofs::Fillings::all_members))]
pub(crate) fn want_members_filled(
    alloc: Global,
    names: &[NamedOperand],
    entries: &[Entry<'_>],
    made: &[Entry<'_>],
    depth: usize,
) -> Result<(), Mismatch>
    ensures { OnOk result
        (AreMembersFilled names.now (members_of_entries entries.now) (members_of_entries made.now)) }
{
    want(entries.len() == made.len())?;
    for (place, entry) in entries.iter().enumerate() {
        let Some(other) = made.get(place) else {
            return Err(Mismatch::Differs);
        };
        want(entry.key == other.key)?;
        want_filled(alloc, names, entry.value, other.value, depth)?;
    }
    Ok(())
}

fn want_text_filled(
    alloc: Global,
    names: &[NamedOperand],
    text: &[u8],
    made: &Value,
) -> Result<(), Mismatch>
    ensures { OnOk result (IsTextFilled names.now text.now (view made.now)) }
{
    match next_hole(text)? {
        None => {
            want_text(made, text)?;
            Ok(())
        }
        Some(hole) => {
            if is_whole(hole) {
                want_value(alloc, names, hole.expression, made)?;
                Ok(())
            } else {
                want_filling(alloc, names, text, made)?;
                Ok(())
            }
        }
    }
}

// Whether nothing stands on either side of the braces.
fn is_whole(hole: Hole<'_>) -> bool
    ensures { result ≡ is_whole hole.entry.front.now hole.entry.rest.now }
{
    hole.front.is_empty() && hole.rest.is_empty()
}

// Goes on where a value is that of an expression.
fn want_value(
    alloc: Global,
    names: &[NamedOperand],
    expression: &[u8],
    made: &Value,
) -> Result<(), Mismatch>
    ensures { OnOk result ((n : ℤ) × HasValue names.now expression.now n × (view made.now ≡ integer n)) }
{
    let number = number(alloc, names, expression)?;
    want_number(made, number)?;
    Ok(())
}

// Goes on where a value is a text with its braces filled.
fn want_filling(
    alloc: Global,
    names: &[NamedOperand],
    text: &[u8],
    made: &Value,
) -> Result<(), Mismatch>
    ensures { OnOk result ((filled : List ℕ) × IsFilled names.now text.now filled × (view made.now ≡ string filled)) }
{
    let mut filled = Vec::new(alloc);
    fill_text(alloc, names, text, MOST_HOLES, &mut filled)?;
    want_text(made, filled.as_slice())?;
    Ok(())
}
