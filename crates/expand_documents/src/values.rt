//! What a value of a document is, and what stands at a key.
ghost use Rattle.std.specs.Prelude.{◌≡◌, IfSome, OnOk, IfOk, option_map, map, None};
ghost use Rattle.loadfed_tables.specs.Tables.{HasOnly, SaysText, SaysArray};
ghost use Rattle.toml.specs.Data.{string, integer, array, table, get_member};
ghost use Rattle.toml.specs.View.{view, table_view, items_of};

use crate::mismatch::{Mismatch, want};
use loadfed_tables::Section;
use std::alloc::Global;
use toml::{Table, Value};

/// What stands at a key of a table.
pub(crate) fn get<'t>(table: &'t Table, key: &str) -> Option<&'t Value>
    ensures { option_map (λ value. view value.now) result ≡ get_member key.now (table_view table.now) }
{
    table.get(key)
}

/// Goes on where a table hasn't this key.
pub(crate) fn want_without(table: &Table, key: &str) -> Result<(), Mismatch>
    ensures { OnOk result (get_member key.now (table_view table.now) ≡ None) }
{
    match get(table, key) {
        None => Ok(()),
        Some(_) => Err(Mismatch::Differs),
    }
}

/// Goes on where a table has no other keys than these.
pub(crate) fn want_only(alloc: Global, table: &Table, keys: &[&str]) -> Result<(), Mismatch>
    ensures { OnOk result (HasOnly (map (λ k. k.now) keys.now) (table_view table.now)) }
{
    let section = Section::new(alloc, table);
    section.has_only(keys)?;
    Ok(())
}

/// The text at a key.
pub(crate) fn text_at<'t>(table: &'t Table, key: &str) -> Result<&'t str, Mismatch>
    ensures { IfOk result (λ text. SaysText key.now (table_view table.now) text.now) }
{
    match get(table, key) {
        Some(value) => match as_text(value) {
            Some(text) => Ok(text),
            None => Err(Mismatch::Differs),
        },
        None => Err(Mismatch::Differs),
    }
}

/// The array at a key; without the key it is empty.
pub(crate) fn array_at<'t>(
    alloc: Global,
    table: &'t Table,
    key: &str,
) -> Result<&'t [Value], Mismatch>
    ensures { IfOk result (λ values. SaysArray key.now (table_view table.now) (map view values.now)) }
{
    let section = Section::new(alloc, table);
    let values = section.array(key)?;
    Ok(values)
}

/// The text that a value is.
pub(crate) fn as_text(value: &Value) -> Option<&str>
    ensures { IfSome result (λ text. view value.now ≡ string text.now) }
{
    value.as_str()
}

/// The number that it is.
pub(crate) fn as_number(value: &Value) -> Option<i64>
    ensures { IfSome result (λ number. view value.now ≡ integer number) }
{
    value.as_integer()
}

/// What the array that it is has.
pub(crate) fn as_values(value: &Value) -> Option<&[Value]>
    ensures { IfSome result (λ values. view value.now ≡ array (items_of (map view values.now))) }
{
    match value.as_array() {
        Some(values) => Some(values.as_slice()),
        None => None,
    }
}

/// The table that it is.
pub(crate) fn as_table(value: &Value) -> Option<&Table>
    ensures { IfSome result (λ members. view value.now ≡ table (table_view members.now)) }
{
    value.as_table()
}

/// Goes on with the table that a value is.
pub(crate) fn want_table(value: &Value) -> Result<&Table, Mismatch>
    ensures { IfOk result (λ members. view value.now ≡ table (table_view members.now)) }
{
    match as_table(value) {
        Some(table) => Ok(table),
        None => Err(Mismatch::Differs),
    }
}

/// Goes on where a value is this text.
pub(crate) fn want_text(value: &Value, text: &[u8]) -> Result<(), Mismatch>
    ensures { OnOk result (view value.now ≡ string text.now) }
{
    match as_text(value) {
        Some(own) => want(own.as_bytes() == text),
        None => Err(Mismatch::Differs),
    }
}

/// Goes on where a value is this number.
pub(crate) fn want_number(value: &Value, number: i64) -> Result<(), Mismatch>
    ensures { OnOk result (view value.now ≡ integer number) }
{
    match as_number(value) {
        Some(own) => want(own == number),
        None => Err(Mismatch::Differs),
    }
}
