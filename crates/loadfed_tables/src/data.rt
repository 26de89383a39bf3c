//! What a TOML value is.
ghost use Rattle.std.specs.Prelude.{◌≡◌, ◌≢◌, ℕ, ℤ, List, map, MatchOption};
ghost use Rattle.toml.specs.Data.{Items, Members, string, integer, array, table};
ghost use Rattle.toml.specs.View.{view, table_view, items_of};

use toml::{Table, Value};

/// The text that it is.
pub fn as_text(value: &Value) -> Option<&str>
    ensures { MatchOption result ((text : List ℕ) → view value.now ≢ string text)
        (λ text. view value.now ≡ string text.now) }
{
    value.as_str()
}

/// The whole number that it is.
pub fn as_number(value: &Value) -> Option<i64>
    ensures { MatchOption result ((number : ℤ) → view value.now ≢ integer number)
        (λ number. view value.now ≡ integer number) }
{
    value.as_integer()
}

/// What the array that it is has.
pub fn as_values(value: &Value) -> Option<&[Value]>
    ensures { MatchOption result ((items : Items) → view value.now ≢ array items)
        (λ values. view value.now ≡ array (items_of (map view values.now))) }
{
    match value.as_array() {
        Some(values) => Some(values.as_slice()),
        None => None,
    }
}

/// The table that it is.
pub fn as_table(value: &Value) -> Option<&Table>
    ensures { MatchOption result ((members : Members) → view value.now ≢ table members)
        (λ members. view value.now ≡ table (table_view members.now)) }
{
    value.as_table()
}
