//! Whether two values of TOML documents are the same.
ghost use Rattle.std.specs.Prelude.{◌≡◌, IsTrue};
ghost use Rattle.toml.specs.View.{view, array_view, table_view};

use toml::value::Array;
use toml::{Table, Value};

/// Whether both are one value. Fractions, truths and dates, which no federation file has, are taken for different ones.
#[cycle(same)]
pub(crate) fn is_same(value: &Value, other: &Value) -> bool
    ensures { IsTrue result → view value.now ≡ view other.now }
{
    match value {
        Value::String(text) => match other {
            Value::String(other) => text.as_str() == other.as_str(),
            _ => false,
        },
        Value::Integer(number) => match other {
            Value::Integer(other) => *number == *other,
            _ => false,
        },
        Value::Array(items) => match other {
            Value::Array(others) => are_same_items(items, others),
            _ => false,
        },
        Value::Table(members) => match other {
            Value::Table(others) => are_same_members(members, others),
            _ => false,
        },
        Value::Float(_) | Value::Boolean(_) | Value::Datetime(_) => false,
    }
}

// Whether both have the same values, in one order.
#[cycle(same)]
fn are_same_items(items: &Array, others: &Array) -> bool
    ensures { IsTrue result → array_view items.now ≡ array_view others.now }
{
    if items.len() != others.len() {
        return false;
    }
    for (place, item) in items.iter().enumerate() {
        match others.get(place) {
            Some(other) => {
                if !is_same(item, other) {
                    return false;
                }
            }
            None => return false,
        }
    }
    true
}

/// Whether both have the same values at the same keys.
#[cycle(same)]
pub(crate) fn are_same_members(members: &Table, others: &Table) -> bool
    ensures { IsTrue result → table_view members.now ≡ table_view others.now }
{
    let mut rest = others.iter();
    for (key, value) in members.iter() {
        match rest.next() {
            Some((other_key, other)) => {
                if key.as_str() != other_key.as_str() || !is_same(value, other) {
                    return false;
                }
            }
            None => return false,
        }
    }
    rest.next().is_none()
}
