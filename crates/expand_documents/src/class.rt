//! Classes, by their names.
ghost use Rattle.std.specs.Prelude.{◌≡◌, ◌↔◌, map, IfOk, IsTrue};
ghost use Rattle.toml.specs.Data.{string};
ghost use Rattle.toml.specs.View.{view, table_view};
ghost use Rattle.expand_documents.specs.Entries.{members_of_entries};
ghost use Rattle.expand_documents.specs.Documents.{IsNamed, IsClassOf, Sets};

use crate::entries::{Entry, all_entries};
use crate::mismatch::Mismatch;
use crate::values::{get, want_table};
use std::alloc::Global;
use toml::{Table, Value};

/// The first class of a name.
pub(crate) fn class_of<'t>(classes: &'t [Value], name: &str) -> Result<&'t Table, Mismatch>
    ensures { IfOk result (λ class. IsClassOf (map view classes.now) name.now (table_view class.now)) }
{
    match classes {
        [first, rest @ ..] => {
            if is_named(first, name) {
                want_table(first)
            } else {
                class_of(rest, name)
            }
        }
        [] => Err(Mismatch::Differs),
    }
}

fn is_named(value: &Value, name: &str) -> bool
    ensures { IsTrue result ↔ IsNamed name.now (view value.now) }
{
    match value.get("name") {
        Some(own) => is_text(own, name),
        None => false,
    }
}

fn is_text(value: &Value, text: &str) -> bool
    ensures { IsTrue result ↔ (view value.now ≡ string text.now) }
{
    match value.as_str() {
        Some(own) => own == text,
        None => false,
    }
}

/// What an entry sets for its class.
pub(crate) fn settings_of<'t>(alloc: Global, entry: &'t Table) -> Result<Vec<Entry<'t>>, Mismatch>
    ensures { IfOk result (λ settings. Sets (table_view entry.now) (members_of_entries settings.items)) }
{
    match get(entry, "with") {
        None => Ok(Vec::new(alloc)),
        Some(value) => {
            let table = want_table(value)?;
            Ok(all_entries(alloc, table)?)
        }
    }
}
