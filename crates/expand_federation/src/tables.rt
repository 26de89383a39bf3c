//! Tables of documents.
ghost use Rattle.std.specs.Prelude.{◌≡◌, IsTrue, OnOk, IfOk, map};
ghost use Rattle.toml.specs.Data.{table};
ghost use Rattle.toml.specs.View.{view, table_view};
ghost use Rattle.loadfed_tables.specs.Tables.{SaysTables};
ghost use Rattle.expand_documents.specs.Entries.{members_of_entries, without};

use crate::fault::ExpandFault;
use crate::sameness::is_same;
use expand_documents::entries::{Entry, entries};
use loadfed_tables::Section;
use std::alloc::Global;
use toml::{Table, Value};

/// The tables in the array at a key; without the key there are none.
pub(crate) fn tables_at<'t>(
    alloc: Global,
    members: &'t Table,
    key: &str,
) -> Result<Vec<&'t Table>, ExpandFault>
    ensures { IfOk result
        (λ tables. SaysTables key.now (table_view members.now) (map (λ t. table_view t.now) tables.items)) }
{
    let section = Section::new(alloc, members);
    let mut tables = Vec::new(alloc);
    for value in section.array(key)? {
        let table = table_of(value)?;
        tables.push(table)?;
    }
    Ok(tables)
}

// The table that a value is.
fn table_of(value: &Value) -> Result<&Table, ExpandFault>
    ensures { IfOk result (λ t. view value.now ≡ table (table_view t.now)) }
{
    match value.as_table() {
        Some(table) => Ok(table),
        None => Err(ExpandFault::OtherMeaning),
    }
}

/// Refuses a table that has something else than another one, but for what stands at these keys.
pub(crate) fn check_rest(
    alloc: Global,
    before: &Table,
    after: &Table,
    left_out: &[&str],
) -> Result<(), ExpandFault>
    ensures { OnOk result (without (map (λ k. k.now) left_out.now) (table_view after.now)
        ≡ without (map (λ k. k.now) left_out.now) (table_view before.now)) }
{
    let before = entries(alloc, before, left_out)?;
    let after = entries(alloc, after, left_out)?;
    if are_same_entries(after.as_slice(), before.as_slice()) {
        Ok(())
    } else {
        Err(ExpandFault::OtherMeaning)
    }
}

fn are_same_entries(entries: &[Entry<'_>], others: &[Entry<'_>]) -> bool
    ensures { IsTrue result → members_of_entries entries.now ≡ members_of_entries others.now }
{
    match entries {
        [first, entries @ ..] => match others {
            [other, others @ ..] => is_same_entry(first, other)
                && are_same_entries(entries, others),
            [] => false,
        },
        [] => others.is_empty(),
    }
}

fn is_same_entry(entry: &Entry<'_>, other: &Entry<'_>) -> bool
    ensures key { IsTrue result → entry.now.key.now ≡ other.now.key.now }
    ensures value { IsTrue result → view entry.now.value.now ≡ view other.now.value.now }
{
    entry.key == other.key && is_same(entry.value, other.value)
}
