//! The members of a table in a list.
ghost use Rattle.std.specs.Prelude.{◌≡◌, IfOk, map};
ghost use Rattle.toml.specs.View.{table_view};
ghost use Rattle.loadfed_tables.specs.Tables.{is_among};
ghost use Rattle.expand_documents.specs.Entries.{members_of_entries, without};

use std::alloc::{AllocError, Global};
use toml::{Table, Value};

/// What stands at a key of a table.
#[derive(Clone, Copy)]
pub struct Entry<'t> {
    pub key: &'t str,
    pub value: &'t Value,
}

/// The members of a table, in the order of their keys, but for what stands at these keys.
pub fn entries<'t>(
    alloc: Global,
    table: &'t Table,
    left_out: &[&str],
) -> Result<Vec<Entry<'t>>, AllocError>
    ensures { IfOk result (λ entries.
        members_of_entries entries.items ≡ without (map (λ k. k.now) left_out.now) (table_view table.now)) }
{
    let mut entries = Vec::new(alloc);
    for (key, value) in table.iter() {
        let key = key.as_str();
        if !is_among(left_out, key) {
            entries.push(Entry { key, value })?;
        }
    }
    Ok(entries)
}

/// All members of a table, in the order of their keys.
#[tactic(auto, using(crate::proofs::Members::all_of_a_table))]
pub fn all_entries<'t>(alloc: Global, table: &'t Table) -> Result<Vec<Entry<'t>>, AllocError>
    ensures { IfOk result (λ entries. members_of_entries entries.items ≡ table_view table.now) }
{
    entries(alloc, table, &[])
}

fn is_among(known: &[&str], key: &str) -> bool
    ensures { result ≡ is_among (map (λ k. k.now) known.now) key.now }
{
    match known {
        [first, rest @ ..] => key == *first || is_among(rest, key),
        [] => false,
    }
}
