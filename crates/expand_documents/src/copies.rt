//! The copies of an entry.
ghost use Rattle.std.specs.Prelude.{map, OnOk};
ghost use Rattle.expand_source.specs.Expansion.{copy_count};
ghost use Rattle.toml.specs.View.{view, table_view};
ghost use Rattle.expand_documents.specs.Entries.{members_of_entries, without};
ghost use Rattle.expand_documents.specs.Filled.{AreMembersFilled};
ghost use Rattle.expand_documents.specs.Documents.{IsOwnCopy, IsClassCopy, AreCopies, IsNameFilled};

use crate::entries::{Entry, entries};
use crate::filled::{MOST_DEPTH, want_filled, want_members_filled};
use crate::mismatch::{Mismatch, want};
use crate::naming::{class_names, copy_count, own_names};
use crate::values::{get, want_table};
use expand_expressions::NamedOperand;
use expand_source::Range;
use std::alloc::Global;
use toml::{Table, Value};

/// Goes on where these are the copies of an entry without a class, which don't have these keys.
#[tactic(auto, using(crate::proofs::CopyLists::one_copy_more, crate::proofs::CopyLists::all_copies))]
pub(crate) fn want_own_copies(
    alloc: Global,
    parameters: &[NamedOperand],
    entry: &Table,
    keys: &[&str],
    range: &Option<Range>,
    made: &[Value],
) -> Result<(), Mismatch>
    ensures { OnOk result
        (AreCopies (IsOwnCopy parameters.now (table_view entry.now) (map (λ k. k.now) keys.now) range.now)
        (copy_count range.now) (map view made.now)) }
{
    want(made.len() == copy_count(range))?;
    for (k, copy) in made.iter().enumerate() {
        want_own_copy(alloc, parameters, entry, keys, range, k, copy)?;
    }
    Ok(())
}

fn want_own_copy(
    alloc: Global,
    parameters: &[NamedOperand],
    entry: &Table,
    keys: &[&str],
    range: &Option<Range>,
    k: usize,
    made: &Value,
) -> Result<(), Mismatch>
    ensures { OnOk result
        (IsOwnCopy parameters.now (table_view entry.now) (map (λ k. k.now) keys.now) range.now k (view made.now)) }
{
    let names = own_names(alloc, parameters, range, k)?;
    let members = want_table(made)?;
    want_rest(alloc, names.as_slice(), entry, keys, members, &[])?;
    Ok(())
}

/// An entry of a class, the class, and what names stand for in each of its federates.
#[derive(Clone, Copy)]
pub(crate) struct ClassEntry<'t> {
    pub own: &'t Table,
    pub class: &'t Table,
    pub settings: &'t [Entry<'t>],
    pub defaults: &'t [NamedOperand],
}

/// Goes on where these are the copies of an entry of a class.
#[tactic(auto, using(crate::proofs::CopyLists::one_copy_more, crate::proofs::CopyLists::all_copies))]
pub(crate) fn want_class_copies(
    alloc: Global,
    parameters: &[NamedOperand],
    of: ClassEntry<'_>,
    range: &Option<Range>,
    made: &[Value],
) -> Result<(), Mismatch>
    ensures { OnOk result
        (AreCopies (IsClassCopy parameters.now (table_view of.entry.own.now) (table_view of.entry.class.now)
        (members_of_entries of.entry.settings.now) of.entry.defaults.now range.now)
        (copy_count range.now) (map view made.now)) }
{
    want(made.len() == copy_count(range))?;
    for (k, copy) in made.iter().enumerate() {
        want_class_copy(alloc, parameters, of, range, k, copy)?;
    }
    Ok(())
}

fn want_class_copy(
    alloc: Global,
    parameters: &[NamedOperand],
    of: ClassEntry<'_>,
    range: &Option<Range>,
    k: usize,
    made: &Value,
) -> Result<(), Mismatch>
    ensures { OnOk result
        (IsClassCopy parameters.now (table_view of.entry.own.now) (table_view of.entry.class.now)
        (members_of_entries of.entry.settings.now) of.entry.defaults.now range.now k (view made.now)) }
{
    let names = class_names(alloc, parameters, range, k, of.settings, of.defaults)?;
    let members = want_table(made)?;
    want_name(alloc, names.as_slice(), of.own, members)?;
    want_rest(
        alloc,
        names.as_slice(),
        of.class,
        &["name", "parameter"],
        members,
        &["name"],
    )?;
    Ok(())
}

// Goes on where a federate has the name of its entry, filled.
fn want_name(
    alloc: Global,
    names: &[NamedOperand],
    entry: &Table,
    made: &Table,
) -> Result<(), Mismatch>
    ensures { OnOk result (IsNameFilled names.now (table_view entry.now) (table_view made.now)) }
{
    match (get(entry, "name"), get(made, "name")) {
        (Some(own), Some(name)) => {
            want_filled(alloc, names, own, name, MOST_DEPTH)?;
            Ok(())
        }
        _ => Err(Mismatch::Differs),
    }
}

/// Goes on where one table is the other with its braces filled, each without these keys.
pub(crate) fn want_rest(
    alloc: Global,
    names: &[NamedOperand],
    members: &Table,
    left_out: &[&str],
    made: &Table,
    made_left_out: &[&str],
) -> Result<(), Mismatch>
    ensures { OnOk result (AreMembersFilled names.now (without (map (λ k. k.now) left_out.now) (table_view members.now))
        (without (map (λ k. k.now) made_left_out.now) (table_view made.now))) }
{
    let members = entries(alloc, members, left_out)?;
    let made = entries(alloc, made, made_left_out)?;
    want_members_filled(
        alloc,
        names,
        members.as_slice(),
        made.as_slice(),
        MOST_DEPTH,
    )?;
    Ok(())
}
