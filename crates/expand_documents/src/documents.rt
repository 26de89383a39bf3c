//! A source's document, and that of the text that it becomes.
ghost use Rattle.std.specs.Prelude.{◌≡◌, ◌⊎◌, map, true, IfOk, OnOk};
ghost use Rattle.toml.specs.View.{view, table_view};
ghost use Rattle.expand_documents.specs.Documents.{AreOwnFederates, AreClassFederates, AreFederatesOf};
ghost use Rattle.expand_documents.specs.Documents.{AreConnectionsOf, AreFederatesMade, AreConnectionsMade, AreMadeOf};
ghost use Rattle.expand_documents.specs.Documents.{BeginsWith, IsExpansionOf};

use crate::class::{class_of, settings_of};
use crate::copies::{ClassEntry, want_class_copies, want_own_copies, want_rest};
use crate::mismatch::{Mismatch, want};
use crate::naming::{self, are_known, copy_count, counted, ranged};
use crate::values::{array_at, get, text_at, want_only, want_table, want_without};
use expand_expressions::NamedOperand;
use expand_source::{Given, Range, SourceFaultKind};
use std::alloc::Global;
use toml::{Table, Value};

/// Whether a document is what a source's document becomes, with these values of its parameters, before its bodies are
/// expanded. Where a text of the source can't be filled the answer is the fault of that.
pub fn is_expansion(
    alloc: Global,
    given: &[Given],
    source: &Table,
    made: &Table,
) -> Result<bool, SourceFaultKind>
    ensures { IfOk result (λ is_so.
        is_so ≡ true → IsExpansionOf given.now (table_view source.now) (table_view made.now)) }
{
    match want_expansion(alloc, given, source, made) {
        Ok(()) => Ok(true),
        Err(Mismatch::Differs) => Ok(false),
        Err(Mismatch::Unknown(kind)) => Err(kind),
    }
}

#[tactic(auto, using(crate::proofs::Found::expansion_found))]
fn want_expansion(
    alloc: Global,
    given: &[Given],
    source: &Table,
    made: &Table,
) -> Result<(), Mismatch>
    ensures { OnOk result (IsExpansionOf given.now (table_view source.now) (table_view made.now)) }
{
    let parameters = naming::parameters(alloc, given, source)?;
    let names = parameters.as_slice();
    want(are_known(given, names))?;
    want_federates(alloc, names, source, made)?;
    want_connections(alloc, names, source, made)?;
    want_rest(
        alloc,
        names,
        source,
        &["parameter", "class", "federate", "connection"],
        made,
        &["federate", "connection"],
    )?;
    Ok(())
}

#[tactic(auto, using(crate::proofs::Found::federates_found))]
fn want_federates(
    alloc: Global,
    parameters: &[NamedOperand],
    source: &Table,
    made: &Table,
) -> Result<(), Mismatch>
    ensures { OnOk result (AreFederatesMade parameters.now (table_view source.now) (table_view made.now)) }
{
    let classes = array_at(alloc, source, "class")?;
    let entries = array_at(alloc, source, "federate")?;
    let made = array_at(alloc, made, "federate")?;
    want_each_federate(alloc, parameters, classes, entries, made)?;
    Ok(())
}

#[tactic(auto, using(crate::proofs::Found::connections_found))]
fn want_connections(
    alloc: Global,
    parameters: &[NamedOperand],
    source: &Table,
    made: &Table,
) -> Result<(), Mismatch>
    ensures { OnOk result (AreConnectionsMade parameters.now (table_view source.now) (table_view made.now)) }
{
    let entries = array_at(alloc, source, "connection")?;
    let made = array_at(alloc, made, "connection")?;
    want_each_connection(alloc, parameters, entries, made)?;
    Ok(())
}

#[tactic(auto, using(crate::proofs::CopyLists::none_made, crate::proofs::CopyLists::all_made))]
fn want_each_federate(
    alloc: Global,
    parameters: &[NamedOperand],
    classes: &[Value],
    entries: &[Value],
    made: &[Value],
) -> Result<(), Mismatch>
    ensures { OnOk result
        (AreMadeOf (AreFederatesOf parameters.now (map view classes.now)) (map view entries.now) (map view made.now)) }
{
    let mut rest = made;
    for entry in entries {
        rest = behind_federates(alloc, parameters, classes, entry, rest)?;
    }
    want(rest.is_empty())
}

// What stands behind the federates of an entry.
fn behind_federates<'m>(
    alloc: Global,
    parameters: &[NamedOperand],
    classes: &[Value],
    value: &Value,
    made: &'m [Value],
) -> Result<&'m [Value], Mismatch>
    ensures { IfOk result (λ rest. BeginsWith (AreFederatesOf parameters.now (map view classes.now) (view value.now))
        (map view made.now) (map view rest.now)) }
{
    let entry = want_table(value)?;
    let range = counted(alloc, parameters, entry)?;
    let Some((own, rest)) = made.split_at_checked(copy_count(&range)) else {
        return Err(Mismatch::Differs);
    };
    want_federates_of(alloc, parameters, classes, entry, &range, own)?;
    Ok(rest)
}

fn want_federates_of(
    alloc: Global,
    parameters: &[NamedOperand],
    classes: &[Value],
    entry: &Table,
    range: &Option<Range>,
    made: &[Value],
) -> Result<(), Mismatch>
    ensures { OnOk result
        (AreOwnFederates parameters.now (table_view entry.now) range.now (map view made.now)
        ⊎ AreClassFederates parameters.now (map view classes.now) (table_view entry.now) range.now
        (map view made.now)) }
{
    if get(entry, "class").is_none() {
        want_own_federates(alloc, parameters, entry, range, made)?;
        Ok(())
    } else {
        want_class_federates(alloc, parameters, classes, entry, range, made)?;
        Ok(())
    }
}

fn want_own_federates(
    alloc: Global,
    parameters: &[NamedOperand],
    entry: &Table,
    range: &Option<Range>,
    made: &[Value],
) -> Result<(), Mismatch>
    ensures { OnOk result (AreOwnFederates parameters.now (table_view entry.now) range.now (map view made.now)) }
{
    want_without(entry, "class")?;
    want_without(entry, "with")?;
    want_own_copies(alloc, parameters, entry, &["count"], range, made)?;
    Ok(())
}

fn want_class_federates(
    alloc: Global,
    parameters: &[NamedOperand],
    classes: &[Value],
    entry: &Table,
    range: &Option<Range>,
    made: &[Value],
) -> Result<(), Mismatch>
    ensures { OnOk result
        (AreClassFederates parameters.now (map view classes.now) (table_view entry.now) range.now (map view made.now)) }
{
    want_only(alloc, entry, &["class", "name", "count", "with"])?;
    let class = class_of(classes, text_at(entry, "class")?)?;
    let settings = settings_of(alloc, entry)?;
    let defaults = naming::parameters(alloc, &[], class)?;
    let of = ClassEntry {
        own: entry,
        class,
        settings: settings.as_slice(),
        defaults: defaults.as_slice(),
    };
    want_class_copies(alloc, parameters, of, range, made)?;
    Ok(())
}

#[tactic(auto, using(crate::proofs::CopyLists::none_made, crate::proofs::CopyLists::all_made))]
fn want_each_connection(
    alloc: Global,
    parameters: &[NamedOperand],
    entries: &[Value],
    made: &[Value],
) -> Result<(), Mismatch>
    ensures { OnOk result
        (AreMadeOf (AreConnectionsOf parameters.now) (map view entries.now) (map view made.now)) }
{
    let mut rest = made;
    for entry in entries {
        rest = behind_connections(alloc, parameters, entry, rest)?;
    }
    want(rest.is_empty())
}

// What stands behind the connections of an entry.
fn behind_connections<'m>(
    alloc: Global,
    parameters: &[NamedOperand],
    value: &Value,
    made: &'m [Value],
) -> Result<&'m [Value], Mismatch>
    ensures { IfOk result (λ rest. BeginsWith (AreConnectionsOf parameters.now (view value.now))
        (map view made.now) (map view rest.now)) }
{
    let entry = want_table(value)?;
    let range = ranged(alloc, parameters, entry)?;
    let Some((own, rest)) = made.split_at_checked(copy_count(&range)) else {
        return Err(Mismatch::Differs);
    };
    want_own_copies(alloc, parameters, entry, &["for"], &range, own)?;
    Ok(rest)
}
