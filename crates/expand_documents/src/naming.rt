//! What names stand for in a copy.
ghost use Rattle.std.specs.Prelude.{◌≡◌, ℤ, ◌++◌, IfOk};
ghost use Rattle.expand_source.specs.Expansion.{named_number, number_of_copy, copy_count};
ghost use Rattle.toml.specs.View.{view, table_view};
ghost use Rattle.expand_documents.specs.Entries.{members_of_entries};
ghost use Rattle.expand_documents.specs.Naming.{value_given, is_name_of, are_known, AreNamed};
ghost use Rattle.expand_documents.specs.Naming.{IsNumberGiven, AreParameters, HasNumber, IsSetting, AreNamesIn, IsCounted, IsRanged};

use crate::entries::{Entry, all_entries};
use crate::mismatch::{Mismatch, want};
use crate::range::range_of;
use crate::values::{as_number, as_text, get, want_table};
use expand_expressions::NamedOperand;
use expand_source::copying::{copy_into, number_of};
use expand_source::numbers::number;
use expand_source::{Given, Range};
use plan_names::Text;
use reactor_program::Operand;
use std::alloc::{AllocError, Global};
use toml::{Table, Value};

/// The parameters that a table has at `parameter`, but with the values that are given.
pub(crate) fn parameters(
    alloc: Global,
    given: &[Given],
    members: &Table,
) -> Result<Vec<NamedOperand>, Mismatch>
    ensures { IfOk result (λ names. AreParameters given.now (table_view members.now) names.items) }
{
    match get(members, "parameter") {
        None => Ok(Vec::new(alloc)),
        Some(value) => {
            let table = want_table(value)?;
            let entries = all_entries(alloc, table)?;
            numbers(alloc, given, entries.as_slice())
        }
    }
}

#[tactic(auto, using(crate::proofs::Named::one_name_more, crate::proofs::Named::all_names))]
fn numbers(
    alloc: Global,
    given: &[Given],
    entries: &[Entry<'_>],
) -> Result<Vec<NamedOperand>, Mismatch>
    ensures { IfOk result (λ names.
        AreNamed (IsNumberGiven given.now) (members_of_entries entries.now) names.items) }
{
    let mut names = Vec::new(alloc);
    for entry in entries {
        let named = given_number(alloc, given, *entry)?;
        names.push(named)?;
    }
    Ok(names)
}

fn given_number(alloc: Global, given: &[Given], entry: Entry<'_>) -> Result<NamedOperand, Mismatch>
    ensures { IfOk result (λ named. (n : ℤ) × IsNumberGiven given.now entry.entry.key.now (view entry.entry.value.now) n
        × (named ≡ named_number entry.entry.key.now n)) }
{
    match as_number(entry.value) {
        Some(own) => Ok(named(alloc, entry.key, value_given(given, entry.key, own))?),
        None => Err(Mismatch::Differs),
    }
}

// The value of a name: the last that is given for it, or else its own.
fn value_given(given: &[Given], name: &str, own: i64) -> i64
    ensures { result ≡ value_given given.now name.now own }
{
    match given {
        [one, rest @ ..] => {
            let value = if one.name.as_str() == name {
                one.value
            } else {
                own
            };
            value_given(rest, name, value)
        }
        [] => own,
    }
}

/// Whether each value is given for a name that is there.
pub(crate) fn are_known(given: &[Given], names: &[NamedOperand]) -> bool
    ensures { result ≡ are_known given.now names.now }
{
    match given {
        [one, rest @ ..] => is_name_of(names, one.name.as_str()) && are_known(rest, names),
        [] => true,
    }
}

fn is_name_of(names: &[NamedOperand], name: &str) -> bool
    ensures { result ≡ is_name_of names.now name.now }
{
    match names {
        [first, rest @ ..] => first.name.as_str() == name || is_name_of(rest, name),
        [] => false,
    }
}

fn named(alloc: Global, name: &str, value: i64) -> Result<NamedOperand, AllocError>
    ensures { IfOk result (λ named. named ≡ named_number name.now value) }
{
    Ok(NamedOperand {
        name: Text::new(String::from_str(alloc, name)?),
        operand: Operand::Number(value),
    })
}

// The value of an expression, which is a number or a text.
fn value_of(alloc: Global, names: &[NamedOperand], value: &Value) -> Result<i64, Mismatch>
    ensures { IfOk result (λ n. HasNumber names.now (view value.now) n) }
{
    if let Some(number) = as_number(value) {
        return Ok(number);
    }
    match as_text(value) {
        Some(text) => Ok(number(alloc, names, text.as_bytes())?),
        None => Err(Mismatch::Differs),
    }
}

/// What names stand for in a copy of what has no class.
pub(crate) fn own_names(
    alloc: Global,
    parameters: &[NamedOperand],
    range: &Option<Range>,
    k: usize,
) -> Result<Vec<NamedOperand>, Mismatch>
    ensures { IfOk result (λ names. names.items ≡ number_of_copy range.now k ++ parameters.now) }
{
    let mut names = number_of(alloc, range, k)?;
    copy_into(&mut names, parameters)?;
    Ok(names)
}

/// What names stand for in a copy of a class.
pub(crate) fn class_names(
    alloc: Global,
    parameters: &[NamedOperand],
    range: &Option<Range>,
    k: usize,
    settings: &[Entry<'_>],
    defaults: &[NamedOperand],
) -> Result<Vec<NamedOperand>, Mismatch>
    ensures { IfOk result (λ names.
        AreNamesIn parameters.now range.now (members_of_entries settings.now) defaults.now k names.items) }
{
    let known = own_names(alloc, parameters, range, k)?;
    let set = set(alloc, known.as_slice(), defaults, settings)?;
    let mut names = number_of(alloc, range, k)?;
    copy_into(&mut names, set.as_slice())?;
    copy_into(&mut names, defaults)?;
    copy_into(&mut names, parameters)?;
    Ok(names)
}

// What a copy sets, over these names.
#[tactic(auto, using(crate::proofs::Named::one_name_more, crate::proofs::Named::all_names))]
fn set(
    alloc: Global,
    names: &[NamedOperand],
    defaults: &[NamedOperand],
    settings: &[Entry<'_>],
) -> Result<Vec<NamedOperand>, Mismatch>
    ensures { IfOk result (λ set.
        AreNamed (IsSetting names.now defaults.now) (members_of_entries settings.now) set.items) }
{
    let mut set = Vec::new(alloc);
    for setting in settings {
        let named = set_one(alloc, names, defaults, *setting)?;
        set.push(named)?;
    }
    Ok(set)
}

fn set_one(
    alloc: Global,
    names: &[NamedOperand],
    defaults: &[NamedOperand],
    setting: Entry<'_>,
) -> Result<NamedOperand, Mismatch>
    ensures { IfOk result (λ named. (n : ℤ) × IsSetting names.now defaults.now setting.entry.key.now
        (view setting.entry.value.now) n × (named ≡ named_number setting.entry.key.now n)) }
{
    want(is_name_of(defaults, setting.key))?;
    let value = value_of(alloc, names, setting.value)?;
    Ok(named(alloc, setting.key, value)?)
}

/// How often an entry of federates stands in the federation.
pub(crate) fn counted(
    alloc: Global,
    parameters: &[NamedOperand],
    entry: &Table,
) -> Result<Option<Range>, Mismatch>
    ensures { IfOk result (IsCounted parameters.now (table_view entry.now)) }
{
    match get(entry, "count") {
        None => Ok(None),
        Some(value) => {
            let count = value_of(alloc, parameters, value)?;
            let Ok(count) = usize::try_from(count) else {
                return Err(Mismatch::Differs);
            };
            Ok(Some(Range {
                name: Text::new(String::from_str(alloc, "i")?),
                first: 0,
                count,
            }))
        }
    }
}

/// How often an entry of connections stands in the federation.
pub(crate) fn ranged(
    alloc: Global,
    parameters: &[NamedOperand],
    entry: &Table,
) -> Result<Option<Range>, Mismatch>
    ensures { IfOk result (IsRanged parameters.now (table_view entry.now)) }
{
    match get(entry, "for") {
        None => Ok(None),
        Some(value) => match as_text(value) {
            Some(text) => Ok(Some(range_of(alloc, parameters, text)?)),
            None => Err(Mismatch::Differs),
        },
    }
}

/// How many copies that are.
pub(crate) fn copy_count(range: &Option<Range>) -> usize
    ensures { result ≡ copy_count range.now }
{
    match range {
        None => 1,
        Some(range) => range.count,
    }
}
