//! The copies of parts.
ghost use Rattle.std.specs.Prelude.{◌≡◌, ◌+ℤ◌, ◌∷◌, [], ◌++◌, ℤ, pos, IfOk, OnOk};
ghost use Rattle.expand_source.specs.Expansion.{AreNames, IsCopy, AreCopies, copy_count, number_of_copy, AreSet};
ghost use Rattle.expand_source.specs.Expansion.{IsExpansion, HasValue, named_number};
ghost use Rattle.expand_source.specs.Filling.{Appends};

use crate::fault::{SourceFault, SourceFaultKind, at};
use crate::filling::fill;
use crate::numbers::number;
use crate::part::{Part, Range, Setting};
use expand_expressions::NamedOperand;
use plan_names::Text;
use reactor_program::Operand;
use std::alloc::{AllocError, Global};

/// The most bytes that a source has, and what it becomes.
pub const MOST_BYTES: usize = 1_048_576;

/// The federation file that parts become.
#[tactic(auto, using(crate::proofs::Copies::all_parts))]
pub fn expanded(alloc: Global, parts: &[Part<'_>]) -> Result<Vec<u8>, SourceFault>
    ensures { IfOk result (λ text. IsExpansion parts.now text.items) }
{
    let mut text = Vec::new(alloc);
    for part in parts {
        add_copies(alloc, part, &mut text)?;
        if text.len() > MOST_BYTES {
            return Err(SourceFaultKind::OverLimit.at(part.line));
        }
    }
    Ok(text)
}

#[tactic(auto, using(crate::proofs::Copies::no_copies))]
fn add_copies(alloc: Global, part: &Part<'_>, text: &mut Vec<u8>) -> Result<(), SourceFault>
    ensures { OnOk result
        (Appends text.old.items text.new.items (AreCopies part.now (copy_count part.now.range))) }
{
    for k in 0..part.count() {
        add_copy(alloc, part, k, text)?;
        if text.len() > MOST_BYTES {
            return Err(SourceFaultKind::OverLimit.at(part.line));
        }
    }
    Ok(())
}

fn add_copy(alloc: Global, part: &Part<'_>, k: usize, text: &mut Vec<u8>) -> Result<(), SourceFault>
    ensures { OnOk result (Appends text.old.items text.new.items (IsCopy part.now k)) }
{
    let names = part.names(alloc, k)?;
    fill(alloc, names.as_slice(), part.template.as_slice(), text)?;
    Ok(())
}

impl Part<'_> {
    /// How many copies it has.
    pub fn count(&self) -> usize
        ensures { result ≡ copy_count self.now.range }
    {
        match &self.range {
            None => 1,
            Some(range) => range.count,
        }
    }

    /// What names stand for in one of its copies.
    fn names(&self, alloc: Global, k: usize) -> Result<Vec<NamedOperand>, SourceFault>
        ensures { IfOk result (λ names. AreNames self.now k names.items) }
    {
        let own = at(self.line, number_of(alloc, &self.range, k))?;
        let known = at(self.line, joined(alloc, own.as_slice(), self.parameters))?;
        let set = set(alloc, known.as_slice(), self.settings.as_slice())?;
        at(
            self.line,
            self.joined(alloc, own.as_slice(), set.as_slice()),
        )
    }

    // All names of a copy.
    fn joined(
        &self,
        alloc: Global,
        own: &[NamedOperand],
        set: &[NamedOperand],
    ) -> Result<Vec<NamedOperand>, SourceFaultKind>
        ensures { IfOk result (λ names. names.items
            ≡ own.now ++ (set.now ++ (self.now.defaults.items ++ self.now.parameters.now))) }
    {
        let mut names = joined(alloc, own, set)?;
        copy_into(&mut names, self.defaults.as_slice())?;
        copy_into(&mut names, self.parameters)?;
        Ok(names)
    }
}

/// The number of a copy, by its name.
pub fn number_of(
    alloc: Global,
    range: &Option<Range>,
    k: usize,
) -> Result<Vec<NamedOperand>, SourceFaultKind>
    ensures { IfOk result (λ names. names.items ≡ number_of_copy range.now k) }
{
    let mut names = Vec::new(alloc);
    if let Some(range) = range {
        let value = number_at(range.first, k)?;
        names.push(named(&range.name, value)?)?;
    }
    Ok(names)
}

// The number of a copy.
fn number_at(first: i64, k: usize) -> Result<i64, SourceFaultKind>
    ensures { IfOk result (λ n. n ≡ first +ℤ pos k) }
{
    let Ok(behind) = i64::try_from(k) else {
        return Err(SourceFaultKind::OverLimit);
    };
    match first.checked_add(behind) {
        Some(number) => Ok(number),
        None => Err(SourceFaultKind::OverLimit),
    }
}

fn named(name: &Text, value: i64) -> Result<NamedOperand, AllocError>
    ensures { IfOk result (λ named. named ≡ named_number name.now value) }
{
    Ok(NamedOperand {
        name: name.clone()?,
        operand: Operand::Number(value),
    })
}

// What a copy sets.
#[tactic(auto, using(crate::proofs::Copies::one_set_more, crate::proofs::Copies::all_set))]
fn set(
    alloc: Global,
    names: &[NamedOperand],
    settings: &[Setting],
) -> Result<Vec<NamedOperand>, SourceFault>
    ensures { IfOk result (λ set. AreSet names.now settings.now set.items) }
{
    let mut set = Vec::new(alloc);
    for setting in settings {
        let named = at(setting.line, set_one(alloc, names, setting))?;
        at(setting.line, pushed(&mut set, named))?;
    }
    Ok(set)
}

fn set_one(
    alloc: Global,
    names: &[NamedOperand],
    setting: &Setting,
) -> Result<NamedOperand, SourceFaultKind>
    ensures { IfOk result (λ set. (n : ℤ) × HasValue names.now setting.now.expression n
        × (set ≡ named_number setting.now.name n)) }
{
    let value = number(alloc, names, setting.expression.as_str().as_bytes())?;
    Ok(named(&setting.name, value)?)
}

fn pushed(names: &mut Vec<NamedOperand>, name: NamedOperand) -> Result<(), SourceFaultKind>
    ensures { OnOk result (names.new.items ≡ names.old.items ++ name ∷ []) }
{
    names.push(name)?;
    Ok(())
}

// Names, one list behind the other.
fn joined(
    alloc: Global,
    first: &[NamedOperand],
    second: &[NamedOperand],
) -> Result<Vec<NamedOperand>, SourceFaultKind>
    ensures { IfOk result (λ names. names.items ≡ first.now ++ second.now) }
{
    let mut names = Vec::new(alloc);
    copy_into(&mut names, first)?;
    copy_into(&mut names, second)?;
    Ok(names)
}

/// Adds copies of names to others.
#[tactic(auto, using(crate::proofs::Copies::one_name_more))]
pub fn copy_into(names: &mut Vec<NamedOperand>, more: &[NamedOperand]) -> Result<(), AllocError>
    ensures { OnOk result (names.new.items ≡ names.old.items ++ more.now) }
{
    for name in more {
        names.push(copied(name)?)?;
    }
    Ok(())
}

fn copied(name: &NamedOperand) -> Result<NamedOperand, AllocError>
    ensures { IfOk result (λ copy. copy ≡ name.now) }
{
    Ok(NamedOperand {
        name: name.name.clone()?,
        operand: name.operand,
    })
}
