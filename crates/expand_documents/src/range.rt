//! The range of a connection.
ghost use Rattle.std.specs.Prelude.{◌≡◌, ◌++◌, codes, IfOk, IfSome};
ghost use Rattle.expand_documents.specs.Naming.{IsRange, IsCountBetween};

use crate::mismatch::{Mismatch, want};
use expand_expressions::NamedOperand;
use expand_source::Range;
use expand_source::numbers::number;
use plan_names::{Text, is_name};
use std::alloc::Global;

/// The three texts of `NAME in FIRST..LAST`.
#[derive(Clone, Copy)]
pub(crate) struct Bounds<'t> {
    pub name: &'t str,
    pub first: &'t str,
    pub last: &'t str,
}

/// The range that a text is.
pub(crate) fn range_of(
    alloc: Global,
    parameters: &[NamedOperand],
    text: &str,
) -> Result<Range, Mismatch>
    ensures { IfOk result (IsRange parameters.now text.now) }
{
    let Some(bounds) = bounds_of(text) else {
        return Err(Mismatch::Differs);
    };
    let name = bounds.name.trim();
    want(is_name(name.as_bytes()))?;
    let first = number(alloc, parameters, bounds.first.as_bytes())?;
    let last = number(alloc, parameters, bounds.last.as_bytes())?;
    Ok(Range {
        name: Text::new(String::from_str(alloc, name)?),
        first,
        count: count_between(first, last)?,
    })
}

// The texts of a range.
fn bounds_of(text: &str) -> Option<Bounds<'_>>
    ensures { IfSome result (λ b.
        text.now ≡ b.name.now ++ (codes " in " ++ (b.first.now ++ (codes ".." ++ b.last.now)))) }
{
    let (name, bounds) = parted(text, " in ")?;
    let (first, last) = parted(bounds, "..")?;
    Some(Bounds { name, first, last })
}

// What stands in front of a text, and behind it.
fn parted<'t>(text: &'t str, between: &str) -> Option<(&'t str, &'t str)>
    ensures { IfSome result (λ parts. text.now ≡ parts.0.now ++ (between.now ++ parts.1.now)) }
{
    text.split_once(between)
}

// How many numbers there are from the first to the last, both included.
fn count_between(first: i64, last: i64) -> Result<usize, Mismatch>
    ensures { IfOk result (IsCountBetween first last) }
{
    if last < first {
        return Ok(0);
    }
    let Some(behind) = last.checked_sub(first) else {
        return Err(Mismatch::Differs);
    };
    let Ok(behind) = usize::try_from(behind) else {
        return Err(Mismatch::Differs);
    };
    match behind.checked_add(1) {
        Some(count) => Ok(count),
        None => Err(Mismatch::Differs),
    }
}
