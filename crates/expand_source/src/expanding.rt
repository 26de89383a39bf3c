//! A source as a federation file.
ghost use Rattle.std.specs.Prelude.{IfOk, List};
ghost use Rattle.expand_source.specs.declared.part.Part.{Part};
ghost use Rattle.expand_source.specs.Expansion.{IsExpansion};

use crate::copying::{MOST_BYTES, expanded};
use crate::fault::{SourceFault, SourceFaultKind, at};
use crate::group::{Group, groups};
use crate::item::{Item, items};
use crate::lines::lines_of;
use crate::part::{Given, Part};
use crate::reading::{parameters, parts};
use crate::token::{Token, line_ends, tokens};
use std::alloc::Global;
use toml::Table;

/// What a source becomes.
#[derive(Drop)]
pub struct Expansion {
    pub text: Vec<u8>,
    /// For each line of the text the line of the source that it came of; the last is of what stands behind the end of
    /// the last line.
    pub lines: Vec<usize>,
}

/// What a source becomes, with these values of its parameters. A federation file is its own expansion, byte for byte.
pub fn expand(alloc: Global, source: &[u8], given: &[Given]) -> Result<Expansion, SourceFault>
    ensures { IfOk result (λ made. (parts : List Part) × IsExpansion parts made.text.items) }
{
    if source.len() > MOST_BYTES {
        return Err(SourceFaultKind::OverLimit.at(0));
    }
    let table = table_of(alloc, source)?;
    let tokens = at(0, tokens_of(alloc, source))?;
    let items = at(0, items_of(alloc, tokens.as_slice()))?;
    let groups = at(0, groups_of(alloc, items.as_slice()))?;
    let parameters = parameters(alloc, &table, groups.as_slice(), given)?;
    let parts = parts(alloc, groups.as_slice(), parameters.as_slice())?;
    let text = expanded(alloc, parts.as_slice())?;
    let lines = at(0, source_lines(alloc, parts.as_slice()))?;
    Ok(Expansion { text, lines })
}

fn table_of(alloc: Global, source: &[u8]) -> Result<Table, SourceFault> {
    match toml::table_from_slice(alloc, source) {
        Ok(table) => Ok(table),
        Err(error) => match error.span() {
            Some(span) => {
                let before = source.get(..span.start).unwrap_or(&[]);
                Err(SourceFaultKind::NotToml.at(line_ends(before).saturating_add(1)))
            }
            // An error of memory has no place.
            None => Err(SourceFaultKind::Memory.at(0)),
        },
    }
}

fn source_lines(alloc: Global, parts: &[Part<'_>]) -> Result<Vec<usize>, SourceFaultKind> {
    Ok(lines_of(alloc, parts)?)
}

fn tokens_of(alloc: Global, source: &[u8]) -> Result<Vec<Token<'_>>, SourceFaultKind> {
    Ok(tokens(alloc, source)?)
}

fn items_of<'a>(alloc: Global, tokens: &'a [Token<'a>]) -> Result<Vec<Item<'a>>, SourceFaultKind> {
    Ok(items(alloc, tokens)?)
}

fn groups_of<'a>(alloc: Global, items: &'a [Item<'a>]) -> Result<Vec<Group<'a>>, SourceFaultKind> {
    Ok(groups(alloc, items)?)
}
