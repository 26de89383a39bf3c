//! Whether a document is another one with its bodies expanded.
ghost use Rattle.std.specs.Prelude.{map, IfOk, OnOk};
ghost use Rattle.std.specs.List.{AllZip};
ghost use Rattle.toml.specs.View.{table_view};
ghost use Rattle.expand_bodies.specs.Expanded.{IsExpanded};
ghost use Rattle.expand_federation.specs.Bodies.{IsReactionWithBody, HasBodies, IsFederateWithBodies, IsWithBodies};

use crate::fault::ExpandFault;
use crate::names::names_of;
use crate::scratch::check_states;
use crate::tables::{check_rest, tables_at};
use expand_bodies::{BodyFaultKind, BodyNames, expand_body};
use loadfed_tables::Section;
use plan_names::{Names, Text};
use std::alloc::Global;
use toml::Table;

/// Refuses a document that isn't what this one becomes once its bodies are expanded.
pub fn check_bodies(alloc: Global, before: &Table, after: &Table) -> Result<(), ExpandFault>
    ensures { OnOk result (IsWithBodies (table_view before.now) (table_view after.now)) }
{
    check_rest(alloc, before, after, &["federate"])?;
    let federates = tables_at(alloc, before, "federate")?;
    let expanded = tables_at(alloc, after, "federate")?;
    check_federates(alloc, federates.as_slice(), expanded.as_slice())
}

fn check_federates(
    alloc: Global,
    federates: &[&Table],
    expanded: &[&Table],
) -> Result<(), ExpandFault>
    ensures { OnOk result (AllZip IsFederateWithBodies (map (λ t. table_view t.now) federates.now)
        (map (λ t. table_view t.now) expanded.now)) }
{
    match federates {
        [first, federates @ ..] => match expanded {
            [other, expanded @ ..] => {
                check_federate(alloc, first, other)?;
                check_federates(alloc, federates, expanded)
            }
            [] => Err(ExpandFault::OtherMeaning),
        },
        [] => match expanded {
            [] => Ok(()),
            _ => Err(ExpandFault::OtherMeaning),
        },
    }
}

fn check_federate(alloc: Global, before: &Table, after: &Table) -> Result<(), ExpandFault>
    ensures { OnOk result (IsFederateWithBodies (table_view before.now) (table_view after.now)) }
{
    check_rest(alloc, before, after, &["state", "reaction"])?;
    let names = names_of(alloc, &Section::new(alloc, before))?;
    check_states(alloc, &names.states, before, after)?;
    check_reactions(alloc, &names, before, after)
}

fn check_reactions(
    alloc: Global,
    names: &BodyNames,
    before: &Table,
    after: &Table,
) -> Result<(), ExpandFault>
    ensures { OnOk result (HasBodies names.now (table_view before.now) (table_view after.now)) }
{
    let reactions = tables_at(alloc, before, "reaction")?;
    let expanded = tables_at(alloc, after, "reaction")?;
    check_each_reaction(alloc, names, reactions.as_slice(), expanded.as_slice())
}

fn check_each_reaction(
    alloc: Global,
    names: &BodyNames,
    reactions: &[&Table],
    expanded: &[&Table],
) -> Result<(), ExpandFault>
    ensures { OnOk result (AllZip (IsReactionWithBody names.now) (map (λ t. table_view t.now) reactions.now)
        (map (λ t. table_view t.now) expanded.now)) }
{
    match reactions {
        [first, reactions @ ..] => match expanded {
            [other, expanded @ ..] => {
                check_reaction(alloc, names, first, other)?;
                check_each_reaction(alloc, names, reactions, expanded)
            }
            [] => Err(ExpandFault::OtherMeaning),
        },
        [] => match expanded {
            [] => Ok(()),
            _ => Err(ExpandFault::OtherMeaning),
        },
    }
}

fn check_reaction(
    alloc: Global,
    names: &BodyNames,
    before: &Table,
    after: &Table,
) -> Result<(), ExpandFault>
    ensures { OnOk result (IsReactionWithBody names.now (table_view before.now) (table_view after.now)) }
{
    check_rest(alloc, before, after, &["body"])?;
    let lines = Section::new(alloc, before).texts("body")?;
    let texts = Section::new(alloc, after).texts("body")?;
    let expected = expansion(alloc, names, lines.as_slice())?;
    if expected.is_same(&texts) {
        Ok(())
    } else {
        Err(ExpandFault::OtherMeaning)
    }
}

// What a body becomes, which was expanded before.
fn expansion(alloc: Global, names: &BodyNames, lines: &[Text]) -> Result<Names, ExpandFault>
    ensures { IfOk result (IsExpanded names.now lines.now) }
{
    match expand_body(alloc, names, lines) {
        Ok(body) => Ok(body.lines),
        Err(fault) => match fault.kind {
            BodyFaultKind::Memory => Err(ExpandFault::Memory),
            _ => Err(ExpandFault::OtherMeaning),
        },
    }
}
