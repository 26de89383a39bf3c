//! Whether states are those of a federate and scratch states.
ghost use Rattle.std.specs.Prelude.{◌≡◌, List, ◌++◌, map, All, OnOk};
ghost use Rattle.toml.specs.Data.{Members};
ghost use Rattle.toml.specs.View.{table_view};
ghost use Rattle.expand_federation.specs.Bodies.{IsScratchState, HasScratchStates};

use crate::fault::ExpandFault;
use crate::sameness::are_same_members;
use crate::tables::tables_at;
use loadfed_tables::Section;
use plan_names::Names;
use std::alloc::Global;
use toml::Table;

/// Refuses states that aren't those of before, which have these names, with scratch states behind them.
pub(crate) fn check_states(
    alloc: Global,
    own: &Names,
    before: &Table,
    after: &Table,
) -> Result<(), ExpandFault>
    ensures { OnOk result (HasScratchStates own.now (table_view before.now) (table_view after.now)) }
{
    let states = tables_at(alloc, before, "state")?;
    let all = tables_at(alloc, after, "state")?;
    check_all(alloc, own, states.as_slice(), all.as_slice())
}

fn check_all(
    alloc: Global,
    own: &Names,
    states: &[&Table],
    all: &[&Table],
) -> Result<(), ExpandFault>
    ensures { OnOk result ((scratch : List Members)
        × (map (λ t. table_view t.now) all.now ≡ map (λ t. table_view t.now) states.now ++ scratch)
        × All (IsScratchState own.now) scratch) }
{
    match states {
        [first, states @ ..] => match all {
            [other, all @ ..] if are_same_members(other, first) => check_all(
                alloc, own, states, all,
            ),
            _ => Err(ExpandFault::OtherMeaning),
        },
        [] => check_scratch(alloc, own, all),
    }
}

fn check_scratch(alloc: Global, own: &Names, states: &[&Table]) -> Result<(), ExpandFault>
    ensures { OnOk result (All (IsScratchState own.now) (map (λ t. table_view t.now) states.now)) }
{
    match states {
        [first, rest @ ..] => {
            check_scratch_state(alloc, own, first)?;
            check_scratch(alloc, own, rest)
        }
        [] => Ok(()),
    }
}

fn check_scratch_state(alloc: Global, own: &Names, state: &Table) -> Result<(), ExpandFault>
    ensures { OnOk result (IsScratchState own.now (table_view state.now)) }
{
    let section = Section::new(alloc, state);
    section.has_only(&["name", "value"])?;
    let name = section.name("name")?;
    let value = section.needed_number("value")?;
    if value == 0 && own.place_of(name.as_str().as_bytes()).is_none() {
        Ok(())
    } else {
        Err(ExpandFault::OtherMeaning)
    }
}
