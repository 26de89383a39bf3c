ghost use Rattle.std.specs.Prelude.{◌≡◌, ℕ, ◌<◌, ◌++◌, ◌∷◌, [], length, map, All, OnOk, OnErr, Some, false, slice_get};
ghost use Rattle.std.specs.List.{flat_map};
ghost use Rattle.std.specs.Option.{option_map};
ghost use Rattle.reactor_agenda.specs.Agenda.{in_time};
ghost use Rattle.whole.specs.Construction.{held_if, carried_over, deferred_by, own_deferred, put_to, after_puts};
ghost use Rattle.whole.specs.Construction.{has_target, kept_on};
ghost use Rattle.whole.specs.Targets.{shown, all_shown, AreOfDifferentFederates};

use crate::targets::Target;
use plan_paths::Connection;
use reactor::{Memory, Rows, Scheduling};
use reactor_agenda::{Agenda, PendingEvent};
use reactor_program::Entry;
use reactor_program::entry::value_at;
use std::marker::Model;
use tag::{FiniteTag, Tag, plus};

/// A turn that was run: what was present, and what it made.
#[derive(Drop)]
pub struct TurnMade<'t> {
    pub federate: usize,
    pub tag: Tag,
    /// Up to which tag its events are kept.
    pub stop: FiniteTag,
    pub inputs: &'t [Entry],
    pub outputs: &'t [Entry],
    pub schedulings: &'t [Scheduling],
}

impl<'t> Model for TurnMade<'t> {
    ghost use Rattle.whole.specs.Construction.{TurnMade as TurnMadeOf};

    ghost Value = { TurnMadeOf };

    ghost view = { λ t. record {
      federate = t.federate;
      tag = t.tag;
      stop = t.stop;
      inputs = t.inputs.now;
      outputs = t.outputs.now;
      schedulings = t.schedulings.now;
    } };
}

/// Puts what a turn makes on the agendas of its targets, and adds its row: all or nothing. `events` is room.
pub fn put_made(
    agendas: &mut [Agenda],
    rows: &mut Rows,
    events: &mut Vec<PendingEvent>,
    targets: &[Target],
    turn: &TurnMade<'_>,
) -> Result<(), Memory>
    requires there { All (λ t. t.federate < length agendas.old) targets.now }
    requires apart { AreOfDifferentFederates (all_shown targets.now) }
    ensures length { length agendas.new ≡ length agendas.old }
    ensures put { OnOk result ((federate : ℕ)
        → slice_get (map kept_on agendas.new) federate
        ≡ option_map (after_puts turn.now (all_shown targets.now) federate)
        (slice_get (map kept_on agendas.old) federate)) }
    ensures row { OnOk result (rows.new ≡ rows.old
        ++ record {
          reactor = turn.now.federate;
          tag = turn.now.tag;
          inputs = turn.now.inputs;
          outputs = turn.now.outputs;
        } ∷ []) }
    ensures err { OnErr result (map kept_on agendas.new ≡ map kept_on agendas.old) }
    ensures others { OnErr result ((federate : ℕ) → has_target federate (all_shown targets.now) ≡ false
        → slice_get agendas.new federate ≡ slice_get agendas.old federate) }
    ensures no_row { OnErr result (rows.new ≡ rows.old) }
{
    match targets {
        [target, others @ ..] => {
            made_for(events, turn, target)?;
            // A federate is a target of its own turns, also of those that schedule nothing.
            if events.is_empty() {
                return put_made(agendas, rows, events, others, turn);
            }
            let put = match agendas[target.federate].put_all(events.as_slice()) {
                Ok(put) => put,
                Err(_) => return Err(Memory),
            };
            match put_made(agendas, rows, events, others, turn) {
                Ok(()) => Ok(()),
                Err(memory) => {
                    agendas[target.federate].take_back(put);
                    Err(memory)
                }
            }
        }
        [] => rows.push(turn.federate, turn.tag, turn.inputs, turn.outputs),
    }
}

// What a turn puts to a target, in place of what `events` held.
fn made_for(
    events: &mut Vec<PendingEvent>,
    turn: &TurnMade<'_>,
    target: &Target,
) -> Result<(), Memory>
    ensures { OnOk result (events.new.items ≡ put_to turn.now (shown target.now)) }
{
    events.clear();
    add_carried(events, turn, target.connections.as_slice())?;
    if target.federate == turn.federate {
        add_deferred(events, turn)?;
    }
    Ok(())
}

fn add_carried(
    events: &mut Vec<PendingEvent>,
    turn: &TurnMade<'_>,
    connections: &[Connection],
) -> Result<(), Memory>
    ensures { OnOk result (events.new.items ≡ events.old.items ++ flat_map (carried_over turn.now) connections.now) }
{
    for connection in connections {
        add_carried_over(events, turn, *connection)?;
    }
    Ok(())
}

// Adds what a connection carries of a turn's outputs.
fn add_carried_over(
    events: &mut Vec<PendingEvent>,
    turn: &TurnMade<'_>,
    connection: Connection,
) -> Result<(), Memory>
    ensures { OnOk result (events.new.items ≡ events.old.items ++ carried_over turn.now connection) }
{
    let Some(value) = value_at(turn.outputs, connection.port()) else {
        return Ok(());
    };
    let arrival = plus(turn.tag, connection.delay());
    add(events, turn.stop, arrival, connection.slot(), value)
}

fn add_deferred(events: &mut Vec<PendingEvent>, turn: &TurnMade<'_>) -> Result<(), Memory>
    ensures { OnOk result (events.new.items ≡ events.old.items
        ++ flat_map (deferred_by turn.now) turn.now.schedulings) }
{
    for scheduling in turn.schedulings {
        add_deferred_by(events, turn, *scheduling)?;
    }
    Ok(())
}

// Adds the event of a scheduling.
fn add_deferred_by(
    events: &mut Vec<PendingEvent>,
    turn: &TurnMade<'_>,
    scheduling: Scheduling,
) -> Result<(), Memory>
    ensures { OnOk result (events.new.items ≡ events.old.items ++ deferred_by turn.now scheduling) }
{
    let tag = plus(turn.tag, scheduling.delay());
    add(
        events,
        turn.stop,
        tag,
        scheduling.slot(),
        scheduling.value(),
    )
}

// Adds an event, unless it is later than stop.
fn add(
    events: &mut Vec<PendingEvent>,
    stop: FiniteTag,
    tag: Tag,
    slot: usize,
    value: i64,
) -> Result<(), Memory>
    ensures { OnOk result (events.new.items ≡ events.old.items ++ held_if stop tag slot (Some value)) }
{
    if tag > stop.tag() {
        return Ok(());
    }
    stop.invariant();
    match FiniteTag::of(tag) {
        Some(finite) => events.push(PendingEvent::new(finite, slot, value))?,
        None => {}
    }
    Ok(())
}
