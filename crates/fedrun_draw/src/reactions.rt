//! How reactions are written in a picture: what triggers each, and what it may do.
use crate::wording::cut;
use files_pictures::shapes::number_at;
use plan::Slots;
use plan_names::Text;
use reactor_program::{Line, Reaction, Statement};
use std::alloc::{AllocError, Global};
use tag::{Delay, Time};

/// What a reaction may do, beside changing states.
#[derive(Clone, Copy, PartialEq, Eq)]
enum Effect {
    /// It sets the output at this place.
    Sets(usize),
    /// It schedules the action at this slot, so much later.
    Schedules(usize, Delay),
}

/// A reaction with its number: its triggers, and behind an arrow each output that it may set and each action that it
/// may schedule, with the delay. What is too long is cut.
pub(crate) fn reaction_text(
    alloc: Global,
    slots: &Slots,
    number: usize,
    reaction: &Reaction,
) -> Result<String, AllocError> {
    let mut text = String::new(alloc);
    write!(text, "{number} ")?;
    push_triggers(&mut text, slots, reaction.triggers.as_slice())?;
    push_effects(&mut text, slots, reaction.body.as_slice())?;
    cut(alloc, text.as_str())
}

// Adds the names of triggers.
fn push_triggers(text: &mut String, slots: &Slots, triggers: &[usize]) -> Result<(), AllocError> {
    for place in 0..triggers.len() {
        if place > 0 {
            text.push_str(", ")?;
        }
        text.push_str(slot_name(slots, number_at(triggers, place)))?;
    }
    Ok(())
}

// Adds what the lines of a body may do, each once.
fn push_effects(text: &mut String, slots: &Slots, lines: &[Line]) -> Result<(), AllocError> {
    let mut before = " -> ";
    for place in 0..lines.len() {
        if let Some(effect) = new_effect(lines, place) {
            text.push_str(before)?;
            push_effect(text, slots, effect)?;
            before = ", ";
        }
    }
    Ok(())
}

// What the line at a place may do, where no line before may do it.
fn new_effect(lines: &[Line], place: usize) -> Option<Effect> {
    let effect = effect_of(lines.get(place)?)?;
    for before in 0..place {
        if let Some(line) = lines.get(before) {
            if effect_of(line) == Some(effect) {
                return None;
            }
        }
    }
    Some(effect)
}

// What a line may do, beside changing a state.
fn effect_of(line: &Line) -> Option<Effect> {
    match line.statement {
        Statement::Assign(_, _) => None,
        Statement::Output(output, _) => Some(Effect::Sets(output)),
        Statement::Schedule(action, delay, _) => Some(Effect::Schedules(action, delay)),
    }
}

// Adds what a reaction may do.
fn push_effect(text: &mut String, slots: &Slots, effect: Effect) -> Result<(), AllocError> {
    match effect {
        Effect::Sets(output) => text.push_str(name_at(slots.outputs.as_slice(), output)),
        Effect::Schedules(action, delay) => {
            let name = slot_name(slots, action);
            let time = time_of(delay);
            write!(text, "{name} after {time}")
        }
    }
}

// The time of a delay; of what is none, 0.
fn time_of(delay: Delay) -> Time {
    match Time::new(delay.time()) {
        Some(time) => time,
        None => Time::zero(),
    }
}

// The name of a slot; empty where there is none.
fn slot_name(slots: &Slots, slot: usize) -> &str {
    if slot == Slots::STARTUP {
        "startup"
    } else if slot < slots.first_timer() {
        name_at(
            slots.inputs.as_slice(),
            slot.saturating_sub(Slots::FIRST_INPUT),
        )
    } else if slot < slots.first_action() {
        timer_name(slots, slot.saturating_sub(slots.first_timer()))
    } else if slot < slots.first_physical() {
        name_at(
            slots.actions.as_slice(),
            slot.saturating_sub(slots.first_action()),
        )
    } else {
        name_at(
            slots.physical.as_slice(),
            slot.saturating_sub(slots.first_physical()),
        )
    }
}

// The name of a timer; empty where there is none.
fn timer_name(slots: &Slots, place: usize) -> &str {
    match slots.timers.as_slice().get(place) {
        Some(timer) => timer.name.as_str(),
        None => "",
    }
}

fn name_at(names: &[Text], place: usize) -> &str {
    match names.get(place) {
        Some(name) => name.as_str(),
        None => "",
    }
}
