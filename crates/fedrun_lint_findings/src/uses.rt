//! What of a federate its reactions use.
use crate::line_words::words_of;
use plan::Slots;
use reactor_program::{Expression, Line, Operand, Program, Statement};
use std::alloc::{AllocError, Global};

/// Whether a reaction is triggered by this slot, or a line reads it.
pub(crate) fn is_used(program: &Program, slot: usize) -> bool {
    for reaction in program.reactions() {
        if reaction.triggers.as_slice().contains(&slot) {
            return true;
        }
    }
    reads(program, Operand::Value(slot)) || reads(program, Operand::Presence(slot))
}

/// Whether a line reads this.
pub(crate) fn reads(program: &Program, operand: Operand) -> bool {
    for reaction in program.reactions() {
        for line in reaction.body.as_slice() {
            if operands_of(line).contains(&Some(operand)) {
                return true;
            }
        }
    }
    false
}

/// Whether a line schedules the action at this slot.
pub(crate) fn schedules(program: &Program, slot: usize) -> bool {
    for reaction in program.reactions() {
        for line in reaction.body.as_slice() {
            if let Statement::Schedule(action, ..) = line.statement {
                if action == slot {
                    return true;
                }
            }
        }
    }
    false
}

/// Whether a line schedules something more than this many nanoseconds later.
pub(crate) fn schedules_behind(line: &Line, stop: u64) -> bool {
    match line.statement {
        Statement::Schedule(_, delay, _) => delay.time() > stop,
        _ => false,
    }
}

/// Whether a line as it is written reads the value of startup or of a timer. A program doesn't show it: there it is the
/// number 0.
pub(crate) fn reads_no_value(alloc: Global, line: &str, slots: &Slots) -> Result<bool, AllocError> {
    let words = words_of(alloc, line)?;
    for word in words.as_slice() {
        if let Some(name) = word.said.strip_prefix("in.") {
            if name == "startup" || slots.timers.place_of(name.as_bytes()).is_some() {
                return Ok(true);
            }
        }
    }
    Ok(false)
}

/// Whether one of these stands twice.
pub(crate) fn has_repeated(slots: &[usize]) -> bool {
    for (place, slot) in slots.iter().enumerate() {
        if slots[..place].contains(slot) {
            return true;
        }
    }
    false
}

// What a line reads: its condition, and one operand or two.
fn operands_of(line: &Line) -> [Option<Operand>; 3] {
    let (first, second) = match line.statement {
        Statement::Assign(_, Expression::Binary(first, _, second)) => (first, Some(second)),
        Statement::Assign(_, Expression::Single(operand))
        | Statement::Output(_, operand)
        | Statement::Schedule(_, _, operand) => (operand, None),
    };
    [line.condition, Some(first), second]
}
