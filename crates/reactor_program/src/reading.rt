ghost use Rattle.std.specs.Prelude.{◌≡◌, ◌≤◌, ◌⊎◌, length, IfOk, IfErr};
ghost use Rattle.std.specs.List.{AllZip};
ghost use Rattle.plan_slots.specs.Limits.{IsWithinLimits};
ghost use Rattle.reactor_program.specs.declared.limits.TheConstants.{MOST_LINES};
ghost use Rattle.reactor_program.specs.Spelled.{SpellsLineOf, IsLineFault};
ghost use Rattle.reactor_program.specs.declared.program_fault.ProgramFault.TheVariants.{Memory};

mod answer;
mod expression;
mod guard;
mod operand;
mod schedule;
mod statement;

use crate::ProgramFault;
use crate::program::{Line, State};
use guard::line;
use plan_names::Text;
use plan_slots::Slots;
use std::alloc::Global;

/// Reads the lines of the reaction of this number.
pub(crate) fn body(
    alloc: Global,
    slots: &Slots,
    states: &[State],
    number: usize,
    texts: &[Text],
) -> Result<Vec<Line>, ProgramFault>
    requires limits { IsWithinLimits slots.now }
    requires few { length texts.now ≤ MOST_LINES }
    ensures spelled { IfOk result (λ lines. AllZip (SpellsLineOf slots.now states.now) lines.items texts.now) }
    ensures refused { IfErr result
        (λ fault. (fault ≡ Memory) ⊎ IsLineFault slots.now states.now number texts.now fault) }
{
    let mut lines = Vec::new(alloc);
    for (place, text) in texts.iter().enumerate() {
        match line(slots, states, text.as_str().as_bytes()) {
            // Moved whole, the line would be of a type that the check doesn't know here.
            Ok(line) => lines.push(Line { ..line })?,
            Err(fault) => return Err(fault.at(number, place + 1)),
        }
    }
    Ok(lines)
}
