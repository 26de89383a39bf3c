//! What holds of reading, whichever step maker makes the steps. Each function is a law: it does nothing.
ghost use Rattle.std.specs.Prelude.{ℕ, List, replicate};
ghost use Rattle.node.specs.declared.event.Event.{Event};
ghost use Rattle.recorder_search.specs.Reading.{Position, IsReading, GrewTo};

use crate::step_maker::StepMaker;

/// Before the step maker's first step nothing is read, of any journals.
#[tactic(none)]
pub fn nothing_is_read<M: StepMaker>()
    ensures { (initial : M) (journals : List (List Event)) (count : ℕ)
        → IsReading M.motion initial journals (record { state = initial; read = replicate count 0 }) }
{}

/// What is read of journals is read of longer ones.
#[tactic(none)]
pub fn longer_journals_are_read<M: StepMaker>()
    ensures { (initial : M) (journals longer : List (List Event)) (p : Position M) → GrewTo journals longer
        → IsReading M.motion initial journals p → IsReading M.motion initial longer p }
{}
