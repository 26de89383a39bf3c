//! What the lines of a formula do.

ghost use Rattle.std.specs.Prelude.{◌≡◌, ℕ, ◌<◌, ℤ, Bool, List, Option, Some, length, slice_get};
ghost use Rattle.network.specs.Network.{Effect};
ghost use Rattle.reactor.specs.Effect.{truth_value};
ghost use Rattle.expand_expressions.specs.declared.formula.Formula.{Formula};
ghost use Rattle.expand_expressions.specs.Meaning.{value_of, IsBelow, IsWithin, AreWithin, IsReadable};
ghost use Rattle.expand_expressions.specs.declared.known.NamedOperand.{NamedOperand};
ghost use Rattle.expand_expressions.specs.Reading.{Reads, AreReadable};
ghost use Rattle.expand_expressions.specs.Working.{worked_out};
ghost use Rattle.expand_expressions.specs.Laws.{AssignBelow, Gives, Sets, Guards, after_lines, setting_lines};
ghost use Rattle.expand_expressions.specs.Laws.{guarded_lines};

/// In all states and with all that may be present, the lines of a formula that reads states below `free` alone change
/// nothing but states from `free` on, set no output and schedule nothing; and the last operator then has its value.
pub fn lines_give_the_value()
    ensures { (formula : Formula) (present : ℕ → Option ℤ) (free : ℕ) (e : Effect) → IsBelow free formula
        → IsWithin formula → AreWithin e.states present → AssignBelow (length e.states) (worked_out free formula).lines
        → Gives present free e (worked_out free formula) (value_of e.states present formula) }
{}

/// The law of `NAME = EXPRESSION`: run as a reaction's lines are, its lines give the state the value that the formula
/// had before, whether the formula reads that state or not. They leave every other state in front of the scratch states
/// as it was, set no output and schedule nothing.
pub fn setting_lines_set_one_state()
    ensures { (formula : Formula) (present : ℕ → Option ℤ) (free target : ℕ) (e : Effect) → IsBelow free formula
        → IsWithin formula → AreWithin e.states present → target < length e.states
        → AssignBelow (length e.states) (worked_out free formula).lines
        → Sets free target e (after_lines present e (setting_lines free target formula))
        (value_of e.states present formula) }
{}

/// The law of `when GUARD : NAME = EXPRESSION`, where the guard is 1 or 0 in a state in front of the scratch states:
/// with 1 it is the law above, and with 0 nothing but scratch states is changed.
pub fn guarded_lines_act_where_the_guard_is_set()
    ensures { (formula : Formula) (present : ℕ → Option ℤ) (free guard target : ℕ) (e : Effect) (is_set : Bool)
        → IsBelow free formula → IsWithin formula → AreWithin e.states present → target < length e.states
        → AssignBelow (length e.states) (worked_out free formula).lines
        → guard < free → slice_get e.states guard ≡ Some (truth_value is_set)
        → Guards free target is_set e (after_lines present e (guarded_lines free guard target formula))
        (value_of e.states present formula) }
{}

/// Where no name stands for a free state, and numbers that have names have 64 bits, the formula that a text spells reads
/// no free state, and its numbers have 64 bits. So the laws above speak of it.
pub fn what_is_read_is_readable()
    ensures { (operands : List NamedOperand) (readable : List (List ℕ)) (text : List ℕ) (formula : Formula) (free : ℕ)
        → Reads operands readable text formula → AreReadable free operands → IsReadable free formula }
{}
