//! What the lines of a body do.

ghost use Rattle.std.specs.Prelude.{ℕ, ℤ, List, Option, None, Some, length, All, FitsSigned, MatchBool};
ghost use Rattle.std.specs.Int.{w64};
ghost use Rattle.network.specs.Network.{Effect};
ghost use Rattle.expand_expressions.specs.Meaning.{is_true, value_of, AreWithin};
ghost use Rattle.expand_expressions.specs.Laws.{AssignBelow, KeepsBelow, after_lines};
ghost use Rattle.expand_bodies.specs.declared.block.Block.{Block};
ghost use Rattle.expand_bodies.specs.Body.{IsProper, after_block, after_branch};
ghost use Rattle.expand_bodies.specs.Lines.{block_lines};
ghost use Rattle.expand_bodies.specs.declared.names.BodyNames.{BodyNames};
ghost use Rattle.expand_bodies.specs.Reading.{IsIf, ReadsBody};
ghost use Rattle.expand_expressions.specs.declared.formula.Formula.{Formula};

/// From all states and with all that may be present, the lines of a body leave the federate's own states, the outputs
/// and the schedulings as the body does: of an `if` the one branch runs that it says, and no line of another one does
/// anything but to scratch states.
pub fn lines_do_what_the_body_says()
    ensures { (block : Block) (present : ℕ → Option ℤ) (own : ℕ) (e : Effect) → IsProper own own block
        → AreWithin e.states present → AssignBelow (length e.states) (block_lines own None block)
        → KeepsBelow own (after_block own present e block) (after_lines present e (block_lines own None block)) }
{}

/// Of an `if` with an `else` one branch runs: the first where its condition isn't 0 as the `if` is reached, else the
/// second; and what follows it.
pub fn one_branch_runs()
    ensures { (block : Block) (condition : Formula) (first second rest : Block) (present : ℕ → Option ℤ) (own : ℕ)
        (e : Effect) → IsIf block condition first (Some second) rest → IsProper own own block
        → AreWithin e.states present → AssignBelow (length e.states) (block_lines own None block)
        → MatchBool (is_true (value_of e.states present condition))
        (KeepsBelow own (after_branch own present e first rest) (after_lines present e (block_lines own None block)))
        (KeepsBelow own (after_branch own present e second rest) (after_lines present e (block_lines own None block))) }
{}

/// What lines are read as is a body that the law above speaks of, where the numbers of constants have 64 bits: its
/// statements set the federate's own states alone, and its formulas read no free state.
pub fn what_is_read_is_proper()
    ensures { (names : BodyNames) (lines : List (List ℕ)) (block : Block) → ReadsBody names lines block
        → All (λ c. FitsSigned w64 c.value) names.constants.items
        → IsProper (length names.states) (length names.states) block }
{}
