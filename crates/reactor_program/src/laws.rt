//! What texts spell, they spell once.

ghost use Rattle.std.specs.Prelude.{◌≡◌, ℕ, List};
ghost use Rattle.plan_slots.specs.declared.slots.Slots.{Slots};
ghost use Rattle.reactor_program.specs.declared.program.State as StateOf;
ghost use Rattle.reactor_program.specs.declared.reaction_draft.ReactionDraft.{ReactionDraft};
ghost use Rattle.reactor_program.specs.Grammar.{WrittenLine, SpellsLine};
ghost use Rattle.reactor_program.specs.Behaviour.{Behaviour};
ghost use Rattle.reactor_program.specs.Spelled.{SpellsProgram};

/// Of whatever form, a line reads in one way.
pub fn lines_have_one_reading()
    ensures { (line other : WrittenLine) (tokens : List (List ℕ)) → SpellsLine line tokens → SpellsLine other tokens
        → line ≡ other }
{}

/// Slots, states and the texts of reactions are those of one program at most.
pub fn texts_spell_one_program()
    ensures { (slots : Slots) (states : List StateOf.State) (drafts : List ReactionDraft) (program other : Behaviour)
        → SpellsProgram slots states drafts program → SpellsProgram slots states drafts other → program ≡ other }
{}
