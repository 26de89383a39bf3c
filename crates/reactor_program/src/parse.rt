ghost use Rattle.std.specs.Prelude.{◌≡◌, ◌≤◌, ◌⊎◌, ◌↔◌, IsTrue, IfOk, IfErr, All, length, Some};
ghost use Rattle.std.specs.List.{AllZip};
ghost use Rattle.plan_slots.specs.Limits.{IsWithinLimits};
ghost use Rattle.plan_names.specs.Naming.{AreDistinct};
ghost use Rattle.reactor_program.specs.Behaviour.{Behaviour};
ghost use Rattle.reactor_program.specs.Resolution.{trigger_slot, state_names};
ghost use Rattle.reactor_program.specs.declared.limits.TheConstants.{MOST_LINES, MOST_REACTIONS};
ghost use Rattle.reactor_program.specs.Spelled.{SpellsReaction, SpellsProgram, IsTriggerFault, IsLineFault};
ghost use Rattle.reactor_program.specs.Spelled.{IsReactionFault, IsFaultOf, IsReadable};
ghost use Rattle.reactor_program.specs.declared.program_fault.ProgramFault.TheVariants.{Memory};

use crate::ProgramFault;
use crate::places::trigger_slot;
use crate::program::{Body, Program, Reaction, State, Triggers};
use crate::reaction_draft::ReactionDraft;
use crate::reading::body;
use plan_names::{Text, place_of};
use plan_slots::Slots;
use std::alloc::{AllocError, Global};

impl Program {
    /// The program that the states, and the triggers and lines of the reactions, spell.
    pub fn parse(
        alloc: Global,
        slots: &Slots,
        states: Vec<State>,
        reactions: &[ReactionDraft],
    ) -> Result<Program, ProgramFault>
        requires { IsReadable slots.now states.items reactions.now }
        ensures spelled { IfOk result (SpellsProgram slots.now states.items reactions.now) }
        ensures accepts { (spelled : Behaviour) → SpellsProgram slots.now states.items reactions.now spelled
            → IfErr result (λ fault. fault ≡ Memory) }
        ensures refused { IfErr result (IsFaultOf slots.now states.items reactions.now) }

        // Of states of one name it is never answered.
        ensures memory { IfErr result (λ fault. fault ≡ Memory → AreDistinct (state_names states.items)) }
    {
        if !are_distinct(states.as_slice()) {
            return Err(ProgramFault::RepeatedState);
        }
        let reactions = parse_reactions(alloc, slots, states.as_slice(), reactions)?;
        Ok(Program::new(copy_of(slots)?, states, reactions))
    }
}

fn copy_of(slots: &Slots) -> Result<Slots, AllocError>
    ensures { IfOk result (λ copy. copy ≡ slots.now) }
{
    slots.clone()
}

fn are_distinct(states: &[State]) -> bool
    ensures { IsTrue result ↔ AreDistinct (state_names states.now) }
{
    match states {
        [first, rest @ ..] => {
            place_of(rest, first.name.as_str().as_bytes()).is_none() && are_distinct(rest)
        }
        [] => true,
    }
}

fn parse_reactions(
    alloc: Global,
    slots: &Slots,
    states: &[State],
    drafts: &[ReactionDraft],
) -> Result<Vec<Reaction>, ProgramFault>
    requires limits { IsWithinLimits slots.now }
    requires few { length drafts.now ≤ MOST_REACTIONS }
    requires few_lines { All (λ d. length d.body ≤ MOST_LINES) drafts.now }
    ensures spelled { IfOk result (λ reactions.
        AllZip (SpellsReaction slots.now states.now) reactions.items drafts.now) }
    ensures refused { IfErr result (λ fault. (fault ≡ Memory) ⊎ IsReactionFault slots.now states.now drafts.now fault) }
{
    let mut reactions = Vec::new(alloc);
    for (place, draft) in drafts.iter().enumerate() {
        let reaction = parse_reaction(alloc, slots, states, place + 1, draft)?;
        reactions.push(reaction)?;
    }
    Ok(reactions)
}

fn parse_reaction(
    alloc: Global,
    slots: &Slots,
    states: &[State],
    number: usize,
    draft: &ReactionDraft,
) -> Result<Reaction, ProgramFault>
    requires limits { IsWithinLimits slots.now }
    requires few_lines { length draft.now.body ≤ MOST_LINES }
    ensures spelled { IfOk result (λ reaction. SpellsReaction slots.now states.now reaction draft.now) }
    ensures refused { IfErr result
        (λ fault. (fault ≡ Memory) ⊎ (IsTriggerFault slots.now number draft.now.triggers fault
        ⊎ IsLineFault slots.now states.now number draft.now.body fault)) }
{
    let triggers = parse_triggers(alloc, slots, number, draft.triggers.as_slice())?;
    let body = body(alloc, slots, states, number, draft.body.as_slice())?;
    Ok(Reaction {
        triggers: Triggers::new(triggers),
        body: Body::new(body),
    })
}

fn parse_triggers(
    alloc: Global,
    slots: &Slots,
    number: usize,
    texts: &[Text],
) -> Result<Vec<usize>, ProgramFault>
    requires { IsWithinLimits slots.now }
    ensures spelled { IfOk result (λ triggers.
        AllZip (λ slot text. trigger_slot slots.now text ≡ Some slot) triggers.items texts.now) }
    ensures refused { IfErr result (λ fault. (fault ≡ Memory) ⊎ IsTriggerFault slots.now number texts.now fault) }
{
    let mut triggers = Vec::new(alloc);
    for text in texts {
        match trigger_slot(slots, text.as_str().as_bytes()) {
            Some(slot) => triggers.push(slot)?,
            None => {
                return Err(ProgramFault::UnknownOperand {
                    reaction: number,
                    line: 0,
                });
            }
        }
    }
    Ok(triggers)
}
