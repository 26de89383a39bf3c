ghost use Rattle.std.specs.Prelude.{◌≡◌, ◌≤◌, ◌⊎◌, IfOk, IfErr, length, codes};
ghost use Rattle.reactor_program.specs.declared.limits.TheConstants.{MOST_STATES, MOST_REACTIONS, MOST_LINES};
ghost use Rattle.loadfed_tables.specs.Sections.{members_of};
ghost use Rattle.loadfed_tables.specs.Tables.{SaysTexts, SaysEach};
ghost use Rattle.loadfed.specs.Shape.{SaysState, SaysTriggers, SaysReaction, SaysProgram};
ghost use Rattle.loadfed_tables.specs.TableFaults.{IsWrongAt};
ghost use Rattle.loadfed.specs.ShapeFaults.{HasTooMany, HasStateFault, HasReactionFault, HasStatesFault};
ghost use Rattle.loadfed.specs.ShapeFaults.{HasReactionsFault};

use crate::arrays::{FromTable, read_each};
use loadfed_tables::{Section, TableFault};
use plan_names::Names;
use reactor_program::limits::{MOST_LINES, MOST_REACTIONS, MOST_STATES};
use reactor_program::{ReactionDraft, State};
use std::alloc::Global;
use std::marker::Model;

/// A federate's states and reactions as a file has them.
#[derive(Drop)]
pub struct ProgramDraft {
    states: Vec<State>,
    reactions: Vec<ReactionDraft>,
}

impl Model for ProgramDraft {
    ghost use Rattle.loadfed.specs.Shape.{ProgramDraft as ProgramDraftOf};

    ghost Value = { ProgramDraftOf };

    ghost view = { λ p. record { states = p.states.items; reactions = p.reactions.items } };
}

impl ProgramDraft {
    /// The states and reactions in a federate's table.
    pub fn read(alloc: Global, federate: &Section<'_>) -> Result<ProgramDraft, TableFault>
        ensures ok { IfOk result (SaysProgram (members_of federate.now)) }
        ensures refused { IfErr result
            (λ fault. (fault ≡ TableFault.Memory)
            ⊎ (HasStatesFault (members_of federate.now) fault ⊎ HasReactionsFault (members_of federate.now) fault)) }
    {
        let states = states(alloc, federate)?;
        let reactions = reactions(alloc, federate)?;
        Ok(ProgramDraft { states, reactions })
    }

    pub fn reactions(&self) -> &[ReactionDraft]
        ensures { result.now ≡ self.now.reactions }
    {
        self.reactions.as_slice()
    }

    /// The states and the reactions.
    pub fn into_parts(self) -> (Vec<State>, Vec<ReactionDraft>)
        ensures states { result.0.items ≡ self.states }
        ensures reactions { result.1.items ≡ self.reactions }
    {
        (self.states, self.reactions)
    }
}

fn states(alloc: Global, federate: &Section<'_>) -> Result<Vec<State>, TableFault>
    ensures ok { IfOk result (λ states. SaysEach SaysState (codes "state") (members_of federate.now) states.items) }
    ensures few { IfOk result (λ states. length states.items ≤ MOST_STATES) }
    ensures refused { IfErr result
        (λ fault. (fault ≡ TableFault.Memory) ⊎ HasStatesFault (members_of federate.now) fault) }
{
    let values = federate.array("state")?;
    if values.len() > MOST_STATES {
        return Err(TableFault::OverLimit);
    }
    read_each(alloc, federate, "state")
}

impl FromTable for State {
    ghost says = { SaysState };

    ghost has_fault = { HasStateFault };

    fn from_table(_alloc: Global, table: &Section<'_>) -> Result<State, TableFault> {
        table.has_only(&["name", "value"])?;
        let name = table.name("name")?;
        let value = table.needed_number("value")?;
        Ok(State { name, value })
    }
}

fn reactions(alloc: Global, federate: &Section<'_>) -> Result<Vec<ReactionDraft>, TableFault>
    ensures ok { IfOk result (λ reactions.
        SaysEach SaysReaction (codes "reaction") (members_of federate.now) reactions.items) }
    ensures few { IfOk result (λ reactions. length reactions.items ≤ MOST_REACTIONS) }
    ensures refused { IfErr result
        (λ fault. (fault ≡ TableFault.Memory) ⊎ HasReactionsFault (members_of federate.now) fault) }
{
    let values = federate.array("reaction")?;
    if values.len() > MOST_REACTIONS {
        return Err(TableFault::OverLimit);
    }
    read_each(alloc, federate, "reaction")
}

impl FromTable for ReactionDraft {
    ghost says = { SaysReaction };

    ghost has_fault = { HasReactionFault };

    fn from_table(alloc: Global, table: &Section<'_>) -> Result<ReactionDraft, TableFault> {
        table.has_only(&["triggers", "body"])?;
        let triggers = triggers(alloc, table)?;
        let body = body(table)?;
        Ok(ReactionDraft { triggers, body })
    }
}

// The triggers in a reaction's table, of which there is at least one.
fn triggers(alloc: Global, section: &Section<'_>) -> Result<Names, TableFault>
    ensures ok { IfOk result (SaysTriggers (members_of section.now)) }
    ensures refused { IfErr result
        (λ fault. (fault ≡ TableFault.Memory)
        ⊎ IsWrongAt (codes "triggers") (SaysTriggers (members_of section.now)) fault) }
{
    let triggers = section.texts("triggers")?;
    if triggers.as_slice().is_empty() {
        Err(TableFault::wrong_shape(alloc, "triggers"))
    } else {
        Ok(triggers)
    }
}

// The lines in a reaction's table.
fn body(section: &Section<'_>) -> Result<Names, TableFault>
    ensures ok { IfOk result (SaysTexts (codes "body") (members_of section.now)) }
    ensures few { IfOk result (λ body. length body ≤ MOST_LINES) }
    ensures refused { IfErr result
        (λ fault. (fault ≡ TableFault.Memory)
        ⊎ (IsWrongAt (codes "body") (SaysTexts (codes "body") (members_of section.now)) fault
        ⊎ HasTooMany (codes "body") MOST_LINES (members_of section.now) fault)) }
{
    let body = section.texts("body")?;
    if body.as_slice().len() > MOST_LINES {
        Err(TableFault::OverLimit)
    } else {
        Ok(body)
    }
}
