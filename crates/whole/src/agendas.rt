ghost use Rattle.std.specs.Prelude.{◌≡◌, ℕ, ◌<◌, ◌++◌, ◌∷◌, [], length, map, All, IfOk, OnOk, OnErr, true, Some};
ghost use Rattle.std.specs.Prelude.{slice_get};
ghost use Rattle.std.specs.Option.{option_map};
ghost use Rattle.reactor_agenda.specs.Agenda.{Agenda as AgendaOf, IsAgenda};
ghost use Rattle.whole.specs.Construction.{after_turn, has_target, kept_on};
ghost use Rattle.whole.specs.Next.{renewed};
ghost use Rattle.whole.specs.Targets.{all_shown, AreOfDifferentFederates};
ghost use Rattle.tag.specs.LogicalTime.{LogicalTime};
ghost use Rattle.network.specs.Undone.{look};
ghost use Rattle.plan.specs.Federation.{federate_count, stop_of};
ghost use Rattle.network.specs.Event.{listed};
ghost use Rattle.std.specs.List.{AllByRecursion};

use crate::initial::{initial_agendas, put_inputs};
use crate::made::{TurnMade, put_made};
use crate::nexts::{Next, Nexts, renew};
use crate::targets::{Target, all_targets};
use plan::{Inputs, Plan};
use reactor::{Memory, Rows};
use reactor_agenda::{Agenda, PendingEvent};
use reactor_program::Entry;
use std::alloc::Global;
use std::marker::Model;
use tag::Tag;

/// What is pending of each federate. Contracts see the federation, and what is pending of each.
#[derive(Drop)]
pub struct Agendas<'p> {
    plan: &'p Plan,
    agendas: Vec<Agenda>,
    /// When each federate is next.
    nexts: Nexts,
    /// To which federates each puts events.
    targets: Vec<Vec<Target>>,
    /// Room for what a turn puts.
    events: Vec<PendingEvent>,
}

impl<'p> Model for Agendas<'p> {
    ghost use Rattle.std.specs.Prelude.{map};
    ghost use Rattle.whole.specs.Agendas.{Agendas as AgendasOf, AreAgendas};
    ghost use Rattle.whole.specs.Targets.{all_shown};

    ghost Value = { AgendasOf };

    ghost view = { λ s. record { draft = s.plan.now; undone = map (λ a. a.undone) s.agendas.items } };

    ghost invariant = { λ s. AreAgendas s.plan.now s.agendas.items s.nexts
        (map (λ ts. all_shown ts.items) s.targets.items) };
}

impl<'p> Agendas<'p> {
    ghost use Rattle.whole.specs.Agendas.{undone_of, initial_undone, IsFirstDue, IsAfterTurn};

    /// What comes from outside is pending, up to stop.
    pub fn new(alloc: Global, plan: &'p Plan, inputs: &Inputs) -> Result<Agendas<'p>, Memory>
        ensures draft { IfOk result (λ agendas. agendas.draft ≡ plan.now) }
        ensures pending { IfOk result (λ agendas. (federate : ℕ) (tag : LogicalTime) (slot : ℕ)
            → federate < federate_count plan.now
            → look (undone_of agendas federate) tag slot
            ≡ look (initial_undone plan.now inputs.now federate) tag slot) }
    {
        plan.invariant();
        let mut agendas = initial_agendas(alloc, plan)?;
        put_inputs(alloc, agendas.as_mut_slice(), plan, inputs)?;
        let nexts = Nexts::new(alloc, plan, agendas.as_slice())?;
        let targets = all_targets(alloc, plan)?;
        Ok(Agendas {
            plan,
            agendas,
            nexts,
            targets,
            events: Vec::new(alloc),
        })
    }

    /// The turn of the least (tag, rank), or None where nothing is pending.
    pub fn first(&self) -> Option<Next>
        ensures { IsFirstDue self.now result }
    {
        self.plan.invariant();
        let first = self.nexts.first();
        if first.tag.is_forever() {
            None
        } else {
            Some(first)
        }
    }

    /// Writes what is present for a federate at the tag of its next turn over what was in `entries`.
    pub fn at(&self, federate: usize, tag: Tag, entries: &mut Vec<Entry>) -> Result<(), Memory>
        requires { federate < federate_count self.now.draft }
        ensures { OnOk result ((count : ℕ) → AllByRecursion (λ e. e.slot < count) (undone_of self.now federate)
            → entries.new.items ≡ listed count (look (undone_of self.now federate) tag)) }
    {
        match self.agendas[federate].at(tag, entries) {
            Ok(()) => Ok(()),
            Err(_) => Err(Memory),
        }
    }

    /// Puts what a turn makes where it goes, adds its row, and lets go of what was up to its tag: all or nothing.
    pub fn put(&mut self, rows: &mut Rows, turn: &TurnMade<'_>) -> Result<(), Memory>
        requires federate { turn.now.federate < federate_count self.old.draft }
        ensures put { OnOk result (IsAfterTurn turn.now self.old self.new) }
        ensures row { OnOk result (rows.new ≡ rows.old
            ++ record {
              reactor = turn.now.federate;
              tag = turn.now.tag;
              inputs = turn.now.inputs;
              outputs = turn.now.outputs;
            } ∷ []) }
        ensures err { OnErr result (self.new ≡ self.old) }
        ensures no_row { OnErr result (rows.new ≡ rows.old) }
    {
        put_turn(
            self.agendas.as_mut_slice(),
            &mut self.nexts,
            rows,
            &mut self.events,
            self.targets[turn.federate].as_slice(),
            turn,
        )?;
        Ok(())
    }
}

// Puts what a turn makes on the agendas of its targets, and adds its row; then lets go of what was up to its tag. All
// or nothing.
#[tactic(auto, using(crate::proofs::Putting::drop_step))]
fn put_turn(
    agendas: &mut [Agenda],
    nexts: &mut Nexts,
    rows: &mut Rows,
    events: &mut Vec<PendingEvent>,
    targets: &[Target],
    turn: &TurnMade<'_>,
) -> Result<(), Memory>
    requires federate { turn.now.federate < length agendas.old }
    requires there { All (λ t. t.federate < length agendas.old) targets.now }
    requires next { All (λ t. t.federate < length nexts.old) targets.now }
    requires apart { AreOfDifferentFederates (all_shown targets.now) }
    ensures length { length agendas.new ≡ length agendas.old }
    ensures nexts_length { length nexts.new ≡ length nexts.old }
    ensures put { OnOk result ((federate : ℕ)
        → slice_get (map kept_on agendas.new) federate
        ≡ option_map (after_turn turn.now (all_shown targets.now) federate)
        (slice_get (map kept_on agendas.old) federate)) }
    ensures nexts { OnOk result ((federate : ℕ)
        → slice_get nexts.new federate
        ≡ option_map (renewed agendas.new (has_target federate (all_shown targets.now)) federate)
        (slice_get nexts.old federate)) }
    ensures known { OnOk result ((federate : ℕ) (a : AgendaOf) → has_target federate (all_shown targets.now) ≡ true
        → slice_get agendas.new federate ≡ Some a → IsAgenda a) }
    ensures row { OnOk result (rows.new ≡ rows.old
        ++ record {
          reactor = turn.now.federate;
          tag = turn.now.tag;
          inputs = turn.now.inputs;
          outputs = turn.now.outputs;
        } ∷ []) }
    ensures err { OnErr result (map kept_on agendas.new ≡ map kept_on agendas.old) }
    ensures no_next { OnErr result (nexts.new ≡ nexts.old) }
    ensures no_row { OnErr result (rows.new ≡ rows.old) }
{
    put_made(agendas, rows, events, targets, turn)?;
    agendas[turn.federate].drop_at(turn.tag);
    renew(nexts, agendas, targets);
    Ok(())
}
