ghost use Rattle.std.specs.Prelude.{◌≡◌, ℕ, ◌<◌, [], take, length, option_map, slice_get, IsTrue, IfOk, OnOk, OnErr};
ghost use Rattle.std.specs.Prelude.{◌↔◌, ◌||◌, Some};
ghost use Rattle.link.specs.Image.{room_left};
ghost use Rattle.plan.specs.External.{AreInputsOf};
ghost use Rattle.plan.specs.Federation.{federate_count};
ghost use Rattle.reactor_programs.specs.Programs.{AreProgramsOf};
ghost use Rattle.node_cores.specs.CoordinatorCore.{coordinator_core};
ghost use Rattle.world_stations.specs.Federation.{step_in, IsHarmless, IsStuck};
ghost use Rattle.world_stations.specs.Kept.{is_kept, is_forget};
ghost use Rattle.world_stations.specs.Taken.{sender};
ghost use Rattle.world_stations.specs.World.{frames_in, frame_at, occurrence_of};
ghost use Rattle.world.specs.World.{stations_of, with_step, with_steps};
ghost use Rattle.world.specs.Invariant.{IsFederation};
ghost use Rattle.world.specs.Faithful.{IsFaithful, AreHarmless};
ghost use Rattle.world.specs.Quiet.{IsQuiet, IsSilent};

use crate::initial::{new_coordinator, new_federates};
use coordinator::Coordinator;
use federate::Federate;
use node::{Event, Node, NodeId};
use plan::{Inputs, Plan};
use reactor::Rows;
use reactor_programs::Programs;
use signal::Frame;
use std::alloc::Global;
use std::marker::Model;
use world_stations::{Dir, MadeSteps, Memory, Outcome, Stations, Step};

/// A world of a federation: its coordinator, its federates, and all frames that they ever sent. Contracts see what it
/// was made from and the steps made: all else follows from them.
#[derive(Drop)]
pub struct World<'a> {
    plan: &'a Plan,
    programs: &'a Programs,
    inputs: &'a Inputs,
    // Boxed, as a world is moved often.
    stations: Box<Stations<Coordinator<'a>, Federate<'a>>>,
    /// Whether a step made some federate forget.
    has_forgotten: bool,
}

impl<'a> Model for World<'a> {
    ghost use Rattle.world.specs.World.{WorldView};
    ghost use Rattle.world.specs.Invariant.{IsMade};

    ghost Value = { WorldView };

    ghost view = { λ w. record {
      draft = w.plan.now;
      programs = w.programs.now;
      inputs = w.inputs.now;
      steps = w.stations.value.steps;
    } };

    ghost invariant = { λ w. IsMade w.plan.now w.programs.now w.inputs.now w.stations.value w.has_forgotten };
}

impl<'a> World<'a> {
    /// The world of a plan with its programs and inputs, before the first step.
    pub fn new(
        alloc: Global,
        plan: &'a Plan,
        programs: &'a Programs,
        inputs: &'a Inputs,
    ) -> Result<World<'a>, Memory>
        requires programs { AreProgramsOf plan.now programs.now }
        requires inputs { AreInputsOf plan.now inputs.now }
        ensures { IfOk result (λ world. world
            ≡ record { draft = plan.now; programs = programs.now; inputs = inputs.now; steps = [] }) }
    {
        plan.invariant();
        let coordinator = new_coordinator(alloc, plan)?;
        let federates = new_federates(alloc, plan, programs, inputs)?;
        let made = Stations::new(alloc, coordinator, federates)?;
        let stations = Box::new(alloc, made)?;
        Ok(World {
            plan,
            programs,
            inputs,
            stations,
            has_forgotten: false,
        })
    }

    /// What holds of every world.
    pub fn invariant(&self)
        ensures { IsFaithful self.now }
    {
        let _ = &self.plan;
    }

    /// Makes one step. It is listed also where it is refused or doesn't apply; without memory the world is as before,
    /// and the same step may come again.
    pub fn apply(&mut self, step: Step) -> Result<Outcome, Memory>
        ensures done { OnOk result (self.new ≡ with_step self.old step) }
        ensures outcome { IfOk result (λ outcome. outcome ≡ (step_in (stations_of self.old) step).outcome) }
        ensures harmless { IfOk result IsHarmless }
        ensures unchanged { OnErr result (self.new ≡ self.old) }
        ensures faithful { IsFaithful self.new }
    {
        let outcome = self.stations.apply(step)?;
        let has_forgotten = somebody_forgot(self.has_forgotten, step);
        self.has_forgotten = has_forgotten;
        Ok(outcome)
    }

    /// The same of a step that is known to be this event at this node: it isn't looked for again.
    pub fn apply_known(&mut self, step: Step, node: NodeId, event: Event) -> Result<Outcome, Memory>
        requires { occurrence_of (stations_of self.old) step ≡ Some (record { node = node; event = event }) }
        ensures done { OnOk result (self.new ≡ with_step self.old step) }
        ensures outcome { IfOk result (λ outcome. outcome ≡ (step_in (stations_of self.old) step).outcome) }
        ensures harmless { IfOk result IsHarmless }
        ensures unchanged { OnErr result (self.new ≡ self.old) }
        ensures faithful { IsFaithful self.new }
    {
        let outcome = self.stations.apply_known(step, node, event)?;
        let has_forgotten = somebody_forgot(self.has_forgotten, step);
        self.has_forgotten = has_forgotten;
        Ok(outcome)
    }

    /// Makes steps, one after the other. Without memory those before the refused one stay made.
    pub fn run(&mut self, steps: &[Step]) -> Result<(), Memory>
        ensures done { OnOk result (self.new ≡ with_steps self.old steps.now) }
        ensures refused { OnErr result
            ((n : ℕ) × (n < length steps.now) × (self.new ≡ with_steps self.old (take n steps.now))) }
        ensures harmless { AreHarmless self.new }
        ensures faithful { IsFaithful self.new }
    {
        // For the prover: through all steps the plan stays legal.
        self.fits();
        for step in steps {
            self.apply(*step)?;
        }
        Ok(())
    }

    /// The steps made, oldest first: also those that were refused or didn't apply.
    pub fn steps(&self) -> &MadeSteps
        ensures { result.now.steps ≡ self.now.steps }
    {
        self.stations.steps()
    }

    /// The same, without the world.
    pub fn into_steps(self) -> MadeSteps
        ensures { result.steps ≡ self.entry.steps }
    {
        Box::into_inner(self.stations).into_steps()
    }

    /// How many federates there are.
    pub fn federate_count(&self) -> usize
        ensures { result ≡ federate_count self.now.draft }
    {
        self.plan.federate_count()
    }

    /// A federate's rows, or None where there is no such federate.
    pub fn rows(&self, federate: usize) -> Option<&Rows>
        ensures { option_map (λ r. r.now) result
            ≡ option_map (λ s. s.node.federate.rows) (slice_get (stations_of self.now).federates federate) }
    {
        Some(self.stations.federate(federate)?.node().rows())
    }

    /// Whether a federate kept its state.
    pub fn kept(&self, federate: usize) -> bool
        ensures { result ≡ is_kept self.now.steps federate }
    {
        if self.has_forgotten {
            self.stations.kept(federate)
        } else {
            true
        }
    }

    /// Whether the coordinator says that all is finished.
    pub fn finished(&self) -> bool
        ensures { result ≡ coordinator_core.finished (stations_of self.now).coordinator.node }
    {
        self.stations.coordinator().node().finished()
    }

    /// How many frames were ever sent in a direction.
    pub fn sent(&self, dir: Dir) -> usize
        ensures { result ≡ length (frames_in (stations_of self.now) dir) }
    {
        self.stations.sent(dir)
    }

    /// The k-th frame ever sent in a direction, counted from 1.
    pub fn frame(&self, dir: Dir, k: usize) -> Option<Frame>
        ensures { result ≡ frame_at (frames_in (stations_of self.now) dir) k }
    {
        self.stations.frame(dir, k)
    }

    /// The same, where it lies.
    pub fn look_at(&self, dir: Dir, k: usize) -> Option<&Frame>
        ensures { option_map (λ frame. frame.now) result ≡ frame_at (frames_in (stations_of self.now) dir) k }
    {
        self.stations.look_at(dir, k)
    }

    /// How many signals the sender of a direction keeps, or None where there is no such federate.
    pub fn unacked(&self, dir: Dir) -> Option<usize>
        ensures { result ≡ option_map (λ e. length e.kept) (sender (stations_of self.now) dir) }
    {
        self.stations.unacked(dir)
    }

    /// How many signals the sender of a direction may still offer, or None where there is no such federate.
    pub fn room_left(&self, dir: Dir) -> Option<usize>
        ensures { result ≡ option_map room_left (sender (stations_of self.now) dir) }
    {
        self.stations.room_left(dir)
    }

    /// Whether the world is stuck: nobody forgot, every signal sent was taken and acknowledged, and nobody has anything
    /// to announce or to run.
    pub fn stuck(&self) -> bool
        ensures { IsTrue result ↔ IsStuck (stations_of self.now) }
    {
        !self.has_forgotten && self.is_quiet()
    }

    // Its plan is legal, and its programs and inputs are the plan's.
    fn fits(&self)
        ensures { IsFederation self.now }
    {
        let _ = &self.plan;
    }

    // Whether nothing is left to be done at any federate.
    fn is_quiet(&self) -> bool
        ensures { IsTrue result ↔ ((j : ℕ) → IsQuiet (stations_of self.now) j) }
    {
        for federate in 0..self.plan.federate_count() {
            if !self.is_quiet_at(federate) {
                return false;
            }
        }
        true
    }

    // Whether nothing is left to be done at a federate, in either direction of its link.
    fn is_quiet_at(&self, federate: usize) -> bool
        ensures { IsTrue result ↔ IsQuiet (stations_of self.now) federate }
    {
        self.stations.is_acknowledged(federate) && self.is_silent(federate)
    }

    // Whether a federate has nothing to announce and nothing to run.
    fn is_silent(&self, federate: usize) -> bool
        ensures { IsTrue result ↔ IsSilent (stations_of self.now) federate }
    {
        match self.stations.federate(federate) {
            Some(station) => station.node().has_announced() && station.node().is_waiting(),
            None => true,
        }
    }
}

// Whether some federate forgot, at this step or before.
fn somebody_forgot(before: bool, step: Step) -> bool
    ensures { result ≡ (before || is_forget step) }
{
    before || matches!(step, Step::Forget(_))
}
