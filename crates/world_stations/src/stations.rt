ghost use Rattle.std.specs.Prelude.{◌≡◌, ◌↔◌, ℕ, take, ◌<◌, ◌≤◌, ◌++◌, ◌∷◌, [], true, false, length, set, slice_get};
ghost use Rattle.std.specs.Prelude.{option_map, IsTrue, IfOk, IfSome, OnOk, OnErr, Some};
ghost use Rattle.link.specs.Image.{room_left};
ghost use Rattle.node.specs.Step.{Station as StationOf, answer_in, step_of};
ghost use Rattle.world_stations.specs.World.{applied, after_steps, occurrence_of, frames_in, frame_at, at_node};
ghost use Rattle.world_stations.specs.World.{happens, forgets, listed, unchanged};
ghost use Rattle.world_stations.specs.Kept.{is_kept};
ghost use Rattle.world_stations.specs.Taken.{sender};
ghost use Rattle.node.specs.declared.node_id.NodeId.TheVariants as NodeIds;
ghost use Rattle.world_stations.specs.declared.outcome.Outcome.TheVariants as Outcomes;
ghost use Rattle.world_stations.specs.Invariant.{HaveOnePeer, unused};
ghost use Rattle.world_stations.specs.Acknowledged.{KeepsNone, IsAcknowledged};

use crate::blank::forgotten;
use crate::directions::{
    append_all, append_each, count, none_used, nth, reserve_ahead, reserve_first,
};
use crate::made_steps::MadeSteps;
use crate::memory::Memory;
use crate::occurrence::{Occurrence, comes, federate_of, greets, sends_again};
use crate::replies::{frames_of, outcome_of};
use crate::sent::Sent;
use crate::{Dir, Outcome, Step};
use link::LinkEnd;
use node::{Blank, Event, Node, NodeId, Reply, Station};
use signal::Frame;
use std::alloc::Global;
use std::marker::Model;

/// All stations of a federation, all frames that they ever sent, and the steps made. Federate j is peer j of the
/// coordinator; a federate's one peer is 0.
#[derive(Drop)]
pub struct Stations<H: Node, M: Blank> {
    alloc: Global,
    coordinator: Station<H>,
    federates: Vec<Station<M>>,
    up: Vec<Sent>,
    down: Vec<Sent>,
    // No step of the coordinator sends more frames to one federate.
    most: usize,
    // This many more frames take no memory in each direction from the coordinator.
    spare: usize,
    steps: MadeSteps,
}

impl<H: Node, M: Blank> Model for Stations<H, M> {
    ghost use Rattle.world_stations.specs.World as world;
    ghost use Rattle.world_stations.specs.Room.{frames_of_each, IsReserved};
    ghost use Rattle.world_stations.specs.Invariant.{IsWorld};

    ghost Value = { world.World H M };

    ghost view = { λ w. record {
      coordinator = w.coordinator;
      federates = w.federates.items;
      up = frames_of_each w.up.items;
      down = frames_of_each w.down.items;
      steps = w.steps.steps;
    } };

    ghost invariant = { λ w. IsWorld H.HUB M.HUB w.federates.items
        × IsReserved w.coordinator.ends w.down.items w.most w.spare };
}

impl<H: Node, M: Blank> Stations<H, M> {
    /// The world of these stations, of which nothing was asked yet.
    pub fn new(
        alloc: Global,
        coordinator: Station<H>,
        federates: Vec<Station<M>>,
    ) -> Result<Stations<H, M>, Memory>
        requires coordinator { H.HUB ≡ true }
        requires federate { M.HUB ≡ false }
        requires one_peer { HaveOnePeer federates.items }
        ensures { IfOk result (λ w. w ≡ unused coordinator federates.items) }
    {
        let directions = none_used(alloc, &coordinator, federates.len())?;
        Ok(Stations {
            alloc,
            coordinator,
            federates,
            up: directions.up,
            down: directions.down,
            most: directions.most,
            spare: 0,
            steps: MadeSteps::new(alloc),
        })
    }

    /// The steps made, oldest first: also those that were refused or didn't apply.
    pub fn steps(&self) -> &MadeSteps
        ensures { result.now.steps ≡ self.now.steps }
    {
        &self.steps
    }

    /// The same, without the stations.
    pub fn into_steps(self) -> MadeSteps
        ensures { result.steps ≡ self.steps }
    {
        self.steps
    }

    /// Whether a federate kept its state through all steps.
    pub fn kept(&self, federate: usize) -> bool
        ensures { result ≡ is_kept self.now.steps federate }
    {
        self.steps.keep(federate)
    }

    /// The coordinator's station.
    pub fn coordinator(&self) -> &Station<H>
        ensures { result.now ≡ self.now.coordinator }
    {
        &self.coordinator
    }

    /// A federate's station.
    pub fn federate(&self, federate: usize) -> Option<&Station<M>>
        ensures { option_map (λ s. s.now) result ≡ slice_get self.now.federates federate }
    {
        station_at(&self.federates, federate)
    }

    /// How many frames were ever sent in a direction.
    pub fn sent(&self, dir: Dir) -> usize
        ensures { result ≡ length (frames_in self.now dir) }
    {
        match dir {
            Dir::Up(federate) => count(&self.up, federate),
            Dir::Down(federate) => count(&self.down, federate),
        }
    }

    /// How many signals the sender of a direction keeps, or None where there is no such federate.
    pub fn unacked(&self, dir: Dir) -> Option<usize>
        ensures { result ≡ option_map (λ e. length e.kept) (sender self.now dir) }
    {
        Some(self.sender(dir)?.unacked())
    }

    /// How many signals the sender of a direction may still offer, or None where there is no such federate.
    pub fn room_left(&self, dir: Dir) -> Option<usize>
        ensures { result ≡ option_map room_left (sender self.now dir) }
    {
        Some(self.sender(dir)?.room_left())
    }

    /// Whether neither side of a federate's link keeps a signal: all that they offered is acknowledged.
    pub fn is_acknowledged(&self, federate: usize) -> bool
        ensures { IsTrue result ↔ IsAcknowledged self.now federate }
    {
        self.keeps_none(Dir::Up(federate)) && self.keeps_none(Dir::Down(federate))
    }

    /// Makes one step. It is listed also where it is refused or doesn't apply; without memory the world is as before,
    /// and the same step may come again.
    pub fn apply(&mut self, step: Step) -> Result<Outcome, Memory>
        ensures done { IfOk result (λ outcome. record { world = self.new; outcome = outcome }
            ≡ applied H.core M.core self.old step) }
        ensures unchanged { OnErr result (self.new ≡ self.old) }
    {
        match step {
            Step::Forget(federate) => self.forget(federate, step),
            _ => self.happen(step),
        }
    }

    /// The same of a step that is known to be this event at this node: it isn't looked for again.
    pub fn apply_known(&mut self, step: Step, node: NodeId, event: Event) -> Result<Outcome, Memory>
        requires { occurrence_of self.old step ≡ Some (record { node = node; event = event }) }
        ensures done { IfOk result (λ outcome. record { world = self.new; outcome = outcome }
            ≡ applied H.core M.core self.old step) }
        ensures unchanged { OnErr result (self.new ≡ self.old) }
    {
        self.at_node(node, event, step)
    }

    /// Makes steps, one after the other. Without memory those before the refused one stay made.
    pub fn run(&mut self, steps: &[Step]) -> Result<(), Memory>
        ensures done { OnOk result (self.new ≡ after_steps H.core M.core self.old steps.now) }
        ensures refused { OnErr result
            ((n : ℕ) × (n < length steps.now) × (self.new ≡ after_steps H.core M.core self.old (take n steps.now))) }
    {
        for step in steps {
            self.apply(*step)?;
        }
        Ok(())
    }

    // Whether the sender of a direction keeps no signal.
    fn keeps_none(&self, dir: Dir) -> bool
        ensures { IsTrue result ↔ KeepsNone self.now dir }
    {
        matches!(self.unacked(dir), None | Some(0))
    }

    // The end that sends in a direction.
    fn sender(&self, dir: Dir) -> Option<&LinkEnd>
        ensures { option_map (λ e. e.now.image) result ≡ sender self.now dir }
    {
        match dir {
            Dir::Up(federate) => self.federate(federate)?.end(0),
            Dir::Down(federate) => self.coordinator.end(federate),
        }
    }

    /// The k-th frame ever sent in a direction, counted from 1.
    pub fn frame(&self, dir: Dir, k: usize) -> Option<Frame>
        ensures { result ≡ frame_at (frames_in self.now dir) k }
    {
        self.look_at(dir, k).copied()
    }

    /// The same, where it lies.
    pub fn look_at(&self, dir: Dir, k: usize) -> Option<&Frame>
        ensures { option_map (λ frame. frame.now) result ≡ frame_at (frames_in self.now dir) k }
    {
        match dir {
            Dir::Up(federate) => nth(&self.up, federate, k),
            Dir::Down(federate) => nth(&self.down, federate, k),
        }
    }

    // Which event a step is, and at which node. None where it doesn't apply, and where a federate forgets.
    fn occurrence(&self, step: Step) -> Option<Occurrence>
        ensures { option_map (λ o. record { node = o.node; event = o.event }) result ≡ occurrence_of self.now step }
    {
        let (federate, occurrence) = match step {
            Step::Deliver(dir, k) => return Some(comes(dir, self.frame(dir, k)?)),
            Step::Resend(dir) => (federate_of(dir), sends_again(dir)),
            Step::Reconnect(dir) => (federate_of(dir), greets(dir)),
            Step::Announce(federate) => (federate, by_itself(federate, Event::Announce)),
            Step::Advance(federate) => (federate, by_itself(federate, Event::Advance)),
            Step::Forget(_) => return None,
        };
        if federate < self.federates.len() {
            Some(occurrence)
        } else {
            None
        }
    }

    // A step that changes nothing.
    fn pass(&mut self, step: Step) -> Result<Outcome, Memory>
        ensures done { IfOk result (λ outcome. record { world = self.new; outcome = outcome }
            ≡ listed step (unchanged self.old)) }
        ensures unchanged { OnErr result (self.new ≡ self.old) }
    {
        self.steps.push(step)?;
        Ok(Outcome::Nothing)
    }

    // A step other than Forget.
    fn happen(&mut self, step: Step) -> Result<Outcome, Memory>
        ensures done { IfOk result (λ outcome. record { world = self.new; outcome = outcome }
            ≡ listed step (happens H.core M.core self.old (occurrence_of self.old step))) }
        ensures unchanged { OnErr result (self.new ≡ self.old) }
    {
        match self.occurrence(step) {
            Some(Occurrence { node, event }) => self.at_node(node, event, step),
            None => self.pass(step),
        }
    }

    // An event at a node.
    fn at_node(&mut self, node: NodeId, event: Event, step: Step) -> Result<Outcome, Memory>
        ensures done { IfOk result (λ outcome. record { world = self.new; outcome = outcome }
            ≡ listed step (at_node H.core M.core self.old node event)) }
        ensures unchanged { OnErr result (self.new ≡ self.old) }
    {
        match node {
            NodeId::Coordinator => self.at_coordinator(event, step),
            NodeId::Federate(federate) => self.at_federate(federate, event, step),
        }
    }

    // An event at the coordinator.
    fn at_coordinator(&mut self, event: Event, step: Step) -> Result<Outcome, Memory>
        ensures done { IfOk result (λ outcome. record { world = self.new; outcome = outcome }
            ≡ listed step (at_node H.core M.core self.old NodeIds.Coordinator event)) }
        ensures unchanged { OnErr result (self.new ≡ self.old) }
    {
        self.steps.reserve()?;
        self.spare = reserve_ahead(&mut self.down, self.most, self.spare)?;
        let reply = self.coordinator.step(event)?;
        let frames = frames_of(&reply);
        append_each(&mut self.down, frames);
        self.spare = self.spare.saturating_sub(frames.len());
        self.steps.put(step);
        let outcome = outcome_of(&reply);
        self.coordinator.reuse(reply);
        Ok(outcome)
    }

    // An event at a federate. Where it has nothing to do, no memory is asked for but for the step.
    fn at_federate(&mut self, federate: usize, event: Event, step: Step) -> Result<Outcome, Memory>
        ensures done { IfOk result (λ outcome. record { world = self.new; outcome = outcome }
            ≡ listed step (at_node H.core M.core self.old (NodeIds.Federate federate) event)) }
        ensures unchanged { OnErr result (self.new ≡ self.old) }
    {
        if self.is_idle(federate, &event) {
            self.pass(step)
        } else {
            self.at_busy_federate(federate, event, step)
        }
    }

    // Whether a federate has nothing to do for an event.
    fn is_idle(&self, federate: usize, event: &Event) -> bool
        ensures { result ≡ true
            → at_node H.core M.core self.now (NodeIds.Federate federate) event.now ≡ unchanged self.now }
    {
        match self.federate(federate) {
            Some(station) => station.is_idle(event),
            None => false,
        }
    }

    // An event at a federate, which may say something.
    fn at_busy_federate(
        &mut self,
        federate: usize,
        event: Event,
        step: Step,
    ) -> Result<Outcome, Memory>
        ensures done { IfOk result (λ outcome. record { world = self.new; outcome = outcome }
            ≡ listed step (at_node H.core M.core self.old (NodeIds.Federate federate) event)) }
        ensures unchanged { OnErr result (self.new ≡ self.old) }
    {
        let Some(station) = station_at(&self.federates, federate) else {
            return self.pass(step);
        };
        self.steps.reserve()?;
        reserve_first(&mut self.up, federate, station)?;
        let reply = step_at(&mut self.federates, federate, event)?;
        append_all(&mut self.up, federate, frames_of(&reply));
        self.steps.put(step);
        let outcome = outcome_of(&reply);
        reuse_at(&mut self.federates, federate, reply);
        Ok(outcome)
    }

    // A federate loses its state.
    fn forget(&mut self, federate: usize, step: Step) -> Result<Outcome, Memory>
        ensures done { IfOk result (λ outcome. record { world = self.new; outcome = outcome }
            ≡ listed step (forgets M.core self.old federate (slice_get self.old.federates federate))) }
        ensures unchanged { OnErr result (self.new ≡ self.old) }
    {
        let Some(station) = self.federate(federate) else {
            return self.pass(step);
        };
        let Some(blank) = forgotten(self.alloc, station)? else {
            return self.pass(step);
        };
        self.put(federate, blank, step)
    }

    // Another station in the place of a federate's.
    fn put(&mut self, federate: usize, station: Station<M>, step: Step) -> Result<Outcome, Memory>
        requires there { federate < length self.old.federates }
        requires one_peer { length station.ends ≡ 1 }
        ensures done { IfOk result (λ outcome. record { world = self.new; outcome = outcome }
            ≡ listed step (record {
              world = record self.old { federates = set self.old.federates federate station };
              outcome = Outcomes.Done;
            })) }
        ensures unchanged { OnErr result (self.new ≡ self.old) }
    {
        self.steps.push(step)?;
        replace(&mut self.federates, federate, station);
        Ok(Outcome::Done)
    }
}

// The station of a federate.
fn station_at<M: Node>(federates: &[Station<M>], federate: usize) -> Option<&Station<M>>
    ensures station { option_map (λ s. s.now) result ≡ slice_get federates.now federate }
    ensures there { IfSome result (λ _. federate < length federates.now) }
{
    federates.get(federate)
}

// Another one in its place.
fn replace<M: Node>(federates: &mut Vec<Station<M>>, federate: usize, station: Station<M>)
    requires { federate < length federates.old.items }
    ensures { federates.new.items ≡ set federates.old.items federate station }
{
    federates[federate] = station;
}

// A step of one of the federates' stations.
fn step_at<M: Node>(
    federates: &mut Vec<Station<M>>,
    federate: usize,
    event: Event,
) -> Result<Reply, node::Memory>
    requires there { federate < length federates.old.items }
    ensures answer { (s : StationOf M) → slice_get federates.old.items federate ≡ Some s
        → IfOk result (λ reply. answer_in reply ≡ (step_of M.core M.HUB s event).answer) }
    ensures stepped { (s : StationOf M) → slice_get federates.old.items federate ≡ Some s
        → OnOk result (federates.new.items
        ≡ set federates.old.items federate (step_of M.core M.HUB s event).station) }
    ensures unchanged { OnErr result (federates.new.items ≡ federates.old.items) }
{
    federates[federate].step(event)
}

// Has one of the federates' stations take back the room of a reply's frames.
fn reuse_at<M: Node>(federates: &mut Vec<Station<M>>, federate: usize, reply: Reply)
    requires { federate < length federates.old.items }
    ensures { federates.new.items ≡ federates.old.items }
{
    federates[federate].reuse(reply);
}

// A federate says or runs something.
fn by_itself(federate: usize, event: Event) -> Occurrence
    ensures { result ≡ record { node = NodeIds.Federate federate; event = event } }
{
    Occurrence {
        node: NodeId::Federate(federate),
        event,
    }
}
