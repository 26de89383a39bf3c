ghost use Rattle.std.specs.Prelude.{◌≡◌, ◌≢◌, ◌↔◌, ℕ, ◌<◌, ◌≤◌, true, None, Some, length, nat_lt, IfOk, IfSome, OnOk};
ghost use Rattle.std.specs.Prelude.{OnErr};
ghost use Rattle.std.proofs.Common.{refl};
ghost use Rattle.node.specs.declared.event.Event.TheVariants as Events;
ghost use Rattle.plan.specs.External.{AreInputsOf};
ghost use Rattle.reactor_programs.specs.Programs.{AreProgramsOf};
ghost use Rattle.world_stations.specs.World.{frames_in, frame_at};
ghost use Rattle.recorder_search.specs.Motion.{IsEvent, IsNoStep};
ghost use Rattle.world.specs.World.{stations_of, with_step};
ghost use Rattle.recorder.specs.Placing.{initial_of, world_motion, direction_to, step_alone};

use crate::cursors::Cursors;
use node::{Event, NodeId};
use plan::{Inputs, Plan};
use reactor_programs::Programs;
use recorder_search::{Memory, StepMaker};
use signal::Frame;
use std::alloc::Global;
use std::marker::Model;
use world::World;
use world_stations::{Dir, Step};

/// The world of a federation, as the step maker of a search for its nodes' journals. Contracts see that world.
#[derive(Drop)]
pub struct Auditor<'a> {
    world: World<'a>,
    cursors: Cursors,
}

impl<'a> Model for Auditor<'a> {
    ghost use Rattle.world.specs.World.{WorldView};

    ghost Value = { WorldView };

    ghost view = { λ a. a.world };
}

impl<'a> StepMaker for Auditor<'a> {
    ghost motion = { world_motion };

    fn place(&mut self, node: NodeId, event: Event, exact: bool) -> Result<Option<Step>, Memory> {
        let Some(step) = self.step_of(node, &event, exact) else {
            self.miss(node, &event);
            return Ok(None);
        };
        self.make(step, node, &event)?;
        self.note(step, &event);
        Ok(Some(step))
    }

    ghost forgetting = { λ state federate. refl };
}

impl<'a> Auditor<'a> {
    /// Of a federation, before the first step.
    pub fn new(
        alloc: Global,
        plan: &'a Plan,
        programs: &'a Programs,
        inputs: &'a Inputs,
    ) -> Result<Auditor<'a>, Memory>
        requires programs { AreProgramsOf plan.now programs.now }
        requires inputs { AreInputsOf plan.now inputs.now }
        ensures initial { IfOk result (λ auditor. auditor ≡ initial_of plan.now programs.now inputs.now) }
    {
        let cursors = Cursors::new(alloc, plan.federate_count())?;
        match World::new(alloc, plan, programs, inputs) {
            Ok(world) => Ok(Auditor { world, cursors }),
            Err(_) => Err(Memory),
        }
    }

    /// That world, taken out.
    pub fn into_world(self) -> World<'a>
        ensures { result ≡ self.entry }
    {
        self.world
    }

    // The step that is this event at this node. With None no step is, where it looks exactly.
    fn step_of(&self, node: NodeId, event: &Event, exact: bool) -> Option<Step>
        ensures found { IfSome result (λ step. IsEvent world_motion self.now step node event.now) }
        ensures none { result ≡ None → exact ≡ true → IsNoStep world_motion self.now node event.now }
    {
        step_of(&self.world, &self.cursors, node, event, exact)
    }

    // Notes that the frame of an event wasn't there, of those that were sent by now.
    fn miss(&mut self, node: NodeId, event: &Event)
        ensures { self.new ≡ self.old }
    {
        let Event::Frame(peer, frame) = event else {
            return;
        };
        if let Some(dir) = direction_to(node, *peer) {
            self.cursors.miss(dir, frame, self.world.sent(dir));
        }
    }

    // Notes where the frame of an event was, if this step delivered it.
    fn note(&mut self, step: Step, event: &Event)
        ensures { self.new ≡ self.old }
    {
        if let (Step::Deliver(dir, k), Event::Frame(_, frame)) = (step, event) {
            self.cursors.find(dir, frame, k);
        }
    }

    // Makes a step that is this event at this node.
    fn make(&mut self, step: Step, node: NodeId, event: &Event) -> Result<(), Memory>
        requires { IsEvent world_motion self.old step node event.now }
        ensures made { OnOk result (self.new ≡ with_step self.old step) }
        ensures unchanged { OnErr result (self.new ≡ self.old) }
    {
        match self.world.apply_known(step, node, *event) {
            Ok(_) => Ok(()),
            Err(_) => Err(Memory),
        }
    }
}

// The step that is this event at this node. With None no step is, where it looks exactly.
fn step_of(
    world: &World<'_>,
    cursors: &Cursors,
    node: NodeId,
    event: &Event,
    exact: bool,
) -> Option<Step>
    ensures found { IfSome result (λ step. IsEvent world_motion world.now step node event.now) }
    ensures none { result ≡ None → exact ≡ true → IsNoStep world_motion world.now node event.now }
{
    match event {
        Event::Frame(peer, frame) => delivery_of(world, cursors, node, *peer, frame, exact),
        _ => step_alone(world, node, event),
    }
}

// The step that delivers a frame to a node from a peer.
fn delivery_of(
    world: &World<'_>,
    cursors: &Cursors,
    node: NodeId,
    peer: usize,
    frame: &Frame,
    exact: bool,
) -> Option<Step>
    ensures found { IfSome result (λ step. IsEvent world_motion world.now step node (Events.Frame peer frame.now)) }
    ensures none { result ≡ None → exact ≡ true → IsNoStep world_motion world.now node (Events.Frame peer frame.now) }
{
    let Some(dir) = direction_to(node, peer) else {
        return None;
    };
    let Some(k) = place_of(world, cursors, dir, frame, exact) else {
        return None;
    };
    Some(Step::Deliver(dir, k))
}

// A place at which this frame stands in a direction: ahead, where it wasn't looked for in vain before; or, where it
// looks exactly, anywhere.
fn place_of(
    world: &World<'_>,
    cursors: &Cursors,
    dir: Dir,
    frame: &Frame,
    exact: bool,
) -> Option<usize>
    ensures found { IfSome result (λ k. frame_at (frames_in (stations_of world.now) dir) k ≡ Some frame.now) }
    ensures none { result ≡ None → exact ≡ true → (k : ℕ)
        → frame_at (frames_in (stations_of world.now) dir) k ≢ Some frame.now }
{
    if let Some(k) = place_from(world, dir, frame, cursors.unseen(dir, frame)) {
        return Some(k);
    }
    if exact {
        place_anywhere(world, dir, frame)
    } else {
        None
    }
}

// The direction in which frames come to a node from a peer.
fn direction_to(node: NodeId, peer: usize) -> Option<Dir>
    ensures { result ≡ direction_to node peer }
{
    match node {
        NodeId::Coordinator => Some(Dir::Up(peer)),
        NodeId::Federate(federate) if peer == 0 => Some(Dir::Down(federate)),
        NodeId::Federate(_) => None,
    }
}

// Whether two frames are the same.
fn is_same(frame: &Frame, other: &Frame) -> bool
    ensures { (result ≡ true) ↔ (frame.now ≡ other.now) }
{
    frame == other
}

// The step that is an event, where no frame comes.
fn step_alone(world: &World<'_>, node: NodeId, event: &Event) -> Option<Step>
    ensures { result ≡ step_alone (length (stations_of world.now).federates) node event.now }
{
    let (federate, step) = match (node, event) {
        (NodeId::Coordinator, Event::Resend(peer)) => (*peer, Step::Resend(Dir::Down(*peer))),
        (NodeId::Coordinator, Event::Hello(peer)) => (*peer, Step::Reconnect(Dir::Down(*peer))),
        (NodeId::Federate(federate), Event::Resend(0)) => {
            (federate, Step::Resend(Dir::Up(federate)))
        }
        (NodeId::Federate(federate), Event::Hello(0)) => {
            (federate, Step::Reconnect(Dir::Up(federate)))
        }
        (NodeId::Federate(federate), Event::Announce) => (federate, Step::Announce(federate)),
        (NodeId::Federate(federate), Event::Advance) => (federate, Step::Advance(federate)),
        _ => return None,
    };
    if is_there(world, federate) {
        Some(step)
    } else {
        None
    }
}

// Whether there is such a federate.
fn is_there(world: &World<'_>, federate: usize) -> bool
    ensures { result ≡ nat_lt federate (length (stations_of world.now).federates) }
{
    world.rows(federate).is_some()
}

// A place at which the frame stands, among all.
fn place_anywhere(world: &World<'_>, dir: Dir, frame: &Frame) -> Option<usize>
    ensures found { IfSome result (λ k. frame_at (frames_in (stations_of world.now) dir) k ≡ Some frame.now) }
    ensures none { result ≡ None → (k : ℕ) → frame_at (frames_in (stations_of world.now) dir) k ≢ Some frame.now }
{
    let last = world.sent(dir);
    if is_at(world, dir, last, frame) {
        Some(last)
    } else {
        place_among(world, dir, frame, 1, last)
    }
}

// The first place at which the frame stands from this one on, up to the last frame that was sent.
fn place_from(world: &World<'_>, dir: Dir, frame: &Frame, from: usize) -> Option<usize>
    ensures found { IfSome result (λ k. frame_at (frames_in (stations_of world.now) dir) k ≡ Some frame.now) }
    ensures none { result ≡ None → (k : ℕ) → from ≤ k
        → frame_at (frames_in (stations_of world.now) dir) k ≢ Some frame.now }
{
    let last = world.sent(dir);
    if let Some(k) = place_among(world, dir, frame, from, last) {
        return Some(k);
    }
    if from <= last && is_at(world, dir, last, frame) {
        Some(last)
    } else {
        None
    }
}

// The first of these places at which the frame stands.
fn place_among(world: &World<'_>, dir: Dir, frame: &Frame, from: usize, to: usize) -> Option<usize>
    ensures found { IfSome result (λ k. frame_at (frames_in (stations_of world.now) dir) k ≡ Some frame.now) }
    ensures none { result ≡ None → (k : ℕ) → from ≤ k → k < to
        → frame_at (frames_in (stations_of world.now) dir) k ≢ Some frame.now }
{
    for k in from..to {
        if is_at(world, dir, k, frame) {
            return Some(k);
        }
    }
    None
}

// Whether the frame stands at this place.
fn is_at(world: &World<'_>, dir: Dir, k: usize, frame: &Frame) -> bool
    ensures { (result ≡ true) ↔ (frame_at (frames_in (stations_of world.now) dir) k ≡ Some frame.now) }
{
    match world.look_at(dir, k) {
        Some(sent) => is_same(sent, frame),
        None => false,
    }
}
