//! The steps that were made. A world keeps all of them, so each of them takes little memory while their numbers are
//! small.
ghost use Rattle.std.specs.Prelude.{◌≡◌, ◌+◌, ◌<◌, ◌++◌, ◌∷◌, [], length, drop, map, slice_get, vec_len, OnOk, OnErr};
ghost use Rattle.std.specs.Prelude.{IfOk, IfSome};
ghost use Rattle.std.specs.List.{list_any};
ghost use Rattle.std.specs.Vec.{vec_capacity};
ghost use Rattle.world_stations.specs.Kept.{is_kept, is_forget_of};
ghost use Rattle.world_stations.specs.MadeSteps.{shown};

use crate::dir::Dir;
use crate::memory::Memory;
use crate::step::Step;
use std::alloc::Global;
use std::marker::Model;

/// A step with small numbers, in a quarter of a `Step`'s memory.
#[derive(Clone, Copy)]
pub enum SmallStep {
    DeliverUp(u16, u32),
    DeliverDown(u16, u32),
    ResendUp(u16),
    ResendDown(u16),
    ReconnectUp(u16),
    ReconnectDown(u16),
    Announce(u16),
    Advance(u16),
    Forget(u16),
}

/// Steps, oldest first. Contracts see the list of them, and of how many more it is sure that they take no memory.
#[derive(Drop)]
pub struct MadeSteps {
    alloc: Global,
    small: Vec<SmallStep>,
    // All from the first one on whose numbers aren't small.
    rest: Vec<Step>,
    count: usize,
}

impl Model for MadeSteps {
    ghost use Rattle.std.specs.Prelude.{◌≡◌, ◌+◌, ◌-◌, ◌++◌, map, vec_len};
    ghost use Rattle.std.specs.Vec.{vec_capacity};
    ghost use Rattle.world_stations.specs.MadeSteps.{MadeView, shown, spare_of};

    ghost Value = { MadeView };

    ghost view = { λ m. record {
      steps = map shown m.small.items ++ m.rest.items;
      spare = spare_of m.count (vec_capacity m.small - vec_len m.small) (vec_capacity m.rest - vec_len m.rest);
    } };

    ghost invariant = { λ m. m.count ≡ vec_len m.small + vec_len m.rest };
}

impl MadeSteps {
    /// None.
    pub(crate) fn new(alloc: Global) -> MadeSteps
        ensures { result.steps ≡ [] }
    {
        MadeSteps {
            alloc,
            small: Vec::new(alloc),
            rest: Vec::new(alloc),
            count: 0,
        }
    }

    /// How many there are.
    pub fn len(&self) -> usize
        ensures { result ≡ length self.now.steps }
    {
        self.count
    }

    /// The step after this many others, or None where there is none.
    pub fn get(&self, place: usize) -> Option<Step>
        ensures { result ≡ slice_get self.now.steps place }
    {
        step_at(self.small.as_slice(), self.rest.as_slice(), place)
    }

    /// Those after this many of the first, in a list of their own.
    pub fn after(&self, before: usize) -> Result<Vec<Step>, Memory>
        ensures { IfOk result (λ steps. steps.items ≡ drop before self.now.steps) }
    {
        let mut steps = Vec::new(self.alloc);
        for place in before..self.count {
            if let Some(step) = self.get(place) {
                steps.push(step)?;
            }
        }
        Ok(steps)
    }

    /// Whether none of them makes this federate forget.
    pub(crate) fn keep(&self, federate: usize) -> bool
        ensures { result ≡ is_kept self.now.steps federate }
    {
        !is_among_all(federate, self.small.as_slice(), self.rest.as_slice())
    }

    /// Adds a step.
    pub(crate) fn push(&mut self, step: Step) -> Result<(), Memory>
        ensures ok { OnOk result (self.new.steps ≡ self.old.steps ++ step ∷ []) }
        ensures err { OnErr result (self.new.steps ≡ self.old.steps) }
    {
        self.reserve()?;
        self.put(step);
        Ok(())
    }

    /// Sees that a step can be put without memory.
    pub(crate) fn reserve(&mut self) -> Result<(), Memory>
        ensures spare { OnOk result (0 < self.new.spare) }
        ensures steps { self.new.steps ≡ self.old.steps }
    {
        // No memory has room for this many.
        if self.count == usize::MAX {
            return Err(Memory);
        }
        self.small.reserve(1)?;
        self.rest.reserve(1)?;
        Ok(())
    }

    /// Puts a step after all others.
    pub(crate) fn put(&mut self, step: Step)
        requires { 0 < self.old.spare }
        ensures { self.new.steps ≡ self.old.steps ++ step ∷ [] }
    {
        self.count += 1;
        put_last(&mut self.small, &mut self.rest, step);
    }
}

// The one after this many others, where all from the first one on whose numbers aren't small stand behind the small
// ones.
fn step_at(small: &[SmallStep], rest: &[Step], place: usize) -> Option<Step>
    ensures { result ≡ slice_get (map shown small.now ++ rest.now) place }
{
    match small.get(place) {
        Some(step) => Some(step_of(*step)),
        None => rest.get(place - small.len()).copied(),
    }
}

// Puts a step after all others.
fn put_last(small: &mut Vec<SmallStep>, rest: &mut Vec<Step>, step: Step)
    requires small { vec_len small.old < vec_capacity small.old }
    requires rest { vec_len rest.old < vec_capacity rest.old }
    ensures steps { map shown small.new.items ++ rest.new.items
        ≡ (map shown small.old.items ++ rest.old.items) ++ step ∷ [] }
    ensures count { vec_len small.new + vec_len rest.new ≡ vec_len small.old + vec_len rest.old + 1 }
{
    match small_of(step) {
        Some(one) if rest.as_slice().is_empty() => small.push_reserved(one),
        _ => rest.push_reserved(step),
    }
}

// Whether one of these or of those makes this federate forget.
#[tactic(auto, using(crate::proofs::Made::any_of_both))]
fn is_among_all(federate: usize, small: &[SmallStep], rest: &[Step]) -> bool
    ensures { result ≡ list_any (is_forget_of federate) (map shown small.now ++ rest.now) }
{
    is_among_small(federate, small) || is_among(federate, rest)
}

// Whether one of these makes this federate forget.
fn is_among_small(federate: usize, steps: &[SmallStep]) -> bool
    ensures { result ≡ list_any (λ step. is_forget_of federate (shown step)) steps.now }
{
    steps.iter().any(|step| forgets_in(federate, *step))
}

// Whether this one makes this federate forget.
fn forgets_in(federate: usize, step: SmallStep) -> bool
    ensures { result ≡ is_forget_of federate (shown step) }
{
    match step {
        SmallStep::Forget(forgetting) => usize::from(forgetting) == federate,
        _ => false,
    }
}

// Whether one of these makes this federate forget.
fn is_among(federate: usize, steps: &[Step]) -> bool
    ensures { result ≡ list_any (is_forget_of federate) steps.now }
{
    steps.iter().any(|step| forgets(federate, *step))
}

// Whether this one makes this federate forget.
fn forgets(federate: usize, step: Step) -> bool
    ensures { result ≡ is_forget_of federate step }
{
    match step {
        Step::Forget(forgetting) => forgetting == federate,
        _ => false,
    }
}

// The step.
fn step_of(step: SmallStep) -> Step
    ensures { result ≡ shown step }
{
    match step {
        SmallStep::DeliverUp(federate, k) => Step::Deliver(up(federate), k as usize),
        SmallStep::DeliverDown(federate, k) => Step::Deliver(down(federate), k as usize),
        SmallStep::ResendUp(federate) => Step::Resend(up(federate)),
        SmallStep::ResendDown(federate) => Step::Resend(down(federate)),
        SmallStep::ReconnectUp(federate) => Step::Reconnect(up(federate)),
        SmallStep::ReconnectDown(federate) => Step::Reconnect(down(federate)),
        SmallStep::Announce(federate) => Step::Announce(usize::from(federate)),
        SmallStep::Advance(federate) => Step::Advance(usize::from(federate)),
        SmallStep::Forget(federate) => Step::Forget(usize::from(federate)),
    }
}

fn up(federate: u16) -> Dir
    ensures { result ≡ Dir.Up federate }
{
    Dir::Up(usize::from(federate))
}

fn down(federate: u16) -> Dir
    ensures { result ≡ Dir.Down federate }
{
    Dir::Down(usize::from(federate))
}

// The step with small numbers, where they are small.
fn small_of(step: Step) -> Option<SmallStep>
    ensures { IfSome result (λ small. shown small ≡ step) }
{
    match step {
        Step::Deliver(dir, k) => delivered(dir, k),
        Step::Resend(dir) => resent(dir),
        Step::Reconnect(dir) => reconnected(dir),
        Step::Announce(federate) => Some(SmallStep::Announce(small_number(federate)?)),
        Step::Advance(federate) => Some(SmallStep::Advance(small_number(federate)?)),
        Step::Forget(federate) => Some(SmallStep::Forget(small_number(federate)?)),
    }
}

fn delivered(dir: Dir, k: usize) -> Option<SmallStep>
    ensures { IfSome result (λ small. shown small ≡ Step.Deliver dir k) }
{
    let Ok(k) = u32::try_from(k) else {
        return None;
    };
    match dir {
        Dir::Up(federate) => Some(SmallStep::DeliverUp(small_number(federate)?, k)),
        Dir::Down(federate) => Some(SmallStep::DeliverDown(small_number(federate)?, k)),
    }
}

fn resent(dir: Dir) -> Option<SmallStep>
    ensures { IfSome result (λ small. shown small ≡ Step.Resend dir) }
{
    match dir {
        Dir::Up(federate) => Some(SmallStep::ResendUp(small_number(federate)?)),
        Dir::Down(federate) => Some(SmallStep::ResendDown(small_number(federate)?)),
    }
}

fn reconnected(dir: Dir) -> Option<SmallStep>
    ensures { IfSome result (λ small. shown small ≡ Step.Reconnect dir) }
{
    match dir {
        Dir::Up(federate) => Some(SmallStep::ReconnectUp(small_number(federate)?)),
        Dir::Down(federate) => Some(SmallStep::ReconnectDown(small_number(federate)?)),
    }
}

// A federate's number, where it is small.
fn small_number(federate: usize) -> Option<u16>
    ensures { IfSome result (λ number. number ≡ federate) }
{
    match u16::try_from(federate) {
        Ok(number) => Some(number),
        Err(_) => None,
    }
}
