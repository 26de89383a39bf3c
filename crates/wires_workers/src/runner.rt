//! The worker that makes a node say and run what comes next.
ghost use Rattle.std.specs.Prelude.{List, [], ◌≤◌, ℕ};
ghost use Rattle.node.specs.declared.event.Event.{Event as IsEvent};
ghost use Rattle.wires_workers.specs.HandedIn.{AreHandedIn, events_of_turns};
ghost use Rattle.wires_workers.specs.Runner.{AreOf, AreOfRunner};
ghost use Rattle.wires_workers.specs.declared.turns.TheConstants.{TURNS_AT_ONCE};

use crate::context::Context;
use crate::gate::Gate;
use crate::retry_state::{Next, RetryState};
use crate::turns::Turns;
use crate::wake_ups::{Waited, WakeUps};
use desk::Share;
use node::Node;
use std::alloc::Global;
use std::sync::Wait;
use std::time::Clock;
use wires_transports::{Cut, Transport};

/// Runs a node for this many turns, those that its reader makes among them, or until the run is to end. Where the turns
/// are used up, the run is to end. Returns the runner's share of the journal.
#[tactic(auto, using(crate::proofs::Runners::not_begun, crate::proofs::Runners::goes_on))]
pub fn run<R: Wait + Clock, N: Node, G: Gate, T: Transport, C: Cut>(
    rt: &R,
    alloc: Global,
    context: &Context<'_, N, G, T, C>,
    wake_ups: &WakeUps,
    turns: u32,
) -> Share
    ensures { (events : List IsEvent) × AreOfRunner events × AreHandedIn [] events result }
{
    let mut share = Share::new(alloc);
    let mut next = begin(rt, wake_ups, turns);
    for _ in rt.forever() {
        if next == Next::End || context.ending.is_set() {
            break;
        }
        next = go_on(rt, alloc, context, wake_ups, &mut share, next);
    }
    context.end(rt);
    share
}

// This many turns may be made from now on.
fn begin<R: Wait>(rt: &R, wake_ups: &WakeUps, turns: u32) -> Next {
    let mut state = wake_ups.state(rt);
    *state = RetryState::new(turns);
    state.turn()
}

// Does what comes next. Returns what comes then.
#[tactic(auto, using(crate::proofs::Runners::of_turns, crate::proofs::Runners::of_wait, crate::proofs::Runners::of_repeat, crate::proofs::Runners::of_end))]
fn go_on<R: Wait + Clock, N: Node, G: Gate, T: Transport, C: Cut>(
    rt: &R,
    alloc: Global,
    context: &Context<'_, N, G, T, C>,
    wake_ups: &WakeUps,
    share: &mut Share,
    next: Next,
) -> Next
    ensures { (events : List IsEvent) × AreOf next events × AreHandedIn share.old events share.new }
{
    match next {
        Next::Turn => take_turns(rt, alloc, context, wake_ups, share),
        Next::Wait => wait(rt, wake_ups),
        Next::Repeat => {
            context.repeat(rt, alloc, share);
            wake_ups.state(rt).turn()
        }
        Next::End => Next::End,
    }
}

// Waits for a wake-up. Returns what comes then.
fn wait<R: Wait + Clock>(rt: &R, wake_ups: &WakeUps) -> Next {
    let wake_up = wake_ups.wait(rt);
    wake_ups.state(rt).after_waiting(wake_up)
}

// Makes turns, where one is left: they answer the wake-ups that are waiting. Returns what comes then.
fn take_turns<R: Wait + Clock, N: Node, G: Gate, T: Transport, C: Cut>(
    rt: &R,
    alloc: Global,
    context: &Context<'_, N, G, T, C>,
    wake_ups: &WakeUps,
    share: &mut Share,
) -> Next
    ensures { (made : ℕ) × (made ≤ TURNS_AT_ONCE) × AreHandedIn share.old (events_of_turns made) share.new }
{
    let Waited { has_done, failed } = wake_ups.take_waiting(rt);
    let mut state = wake_ups.state(rt);
    if has_done {
        state.after_wait(true);
    }
    state.after_turns(failed, true);
    let Turns { is_idle, .. } = context.take_turns(rt, alloc, share, &mut state);
    if is_idle { Next::Wait } else { state.turn() }
}
