//! How a worker hands events in at its node's desk, under one lock or behind the gate one by one.
ghost use Rattle.std.specs.Prelude.{◌≡◌, ◌≤◌, ◌+◌, None, ◌∷◌, ◌++◌, []};
ghost use Rattle.node.specs.declared.event.Event.TheVariants as Events;
ghost use Rattle.wires_workers.specs.HandedIn.{AreHandedIn, events_of_turns};
ghost use Rattle.wires_workers.specs.declared.turns.TheConstants.{TURNS_AT_ONCE};

use crate::context::Context;
use crate::gate::{Gate, Point};
use crate::leaving::HandedOn;
use crate::retry_state::RetryState;
use crate::session::Session;
use crate::turns::Turns;
use crate::wake_ups::WakeUp;
use desk::Share;
use node::{Event, Node};
use node_journal::Batch;
use std::alloc::Global;
use std::sync::Wait;
use std::time::Clock;
use wires_transports::{Cut, Transport};

/// What came of events that were handed in.
#[derive(Clone, Copy, Debug, PartialEq, Eq)]
pub struct Outcome {
    /// Whether a step did something.
    pub has_done: bool,
    /// Whether a peer acknowledged a signal that was never offered to it: it speaks of another history.
    pub shows_other_history: bool,
}

/// What came of events that were taken in.
#[derive(Clone, Copy, Debug, PartialEq, Eq)]
pub struct TakenIn {
    /// How many turns were made behind them.
    pub turns: u32,
    /// A peer that was sent something by them and is far behind, if there is one.
    pub behind: Option<usize>,
    /// Whether a peer acknowledged a signal that was never offered to it: it speaks of another history.
    pub shows_other_history: bool,
}

impl<'a, N: Node, G: Gate, T: Transport, C: Cut> Context<'a, N, G, T, C> {
    /// Makes the events' steps one after the other, and sends the frames of the replies. Where a step did something the
    /// runner gets a wake-up. Where the gate is open the desk's lock is held over all of them, and else the gate is
    /// passed before each.
    pub fn hand_in<R: Wait + Clock>(
        &self,
        rt: &R,
        alloc: Global,
        share: &mut Share,
        events: &[Event],
    ) -> Outcome
        ensures { AreHandedIn share.old events.now share.new }
    {
        let outcome = if self.gate.is_open() {
            self.make_all(rt, alloc, share, events)
        } else {
            self.make_each(rt, alloc, share, events)
        };
        if outcome.has_done {
            self.wake_up(rt, WakeUp::Done);
        }
        outcome
    }

    /// Makes the steps of what a peer sent, as `hand_in` does. Where the gate is open, the turns that they allow are
    /// made under the same lock, unless the runner makes some at the moment: it gets a wake-up where there may be more
    /// to do.
    #[tactic(auto, using(crate::proofs::SeveralTurns::and_no_turn))]
    pub fn take_in<R: Wait + Clock>(
        &self,
        rt: &R,
        alloc: Global,
        share: &mut Share,
        events: &[Event],
    ) -> TakenIn
        ensures handed_in { AreHandedIn share.old (events.now ++ events_of_turns result.turns) share.new }
        ensures no_runner { self.now.runner ≡ None → result.turns ≡ 0 }
    {
        if self.gate.is_open() {
            // Where there is no memory for a batch, each event is kept by itself.
            let batch = Batch::new(alloc, events).ok();
            let mut session = Session::begin(rt, alloc, self.shared, events.len());
            session.enter_all(share, events, batch.as_ref());
            let Turns { made, is_idle } = self.follow(&mut session, share);
            let shows_other_history = session.replies.shows_other_history;
            let HandedOn { behind, .. } = self.leave(rt, session, events);
            if !is_idle {
                self.wake_up(rt, WakeUp::Done);
            }
            TakenIn {
                turns: made,
                behind,
                shows_other_history,
            }
        } else {
            let outcome = self.hand_in(rt, alloc, share, events);
            TakenIn {
                turns: 0,
                behind: None,
                shows_other_history: outcome.shows_other_history,
            }
        }
    }

    /// Makes turns that are left, an announcement and then an advance each, up to the first that does nothing, and
    /// counts them. Where the gate is open the desk's lock is held over as many as are made at once; else one is made,
    /// and the gate is passed before each of its events. The runner makes them so, and gets no wake-up of them.
    #[tactic(auto, using(crate::proofs::SeveralTurns::no_turn))]
    pub fn take_turns<R: Wait + Clock>(
        &self,
        rt: &R,
        alloc: Global,
        share: &mut Share,
        state: &mut RetryState,
    ) -> Turns
        ensures handed_in { AreHandedIn share.old (events_of_turns result.made) share.new }
        ensures counted { state.new.turns + result.made ≡ state.old.turns }
        ensures one { 1 ≤ state.old.turns → 1 ≤ result.made }
        ensures most { result.made ≤ TURNS_AT_ONCE }
    {
        if state.turns_left() == 0 {
            return Turns::none(false);
        }
        if self.gate.is_open() {
            // How many turns are made isn't known yet, and mostly they are few.
            let mut session = Session::begin(rt, alloc, self.shared, 1);
            let turns = session.enter_turns(share, state);
            self.leave(rt, session, &[]);
            turns
        } else {
            let outcome = self.make_each(rt, alloc, share, &[Event::Announce, Event::Advance]);
            let turns = Turns {
                made: 1,
                is_idle: !outcome.has_done,
            };
            turns.counted(state)
        }
    }

    /// Greets the node's one peer again, and sends again all that it hasn't acknowledged.
    pub fn repeat<R: Wait + Clock>(&self, rt: &R, alloc: Global, share: &mut Share)
        ensures { AreHandedIn share.old (Events.Hello 0 ∷ Events.Resend 0 ∷ []) share.new }
    {
        self.hand_in(rt, alloc, share, &[Event::Hello(0), Event::Resend(0)]);
    }

    // Makes the events' steps, each behind the gate.
    fn make_each<R: Wait + Clock>(
        &self,
        rt: &R,
        alloc: Global,
        share: &mut Share,
        events: &[Event],
    ) -> Outcome
        ensures { AreHandedIn share.old events.now share.new }
    {
        let mut has_done = false;
        let mut shows_other_history = false;
        for event in events {
            self.gate.pass(rt, self.node, Point::of(event));
            let outcome = self.make_all(rt, alloc, share, &[*event]);
            has_done |= outcome.has_done;
            shows_other_history |= outcome.shows_other_history;
        }
        Outcome {
            has_done,
            shows_other_history,
        }
    }

    // Makes the events' steps under one lock.
    fn make_all<R: Wait>(
        &self,
        rt: &R,
        alloc: Global,
        share: &mut Share,
        events: &[Event],
    ) -> Outcome
        ensures { AreHandedIn share.old events.now share.new }
    {
        // Where there is no memory for a batch, each event is kept by itself.
        let batch = Batch::new(alloc, events).ok();
        let mut session = Session::begin(rt, alloc, self.shared, events.len());
        session.enter_all(share, events, batch.as_ref());
        let outcome = Outcome {
            has_done: session.replies.has_done,
            shows_other_history: session.replies.shows_other_history,
        };
        self.leave(rt, session, events);
        outcome
    }

    // Makes the turns that are allowed by what was done in this session: none where nothing was done, where the runner
    // makes some at the moment, and at a node without one. They are idle where the runner needn't go on.
    #[tactic(auto, using(crate::proofs::SeveralTurns::no_turn))]
    fn follow(&self, session: &mut Session<'_, N>, share: &mut Share) -> Turns
        ensures handed_in { AreHandedIn share.old (events_of_turns result.made) share.new }
        ensures no_runner { self.now.runner ≡ None → result.made ≡ 0 }
    {
        let Some(runner) = self.runner else {
            return Turns::none(true);
        };
        if !session.replies.has_done {
            return Turns::none(true);
        }
        match runner.try_state() {
            Some(mut state) => {
                // These turns do what the runner would do when woken: its count of waits begins again.
                state.after_wait(true);
                session.enter_turns(share, &mut state)
            }
            None => Turns::none(false),
        }
    }
}
