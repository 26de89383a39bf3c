ghost use Rattle.std.specs.Prelude.{◌≡◌};
ghost use Rattle.wires_workers.specs.RetryState.{turn_of, turned, after_turn, waited, after_wait, after_waiting};
ghost use Rattle.wires_workers.specs.RetryState.{RepeatsAfterSilence};

use crate::wake_ups::WakeUp;
use std::marker::Model;
use wires_transports::times::WAITS_BEFORE_RESEND;

/// What a runner does next.
#[derive(Clone, Copy, Debug, PartialEq, Eq)]
pub enum Next {
    /// A turn: an announcement, then an advance.
    Turn,
    /// A wait for a wake-up.
    Wait,
    /// A Hello and a Resend, and then a turn.
    Repeat,
    /// Its turns are used up.
    End,
}

/// How many turns are left to a runner and to those who make turns in its place, and how long it has waited.
#[derive(Debug, Drop)]
pub struct RetryState {
    turns: u32,
    waits: u8,
}

impl Model for RetryState {
    ghost use Rattle.std.specs.Prelude.{◌<◌};
    ghost use Rattle.wires_workers.specs.RetryState as state;
    ghost use Rattle.wires_transports.specs.declared.times.TheConstants.{WAITS_BEFORE_RESEND};

    ghost Value = { state.RetryState };

    ghost view = { λ p. record { turns = p.turns; waits = p.waits } };

    ghost invariant = { λ p. p.waits < WAITS_BEFORE_RESEND };
}

impl RetryState {
    /// This many turns, and no wait so far.
    pub fn new(turns: u32) -> RetryState
        ensures { result ≡ record { turns = turns; waits = 0 } }
    {
        RetryState { turns, waits: 0 }
    }

    /// How many turns are left.
    pub fn turns_left(&self) -> u32
        ensures { result ≡ self.now.turns }
    {
        self.turns
    }

    /// A turn, where one is left.
    pub fn turn(&self) -> Next
        ensures { result ≡ turn_of self.now.turns }
    {
        if self.turns == 0 {
            Next::End
        } else {
            Next::Turn
        }
    }

    /// This many turns were made; `idle` says whether the last of them did nothing. A failed attempt to connect counts
    /// as a turn that did nothing.
    pub fn after_turns(&mut self, made: u32, idle: bool) -> Next
        ensures state { self.new ≡ turned self.old made }
        ensures next { result ≡ after_turn self.new idle }
    {
        self.turns = self.turns.saturating_sub(made);
        if self.turns > 0 && idle {
            Next::Wait
        } else {
            self.turn()
        }
    }

    /// A wait is over, by a wake-up or without one.
    pub fn after_wait(&mut self, wake_up: bool) -> Next
        ensures state { self.new ≡ waited self.old wake_up }
        ensures next { result ≡ after_wait self.old wake_up }
    {
        if wake_up {
            self.waits = 0;
        } else if self.waits + 1 < WAITS_BEFORE_RESEND {
            self.waits += 1;
        } else {
            self.waits = 0;
            return Next::Repeat;
        }
        self.turn()
    }

    /// A wait is over, by this wake-up or without one.
    pub(crate) fn after_waiting(&mut self, wake_up: Option<WakeUp>) -> Next
        ensures { result ≡ after_waiting self.old wake_up }
    {
        match wake_up {
            Some(WakeUp::Done) => self.after_wait(true),
            Some(WakeUp::NotConnected) => self.after_turns(1, true),
            None => self.after_wait(false),
        }
    }
}

/// What may be lost is sent again after each so many waits in a row without a wake-up, and after no other.
#[tactic(auto, using(crate::proofs::Silence::repeats_after_silence))]
pub fn a_runner_repeats_after_silence()
    ensures { RepeatsAfterSilence }
{}
