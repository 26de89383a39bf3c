//! What whoever watches a node is told of how its run goes: how far it is, that it stands still, and for whom it waits.
ghost use Rattle.std.specs.Prelude.{◌≡◌};
ghost use Rattle.wires_hosts.specs.Awaited.{awaited_of};
ghost use Rattle.wires_hosts.specs.Overview.{are_there, completed_by};
ghost use Rattle.wires_hosts.specs.Standing.{IsLeast};

use crate::awaited::Awaited;
use crate::happening::Happening;
use crate::heard::Heard;
use crate::look::Look;
use crate::seen::Seen;
use crate::silence::{SilenceTold, counted_ms};
use crate::standing::{
    HowFar, Reached, Standing, holds_back, is_going_on, is_how_far_told, least_of, may_be_awaited,
    unheard_ms,
};
use crate::stillness::Stillness;
use crate::teller::{Looked, Told};
use crate::times::{MOVING_MS, STILL_MS, WATCH_LOOK_MS};
use std::alloc::Global;
use std::sync::Wait;
use std::time::Clock;
use tag::FiniteTag;

// Federates of which it is told where they stand, at most.
const MOST_TOLD: usize = 16;

/// How a run goes, by looks at its node each 50 ms. Times are in ms since the node began, by its clock.
#[derive(Drop)]
pub(crate) struct Overview<'a, L: Look> {
    heard: &'a Heard,
    look: &'a L,
    // Of each federate by its number; none where nobody watches, or there is no memory for them.
    seen: Vec<Seen>,
    // When the look before was, and when federates are read again.
    looked_ms: u64,
    next_ms: u64,
    stillness: Stillness,
    // Whether it is to be told how far the run is, and which tag was told last.
    is_due: bool,
    told: Option<FiniteTag>,
}

impl<'a, L: Look> Overview<'a, L> {
    /// Of a run that begins now.
    pub(crate) fn new<R: Wait + Clock>(
        rt: &R,
        alloc: Global,
        heard: &'a Heard,
        look: &'a L,
    ) -> Overview<'a, L> {
        let mut seen = Vec::new(alloc);
        if heard.is_watched() {
            let _ = seen.resize_with(heard.federate_count(), || Seen::new());
        }
        let now = heard.millis(rt);
        Overview {
            heard,
            look,
            seen,
            looked_ms: now,
            next_ms: now,
            stillness: Stillness::new(now),
            is_due: false,
            told: None,
        }
    }

    /// Looks once more, and tells what there is to tell.
    pub(crate) fn go_on<R: Wait + Clock>(&mut self, rt: &R) {
        let before = self.looked_ms;
        let now = self.heard.millis(rt);
        self.looked_ms = now;
        self.leave_out(before, now);
        self.heard.look(now);
        if self.seen.is_empty() {
            return;
        }
        if now >= self.next_ms {
            self.next_ms = now.saturating_add(WATCH_LOOK_MS);
            self.read(rt, now);
        }
        if self.look.is_federate() {
            self.tell_coordinator(rt, now);
        } else {
            self.tell_missing(rt, now);
            self.tell_still(rt, now);
        }
        if is_how_far_told(before, now) {
            self.is_due = true;
        }
        self.tell_how_far(rt, now);
    }

    // Leaves out what doesn't count of the time between two looks: all before it is as if it had been so much later.
    fn leave_out(&mut self, before: u64, now: u64) {
        let lapse_ms = now.saturating_sub(before);
        let left_out_ms = lapse_ms.saturating_sub(counted_ms(lapse_ms));
        if left_out_ms == 0 {
            return;
        }
        self.heard.leave_out(before, left_out_ms);
        self.stillness = self.stillness.later(left_out_ms);
        for seen in self.seen.iter_mut() {
            *seen = seen.later(left_out_ms);
        }
    }

    // Reads how far each federate is, and tells that the run goes on, where it stood still.
    fn read<R: Wait + Clock>(&mut self, rt: &R, now: u64) {
        let mut has_completed = false;
        let mut has_granted = false;
        for federate in 0..self.seen.len() {
            let reached = self.look.look(rt, federate);
            if let Some(seen) = self.seen.get_mut(federate) {
                if seen.reached.completed != reached.completed {
                    has_completed = true;
                }
                if seen.reached.granted != reached.granted {
                    has_granted = true;
                }
                seen.reached = reached;
            }
        }
        if has_completed {
            self.tell_going_on(rt, now);
        }
        if has_granted {
            self.stillness = self.stillness.granted(now);
        }
        self.note_awaited(now, self.stillness.stood_ms(now) >= STILL_MS);
    }

    // A tag was completed: tells so, where the run stood still.
    fn tell_going_on<R: Wait + Clock>(&mut self, rt: &R, now: u64) {
        if self.stillness.is_told {
            let stood_ms = self.stillness.stood_ms(now);
            self.heard.tell(rt, rt, Happening::GoesOn(stood_ms));
        }
        self.stillness = self.stillness.completed(now);
    }

    // Notes for whom the run may wait at this time, where it stands still or doesn't. Who holds it back counts where nobody
    // else does: most of them wait themselves.
    fn note_awaited(&mut self, now: u64, stands: bool) {
        let least = least_in(&self.seen);
        let is_held = stands && !self.is_anyone_away(now);
        for federate in 0..self.seen.len() {
            let is_least = self.is_least(federate, &least);
            let standing = self.seen_standing(federate, now);
            let holds = is_held && is_least;
            let is_awaited = may_be_awaited(&standing, holds);
            if let Some(seen) = self.seen.get_mut(federate) {
                *seen = seen.awaited(is_awaited, now);
            }
        }
    }

    // Whether a federate isn't connected, or hasn't acknowledged what was sent to it.
    fn is_anyone_away(&self, now: u64) -> bool {
        for federate in 0..self.seen.len() {
            if may_be_awaited(&self.seen_standing(federate, now), false) {
                return true;
            }
        }
        false
    }

    // Whether a federate may hold the run back, in which this is the least tag that was completed.
    fn is_least(&self, federate: usize, least: &Option<FiniteTag>) -> bool {
        match self.seen.get(federate) {
            Some(seen) => holds_back(*least, seen.reached.completed),
            None => false,
        }
    }

    // At a coordinator: tells which federates are missing, and which were heard again.
    fn tell_missing<R: Wait + Clock>(&mut self, rt: &R, now: u64) {
        let mut told = 0_usize;
        let mut others = 0_usize;
        for federate in 0..self.seen.len() {
            let has_room = told < MOST_TOLD;
            let standing = self.seen_standing(federate, now);
            match self.look_on(federate, &standing, now, has_room) {
                Some(Happening::Missing(_)) if !has_room => others = others.saturating_add(1),
                Some(what) => {
                    if matches!(what, Happening::Missing(_)) {
                        told = told.saturating_add(1);
                    }
                    self.heard.tell(rt, rt, what);
                }
                None => {}
            }
        }
        if others > 0 {
            self.heard.tell(rt, rt, Happening::Others(others));
        }
    }

    // What there is to tell of a federate at this time, where it stands there, and there is room for its name or isn't.
    fn look_on(
        &mut self,
        federate: usize,
        standing: &Standing,
        now: u64,
        has_room: bool,
    ) -> Option<Happening> {
        let seen = self.seen.get_mut(federate)?;
        let what = seen.told(standing, now);
        *seen = seen.after_look(standing, now, has_room);
        what
    }

    // At a coordinator: tells that nobody is heard.
    fn tell_still<R: Wait + Clock>(&mut self, rt: &R, now: u64) {
        let mut quiet_ms = u64::MAX;
        for federate in 0..self.seen.len() {
            quiet_ms = quiet_ms.min(unheard_ms(&self.seen_standing(federate, now)));
        }
        let told = self.stillness.silence_told(quiet_ms);
        self.stillness = self.stillness.after_silence(quiet_ms);
        if told == Some(SilenceTold::Lasts) {
            self.note_awaited(now, true);
            let still = Happening::Still(quiet_ms, awaited_in(&self.seen));
            self.heard.tell(rt, rt, still);
        }
    }

    // At a federate: tells that the coordinator isn't heard or is heard again, or grants nothing.
    fn tell_coordinator<R: Wait + Clock>(&mut self, rt: &R, now: u64) {
        let standing = self.seen_standing(0, now);
        let quiet_ms = unheard_ms(&standing);
        let told = self.stillness.silence_told(quiet_ms);
        self.stillness = self.stillness.after_silence(quiet_ms);
        match told {
            Some(SilenceTold::Lasts) => self.heard.tell(rt, rt, Happening::Unheard(standing)),
            Some(SilenceTold::IsOver) => {
                // What it grants comes behind that.
                self.stillness = self.stillness.granted(now);
                if let Some(before_ms) = self.quiet_before() {
                    let again = Happening::CoordinatorHeard(before_ms);
                    self.heard.tell(rt, rt, again);
                }
            }
            None if standing.is_connected && quiet_ms < MOVING_MS => self.tell_ungranted(rt, now),
            None => {}
        }
        if let Some(seen) = self.seen.get_mut(0) {
            seen.quiet_ms = standing.quiet_ms;
        }
    }

    // How long the coordinator hadn't been heard at the look before; None where it never was.
    fn quiet_before(&self) -> Option<u64> {
        self.seen.get(0)?.quiet_ms
    }

    // At a federate that hears the coordinator: tells that it grants nothing.
    fn tell_ungranted<R: Wait + Clock>(&mut self, rt: &R, now: u64) {
        if self.stillness.ungranted_told(now) == Some(SilenceTold::Lasts) {
            let ungranted_ms = self.stillness.ungranted_ms(now);
            self.stillness = self.stillness.told_ungranted(now);
            self.heard.tell(rt, rt, Happening::Ungranted(ungranted_ms));
        }
    }

    // Tells how far the run is, where that is known and it is time for it: that it goes on, where another tag is the least
    // than was told last, which may be an earlier one: of a federate that has completed its first meanwhile; or that it
    // stands still, where nothing else was told of that.
    fn tell_how_far<R: Wait + Clock>(&mut self, rt: &R, now: u64) {
        if !self.is_due {
            return;
        }
        let Some(goes_on) = self.goes_on(now) else {
            return;
        };
        self.is_due = false;
        let completed = least_in(&self.seen);
        let is_known = if goes_on {
            completed == self.told
        } else {
            self.is_stillness_told()
        };
        if is_known {
            return;
        }
        self.told = completed;
        if let Some(stop) = self.look.stop() {
            let how_far = HowFar {
                completed,
                stop,
                is_going_on: goes_on,
            };
            let awaited = self.connected_or_awaited(now, goes_on);
            self.heard.tell(rt, rt, Happening::Runs(how_far, awaited));
        }
        if !goes_on {
            self.stillness = self.stillness.told();
        }
    }

    // Whether the run goes on, if that is said: at a federate it doesn't without a connection.
    fn goes_on(&self, now: u64) -> Option<bool> {
        if self.look.is_federate() && !self.heard.is_connected(0) {
            Some(false)
        } else {
            is_going_on(self.stillness.stood_ms(now))
        }
    }

    // Whether it was told that the run stands still, or for whom it waits.
    fn is_stillness_told(&self) -> bool {
        self.stillness.is_told || self.seen.iter().any(|seen| seen.told_ms > 0)
    }

    // Who is connected of a coordinator's federates, in a run that goes on, and else who is awaited.
    fn connected_or_awaited(&mut self, now: u64, goes_on: bool) -> Awaited {
        if self.look.is_federate() {
            Awaited::nobody()
        } else if goes_on {
            self.heard.connected()
        } else {
            self.note_awaited(now, true);
            awaited_in(&self.seen)
        }
    }

    /// Tells where the first few federates stand as the run is given up, and how many more there are.
    pub(crate) fn tell_standings<R: Wait + Clock>(&self, rt: &R) {
        let count = self.seen.len();
        let told = count.min(MOST_TOLD);
        for federate in 0..told {
            let standing = self.standing(rt, federate);
            self.heard.tell(rt, rt, Happening::Stands(standing));
        }
        if count > told {
            let others = count.saturating_sub(told);
            self.heard.tell(rt, rt, Happening::Others(others));
        }
    }

    /// Tells where each of the first few federates stands, and how many more there are.
    pub(crate) fn tell_looked<R: Wait + Clock>(&self, rt: &R) {
        let count = self.heard.federate_count();
        let told = count.min(MOST_TOLD);
        for federate in 0..told {
            let standing = self.standing(rt, federate);
            self.heard.hand_on(rt, Told::Stands(standing));
        }
        let looked = Looked {
            more: count.saturating_sub(told),
            stop: self.look.stop(),
        };
        self.heard.hand_on(rt, Told::Looked(looked));
    }

    // Where a federate stands now.
    fn standing<R: Wait + Clock>(&self, rt: &R, federate: usize) -> Standing {
        let reached = self.look.look(rt, federate);
        self.standing_by(federate, self.heard.millis(rt), reached)
    }

    // Where a federate stands, by how far it was as it was read last.
    fn seen_standing(&self, federate: usize, now: u64) -> Standing {
        let reached = match self.seen.get(federate) {
            Some(seen) => seen.reached,
            None => Reached::nothing(),
        };
        self.standing_by(federate, now, reached)
    }

    // Where a federate stands at this time that is so far.
    fn standing_by(&self, federate: usize, now: u64, reached: Reached) -> Standing {
        let heard = self.heard;
        Standing {
            federate: u16::try_from(federate).unwrap_or(u16::MAX),
            is_connected: heard.is_connected(federate),
            lasting_ms: now.saturating_sub(heard.since_ms(federate)),
            quiet_ms: heard.quiet_ms(federate, now),
            reached,
        }
    }
}

// The least of the last tags that federates have completed, of those that have completed one.
fn least_in(seen: &[Seen]) -> Option<FiniteTag>
    ensures { IsLeast (completed_by seen.now) result }
{
    let mut least = None;
    for of in seen {
        least = least_of(least, of.reached.completed);
    }
    least
}

// For whom the run may wait.
fn awaited_in(seen: &[Seen]) -> Awaited
    ensures { result ≡ awaited_of (are_there seen.now) }
{
    let mut awaited = Awaited::nobody();
    for of in seen {
        awaited = awaited.with(of.awaited_since_ms.is_none());
    }
    awaited
}
