//! What a worker does while it holds its node's desk's lock: it makes steps, and gathers the replies to them.
ghost use Rattle.std.specs.Prelude.{◌≡◌, ◌≤◌, ◌+◌, List, IfSome};
ghost use Rattle.node.specs.declared.event.Event.TheVariants as Events;
ghost use Rattle.node_journal.specs.declared.slip.Slip.{Slip};
ghost use Rattle.wires_workers.specs.HandedIn.{AreHandedIn, HandedIn, events_of_turns};
ghost use Rattle.wires_workers.specs.declared.turns.TheConstants.{TURNS_AT_ONCE};

use crate::retry_state::RetryState;
use crate::turns::{TURNS_AT_ONCE, Turns};
use desk::{BatchReply, DeskGuard, Share, Shared, is_done};
use node::{Event, Node};
use node_journal::Batch;
use std::alloc::Global;
use std::sync::Wait;

// The frames of one event, mostly: its acknowledgement, and what it makes its node say.
const FRAMES_OF_EVENT: usize = 2;

/// A desk whose lock a worker holds, and the replies to the steps that it makes there. `Context::leave` ends it: only
/// there the lock is given up.
pub(crate) struct Session<'d, N: Node> {
    pub desk: DeskGuard<'d, N>,
    pub replies: BatchReply,
}

impl<'d, N: Node> Session<'d, N> {
    /// Waits for the desk's lock. Room for the frames of this many events is asked for before that, so that it isn't
    /// asked for again and again while others wait.
    pub fn begin<R: Wait>(
        rt: &R,
        alloc: Global,
        shared: &'d Shared<N>,
        events: usize,
    ) -> Session<'d, N> {
        let replies = BatchReply::with_room(alloc, events.saturating_mul(FRAMES_OF_EVENT));
        Session {
            desk: shared.lock(rt),
            replies,
        }
    }

    /// Makes the events' steps, one after the other. The batch, where there is memory for one, is of the same events:
    /// the journal and the share keep it once. Events for which it has no memory are entered one by one.
    pub fn enter_all(&mut self, share: &mut Share, events: &[Event], batch: Option<&Batch>)
        requires { IfSome batch (λ b. b.now ≡ events.now) }
        ensures { AreHandedIn share.old events.now share.new }
    {
        match batch {
            Some(batch) => {
                let made = self.desk.handle_batch(share, batch, &mut self.replies);
                self.enter_each(share, &events[made..]);
            }
            None => self.enter_each(share, events),
        }
    }

    /// Makes turns, an announcement and then an advance each, up to the first that does nothing, and counts them: no
    /// more than are left, and no more than are made at once.
    #[tactic(auto, using(crate::proofs::SeveralTurns::no_turn))]
    pub fn enter_turns(&mut self, share: &mut Share, state: &mut RetryState) -> Turns
        ensures handed_in { AreHandedIn share.old (events_of_turns result.made) share.new }
        ensures counted { state.new.turns + result.made ≡ state.old.turns }
        ensures one { 1 ≤ state.old.turns → 1 ≤ result.made }
        ensures most { result.made ≤ TURNS_AT_ONCE }
    {
        let most = state.turns_left().min(TURNS_AT_ONCE);
        if most == 0 {
            return Turns::none(false);
        }
        let turns = self.make_turns(share, most);
        turns.counted(state)
    }

    // Makes turns up to the first that does nothing, at most this many but one at least. They are idle where the last
    // of them did nothing. After the first as many are put at once as were made before: of what is put and isn't made
    // then, there is no more than of what is made.
    fn make_turns(&mut self, share: &mut Share, most: u32) -> Turns
        ensures handed_in { AreHandedIn share.old (events_of_turns result.made) share.new }
        ensures one { 1 ≤ result.made }
        ensures most { 1 ≤ most → result.made ≤ most }
    {
        let mut is_idle = self.turn_is_idle(share);
        let mut made = 1;
        while made < most && !is_idle {
            let more = self.more_turns(share, made.min(most - made));
            is_idle = more.is_idle;
            made += more.made;
        }
        Turns { made, is_idle }
    }

    // Makes turns up to the first that does nothing, or lacks memory, at most this many but one at least.
    fn more_turns(&mut self, share: &mut Share, most: u32) -> Turns
        requires { 1 ≤ most }
        ensures handed_in { AreHandedIn share.old (events_of_turns result.made) share.new }
        ensures one { 1 ≤ result.made }
        ensures most { result.made ≤ most }
    {
        let steps = self
            .desk
            .handle_turns(share, most as usize * 2, &mut self.replies);
        let made = (steps.events / 2) as u32;
        if steps.events % 2 == 1 {
            // There was no memory for the advance of the last turn: it is tried once more.
            self.enter(share, Event::Advance);
            Turns {
                made: made + 1,
                is_idle: false,
            }
        } else if made == 0 {
            let is_idle = self.turn_is_idle(share);
            Turns { made: 1, is_idle }
        } else {
            Turns {
                made,
                is_idle: steps.is_idle,
            }
        }
    }

    // Makes a turn. Returns whether it did nothing.
    fn turn_is_idle(&mut self, share: &mut Share) -> bool
        ensures { (between : List Slip) × HandedIn share.old Events.Announce between
            × HandedIn between Events.Advance share.new }
    {
        let has_announced = self.enter(share, Event::Announce);
        let has_advanced = self.enter(share, Event::Advance);
        !has_announced && !has_advanced
    }

    // Makes the events' steps, each with a slip of its own.
    fn enter_each(&mut self, share: &mut Share, events: &[Event])
        ensures { AreHandedIn share.old events.now share.new }
    {
        for event in events {
            self.enter(share, *event);
        }
    }

    // Makes an event's step. Returns whether it did something.
    fn enter(&mut self, share: &mut Share, event: Event) -> bool
        ensures { HandedIn share.old event share.new }
    {
        match self.desk.handle(share, event) {
            Ok(reply) => {
                let has_done = is_done(&reply);
                // Frames for which there is no memory are lost, as on a line that loses frames.
                let _ = self.replies.add(&reply);
                self.desk.reuse(reply);
                has_done
            }
            Err(_) => false,
        }
    }
}
