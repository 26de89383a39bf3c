ghost use Rattle.std.specs.Prelude.{◌≡◌, ◌≤◌, ℕ, List, [], ◌∷◌, ◌++◌, length, take, drop, slice_get, option_map, IfOk};
ghost use Rattle.std.specs.Prelude.{OnOk, OnErr};
ghost use Rattle.node.specs.declared.event.Event.{Event as IsEvent};
ghost use Rattle.node.specs.Step.{answer_in, step_of, initial_of};
ghost use Rattle.node_journal.specs.Slips.{slips_from};
ghost use Rattle.node_journal.specs.Turns.{turn_events};
ghost use Rattle.desk.specs.Replies.{AreAdded, answers_of, is_closed};
ghost use Rattle.desk.specs.Shares.{Agree};

use crate::batch_reply::BatchReply;
use crate::desk::Desk;
use crate::memory::Memory;
use crate::share::Share;
use crate::shares_disagree::SharesDisagree;
use crate::turn_steps::TurnSteps;
use node::{Event, Node, Reply};
use node_journal::{Batch, Blocks, Journal};
use std::sync::{Mutex, MutexGuard, Wait};

/// A desk under a lock, for the workers of one node. Whenever the lock is free, the station behind it is the replay of
/// the journal beside it.
///
/// A contract can't name what lies under a lock. That `handle` answers as the desk does, and that its slip has the
/// event's place in the journal, is said by `enter`, which is passed the locked desk; what `unacked` answers, by the
/// function of that name, and so what `is_closed` answers. That `finished` answers as the node does, and which node
/// `node` lends, isn't said.
#[derive(Drop)]
pub struct Shared<N: Node> {
    desk: Mutex<Desk<N>>,
}

impl<N: Node> Shared<N> {
    /// The desk under its lock.
    pub fn new(desk: Desk<N>) -> Shared<N> {
        Shared {
            desk: Mutex::new(desk),
        }
    }

    /// Waits for the lock, and handles the event. The share gains the event's slip. Without memory neither share nor
    /// desk has changed, and the same event may come again.
    pub fn handle<R: Wait>(&self, rt: &R, share: &mut Share, event: Event) -> Result<Reply, Memory>
        ensures slip { OnOk result ((place : ℕ)
            × (share.new ≡ share.old ++ record { place = place; event = event } ∷ [])) }
        ensures unchanged { OnErr result (share.new ≡ share.old) }
    {
        let mut locked = self.lock(rt);
        let reply = locked.handle(share, event);
        locked.release();
        reply
    }

    /// Waits for the lock, and holds it, so that what the replies say can be handed on in the order of the station's
    /// steps.
    pub fn lock<R: Wait>(&self, rt: &R) -> DeskGuard<'_, N> {
        DeskGuard {
            desk: self.desk.lock(rt),
        }
    }

    /// Waits for the lock, and adds the journal's events from this place on to another journal, at most this many at
    /// once. Without memory for them that one is as before.
    pub fn copy_events<R: Wait>(
        &self,
        rt: &R,
        place: usize,
        most: usize,
        events: &mut Journal,
    ) -> Result<(), Memory>
        ensures copied { OnOk result ((more : List IsEvent) × (events.new ≡ events.old ++ more)) }
        ensures unchanged { OnErr result (events.new ≡ events.old) }
    {
        let locked = self.lock(rt);
        let result = copy_some(locked.desk.journal(), place, most, events);
        locked.release();
        result
    }

    /// Waits for the lock, and asks how many signals a peer hasn't acknowledged. Returns None where there is no such
    /// peer.
    pub fn unacked<R: Wait>(&self, rt: &R, peer: usize) -> Option<usize> {
        let locked = self.lock(rt);
        let unacked = locked.unacked(peer);
        locked.release();
        unacked
    }

    /// Waits for the lock, and asks whether the end for a peer is closed, so that nothing is said to it any more. Also
    /// where there is no such peer.
    pub fn is_closed<R: Wait>(&self, rt: &R, peer: usize) -> bool {
        let locked = self.lock(rt);
        let is_closed = is_closed(&locked.desk, peer);
        locked.release();
        is_closed
    }

    /// Waits for the lock, and asks the node whether nothing is left to do, as far as it knows.
    pub fn finished<R: Wait>(&self, rt: &R) -> bool {
        let locked = self.lock(rt);
        let is_finished = locked.finished();
        locked.release();
        is_finished
    }
}

/// A desk whose lock is held, until it is released.
pub struct DeskGuard<'a, N: Node> {
    desk: MutexGuard<'a, Desk<N>>,
}

impl<'a, N: Node> DeskGuard<'a, N> {
    /// Handles the event. The share gains the event's slip. Without memory neither share nor desk has changed, and the
    /// same event may come again.
    pub fn handle(&mut self, share: &mut Share, event: Event) -> Result<Reply, Memory>
        ensures slip { OnOk result ((place : ℕ)
            × (share.new ≡ share.old ++ record { place = place; event = event } ∷ [])) }
        ensures unchanged { OnErr result (share.new ≡ share.old) }
    {
        enter(&mut self.desk, &mut share.slips, event)
    }

    /// Makes the steps of a batch's events, as `Desk::handle_batch` does. Returns how many. The share gains their
    /// slips, and keeps the batch.
    pub fn handle_batch(
        &mut self,
        share: &mut Share,
        batch: &Batch,
        replies: &mut BatchReply,
    ) -> usize
        ensures few { result ≤ length batch.now }
        ensures slips { (first : ℕ) × (share.new ≡ share.old ++ slips_from first (take result batch.now)) }
    {
        enter_batch(&mut self.desk, &mut share.slips, batch, replies)
    }

    /// Makes the steps of this many events of turns, as `Desk::handle_turns` does. The share gains their slips.
    pub fn handle_turns(
        &mut self,
        share: &mut Share,
        events: usize,
        replies: &mut BatchReply,
    ) -> TurnSteps
        ensures few { result.events ≤ events }
        ensures slips { (first : ℕ) × (share.new ≡ share.old ++ slips_from first (turn_events result.events)) }
    {
        enter_turns(&mut self.desk, &mut share.slips, events, replies)
    }

    /// Takes back the room of a reply's frames, for the frames of later steps.
    pub fn reuse(&mut self, reply: Reply) {
        self.desk.reuse(reply);
    }

    /// Asks the node whether nothing is left to do, as far as it knows.
    pub fn finished(&self) -> bool {
        self.desk.station().node().finished()
    }

    /// How many signals a peer hasn't acknowledged, or None where there is no such peer.
    pub fn unacked(&self, peer: usize) -> Option<usize> {
        unacked(&self.desk, peer)
    }

    /// The node, as it stands while the lock is held.
    pub fn node(&self) -> &N {
        self.desk.station().node()
    }

    /// Gives the lock up.
    pub fn release(self) {
        let DeskGuard { desk } = self;
        drop(desk);
    }
}

/// The desk, when all its workers have ended, if their shares are its journal: see `Desk::gather`. So in a gathered
/// desk every event for which one of these shares had an Ok stands once, at its place.
pub fn gather<N: Node>(shared: Shared<N>, shares: Vec<Share>) -> Result<Desk<N>, SharesDisagree>
    ensures { IfOk result (λ desk. Agree desk.journal shares.items) }
{
    shared.desk.into_inner().gather(shares)
}

// Adds a journal's events from this place on to another one, at most this many.
fn copy_some(
    journal: &Journal,
    place: usize,
    most: usize,
    events: &mut Journal,
) -> Result<(), Memory>
    ensures copied { OnOk result (events.new ≡ events.old ++ take most (drop place journal.now)) }
    ensures unchanged { OnErr result (events.new ≡ events.old) }
{
    events.append(journal, place, most)?;
    Ok(())
}

// How many signals the end for a peer keeps.
fn unacked<N: Node>(desk: &Desk<N>, peer: usize) -> Option<usize>
    ensures { result ≡ option_map (λ e. length e.kept) (slice_get desk.now.station.ends peer) }
{
    Some(desk.station().end(peer)?.unacked())
}

// Whether the end for a peer is closed, or there is none.
fn is_closed<N: Node>(desk: &Desk<N>, peer: usize) -> bool
    ensures { result ≡ is_closed (slice_get desk.now.station.ends peer) }
{
    match desk.station().end(peer) {
        Some(end) => end.is_closed(),
        None => true,
    }
}

// Handles a batch's events at the locked desk. Returns how many. Their slips are added first, and those of events for
// which there is no memory are taken off again.
fn enter_batch<N: Node>(
    desk: &mut Desk<N>,
    slips: &mut Blocks,
    batch: &Batch,
    replies: &mut BatchReply,
) -> usize
    ensures few { result ≤ length batch.now }
    ensures journal { desk.new.journal ≡ desk.old.journal ++ take result batch.now }
    ensures slips { slips.new ≡ slips.old ++ slips_from (length desk.old.journal) (take result batch.now) }
    ensures initial { initial_of N.core desk.new.station ≡ initial_of N.core desk.old.station }
    ensures replies { AreAdded replies.old
        (answers_of N.core N.HUB desk.old.station (take result batch.now)) replies.new }
{
    let Ok(()) = slips.add_batch(desk.journal().len(), batch) else {
        return 0;
    };
    let made = desk.handle_batch(batch, replies);
    let left = batch.events().len() - made;
    slips.truncate(slips.len() - left);
    made
}

// Handles events of turns at the locked desk. Their slips are added first, and those of events whose steps aren't made
// are taken off again.
fn enter_turns<N: Node>(
    desk: &mut Desk<N>,
    slips: &mut Blocks,
    events: usize,
    replies: &mut BatchReply,
) -> TurnSteps
    ensures few { result.events ≤ events }
    ensures journal { desk.new.journal ≡ desk.old.journal ++ turn_events result.events }
    ensures slips { slips.new ≡ slips.old ++ slips_from (length desk.old.journal) (turn_events result.events) }
    ensures initial { initial_of N.core desk.new.station ≡ initial_of N.core desk.old.station }
    ensures replies { AreAdded replies.old
        (answers_of N.core N.HUB desk.old.station (turn_events result.events)) replies.new }
{
    let Ok(()) = slips.add_turns(desk.journal().len(), events) else {
        return TurnSteps::none();
    };
    let made = desk.handle_turns(events, replies);
    let left = events - made.events;
    slips.truncate(slips.len() - left);
    made
}

// Handles the event at the locked desk. Its slip is added first, and taken off again where there is no memory for the
// event.
#[tactic(auto, using(crate::proofs::Ends::undone))]
fn enter<N: Node>(desk: &mut Desk<N>, slips: &mut Blocks, event: Event) -> Result<Reply, Memory>
    ensures step { IfOk result (λ reply. record { station = desk.new.station; answer = answer_in reply }
        ≡ step_of N.core N.HUB desk.old.station event) }
    ensures journal { OnOk result (desk.new.journal ≡ desk.old.journal ++ event ∷ []) }
    ensures slip { OnOk result (slips.new ≡ slips.old
        ++ record { place = length desk.old.journal; event = event } ∷ []) }
    ensures desk_unchanged { OnErr result (desk.new ≡ desk.old) }
    ensures slips_unchanged { OnErr result (slips.new ≡ slips.old) }
{
    slips.add(desk.journal().len(), &event, None)?;
    match desk.handle(event) {
        Ok(reply) => Ok(reply),
        Err(memory) => {
            let _ = slips.pop();
            Err(memory)
        }
    }
}
