ghost use Rattle.std.specs.Prelude.{◌≡◌, ◌≤◌, [], ◌∷◌, ◌++◌, length, take, IfOk, OnOk, OnErr, MatchResult};
ghost use Rattle.node.specs.Step.{answer_in, step_of, initial_of};
ghost use Rattle.desk.specs.Replay.{after_all, replay};
ghost use Rattle.desk.specs.Replies.{AreAdded, answers_of};
ghost use Rattle.desk.specs.Shares.{Agree};
ghost use Rattle.node_journal.specs.Turns.{turn_events};

use crate::batch_reply::{BatchReply, is_done};
use crate::matching::agree;
use crate::memory::Memory;
use crate::share::Share;
use crate::shares_disagree::SharesDisagree;
use crate::turn_steps::TurnSteps;
use node::laws::initial_stations_stay;
use node::{Event, Node, Reply, Station};
use node_journal::{Batch, Journal, turn_event};
use std::alloc::Global;
use std::marker::Model;

/// A station with the journal of all events that came to it, oldest first.
#[derive(Drop)]
pub struct Desk<N: Node> {
    station: Station<N>,
    journal: Journal,
}

impl<N: Node> Model for Desk<N> {
    ghost use Rattle.std.specs.Prelude.{◌≡◌};
    ghost use Rattle.desk.specs.Replay as replay;

    ghost Value = { replay.Desk N };

    ghost view = { λ d. record { station = d.station; journal = d.journal } };

    ghost invariant = { λ d. d.station ≡ replay.replay N.core N.HUB d.station d.journal };
}

impl<N: Node> Desk<N> {
    /// A desk with an empty journal. It is asked before the station's first step.
    pub fn new(alloc: Global, station: Station<N>) -> Desk<N>
        requires { station ≡ initial_of N.core station }
        ensures { result ≡ record { station = station; journal = [] } }
    {
        Desk {
            station,
            journal: Journal::new(alloc),
        }
    }

    /// This desk, to which nothing came, after all events of a journal: it makes their steps, one after the other. So a
    /// node is looked at again by what is known of it. Where there is no memory for a step there is none.
    pub fn with_journal(self, journal: Journal) -> Result<Desk<N>, Memory>
        requires { self.journal ≡ [] }
        ensures { IfOk result (λ desk. desk ≡ record {
          station = after_all N.core N.HUB self.station journal;
          journal = journal;
        }) }
    {
        // For the prover: what the station was made from stays.
        initial_stations_stay::<N>();
        let mut station = self.station;
        replay(&mut station, &journal)?;
        Ok(Desk { station, journal })
    }

    /// The station.
    pub fn station(&self) -> &Station<N>
        ensures { result.now ≡ self.now.station }
    {
        &self.station
    }

    /// All events so far.
    pub fn journal(&self) -> &Journal
        ensures events { result.now ≡ self.now.journal }
        ensures replay { self.now.station ≡ replay N.core N.HUB self.now.station self.now.journal }
    {
        &self.journal
    }

    /// The station and the journal.
    pub fn into_parts(self) -> (Station<N>, Journal)
        ensures station { result.0 ≡ self.station }
        ensures journal { result.1 ≡ self.journal }
        ensures replay { self.station ≡ replay N.core N.HUB self.station self.journal }
    {
        (self.station, self.journal)
    }

    /// Makes the station's step, and puts the event in the journal: also one that is refused, and one that changes
    /// nothing. Without memory nothing has changed, and the same event may come again.
    pub fn handle(&mut self, event: Event) -> Result<Reply, Memory>
        ensures step { IfOk result (λ reply. record { station = self.new.station; answer = answer_in reply }
            ≡ step_of N.core N.HUB
            (replay N.core N.HUB self.old.station self.old.journal) event) }
        ensures station { self.old.station ≡ replay N.core N.HUB self.old.station self.old.journal }
        ensures initial { initial_of N.core self.new.station ≡ initial_of N.core self.old.station }
        ensures journal { OnOk result (self.new.journal ≡ self.old.journal ++ event ∷ []) }
        ensures unchanged { OnErr result (self.new ≡ self.old) }
    {
        // For the prover: what the station was made from stays.
        initial_stations_stay::<N>();
        step(&mut self.station, &mut self.journal, event)
    }

    /// Makes the steps of a batch's events, one after the other: all, or those before the first one for which there is
    /// no memory. Returns how many. The journal keeps the batch. What the desk says to them is added; frames for which
    /// there is no memory are lost, as on a line that loses frames.
    pub fn handle_batch(&mut self, batch: &Batch, replies: &mut BatchReply) -> usize
        ensures few { result ≤ length batch.now }
        ensures journal { self.new.journal ≡ self.old.journal ++ take result batch.now }
        ensures initial { initial_of N.core self.new.station ≡ initial_of N.core self.old.station }
        ensures replies { AreAdded replies.old
            (answers_of N.core N.HUB self.old.station (take result batch.now)) replies.new }
    {
        // For the prover: what the station was made from stays.
        initial_stations_stay::<N>();
        let Ok(()) = self.journal.push_batch(batch) else {
            return 0;
        };
        let made = step_all(&mut self.station, batch.events(), replies);
        let left = batch.events().len() - made;
        self.journal.truncate(self.journal.len() - left);
        made
    }

    /// Makes the steps of this many events of turns, an announcement and then an advance each: all, or those up to the
    /// first turn that does nothing, or before the first event for which there is no memory. What the desk says to them
    /// is added, as by `handle_batch`.
    pub fn handle_turns(&mut self, events: usize, replies: &mut BatchReply) -> TurnSteps
        ensures few { result.events ≤ events }
        ensures journal { self.new.journal ≡ self.old.journal ++ turn_events result.events }
        ensures initial { initial_of N.core self.new.station ≡ initial_of N.core self.old.station }
        ensures replies { AreAdded replies.old
            (answers_of N.core N.HUB self.old.station (turn_events result.events)) replies.new }
    {
        // For the prover: what the station was made from stays.
        initial_stations_stay::<N>();
        let Ok(()) = self.journal.push_turns(events) else {
            return TurnSteps::none();
        };
        let made = step_turns(&mut self.station, events, replies);
        let unmade = events - made.events;
        self.journal.truncate(self.journal.len() - unmade);
        made
    }

    /// Takes back the room of a reply's frames, for the frames of later steps.
    pub fn reuse(&mut self, reply: Reply)
        ensures { self.new ≡ self.old }
    {
        self.station.reuse(reply);
    }

    /// The desk, if these shares are its journal: in each the places rise, and all slips together are the journal, one
    /// slip for each place, with the event there. Else it is given up.
    pub fn gather(self, mut shares: Vec<Share>) -> Result<Desk<N>, SharesDisagree>
        ensures { MatchResult result (λ desk. (desk ≡ self) × Agree self.journal shares.items)
            (λ _. ¬ Agree self.journal shares.items) }
    {
        if agree(&self.journal, &mut shares) {
            Ok(self)
        } else {
            Err(SharesDisagree)
        }
    }
}

// Makes the station's steps for all events of a journal.
fn replay<N: Node>(station: &mut Station<N>, journal: &Journal) -> Result<(), Memory>
    ensures { OnOk result (station.new ≡ after_all N.core N.HUB station.old journal.now) }
{
    let mut near = 0;
    for place in 0..journal.len() {
        let next = journal.event(place, &mut near);
        match station.step(next) {
            Ok(reply) => station.reuse(reply),
            Err(_) => return Err(Memory),
        }
    }
    Ok(())
}

// Makes the station's steps, until there is no memory for one. Returns how many.
fn step_all<N: Node>(station: &mut Station<N>, events: &[Event], replies: &mut BatchReply) -> usize
    ensures few { result ≤ length events.now }
    ensures station { station.new ≡ after_all N.core N.HUB station.old (take result events.now) }
    ensures replies { AreAdded replies.old
        (answers_of N.core N.HUB station.old (take result events.now)) replies.new }
{
    for place in 0..events.len() {
        match station.step(events[place]) {
            Ok(reply) => {
                let _ = replies.add(&reply);
                station.reuse(reply);
            }
            Err(_) => return place,
        }
    }
    events.len()
}

// Makes the station's steps of events of turns, up to a turn that does nothing, or until there is no memory for one.
fn step_turns<N: Node>(
    station: &mut Station<N>,
    events: usize,
    replies: &mut BatchReply,
) -> TurnSteps
    ensures few { result.events ≤ events }
    ensures station { station.new ≡ after_all N.core N.HUB station.old (turn_events result.events) }
    ensures replies { AreAdded replies.old
        (answers_of N.core N.HUB station.old (turn_events result.events)) replies.new }
{
    // Whether the announcement of this turn did something.
    let mut has_announced = false;
    for number in 0..events {
        let Ok(reply) = station.step(turn_event(number)) else {
            return TurnSteps {
                events: number,
                is_idle: false,
            };
        };
        let has_done = is_done(&reply);
        let _ = replies.add(&reply);
        station.reuse(reply);
        if number % 2 == 0 {
            has_announced = has_done;
        } else if !has_announced && !has_done {
            return TurnSteps {
                events: number + 1,
                is_idle: true,
            };
        }
    }
    TurnSteps {
        events,
        is_idle: false,
    }
}

// Makes the station's step. The event is put in the journal first, and taken off again where there is no memory for the
// step.
#[tactic(auto, using(crate::proofs::Ends::undone))]
fn step<N: Node>(
    station: &mut Station<N>,
    journal: &mut Journal,
    event: Event,
) -> Result<Reply, Memory>
    ensures step { IfOk result (λ reply. record { station = station.new; answer = answer_in reply }
        ≡ step_of N.core N.HUB station.old event) }
    ensures journal { OnOk result (journal.new ≡ journal.old ++ event ∷ []) }
    ensures station_unchanged { OnErr result (station.new ≡ station.old) }
    ensures journal_unchanged { OnErr result (journal.new ≡ journal.old) }
{
    journal.push(&event, None)?;
    match station.step(event) {
        Ok(reply) => Ok(reply),
        Err(_) => {
            let _ = journal.pop();
            Err(Memory)
        }
    }
}
