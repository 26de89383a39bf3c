ghost use Rattle.std.specs.Prelude.{◌≡◌, ◌<◌, ◌&&◌, slice_get, true};
ghost use Rattle.tag.specs.LogicalTime.{forever, is_same};
ghost use Rattle.signal.specs.declared.signal.Signal.TheVariants as signals;
ghost use Rattle.protocol.specs.FederateRecords.{federate_record_at, is_finished};
ghost use Rattle.plan.specs.Federation.{connections_of};
ghost use Rattle.grants.specs.Wiring.{network_by};
ghost use Rattle.grants.specs.Records.{changed_at, with_looks};
ghost use Rattle.coordinator.specs.Steps.{IsSettled, IsStep};

use crate::sending::{prepare, send};
use crate::tags::{is_in_time, is_next_in_time, lesser_with};
use grants::Table;
use node::{NodeFault, Outbox};
use plan::Plan;
use plan_paths::Connection;
use protocol::{Post, Refusal};
use signal::Signal;
use tag::{FiniteTag, Tag, is_past, lesser};

/// What the coordinator knows of the federates, and room for what a step sends, which is kept.
#[derive(Drop)]
pub(crate) struct State {
    pub(crate) table: Table,
    pub(crate) posts: Vec<Post>,
}

impl State {
    /// Takes a signal of a peer, or refuses it.
    pub(crate) fn take(
        &mut self,
        plan: &Plan,
        peer: usize,
        signal: &Signal,
        outbox: &mut Outbox,
    ) -> Result<bool, NodeFault>
        requires settled { IsSettled self.old.table }
        requires connections { self.old.table.wiring.connections ≡ connections_of plan.now }
        ensures { IsStep self.old.table self.new.table outbox.old.mail outbox.new.mail result peer signal.now }
    {
        match *signal {
            Signal::Net(tag) => self.take_net(peer, tag, outbox),
            Signal::Ltc(tag) => self.take_ltc(peer, tag, outbox),
            Signal::Tag(_) => Err(NodeFault::Refused(Refusal::NotForCoordinator)),
            Signal::Msg {
                connection,
                tag,
                value,
            } => {
                let over = plan.connections().get(usize::from(connection)).copied();
                self.route(peer, over, connection, tag, value, outbox)
            }
        }
    }

    /// Whether every federate has announced, and has FOREVER as its next tag.
    pub(crate) fn is_finished(&self) -> bool
        ensures { result ≡ is_finished (network_by self.now.table.wiring)
            (federate_record_at self.now.table.federate_records) }
    {
        for federate in 0..self.table.federates() {
            if !has_finished(&self.table, federate) {
                return false;
            }
        }
        true
    }

    // A NET: the federate's next tag is the lesser of it and of the messages on their way to it.
    fn take_net(&mut self, peer: usize, tag: Tag, outbox: &mut Outbox) -> Result<bool, NodeFault>
        requires settled { IsSettled self.old.table }
        ensures { IsStep self.old.table self.new.table outbox.old.mail outbox.new.mail result peer (signals.Net tag) }
    {
        // For the prover: a record for each federate, and connections between federates that are there.
        self.table.invariant();
        if !is_next_in_time(tag, self.table.stop()) {
            return Err(NodeFault::Refused(Refusal::AfterStop));
        }
        // There is no record of such a federate, so nothing changes. Nobody was eligible before, so nothing is sent.
        if peer >= self.table.federates() {
            return Ok(true);
        }
        if !is_past(self.table.completed(peer), tag) {
            return Err(NodeFault::Refused(Refusal::NotRising));
        }
        let next = self.table.next(peer);
        let announced = self.table.announced(peer);
        let least = lesser_with(tag, self.table.least_transit(peer));
        note_next(&mut self.table, peer, least);
        note_announced(&mut self.table, peer);
        self.posts.clear();
        if let Err(fault) = prepare(&mut self.posts, &self.table, peer, outbox) {
            self.table.set_announced(peer, announced);
            self.table.set_next(peer, next);
            return Err(fault);
        }
        send(&mut self.table, self.posts.as_slice(), outbox);
        Ok(true)
    }

    // An LTC: the federate completed this tag, so no message up to it is on its way to it any more.
    fn take_ltc(
        &mut self,
        peer: usize,
        tag: FiniteTag,
        outbox: &mut Outbox,
    ) -> Result<bool, NodeFault>
        requires settled { IsSettled self.old.table }
        ensures { IsStep self.old.table self.new.table outbox.old.mail outbox.new.mail result peer (signals.Ltc tag) }
    {
        // For the prover: a record for each federate, and connections between federates that are there.
        self.table.invariant();
        if !is_in_time(tag.tag(), self.table.stop()) {
            return Err(NodeFault::Refused(Refusal::AfterStop));
        }
        // There is no record of such a federate, so nothing changes. Nobody was eligible before, so nothing is sent.
        if peer >= self.table.federates() {
            return Ok(true);
        }
        if !is_past(self.table.completed(peer), tag.tag()) {
            return Err(NodeFault::Refused(Refusal::NotRising));
        }
        let completed = self.table.completed(peer);
        self.table.set_completed(peer, Some(tag));
        self.posts.clear();
        if let Err(fault) = prepare(&mut self.posts, &self.table, peer, outbox) {
            self.table.set_completed(peer, completed);
            return Err(fault);
        }
        self.table.drop_transit(peer, tag);
        send(&mut self.table, self.posts.as_slice(), outbox);
        Ok(true)
    }

    // A message over a connection, if there is one of this number: it goes on to the connection's end.
    fn route(
        &mut self,
        peer: usize,
        over: Option<Connection>,
        number: u16,
        tag: FiniteTag,
        value: i64,
        outbox: &mut Outbox,
    ) -> Result<bool, NodeFault>
        requires settled { IsSettled self.old.table }
        requires over { over ≡ slice_get self.old.table.wiring.connections number }
        ensures { IsStep self.old.table self.new.table outbox.old.mail outbox.new.mail result peer
            (signals.Msg number tag value) }
    {
        // For the prover: a record for each federate, and connections between federates that are there.
        self.table.invariant();
        let Some(connection) = over else {
            return Err(NodeFault::Refused(Refusal::NotYours));
        };
        if connection.source() != peer {
            return Err(NodeFault::Refused(Refusal::NotYours));
        }
        if !is_in_time(tag.tag(), self.table.stop()) {
            return Err(NodeFault::Refused(Refusal::AfterStop));
        }
        let target = connection.target();
        if !is_past(self.table.granted(target), tag.tag()) {
            return Err(NodeFault::Refused(Refusal::BelowGrant));
        }
        let signal = Signal::Msg {
            connection: number,
            tag,
            value,
        };
        self.posts.clear();
        self.posts.push(Post {
            peer: target,
            signal,
        })?;
        let next = self.table.next(target);
        note_next(&mut self.table, target, lesser(next, tag.tag()));
        if let Err(fault) = prepare(&mut self.posts, &self.table, target, outbox) {
            self.table.set_next(target, next);
            return Err(fault);
        }
        if self.table.add_transit(target, tag).is_err() {
            self.table.set_next(target, next);
            return Err(NodeFault::Memory);
        }
        send(&mut self.table, self.posts.as_slice(), outbox);
        Ok(true)
    }
}

// Whether a federate has announced, and has FOREVER as its next tag.
fn has_finished(table: &Table, federate: usize) -> bool
    requires { federate < table.now.wiring.federates }
    ensures { result ≡ ((federate_record_at table.now.federate_records federate).announced
        && is_same (federate_record_at table.now.federate_records federate).next forever) }
{
    table.announced(federate) && table.next(federate).is_forever()
}

// Notes a federate's next tag. Where that stays, nobody is looked at.
fn note_next(table: &mut Table, federate: usize, next: Tag)
    requires { federate < table.old.wiring.federates }
    ensures { table.new ≡ with_looks (changed_at table.old federate (λ s. record s { next = next })) table.new.looks }
{
    if table.next(federate) != next {
        table.set_next(federate, next);
    }
}

// Notes that a NET of a federate came. After its first there is nothing to note, and nobody is looked at.
fn note_announced(table: &mut Table, federate: usize)
    requires { federate < table.old.wiring.federates }
    ensures { table.new ≡ with_looks (changed_at table.old federate (λ s. record s { announced = true }))
        table.new.looks }
{
    if !table.announced(federate) {
        table.set_announced(federate, true);
    }
}
