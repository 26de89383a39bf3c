ghost use Rattle.std.specs.Prelude.{◌≡◌, ◌<◌, ◌↔◌, ◌&&◌, ℕ, nat_eq, slice_get, IsTrue, IfOk, OnOk, OnErr, MatchResult};
ghost use Rattle.std.specs.Prelude.{[], ◌∷◌};
ghost use Rattle.tag.specs.LogicalTime.{is_at_most, is_past};
ghost use Rattle.signal.specs.Signal.{IsSignal};
ghost use Rattle.signal.specs.declared.signal.Signal.TheVariants as Signals;
ghost use Rattle.protocol.specs.Outcome.{Nothing, Done, Refused};
ghost use Rattle.protocol.specs.Federate.{accept_grant, accept_message, initial_federate, federate_accepts};
ghost use Rattle.protocol.specs.KeptAlone.{IsFederate};
ghost use Rattle.plan.specs.External.{AreInputsOf};
ghost use Rattle.plan.specs.Federation.{connections_of, federate_count, stop_of};
ghost use Rattle.plan_network.specs.Network.{network_of};
ghost use Rattle.reactor_programs.specs.Programs.{AreProgramsOf};
ghost use Rattle.federate.specs.Change.{changed, IsInTime};
ghost use Rattle.federate.specs.Turn.{due_in};

use crate::change::Change;
use crate::memory::Memory;
use crate::messages::to_coordinator;
use crate::outlet::{Outlet, outlets_of};
use crate::prepared::{Prepared, prepare, take_in};
use crate::recorded::put_recorded;
use node::laws::nothing_needs_no_room;
use node::{Blank, Node, NodeFault, Outbox};
use plan::{Inputs, Plan};
use plan_paths::Connection;
use protocol::Refusal;
use reactor::{Reactor, Row, Rows};
use reactor_agenda::{Agenda, PendingEvent};
use reactor_programs::Programs;
use signal::Signal;
use std::alloc::Global;
use std::marker::Model;
use tag::{FiniteTag, Tag, is_past};

/// A federate of a plan, behind a link to the coordinator, its one peer, 0. Contracts see what it was made from, its
/// number, and where it stands.
#[derive(Drop)]
pub struct Federate<'a> {
    plan: &'a Plan,
    programs: &'a Programs,
    inputs: &'a Inputs,
    number: usize,
    reactor: Reactor<'a>,
    agenda: Agenda,
    /// Up to which tag it may run.
    granted: Option<FiniteTag>,
    /// The last tag that it ran.
    completed: Option<FiniteTag>,
    /// The last NET, if nothing was run since.
    announced: Option<Tag>,
    rows: Rows,
    /// By which connections it sends.
    outlets: Vec<Outlet>,
    /// Room for a turn.
    prepared: Prepared,
}

impl<'a> Model for Federate<'a> {
    ghost use Rattle.node_cores.specs.FederateCore.{FederateNode};
    ghost use Rattle.federate.specs.Invariant.{federate_by_parts, IsKept};

    ghost Value = { FederateNode };

    ghost view = { λ f. record {
      draft = f.plan.now;
      programs = f.programs.now;
      inputs = f.inputs.now;
      number = f.number;
      federate = federate_by_parts f.reactor f.agenda f.granted f.completed f.announced f.rows;
    } };

    ghost invariant = { λ f. IsKept f.plan.now f.programs.now f.inputs.now f.number f.reactor.behaviour f.agenda.stop
        f.outlets.items
        (federate_by_parts f.reactor f.agenda f.granted f.completed f.announced f.rows) };
}

impl<'a> Federate<'a> {
    ghost use Rattle.node_cores.specs.FederateCore.{network_at, announces, advances};
    ghost use Rattle.federate.specs.Invariant.{IsNode};

    /// The federate of this number, before it has run anything. It fails only for want of memory.
    pub fn new(
        alloc: Global,
        plan: &'a Plan,
        programs: &'a Programs,
        inputs: &'a Inputs,
        number: usize,
    ) -> Result<Federate<'a>, Memory>
        requires programs { AreProgramsOf plan.now programs.now }
        requires inputs { AreInputsOf plan.now inputs.now }
        requires there { number < federate_count plan.now }
        ensures { IfOk result (λ federate. federate ≡ record {
          draft = plan.now;
          programs = programs.now;
          inputs = inputs.now;
          number = number;
          federate = initial_federate (network_of plan.now programs.now inputs.now) number;
        }) }
    {
        plan.invariant();
        let program = &programs.as_slice()[number];
        let slots = &plan.federates()[number].slots;
        let mut agenda = Agenda::new(alloc, slots, plan.stop_tag())?;
        put_recorded(&mut agenda, plan, inputs, number)?;
        Ok(Federate {
            plan,
            programs,
            inputs,
            number,
            reactor: Reactor::new(alloc, program)?,
            agenda,
            granted: None,
            completed: None,
            announced: None,
            rows: Rows::new(alloc),
            outlets: outlets_of(alloc, plan, number)?,
            prepared: Prepared::new(alloc),
        })
    }

    /// What every federate keeps, whatever signals came.
    pub fn invariant(&self)
        ensures { IsNode self.now }
    {
        let _ = &self.plan;
    }

    /// Its history alone.
    pub fn into_rows(self) -> Rows
        ensures { result ≡ self.entry.federate.rows }
    {
        self.rows
    }

    /// The last tag that it ran, if it ran one.
    pub fn completed(&self) -> Option<FiniteTag>
        ensures { result ≡ self.now.federate.completed }
    {
        self.completed
    }

    /// Up to which tag it may run, if that was granted.
    pub fn granted(&self) -> Option<FiniteTag>
        ensures { result ≡ self.now.federate.granted }
    {
        self.granted
    }

    /// Whether `announce` would do nothing: what comes next was announced, and nothing was run since.
    pub fn has_announced(&self) -> bool
        ensures { IsTrue result ↔ (announces self.now ≡ Nothing) }
    {
        match self.announced {
            Some(told) => told == self.agenda.least(),
            None => false,
        }
    }

    /// Whether `advance` would do nothing: nothing is left to run, or what comes next isn't granted.
    pub fn is_waiting(&self) -> bool
        ensures { IsTrue result ↔ (advances self.now ≡ Nothing) }
    {
        self.due().is_none()
    }

    // The tag of the next turn, if it is granted.
    fn due(&self) -> Option<FiniteTag>
        ensures { result ≡ due_in self.now.federate }
    {
        self.agenda.invariant();
        let tag = FiniteTag::of(self.agenda.least())?;
        match self.granted {
            Some(granted) if tag <= granted => Some(tag),
            _ => None,
        }
    }

    // What a signal would change, or why it is refused.
    fn admit(&self, signal: Signal) -> Result<Change, Refusal>
        ensures outcome { MatchResult result
            (λ change. federate_accepts (network_at self.now) self.now.number self.now.federate signal ≡ Done (record { after = changed change self.now.federate; sent = [] }))
            (λ refusal. federate_accepts (network_at self.now) self.now.number self.now.federate signal
            ≡ Refused refusal) }
        ensures in_time { IfOk result (IsInTime (stop_of self.now.draft)) }
        ensures alone { IfOk result (λ change.
            IsFederate (network_at self.now) self.now.number (changed change self.now.federate)) }
    {
        self.invariant();
        match signal {
            Signal::Net(_) | Signal::Ltc(_) => Err(Refusal::WrongSignal),
            Signal::Tag(tag) => self.admit_grant(tag),
            Signal::Msg {
                connection,
                tag,
                value,
            } => self.admit_message(connection, tag, value),
        }
    }

    // The same of a TAG.
    fn admit_grant(&self, tag: FiniteTag) -> Result<Change, Refusal>
        ensures outcome { MatchResult result
            (λ change. accept_grant (network_at self.now) self.now.federate tag ≡ Done (record {
              after = changed change
                  self.now.federate;
              sent = [];
            }))
            (λ refusal. accept_grant (network_at self.now) self.now.federate tag ≡ Refused refusal) }
        ensures in_time { IfOk result (IsInTime (stop_of self.now.draft)) }
        ensures known { IsSignal (Signals.Tag tag) }
    {
        tag.invariant();
        if tag > self.plan.stop_tag() {
            return Err(Refusal::WrongSignal);
        }
        if !is_past(self.granted, tag.tag()) {
            return Err(Refusal::OldGrant);
        }
        Ok(Change::Grant(tag))
    }

    // The same of a message.
    fn admit_message(&self, connection: u16, tag: FiniteTag, value: i64) -> Result<Change, Refusal>
        ensures outcome { MatchResult result
            (λ change. accept_message (network_at self.now) self.now.number self.now.federate (slice_get (connections_of self.now.draft) connection) tag value ≡ Done (record { after = changed change self.now.federate; sent = [] }))
            (λ refusal. accept_message (network_at self.now) self.now.number self.now.federate
            (slice_get (connections_of self.now.draft) connection) tag value ≡ Refused refusal) }
        ensures in_time { IfOk result (IsInTime (stop_of self.now.draft)) }
        ensures known { IsSignal (Signals.Msg connection tag value) }
    {
        tag.invariant();
        let Some(connection) = self.connection(connection) else {
            return Err(Refusal::WrongSignal);
        };
        if !self.ends_here_in_time(connection, tag) {
            return Err(Refusal::WrongSignal);
        }
        if !self.is_ahead(tag) {
            return Err(Refusal::Late);
        }
        Ok(Change::Put(PendingEvent::new(tag, connection.slot(), value)))
    }

    // The connection of this number.
    fn connection(&self, number: u16) -> Option<Connection>
        ensures { result ≡ slice_get (connections_of self.now.draft) number }
    {
        self.plan.connections().get(usize::from(number)).copied()
    }

    // Whether a connection ends here, and the tag isn't later than stop.
    fn ends_here_in_time(&self, connection: Connection, tag: FiniteTag) -> bool
        ensures { result ≡ (nat_eq connection.target self.now.number && is_at_most tag (stop_of self.now.draft)) }
    {
        connection.target() == self.number && tag <= self.plan.stop_tag()
    }

    // Whether a tag is later than what is completed, and than what is granted.
    fn is_ahead(&self, tag: FiniteTag) -> bool
        ensures { result ≡ (is_past self.now.federate.completed tag && is_past self.now.federate.granted tag) }
    {
        is_past(self.completed, tag.tag()) && is_past(self.granted, tag.tag())
    }

    // Makes a change that was admitted.
    fn apply(&mut self, change: Change) -> Result<(), Memory>
        requires alone { IsFederate (network_at self.old) self.old.number (changed change self.old.federate) }
        requires in_time { IsInTime (stop_of self.old.draft) change }
        ensures ok { OnOk result (self.new ≡ record self.old { federate = changed change self.old.federate }) }
        ensures err { OnErr result (self.new ≡ self.old) }
    {
        match change {
            Change::Grant(tag) => self.granted = Some(tag),
            Change::Put(event) => {
                self.agenda.put_all(&[event])?;
            }
        }
        Ok(())
    }
}

impl<'a> Node for Federate<'a> {
    ghost use Rattle.std.specs.Prelude.{false};
    ghost use Rattle.node_cores.specs.FederateCore.{federate_core};
    ghost use Rattle.node_cores.proofs.GoingOn.{federates_go_on};

    type Row = Row;

    type Rows = Rows;

    ghost listed = { λ rows. rows };

    ghost HUB = { false };

    ghost core = { federate_core };

    fn accept(
        &mut self,
        _peer: usize,
        signal: Signal,
        _outbox: &mut Outbox,
    ) -> Result<bool, NodeFault> {
        match self.admit(signal) {
            Ok(change) => {
                self.apply(change)?;
                nothing_needs_no_room();
                Ok(true)
            }
            Err(refusal) => Err(NodeFault::Refused(refusal)),
        }
    }

    fn announce(&mut self, outbox: &mut Outbox) -> Result<bool, NodeFault> {
        self.invariant();
        if self.has_announced() {
            return Ok(false);
        }
        let next = self.agenda.least();
        let posts = [to_coordinator(Signal::Net(next))];
        outbox.reserve_all(&posts)?;
        outbox.put_all(&posts);
        self.announced = Some(next);
        Ok(true)
    }

    fn advance(&mut self, outbox: &mut Outbox) -> Result<bool, NodeFault> {
        self.invariant();
        let Some(tag) = self.due() else {
            return Ok(false);
        };
        prepare(
            &mut self.prepared,
            self.plan,
            &self.reactor,
            &self.agenda,
            &self.outlets,
            tag,
        )?;
        outbox.reserve_all(&self.prepared.posts)?;
        take_in(
            &mut self.agenda,
            &mut self.rows,
            self.number,
            tag,
            &self.prepared,
        )?;
        outbox.put_all(&self.prepared.posts);
        self.reactor.commit_from(&self.prepared.turn);
        self.completed = Some(tag);
        self.announced = None;
        Ok(true)
    }

    fn has_nothing_to_say(&self) -> bool {
        self.has_announced()
    }

    fn has_nothing_to_run(&self) -> bool {
        self.is_waiting()
    }

    fn is_coordinator(&self) -> bool {
        false
    }

    fn rows(&self) -> &Rows {
        &self.rows
    }

    fn finished(&self) -> bool {
        false
    }

    ghost goes_on = { federates_go_on };
}

impl<'a> Blank for Federate<'a> {
    fn blank(&self, alloc: Global) -> Result<Federate<'a>, node::Memory> {
        self.invariant();
        let blank = Federate::new(alloc, self.plan, self.programs, self.inputs, self.number)?;
        Ok(blank)
    }
}
