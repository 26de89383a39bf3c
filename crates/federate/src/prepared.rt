ghost use Rattle.std.specs.Prelude.{◌≡◌, ◌<◌, ◌∷◌, ◌++◌, [], IsTrue, OnOk, OnErr};
ghost use Rattle.std.specs.List.{AllByRecursion};
ghost use Rattle.tag.specs.LogicalTime.{is_before};
ghost use Rattle.network.specs.Undone.{put_all, drop_up_to};
ghost use Rattle.reactor_agenda.specs.Agenda.{in_time};
ghost use Rattle.plan_slots.specs.Numbering.{slot_count};
ghost use Rattle.federate.specs.Turn.{IsPrepared};

use crate::memory::Memory;
use crate::messages::{add_messages, to_coordinator};
use crate::outlet::Outlet;
use crate::scheduled::add_scheduled;
use plan::Plan;
use protocol::Post;
use reactor::{Reactor, Rows, TurnRoom};
use reactor_agenda::{Agenda, PendingEvent};
use reactor_program::Entry;
use signal::Signal;
use std::alloc::Global;
use tag::FiniteTag;

/// What a turn makes, before anything changes, in room that is kept for the next one.
#[derive(Drop)]
pub struct Prepared {
    /// What is present, by slot.
    pub present: Vec<Entry>,
    pub turn: TurnRoom,
    /// What it schedules, as far as it isn't later than stop.
    pub scheduled: Vec<PendingEvent>,
    /// Its messages, and then its LTC.
    pub posts: Vec<Post>,
}

impl Prepared {
    /// With no room yet.
    pub fn new(alloc: Global) -> Prepared {
        Prepared {
            present: Vec::new(alloc),
            turn: TurnRoom::new(alloc),
            scheduled: Vec::new(alloc),
            posts: Vec::new(alloc),
        }
    }
}

/// Works out the turn at a tag. After `Memory` nothing is said of what was prepared.
pub fn prepare(
    prepared: &mut Prepared,
    plan: &Plan,
    reactor: &Reactor,
    agenda: &Agenda,
    outlets: &[Outlet],
    tag: FiniteTag,
) -> Result<(), Memory>
    requires { AllByRecursion (λ e. e.slot < slot_count reactor.now.behaviour.slots) agenda.now.undone }
    ensures { OnOk result (IsPrepared plan.now reactor.now agenda.now.undone outlets.now tag prepared.new) }
{
    agenda.at(tag.tag(), &mut prepared.present)?;
    reactor.run_in(&prepared.present, &mut prepared.turn)?;
    prepared.scheduled.clear();
    add_scheduled(
        &mut prepared.scheduled,
        plan,
        tag,
        prepared.turn.schedulings(),
    )?;
    prepared.posts.clear();
    add_messages(
        &mut prepared.posts,
        plan,
        outlets,
        tag,
        prepared.turn.outputs(),
    )?;
    prepared.posts.push(to_coordinator(Signal::Ltc(tag)))?;
    Ok(())
}

/// Takes a turn into what is pending and into the rows, both or neither. What it schedules is later than its tag.
pub fn take_in(
    agenda: &mut Agenda,
    rows: &mut Rows,
    federate: usize,
    tag: FiniteTag,
    prepared: &Prepared,
) -> Result<(), Memory>
    requires { AllByRecursion (λ e. IsTrue (is_before tag e.tag)) prepared.now.scheduled.items }
    ensures stop { agenda.new.stop ≡ agenda.old.stop }
    ensures pending { OnOk result (agenda.new.undone
        ≡ put_all (in_time agenda.old.stop prepared.now.scheduled.items) (drop_up_to tag agenda.old.undone)) }
    ensures rows { OnOk result (rows.new ≡ rows.old
        ++ record {
          reactor = federate;
          tag = tag;
          inputs = prepared.now.present.items;
          outputs = prepared.now.turn.outputs;
        } ∷ []) }
    ensures pending_unchanged { OnErr result (agenda.new.undone ≡ agenda.old.undone) }
    ensures rows_unchanged { OnErr result (rows.new ≡ rows.old) }
{
    agenda.invariant();
    let put = agenda.put_all(&prepared.scheduled)?;
    match rows.push(
        federate,
        tag.tag(),
        &prepared.present,
        prepared.turn.outputs(),
    ) {
        Ok(()) => {
            agenda.drop_at(tag.tag());
            Ok(())
        }
        Err(_) => {
            agenda.take_back(put);
            Err(Memory)
        }
    }
}
