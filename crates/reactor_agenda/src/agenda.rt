ghost use Rattle.std.specs.Prelude.{◌≡◌, ℕ, ◌<◌, All, IfOk, OnOk, OnErr};
ghost use Rattle.std.specs.List.{AllByRecursion};
ghost use Rattle.tag.specs.LogicalTime.{origin};
ghost use Rattle.network.specs.Event.{listed, value_at};
ghost use Rattle.network.specs.Undone.{put_all, look, drop_up_to};
ghost use Rattle.reactor_agenda.specs.Invariant.{startup_in};
ghost use Rattle.plan_slots.specs.Limits.{IsTimerInRange, IsWithinLimits};

use crate::firings::Firings;
use crate::key::Key;
use crate::memory::Memory;
use crate::ordered::Puts;
use crate::pending_event::PendingEvent;
use crate::present::{add_firings, add_puts};
use crate::puts::{drop_puts, put_in_time, undo_each};
use crate::timers::{drop_firings, first_firing, timers_of};
use crate::undo::Undo;
use plan::Slots;
use reactor_program::Entry;
use std::alloc::Global;
use std::marker::Model;
use std::mem;
use tag::{FiniteTag, Tag, Time, lesser};

/// What `put_all` gives, and `take_back` takes.
#[derive(Debug, Drop)]
pub struct Put(());

/// One federate's events that are still pending, up to stop. Of each timer it keeps the next firing alone.
#[derive(Drop)]
pub struct Agenda {
    stop: FiniteTag,
    puts: Puts,
    timers: Vec<Firings>,
    /// The tag of the least firing that is left, or FOREVER where there is none.
    next_firing: Tag,
    /// What takes back the last `put_all`.
    undos: Vec<Undo>,
    /// Room for those of the next.
    spare: Vec<Undo>,
}

impl Model for Agenda {
    ghost use Rattle.reactor_agenda.specs.Agenda.{Agenda as AgendaOf};
    ghost use Rattle.reactor_agenda.specs.Invariant.{undone_of, undo_all, IsKept};

    ghost Value = { AgendaOf };

    ghost view = { λ a. record {
      stop = a.stop;
      undone = undone_of a.puts a.timers.items;
      before = undone_of
          (undo_all a.undos.items a.puts) a.timers.items;
    } };

    ghost invariant = { λ a. IsKept a.stop a.puts (undo_all a.undos.items a.puts) a.timers.items a.next_firing };
}

impl Agenda {
    ghost use Rattle.reactor_agenda.specs.Agenda.{own_undone, in_time, present_in, least_in, IsAgenda};

    /// With what the slots bring by themselves, up to stop: startup, where it is asked for, and the firings of timers.
    pub fn new(alloc: Global, slots: &Slots, stop: FiniteTag) -> Result<Agenda, Memory>
        requires limits { IsWithinLimits slots.now }
        requires timers { All IsTimerInRange slots.now.timers }
        ensures { IfOk result (λ agenda. agenda
            ≡ record { stop = stop; undone = own_undone stop slots.now; before = own_undone stop slots.now }) }
    {
        let puts = startup_of(alloc, slots.startup)?;
        stop.invariant();
        let timers = timers_of(alloc, slots, stop.time())?;
        let next_firing = first_firing(timers.as_slice());
        Ok(Agenda {
            stop,
            puts,
            timers,
            next_firing,
            undos: Vec::new(alloc),
            spare: Vec::new(alloc),
        })
    }

    /// What every agenda keeps.
    pub fn invariant(&self)
        ensures { IsAgenda self.now }
    {
        self.puts.in_order();
        self.stop.invariant();
    }

    /// Puts events one after the other, all or none; one for a slot that has a value at its tag replaces it, and one
    /// later than stop is dropped.
    #[inline(always)]
    pub fn put_all(&mut self, events: &[PendingEvent]) -> Result<Put, Memory>
        ensures put { OnOk result (self.new
            ≡ record self.old {
              undone = put_all (in_time self.old.stop events.now) self.old.undone;
              before = self.old.undone;
            }) }
        ensures err { OnErr result (self.new ≡ self.old) }
    {
        self.puts.in_order();
        put_in_time(&mut self.puts, &mut self.spare, self.stop, events)?;
        mem::swap(&mut self.undos, &mut self.spare);
        Ok(Put(()))
    }

    /// Undoes the last `put_all`, where nothing was dropped since. It needs no memory.
    pub fn take_back(&mut self, _put: Put)
        ensures { self.new ≡ record self.old { undone = self.old.before } }
    {
        undo_each(&mut self.puts, &mut self.undos);
    }

    /// The tag of the next event, or FOREVER where nothing is left.
    pub fn least(&self) -> Tag
        ensures { result ≡ least_in self.now.undone }
    {
        self.puts.in_order();
        lesser(self.puts.first_tag(), self.next_firing)
    }

    /// Writes what is present at a tag over what was in `entries`, by slot, for `Reactor::run`. It takes memory only
    /// where `entries` grows; after `Memory` nothing is said of them. It goes over all that is pending up to the tag,
    /// so ask for none after `least`.
    pub fn at(&self, tag: Tag, entries: &mut Vec<Entry>) -> Result<(), Memory>
        ensures entries { OnOk result (entries.new.items ≡ present_in self.now.undone tag) }
        ensures inputs { OnOk result ((slot : ℕ) → value_at entries.new.items slot ≡ look self.now.undone tag slot) }
        ensures listed { OnOk result ((count : ℕ) → AllByRecursion (λ e. e.slot < count) self.now.undone
            → entries.new.items ≡ listed count (look self.now.undone tag)) }
    {
        entries.clear();
        add_firings(entries, self.timers.as_slice(), tag)?;
        add_puts(entries, &self.puts, tag)?;
        Ok(())
    }

    /// Lets go of all up to a tag, which then can't be taken back. It needs no memory.
    pub fn drop_at(&mut self, tag: Tag)
        ensures { self.new ≡ record {
          stop = self.old.stop;
          undone = drop_up_to tag self.old.undone;
          before = drop_up_to
              tag self.old.undone;
        } }
    {
        self.undos.clear();
        drop_puts(&mut self.puts, tag);
        drop_firings(self.timers.as_mut_slice(), tag);
        self.next_firing = first_firing(self.timers.as_slice());
    }
}

// Where startup stands.
fn startup() -> Key
    ensures { result ≡ record { tag = origin; slot = 0 } }
{
    Key {
        tag: FiniteTag::new(Time::zero(), 0),
        slot: 0,
    }
}

// Startup, where it is asked for.
fn startup_of(alloc: Global, wanted: bool) -> Result<Puts, Memory>
    ensures { IfOk result (λ puts. puts ≡ startup_in wanted) }
{
    let mut puts = Puts::new(alloc);
    if !wanted {
        return Ok(puts);
    }
    puts.insert(startup(), 0)?;
    Ok(puts)
}
