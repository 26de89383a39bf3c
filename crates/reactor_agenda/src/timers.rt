ghost use Rattle.std.specs.Prelude.{◌≡◌, ◌+◌, ◌<◌, ◌^◌, All, IfOk, length, map};
ghost use Rattle.std.specs.List.{AllByRecursion};
ghost use Rattle.network.specs.Undone.{drop_up_to};
ghost use Rattle.plan.specs.External.{firing_count};
ghost use Rattle.plan_slots.specs.Limits.{IsTimerInRange};
ghost use Rattle.plan_slots.specs.Numbering.{first_timer};
ghost use Rattle.reactor_agenda.specs.Invariant.{all_firings, first_firing, timers_from, IsTimer};

use crate::firings::{Firings, later_than, next_tag};
use crate::memory::Memory;
use plan::{Slots, Timer};
use std::alloc::Global;
use tag::{Tag, Time, lesser};

/// The timers of a federate, before any firing.
pub fn timers_of(alloc: Global, slots: &Slots, stop: Time) -> Result<Vec<Firings>, Memory>
    ensures { IfOk result (λ timers. timers.items ≡ timers_from stop (first_timer slots.now) slots.now.timers) }
{
    let stop = stop.nanoseconds();
    let first = slots.first_timer();
    let mut timers = Vec::new(alloc);
    for (place, timer) in slots.timers.as_slice().iter().enumerate() {
        timers.push(Firings {
            slot: first + place,
            next: timer.offset,
            period: timer.period,
            left: firing_count(stop, timer),
        })?;
    }
    Ok(timers)
}

// How often a timer fires up to stop.
fn firing_count(stop: u64, timer: &Timer) -> u64
    requires { stop < 2 ^ 62 }
    ensures { result ≡ firing_count stop timer.now }
{
    if timer.offset > stop {
        0
    } else if timer.period == 0 {
        1
    } else {
        (stop - timer.offset) / timer.period + 1
    }
}

/// The tag of the least firing that is left, or FOREVER where there is none.
pub fn first_firing(timers: &[Firings]) -> Tag
    requires { AllByRecursion IsTimer timers.now }
    ensures { result ≡ first_firing timers.now }
{
    let mut first = Tag::FOREVER;
    for place in (0..timers.len()).rev() {
        first = lesser(next_tag(timers[place]), first);
    }
    first
}

/// Lets go of the firings up to a tag.
pub fn drop_firings(timers: &mut [Firings], tag: Tag)
    requires { AllByRecursion IsTimer timers.old }
    ensures timers { AllByRecursion IsTimer timers.new }
    ensures firings { all_firings timers.new ≡ drop_up_to tag (all_firings timers.old) }
    ensures len { length timers.new ≡ length timers.old }
{
    for place in 0..timers.len() {
        timers[place] = later_than(timers[place], tag);
    }
}
