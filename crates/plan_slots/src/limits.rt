ghost use Rattle.std.specs.Prelude.{◌↔◌, IsTrue};
ghost use Rattle.plan_slots.specs.Limits.{IsWithinLimits, IsTimerInRange};

use crate::slots::{Slots, Timer};
use tag::Time;

/// Of each kind, for each federate.
pub const MOST_SLOTS: usize = 32;

/// Whether a federate has not too many of each kind of slot.
pub fn is_within_limits(slots: &Slots) -> bool
    ensures { IsTrue result ↔ IsWithinLimits slots.now }
{
    slots.inputs.as_slice().len() <= MOST_SLOTS
        && slots.outputs.as_slice().len() <= MOST_SLOTS
        && slots.timers.as_slice().len() <= MOST_SLOTS
        && slots.actions.as_slice().len() <= MOST_SLOTS
        && slots.physical.as_slice().len() <= MOST_SLOTS
}

/// Whether a timer's times are below 2^62 ns.
pub fn is_in_range(timer: &Timer) -> bool
    ensures { IsTrue result ↔ IsTimerInRange timer.now }
{
    Time::new(timer.offset).is_some() && Time::new(timer.period).is_some()
}
