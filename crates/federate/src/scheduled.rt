ghost use Rattle.std.specs.Prelude.{◌≡◌, ◌++◌, [], ◌∷◌, map, filter, OnOk};
ghost use Rattle.tag.specs.LogicalTime.{is_at_most};
ghost use Rattle.plan.specs.Federation.{stop_of};
ghost use Rattle.protocol.specs.Federate.{scheduled_at};

use crate::memory::Memory;
use crate::messages::in_time;
use plan::Plan;
use reactor::Scheduling;
use reactor_agenda::PendingEvent;
use tag::FiniteTag;

/// Adds what a turn schedules, as far as it isn't later than stop.
pub fn add_scheduled(
    scheduled: &mut Vec<PendingEvent>,
    plan: &Plan,
    tag: FiniteTag,
    schedulings: &[Scheduling],
) -> Result<(), Memory>
    ensures { OnOk result (scheduled.new.items ≡ scheduled.old.items
        ++ filter (λ e. is_at_most e.tag (stop_of plan.now)) (map (scheduled_at tag) schedulings.now)) }
{
    for scheduling in schedulings {
        add_one(scheduled, plan, tag, *scheduling)?;
    }
    Ok(())
}

// Adds one of them.
fn add_one(
    scheduled: &mut Vec<PendingEvent>,
    plan: &Plan,
    tag: FiniteTag,
    scheduling: Scheduling,
) -> Result<(), Memory>
    ensures { OnOk result (scheduled.new.items ≡ scheduled.old.items
        ++ filter (λ e. is_at_most e.tag (stop_of plan.now)) (scheduled_at tag scheduling ∷ [])) }
{
    if let Some(at) = in_time(tag, scheduling.delay(), plan.stop_tag()) {
        scheduled.push(PendingEvent::new(at, scheduling.slot(), scheduling.value()))?;
    }
    Ok(())
}
