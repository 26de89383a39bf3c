ghost use Rattle.std.specs.Prelude.{◌≡◌, ◌<◌, ◌↔◌, length, IsTrue, All, OnOk, IfErr};
ghost use Rattle.plan_slots.specs.Limits.{IsWithinLimits, IsTimerInRange};
ghost use Rattle.plan.specs.Faults.{IsWithinAllLimits, AreTimersInRange, StandsIn};

use crate::PlanFault;
use crate::draft::{Draft, Federate};
use network::limits::MOST_REACTORS;
use plan_slots::Timer;
use plan_slots::limits::{is_in_range, is_within_limits};

/// Each is a reactor of the network.
pub const MOST_FEDERATES: usize = MOST_REACTORS;

pub const MOST_CONNECTIONS: usize = 1024;

fn are_slots_within_limits(federates: &[Federate]) -> bool
    ensures { IsTrue result ↔ All (λ f. IsWithinLimits f.slots) federates.now }
{
    federates.iter().all(|f| is_within_limits(&f.slots))
}

// Whether all limits hold.
fn is_within_all_limits(draft: &Draft) -> bool
    ensures { IsTrue result ↔ IsWithinAllLimits draft.now }
{
    let federates = draft.federates.as_slice();
    federates.len() <= MOST_FEDERATES
        && draft.connections.as_slice().len() <= MOST_CONNECTIONS
        && are_slots_within_limits(federates)
}

fn are_in_range(timers: &[Timer]) -> bool
    ensures { IsTrue result ↔ All IsTimerInRange timers.now }
{
    timers.iter().all(is_in_range)
}

// Whether all timers are in range.
fn are_timers_in_range(draft: &Draft) -> bool
    ensures { IsTrue result ↔ AreTimersInRange draft.now }
{
    draft
        .federates
        .as_slice()
        .iter()
        .all(|f| are_in_range(f.slots.timers.as_slice()))
}

/// Refuses a draft with no federate, with too much of anything, or with a timer out of range.
pub(crate) fn refuse_out_of_range(draft: &Draft) -> Result<(), PlanFault>
    ensures some { OnOk result (0 < length draft.now.federates) }
    ensures limits { OnOk result (IsWithinAllLimits draft.now) }
    ensures timers { OnOk result (AreTimersInRange draft.now) }
    ensures fault { IfErr result (StandsIn draft.now) }
    ensures memory { IfErr result (λ e. ¬ (e ≡ PlanFault.Memory)) }
{
    if draft.federates.as_slice().is_empty() {
        return Err(PlanFault::NoFederate);
    }
    if !is_within_all_limits(draft) {
        return Err(PlanFault::OverLimit);
    }
    if !are_timers_in_range(draft) {
        return Err(PlanFault::BadTimer);
    }
    Ok(())
}
