ghost use Rattle.std.specs.Prelude.{◌≡◌, [], ◌∷◌, OnOk, map};
ghost use Rattle.network.specs.Undone.{put_all, pending_event_of};
ghost use Rattle.plan.specs.External.{input_events_to};
ghost use Rattle.plan.specs.Federation.{stop_of};

use crate::memory::Memory;
use plan::{Input, Inputs, Plan};
use reactor_agenda::{Agenda, PendingEvent};

/// Puts the recorded inputs of a federate, up to stop.
pub fn put_recorded(
    agenda: &mut Agenda,
    plan: &Plan,
    inputs: &Inputs,
    federate: usize,
) -> Result<(), Memory>
    requires { agenda.old.stop ≡ stop_of plan.now }
    ensures stop { OnOk result (agenda.new.stop ≡ agenda.old.stop) }
    ensures pending { OnOk result (agenda.new.undone
        ≡ put_all (map pending_event_of (input_events_to plan.now inputs.now federate)) agenda.old.undone) }
{
    for input in inputs.as_slice() {
        put_own(agenda, plan, input, federate)?;
    }
    Ok(())
}

// Puts one of them, if it is the federate's.
fn put_own(agenda: &mut Agenda, plan: &Plan, input: &Input, federate: usize) -> Result<(), Memory>
    requires { agenda.old.stop ≡ stop_of plan.now }
    ensures stop { OnOk result (agenda.new.stop ≡ agenda.old.stop) }
    ensures pending { OnOk result (agenda.new.undone
        ≡ put_all (map pending_event_of (input_events_to plan.now (input.now ∷ []) federate)) agenda.old.undone) }
{
    let Some((target, slot)) = plan.recorded_at(input) else {
        return Ok(());
    };
    if target != federate {
        return Ok(());
    }
    agenda.put_all(&[PendingEvent::new(input.tag, slot, input.value)])?;
    Ok(())
}
