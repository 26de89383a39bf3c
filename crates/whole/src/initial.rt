ghost use Rattle.std.specs.Prelude.{◌≡◌, ℕ, length, IfOk, OnOk, List, [], ◌∷◌, ◌++◌};
ghost use Rattle.plan.specs.declared.input.Input.{Input as InputOf};
ghost use Rattle.plan.specs.External.{external_of};
ghost use Rattle.plan.specs.Federation.{federate_count};
ghost use Rattle.plan.specs.Legal.{IsLegal};
ghost use Rattle.whole.specs.Initial.{AreOpenWith};

use plan::{Input, Inputs, Plan};
use reactor::Memory;
use reactor_agenda::{Agenda, PendingEvent};
use std::alloc::Global;

/// An agenda for each federate, with its startup and the firings of its timers.
pub fn initial_agendas(alloc: Global, plan: &Plan) -> Result<Vec<Agenda>, Memory>
    ensures { IfOk result (λ agendas. AreOpenWith plan.now [] agendas.items) }
{
    // For the prover: the plan is legal.
    plan.invariant();
    let stop = plan.stop_tag();
    let mut agendas = Vec::new(alloc);
    for federate in plan.federates() {
        let agenda = match Agenda::new(alloc, &federate.slots, stop) {
            Ok(agenda) => agenda,
            Err(_) => return Err(Memory),
        };
        // For the prover: what is pending is in order, up to stop.
        agenda.invariant();
        agendas.push(agenda)?;
    }
    Ok(agendas)
}

/// Puts the recorded inputs.
pub fn put_inputs(
    alloc: Global,
    agendas: &mut [Agenda],
    plan: &Plan,
    inputs: &Inputs,
) -> Result<(), Memory>
    requires { AreOpenWith plan.now [] agendas.old }
    ensures { OnOk result (AreOpenWith plan.now inputs.now agendas.new) }
{
    let mut events = Vec::new(alloc);
    for input in inputs.as_slice() {
        put_input(agendas, &mut events, plan, input)?;
    }
    Ok(())
}

// Puts a recorded input, if its action is there. `events` is room.
fn put_input(
    agendas: &mut [Agenda],
    events: &mut Vec<PendingEvent>,
    plan: &Plan,
    input: &Input,
) -> Result<(), Memory>
    requires { length agendas.old ≡ federate_count plan.now }
    ensures { OnOk result ((inputs : List InputOf) → AreOpenWith plan.now inputs agendas.old
        → AreOpenWith plan.now (inputs ++ input.now ∷ []) agendas.new) }
{
    let Some((federate, slot)) = plan.recorded_at(input) else {
        return Ok(());
    };
    events.clear();
    events.push(PendingEvent::new(input.tag, slot, input.value))?;
    let agenda = &mut agendas[federate];
    match agenda.put_all(events.as_slice()) {
        Ok(_put) => {
            // For the prover: what is pending is in order, up to stop.
            agenda.invariant();
            Ok(())
        }
        Err(_) => Err(Memory),
    }
}
