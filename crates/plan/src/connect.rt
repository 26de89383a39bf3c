ghost use Rattle.std.specs.Prelude.{◌≡◌, ◌<◌, ◌^◌, All, IfSome, IfOk, OnOk, IfErr};
ghost use Rattle.plan.specs.Federation.{connections_of, delay_after};
ghost use Rattle.plan.specs.Faults.{ArePortsThere, StandsIn};

use crate::PlanFault;
use crate::draft::Draft;
use crate::lookup::{found_input, found_output};
use plan_paths::Connection;
use plan_slots::Slots;
use std::alloc::Global;
use tag::{Delay, Time};

fn delay_after(after: Option<Time>) -> Delay
    ensures value { result ≡ delay_after after }
    ensures in_range { IfSome after (λ t. t < 2 ^ 62) }
{
    match after {
        None => Delay::none(),
        Some(time) => {
            // For the prover: the time is below 2^62 ns.
            let _nanoseconds = time.nanoseconds();
            Delay::after(time)
        }
    }
}

/// The connections by number, of a draft all of whose ports are there.
pub(crate) fn connect(alloc: Global, draft: &Draft) -> Result<Vec<Connection>, PlanFault>
    ensures value { IfOk result (λ connections. connections.items ≡ connections_of draft.now) }
    ensures there { OnOk result (ArePortsThere draft.now) }
    ensures delays { OnOk result (All (λ c. IfSome c.after (λ t. t < 2 ^ 62)) draft.now.connections) }
    ensures fault { IfErr result (StandsIn draft.now) }
{
    let federates = draft.federates.as_slice();
    let mut connections = Vec::new(alloc);
    for declared in draft.connections.as_slice() {
        let Some(from) = found_output(federates, &declared.from) else {
            return Err(PlanFault::UnknownName(declared.from.clone()?));
        };
        let Some(to) = found_input(federates, &declared.to) else {
            return Err(PlanFault::UnknownName(declared.to.clone()?));
        };
        let delay = delay_after(declared.after);
        connections.push(Connection::new(
            from.federate,
            from.place,
            to.federate,
            Slots::FIRST_INPUT + to.place,
            delay,
        ))?;
    }
    Ok(connections)
}
