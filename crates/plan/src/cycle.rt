ghost use Rattle.std.specs.Prelude.{◌≡◌, ◌<◌, map, length, slice_get, All, IfOk, OnOk, IfErr};
ghost use Rattle.plan_paths.specs.Cycles.{HasNoZeroDelayCycle};
ghost use Rattle.plan.specs.Federation.{connections_of, federate_names};
ghost use Rattle.plan.specs.Faults.{IsCycleRefusal};

use crate::PlanFault;
use crate::draft::{Draft, Federate};
use plan_names::Names;
use plan_paths::{Connection, lowest_cycle};
use std::alloc::{AllocError, Global};

// The names of the federates from which these connections go.
fn names_along(
    alloc: Global,
    federates: &[Federate],
    path: &[Connection],
) -> Result<Names, AllocError>
    requires { All (λ c. c.source < length federates.now) path.now }
    ensures { IfOk result (λ names. map (λ name. Some name) names
        ≡ map (λ c. slice_get (federate_names federates.now) c.source) path.now) }
{
    let mut names = Vec::new(alloc);
    for connection in path {
        names.push(federates[connection.source()].name.clone()?)?;
    }
    Ok(Names::new(names))
}

/// Refuses a draft with a zero-delay cycle; these are its connections by number.
pub(crate) fn refuse_cycle(
    alloc: Global,
    draft: &Draft,
    connections: &[Connection],
) -> Result<(), PlanFault>
    requires { connections.now ≡ connections_of draft.now }
    ensures ok { OnOk result (HasNoZeroDelayCycle connections.now) }
    ensures fault { IfErr result (IsCycleRefusal draft.now) }
{
    let federates = draft.federates.as_slice();
    match lowest_cycle(alloc, connections, federates.len())? {
        None => Ok(()),
        Some(path) => {
            let names = names_along(alloc, federates, path.as_slice())?;
            Err(PlanFault::ZeroDelayCycle(names))
        }
    }
}
