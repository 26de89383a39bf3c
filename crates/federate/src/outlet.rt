ghost use Rattle.std.specs.Prelude.{◌≡◌, IfOk};
ghost use Rattle.plan.specs.Federation.{connections_of};
ghost use Rattle.federate.specs.Outlets.{outlets_from};

use crate::memory::Memory;
use plan::Plan;
use plan_paths::Connection;
use std::alloc::Global;

/// A connection by which a federate sends, with its number in the plan.
#[derive(Clone, Copy)]
pub struct Outlet {
    pub number: u16,
    pub connection: Connection,
}

/// The connections that begin at a federate, by number.
pub fn outlets_of(alloc: Global, plan: &Plan, federate: usize) -> Result<Vec<Outlet>, Memory>
    ensures { IfOk result (λ outlets. outlets.items ≡ outlets_from federate 0 (connections_of plan.now)) }
{
    plan.invariant();
    let mut outlets = Vec::new(alloc);
    for (number, connection) in plan.connections().iter().enumerate() {
        if connection.source() == federate {
            outlets.push(Outlet {
                number: number as u16,
                connection: *connection,
            })?;
        }
    }
    Ok(outlets)
}
