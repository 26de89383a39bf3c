ghost use Rattle.std.specs.Prelude.{◌≡◌, ◌≤◌, length, AllPairs, OnOk, IfErr};
ghost use Rattle.plan.specs.Federation.{connections_of};
ghost use Rattle.plan.specs.declared.limits.TheConstants.{MOST_CONNECTIONS};
ghost use Rattle.network.specs.Lawful.{HaveDifferentEnds};
ghost use Rattle.plan.specs.Faults.{ArePortsThere, StandsIn};

use crate::PlanFault;
use crate::draft::Draft;
use plan_paths::{Connection, second_source};

/// Refuses a draft, whose connections by number these are, in which a port has two sources.
pub(crate) fn refuse_two_sources(draft: &Draft, connections: &[Connection]) -> Result<(), PlanFault>
    requires value { connections.now ≡ connections_of draft.now }
    requires there { ArePortsThere draft.now }
    requires few { length draft.now.connections ≤ MOST_CONNECTIONS }
    ensures ok { OnOk result (AllPairs HaveDifferentEnds connections.now) }
    ensures fault { IfErr result (StandsIn draft.now) }
{
    match second_source(connections) {
        None => Ok(()),
        Some(place) => {
            let declared = draft.connections.as_slice();
            Err(PlanFault::TwoSources(declared[place].to.clone()?))
        }
    }
}
