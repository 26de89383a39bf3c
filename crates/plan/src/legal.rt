ghost use Rattle.std.specs.Prelude.{◌≡◌, ◌<◌, length, OnOk, IfOk, IfErr};
ghost use Rattle.plan.specs.Federation.{connections_of};
ghost use Rattle.plan.specs.Legal.{IsLegal};
ghost use Rattle.plan.specs.Faults.{IsWithinAllLimits, AreTimersInRange, StandsIn};

use crate::PlanFault;
use crate::connect::connect;
use crate::cycle::refuse_cycle;
use crate::draft::Draft;
use crate::limits::refuse_out_of_range;
use crate::repeated::refuse_repeated;
use crate::sources::refuse_two_sources;
use plan_paths::Connection;
use std::alloc::Global;

/// The connections of a legal draft, by number. For any other draft it answers one of its faults.
pub(crate) fn legal_connections(alloc: Global, draft: &Draft) -> Result<Vec<Connection>, PlanFault>
    ensures value { IfOk result (λ connections. connections.items ≡ connections_of draft.now) }
    ensures legal { OnOk result (IsLegal draft.now) }
    ensures fault { IfErr result (StandsIn draft.now) }
    ensures memory { IfErr result (λ e. e ≡ PlanFault.Memory
        → (0 < length draft.now.federates) × IsWithinAllLimits draft.now × AreTimersInRange draft.now) }
{
    refuse_out_of_range(draft)?;
    refuse_repeated(alloc, draft)?;
    let connections = connect(alloc, draft)?;
    refuse_two_sources(draft, connections.as_slice())?;
    refuse_cycle(alloc, draft, connections.as_slice())?;
    // For the prover: the stop time is below 2^62 ns.
    let _nanoseconds = draft.stop.nanoseconds();
    Ok(connections)
}
