//! A node, looked at again: what its own files and its journal make of it, and nothing else. A contract can't say what
//! lay under a lock while threads ran; of what is saved it says so all the same.
ghost use Rattle.std.specs.Prelude.{◌≡◌, ◌<◌, true, false, IfOk};
ghost use Rattle.plan.specs.External.{AreInputsOf};
ghost use Rattle.plan.specs.Federation.{federate_count};
ghost use Rattle.reactor_programs.specs.Programs.{AreProgramsOf};
ghost use Rattle.node_cores.specs.CoordinatorCore.{coordinator_core};
ghost use Rattle.node_cores.specs.FederateCore.{federate_core};
ghost use Rattle.world_stations.specs.Initial.{new_coordinator, new_federate};
ghost use Rattle.desk.specs.Replay.{after_all};

use coordinator::Coordinator;
use desk::{Desk, Memory};
use federate::Federate;
use fedrun_files::Sources;
use fedrun_run::{coordinator_desk, federate_desk};
use node_journal::Journal;
use plan::Plan;
use std::alloc::Global;

/// The coordinator's desk, after this journal.
pub fn replayed_coordinator(
    alloc: Global,
    plan: &Plan,
    journal: Journal,
) -> Result<Desk<Coordinator<'_>>, Memory>
    ensures { IfOk result (λ desk. desk ≡ record {
      station = after_all coordinator_core true (new_coordinator plan.now) journal;
      journal = journal;
    }) }
{
    let desk = coordinator_desk(alloc, plan)?;
    desk.with_journal(journal)
}

/// The desk of the federate of this number, after this journal.
pub fn replayed_federate(
    alloc: Global,
    sources: &Sources,
    number: usize,
    journal: Journal,
) -> Result<Desk<Federate<'_>>, Memory>
    requires programs { AreProgramsOf sources.now.plan sources.now.programs }
    requires inputs { AreInputsOf sources.now.plan sources.now.inputs }
    requires there { number < federate_count sources.now.plan }
    ensures { IfOk result (λ desk. desk ≡ record {
      station = after_all federate_core false
          (new_federate sources.now.plan sources.now.programs sources.now.inputs number) journal;
      journal = journal;
    }) }
{
    let desk = federate_desk(
        alloc,
        &sources.plan,
        &sources.programs,
        &sources.inputs,
        number,
    )?;
    desk.with_journal(journal)
}
