//! What is to be said of reports, once a search for their journals has ended.
ghost use Rattle.std.specs.Prelude.{◌≡◌, ℕ, ◌<◌, ◌≤◌, List, length, IfOk, IfErr, MatchOption};
ghost use Rattle.plan.specs.External.{AreInputsOf};
ghost use Rattle.plan.specs.Federation.{federate_count};
ghost use Rattle.plan.specs.Legal.{IsLegal};
ghost use Rattle.reactor_programs.specs.Programs.{AreProgramsOf};
ghost use Rattle.node_cores.specs.CoordinatorCore.{coordinator_core};
ghost use Rattle.world_stations.specs.Federation.{rows_in};
ghost use Rattle.recorder_search.specs.declared.found.Found.TheVariants as Ends;
ghost use Rattle.world.specs.World.{stations_of};
ghost use Rattle.recorder_reports.specs.Reports.{how_many, reported_rows, AreComplete};
ghost use Rattle.recorder_reports.specs.Difference.{DifferAt};
ghost use Rattle.recorder.specs.Audited.{HasReportedRows, IsFirstApart, HasEnded, IsUnproved, HasSearched, claim_of};
ghost use Rattle.node.specs.declared.event.Event.{Event};

use crate::audited_run::AuditedRun;
use recorder_reports::{Report, Unproved, first_difference, report_of};
use recorder_search::Found;
use world::World;

/// What is to be said of complete reports, in the world in which a search for their journals ended, whatever the
/// coordinator's is.
pub(crate) fn judge(
    world: World<'_>,
    reports: &[Report],
    found: Found,
) -> Result<AuditedRun, Unproved>
    requires federation { IsLegal world.draft × AreProgramsOf world.draft world.programs
        × AreInputsOf world.draft world.inputs }
    requires complete { AreComplete (federate_count world.draft) reports.now }
    ensures ended { IfOk result (λ audited. (coordinator : List Event)
        → HasSearched (claim_of world.entry reports.now coordinator) world.entry found
        → HasEnded (claim_of world.entry reports.now coordinator) audited) }
    ensures unproved { IfErr result
        (λ fault. (coordinator : List Event)
        → HasSearched (claim_of world.entry reports.now coordinator) world.entry found
        → IsUnproved (claim_of world.entry reports.now coordinator) fault) }
{
    match fault_of(&world, reports, found) {
        Some(fault) => Err(fault),
        None => Ok(run_of(world)),
    }
}

// Why the reports aren't believed, after a search that ended so in this world.
fn fault_of(world: &World<'_>, reports: &[Report], found: Found) -> Option<Unproved>
    requires federation { IsLegal world.now.draft × AreProgramsOf world.now.draft world.now.programs
        × AreInputsOf world.now.draft world.now.inputs }
    requires complete { AreComplete (federate_count world.now.draft) reports.now }
    ensures { MatchOption result ((found ≡ Ends.All)
        × ((j : ℕ) → j < federate_count world.now.draft → HasReportedRows world.now reports.now j))
        (λ fault. (coordinator : List Event) → HasSearched (claim_of world.now reports.now coordinator) world.now found
        → IsUnproved (claim_of world.now reports.now coordinator) fault) }
{
    match found {
        Found::Stuck(node, event) => Some(Unproved::Stuck(node, event)),
        Found::All => match first_apart(world, reports) {
            Some((federate, row)) => Some(Unproved::Mismatch(federate, row)),
            None => None,
        },
    }
}

// A world's steps, and whether the coordinator is finished there.
fn run_of(world: World<'_>) -> AuditedRun
    ensures steps { result.steps.steps ≡ world.entry.steps }
    ensures finished { result.is_finished ≡ coordinator_core.finished (stations_of world.entry).coordinator.node }
{
    let is_finished = world.finished();
    AuditedRun {
        steps: world.into_steps(),
        is_finished,
    }
}

// The first federate whose rows aren't those that it reports, and the first place, counted from 1, at which they
// differ.
fn first_apart(world: &World<'_>, reports: &[Report]) -> Option<(usize, usize)>
    requires sized { length (stations_of world.now).federates ≡ federate_count world.now.draft }
    requires reported { (j : ℕ) → j < federate_count world.now.draft → 1 ≤ how_many reports.now j }
    ensures { MatchOption result ((j : ℕ) → j < federate_count world.now.draft
        → HasReportedRows world.now reports.now j) (λ found. IsFirstApart world.now reports.now found.0 found.1) }
{
    for federate in 0..world.federate_count() {
        if let Some(row) = difference_at(world, reports, federate) {
            return Some((federate, row));
        }
    }
    None
}

// The first place, counted from 1, at which a federate's rows and those that it reports differ.
fn difference_at(world: &World<'_>, reports: &[Report], federate: usize) -> Option<usize>
    requires there { federate < length (stations_of world.now).federates }
    requires reported { 1 ≤ how_many reports.now federate }
    ensures { MatchOption result (HasReportedRows world.now reports.now federate)
        (DifferAt (reported_rows reports.now federate) (rows_in (stations_of world.now) federate)) }
{
    let Some(report) = report_of(reports, federate) else {
        return None;
    };
    let Some(rows) = world.rows(federate) else {
        return None;
    };
    first_difference(&report.rows, rows)
}
