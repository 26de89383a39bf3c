ghost use Rattle.std.specs.Prelude.{IfOk, IfErr};
ghost use Rattle.plan.specs.External.{AreInputsOf};
ghost use Rattle.reactor_programs.specs.Programs.{AreProgramsOf};
ghost use Rattle.recorder.specs.Audited.{IsProvedBy, HasEnded, IsUnproved};

use crate::audited_run::AuditedRun;
use crate::incremental::IncrementalAudit;
use node_journal::Journal;
use plan::{Inputs, Plan};
use reactor_programs::Programs;
use recorder_reports::{Report, Unproved, refuse_incomplete};
use std::alloc::Global;
use world_stations::Step;

/// Makes a world anew from what each node wrote down, and compares its rows with those of the reports. An Ok is the
/// list of its steps: nobody forgets in it, each node's events are its journal, and each federate's rows are those that
/// it reports. So they are a prefix of its part of what the undivided program computes, and all of it where the
/// coordinator's journal gives a finished one. In a run of honest nodes it takes time in proportion to the journals.
pub fn audit(
    alloc: Global,
    plan: &Plan,
    programs: &Programs,
    inputs: &Inputs,
    reports: &[Report],
    coordinator: &Journal,
) -> Result<Vec<Step>, Unproved>
    requires programs { AreProgramsOf plan.now programs.now }
    requires inputs { AreInputsOf plan.now inputs.now }
    ensures proved { IfOk result (λ steps.
        IsProvedBy (record {
          draft = plan.now;
          programs = programs.now;
          inputs = inputs.now;
          reports = reports.now;
          coordinator = coordinator.now;
        }) steps.items) }
    ensures unproved { IfErr result
        (IsUnproved (record {
          draft = plan.now;
          programs = programs.now;
          inputs = inputs.now;
          reports = reports.now;
          coordinator = coordinator.now;
        })) }
{
    match audit_run(alloc, plan, programs, inputs, reports, coordinator) {
        Ok(audited) => match audited.steps.after(0) {
            Ok(steps) => Ok(steps),
            Err(_) => Err(Unproved::Memory),
        },
        Err(fault) => Err(fault),
    }
}

/// The same audit, which also tells whether the coordinator's journal gives a finished one.
pub fn audit_run(
    alloc: Global,
    plan: &Plan,
    programs: &Programs,
    inputs: &Inputs,
    reports: &[Report],
    coordinator: &Journal,
) -> Result<AuditedRun, Unproved>
    requires programs { AreProgramsOf plan.now programs.now }
    requires inputs { AreInputsOf plan.now inputs.now }
    ensures ended { IfOk result (HasEnded
        (record {
          draft = plan.now;
          programs = programs.now;
          inputs = inputs.now;
          reports = reports.now;
          coordinator = coordinator.now;
        })) }
    ensures unproved { IfErr result
        (IsUnproved (record {
          draft = plan.now;
          programs = programs.now;
          inputs = inputs.now;
          reports = reports.now;
          coordinator = coordinator.now;
        })) }
{
    if let Err(fault) = refuse_incomplete(plan.federate_count(), reports) {
        return Err(fault);
    }
    IncrementalAudit::new(alloc, plan, programs, inputs)?.conclude_complete(
        alloc,
        reports,
        coordinator,
    )
}
