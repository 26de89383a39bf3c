//! The desks of a federation's nodes, before any event: those of the stations of its world before the first step.
ghost use Rattle.std.specs.Prelude.{◌≡◌, ◌<◌, [], length, vec_len, IfOk};
ghost use Rattle.plan.specs.Federation.{federate_count};
ghost use Rattle.plan.specs.External.{AreInputsOf};
ghost use Rattle.reactor_programs.specs.Programs.{AreProgramsOf};
ghost use Rattle.world_stations.specs.Initial.{new_coordinator, new_federate};
ghost use Rattle.fedrun_run.specs.Desks.{unused, unused_federates};

use coordinator::Coordinator;
use desk::{Desk, Memory};
use federate::Federate;
use plan::{Inputs, Plan};
use reactor_programs::Programs;
use std::alloc::Global;
use world::{new_coordinator, new_federate};

/// The coordinator's desk: its station is that of the plan's world before the first step.
#[tactic(auto, using(crate::proofs::Unused::coordinator_unused))]
pub fn coordinator_desk(alloc: Global, plan: &Plan) -> Result<Desk<Coordinator<'_>>, Memory>
    ensures initial { IfOk result (λ desk. desk ≡ unused (new_coordinator plan.now)) }
    ensures journal { IfOk result (λ desk. desk.journal ≡ []) }
    ensures ends { IfOk result (λ desk. length desk.station.ends ≡ federate_count plan.now) }
{
    match new_coordinator(alloc, plan) {
        Ok(station) => Ok(Desk::new(alloc, station)),
        Err(_) => Err(Memory),
    }
}

/// The federates' desks, by number: their stations are those of the world before the first step.
pub fn federate_desks<'a>(
    alloc: Global,
    plan: &'a Plan,
    programs: &'a Programs,
    inputs: &'a Inputs,
) -> Result<Vec<Desk<Federate<'a>>>, Memory>
    requires programs { AreProgramsOf plan.now programs.now }
    requires inputs { AreInputsOf plan.now inputs.now }
    ensures initial { IfOk result (λ desks. desks.items
        ≡ unused_federates plan.now programs.now inputs.now (federate_count plan.now)) }
    ensures each { IfOk result (λ desks. vec_len desks ≡ federate_count plan.now) }
{
    let mut desks = Vec::new(alloc);
    for number in 0..plan.federate_count() {
        desks.push(federate_desk(alloc, plan, programs, inputs, number)?)?;
    }
    Ok(desks)
}

/// A federate's desk: its station is that of the world before the first step.
#[tactic(auto, using(crate::proofs::Unused::federate_unused))]
pub fn federate_desk<'a>(
    alloc: Global,
    plan: &'a Plan,
    programs: &'a Programs,
    inputs: &'a Inputs,
    number: usize,
) -> Result<Desk<Federate<'a>>, Memory>
    requires programs { AreProgramsOf plan.now programs.now }
    requires inputs { AreInputsOf plan.now inputs.now }
    requires there { number < federate_count plan.now }
    ensures { IfOk result (λ desk. desk ≡ unused (new_federate plan.now programs.now inputs.now number)) }
{
    match new_federate(alloc, plan, programs, inputs, number) {
        Ok(station) => Ok(Desk::new(alloc, station)),
        Err(_) => Err(Memory),
    }
}
