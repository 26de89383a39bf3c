//! The stations of a federation, before the first step.
ghost use Rattle.std.specs.Prelude.{◌≡◌, ◌<◌, ◌^◌, ◌∷◌, [], map, IfOk};
ghost use Rattle.std.specs.List.{range_with_len};
ghost use Rattle.plan.specs.External.{AreInputsOf};
ghost use Rattle.plan.specs.Federation.{federate_count};
ghost use Rattle.reactor_programs.specs.Programs.{AreProgramsOf};
ghost use Rattle.world_stations.specs.Initial.{new_end, new_coordinator, new_federate, new_federates};

use coordinator::Coordinator;
use federate::Federate;
use link::LinkEnd;
use node::Station;
use plan::{Inputs, Plan};
use reactor_programs::Programs;
use std::alloc::Global;
use world_stations::{LINK_ROOM, Memory};

// A new end of a federate's link.
fn new_end(alloc: Global, federate: usize) -> LinkEnd
    requires { federate < 2 ^ 16 }
    ensures { result.image ≡ new_end federate }
{
    LinkEnd::new(alloc, federate as u16, 1, LINK_ROOM)
}

// The coordinator's ends, one for each federate.
fn new_ends(alloc: Global, plan: &Plan) -> Result<Vec<LinkEnd>, Memory>
    ensures { IfOk result (λ ends. map (λ e. e.image) ends.items
        ≡ map new_end (range_with_len 0 (federate_count plan.now))) }
{
    plan.invariant();
    let mut ends = Vec::new(alloc);
    for federate in 0..plan.federate_count() {
        ends.push(new_end(alloc, federate))?;
    }
    Ok(ends)
}

/// The coordinator's station.
pub fn new_coordinator<'a>(
    alloc: Global,
    plan: &'a Plan,
) -> Result<Station<Coordinator<'a>>, Memory>
    ensures { IfOk result (λ station. station ≡ new_coordinator plan.now) }
{
    let ends = new_ends(alloc, plan)?;
    let Ok(coordinator) = Coordinator::new(alloc, plan) else {
        return Err(Memory);
    };
    Ok(Station::new(alloc, coordinator, ends))
}

/// A federate's station.
pub fn new_federate<'a>(
    alloc: Global,
    plan: &'a Plan,
    programs: &'a Programs,
    inputs: &'a Inputs,
    number: usize,
) -> Result<Station<Federate<'a>>, Memory>
    requires programs { AreProgramsOf plan.now programs.now }
    requires inputs { AreInputsOf plan.now inputs.now }
    requires there { number < federate_count plan.now }
    ensures { IfOk result (λ station. station ≡ new_federate plan.now programs.now inputs.now number) }
{
    plan.invariant();
    let mut ends = Vec::with_capacity(alloc, 1)?;
    ends.push_reserved(new_end(alloc, number));
    let Ok(federate) = Federate::new(alloc, plan, programs, inputs, number) else {
        return Err(Memory);
    };
    Ok(Station::new(alloc, federate, ends))
}

/// All federates' stations, by number.
pub(crate) fn new_federates<'a>(
    alloc: Global,
    plan: &'a Plan,
    programs: &'a Programs,
    inputs: &'a Inputs,
) -> Result<Vec<Station<Federate<'a>>>, Memory>
    requires programs { AreProgramsOf plan.now programs.now }
    requires inputs { AreInputsOf plan.now inputs.now }
    ensures { IfOk result (λ stations. stations.items
        ≡ new_federates plan.now programs.now inputs.now (federate_count plan.now)) }
{
    let mut stations = Vec::new(alloc);
    for number in 0..plan.federate_count() {
        stations.push(new_federate(alloc, plan, programs, inputs, number)?)?;
    }
    Ok(stations)
}
