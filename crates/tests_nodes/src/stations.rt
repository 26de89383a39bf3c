//! The stations of a federation of two, before any event.
ghost use Rattle.std.specs.Prelude.{◌≡◌, IfSome};
ghost use Rattle.node.specs.Step.{initial_of};
ghost use Rattle.node_cores.specs.CoordinatorCore.{coordinator_core};
ghost use Rattle.node_cores.specs.FederateCore.{federate_core};

use coordinator::Coordinator;
use federate::Federate;
use link::LinkEnd;
use node::Station;
use std::alloc::Global;
use tests_samples::Federation;
use world_stations::LINK_ROOM;

/// A federate's station; None without memory, here and below.
pub(crate) fn federate_station(
    alloc: Global,
    federation: &Federation,
    number: u16,
) -> Option<Station<Federate<'_>>>
    ensures { IfSome result (λ station. station ≡ initial_of federate_core station) }
{
    let (plan, place) = (federation.plan(), usize::from(number));
    if place >= plan.federate_count() {
        return None;
    }
    let mut ends = Vec::with_capacity(alloc, 1).ok()?;
    ends.push(LinkEnd::new(alloc, number, 1, LINK_ROOM)).ok()?;
    match Federate::new(
        alloc,
        plan,
        federation.programs(),
        federation.inputs(),
        place,
    ) {
        Ok(federate) => Some(Station::new(alloc, federate, ends)),
        Err(_) => None,
    }
}

/// The coordinator's station.
pub(crate) fn coordinator_station(
    alloc: Global,
    federation: &Federation,
) -> Option<Station<Coordinator<'_>>>
    ensures { IfSome result (λ station. station ≡ initial_of coordinator_core station) }
{
    let mut ends = Vec::with_capacity(alloc, 2).ok()?;
    ends.push(LinkEnd::new(alloc, 0, 1, LINK_ROOM)).ok()?;
    ends.push(LinkEnd::new(alloc, 1, 1, LINK_ROOM)).ok()?;
    match Coordinator::new(alloc, federation.plan()) {
        Ok(coordinator) => Some(Station::new(alloc, coordinator, ends)),
        Err(_) => None,
    }
}
