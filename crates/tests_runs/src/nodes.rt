//! The nodes of a federation, before a run.
ghost use Rattle.std.specs.Prelude.{◌≡◌, IfSome};
ghost use Rattle.node.specs.Step.{initial_of};
ghost use Rattle.node_cores.specs.FederateCore.{federate_core};

use coordinator::Coordinator;
use desk::Desk;
use federate::Federate;
use fedrun_run::{coordinator_desk, federate_desk, federate_desks};
use link::LinkEnd;
use node::Station;
use std::alloc::Global;
use tests_samples::Federation;
use wires::Nodes;
use world_stations::LINK_ROOM;

/// The second federate, whose place a blank one takes.
pub(crate) const SNK: usize = 1;

/// The incarnation of a blank federate.
pub(crate) const NEXT: u32 = 2;

/// The nodes of a federation, before their workers begin, and a blank federate behind its own if that is said.
pub(crate) fn nodes_of<'a>(
    alloc: Global,
    federation: &'a Federation,
    has_blank: bool,
) -> Option<Nodes<Coordinator<'a>, Federate<'a>>> {
    let federates = desks_of(alloc, federation, has_blank)?;
    let coordinator = coordinator_desk(alloc, federation.plan()).ok()?;
    Nodes::new(alloc, coordinator, federates).ok()
}

// The federates' desks.
fn desks_of(
    alloc: Global,
    federation: &Federation,
    has_blank: bool,
) -> Option<Vec<Desk<Federate<'_>>>> {
    let mut desks = federate_desks(
        alloc,
        federation.plan(),
        federation.programs(),
        federation.inputs(),
    )
    .ok()?;
    if has_blank {
        add_blank(alloc, federation, &mut desks)?;
    }
    Some(desks)
}

fn add_blank<'f>(
    alloc: Global,
    federation: &'f Federation,
    desks: &mut Vec<Desk<Federate<'f>>>,
) -> Option<()> {
    let blank = Desk::new(alloc, blank_station(alloc, federation)?);
    desks.push(blank).ok()
}

// A blank federate's station, in the place of the second one's.
fn blank_station(alloc: Global, federation: &Federation) -> Option<Station<Federate<'_>>>
    ensures { IfSome result (λ station. station ≡ initial_of federate_core station) }
{
    let plan = federation.plan();
    if SNK >= plan.federate_count() {
        return None;
    }
    let mut ends = Vec::with_capacity(alloc, 1).ok()?;
    ends.push(LinkEnd::new(alloc, SNK as u16, NEXT, LINK_ROOM))
        .ok()?;
    match Federate::new(alloc, plan, federation.programs(), federation.inputs(), SNK) {
        Ok(federate) => Some(Station::new(alloc, federate, ends)),
        Err(_) => None,
    }
}

/// A federate's desk, before any event; None where there is no such federate.
pub(crate) fn desk_of(
    alloc: Global,
    federation: &Federation,
    number: usize,
) -> Option<Desk<Federate<'_>>> {
    let plan = federation.plan();
    if number >= plan.federate_count() {
        return None;
    }
    let desk = federate_desk(
        alloc,
        plan,
        federation.programs(),
        federation.inputs(),
        number,
    );
    desk.ok()
}
