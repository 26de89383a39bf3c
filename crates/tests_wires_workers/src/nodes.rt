//! The nodes whose workers are tested: those of a federation of two, before any event.
ghost use Rattle.std.specs.Prelude.{◌≡◌, IfSome};
ghost use Rattle.node.specs.Step.{initial_of};
ghost use Rattle.node_cores.specs.CoordinatorCore.{coordinator_core};
ghost use Rattle.node_cores.specs.FederateCore.{federate_core};

use coordinator::Coordinator;
use desk::{Desk, Shared};
use federate::Federate;
use link::LinkEnd;
use node::{Node, NodeId, Station};
use std::alloc::Global;
use tag::{FiniteTag, Time};
use tests_samples::Federation;
use wires_transports::Ending;
use wires_workers::{Context, NoGate, WakeUps, WriterQueue};
use world_stations::LINK_ROOM;

// Federate 0's station.
fn federate_station(alloc: Global, federation: &Federation) -> Option<Station<Federate<'_>>>
    ensures { IfSome result (λ station. station ≡ initial_of federate_core station) }
{
    let plan = federation.plan();
    if plan.federate_count() == 0 {
        return None;
    }
    let mut ends = Vec::with_capacity(alloc, 1).ok()?;
    ends.push(LinkEnd::new(alloc, 0, 1, LINK_ROOM)).ok()?;
    match Federate::new(alloc, plan, federation.programs(), federation.inputs(), 0) {
        Ok(federate) => Some(Station::new(alloc, federate, ends)),
        Err(_) => None,
    }
}

// The station of a coordinator of two.
fn coordinator_station(alloc: Global, federation: &Federation) -> Option<Station<Coordinator<'_>>>
    ensures { IfSome result (λ station. station ≡ initial_of coordinator_core station) }
{
    let mut ends = Vec::with_capacity(alloc, 2).ok()?;
    ends.push(LinkEnd::new(alloc, 0, 1, LINK_ROOM)).ok()?;
    ends.push(LinkEnd::new(alloc, 1, 1, LINK_ROOM)).ok()?;
    match Coordinator::new(alloc, federation.plan()) {
        Ok(coordinator) => Some(Station::new(alloc, coordinator, ends)),
        Err(_) => None,
    }
}

/// Federate 0's desk; None without memory.
pub(crate) fn federate(alloc: Global, federation: &Federation) -> Option<Shared<Federate<'_>>> {
    Some(Shared::new(Desk::new(alloc, federate_station(alloc, federation)?)))
}

/// The coordinator's desk; None without memory.
pub(crate) fn coordinator(
    alloc: Global,
    federation: &Federation,
) -> Option<Shared<Coordinator<'_>>> {
    Some(Shared::new(Desk::new(alloc, coordinator_station(alloc, federation)?)))
}

/// What the workers of a node are passed, where no gate makes them wait.
pub(crate) fn context<'a, N: Node, T: Drop, C: Drop>(
    node: NodeId,
    shared: &'a Shared<N>,
    gate: &'a NoGate,
    writers: &'a [WriterQueue<T, C>],
    runner: Option<&'a WakeUps>,
    ending: &'a Ending,
) -> Context<'a, N, NoGate, T, C> {
    Context {
        node,
        shared,
        gate,
        writers,
        runner,
        ending,
    }
}

/// The same of a node without a runner.
pub(crate) fn context_alone<'a, N: Node, T: Drop, C: Drop>(
    node: NodeId,
    shared: &'a Shared<N>,
    writers: &'a [WriterQueue<T, C>],
    ending: &'a Ending,
) -> Context<'a, N, NoGate, T, C> {
    context(node, shared, &NoGate, writers, None, ending)
}

/// A tag in the first microstep of a time.
pub(crate) fn at(milliseconds: u32) -> FiniteTag {
    match Time::new(u64::from(milliseconds) * 1_000_000) {
        Some(time) => FiniteTag::new(time, 0),
        None => FiniteTag::new(Time::zero(), 0),
    }
}
