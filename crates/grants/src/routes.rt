ghost use Rattle.std.specs.Prelude.{◌≡◌, ◌<◌, IfOk, nat_eq};
ghost use Rattle.std.specs.List.{list_any};
ghost use Rattle.plan.specs.Federation.{federate_count};
ghost use Rattle.grants.specs.Wiring.{least_by, federation_wiring};
ghost use Rattle.grants.specs.Routes.{connected_to, incoming_of, affected_by, outgoing_of, routed, upstream_of};

use crate::memory::Memory;
use plan::Plan;
use plan_paths::Connection;
use std::alloc::Global;
use std::marker::Model;
use tag::Delay;

/// A federate from which a path leads, with the least delay of such a path.
#[derive(Clone, Copy, Debug)]
pub struct Upstream {
    pub federate: usize,
    pub delay: Delay,
}

/// Whom a federate hears from, and whom it reaches.
#[derive(Drop)]
pub struct Routes {
    upstream: Vec<Upstream>,
    /// The connections that end at it.
    incoming: Vec<Connection>,
    /// Each federate that a connection leads to from it.
    targets: Vec<usize>,
    /// Itself, and each federate that a path leads to from it.
    affected: Vec<usize>,
}

impl Model for Routes {
    ghost use Rattle.grants.specs.Routes.{Routed};

    ghost Value = { Routed };

    ghost view = { λ r. record {
      upstream = r.upstream.items;
      incoming = r.incoming.items;
      targets = r.targets.items;
      affected = r.affected.items;
    } };
}

impl Routes {
    /// Those of a federate of a plan.
    pub fn new(alloc: Global, plan: &Plan, federate: usize) -> Result<Routes, Memory>
        requires { federate < federate_count plan.now }
        ensures { IfOk result (λ routes. routes ≡ routed (federation_wiring plan.now) federate) }
    {
        let upstream = upstream_of(alloc, plan, federate)?;
        let incoming = incoming_of(alloc, plan.connections(), federate)?;
        let targets = targets_of(alloc, plan, federate)?;
        let affected = affected_of(alloc, plan, federate)?;
        Ok(Routes {
            upstream,
            incoming,
            targets,
            affected,
        })
    }

    pub fn upstream(&self) -> &[Upstream]
        ensures { result.now ≡ self.now.upstream }
    {
        self.upstream.as_slice()
    }

    pub fn incoming(&self) -> &[Connection]
        ensures { result.now ≡ self.now.incoming }
    {
        self.incoming.as_slice()
    }

    pub fn targets(&self) -> &[usize]
        ensures { result.now ≡ self.now.targets }
    {
        self.targets.as_slice()
    }

    pub fn affected(&self) -> &[usize]
        ensures { result.now ≡ self.now.affected }
    {
        self.affected.as_slice()
    }
}

// The federates from which a path leads to this one.
fn upstream_of(alloc: Global, plan: &Plan, federate: usize) -> Result<Vec<Upstream>, Memory>
    requires { federate < federate_count plan.now }
    ensures { IfOk result (λ upstream. upstream.items
        ≡ upstream_of (least_by (federation_wiring plan.now)) federate (federate_count plan.now)) }
{
    let mut upstream = Vec::new(alloc);
    for from in 0..plan.federate_count() {
        if let Some(delay) = plan.least(from, federate) {
            upstream.push(Upstream {
                federate: from,
                delay,
            })?;
        }
    }
    Ok(upstream)
}

// The connections that end at a federate.
fn incoming_of(
    alloc: Global,
    connections: &[Connection],
    federate: usize,
) -> Result<Vec<Connection>, Memory>
    ensures { IfOk result (λ incoming. incoming.items ≡ incoming_of connections.now federate) }
{
    let mut incoming = Vec::new(alloc);
    for connection in connections {
        if connection.target() == federate {
            incoming.push(*connection)?;
        }
    }
    Ok(incoming)
}

// The connections that begin at a federate.
fn outgoing_of(
    alloc: Global,
    connections: &[Connection],
    federate: usize,
) -> Result<Vec<Connection>, Memory>
    ensures { IfOk result (λ outgoing. outgoing.items ≡ outgoing_of connections.now federate) }
{
    let mut outgoing = Vec::new(alloc);
    for connection in connections {
        if connection.source() == federate {
            outgoing.push(*connection)?;
        }
    }
    Ok(outgoing)
}

// The federates to which a connection leads from this one.
fn targets_of(alloc: Global, plan: &Plan, federate: usize) -> Result<Vec<usize>, Memory>
    ensures { IfOk result (λ targets. targets.items ≡ connected_to (federation_wiring plan.now) federate) }
{
    let outgoing = outgoing_of(alloc, plan.connections(), federate)?;
    let mut targets = Vec::new(alloc);
    for to in 0..plan.federate_count() {
        if ends_at(outgoing.as_slice(), to) {
            targets.push(to)?;
        }
    }
    Ok(targets)
}

// Whether one of these connections ends at a federate.
fn ends_at(connections: &[Connection], federate: usize) -> bool
    ensures { result ≡ list_any (λ c. nat_eq c.target federate) connections.now }
{
    connections
        .iter()
        .any(|connection| connection.target() == federate)
}

// A federate, and those that a path leads to from it.
fn affected_of(alloc: Global, plan: &Plan, federate: usize) -> Result<Vec<usize>, Memory>
    requires { federate < federate_count plan.now }
    ensures { IfOk result (λ affected. affected.items ≡ affected_by (federation_wiring plan.now) federate) }
{
    let mut affected = Vec::new(alloc);
    for to in 0..plan.federate_count() {
        if to == federate || plan.least(federate, to).is_some() {
            affected.push(to)?;
        }
    }
    Ok(affected)
}
