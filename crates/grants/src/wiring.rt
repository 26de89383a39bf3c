ghost use Rattle.std.specs.Prelude.{◌≡◌, ◌<◌, IfOk, length};
ghost use Rattle.plan.specs.Federation.{federate_count, connections_of};
ghost use Rattle.tag.specs.LogicalTime.{is_before};
ghost use Rattle.protocol.specs.Grant.{bound_of, is_eligible};
ghost use Rattle.protocol.specs.FederateRecords.{federate_record_at};
ghost use Rattle.grants.specs.Wiring.{IsWiring, least_by, network_by, federation_wiring};
ghost use Rattle.grants.specs.Routes.{connected_to, affected_by, routed_below};

use crate::bounds::{first_incoming, first_upstream, passes_incoming, passes_upstream};
use crate::federate_record::FederateRecord;
use crate::memory::Memory;
use crate::routes::Routes;
use plan::Plan;
use plan_paths::Connection;
use std::alloc::Global;
use std::marker::Model;
use tag::{FiniteTag, Tag, greater};

/// How the federates of a plan are connected.
#[derive(Drop)]
pub struct Wiring {
    connections: Vec<Connection>,
    stop: FiniteTag,
    /// Of each federate.
    routes: Vec<Routes>,
}

impl Model for Wiring {
    ghost use Rattle.std.specs.Prelude.{◌≡◌, length};
    ghost use Rattle.grants.specs.Wiring.{Wiring as WiringOf, IsWiring};
    ghost use Rattle.grants.specs.Routes.{routed_below};

    ghost Value = { WiringOf };

    ghost view = { λ w. record {
      federates = length w.routes.items;
      connections = w.connections.items;
      stop = w.stop;
    } };

    ghost invariant = { λ w. IsWiring
        (record { federates = length w.routes.items; connections = w.connections.items; stop = w.stop })
        × (w.routes.items ≡ routed_below (record {
          federates = length w.routes.items;
          connections = w.connections.items;
          stop = w.stop;
        }) (length w.routes.items)) };
}

impl Wiring {
    pub fn new(alloc: Global, plan: &Plan) -> Result<Wiring, Memory>
        ensures { IfOk result (λ wiring. wiring ≡ federation_wiring plan.now) }
    {
        plan.invariant();
        let connections = copied(alloc, plan.connections())?;
        let routes = routes_of(alloc, plan)?;
        let stop = plan.stop_tag();
        Ok(Wiring {
            connections,
            stop,
            routes,
        })
    }

    /// What every wiring keeps.
    pub fn invariant(&self)
        ensures { IsWiring self.now }
    {
        let _ = &self.stop;
    }

    pub fn federates(&self) -> usize
        ensures { result ≡ self.now.federates }
    {
        self.routes.len()
    }

    /// The last tag at which anything runs.
    pub fn stop(&self) -> FiniteTag
        ensures { result ≡ self.now.stop }
    {
        self.stop
    }

    /// The federates that a change of this one's next tag may make eligible.
    pub fn affected_by(&self, federate: usize) -> &[usize]
        requires { federate < self.now.federates }
        ensures { result.now ≡ affected_by self.now federate }
    {
        self.routes[federate].affected()
    }

    /// The federates to which a connection leads from this one.
    pub fn connected_to(&self, federate: usize) -> &[usize]
        requires { federate < self.now.federates }
        ensures { result.now ≡ connected_to self.now federate }
    {
        self.routes[federate].targets()
    }

    /// Before this tag nothing can still arrive at a federate. It goes over those from which a path leads to it, and
    /// over the connections that end at it.
    pub fn bound(&self, federate_records: &[FederateRecord], federate: usize) -> Tag
        requires count { length federate_records.now ≡ self.now.federates }
        requires federate { federate < self.now.federates }
        ensures { result ≡ bound_of (network_by self.now) (least_by self.now)
            (federate_record_at federate_records.now) federate }
    {
        let routes = &self.routes[federate];
        let by_paths = first_upstream(routes.upstream(), federate_records);
        let by_connections = first_incoming(routes.incoming(), federate_records);
        greater(by_paths, by_connections)
    }

    /// Whether a tag is before the bound: nothing can still arrive at the federate then, over any path or over the
    /// connections that end at it. It looks no further than it has to.
    pub fn passes(&self, tag: Tag, federate_records: &[FederateRecord], federate: usize) -> bool
        requires count { length federate_records.now ≡ self.now.federates }
        requires federate { federate < self.now.federates }
        ensures { result ≡ is_before tag
            (bound_of (network_by self.now) (least_by self.now) (federate_record_at federate_records.now) federate) }
    {
        let routes = &self.routes[federate];
        passes_incoming(tag, routes.incoming(), federate_records)
            || passes_upstream(tag, routes.upstream(), federate_records)
    }

    /// Whether a federate gets a grant: it has announced, and its next tag isn't granted yet, not later than stop, and
    /// before the bound.
    pub fn is_eligible(&self, federate_records: &[FederateRecord], federate: usize) -> bool
        requires count { length federate_records.now ≡ self.now.federates }
        requires federate { federate < self.now.federates }
        ensures { result ≡ is_eligible (network_by self.now) (least_by self.now)
            (federate_record_at federate_records.now) federate }
    {
        let federate_record = &federate_records[federate];
        federate_record.is_waiting(self.stop)
            && self.passes(federate_record.next(), federate_records, federate)
    }
}

// The same connections.
fn copied(alloc: Global, connections: &[Connection]) -> Result<Vec<Connection>, Memory>
    ensures { IfOk result (λ copy. copy.items ≡ connections.now) }
{
    let mut copy = Vec::new(alloc);
    copy.extend_from_slice(connections)?;
    Ok(copy)
}

// The routes of each federate.
fn routes_of(alloc: Global, plan: &Plan) -> Result<Vec<Routes>, Memory>
    ensures { IfOk result
        (λ routes. routes.items ≡ routed_below (federation_wiring plan.now) (federate_count plan.now)) }
{
    let mut routes = Vec::new(alloc);
    for federate in 0..plan.federate_count() {
        routes.push(Routes::new(alloc, plan, federate)?)?;
    }
    Ok(routes)
}
