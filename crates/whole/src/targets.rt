ghost use Rattle.std.specs.Prelude.{◌≡◌, ℕ, IfOk, slice_get};
ghost use Rattle.std.specs.Option.{option_map};
ghost use Rattle.whole.specs.Agendas.{for_each};
ghost use Rattle.plan.specs.Federation.{federate_count, connections_of};
ghost use Rattle.whole.specs.Targets.{between, is_nonempty, all_shown, targets_below};

use plan::Plan;
use plan_paths::Connection;
use reactor::Memory;
use std::alloc::Global;

/// A federate on whose agenda a turn of some federate (itself included) can put events, and the connections from that
/// one to it.
#[derive(Drop)]
pub struct Target {
    pub federate: usize,
    pub connections: Vec<Connection>,
}

/// The targets of each federate's turns.
pub fn all_targets(alloc: Global, plan: &Plan) -> Result<Vec<Vec<Target>>, Memory>
    ensures { IfOk result (λ targets. (federate : ℕ)
        → option_map (λ ts. all_shown ts.items) (slice_get targets.items federate)
        ≡ for_each plan.now (λ f. targets_below (connections_of plan.now) f (federate_count plan.now)) federate) }
{
    let mut targets = Vec::new(alloc);
    for federate in 0..plan.federate_count() {
        targets.push(targets_of(alloc, plan, federate)?)?;
    }
    Ok(targets)
}

// The targets of a federate's turns, by number.
fn targets_of(alloc: Global, plan: &Plan, source: usize) -> Result<Vec<Target>, Memory>
    ensures { IfOk result (λ targets. all_shown targets.items
        ≡ targets_below (connections_of plan.now) source (federate_count plan.now)) }
{
    let mut targets = Vec::new(alloc);
    for federate in 0..plan.federate_count() {
        let connections = between(alloc, plan.connections(), source, federate)?;
        if federate == source || is_nonempty(connections.as_slice()) {
            targets.push(Target {
                federate,
                connections,
            })?;
        }
    }
    Ok(targets)
}

// The connections from one federate to another.
fn between(
    alloc: Global,
    connections: &[Connection],
    source: usize,
    target: usize,
) -> Result<Vec<Connection>, Memory>
    ensures { IfOk result (λ found. found.items ≡ between source target connections.now) }
{
    let found = connections
        .iter()
        .copied()
        .filter(|connection| connection.source() == source && connection.target() == target)
        .collect(alloc)?;
    Ok(found)
}

fn is_nonempty(connections: &[Connection]) -> bool
    ensures { result ≡ is_nonempty connections.now }
{
    match connections {
        [_first, ..] => true,
        [] => false,
    }
}
