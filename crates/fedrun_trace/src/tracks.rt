//! Which track a node has.
ghost use Rattle.std.specs.Prelude.{◌≡◌};
ghost use Rattle.fedrun_trace.specs.Tracks.{federate_track, sender_track, receiver_track, step_track};

use plan::Plan;
use world_stations::{Dir, Step};

/// The coordinator's track.
pub(crate) const COORDINATOR: usize = 1;

/// A federate's track, or the coordinator's where there is no such federate.
pub(crate) fn federate_track(plan: &Plan, federate: usize) -> usize
    ensures { result ≡ federate_track plan.now federate }
{
    // For the prover: there are few federates.
    plan.invariant();
    if federate < plan.federate_count() {
        federate + 2
    } else {
        COORDINATOR
    }
}

/// The track of the node that sends in a direction.
pub(crate) fn sender_track(plan: &Plan, dir: Dir) -> usize
    ensures { result ≡ sender_track plan.now dir }
{
    match dir {
        Dir::Up(federate) => federate_track(plan, federate),
        Dir::Down(_) => COORDINATOR,
    }
}

/// The track of the node to which a direction leads.
pub(crate) fn receiver_track(plan: &Plan, dir: Dir) -> usize
    ensures { result ≡ receiver_track plan.now dir }
{
    match dir {
        Dir::Up(_) => COORDINATOR,
        Dir::Down(federate) => federate_track(plan, federate),
    }
}

/// The track of the node at which a step happens.
pub(crate) fn step_track(plan: &Plan, step: Step) -> usize
    ensures { result ≡ step_track plan.now step }
{
    match step {
        Step::Deliver(dir, _) => receiver_track(plan, dir),
        Step::Resend(dir) | Step::Reconnect(dir) => sender_track(plan, dir),
        Step::Announce(federate) | Step::Advance(federate) | Step::Forget(federate) => {
            federate_track(plan, federate)
        }
    }
}
