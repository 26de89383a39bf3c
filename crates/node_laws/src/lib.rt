//! When a station answers `Nothing`, and whom the coordinator grants which tag: laws, with no code.
//!
//! Promise to the layer above: a federate's station, and the coordinator's, answers `Nothing` to an event exactly where
//! it stays as it was, sends nothing and refuses nothing; and the coordinator sends TAGs to exactly the federates that
//! are eligible over all paths. Begin with `specs/Nothing`, then `nothing_is_answered_exactly_where_nothing_happens`;
//! with `specs/Tags`, then `granting`.
#![tactic(auto)]

pub mod granting;

ghost use Rattle.std.specs.Prelude.{◌≡◌, ◌↔◌, true, false};
ghost use Rattle.node.specs.Step.{Station, Silent, step_of};
ghost use Rattle.node.specs.declared.event.Event.{Event};
ghost use Rattle.node_cores.specs.FederateCore.{FederateNode, federate_core};
ghost use Rattle.node_cores.specs.CoordinatorCore.{CoordinatorNode, coordinator_core};
ghost use Rattle.node_laws.specs.Nothing.{NothingHappens, ActsByChanging};

use node::Node;

/// `Nothing` is answered to an event exactly where the station stays as it was, sends nothing and refuses nothing: by a
/// federate, and by the coordinator. So what is answered as done without frames changes the station.
pub fn nothing_is_answered_exactly_where_nothing_happens()
    ensures federate { (s : Station FederateNode) (event : Event)
        → ((step_of federate_core false s event).answer ≡ Silent)
        ↔ NothingHappens s (step_of federate_core false s event) }
    ensures coordinator { (s : Station CoordinatorNode) (event : Event)
        → ((step_of coordinator_core true s event).answer ≡ Silent)
        ↔ NothingHappens s (step_of coordinator_core true s event) }
{}

/// By any node it is answered only there; and exactly there, where a node changes whenever it does something by itself.
pub fn nothing_is_answered_only_where_nothing_happens<N: Node>()
    ensures only { (s : Station N) (event : Event) → (step_of N.core N.HUB s event).answer ≡ Silent
        → NothingHappens s (step_of N.core N.HUB s event) }
    ensures exactly { ActsByChanging N.core → (s : Station N) (event : Event)
        → ((step_of N.core N.HUB s event).answer ≡ Silent) ↔ NothingHappens s (step_of N.core N.HUB s event) }
{}
