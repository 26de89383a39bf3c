//! The two kinds of nodes of a federation, a federate and the coordinator, as definitions: what a node's core is to do.
//!
//! Promise to the layer above: words to cite. Begin with `specs/FederateCore` and `specs/CoordinatorCore`.
#![tactic(auto)]

ghost use Rattle.node.specs.Core.{IsCore};
ghost use Rattle.node_cores.specs.FederateCore.{federate_core};
ghost use Rattle.node_cores.specs.CoordinatorCore.{coordinator_core};

/// Each step of a federate adds to its rows, and leaves what it was made from; and so does each step of the
/// coordinator, which has no rows.
pub fn nodes_go_on()
    ensures federate { IsCore federate_core }
    ensures coordinator { IsCore coordinator_core }
{}
