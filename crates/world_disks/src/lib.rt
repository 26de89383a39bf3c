//! Nodes that are killed, and begun again from what their disks kept: laws, with no code.
//!
//! Promise to the layer above: where a frame comes only if its sender's disk keeps what it was sent for, a kill is no
//! step. What the disks keep, and what any process has, is what there is in a world in which nobody was killed; so all
//! that `world_stations` says of a federation's world holds through kills. `coordinate` and `join` with a log are to be
//! such nodes: by the barrier through which all leaves them (`fedrun_logs`, `wires_hosts`).
//!
//! Begin with `specs/Machine` and `specs/Disks`, then `crashes_are_no_steps` and `federation_laws`.
#![tactic(auto)]

pub mod federation_laws;

ghost use Rattle.std.specs.Prelude.{◌≡◌, ◌≢◌, ℕ, List, Some};
ghost use Rattle.node.specs.declared.node_id.NodeId.{NodeId};
ghost use Rattle.world_stations.specs.declared.step.Step.{Step};
ghost use Rattle.world_stations.specs.World.{Occurrence};
ghost use Rattle.world_disks.specs.Machine.{Machine, StepsAreLocal, after_steps, AreEvents};
ghost use Rattle.world_disks.specs.Disks.{Disks, Move, nothing_pending, moved, after_moves, live_station};
ghost use Rattle.world_disks.specs.Disks.{events_at, replay};
ghost use Rattle.world_disks.specs.Disks.Move.{Live, Keep, Crash};
ghost use Rattle.world_disks.specs.Worlds.{world_machine};
ghost use Rattle.world_disks.specs.Federation.{federation_machine};

use node::Node;

/// Over any machine whose steps are events at one node each, and whatever moves came before: what the disks keep is the
/// world after some steps, all of them events, and what a process has is its node's station after some such steps. The
/// process that makes a step goes on as its station does, and the others stay as they were. To keep steps changes
/// nothing of any process. A kill takes a process back to the station in the world that the disks keep, which is the
/// replay of its journal, and spares the others.
pub fn crashes_are_no_steps<World, Station>()
    ensures kept { (m : Machine World Station) → StepsAreLocal m → (w : World) (moves : List Move) →
        (steps : List Step) × AreEvents m w steps
        × ((after_moves m (nothing_pending w) moves).world ≡ after_steps m w steps) }
    ensures live { (m : Machine World Station) → StepsAreLocal m → (w : World) (moves : List Move) (node : NodeId) →
        (steps : List Step) × AreEvents m w steps
        × (live_station m (after_moves m (nothing_pending w) moves) node ≡ m.station (after_steps m w steps) node) }
    ensures made { (m : Machine World Station) (d : Disks World) (step : Step) (o : Occurrence)
        → m.occurrence d.world step ≡ Some o →
        live_station m (moved m d (Live step)) o.node ≡ m.stepped (live_station m d o.node) o.event }
    ensures others { (m : Machine World Station) (d : Disks World) (step : Step) (o : Occurrence) (other : NodeId)
        → m.occurrence d.world step ≡ Some o → other ≢ o.node →
        live_station m (moved m d (Live step)) other ≡ live_station m d other }
    ensures unseen { (m : Machine World Station) → StepsAreLocal m → (w : World) (moves : List Move) (node : NodeId)
        (count : ℕ) (other : NodeId) →
        live_station m (moved m (after_moves m (nothing_pending w) moves) (Keep node count)) other
        ≡ live_station m (after_moves m (nothing_pending w) moves) other }
    ensures back { (m : Machine World Station) (d : Disks World) (node : NodeId) →
        live_station m (moved m d (Crash node)) node ≡ m.station d.world node }
    ensures spared { (m : Machine World Station) (d : Disks World) (node other : NodeId) → other ≢ node →
        live_station m (moved m d (Crash node)) other ≡ live_station m d other }
    ensures replayed { (m : Machine World Station) → StepsAreLocal m → (w : World) (steps : List Step)
        (node : NodeId) → AreEvents m w steps →
        m.station (after_steps m w steps) node ≡ replay m (m.station w node) (events_at m node w steps) }
{}

/// A world of any nodes is such a machine, and a federation's is one.
pub fn worlds_are_such_machines<H: Node, M: Node>()
    ensures nodes { StepsAreLocal (world_machine H.core M.core) }
    ensures federation { StepsAreLocal federation_machine }
{}
