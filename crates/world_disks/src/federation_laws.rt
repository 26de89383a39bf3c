//! What holds of a federation's disks and of its nodes' processes, whatever is killed, and however often. Each function
//! is a law: it does nothing.
ghost use Rattle.std.specs.Prelude.{◌≡◌, ℕ, ◌<◌, true, false, List, [], ◌∷◌, ◌++◌, All, Some};
ghost use Rattle.std.specs.List.{list_any};
ghost use Rattle.plan.specs.declared.draft.Draft.{Draft};
ghost use Rattle.plan.specs.declared.input.Input.{Input};
ghost use Rattle.plan.specs.External.{AreInputsOf};
ghost use Rattle.plan.specs.Federation.{federate_count};
ghost use Rattle.plan.specs.Legal.{IsLegal};
ghost use Rattle.reactor_program.specs.Behaviour.{Behaviour};
ghost use Rattle.reactor_programs.specs.Programs.{AreProgramsOf};
ghost use Rattle.node.specs.declared.node_id.NodeId.{NodeId};
ghost use Rattle.node.specs.Step.{Station};
ghost use Rattle.node_cores.specs.FederateCore.{federate_core};
ghost use Rattle.node_cores.specs.CoordinatorCore.{CoordinatorNode, coordinator_core};
ghost use Rattle.world_stations.specs.declared.step.Step.{Step};
ghost use Rattle.world_stations.specs.World.{Occurrence, occurrence_of, outcome_of};
ghost use Rattle.world_stations.specs.Kept.{is_forget};
ghost use Rattle.world_stations.specs.Federation.{initial_world, world_after, IsHarmless, IsLaterThan};
ghost use Rattle.world_stations.specs.Federation.{TakesNothingLate};
ghost use Rattle.world_stations.specs.Federation.{IsPrefix, IsWhole, IsStuck};
ghost use Rattle.world_disks.specs.Disks.{Move, events_at, replay};
ghost use Rattle.world_disks.specs.Disks.Move.{Live, Keep, Crash};
ghost use Rattle.world_disks.specs.Worlds.{station_in, stepped_by, answered_by};
ghost use Rattle.world_disks.specs.Federation.{federation_machine, disks_after, live_in, live_coordinator, live_rows};
ghost use Rattle.world_disks.specs.Federation.{ArePrefix, newly_taken_live};

/// What the disks keep is the federation's world after some steps, and what a node's process has is its station after
/// some steps: none of them is a kill, and by none does a federate forget. By its own step a process goes on as its
/// station does, which is what a desk does. No process sees that a disk keeps steps. A process that was killed begins
/// again with the replay of its journal: of the events at its node by the steps that disks keep.
pub fn a_kill_is_no_step()
    ensures kept { (d : Draft) (programs : List Behaviour) (inputs : List Input) (moves : List Move) →
        (steps : List Step) × (list_any is_forget steps ≡ false)
        × ((disks_after d programs inputs moves).world ≡ world_after d programs inputs steps) }
    ensures live { (d : Draft) (programs : List Behaviour) (inputs : List Input) (moves : List Move) (node : NodeId) →
        (steps : List Step) × (list_any is_forget steps ≡ false)
        × (live_in (disks_after d programs inputs moves) node ≡ station_in (world_after d programs inputs steps) node) }
    ensures made { (d : Draft) (programs : List Behaviour) (inputs : List Input) (moves : List Move) (step : Step)
        (o : Occurrence) → occurrence_of (disks_after d programs inputs moves).world step ≡ Some o →
        live_in (disks_after d programs inputs (moves ++ Live step ∷ [])) o.node
        ≡ stepped_by coordinator_core federate_core (live_in (disks_after d programs inputs moves) o.node) o.event }
    ensures unseen { (d : Draft) (programs : List Behaviour) (inputs : List Input) (moves : List Move) (node : NodeId)
        (count : ℕ) (other : NodeId) →
        live_in (disks_after d programs inputs (moves ++ Keep node count ∷ [])) other
        ≡ live_in (disks_after d programs inputs moves) other }
    ensures back { (d : Draft) (programs : List Behaviour) (inputs : List Input) (moves : List Move) (node : NodeId) →
        (steps : List Step) × (list_any is_forget steps ≡ false)
        × ((disks_after d programs inputs moves).world ≡ world_after d programs inputs steps)
        × (live_in (disks_after d programs inputs (moves ++ Crash node ∷ [])) node
        ≡ replay federation_machine (station_in (initial_world d programs inputs) node)
        (events_at federation_machine node (initial_world d programs inputs) steps)) }
{}

/// Whatever is killed, and begun again from what its disk kept: the rows of each federate, those that its disk keeps
/// and those that its process has, are a prefix of its part of the undivided program's rows.
pub fn rows_are_a_prefix()
    ensures kept { (d : Draft) (programs : List Behaviour) (inputs : List Input) (moves : List Move) (j : ℕ)
        → IsLegal d → AreProgramsOf d programs →
        AreInputsOf d inputs → j < federate_count d
        → IsPrefix d programs inputs (disks_after d programs inputs moves).world j }
    ensures live { (d : Draft) (programs : List Behaviour) (inputs : List Input) (moves : List Move) (j : ℕ)
        → IsLegal d → AreProgramsOf d programs →
        AreInputsOf d inputs → j < federate_count d
        → ArePrefix d programs inputs j (live_rows (disks_after d programs inputs moves) j) }
{}

/// Whatever is killed: at no step that disks keep did a federate take a message at a tag that it had run before, or at
/// an earlier one; nor does a federate's process, as it makes its next step.
pub fn nothing_is_taken_late()
    ensures kept { (d : Draft) (programs : List Behaviour) (inputs : List Input) (moves : List Move) (j : ℕ)
        → IsLegal d → AreProgramsOf d programs → AreInputsOf d inputs →
        (steps : List Step) × (list_any is_forget steps ≡ false)
        × ((disks_after d programs inputs moves).world ≡ world_after d programs inputs steps)
        × TakesNothingLate d programs inputs steps j }
    ensures live { (d : Draft) (programs : List Behaviour) (inputs : List Input) (moves : List Move) (step : Step)
        (j incarnation : ℕ) → IsLegal d → AreProgramsOf d programs → AreInputsOf d inputs →
        All (IsLaterThan (live_rows (disks_after d programs inputs moves) j))
        (newly_taken_live (disks_after d programs inputs moves) j incarnation step) }
{}

/// Whatever is killed, no process refuses a signal at its next step, nor acknowledges what was never sent: a refusal is
/// of a frame of another incarnation, of one ahead of its turn, at a closed end, or for lack of room in a link.
pub fn no_process_refuses_a_signal()
    ensures { (d : Draft) (programs : List Behaviour) (inputs : List Input) (moves : List Move) (step : Step)
        (o : Occurrence) → IsLegal d → AreProgramsOf d programs → AreInputsOf d inputs →
        occurrence_of (disks_after d programs inputs moves).world step ≡ Some o →
        IsHarmless (outcome_of (answered_by coordinator_core federate_core
        (live_in (disks_after d programs inputs moves) o.node) o.event)) }
{}

/// Whatever was killed: where the world that disks keep is stuck, and where the coordinator's process says that all is
/// finished, each federate's disk keeps every row of its part.
pub fn no_row_is_missing()
    ensures stuck { (d : Draft) (programs : List Behaviour) (inputs : List Input) (moves : List Move) (j : ℕ)
        → IsLegal d → AreProgramsOf d programs →
        AreInputsOf d inputs → j < federate_count d → IsStuck (disks_after d programs inputs moves).world
        → IsWhole d programs inputs (disks_after d programs inputs moves).world j }
    ensures finished { (d : Draft) (programs : List Behaviour) (inputs : List Input) (moves : List Move) (j : ℕ)
        (s : Station CoordinatorNode) → IsLegal d → AreProgramsOf d programs →
        AreInputsOf d inputs → j < federate_count d → live_coordinator (disks_after d programs inputs moves) ≡ Some s
        → coordinator_core.finished s.node ≡ true
        → IsWhole d programs inputs (disks_after d programs inputs moves).world j }
{}
