//! What holds of the world of every federation, after any list of steps. Each function is a law: it does nothing.
ghost use Rattle.std.specs.Prelude.{◌≡◌, ℕ, ◌<◌, true, List, ◌++◌, [], ◌∷◌, false, All, ◌↔◌};
ghost use Rattle.plan.specs.declared.draft.Draft.{Draft};
ghost use Rattle.plan.specs.declared.input.Input.{Input};
ghost use Rattle.plan.specs.External.{AreInputsOf};
ghost use Rattle.plan.specs.Federation.{federate_count};
ghost use Rattle.plan.specs.Legal.{IsLegal};
ghost use Rattle.reactor_program.specs.Behaviour.{Behaviour};
ghost use Rattle.reactor_programs.specs.Programs.{AreProgramsOf};
ghost use Rattle.node_cores.specs.FederateCore.{federate_core};
ghost use Rattle.node_cores.specs.CoordinatorCore.{coordinator_core};
ghost use Rattle.world_stations.specs.declared.step.Step.{Step};
ghost use Rattle.world_stations.specs.declared.dir.Dir.{Dir};
ghost use Rattle.world_stations.specs.Kept.{is_forget, is_kept, IsSettled, KeepsNothing};
ghost use Rattle.std.specs.List.{list_any};
ghost use Rattle.world_stations.specs.Taken.{TakesInOrder};
ghost use Rattle.world_stations.specs.World.{opened, frames_in};
ghost use Rattle.world_stations.specs.Federation.{initial_world, world_after, step_in, IsHarmless, TakesNothingLate};
ghost use Rattle.world_stations.specs.Federation.{IsPrefix, IsWhole, IsStuck, IsFinished};

use node::Node;

/// The steps of a world are those that were made, and one more step is made in the world after those before it.
#[tactic(none)]
pub fn steps_are_made_in_order()
    ensures listed { (d : Draft) (programs : List Behaviour) (inputs : List Input) (steps : List Step)
        → (world_after d programs inputs steps).steps ≡ steps }
    ensures more { (d : Draft) (programs : List Behaviour) (inputs : List Input) (steps : List Step) (step : Step) →
        world_after d programs inputs (steps ++ step ∷ [])
        ≡ (step_in (world_after d programs inputs steps) step).world }
{}

/// Whatever steps were made, no node refuses a signal at the next step, and none acknowledges what was never sent: a
/// refusal is of a frame of another incarnation, of one ahead of its turn, at a closed end, or for lack of room in a
/// link.
#[tactic(none)]
pub fn no_node_refuses_a_signal()
    ensures { (d : Draft) (programs : List Behaviour) (inputs : List Input) (steps : List Step) (step : Step)
        → IsLegal d → AreProgramsOf d programs →
        AreInputsOf d inputs → IsHarmless (step_in (world_after d programs inputs steps) step).outcome }
{}

/// Whatever steps were made, the rows of each federate that kept its state are a prefix of its part of the undivided
/// program's rows.
#[tactic(none)]
pub fn rows_are_a_prefix()
    ensures { (d : Draft) (programs : List Behaviour) (inputs : List Input) (steps : List Step) (j : ℕ) → IsLegal d
        → AreProgramsOf d programs →
        AreInputsOf d inputs → j < federate_count d → is_kept steps j ≡ true
        → IsPrefix d programs inputs (world_after d programs inputs steps) j }
{}

/// In a stuck world, and in a finished one, each federate's rows begin with its part of the undivided program's rows
/// after any number of turns: none is missing.
#[tactic(none)]
pub fn no_row_is_missing()
    ensures stuck { (d : Draft) (programs : List Behaviour) (inputs : List Input) (steps : List Step) (j : ℕ)
        → IsLegal d → AreProgramsOf d programs →
        AreInputsOf d inputs → j < federate_count d → IsStuck (world_after d programs inputs steps)
        → IsWhole d programs inputs (world_after d programs inputs steps) j }
    ensures finished { (d : Draft) (programs : List Behaviour) (inputs : List Input) (steps : List Step) (j : ℕ)
        → IsLegal d → AreProgramsOf d programs →
        AreInputsOf d inputs → j < federate_count d → IsFinished (world_after d programs inputs steps)
        → IsWhole d programs inputs (world_after d programs inputs steps) j }
{}

/// Whatever nodes there are, and whatever steps were made: of each direction of each link, what was taken in an
/// incarnation is a prefix of what was offered in it.
#[tactic(none)]
pub fn what_is_taken_was_offered<H: Node, M: Node>()
    ensures nodes { (coordinator : H) (count : ℕ) (federate_at : ℕ → M) (room : ℕ) (steps : List Step)
        → TakesInOrder H.core M.core (opened coordinator count federate_at room) steps }
    ensures federation { (d : Draft) (programs : List Behaviour) (inputs : List Input) (steps : List Step) →
        TakesInOrder coordinator_core federate_core (initial_world d programs inputs) steps }
{}

/// Whatever steps were made, at none of them did a federate take a message at a tag that it had run before, or at an
/// earlier one.
#[tactic(none)]
pub fn nothing_is_taken_late()
    ensures { (d : Draft) (programs : List Behaviour) (inputs : List Input) (steps : List Step) (j : ℕ) → IsLegal d
        → AreProgramsOf d programs →
        AreInputsOf d inputs → TakesNothingLate d programs inputs steps j }
{}

/// Where nobody forgot, every signal sent was taken and its acknowledgement came exactly where no end keeps a signal.
#[tactic(none)]
pub fn settled_shows_at_the_ends()
    ensures { (d : Draft) (programs : List Behaviour) (inputs : List Input) (steps : List Step) → IsLegal d
        → AreProgramsOf d programs →
        AreInputsOf d inputs → list_any is_forget (world_after d programs inputs steps).steps ≡ false →
        (((dir : Dir) → All (IsSettled (world_after d programs inputs steps) dir)
        (frames_in (world_after d programs inputs steps) dir)) ↔
        KeepsNothing (world_after d programs inputs steps)) }
{}
