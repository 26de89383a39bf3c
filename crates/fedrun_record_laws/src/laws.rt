//! What holds of steps that were recorded. Each function is a law: it does nothing.
ghost use Rattle.std.specs.Prelude.{ℕ, ◌<◌, ◌^◌, List, All, Option, None};
ghost use Rattle.plan.specs.External.{AreInputsOf};
ghost use Rattle.reactor_programs.specs.Programs.{AreProgramsOf};
ghost use Rattle.world_stations.specs.declared.step.Step.{Step};
ghost use Rattle.recorder.specs.Audited.{Claim, IsProvedBy};
ghost use Rattle.files_script.specs.Scripts.{Script, IsScriptOf};
ghost use Rattle.files_record.specs.StepText.{printed_steps};
ghost use Rattle.files_record.specs.ReadAgain.{IsNamed, AreRecorded};
ghost use Rattle.fedrun_replay.specs.Replayed.{IsReplayed};
ghost use Rattle.fedrun_record_laws.specs.PlayedAgain.{frame_in, PrintsAgain};

/// Steps that prove reports may stand in a schedule: they are of federates that are there, and each frame has a number
/// from 1 on. That it has at most 4294967295 has to be known.
#[tactic(none)]
pub fn proved_steps_may_be_recorded()
    ensures { (c : Claim) (steps : List Step) → IsNamed c.draft → AreProgramsOf c.draft c.programs
        → AreInputsOf c.draft c.inputs → IsProvedBy c steps →
        All (λ step. frame_in step < 2 ^ 32) steps → AreRecorded c.draft steps }
{}

/// Where steps prove reports, a replay of the schedule that is read from their text makes just these steps, and prints
/// the rows of the reports: before them which steps were refused, as they were in the run, and after them the end.
#[tactic(none)]
pub fn a_replay_of_recorded_steps_has_the_rows()
    ensures { (c : Claim) (steps : List Step) (s : Script) (before after : Option (List ℕ)) → AreRecorded c.draft steps
        → IsProvedBy c steps →
        IsScriptOf c.draft (printed_steps c.draft steps) s → IsReplayed c.draft c.programs c.inputs s None before after
        → PrintsAgain c steps before after }
{}
