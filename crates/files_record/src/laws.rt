//! What is written is read again, and every federation that a file declares has such names. Each function is a law: it
//! does nothing.
ghost use Rattle.std.specs.Prelude.{◌≡◌, ◌≤◌, ℕ, List, length};
ghost use Rattle.plan.specs.declared.draft.Draft.{Draft};
ghost use Rattle.reactor_program.specs.Behaviour.{Behaviour};
ghost use Rattle.world_stations.specs.declared.step.Step.{Step};
ghost use Rattle.loadfed.specs.Loaded.{IsFederationFile};
ghost use Rattle.files_script.specs.declared.script.TheConstants.{MOST_BYTES};
ghost use Rattle.files_script.specs.declared.fault.ScriptFault.{ScriptFault};
ghost use Rattle.files_script.specs.declared.fault.ScriptFault.TheVariants.{Memory};
ghost use Rattle.files_script.specs.Scripts.{Script, IsScriptOf, IsFaultOf};
ghost use Rattle.files_record.specs.StepText.{printed_steps};
ghost use Rattle.files_record.specs.ReadAgain.{IsNamed, AreRecorded, SaysSteps};

/// Whatever steps are written: the schedule that is read from their text says these steps and nothing else, the n-th on
/// line n. Where the text isn't longer than a schedule file may be, reading fails only for want of memory.
#[tactic(none)]
pub fn written_steps_are_read_again()
    ensures says { (d : Draft) (steps : List Step) (s : Script) → AreRecorded d steps
        → IsScriptOf d (printed_steps d steps) s → SaysSteps steps s }
    ensures taken { (d : Draft) (steps : List Step) (fault : ScriptFault) → AreRecorded d steps
        → length (printed_steps d steps) ≤ MOST_BYTES →
        IsFaultOf d (printed_steps d steps) fault → fault ≡ Memory }
{}

/// A federation that a file declares is legal, and its federates' names are names.
#[tactic(none)]
pub fn declared_federates_are_named()
    ensures { (bytes : List ℕ) (d : Draft) (programs : List Behaviour) → IsFederationFile bytes d programs → IsNamed d }
{}
