//! What the text tells. The function is a law: it does nothing.
ghost use Rattle.std.specs.Prelude.{List};
ghost use Rattle.plan.specs.declared.draft.Draft.{Draft};
ghost use Rattle.plan.specs.declared.input.Input.{Input};
ghost use Rattle.reactor_program.specs.Behaviour.{Behaviour};
ghost use Rattle.world_stations.specs.declared.step.Step.{Step};
ghost use Rattle.world_stations.specs.Federation.{world_after};
ghost use Rattle.fedrun_frames.specs.Acknowledged.{AcknowledgesTaken};

/// Whatever steps were made: what each end acknowledged last is what it took last. So a signal that comes is known by
/// its receiver's acknowledgements exactly where it was taken.
#[tactic(none)]
pub fn what_is_acknowledged_was_taken()
    ensures { (d : Draft) (programs : List Behaviour) (inputs : List Input) (steps : List Step)
        → AcknowledgesTaken (world_after d programs inputs steps) }
{}
