ghost use Rattle.std.specs.Prelude.{OnOk, IfErr};
ghost use Rattle.plan.specs.External.{AreInputsOf};
ghost use Rattle.reactor_programs.specs.Programs.{AreProgramsOf};
ghost use Rattle.fedrun_frames.specs.Shown.{ShowsSchedule, IsBrokenOff};

use crate::making::steps_of_schedule;
use crate::showing::show_steps;
use fedrun_replay::ReplayFault;
use files_script::Script;
use plan::{Inputs, Plan};
use reactor_programs::Programs;
use std::alloc::Global;
use std::io::Write;
use world::World;

/// Plays a schedule in a world of which nothing was asked; then, with `closing`, makes closing rounds until the world
/// is stuck or this many were made. Writes each step with the number of its line, that of a closing round with the
/// number after the last, how it ended, the row that it made, and each frame that it sent, with the number by which
/// `deliver` names it. The caller flushes.
pub fn frames<W: Write>(
    alloc: Global,
    out: &mut W,
    plan: &Plan,
    programs: &Programs,
    inputs: &Inputs,
    script: &Script,
    closing: Option<u32>,
) -> Result<(), ReplayFault>
    requires programs { AreProgramsOf plan.now programs.now }
    requires inputs { AreInputsOf plan.now inputs.now }
    ensures shown { OnOk result (ShowsSchedule plan.now programs.now inputs.now script.now closing (W.contents out.old)
        (W.contents out.new)) }
    ensures broken_off { IfErr result
        (IsBrokenOff plan.now programs.now inputs.now script.now closing (W.contents out.old) (W.contents out.new)) }
{
    let made = steps_of_schedule(alloc, plan, programs, inputs, script, closing)?;
    let mut world = match World::new(alloc, plan, programs, inputs) {
        Ok(world) => world,
        Err(memory) => return Err(ReplayFault::World(memory)),
    };
    show_steps(alloc, out, plan, &mut world, made.as_slice())
}
