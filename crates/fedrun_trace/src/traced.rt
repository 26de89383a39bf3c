ghost use Rattle.std.specs.Prelude.{OnOk, IfErr};
ghost use Rattle.plan.specs.External.{AreInputsOf};
ghost use Rattle.reactor_programs.specs.Programs.{AreProgramsOf};
ghost use Rattle.fedrun_trace.specs.Traced.{TracesSchedule, IsBrokenOff};

use crate::tracing::trace_steps;
use fedrun_frames::steps_of_schedule;
use fedrun_replay::ReplayFault;
use files_script::Script;
use plan::{Inputs, Plan};
use reactor_programs::Programs;
use std::alloc::Global;
use std::io::Write;
use world::World;

/// Plays a schedule in a world of which nothing was asked; then, with `closing`, makes closing rounds until the world
/// is stuck or this many were made. Writes all steps as a trace: a JSON array of trace events. The caller flushes.
pub fn trace<W: Write>(
    alloc: Global,
    out: &mut W,
    plan: &Plan,
    programs: &Programs,
    inputs: &Inputs,
    script: &Script,
    closing: Option<u32>,
) -> Result<(), ReplayFault>
    requires programs { AreProgramsOf plan.now programs.now }
    requires inputs { AreInputsOf plan.now inputs.now }
    ensures traced { OnOk result (TracesSchedule plan.now programs.now inputs.now script.now closing (W.contents out.old)
        (W.contents out.new)) }
    ensures broken_off { IfErr result
        (IsBrokenOff plan.now programs.now inputs.now script.now closing (W.contents out.old) (W.contents out.new)) }
{
    let made = steps_of_schedule(alloc, plan, programs, inputs, script, closing)?;
    let mut world = match World::new(alloc, plan, programs, inputs) {
        Ok(world) => world,
        Err(memory) => return Err(ReplayFault::World(memory)),
    };
    trace_steps(alloc, out, plan, &mut world, made.as_slice())
}
