ghost use Rattle.std.specs.Prelude.{OnOk, IfErr};
ghost use Rattle.plan.specs.External.{AreInputsOf};
ghost use Rattle.reactor_programs.specs.Programs.{AreProgramsOf};
ghost use Rattle.fedrun_replay.specs.Replayed.{IsReplayed, IsBrokenOff};
ghost use Rattle.fedrun_replay.specs.AsCsv.{IsReplayedAsCsv, IsUnprinted, IsReplayedIn, IsBrokenOffIn};

use crate::ending::{write_csv_histories, write_end};
use crate::fault::ReplayFault;
use crate::player::Player;
use fedrun_progress::Progress;
use files_script::Script;
use files_text::RowFormat;
use plan::{Inputs, Plan};
use reactor_programs::Programs;
use std::alloc::Global;
use std::io;
use std::io::Write;

/// Plays a schedule in a world of which nothing was asked, and prints the refused steps as they come, each with its
/// line's number; then, with `closing`, makes closing rounds until the world is stuck or this many were made, and
/// prints which of both; then each federate's history, and the end. Where nobody forgets by the schedule and `closing`
/// is enough (`specs/Enough`), the world ends stuck, and every row is printed. The caller flushes.
pub fn replay<W: Write, P: Progress>(
    alloc: Global,
    out: &mut W,
    plan: &Plan,
    programs: &Programs,
    inputs: &Inputs,
    script: &Script,
    closing: Option<u32>,
    progress: &P,
) -> Result<(), ReplayFault>
    requires programs { AreProgramsOf plan.now programs.now }
    requires inputs { AreInputsOf plan.now inputs.now }
    ensures printed { OnOk result (IsReplayed plan.now programs.now inputs.now script.now closing (W.contents out.old)
        (W.contents out.new)) }
    ensures broken_off { IfErr result
        (IsBrokenOff plan.now programs.now inputs.now script.now closing (W.contents out.old) (W.contents out.new)) }
{
    plan.invariant();
    let mut player = match Player::new(alloc, plan, programs, inputs) {
        Ok(player) => player,
        Err(memory) => return Err(ReplayFault::World(memory)),
    };
    player.play_on(out, script, closing, progress)?;
    player.world().invariant();
    write_end(out, plan, player.world(), closing).map_err(|_| ReplayFault::CannotWrite)
}

/// As `replay`; as comma-separated values the rows alone are printed, under their header: no refused step, how closing
/// rounds ended neither, nor who forgot. Where there is no memory for a step, nothing is printed.
pub fn replay_in<W: Write, P: Progress>(
    alloc: Global,
    out: &mut W,
    plan: &Plan,
    programs: &Programs,
    inputs: &Inputs,
    script: &Script,
    closing: Option<u32>,
    format: RowFormat,
    progress: &P,
) -> Result<(), ReplayFault>
    requires programs { AreProgramsOf plan.now programs.now }
    requires inputs { AreInputsOf plan.now inputs.now }
    ensures printed { OnOk result (IsReplayedIn format plan.now programs.now inputs.now script.now closing
        (W.contents out.old) (W.contents out.new)) }
    ensures broken_off { IfErr result
        (IsBrokenOffIn format plan.now programs.now inputs.now script.now closing (W.contents out.old)
        (W.contents out.new)) }
{
    match format {
        RowFormat::Text => replay(
            alloc, out, plan, programs, inputs, script, closing, progress,
        ),
        RowFormat::Csv => replay_as_csv(
            alloc, out, plan, programs, inputs, script, closing, progress,
        ),
    }
}

// Plays a schedule and makes closing rounds as `replay` does, and then prints the rows of each federate that kept its
// state.
fn replay_as_csv<W: Write, P: Progress>(
    alloc: Global,
    out: &mut W,
    plan: &Plan,
    programs: &Programs,
    inputs: &Inputs,
    script: &Script,
    closing: Option<u32>,
    progress: &P,
) -> Result<(), ReplayFault>
    requires programs { AreProgramsOf plan.now programs.now }
    requires inputs { AreInputsOf plan.now inputs.now }
    ensures printed { OnOk result (IsReplayedAsCsv plan.now programs.now inputs.now script.now closing
        (W.contents out.old) (W.contents out.new)) }
    ensures broken_off { IfErr result (IsUnprinted (W.contents out.old) (W.contents out.new)) }
{
    plan.invariant();
    let mut player = match Player::new(alloc, plan, programs, inputs) {
        Ok(player) => player,
        Err(memory) => return Err(ReplayFault::World(memory)),
    };
    let mut unseen = io::sink();
    player.play_on(&mut unseen, script, closing, progress)?;
    player.world().invariant();
    write_csv_histories(out, plan, player.world()).map_err(|_| ReplayFault::CannotWrite)
}
