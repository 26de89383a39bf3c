//! The steps that a schedule makes, each with its line.
ghost use Rattle.std.specs.Prelude.{◌≡◌, ◌++◌, drop, IfOk, OnOk};
ghost use Rattle.plan.specs.External.{AreInputsOf};
ghost use Rattle.reactor_programs.specs.Programs.{AreProgramsOf};
ghost use Rattle.fedrun_replay.specs.Play.{made_for, count_in, tasks_of};
ghost use Rattle.fedrun_frames.specs.Making.{ListsTasks, ListsLines, ListsRounds, ListsClosing};
ghost use Rattle.fedrun_frames.specs.Shown.{AreStepsOf};

use crate::made_step::MadeStep;
use fedrun_progress::NoProgress;
use fedrun_replay::{Player, ReplayFault};
use files_script::{ScheduleLine, Script};
use plan::{Inputs, Plan};
use reactor_programs::Programs;
use std::alloc::Global;
use std::io::sink;
use world::World;
use world_stations::{Memory, Step};

/// The steps of a schedule and of its closing rounds, as a player makes them. What the player prints is let go.
pub fn steps_of_schedule(
    alloc: Global,
    plan: &Plan,
    programs: &Programs,
    inputs: &Inputs,
    script: &Script,
    closing: Option<u32>,
) -> Result<Vec<MadeStep>, ReplayFault>
    requires programs { AreProgramsOf plan.now programs.now }
    requires inputs { AreInputsOf plan.now inputs.now }
    ensures { IfOk result (λ made. AreStepsOf plan.now programs.now inputs.now script.now closing made.items) }
{
    let mut player = match Player::new(alloc, plan, programs, inputs) {
        Ok(player) => player,
        Err(memory) => return Err(ReplayFault::World(memory)),
    };
    let mut made = Vec::new(alloc);
    make_lines(&mut player, &mut made, script.lines())?;
    close(&mut player, &mut made, script, closing)?;
    Ok(made)
}

// Does what the lines of a schedule ask for, one after the other.
fn make_lines(
    player: &mut Player<'_>,
    made: &mut Vec<MadeStep>,
    lines: &[ScheduleLine],
) -> Result<(), ReplayFault>
    ensures { OnOk result (ListsLines lines.now player.old player.new made.old.items made.new.items) }
{
    for line in lines {
        make_line(player, made, *line)?;
    }
    Ok(())
}

// Does what a line asks for.
fn make_line(
    player: &mut Player<'_>,
    made: &mut Vec<MadeStep>,
    line: ScheduleLine,
) -> Result<(), ReplayFault>
    ensures { OnOk result (ListsTasks line.number (tasks_of (count_in player.old) line.command) player.old player.new
        made.old.items made.new.items) }
{
    let before = player.world().steps().len();
    let mut unread = sink();
    player.obey(&mut unread, line)?;
    match list(made, line.number, player.world(), before) {
        Ok(()) => Ok(()),
        Err(memory) => Err(ReplayFault::World(memory)),
    }
}

// Makes closing rounds for the line after the last, where they are asked for.
fn close(
    player: &mut Player<'_>,
    made: &mut Vec<MadeStep>,
    script: &Script,
    closing: Option<u32>,
) -> Result<(), ReplayFault>
    ensures { OnOk result (ListsClosing script.now closing player.old made.old.items made.new.items) }
{
    match closing {
        Some(most) => make_closing_rounds(player, made, script.line_after(), most),
        None => Ok(()),
    }
}

// Makes closing rounds for a line.
fn make_closing_rounds(
    player: &mut Player<'_>,
    made: &mut Vec<MadeStep>,
    line: usize,
    most: u32,
) -> Result<(), ReplayFault>
    ensures { OnOk result (ListsRounds line most player.old made.old.items made.new.items) }
{
    let before = player.world().steps().len();
    let mut unread = sink();
    player.close(&mut unread, line, most, &NoProgress)?;
    match list(made, line, player.world(), before) {
        Ok(()) => Ok(()),
        Err(memory) => Err(ReplayFault::World(memory)),
    }
}

// Adds the steps of a world after this many, which were made for a line.
fn list(
    made: &mut Vec<MadeStep>,
    line: usize,
    world: &World<'_>,
    before: usize,
) -> Result<(), Memory>
    ensures { OnOk result (made.new.items ≡ made.old.items ++ made_for line (drop before world.now.steps)) }
{
    let rest = world.steps().after(before)?;
    add_each(made, line, rest.as_slice())
}

// Adds steps, which were made for a line.
fn add_each(made: &mut Vec<MadeStep>, line: usize, steps: &[Step]) -> Result<(), Memory>
    ensures { OnOk result (made.new.items ≡ made.old.items ++ made_for line steps.now) }
{
    for step in steps {
        made.push(MadeStep::new(line, *step))?;
    }
    Ok(())
}
