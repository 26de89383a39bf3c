//! Steps that are made once more, one at a time, so that what came of each is seen.
ghost use Rattle.std.specs.Prelude.{◌≡◌, IfOk, OnOk, IfErr};
ghost use Rattle.std.specs.Io.KnownBytes.{Appends};
ghost use Rattle.plan.specs.Federation.{federate_count};
ghost use Rattle.world_stations.specs.Federation.{rows_in};
ghost use Rattle.world.specs.World.{stations_of, with_step};
ghost use Rattle.fedrun_frames.specs.Accounts.{last_row, row_made, account_of, made_text};
ghost use Rattle.fedrun_frames.specs.Shown.{HasShown, IsUntouched};

use crate::account::Account;
use crate::brought::brought_by;
use crate::counts::counts;
use crate::made_step::MadeStep;
use crate::writing::write_account;
use fedrun_replay::ReplayFault;
use plan::Plan;
use reactor::Rows;
use std::alloc::Global;
use std::io::Write;
use world::World;
use world_stations::{Memory, Outcome, Step};

/// Makes steps one after the other, and writes what came of each. Where there is no memory for a step, those before it
/// are written.
pub(crate) fn show_steps<W: Write>(
    alloc: Global,
    out: &mut W,
    plan: &Plan,
    world: &mut World<'_>,
    made: &[MadeStep],
) -> Result<(), ReplayFault>
    requires { plan.now ≡ world.old.draft }
    ensures { HasShown result plan.now (stations_of world.old) made.now (W.contents out.old) (W.contents out.new) }
{
    for one in made {
        show(alloc, out, plan, world, *one)?;
    }
    Ok(())
}

// Makes a step, and writes what came of it. Where there is no memory for it, nothing is written.
fn show<W: Write>(
    alloc: Global,
    out: &mut W,
    plan: &Plan,
    world: &mut World<'_>,
    made: MadeStep,
) -> Result<(), ReplayFault>
    requires { plan.now ≡ world.old.draft }
    ensures written { OnOk result (Appends (W.contents out.old) (W.contents out.new)
        (made_text plan.now (stations_of world.old) made)) }
    ensures stepped { OnOk result (world.new ≡ with_step world.old made.step) }
    ensures stopped { IfErr result (λ fault. IsUntouched fault (W.contents out.old) (W.contents out.new)) }
{
    let account = match make(alloc, world, made) {
        Ok(account) => account,
        Err(memory) => return Err(ReplayFault::World(memory)),
    };
    write_account(out, plan, world, &account).map_err(|_| ReplayFault::CannotWrite)
}

/// Makes a step, and answers what came of it.
pub fn make(alloc: Global, world: &mut World<'_>, made: MadeStep) -> Result<Account, Memory>
    ensures account { IfOk result (λ account. account
        ≡ account_of (stations_of world.old) (federate_count world.old.draft) made) }
    ensures stepped { OnOk result (world.new ≡ with_step world.old made.step) }
{
    let step = made.step();
    let before = counts(alloc, world)?;
    let brought = brought_by(world, step);
    let outcome = world.apply(step)?;
    let row = row_made(alloc, world, step, outcome)?;
    Ok(Account {
        line: made.line(),
        step,
        brought,
        outcome,
        row,
        before,
    })
}

// The row that a step made that ended so, in the world after it.
fn row_made(alloc: Global, world: &World<'_>, step: Step, outcome: Outcome) -> Result<Rows, Memory>
    ensures { IfOk result (λ row. row ≡ row_made step outcome (stations_of world.now)) }
{
    match (step, outcome) {
        (Step::Advance(federate), Outcome::Done) => last_row_of(alloc, world, federate),
        _ => Ok(Rows::new(alloc)),
    }
}

// The last row of a federate, alone.
fn last_row_of(alloc: Global, world: &World<'_>, federate: usize) -> Result<Rows, Memory>
    ensures { IfOk result (λ row. row ≡ last_row (rows_in (stations_of world.now) federate)) }
{
    match world.rows(federate) {
        Some(rows) => last_row(alloc, rows),
        None => Ok(Rows::new(alloc)),
    }
}

// The last of these rows, alone.
fn last_row(alloc: Global, rows: &Rows) -> Result<Rows, Memory>
    ensures { IfOk result (λ row. row ≡ last_row rows.now) }
{
    let mut last = Rows::new(alloc);
    let Some(place) = rows.len().checked_sub(1) else {
        return Ok(last);
    };
    let row = rows.row(place);
    match last.push(row.federate(), row.tag(), row.inputs(), row.outputs()) {
        Ok(()) => Ok(last),
        Err(_) => Err(Memory),
    }
}
