//! Steps that are made once more, one at a time, and what is written of each.
ghost use Rattle.std.specs.Prelude.{◌≡◌, ◌++◌, OnOk, IfErr, codes};
ghost use Rattle.std.specs.Io.KnownBytes.{Appends};
ghost use Rattle.plan.specs.Federation.{federate_count};
ghost use Rattle.files_text.specs.PlanText.{printed_each};
ghost use Rattle.world.specs.World.{stations_of, with_step};
ghost use Rattle.fedrun_frames.specs.Shown.{IsUntouched};
ghost use Rattle.fedrun_trace.specs.Steps.{found_frame, events_text, step_text, steps_text};
ghost use Rattle.fedrun_trace.specs.Traced.{opening, federate_heading, heading, trace_text, HasTraced};

use crate::arrows::{write_arrival, write_departures};
use crate::events::write_track;
use crate::slices::write_slice;
use crate::tracks::{COORDINATOR, federate_track};
use fedrun_frames::{Account, MadeStep, make};
use fedrun_replay::ReplayFault;
use files_text::federate_name;
use plan::Plan;
use signal::Frame;
use std::alloc::Global;
use std::io;
use std::io::Write;
use world::World;
use world_stations::Step;

/// Makes steps one after the other, and writes a trace of them. Where there is no memory for a step, what is written of
/// those before it stands.
#[tactic(auto, unfolding(crate::specs::Traced::trace_text))]
pub(crate) fn trace_steps<W: Write>(
    alloc: Global,
    out: &mut W,
    plan: &Plan,
    world: &mut World<'_>,
    made: &[MadeStep],
) -> Result<(), ReplayFault>
    requires { plan.now ≡ world.old.draft }
    ensures { HasTraced result (trace_text plan.now (stations_of world.old) made.now) (W.contents out.old)
        (W.contents out.new) }
{
    write_heading(out, plan).map_err(|_| ReplayFault::CannotWrite)?;
    trace_each(alloc, out, plan, world, made)?;
    out.write_all(b"\n]\n")
        .map_err(|_| ReplayFault::CannotWrite)
}

// Writes the beginning, and all tracks.
#[tactic(auto, unfolding(crate::specs::Traced::heading))]
fn write_heading<W: Write>(out: &mut W, plan: &Plan) -> io::Result<()>
    ensures { OnOk result (Appends (W.contents out.old) (W.contents out.new) (heading plan.now)) }
{
    write_opening(out)?;
    write_track(out, COORDINATOR, "coordinator")?;
    write_federates(out, plan)
}

// Writes the beginning of the array.
#[tactic(auto, unfolding(crate::specs::Traced::opening))]
fn write_opening<W: Write>(out: &mut W) -> io::Result<()>
    ensures { OnOk result (Appends (W.contents out.old) (W.contents out.new) opening) }
{
    out.write_all(
        b"[\n{\"ph\":\"M\",\"name\":\"process_name\",\"pid\":1,\"tid\":1,\"ts\":0,\
        \"args\":{\"name\":\"schedule: 1 us is one step\"}}",
    )
}

// Writes the tracks of all federates.
fn write_federates<W: Write>(out: &mut W, plan: &Plan) -> io::Result<()>
    ensures { OnOk result (Appends (W.contents out.old) (W.contents out.new)
        (printed_each (federate_heading plan.now) (federate_count plan.now))) }
{
    for federate in 0..plan.federate_count() {
        let track = federate_track(plan, federate);
        write_track(out, track, federate_name(plan, federate))?;
    }
    Ok(())
}

// Makes steps one after the other, and writes the events of each.
fn trace_each<W: Write>(
    alloc: Global,
    out: &mut W,
    plan: &Plan,
    world: &mut World<'_>,
    made: &[MadeStep],
) -> Result<(), ReplayFault>
    requires { plan.now ≡ world.old.draft }
    ensures { HasTraced result (steps_text plan.now made.now 1 (stations_of world.old) made.now)
        (W.contents out.old) (W.contents out.new) }
{
    for place in 0..made.len() {
        let one = made[place];
        trace_step(alloc, out, plan, world, made, one, place + 1)?;
    }
    Ok(())
}

// Makes a step, the one with this number, and writes its events. Where there is no memory for it, nothing is written.
fn trace_step<W: Write>(
    alloc: Global,
    out: &mut W,
    plan: &Plan,
    world: &mut World<'_>,
    made: &[MadeStep],
    one: MadeStep,
    number: usize,
) -> Result<(), ReplayFault>
    requires { plan.now ≡ world.old.draft }
    ensures written { OnOk result (Appends (W.contents out.old) (W.contents out.new)
        (step_text plan.now made.now number (stations_of world.old) one)) }
    ensures stepped { OnOk result (world.new ≡ with_step world.old one.step) }
    ensures stopped { IfErr result (λ fault. IsUntouched fault (W.contents out.old) (W.contents out.new)) }
{
    let found = found_frame(world, one.step());
    let account = match make(alloc, world, one) {
        Ok(account) => account,
        Err(memory) => return Err(ReplayFault::World(memory)),
    };
    write_events(out, plan, world, made, number, &found, &account).map_err(
        |_| ReplayFault::CannotWrite,
    )
}

// The frame that a step delivers, if it is there.
fn found_frame(world: &World<'_>, step: Step) -> Option<Frame>
    ensures { result ≡ found_frame (stations_of world.now) step }
{
    match step {
        Step::Deliver(dir, k) => world.frame(dir, k),
        _ => None,
    }
}

// Writes the events of a step, in the world after it.
#[tactic(auto, unfolding(crate::specs::Steps::events_text))]
fn write_events<W: Write>(
    out: &mut W,
    plan: &Plan,
    world: &World<'_>,
    made: &[MadeStep],
    number: usize,
    found: &Option<Frame>,
    account: &Account,
) -> io::Result<()>
    ensures { OnOk result (Appends (W.contents out.old) (W.contents out.new)
        (events_text plan.now made.now number found.now (stations_of world.now) account.now)) }
{
    write_slice(out, plan, number, found, account)?;
    write_arrival(out, plan, number, found, account)?;
    write_departures(out, plan, world, made, number, account.before())
}
