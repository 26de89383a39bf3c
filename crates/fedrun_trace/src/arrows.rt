//! Arrows of frames, from the step that sent one to each that delivers it; and a mark where none does.
ghost use Rattle.std.specs.Prelude.{◌≡◌, ◌+◌, ◌<◌, OnOk, Some, length, drop, slice_get};
ghost use Rattle.std.specs.List.{list_any};
ghost use Rattle.std.specs.Io.KnownBytes.{Appends};
ghost use Rattle.world_stations.specs.World.{frames_in};
ghost use Rattle.world.specs.World.{stations_of};
ghost use Rattle.fedrun_trace.specs.Steps.{ended_arrow, arrival_of, arrival_text, is_same_way, is_delivery, is_delivered, start_if, start_to};
ghost use Rattle.fedrun_trace.specs.Steps.{starts_text, seen_text, departure_text, departures_in, link_departures};
ghost use Rattle.fedrun_trace.specs.Steps.{departures_text};

use crate::events::{write_end, write_start, write_undelivered};
use crate::seen_frame::SeenFrame;
use crate::slices::write_ended;
use fedrun_frames::counts::counts_of;
use fedrun_frames::{Account, Brought, LinkCounts, MadeStep};
use plan::Plan;
use signal::Frame;
use std::io;
use std::io::Write;
use world::World;
use world_stations::{Dir, Outcome, Step};

/// Writes the end of the arrow of the frame that a step with this number delivered, if it delivered one.
#[tactic(auto, unfolding(crate::specs::Steps::arrival_text))]
pub(crate) fn write_arrival<W: Write>(
    out: &mut W,
    plan: &Plan,
    number: usize,
    found: &Option<Frame>,
    account: &Account,
) -> io::Result<()>
    ensures { OnOk result (Appends (W.contents out.old) (W.contents out.new)
        (arrival_text plan.now number found.now account.now)) }
{
    match found {
        Some(frame) => write_arrival_of(out, plan, number, *frame, account),
        None => Ok(()),
    }
}

// Writes it for this frame.
fn write_arrival_of<W: Write>(
    out: &mut W,
    plan: &Plan,
    number: usize,
    frame: Frame,
    account: &Account,
) -> io::Result<()>
    ensures { OnOk result (Appends (W.contents out.old) (W.contents out.new)
        (arrival_of plan.now number (Some frame) account.now.brought account.now.outcome account.now.step)) }
{
    match account.step() {
        Step::Deliver(dir, k) => {
            let seen = SeenFrame {
                step: number,
                dir,
                number: k,
                frame,
            };
            write_ended_arrow(out, plan, &seen, account.brought(), account.outcome())
        }
        _ => Ok(()),
    }
}

// Writes the end of an arrow, with how the step ended that delivers the frame.
#[tactic(auto, unfolding(crate::specs::Steps::ended_arrow))]
fn write_ended_arrow<W: Write>(
    out: &mut W,
    plan: &Plan,
    seen: &SeenFrame,
    brought: Brought,
    outcome: Outcome,
) -> io::Result<()>
    ensures { OnOk result (Appends (W.contents out.old) (W.contents out.new)
        (ended_arrow plan.now seen.now brought outcome)) }
{
    write_end(out, plan, seen)?;
    out.write_all(b",\"ended\":\"")?;
    write_ended(out, brought, outcome)?;
    out.write_all(b"\"}}")
}

/// Writes where arrows begin of all frames that a step sent, the one with this number of all that were made, in the
/// world after it.
#[tactic(auto, unfolding(crate::specs::Steps::departures_text))]
pub(crate) fn write_departures<W: Write>(
    out: &mut W,
    plan: &Plan,
    world: &World<'_>,
    made: &[MadeStep],
    number: usize,
    before: &[LinkCounts],
) -> io::Result<()>
    ensures { OnOk result (Appends (W.contents out.old) (W.contents out.new)
        (departures_text plan.now made.now number (stations_of world.now) before.now)) }
{
    for federate in 0..before.len() {
        write_link_departures(
            out,
            plan,
            world,
            made,
            number,
            federate,
            counts_of(before, federate),
        )?;
    }
    Ok(())
}

// Of those sent over a federate's link: of the federate, and then to it.
fn write_link_departures<W: Write>(
    out: &mut W,
    plan: &Plan,
    world: &World<'_>,
    made: &[MadeStep],
    number: usize,
    federate: usize,
    before: LinkCounts,
) -> io::Result<()>
    ensures { OnOk result (Appends (W.contents out.old) (W.contents out.new)
        (link_departures plan.now made.now number (stations_of world.now) before federate)) }
{
    write_departures_in(out, plan, world, made, number, Dir::Up(federate), before.up)?;
    write_departures_in(
        out,
        plan,
        world,
        made,
        number,
        Dir::Down(federate),
        before.down,
    )
}

// Of the frames of a direction after this many.
fn write_departures_in<W: Write>(
    out: &mut W,
    plan: &Plan,
    world: &World<'_>,
    made: &[MadeStep],
    number: usize,
    dir: Dir,
    gone: usize,
) -> io::Result<()>
    ensures { OnOk result (Appends (W.contents out.old) (W.contents out.new)
        (departures_in plan.now made.now number dir gone (frames_in (stations_of world.now) dir))) }
{
    let sent = world.sent(dir);
    for before in gone..sent {
        let frame = world.frame(dir, before + 1);
        write_departure(out, plan, made, number, dir, before + 1, frame)?;
    }
    Ok(())
}

// Of the k-th frame of a direction, if it is there.
fn write_departure<W: Write>(
    out: &mut W,
    plan: &Plan,
    made: &[MadeStep],
    number: usize,
    dir: Dir,
    k: usize,
    frame: Option<Frame>,
) -> io::Result<()>
    ensures { OnOk result (Appends (W.contents out.old) (W.contents out.new)
        (departure_text plan.now made.now number dir k frame)) }
{
    match frame {
        Some(frame) => {
            let seen = SeenFrame {
                step: number,
                dir,
                number: k,
                frame,
            };
            write_departing(out, plan, made, &seen)
        }
        None => Ok(()),
    }
}

// Of a frame: where its arrows begin, or a mark.
fn write_departing<W: Write>(
    out: &mut W,
    plan: &Plan,
    made: &[MadeStep],
    seen: &SeenFrame,
) -> io::Result<()>
    ensures { OnOk result (Appends (W.contents out.old) (W.contents out.new)
        (seen_text plan.now made.now seen.now)) }
{
    if is_delivered(steps_after(made, seen.step), seen.dir, seen.number) {
        write_starts(out, plan, made, seen)
    } else {
        write_undelivered(out, plan, seen)
    }
}

// The steps after the first ones.
fn steps_after(made: &[MadeStep], first: usize) -> &[MadeStep]
    ensures { result.now ≡ drop first made.now }
{
    match made.get(first..) {
        Some(rest) => rest,
        None => &[],
    }
}

// Whether one of these steps delivers the k-th frame of a direction.
fn is_delivered(made: &[MadeStep], dir: Dir, k: usize) -> bool
    ensures { result ≡ is_delivered dir k made.now }
{
    made.iter().any(|one| is_delivery(one.step(), dir, k))
}

// Whether a step delivers it.
fn is_delivery(step: Step, dir: Dir, k: usize) -> bool
    ensures { result ≡ is_delivery dir k step }
{
    match step {
        Step::Deliver(to, number) => is_same_way(to, dir) && number == k,
        _ => false,
    }
}

fn is_same_way(one: Dir, other: Dir) -> bool
    ensures { result ≡ is_same_way one other }
{
    match (one, other) {
        (Dir::Up(i), Dir::Up(j)) | (Dir::Down(i), Dir::Down(j)) => i == j,
        _ => false,
    }
}

// Writes the beginnings of the arrows to all later steps that deliver the frame.
fn write_starts<W: Write>(
    out: &mut W,
    plan: &Plan,
    made: &[MadeStep],
    seen: &SeenFrame,
) -> io::Result<()>
    ensures { OnOk result (Appends (W.contents out.old) (W.contents out.new)
        (starts_text plan.now made.now seen.now)) }
{
    let count = made.len();
    for later in seen.step..count {
        write_start_to(out, plan, made, seen, later)?;
    }
    Ok(())
}

// Writes the beginning of an arrow to the step at this place, where it delivers the frame.
fn write_start_to<W: Write>(
    out: &mut W,
    plan: &Plan,
    made: &[MadeStep],
    seen: &SeenFrame,
    place: usize,
) -> io::Result<()>
    requires { place < length made.now }
    ensures { OnOk result (Appends (W.contents out.old) (W.contents out.new)
        (start_to plan.now seen.now (place + 1) (slice_get made.now place))) }
{
    match made.get(place) {
        Some(one) => write_start_if(out, plan, seen, place + 1, one.step()),
        None => Ok(()),
    }
}

// Writes the beginning of an arrow to this step, the one with this number, where it delivers the frame.
fn write_start_if<W: Write>(
    out: &mut W,
    plan: &Plan,
    seen: &SeenFrame,
    number: usize,
    step: Step,
) -> io::Result<()>
    ensures { OnOk result (Appends (W.contents out.old) (W.contents out.new)
        (start_if plan.now seen.now number step)) }
{
    if is_delivery(step, seen.dir, seen.number) {
        write_start(out, plan, seen, number)
    } else {
        Ok(())
    }
}
