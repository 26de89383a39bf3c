//! Pictures of federations and of schedules, written to a writer.
ghost use Rattle.std.specs.Prelude.{◌≡◌, ◌≢◌, IfErr, IfOk, OnOk, length, vec_len};
ghost use Rattle.plan.specs.External.{AreInputsOf};
ghost use Rattle.reactor_programs.specs.Programs.{AreProgramsOf};
ghost use Rattle.fedrun_frames.specs.Shown.{AreStepsOf};
ghost use Rattle.fedrun_draw.specs.Excerpts.{steps_in};
ghost use Rattle.fedrun_draw.specs.Drawn.{HasPicture, made_lines, moment_lines, AreLinesOf, HasFewSteps, IsShort};
ghost use Rattle.fedrun_draw.specs.Drawn.{IsInterrupted, IsWithin, IsUndrawn, IsFaultOf};

use crate::excerpt::Excerpt;
use crate::fault::{DrawFault, MOST_FRAMES, MOST_STEPS};
use crate::playing::history_of;
use crate::reading::figures_of;
use fedrun_frames::{MadeStep, steps_of_schedule};
use fedrun_replay::ReplayFault;
use files_pictures::{History, Picture, federation_picture, schedule_picture, write_picture};
use files_script::Script;
use plan::{Inputs, Plan};
use reactor_programs::Programs;
use std::alloc::{AllocError, Global};
use std::io::Write;

/// Writes the picture of a federation: federates as boxes in columns, connections as lines between their ports; where
/// programs are passed, with the reactions of each. The caller flushes; it is written in many small parts.
pub fn draw_federation<W: Write>(
    alloc: Global,
    out: &mut W,
    plan: &Plan,
    programs: Option<&Programs>,
) -> Result<(), DrawFault>
    ensures ok { OnOk result (HasPicture (W.contents out.old) (W.contents out.new)) }
    ensures stands { IfErr result IsInterrupted }
    ensures untouched { IfErr result (λ fault. fault ≢ DrawFault.CannotWrite → out.new ≡ out.old) }
{
    let picture = picture_of_plan(alloc, plan, programs)?;
    write_all(out, &picture)
}

/// Writes the picture of a schedule, played in a world of which nothing was asked, and then, with `closing`, of closing
/// rounds until the world is stuck or this many were made: lifelines, and arrows for frames. All steps are made, and
/// those of the excerpt drawn. The caller flushes; it is written in many small parts.
pub fn draw_schedule<W: Write>(
    alloc: Global,
    out: &mut W,
    plan: &Plan,
    programs: &Programs,
    inputs: &Inputs,
    script: &Script,
    closing: Option<u32>,
    excerpt: Excerpt,
) -> Result<(), DrawFault>
    requires programs { AreProgramsOf plan.now programs.now }
    requires inputs { AreInputsOf plan.now inputs.now }
    ensures picture { OnOk result (HasPicture (W.contents out.old) (W.contents out.new)) }
    ensures short { OnOk result (IsShort plan.now programs.now inputs.now script.now closing excerpt) }
    ensures stands { IfErr result (IsFaultOf plan.now programs.now inputs.now script.now closing excerpt) }
    ensures untouched { IfErr result (λ fault. fault ≢ DrawFault.CannotWrite → out.new ≡ out.old) }
{
    let history = history_of_schedule(alloc, plan, programs, inputs, script, closing, excerpt)?;
    let picture = schedule_picture(alloc, &history)?;
    write_all(out, &picture)
}

// The picture of a plan.
fn picture_of_plan(
    alloc: Global,
    plan: &Plan,
    programs: Option<&Programs>,
) -> Result<Picture, AllocError> {
    let figures = figures_of(alloc, plan, programs)?;
    federation_picture(alloc, &figures)
}

/// What is drawn of an excerpt of a schedule: of each step, for which line it was made, what is written beside it, what
/// it sent, and what it brought.
pub fn history_of_schedule(
    alloc: Global,
    plan: &Plan,
    programs: &Programs,
    inputs: &Inputs,
    script: &Script,
    closing: Option<u32>,
    excerpt: Excerpt,
) -> Result<History, DrawFault>
    requires programs { AreProgramsOf plan.now programs.now }
    requires inputs { AreInputsOf plan.now inputs.now }
    ensures short { IfOk result (λ history.
        HasFewSteps plan.now programs.now inputs.now script.now closing excerpt (vec_len history.steps)) }
    ensures lines { IfOk result (λ history.
        AreLinesOf plan.now programs.now inputs.now script.now closing excerpt (moment_lines history.steps.items)) }
    ensures stands { IfErr result (IsFaultOf plan.now programs.now inputs.now script.now closing excerpt) }
{
    let made = made_steps(alloc, plan, programs, inputs, script, closing)?;
    recorded(alloc, plan, programs, inputs, made.as_slice(), excerpt)
}

// The steps of a schedule and of its closing rounds, as a replay makes them.
fn made_steps(
    alloc: Global,
    plan: &Plan,
    programs: &Programs,
    inputs: &Inputs,
    script: &Script,
    closing: Option<u32>,
) -> Result<Vec<MadeStep>, DrawFault>
    requires programs { AreProgramsOf plan.now programs.now }
    requires inputs { AreInputsOf plan.now inputs.now }
    ensures ok { IfOk result (λ made. AreStepsOf plan.now programs.now inputs.now script.now closing made.items) }
    ensures err { IfErr result IsInterrupted }
{
    match steps_of_schedule(alloc, plan, programs, inputs, script, closing) {
        Ok(made) => Ok(made),
        Err(ReplayFault::World(_)) => Err(DrawFault::Memory),
        Err(ReplayFault::CannotWrite) => Err(DrawFault::CannotWrite),
    }
}

// What is drawn of an excerpt of these steps, made anew. Where that is too many steps, or too many frames, it is
// refused.
fn recorded(
    alloc: Global,
    plan: &Plan,
    programs: &Programs,
    inputs: &Inputs,
    made: &[MadeStep],
    excerpt: Excerpt,
) -> Result<History, DrawFault>
    requires programs { AreProgramsOf plan.now programs.now }
    requires inputs { AreInputsOf plan.now inputs.now }
    ensures few { OnOk result (IsWithin (length (steps_in excerpt made.now))) }
    ensures each { IfOk result (λ history. vec_len history.steps ≡ length (steps_in excerpt made.now)) }
    ensures lines { IfOk result (λ history.
        moment_lines history.steps.items ≡ made_lines (steps_in excerpt made.now)) }
    ensures err { IfErr result (IsUndrawn (length (steps_in excerpt made.now))) }
{
    let drawn = excerpt.drawn(made);
    if drawn.len() > MOST_STEPS {
        return Err(DrawFault::TooManySteps(drawn.len()));
    }
    let end = excerpt.front(made).len().min(made.len());
    let begin = end.saturating_sub(drawn.len());
    let history = history_of(
        alloc,
        plan,
        programs,
        inputs,
        &made[..begin],
        drawn,
        &made[end..],
    )?;
    let frames = history.frames.len();
    if frames > MOST_FRAMES {
        return Err(DrawFault::TooManyFrames(frames));
    }
    Ok(history)
}

// Writes a picture.
fn write_all<W: Write>(out: &mut W, picture: &Picture) -> Result<(), DrawFault>
    ensures ok { OnOk result (HasPicture (W.contents out.old) (W.contents out.new)) }
    ensures err { IfErr result (λ fault. fault ≡ DrawFault.CannotWrite) }
{
    match write_picture(out, picture) {
        Ok(()) => Ok(()),
        Err(_) => Err(DrawFault::CannotWrite),
    }
}
