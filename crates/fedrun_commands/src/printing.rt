//! What a request prints, once its files are read.
ghost use Rattle.std.specs.Prelude.{◌≡◌, ◌≢◌, Ok, IfErr, OnOk};
ghost use Rattle.std.specs.Io.KnownBytes.{Keeps};
ghost use Rattle.plan.specs.External.{AreInputsOf};
ghost use Rattle.reactor_programs.specs.Programs.{AreProgramsOf};
ghost use Rattle.fedrun_replay.specs.AsCsv.{IsReplayedIn};
ghost use Rattle.fedrun_run.specs.Printed.{PrintsAudited};
ghost use Rattle.fedrun_words.specs.declared.fault.Fault.TheVariants.{CannotWrite as cannot_write};
ghost use Rattle.fedrun_commands.specs.Faults.{status_of};
ghost use Rattle.fedrun_frames.specs.Shown.{ShowsSchedule};
ghost use Rattle.fedrun_trace.specs.Traced.{TracesSchedule};
ghost use Rattle.fedrun_draw.specs.Drawn.{HasPicture};
ghost use Rattle.fedrun_commands.specs.Played.{IsDrawn, IsPlayedAs, IsPlayFault, IsBreakingOff};
ghost use Rattle.fedrun_commands.specs.Refused.{IsPictureFault, IsRunFault};

use crate::fault::NodeFault;
use crate::play::{PlayOutput, Scheduled};
use crate::running::Run;
use fedrun_draw::{DrawFault, Excerpt, draw_federation, draw_schedule};
use fedrun_files::Sources;
use fedrun_frames::frames;
use fedrun_progress::Progress;
use fedrun_replay::{ReplayFault, replay_in};
use fedrun_run::{AuditedFault, print_audited_run};
use fedrun_trace::trace;
use fedrun_words::Fault;
use files_text::RowFormat;
use plan::Plan;
use reactor_programs::Programs;
use std::alloc::Global;
use std::io::Write;
use wires::NetRuntime;

/// Plays a schedule and prints what is asked for. Where there is no memory for a step, what is printed of the steps
/// before it stands.
pub(crate) fn print_played<O: Write, P: Progress>(
    alloc: Global,
    scheduled: &Scheduled,
    output: PlayOutput,
    out: &mut O,
    progress: &P,
) -> Result<(), Fault<'static, NodeFault<'static>>>
    requires programs { AreProgramsOf scheduled.now.sources.plan scheduled.now.sources.programs }
    requires inputs { AreInputsOf scheduled.now.sources.plan scheduled.now.sources.inputs }
    ensures ok { OnOk result (IsPlayedAs output scheduled.now.sources.plan scheduled.now.sources.programs
        scheduled.now.sources.inputs scheduled.now.script
        scheduled.now.until_stuck (O.contents out.old) (O.contents out.new)) }
    ensures stands { IfErr result (IsPlayFault output scheduled.now.sources scheduled.now.script
        scheduled.now.until_stuck (O.contents out.old)
        (O.contents out.new)) }
    ensures untouched { IfErr result (λ fault. status_of fault ≢ 3 → out.new ≡ out.old) }
{
    match output {
        PlayOutput::Rows(format) => print_replay(alloc, scheduled, format, out, progress),
        PlayOutput::Frames => print_frames(alloc, scheduled, out),
        PlayOutput::Trace => print_trace(alloc, scheduled, out),
        PlayOutput::Picture(excerpt) => print_schedule_picture(alloc, scheduled, excerpt, out),
    }
}

// Plays a schedule and prints what `replay_in` does. Where there is no memory for a step, the refused steps before it
// are written, or as comma-separated values nothing.
fn print_replay<O: Write, P: Progress>(
    alloc: Global,
    scheduled: &Scheduled,
    format: RowFormat,
    out: &mut O,
    progress: &P,
) -> Result<(), Fault<'static, NodeFault<'static>>>
    requires programs { AreProgramsOf scheduled.now.sources.plan scheduled.now.sources.programs }
    requires inputs { AreInputsOf scheduled.now.sources.plan scheduled.now.sources.inputs }
    ensures ok { OnOk result (IsReplayedIn format scheduled.now.sources.plan scheduled.now.sources.programs
        scheduled.now.sources.inputs scheduled.now.script
        scheduled.now.until_stuck (O.contents out.old) (O.contents out.new)) }
    ensures stands { IfErr result (IsPlayFault (PlayOutput.Rows format) scheduled.now.sources scheduled.now.script
        scheduled.now.until_stuck
        (O.contents out.old) (O.contents out.new)) }
    ensures late { IfErr result (λ fault. status_of fault ≡ 3) }
{
    let sources = &scheduled.sources;
    let played = replay_in(
        alloc,
        out,
        &sources.plan,
        &sources.programs,
        &sources.inputs,
        &scheduled.script,
        scheduled.until_stuck,
        format,
        progress,
    );
    sent_on(out, played)
}

// Plays a schedule and prints what `frames` does. Where there is no memory for a step, those before it are written.
fn print_frames<O: Write>(
    alloc: Global,
    scheduled: &Scheduled,
    out: &mut O,
) -> Result<(), Fault<'static, NodeFault<'static>>>
    requires programs { AreProgramsOf scheduled.now.sources.plan scheduled.now.sources.programs }
    requires inputs { AreInputsOf scheduled.now.sources.plan scheduled.now.sources.inputs }
    ensures ok { OnOk result (ShowsSchedule scheduled.now.sources.plan scheduled.now.sources.programs
        scheduled.now.sources.inputs scheduled.now.script
        scheduled.now.until_stuck (O.contents out.old) (O.contents out.new)) }
    ensures stands { IfErr result (IsPlayFault PlayOutput.Frames scheduled.now.sources scheduled.now.script
        scheduled.now.until_stuck (O.contents out.old)
        (O.contents out.new)) }
    ensures late { IfErr result (λ fault. status_of fault ≡ 3) }
{
    let sources = &scheduled.sources;
    let played = frames(
        alloc,
        out,
        &sources.plan,
        &sources.programs,
        &sources.inputs,
        &scheduled.script,
        scheduled.until_stuck,
    );
    sent_on(out, played)
}

// Plays a schedule and prints what `trace` does. Where there is no memory for a step, a prefix of what is written of
// those before it stands.
fn print_trace<O: Write>(
    alloc: Global,
    scheduled: &Scheduled,
    out: &mut O,
) -> Result<(), Fault<'static, NodeFault<'static>>>
    requires programs { AreProgramsOf scheduled.now.sources.plan scheduled.now.sources.programs }
    requires inputs { AreInputsOf scheduled.now.sources.plan scheduled.now.sources.inputs }
    ensures ok { OnOk result (TracesSchedule scheduled.now.sources.plan scheduled.now.sources.programs
        scheduled.now.sources.inputs scheduled.now.script
        scheduled.now.until_stuck (O.contents out.old) (O.contents out.new)) }
    ensures stands { IfErr result (IsPlayFault PlayOutput.Trace scheduled.now.sources scheduled.now.script
        scheduled.now.until_stuck (O.contents out.old)
        (O.contents out.new)) }
    ensures late { IfErr result (λ fault. status_of fault ≡ 3) }
{
    let sources = &scheduled.sources;
    let played = trace(
        alloc,
        out,
        &sources.plan,
        &sources.programs,
        &sources.inputs,
        &scheduled.script,
        scheduled.until_stuck,
    );
    sent_on(out, played)
}

// What came of playing a schedule, once what it wrote is sent on: that is done whatever came of it.
fn sent_on<O: Write>(
    out: &mut O,
    played: Result<(), ReplayFault>,
) -> Result<(), Fault<'static, NodeFault<'static>>>
    ensures kept { Keeps (O.contents out.old) (O.contents out.new) }
    ensures ok { OnOk result (played ≡ Ok tt) }
    ensures fault { IfErr result (IsBreakingOff played) }
    ensures late { IfErr result (λ fault. status_of fault ≡ 3) }
{
    flush(out)?;
    match played {
        Ok(()) => Ok(()),
        Err(ReplayFault::World(memory)) => Err(Fault::More(NodeFault::World(memory))),
        Err(ReplayFault::CannotWrite) => Err(Fault::CannotWrite),
    }
}

// Plays a schedule and prints a picture of some of its steps.
fn print_schedule_picture<O: Write>(
    alloc: Global,
    scheduled: &Scheduled,
    excerpt: Excerpt,
    out: &mut O,
) -> Result<(), Fault<'static, NodeFault<'static>>>
    requires programs { AreProgramsOf scheduled.now.sources.plan scheduled.now.sources.programs }
    requires inputs { AreInputsOf scheduled.now.sources.plan scheduled.now.sources.inputs }
    ensures ok { OnOk result (IsDrawn scheduled.now.sources.plan scheduled.now.sources.programs
        scheduled.now.sources.inputs scheduled.now.script scheduled.now.until_stuck excerpt
        (O.contents out.old) (O.contents out.new)) }
    ensures stands { IfErr result (IsPlayFault (PlayOutput.Picture excerpt) scheduled.now.sources scheduled.now.script
        scheduled.now.until_stuck
        (O.contents out.old) (O.contents out.new)) }
    ensures untouched { IfErr result (λ fault. status_of fault ≢ 3 → out.new ≡ out.old) }
{
    let sources = &scheduled.sources;
    match draw_schedule(
        alloc,
        out,
        &sources.plan,
        &sources.programs,
        &sources.inputs,
        &scheduled.script,
        scheduled.until_stuck,
        excerpt,
    ) {
        Ok(()) => flush(out),
        Err(DrawFault::CannotWrite) => Err(Fault::CannotWrite),
        Err(fault) => Err(Fault::More(NodeFault::Undrawn(fault))),
    }
}

/// Prints a picture of a federation; where programs are passed, with its reactions.
pub(crate) fn print_federation_picture<O: Write>(
    alloc: Global,
    plan: &Plan,
    programs: Option<&Programs>,
    out: &mut O,
) -> Result<(), Fault<'static, NodeFault<'static>>>
    ensures ok { OnOk result (HasPicture (O.contents out.old) (O.contents out.new)) }
    ensures stands { IfErr result (IsPictureFault (O.contents out.old) (O.contents out.new)) }
    ensures untouched { IfErr result (λ fault. status_of fault ≢ 3 → out.new ≡ out.old) }
{
    match draw_federation(alloc, out, plan, programs) {
        Ok(()) => flush(out),
        Err(DrawFault::CannotWrite) => Err(Fault::CannotWrite),
        Err(fault) => Err(Fault::More(NodeFault::Undrawn(fault))),
    }
}

/// Runs the federation in threads, audits the run, and prints the rows, or the steps of the audit.
pub(crate) fn print_run<R: NetRuntime, O: Write, P: Progress + Sync>(
    rt: &R,
    alloc: Global,
    sources: &Sources,
    run: &Run<'_>,
    out: &mut O,
    progress: &P,
) -> Result<(), Fault<'static, NodeFault<'static>>>
    requires programs { AreProgramsOf sources.now.plan sources.now.programs }
    requires inputs { AreInputsOf sources.now.plan sources.now.inputs }
    ensures ok { OnOk result (PrintsAudited run.now.output sources.now.plan sources.now.programs sources.now.inputs
        (O.contents out.old) (O.contents out.new)) }
    ensures stands { IfErr result (IsRunFault sources.now (O.contents out.old) (O.contents out.new)) }
    ensures late { IfErr result (λ fault. status_of fault ≡ 3) }
{
    match print_audited_run(
        rt,
        alloc,
        &sources.plan,
        &sources.programs,
        &sources.inputs,
        run.terms,
        run.output,
        out,
        progress,
    ) {
        Ok(()) => flush(out),
        Err(AuditedFault::NotFinished(cause)) => Err(Fault::More(NodeFault::NotFinished(cause))),
        Err(AuditedFault::Unproved(failure)) => Err(Fault::More(NodeFault::Unproved(failure))),
        Err(AuditedFault::Memory) => Err(Fault::More(NodeFault::Run(desk::Memory))),
        Err(AuditedFault::CannotWrite) => Err(Fault::CannotWrite),
    }
}

/// Sends on what was written.
pub(crate) fn flush<O: Write>(out: &mut O) -> Result<(), Fault<'static, NodeFault<'static>>>
    ensures kept { Keeps (O.contents out.old) (O.contents out.new) }
    ensures err { IfErr result (λ fault. fault ≡ cannot_write) }
{
    out.flush().map_err(|_| Fault::CannotWrite)
}
