//! Playing schedules: the requests of which each prints something else of one.
ghost use Rattle.std.specs.Prelude.{◌≡◌, ◌≢◌, IfErr, OnOk};
ghost use Rattle.fedrun_files.specs.Answers.{Answers};
ghost use Rattle.fedrun_commands.specs.Faults.{status_of};
ghost use Rattle.fedrun_commands.specs.Printed.{PrintsPlayed, PrintsFor};
ghost use Rattle.fedrun_commands.specs.Refused.{IsFaultOfPlay, IsFaultOf};

use crate::fault::NodeFault;
use crate::play::{Play, PlayOutput, Scheduled};
use crate::printing::print_played;
use crate::schedules::read_schedule;
use fedrun_draw::Excerpt;
use fedrun_files::{Files, read_sources};
use fedrun_progress::Progress;
use fedrun_words::{
    DrawScheduleRequest, Fault, FramesRequest, ReplayRequest, Request, TraceRequest,
};
use std::alloc::Global;
use std::io::Write;

/// Prints the steps of a schedule that are refused, and the rows after it, or in the other format the rows alone.
pub(crate) fn replay<'a, F: Files, O: Write, P: Progress>(
    alloc: Global,
    request: &ReplayRequest<'a>,
    files: &mut F,
    out: &mut O,
    progress: &P,
) -> Result<(), Fault<'a, NodeFault<'a>>>
    ensures ok { OnOk result (PrintsFor (F.contents files.old) (Request.Replay request.now) (O.contents out.old)
        (O.contents out.new)) }
    ensures stands { IfErr result (IsFaultOf (F.contents files.old)
        (Answers (F.answers files.old) (F.answers files.new)) (O.contents out.old) (O.contents out.new)
        (Request.Replay request.now)) }
    ensures untouched { IfErr result (λ fault. status_of fault ≢ 3 → out.new ≡ out.old) }
{
    let play = Play {
        federation: request.federation,
        inputs: request.inputs,
        schedule: request.schedule,
        until_stuck: request.until_stuck,
        output: PlayOutput::Rows(request.format),
    };
    play_and_print(alloc, &play, files, out, progress)
}

/// Prints each step of a schedule, with the frames that it sent.
pub(crate) fn show_frames<'a, F: Files, O: Write, P: Progress>(
    alloc: Global,
    request: &FramesRequest<'a>,
    files: &mut F,
    out: &mut O,
    progress: &P,
) -> Result<(), Fault<'a, NodeFault<'a>>>
    ensures ok { OnOk result (PrintsFor (F.contents files.old) (Request.Frames request.now) (O.contents out.old)
        (O.contents out.new)) }
    ensures stands { IfErr result (IsFaultOf (F.contents files.old)
        (Answers (F.answers files.old) (F.answers files.new)) (O.contents out.old) (O.contents out.new)
        (Request.Frames request.now)) }
    ensures untouched { IfErr result (λ fault. status_of fault ≢ 3 → out.new ≡ out.old) }
{
    let play = Play {
        federation: request.federation,
        inputs: request.inputs,
        schedule: request.schedule,
        until_stuck: request.until_stuck,
        output: PlayOutput::Frames,
    };
    play_and_print(alloc, &play, files, out, progress)
}

/// Prints the steps of a schedule as trace events.
pub(crate) fn show_trace<'a, F: Files, O: Write, P: Progress>(
    alloc: Global,
    request: &TraceRequest<'a>,
    files: &mut F,
    out: &mut O,
    progress: &P,
) -> Result<(), Fault<'a, NodeFault<'a>>>
    ensures ok { OnOk result (PrintsFor (F.contents files.old) (Request.Trace request.now) (O.contents out.old)
        (O.contents out.new)) }
    ensures stands { IfErr result (IsFaultOf (F.contents files.old)
        (Answers (F.answers files.old) (F.answers files.new)) (O.contents out.old) (O.contents out.new)
        (Request.Trace request.now)) }
    ensures untouched { IfErr result (λ fault. status_of fault ≢ 3 → out.new ≡ out.old) }
{
    let play = Play {
        federation: request.federation,
        inputs: request.inputs,
        schedule: request.schedule,
        until_stuck: request.until_stuck,
        output: PlayOutput::Trace,
    };
    play_and_print(alloc, &play, files, out, progress)
}

/// Prints a picture of a schedule, or of some of its steps.
pub(crate) fn draw_schedule<'a, F: Files, O: Write, P: Progress>(
    alloc: Global,
    request: &DrawScheduleRequest<'a>,
    files: &mut F,
    out: &mut O,
    progress: &P,
) -> Result<(), Fault<'a, NodeFault<'a>>>
    ensures ok { OnOk result (PrintsFor (F.contents files.old) (Request.DrawSchedule request.now) (O.contents out.old)
        (O.contents out.new)) }
    ensures stands { IfErr result (IsFaultOf (F.contents files.old)
        (Answers (F.answers files.old) (F.answers files.new)) (O.contents out.old) (O.contents out.new)
        (Request.DrawSchedule request.now)) }
    ensures untouched { IfErr result (λ fault. status_of fault ≢ 3 → out.new ≡ out.old) }
{
    let play = Play {
        federation: request.federation,
        inputs: request.inputs,
        schedule: request.schedule,
        until_stuck: request.until_stuck,
        output: PlayOutput::Picture(Excerpt {
            from: request.from,
            to: request.to,
        }),
    };
    play_and_print(alloc, &play, files, out, progress)
}

// Prints what is asked for of a schedule, played over the federation's world.
#[tactic(auto, using(fedrun_files::proofs::InTurn::answered_in_turn))]
fn play_and_print<'a, F: Files, O: Write, P: Progress>(
    alloc: Global,
    play: &Play<'a>,
    files: &mut F,
    out: &mut O,
    progress: &P,
) -> Result<(), Fault<'a, NodeFault<'a>>>
    ensures ok { OnOk result (PrintsPlayed play.now (F.contents files.old) (O.contents out.old) (O.contents out.new)) }
    ensures stands { IfErr result (IsFaultOfPlay play.now (F.contents files.old)
        (Answers (F.answers files.old) (F.answers files.new)) (O.contents out.old) (O.contents out.new)) }
    ensures untouched { IfErr result (λ fault. status_of fault ≢ 3 → out.new ≡ out.old) }
{
    let sources = match read_sources(alloc, play.federation, play.inputs, files) {
        Ok(sources) => sources,
        Err(fault) => return Err(fault),
    };
    let script = match read_schedule(alloc, play.schedule, &sources.plan, files) {
        Ok(script) => script,
        Err(fault) => return Err(fault),
    };
    let scheduled = Scheduled {
        sources,
        script,
        until_stuck: play.until_stuck,
    };
    print_played(alloc, &scheduled, play.output, out, progress)
}
