//! What the words ask for, and of each request the function that does it.
ghost use Rattle.std.specs.Prelude.{◌≡◌, ◌⊎◌, IfErr, OnOk};
ghost use Rattle.fedrun_files.specs.Answers.{Answers};
ghost use Rattle.fedrun_commands.specs.Faults.{status_of};
ghost use Rattle.fedrun_commands.specs.Linted.{TellsWrong, HasToldWrong};
ghost use Rattle.fedrun_commands.specs.Printed.{PrintsFor, PrintsAnswer};
ghost use Rattle.fedrun_commands.specs.Refused.{IsFaultOf, Stands};

use crate::about::about;
use crate::auditing::audit;
use crate::drawing::draw_federation;
use crate::fault::NodeFault;
use crate::linting::lint;
use crate::playing::{draw_schedule, replay, show_frames, show_trace};
use crate::running::{record_run, run_federation};
use fedrun_files::Files;
use fedrun_progress::Progress;
use fedrun_whole::{check, whole};
use fedrun_words::{Fault, Request, read_words};
use std::alloc::Global;
use std::io::Write;
use wires::NetRuntime;

/// Does what the words ask for.
#[tactic(auto, using(fedrun_files::proofs::InTurn::none_answered))]
pub(crate) fn perform<'a, R: NetRuntime, F: Files, O: Write, P: Progress + Sync>(
    rt: &R,
    alloc: Global,
    words: &'a [String],
    files: &mut F,
    out: &mut O,
    progress: &P,
) -> Result<(), Fault<'a, NodeFault<'a>>>
    ensures ok { OnOk result (PrintsAnswer (F.contents files.old) (O.contents out.old) (O.contents out.new)) }
    ensures stands { IfErr result (Stands (F.contents files.old) (Answers (F.answers files.old) (F.answers files.new))
        (O.contents out.old) (O.contents out.new)) }
    ensures untouched { IfErr result
        (λ fault. status_of fault ≡ 1 → (out.new ≡ out.old)
        ⊎ HasToldWrong (F.contents files.old) (O.contents out.old) (O.contents out.new)) }
    ensures unused { IfErr result (λ fault. status_of fault ≡ 2 → out.new ≡ out.old) }
{
    match read_words(alloc, words) {
        Ok(request) => fulfil(rt, alloc, &request, files, out, progress),
        Err(why) => Err(Fault::of_words(why)),
    }
}

// Does what this request asks for.
#[tactic(auto, using(crate::proofs::Reported::kept_early))]
fn fulfil<'a, R: NetRuntime, F: Files, O: Write, P: Progress + Sync>(
    rt: &R,
    alloc: Global,
    request: &Request<'a>,
    files: &mut F,
    out: &mut O,
    progress: &P,
) -> Result<(), Fault<'a, NodeFault<'a>>>
    ensures ok { OnOk result (PrintsFor (F.contents files.old) request.now (O.contents out.old) (O.contents out.new)) }
    ensures stands { IfErr result (IsFaultOf (F.contents files.old)
        (Answers (F.answers files.old) (F.answers files.new)) (O.contents out.old) (O.contents out.new) request.now) }
    ensures untouched { IfErr result
        (λ fault. status_of fault ≡ 1 → (out.new ≡ out.old)
        ⊎ TellsWrong (F.contents files.old) request.now (O.contents out.old) (O.contents out.new)) }
    ensures unused { IfErr result (λ fault. status_of fault ≡ 2 → out.new ≡ out.old) }
{
    match request {
        Request::Whole(request) => whole(alloc, request, files, out, progress),
        Request::Check(request) => check(alloc, request, files, out),
        Request::Replay(request) => replay(alloc, request, files, out, progress),
        Request::Run(request) => run_federation(rt, alloc, request, files, out, progress),
        Request::Record(request) => record_run(rt, alloc, request, files, out, progress),
        Request::Frames(request) => show_frames(alloc, request, files, out, progress),
        Request::Trace(request) => show_trace(alloc, request, files, out, progress),
        Request::DrawFederation(request) => draw_federation(alloc, request, files, out),
        Request::DrawSchedule(request) => draw_schedule(alloc, request, files, out, progress),
        Request::Audit(request) => audit(alloc, request, files, out),
        Request::Lint(request) => lint(alloc, request, files, out),
        Request::About(request) => about(*request, out),
    }
}
