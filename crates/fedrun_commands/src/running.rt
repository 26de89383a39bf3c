//! Running federations in threads: the requests of which each prints something else of a run.
ghost use Rattle.std.specs.Prelude.{◌≡◌, ◌≢◌, IfErr, OnOk};
ghost use Rattle.fedrun_files.specs.Answers.{Answers};
ghost use Rattle.fedrun_commands.specs.Asked.{as_rows, as_steps};
ghost use Rattle.fedrun_commands.specs.Faults.{status_of};
ghost use Rattle.fedrun_commands.specs.Printed.{PrintsRun, PrintsFor};
ghost use Rattle.fedrun_commands.specs.Refused.{IsFaultOfRun, IsFaultOf};

use crate::fault::NodeFault;
use crate::printing::print_run;
use fedrun_files::{Files, read_sources};
use fedrun_progress::Progress;
use fedrun_run::RunOutput;
use fedrun_words::{Fault, RecordRequest, Request, RunRequest};
use std::alloc::Global;
use std::io::Write;
use wires::{NetRuntime, Terms};

/// A federation that is to be run, and what is to be printed of the run. Files are given by their names; an `inputs` of
/// `-` is a file without any.
#[derive(Clone, Copy, Debug, PartialEq, Eq)]
pub struct Run<'a> {
    pub federation: &'a str,
    pub inputs: &'a str,
    pub terms: Terms,
    pub output: RunOutput,
}

/// Runs the federation in threads, and prints the rows that the audit proved.
pub(crate) fn run_federation<'a, R: NetRuntime, F: Files, O: Write, P: Progress + Sync>(
    rt: &R,
    alloc: Global,
    request: &RunRequest<'a>,
    files: &mut F,
    out: &mut O,
    progress: &P,
) -> Result<(), Fault<'a, NodeFault<'a>>>
    ensures ok { OnOk result (PrintsFor (F.contents files.old) (Request.Run request.now) (O.contents out.old)
        (O.contents out.new)) }
    ensures stands { IfErr result (IsFaultOf (F.contents files.old)
        (Answers (F.answers files.old) (F.answers files.new)) (O.contents out.old) (O.contents out.new)
        (Request.Run request.now)) }
    ensures untouched { IfErr result (λ fault. status_of fault ≢ 3 → out.new ≡ out.old) }
{
    let run = run_of(request);
    run_and_print(rt, alloc, &run, files, out, progress)
}

/// Runs the federation in threads, and prints the steps by which the audit proved its rows.
pub(crate) fn record_run<'a, R: NetRuntime, F: Files, O: Write, P: Progress + Sync>(
    rt: &R,
    alloc: Global,
    request: &RecordRequest<'a>,
    files: &mut F,
    out: &mut O,
    progress: &P,
) -> Result<(), Fault<'a, NodeFault<'a>>>
    ensures ok { OnOk result (PrintsFor (F.contents files.old) (Request.Record request.now) (O.contents out.old)
        (O.contents out.new)) }
    ensures stands { IfErr result (IsFaultOf (F.contents files.old)
        (Answers (F.answers files.old) (F.answers files.new)) (O.contents out.old) (O.contents out.new)
        (Request.Record request.now)) }
    ensures untouched { IfErr result (λ fault. status_of fault ≢ 3 → out.new ≡ out.old) }
{
    let run = steps_of(request);
    run_and_print(rt, alloc, &run, files, out, progress)
}

// What is run where rows are asked for.
fn run_of<'a>(request: &RunRequest<'a>) -> Run<'a>
    ensures { result ≡ as_rows request.now }
{
    Run {
        federation: request.federation,
        inputs: request.inputs,
        terms: Terms {
            turns: request.turns,
            frames: request.frames,
        },
        output: RunOutput::Rows(request.format),
    }
}

// What is run where a schedule is asked for.
fn steps_of<'a>(request: &RecordRequest<'a>) -> Run<'a>
    ensures { result ≡ as_steps request.now }
{
    Run {
        federation: request.federation,
        inputs: request.inputs,
        terms: Terms {
            turns: request.turns,
            frames: request.frames,
        },
        output: RunOutput::Steps,
    }
}

// Runs the federation in threads, and prints what is asked for of the run.
fn run_and_print<'a, R: NetRuntime, F: Files, O: Write, P: Progress + Sync>(
    rt: &R,
    alloc: Global,
    run: &Run<'a>,
    files: &mut F,
    out: &mut O,
    progress: &P,
) -> Result<(), Fault<'a, NodeFault<'a>>>
    ensures ok { OnOk result (PrintsRun run.now (F.contents files.old) (O.contents out.old) (O.contents out.new)) }
    ensures stands { IfErr result (IsFaultOfRun run.now (F.contents files.old)
        (Answers (F.answers files.old) (F.answers files.new)) (O.contents out.old) (O.contents out.new)) }
    ensures untouched { IfErr result (λ fault. status_of fault ≢ 3 → out.new ≡ out.old) }
{
    match read_sources(alloc, run.federation, run.inputs, files) {
        Ok(sources) => print_run(rt, alloc, &sources, run, out, progress),
        Err(fault) => Err(fault),
    }
}
