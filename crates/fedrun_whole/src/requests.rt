//! Each request: its files are read first, and then it prints.
ghost use Rattle.std.specs.Prelude.{◌≡◌, ◌≢◌, IfErr, OnOk};
ghost use Rattle.fedrun_words.specs.Faults.{status_of};
ghost use Rattle.fedrun_files.specs.Answers.{Answers};
ghost use Rattle.fedrun_whole.specs.Faults as alone;
ghost use Rattle.fedrun_whole.specs.Printed.{PrintsWhole, PrintsPlan, PrintsAlone, PrintsAnswer};
ghost use Rattle.fedrun_whole.specs.Refused.{IsWholeFault, IsCheckFault, IsFaultAlone, Stands};

use crate::printing::print_plan;
use crate::turns::print_turns;
use fedrun_files::{Files, read_federation, read_sources};
use fedrun_progress::Progress;
use fedrun_words::{
    CheckRequest, Fault, MoreFault, NoSuchCommand, Request, WholeRequest, read_words,
};
use std::alloc::Global;
use std::io::Write;

/// Does what the words ask for, where the program has no more commands.
#[tactic(auto, using(fedrun_files::proofs::InTurn::none_answered))]
pub(crate) fn perform<'a, F: Files, O: Write, P: Progress>(
    alloc: Global,
    words: &'a [String],
    files: &mut F,
    out: &mut O,
    progress: &P,
) -> Result<(), Fault<'a, NoSuchCommand>>
    ensures ok { OnOk result (PrintsAnswer PrintsAlone (F.contents files.old) (O.contents out.old)
        (O.contents out.new)) }
    ensures stands { IfErr result (Stands IsFaultAlone (F.contents files.old)
        (Answers (F.answers files.old) (F.answers files.new)) (O.contents out.old) (O.contents out.new)) }
    ensures untouched { IfErr result (λ fault. alone.status_of fault ≢ 3 → out.new ≡ out.old) }
{
    match read_words(alloc, words) {
        Ok(request) => fulfil(alloc, &request, files, out, progress),
        Err(why) => Err(Fault::of_words(why)),
    }
}

// Does what this request asks for.
#[tactic(auto, using(fedrun_files::proofs::InTurn::none_answered))]
fn fulfil<'a, F: Files, O: Write, P: Progress>(
    alloc: Global,
    request: &Request<'a>,
    files: &mut F,
    out: &mut O,
    progress: &P,
) -> Result<(), Fault<'a, NoSuchCommand>>
    ensures ok { OnOk result (PrintsAlone (F.contents files.old) request.now (O.contents out.old)
        (O.contents out.new)) }
    ensures stands { IfErr result (IsFaultAlone (F.contents files.old)
        (Answers (F.answers files.old) (F.answers files.new)) (O.contents out.old) (O.contents out.new) request.now) }
    ensures untouched { IfErr result (λ fault. alone.status_of fault ≢ 3 → out.new ≡ out.old) }
{
    match request {
        Request::Whole(request) => whole(alloc, request, files, out, progress),
        Request::Check(request) => check(alloc, request, files, out),
        _ => Err(Fault::More(NoSuchCommand)),
    }
}

/// Prints the rows of the undivided program after at most the turns that are asked for, in the format that is.
pub fn whole<'a, M: MoreFault, F: Files, O: Write, P: Progress>(
    alloc: Global,
    request: &WholeRequest<'a>,
    files: &mut F,
    out: &mut O,
    progress: &P,
) -> Result<(), Fault<'a, M>>
    ensures ok { OnOk result (PrintsWhole (F.contents files.old) request.now (O.contents out.old)
        (O.contents out.new)) }
    ensures stands { IfErr result (IsWholeFault (F.contents files.old)
        (Answers (F.answers files.old) (F.answers files.new)) (O.contents out.old) (O.contents out.new) request.now) }
    ensures untouched { IfErr result (λ fault. status_of M.status_of fault ≢ 3 → out.new ≡ out.old) }
{
    match read_sources(alloc, request.federation, request.inputs, files) {
        Ok(sources) => print_turns(
            alloc,
            &sources,
            request.turns,
            request.format,
            out,
            progress,
        ),
        Err(fault) => Err(fault),
    }
}

/// Prints the plan.
pub fn check<'a, M: MoreFault, F: Files, O: Write>(
    alloc: Global,
    request: &CheckRequest<'a>,
    files: &mut F,
    out: &mut O,
) -> Result<(), Fault<'a, M>>
    ensures ok { OnOk result (PrintsPlan (F.contents files.old request.now.federation.now) (O.contents out.old)
        (O.contents out.new)) }
    ensures stands { IfErr result (IsCheckFault (F.contents files.old)
        (Answers (F.answers files.old) (F.answers files.new)) (O.contents out.old) (O.contents out.new) request.now) }
    ensures untouched { IfErr result (λ fault. status_of M.status_of fault ≢ 3 → out.new ≡ out.old) }
{
    match read_federation(alloc, request.federation, files) {
        Ok((plan, _programs)) => print_plan(alloc, &plan, out),
        Err(fault) => Err(fault),
    }
}
