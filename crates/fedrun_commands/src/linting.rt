//! Looking at files: all that is wrong in them, and what is odd.
ghost use Rattle.std.specs.Prelude.{◌≡◌, ◌≢◌, ◌⊎◌, [], ◌∷◌, Some, Err, false, IfErr, IfOk, OnOk, option_copied};
ghost use Rattle.loadfed.specs.declared.fault.LoadFault.TheVariants.{Memory};
ghost use Rattle.loadfed.specs.declared.recorded.TheConstants.{MOST_INPUT_BYTES as most_input_bytes};
ghost use Rattle.fedrun_words.specs.declared.fault.Fault.TheVariants.{Load};
ghost use Rattle.fedrun_files.specs.Answers.{Answers, refused};
ghost use Rattle.fedrun_files.specs.Loaded.{input_file};
ghost use Rattle.fedrun_files.specs.declared.named.FileFault.TheVariants.{OverLimit as over_limit};
ghost use Rattle.fedrun_lint.specs.Answered.{given_schedule};
ghost use Rattle.fedrun_lint.specs.Full.{PrintsFullReport};
ghost use Rattle.fedrun_commands.specs.Faults.{status_of};
ghost use Rattle.fedrun_commands.specs.Linted.{AreLookedAt, OneAnswer, SomeAnswers, known_bytes, file_of};
ghost use Rattle.fedrun_commands.specs.Linted.{IsAskedSchedule, IsScheduleUnread, TellsWrong, IsReportFault};
ghost use Rattle.fedrun_commands.specs.Printed.{PrintsFor};
ghost use Rattle.fedrun_commands.specs.ReadSchedules.{schedule_of};
ghost use Rattle.fedrun_commands.specs.Refused.{IsFaultOf};

use crate::fault::NodeFault;
use fedrun_files::{FileFault, Files, fault_of};
use fedrun_lint::{LintFault, NamedFile, print_report};
use fedrun_words::{Fault, LintRequest, Request};
use loadfed::{LoadFault, MOST_BYTES, MOST_INPUT_BYTES};
use std::alloc::Global;
use std::io::Write;

/// A schedule that was asked for.
#[derive(Drop)]
pub(crate) struct ScheduleFile<'a> {
    name: &'a str,
    /// Its bytes; none where it is too long.
    bytes: Option<Vec<u8>>,
}

/// Prints all that is wrong or odd in a federation file, in a file of recorded inputs and in a schedule, if one is asked
/// for. Something that is wrong is a fault, once it was printed.
pub(crate) fn lint<'a, F: Files, O: Write>(
    alloc: Global,
    request: &LintRequest<'a>,
    files: &mut F,
    out: &mut O,
) -> Result<(), Fault<'a, NodeFault<'a>>>
    ensures ok { OnOk result (PrintsFor (F.contents files.old) (Request.Lint request.now) (O.contents out.old)
        (O.contents out.new)) }
    ensures stands { IfErr result (IsFaultOf (F.contents files.old)
        (Answers (F.answers files.old) (F.answers files.new)) (O.contents out.old) (O.contents out.new)
        (Request.Lint request.now)) }
    ensures untouched { IfErr result
        (λ fault. status_of fault ≡ 1 → (out.new ≡ out.old)
        ⊎ TellsWrong (F.contents files.old) (Request.Lint request.now) (O.contents out.old) (O.contents out.new)) }
    ensures used { IfErr result (λ fault. status_of fault ≢ 2) }
{
    let first = match bytes_if_few(request.federation, files, MOST_BYTES) {
        Ok(bytes) => bytes,
        Err(why) => return Err(fault_of(request.federation, why)),
    };
    let second = match inputs_if_few(alloc, request.inputs, files) {
        Ok(bytes) => bytes,
        Err(why) => return Err(fault_of(request.inputs, why)),
    };
    let third = match schedule_if_few(request.schedule, files) {
        Ok(file) => file,
        Err(fault) => return Err(fault),
    };
    print_lint(alloc, request, &first, &second, &third, out)
}

// Prints the report on files, of which one that is too long has no bytes here.
fn print_lint<'a, O: Write>(
    alloc: Global,
    request: &LintRequest<'a>,
    first: &Option<Vec<u8>>,
    second: &Option<Vec<u8>>,
    third: &Option<ScheduleFile<'_>>,
    out: &mut O,
) -> Result<(), Fault<'a, NodeFault<'a>>>
    ensures ok { OnOk result (PrintsFullReport (file_of request.now.federation.now first.now)
        (file_of request.now.inputs.now second.now) (schedule_of third.now) false (O.contents out.old)
        (O.contents out.new)) }
    ensures stands { IfErr result (IsReportFault (file_of request.now.federation.now first.now)
        (file_of request.now.inputs.now second.now) (schedule_of third.now) (O.contents out.old) (O.contents out.new)) }
    ensures untouched { result ≡ Err (Load Memory) → out.new ≡ out.old }
{
    let first = NamedFile {
        name: request.federation,
        bytes: bytes_in(first),
    };
    let second = NamedFile {
        name: request.inputs,
        bytes: bytes_in(second),
    };
    let third = named(third);
    match print_report(alloc, &first, &second, third, out) {
        Ok(false) => Ok(()),
        Ok(true) => Err(Fault::More(NodeFault::NotTaken)),
        Err(LintFault::Memory) => Err(Fault::Load(LoadFault::Memory)),
        Err(LintFault::CannotWrite) => Err(Fault::CannotWrite),
    }
}

// A schedule, if there is one, as it is looked at.
fn named<'a>(file: &'a Option<ScheduleFile<'_>>) -> Option<NamedFile<'a>>
    ensures { given_schedule result ≡ schedule_of file.now }
{
    match file {
        Some(file) => Some(NamedFile {
            name: file.name,
            bytes: bytes_in(&file.bytes),
        }),
        None => None,
    }
}

// The bytes of a file, where they were read.
fn bytes_in(file: &Option<Vec<u8>>) -> Option<&[u8]>
    ensures { option_copied result ≡ known_bytes file.now }
{
    match file {
        Some(bytes) => Some(bytes.as_slice()),
        None => None,
    }
}

// The bytes of a file; none where it has more than this many.
fn bytes_if_few<F: Files>(
    name: &str,
    files: &mut F,
    most: usize,
) -> Result<Option<Vec<u8>>, FileFault>
    ensures ok { IfOk result (λ read. AreLookedAt most (F.contents files.old name.now) (known_bytes read)) }
    ensures one { OnOk result (OneAnswer (F.answers files.old) (F.answers files.new)) }
    ensures err { IfErr result (λ why. (why ≢ over_limit)
        × Answers (F.answers files.old) (F.answers files.new) (refused name.now why ∷ [])) }
    ensures same { F.contents files.new ≡ F.contents files.old }
{
    match files.bytes(name, most) {
        Ok(bytes) => Ok(Some(bytes)),
        Err(FileFault::OverLimit) => Ok(None),
        Err(why) => Err(why),
    }
}

// The bytes of a file of recorded inputs; `-` is one without any.
#[tactic(auto, using(fedrun_files::proofs::InTurn::none_answered))]
fn inputs_if_few<F: Files>(
    alloc: Global,
    name: &str,
    files: &mut F,
) -> Result<Option<Vec<u8>>, FileFault>
    ensures ok { IfOk result (λ read.
        AreLookedAt most_input_bytes (input_file (F.contents files.old) name.now) (known_bytes read)) }
    ensures answered { OnOk result (SomeAnswers (F.answers files.old) (F.answers files.new)) }
    ensures err { IfErr result (λ why. (why ≢ over_limit)
        × Answers (F.answers files.old) (F.answers files.new) (refused name.now why ∷ [])) }
    ensures same { F.contents files.new ≡ F.contents files.old }
{
    if name == "-" {
        Ok(Some(Vec::new(alloc)))
    } else {
        bytes_if_few(name, files, MOST_INPUT_BYTES)
    }
}

// The schedule, if one is asked for.
fn schedule_if_few<'a, F: Files>(
    name: Option<&'a str>,
    files: &mut F,
) -> Result<Option<ScheduleFile<'a>>, Fault<'a, NodeFault<'a>>>
    ensures ok { IfOk result (λ read. IsAskedSchedule (F.contents files.old) name.entry (schedule_of read)) }
    ensures err { IfErr result (IsScheduleUnread name.entry (Answers (F.answers files.old) (F.answers files.new))) }
    ensures used { IfErr result (λ fault. status_of fault ≢ 2) }
{
    match name {
        Some(name) => schedule_named(name, files),
        None => Ok(None),
    }
}

// The schedule of this name.
fn schedule_named<'a, F: Files>(
    name: &'a str,
    files: &mut F,
) -> Result<Option<ScheduleFile<'a>>, Fault<'a, NodeFault<'a>>>
    ensures ok { IfOk result (λ read. IsAskedSchedule (F.contents files.old) (Some name.entry) (schedule_of read)) }
    ensures err { IfErr result (IsScheduleUnread (Some name.entry)
        (Answers (F.answers files.old) (F.answers files.new))) }
    ensures used { IfErr result (λ fault. status_of fault ≢ 2) }
{
    match bytes_if_few(name, files, files_script::MOST_BYTES) {
        Ok(bytes) => Ok(Some(ScheduleFile { name, bytes })),
        Err(why) => Err(fault_of(name, why)),
    }
}
