ghost use Rattle.std.specs.Prelude.{◌≡◌, IfOk, option_copied};
ghost use Rattle.fedrun_words.specs.Pieces.{AppendsPrinted};
ghost use Rattle.fedrun_lint.specs.Printed.{printed_full_report};
ghost use Rattle.fedrun_lint.specs.Answered.{given_file, given_schedule};
ghost use Rattle.fedrun_lint.specs.Full.{IsFullReport, name_of, PrintsFullReport, BeginsFullReport};

use crate::full_report::{FullReport, FullReportLines};
use crate::linting::report_on;
use crate::scheduling::refusal_if_given;
use fedrun_words::print_text;
use std::alloc::{AllocError, Global};
use std::io::Write;

/// A file that is looked at.
#[derive(Clone, Copy)]
pub struct NamedFile<'a> {
    /// Its name, as it is printed.
    pub name: &'a str,
    /// Its bytes; none where it has more than such a file may have and so wasn't read.
    pub bytes: Option<&'a [u8]>,
}

/// Why a report isn't printed.
#[derive(Clone, Copy, Debug, PartialEq, Eq, Drop)]
pub enum LintFault {
    /// An allocation failed. Nothing was printed. The same may be asked again.
    Memory,
    /// The writer takes no more. What was printed before stands.
    CannotWrite,
}

/// Prints all that is wrong in a federation file, in a file of recorded inputs and in a schedule, if there is one, and
/// what is odd, a line each, and hands it on; answers whether something is wrong. Where nothing is recorded, the second
/// file has no bytes, as that of `-`.
pub fn print_report<O: Write>(
    alloc: Global,
    federation: &NamedFile<'_>,
    inputs: &NamedFile<'_>,
    schedule: Option<NamedFile<'_>>,
    out: &mut O,
) -> Result<bool, LintFault>
    ensures ok { IfOk result (λ is_wrong.
        PrintsFullReport (given_file federation.now) (given_file inputs.now) (given_schedule schedule.entry) is_wrong
        (O.contents out.old) (O.contents out.new)) }
    ensures memory { result ≡ Err LintFault.Memory → out.new ≡ out.old }
    ensures stopped { result ≡ Err LintFault.CannotWrite
        → BeginsFullReport (given_file federation.now) (given_file inputs.now) (given_schedule schedule.entry)
        (O.contents out.old) (O.contents out.new) }
{
    let Ok(report) = full_report_on(alloc, federation.bytes, inputs.bytes, schedule) else {
        return Err(LintFault::Memory);
    };
    let lines = report.lines(federation.name, inputs.name, name_of(schedule));
    if print_lines(&lines, out) {
        Ok(report.is_wrong())
    } else {
        Err(LintFault::CannotWrite)
    }
}

// What there is to say of the files, of which one that is too long has no bytes here.
fn full_report_on(
    alloc: Global,
    federation: Option<&[u8]>,
    inputs: Option<&[u8]>,
    schedule: Option<NamedFile<'_>>,
) -> Result<FullReport, AllocError>
    ensures { IfOk result (IsFullReport (option_copied federation.entry) (option_copied inputs.entry)
        (given_schedule schedule.entry)) }
{
    let files = report_on(alloc, federation, inputs)?;
    let schedule = refusal_if_given(alloc, federation, schedule)?;
    Ok(FullReport { files, schedule })
}

// The name of a schedule; of none there is nothing to print.
fn name_of<'a>(schedule: Option<NamedFile<'a>>) -> &'a str
    ensures { result.now ≡ name_of (given_schedule schedule.entry) }
{
    match schedule {
        Some(file) => file.name,
        None => "",
    }
}

// Prints the lines of a report and hands them on, and says whether all of them were written.
fn print_lines<O: Write>(lines: &FullReportLines<'_>, out: &mut O) -> bool
    ensures { AppendsPrinted result (O.contents out.old) (O.contents out.new)
        (printed_full_report lines.now.federation.now lines.now.inputs.now lines.now.schedule.now
        lines.now.report.now) }
{
    let is_written = print_text(out, lines);
    out.flush().is_ok() && is_written
}
