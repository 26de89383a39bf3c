ghost use Rattle.std.specs.Prelude.{IfOk};
ghost use Rattle.fedrun_words.specs.Pieces.{AppendsPrinted};
ghost use Rattle.fedrun_lint.specs.Answered.{PrintsReport};
ghost use Rattle.fedrun_lint.specs.Printed.{printed_report};
ghost use Rattle.fedrun_lint_source.specs.Looked.{file_of};

use crate::tracing::report_at_source;
use expand_federation::ExpandFault;
use fedrun_lint::{LintFault, Report, ReportLines, lint};
use fedrun_words::{LintRequest, print_text};
use std::alloc::{AllocError, Global};
use std::io::Write;

/// Prints all that is wrong in a text that a source became, and in inputs beside it, and what is odd, where these are
/// the source's lines of the text's own; answers whether something is wrong.
pub(crate) fn print_report<O: Write>(
    alloc: Global,
    names: &LintRequest<'_>,
    text: &[u8],
    lines: &[usize],
    inputs: &[u8],
    out: &mut O,
) -> Result<bool, LintFault>
    ensures { IfOk result (λ is_wrong. PrintsReport (file_of names.now.federation.now text.now)
        (file_of names.now.inputs.now inputs.now) is_wrong (O.contents out.old) (O.contents out.new)) }
{
    let Ok(report) = report_at_source(alloc, text, lines, inputs) else {
        return Err(LintFault::Memory);
    };
    let lines = report.lines(names.federation, names.inputs);
    if print_lines(&lines, out) {
        Ok(report.is_wrong())
    } else {
        Err(LintFault::CannotWrite)
    }
}

// Prints the lines of a report and hands them on, and says whether all of them were written.
fn print_lines<O: Write>(lines: &ReportLines<'_>, out: &mut O) -> bool
    ensures { AppendsPrinted result (O.contents out.old) (O.contents out.new)
        (printed_report lines.now.federation.now lines.now.inputs.now lines.now.report.now) }
{
    let is_written = print_text(out, lines);
    out.flush().is_ok() && is_written
}

/// Prints a source's mistake, and what is wrong in the inputs beside it.
pub(crate) fn print_mistake<O: Write>(
    alloc: Global,
    names: &LintRequest<'_>,
    mistake: &ExpandFault,
    inputs: &[u8],
    out: &mut O,
) -> Result<(), LintFault> {
    let Ok(line) = mistake_line(alloc, names.federation, mistake) else {
        return Err(LintFault::Memory);
    };
    let Ok(report) = report_on_inputs(alloc, inputs) else {
        return Err(LintFault::Memory);
    };
    let lines = report.lines(names.federation, names.inputs);
    if print_text(out, &line) && print_lines(&lines, out) {
        Ok(())
    } else {
        Err(LintFault::CannotWrite)
    }
}

// The line of the mistake of a source in a file of this name; where it has none, it stands in the first.
fn mistake_line(alloc: Global, file: &str, mistake: &ExpandFault) -> Result<String, AllocError> {
    let line = match mistake {
        ExpandFault::Source(fault) => fault.line.max(1),
        ExpandFault::Body(fault) => fault.line.max(1),
        ExpandFault::NoFederation(_) | ExpandFault::OtherMeaning | ExpandFault::Memory => 1,
    };
    Ok(format!(in alloc; "{file}:{line}: wrong: {mistake}\n")?)
}

// What is wrong in inputs of a federation that isn't known: as beside any file that is refused, such as an empty one,
// their shape alone is looked at.
fn report_on_inputs(alloc: Global, inputs: &[u8]) -> Result<Report, AllocError> {
    let report = lint(alloc, &[], inputs)?;
    Ok(Report {
        federation: None,
        inputs: report.inputs,
        odd: Vec::new(alloc),
    })
}
