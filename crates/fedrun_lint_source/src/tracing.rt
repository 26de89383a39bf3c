//! Reports on a text that a source became, at the lines of the source.
ghost use Rattle.std.specs.Prelude.{IfOk};
ghost use Rattle.fedrun_lint.specs.Reports.{IsReport};
ghost use Rattle.fedrun_lint_source.specs.Looked.{HaveOneFault};

use expand_federation::source_line;
use fedrun_lint::{Finding, Oddity, Refusal, Report, lint};
use std::alloc::{AllocError, Global};

/// What there is to say of a text and of inputs beside it, where these are the source's lines of the text's own.
pub(crate) fn report_at_source(
    alloc: Global,
    text: &[u8],
    lines: &[usize],
    inputs: &[u8],
) -> Result<Report, AllocError>
    ensures { IfOk result (IsReport text.now inputs.now) }
{
    let mut report = lint(alloc, text, inputs)?;
    move_refusal(&mut report.federation, lines);
    move_oddities(&mut report.odd, lines);
    Ok(report)
}

// Has a refusal's lines be those of the source.
fn move_refusal(refusal: &mut Option<Refusal>, lines: &[usize])
    ensures { HaveOneFault refusal.old refusal.new }
{
    if let Some(refusal) = refusal {
        refusal.first.line = source_line(lines, refusal.first.line);
        move_findings(&mut refusal.more, lines);
    }
}

fn move_findings(findings: &mut [Finding], lines: &[usize]) {
    for finding in findings.iter_mut() {
        finding.line = source_line(lines, finding.line);
    }
}

// Has the lines of what is odd in the text be those of the source.
fn move_oddities(oddities: &mut [Oddity], lines: &[usize]) {
    for oddity in oddities.iter_mut() {
        if !oddity.is_recorded {
            oddity.line = source_line(lines, oddity.line);
        }
    }
}
