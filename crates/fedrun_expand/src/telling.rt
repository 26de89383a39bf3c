//! Why a source isn't expanded, as it is told.

use expand_federation::{ExpandFault, NoFederation, source_line};
use fedrun_lint_findings::refusal_of_federation;
use std::alloc::{AllocError, Global};

/// Why the source in the file of this name isn't expanded, with the line, where there is one.
pub(crate) fn told(alloc: Global, file: &str, fault: ExpandFault) -> Result<String, AllocError> {
    match fault {
        ExpandFault::NoFederation(text) => told_of_text(alloc, file, text),
        ExpandFault::Source(fault) => {
            let line = fault.line;
            told_of_line(alloc, file, line, ExpandFault::Source(fault))
        }
        ExpandFault::Body(fault) => {
            let line = fault.line;
            told_of_line(alloc, file, line, ExpandFault::Body(fault))
        }
        ExpandFault::OtherMeaning => told_of_line(alloc, file, 0, ExpandFault::OtherMeaning),
        // Out of memory is told in the same words everywhere.
        ExpandFault::Memory => Err(AllocError),
    }
}

// The same of a fault of this line, or of none.
fn told_of_line(
    alloc: Global,
    file: &str,
    line: usize,
    fault: ExpandFault,
) -> Result<String, AllocError> {
    if line == 0 {
        Ok(format!(in alloc; "{file}: {fault}")?)
    } else {
        Ok(format!(in alloc; "{file}:{line}: {fault}")?)
    }
}

// Why a text is no federation file, as `lint` tells it, but at the line of the source.
fn told_of_text(alloc: Global, file: &str, text: NoFederation) -> Result<String, AllocError> {
    let NoFederation { fault, text, lines } = text;
    let refusal = refusal_of_federation(alloc, text.as_slice(), fault)?;
    let line = source_line(lines.as_slice(), refusal.first.line);
    let fault = &refusal.first.fault;
    let what = refusal.first.what.as_str();
    let advice = refusal.first.advice;
    Ok(format!(in alloc; "{file}:{line}: {fault}: {what}{advice}")?)
}
