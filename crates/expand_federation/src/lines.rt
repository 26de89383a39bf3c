//! Of which line of a source each line of a text came, once there are changes in the text.

use crate::fault::ExpandFault;
use crate::places::Changes;
use expand_bodies::BodyFault;
use expand_source::SourceFault;
use expand_source::token::line_ends;
use std::alloc::{AllocError, Global};

/// For each line of a text with its changes the line of the source that it came of, where these are those of the text's
/// own lines. What is put in came of the line where it begins.
pub(crate) fn changed_lines(
    alloc: Global,
    text: &[u8],
    lines: &[usize],
    changes: &Changes<'_>,
) -> Result<Vec<usize>, AllocError> {
    let mut made = Vec::new(alloc);
    let mut at = 0usize;
    let mut line = 0usize;
    for (place, change) in changes.list.iter().enumerate() {
        let added = changes.line_ends.get(place).copied().unwrap_or(0);
        let first = line.saturating_add(ends_between(text, at, change.from));
        made.extend_from_slice(lines.get(line..first).unwrap_or(&[]))?;
        push_again(&mut made, lines.get(first).copied().unwrap_or(0), added)?;
        line = first.saturating_add(ends_between(text, change.from, change.to));
        at = change.to;
    }
    made.extend_from_slice(lines.get(line..).unwrap_or(&[]))?;
    Ok(made)
}

// How many lines end between two places of a text.
fn ends_between(text: &[u8], from: usize, to: usize) -> usize {
    line_ends(text.get(from..to).unwrap_or(&[]))
}

// Adds a line so often.
fn push_again(lines: &mut Vec<usize>, line: usize, count: usize) -> Result<(), AllocError> {
    for _ in 0..count {
        lines.push(line)?;
    }
    Ok(())
}

/// A fault at a line of a text, at the line of the source that it came of.
pub(crate) fn at_source(lines: &[usize], fault: ExpandFault) -> ExpandFault {
    match fault {
        ExpandFault::Source(fault) => {
            let SourceFault { line, kind } = fault;
            let line = source_line(lines, line);
            ExpandFault::Source(SourceFault { line, kind })
        }
        ExpandFault::Body(fault) => {
            let BodyFault { line, kind } = fault;
            let line = source_line(lines, line);
            ExpandFault::Body(BodyFault { line, kind })
        }
        other => other,
    }
}

/// The line of the source that a line of a text came of, where these are those of all its lines. Lines count from 1;
/// 0 is none.
pub fn source_line(lines: &[usize], line: usize) -> usize {
    match line.checked_sub(1) {
        Some(place) => lines.get(place).copied().unwrap_or(0),
        None => 0,
    }
}
