//! Of which line of a source each line of what it becomes came.

use crate::part::Part;
use crate::token::Token;
use std::alloc::{AllocError, Global};

/// For each end of a line in the text that parts become, the line of the source in which it stands, and then the line
/// of what stands behind the last one.
pub(crate) fn lines_of(alloc: Global, parts: &[Part<'_>]) -> Result<Vec<usize>, AllocError> {
    let mut lines = Vec::new(alloc);
    let mut last = 1;
    for part in parts {
        last = add_copies(&mut lines, part, last)?;
    }
    lines.push(last)?;
    Ok(lines)
}

// Adds the lines of all copies of a part, behind what ends in this line. Answers in which line they end.
fn add_copies(lines: &mut Vec<usize>, part: &Part<'_>, line: usize) -> Result<usize, AllocError> {
    let mut last = line;
    for _ in 0..part.count() {
        for token in &part.template {
            last = add_token(lines, token)?;
        }
    }
    Ok(last)
}

// The same of a token.
fn add_token(lines: &mut Vec<usize>, token: &Token<'_>) -> Result<usize, AllocError> {
    let mut line = token.line;
    for c in token.text {
        if *c == b'\n' {
            lines.push(line)?;
            line = line.saturating_add(1);
        }
    }
    Ok(line)
}
