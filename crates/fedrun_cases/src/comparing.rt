//! Texts beside the lines that are wanted.
use std::alloc::{AllocError, Global};

/// Stands for anything: alone for any lines, at a line's begin or end for any characters.
const ANYTHING: &str = "...";

/// Where a text is otherwise than it is wanted.
#[derive(Drop)]
pub struct Difference<'a> {
    /// The number of the line that is otherwise, from 1.
    pub line: usize,
    /// What is wanted there; None where nothing more is.
    pub wanted: Option<&'a str>,
    /// What stands there; None where there is no more.
    pub is: Option<&'a str>,
}

/// Stands behind a text whose last line has no end.
const NO_END: &str = "(no end of line)";

/// The lines of a text; behind its last end of line there is none.
pub fn lines_of<'a>(alloc: Global, text: &'a str) -> Result<Vec<&'a str>, AllocError> {
    let mut lines = Vec::new(alloc);
    if text.is_empty() {
        return Ok(lines);
    }
    let (text, has_end) = match text.strip_suffix('\n') {
        Some(text) => (text, true),
        None => (text, false),
    };
    for line in text.split('\n') {
        lines.push(line)?;
    }
    if !has_end {
        lines.push(NO_END)?;
    }
    Ok(lines)
}

/// The first difference between a text's lines and those that are wanted; None where there is none.
pub fn first_difference<'a>(lines: &'a [&'a str], wanted: &'a [&'a str]) -> Option<Difference<'a>> {
    let mut place = 0usize;
    let mut is_first = true;
    for part in wanted.split(|line| *line == ANYTHING) {
        if is_first {
            if let Some(found) = first_otherwise(lines, part, 0) {
                return Some(found);
            }
            place = part.len();
        } else {
            match place_of(lines, part, place) {
                Some(found) => place = found.saturating_add(part.len()),
                None => return Some(missing(lines, part, place)),
            }
        }
        is_first = false;
    }
    end_of(lines, wanted, place)
}

// What stands behind the lines that are wanted, where nothing more may.
fn end_of<'a>(lines: &'a [&'a str], wanted: &'a [&'a str], place: usize) -> Option<Difference<'a>> {
    let Some(last) = last_part(wanted) else {
        // No line of these stands for any lines.
        return lines.get(place).map(|is| Difference {
            line: place.saturating_add(1),
            wanted: None,
            is: Some(*is),
        });
    };
    let begin = lines.len().saturating_sub(last.len());
    first_otherwise(lines, last, begin)
}

// The lines that are wanted behind the last that stands for any; None where there is none of these.
fn last_part<'a>(wanted: &'a [&'a str]) -> Option<&'a [&'a str]> {
    let place = wanted.iter().rposition(|line| *line == ANYTHING)?;
    wanted.get(place.saturating_add(1)..)
}

// The first of some lines, from a place on, that isn't as it is wanted.
fn first_otherwise<'a>(
    lines: &'a [&'a str],
    wanted: &'a [&'a str],
    begin: usize,
) -> Option<Difference<'a>> {
    for (offset, line) in wanted.iter().enumerate() {
        let place = begin.saturating_add(offset);
        let is = lines.get(place);
        let is_so = match is {
            Some(text) => is_line(text, line),
            None => false,
        };
        if !is_so {
            return Some(Difference {
                line: place.saturating_add(1),
                wanted: Some(*line),
                is: is.copied(),
            });
        }
    }
    None
}

// The first place from this one on at which these lines stand.
fn place_of<'a>(lines: &'a [&'a str], wanted: &'a [&'a str], begin: usize) -> Option<usize> {
    for place in begin..lines.len().saturating_add(1) {
        if first_otherwise(lines, wanted, place).is_none() {
            return Some(place);
        }
    }
    None
}

// That these lines stand nowhere from a place on.
fn missing<'a>(lines: &'a [&'a str], wanted: &'a [&'a str], place: usize) -> Difference<'a> {
    Difference {
        line: place.saturating_add(1),
        wanted: wanted.first().copied(),
        is: lines.get(place).copied(),
    }
}

// Whether a line is as it is wanted.
fn is_line(line: &str, wanted: &str) -> bool {
    match (wanted.strip_prefix(ANYTHING), wanted.strip_suffix(ANYTHING)) {
        (Some(end), None) => line.ends_with(end),
        (None, Some(begin)) => line.starts_with(begin),
        (Some(end), Some(_)) => line.contains(end.strip_suffix(ANYTHING).unwrap_or("")),
        (None, None) => line == wanted,
    }
}
