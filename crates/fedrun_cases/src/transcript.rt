//! A file of cases, read line by line.
use std::alloc::{AllocError, Global};

/// A part of a file of cases.
#[derive(Drop)]
pub enum Part<'t> {
    File(Section<'t>),
    Command(Command<'t>),
    /// A line, by its number, that belongs to nothing.
    Stray(usize),
}

/// A file that commands below it may ask for: `== NAME`, and its lines.
#[derive(Drop)]
pub struct Section<'t> {
    /// The number of its first line.
    pub line: usize,
    pub name: &'t str,
    pub form: Form,
    pub lines: Vec<&'t str>,
}

/// How the lines of a file are to be read.
#[derive(Clone, Copy, PartialEq, Eq)]
pub enum Form {
    /// As they are, each with an end of line.
    Text,
    /// The same, but the last has no end of line.
    Open,
    /// As bytes in hexadecimal digits.
    Hex,
}

/// Words, and what they are answered: once, or once for each row below.
#[derive(Drop)]
pub struct Command<'t> {
    pub line: usize,
    pub words: &'t str,
    pub wanted: Vec<Wanted<'t>>,
    /// The names of the columns, where there are rows.
    pub columns: Option<&'t str>,
    /// Rows, each with its line's number.
    pub rows: Vec<(usize, &'t str)>,
}

/// What is wanted of a command, line by line.
#[derive(Clone, Copy)]
pub enum Wanted<'t> {
    /// A line on standard output.
    Out(&'t str),
    /// A line on standard error.
    Err(&'t str),
    /// A text that stands in some line of standard output, or of standard error; what else is there isn't looked at then.
    OutHas(&'t str),
    ErrHas(&'t str),
    /// The exit status, where it isn't 0.
    Status(&'t str),
    /// A file that is there then; its lines follow.
    Saved(&'t str),
    /// How many lines standard output has: `(N lines)`.
    Lines(&'t str),
    /// Nothing on standard output.
    Nothing,
}

/// Stands for nothing on standard output.
const NOTHING: &str = "(nothing)";

/// Reads the parts of a file of cases.
pub fn parts<'t>(alloc: Global, text: &'t str) -> Result<Vec<Part<'t>>, AllocError> {
    let mut parts = Vec::new(alloc);
    let mut is_open = false;
    for (place, line) in text.split('\n').enumerate() {
        let number = place.saturating_add(1);
        if let Some(part) = begun(alloc, number, line) {
            parts.push(part)?;
            is_open = true;
        } else if let Some(row) = line.strip_prefix("| ") {
            is_open = false;
            if !add_row(parts.last_mut(), number, row)? {
                parts.push(Part::Stray(number))?;
            }
        } else if is_open {
            is_open = add_line(parts.last_mut(), line)?;
        } else if !is_idle(line) {
            parts.push(Part::Stray(number))?;
        }
    }
    Ok(parts)
}

// The part that a line begins, if it begins one.
fn begun<'t>(alloc: Global, number: usize, line: &'t str) -> Option<Part<'t>> {
    if let Some(head) = line.strip_prefix("== ") {
        let (name, form) = named(head);
        Some(Part::File(Section {
            line: number,
            name,
            form,
            lines: Vec::new(alloc),
        }))
    } else if let Some(words) = given(line) {
        Some(Part::Command(Command {
            line: number,
            words,
            wanted: Vec::new(alloc),
            columns: None,
            rows: Vec::new(alloc),
        }))
    } else {
        None
    }
}

// The words of a command; there may be none.
fn given(line: &str) -> Option<&str> {
    if line == "$" {
        Some("")
    } else {
        line.strip_prefix("$ ")
    }
}

// The name of a file, and its form.
fn named(head: &str) -> (&str, Form) {
    if let Some(name) = head.strip_suffix(" hex") {
        (name, Form::Hex)
    } else if let Some(name) = head.strip_suffix(" open") {
        (name, Form::Open)
    } else {
        (head, Form::Text)
    }
}

// Whether a line between parts says nothing.
fn is_idle(line: &str) -> bool {
    line.is_empty() || line.starts_with('#')
}

// Adds a line to the last part, and says whether that goes on: a command's ends with an empty line or a comment.
fn add_line<'t>(part: Option<&mut Part<'t>>, line: &'t str) -> Result<bool, AllocError> {
    match part {
        Some(Part::File(file)) => {
            file.lines.push(line)?;
            Ok(true)
        }
        Some(Part::Command(_)) if is_idle(line) => Ok(false),
        Some(Part::Command(command)) => {
            command.wanted.push(wanted_line(line))?;
            Ok(true)
        }
        _ => Ok(false),
    }
}

// What a line below a command wants. Behind a backslash it is a line of output, whatever it begins with.
fn wanted_line(line: &str) -> Wanted<'_> {
    if let Some(text) = line.strip_prefix('\\') {
        Wanted::Out(text)
    } else if let Some(text) = line.strip_prefix("~ ") {
        Wanted::OutHas(text)
    } else if let Some(text) = line.strip_prefix("!~ ") {
        Wanted::ErrHas(text)
    } else if line == "!" {
        Wanted::Err("")
    } else if let Some(text) = line.strip_prefix("! ") {
        Wanted::Err(text)
    } else if let Some(status) = line.strip_prefix("? ") {
        Wanted::Status(status)
    } else if let Some(name) = line.strip_prefix("-> ") {
        Wanted::Saved(name)
    } else if line == NOTHING {
        Wanted::Nothing
    } else if let Some(count) = counted(line) {
        Wanted::Lines(count)
    } else {
        Wanted::Out(line)
    }
}

// How many lines are wanted, where a line says that.
fn counted(line: &str) -> Option<&str> {
    line.strip_prefix('(')?.strip_suffix(" lines)")
}

// Adds a row to the last part, a command's; the first names the columns. Says whether it is one.
fn add_row<'t>(
    part: Option<&mut Part<'t>>,
    number: usize,
    row: &'t str,
) -> Result<bool, AllocError> {
    match part {
        Some(Part::Command(command)) => {
            if command.columns.is_none() {
                command.columns = Some(row);
            } else {
                command.rows.push((number, row))?;
            }
            Ok(true)
        }
        _ => Ok(false),
    }
}
