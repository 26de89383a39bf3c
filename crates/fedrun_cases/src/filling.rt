//! Texts with a row's values in them.
use std::alloc::{AllocError, Global};

/// Parts the cells of a row, and the names of columns.
const BETWEEN: &str = " => ";

/// The values of a row's columns by their names.
#[derive(Drop)]
pub struct Values<'t> {
    alloc: Global,
    columns: Vec<(&'t str, String)>,
}

impl<'t> Values<'t> {
    /// No values: texts stay as they are.
    pub fn none(alloc: Global) -> Values<'t> {
        Values {
            alloc,
            columns: Vec::new(alloc),
        }
    }

    /// Those of a row under these names. A cell may have `\t`, `\n`, `\\` and `\u{..}`.
    pub fn of(alloc: Global, names: &'t str, row: &str) -> Result<Values<'t>, AllocError> {
        let mut columns = Vec::new(alloc);
        for (name, cell) in names.split(BETWEEN).zip(row.split(BETWEEN)) {
            columns.push((name.trim(), unescaped(alloc, cell)?))?;
        }
        Ok(Values { alloc, columns })
    }

    /// Whether there are as many cells in a row as there are names.
    pub fn fits(names: &str, row: &str) -> bool {
        names.split(BETWEEN).count() == row.split(BETWEEN).count()
    }

    /// A text with the values in the place of their names in braces.
    pub fn filled(&self, text: &str) -> Result<String, AllocError> {
        let mut filled = String::from_str(self.alloc, text)?;
        for (name, value) in self.columns.as_slice() {
            if text.contains('{') {
                let mut braced = String::from_str(self.alloc, "{")?;
                braced.push_str(name)?;
                braced.push_str("}")?;
                filled = filled
                    .as_str()
                    .replace(self.alloc, braced.as_str(), value.as_str())?;
            }
        }
        Ok(filled)
    }

    /// The values as they are told: `name = value`, one behind the other.
    pub fn told(&self) -> Result<String, AllocError> {
        let mut told = String::new(self.alloc);
        for (name, value) in self.columns.as_slice() {
            told.push_str(if told.is_empty() { " (" } else { ", " })?;
            told.push_str(name)?;
            told.push_str(" = ")?;
            told.push_str(value.as_str())?;
        }
        if !told.is_empty() {
            told.push_str(")")?;
        }
        Ok(told)
    }
}

// A cell's text, with the characters that are written behind a backslash.
fn unescaped(alloc: Global, cell: &str) -> Result<String, AllocError> {
    let mut text = String::new(alloc);
    for (place, part) in cell.split('\\').enumerate() {
        if place == 0 {
            text.push_str(part)?;
        } else {
            push_escaped(&mut text, part)?;
        }
    }
    Ok(text)
}

// Adds what stands behind a backslash.
fn push_escaped(text: &mut String, part: &str) -> Result<(), AllocError> {
    if let Some(rest) = part.strip_prefix('t') {
        text.push('\t')?;
        text.push_str(rest)
    } else if let Some(rest) = part.strip_prefix('n') {
        text.push('\n')?;
        text.push_str(rest)
    } else if let Some((digits, rest)) = coded(part) {
        let code = u32::from_str_radix(digits, 16).unwrap_or(0);
        text.push(char::from_u32(code).unwrap_or('?'))?;
        text.push_str(rest)
    } else {
        text.push('\\')?;
        text.push_str(part)
    }
}

// The digits of a character's code in braces, and what stands behind them.
fn coded(part: &str) -> Option<(&str, &str)> {
    part.strip_prefix("u{")?.split_once('}')
}
