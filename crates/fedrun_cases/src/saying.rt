//! What is otherwise than it is wanted, line by line.
use crate::comparing::{Difference, first_difference, lines_of};
use std::alloc::{AllocError, Global};

/// Lines on what is otherwise; none where all is as it is wanted.
#[derive(Drop)]
pub struct Otherwise {
    alloc: Global,
    pub lines: Vec<String>,
}

impl Otherwise {
    pub fn new(alloc: Global) -> Otherwise {
        Otherwise {
            alloc,
            lines: Vec::new(alloc),
        }
    }

    /// Compares a text of this name with the lines that are wanted.
    pub fn compare(&mut self, what: &str, text: &str, wanted: &[String]) -> Result<(), AllocError> {
        let lines = lines_of(self.alloc, text)?;
        let wanted = texts(self.alloc, wanted)?;
        match first_difference(lines.as_slice(), wanted.as_slice()) {
            Some(found) => self.differs(what, &found),
            None => Ok(()),
        }
    }

    // Says that a line is otherwise.
    fn differs(&mut self, what: &str, found: &Difference<'_>) -> Result<(), AllocError> {
        let number = found.line;
        let wanted = found.wanted.unwrap_or("(nothing)");
        let is = found.is.unwrap_or("(nothing)");
        let line = format!(in self.alloc; "  {what}, line {number}: wanted `{wanted}`, is `{is}`")?;
        self.lines.push(line)?;
        Ok(())
    }

    /// Looks for texts, each of which is to stand in some line of a text of this name.
    pub fn find(&mut self, what: &str, text: &str, wanted: &[String]) -> Result<(), AllocError> {
        for part in wanted {
            if !text.contains(part.as_str()) {
                let line = format!(in self.alloc; "  {what}: `{part}` isn't there")?;
                self.lines.push(line)?;
            }
        }
        Ok(())
    }

    /// Compares how many lines a text has with what is wanted.
    pub fn count_lines(&mut self, text: &str, wanted: &str) -> Result<(), AllocError> {
        let count = lines_of(self.alloc, text)?.len();
        if wanted.parse() == Ok(count) {
            return Ok(());
        }
        let line = format!(in self.alloc;
            "  lines of standard output: wanted {wanted}, is {count}"
        )?;
        self.lines.push(line)?;
        Ok(())
    }

    /// Compares an exit status with the one that is wanted.
    pub fn compare_status(&mut self, status: u8, wanted: &str) -> Result<(), AllocError> {
        if wanted.parse() == Ok(status) {
            return Ok(());
        }
        let line = format!(in self.alloc; "  status: wanted {wanted}, is {status}")?;
        self.lines.push(line)?;
        Ok(())
    }

    /// Says something else.
    pub fn say(&mut self, what: &str) -> Result<(), AllocError> {
        let line = format!(in self.alloc; "  {what}")?;
        self.lines.push(line)?;
        Ok(())
    }
}

// Strings as texts.
fn texts<'a>(alloc: Global, strings: &'a [String]) -> Result<Vec<&'a str>, AllocError> {
    let mut texts = Vec::new(alloc);
    for text in strings {
        texts.push(text.as_str())?;
    }
    Ok(texts)
}
