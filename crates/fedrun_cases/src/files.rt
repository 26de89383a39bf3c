//! Files in memory.
use crate::filling::Values;
use crate::transcript::{Form, Section};
use fedrun_files::{FileFault, Files};
use files_saving::{Disk, SaveFault};
use std::alloc::{AllocError, Global};

/// Stands for standard input among files.
const DASH: &str = "-";

/// A file by its name.
#[derive(Drop)]
pub struct Stored {
    pub name: String,
    pub bytes: Vec<u8>,
}

impl Stored {
    pub fn new(alloc: Global, name: &str, bytes: &[u8]) -> Result<Stored, AllocError> {
        Ok(Stored {
            name: String::from_str(alloc, name)?,
            bytes: Vec::from_slice(alloc, bytes)?,
        })
    }

    /// The file that a section says, with these values.
    pub fn of(
        alloc: Global,
        section: &Section<'_>,
        values: &Values<'_>,
    ) -> Result<Stored, AllocError> {
        let name = values.filled(section.name)?;
        let mut text = String::new(alloc);
        for line in section.lines.iter().take(line_count(section)) {
            let line = values.filled(line)?;
            push_lines(alloc, &mut text, line.as_str())?;
        }
        let bytes = match section.form {
            Form::Text => text.into_bytes(),
            Form::Open => without_end(text).into_bytes(),
            Form::Hex => bytes_of(alloc, text.as_str())?,
        };
        Ok(Stored { name, bytes })
    }
}

// How many lines a section has without the empty ones at its end.
fn line_count(section: &Section<'_>) -> usize {
    let last = section.lines.iter().rposition(|line| !line.is_empty());
    last.map_or(0, |place| place.saturating_add(1))
}

// Adds a line; one that begins with `*N ` is there N times, and its % is the number of each, from 0.
fn push_lines(alloc: Global, text: &mut String, line: &str) -> Result<(), AllocError> {
    if let Some((count, line)) = repeated(line) {
        for number in 0..count {
            let digits = format!(in alloc; "{number}")?;
            let line = line.replace(alloc, "%", digits.as_str())?;
            text.push_str(line.as_str())?;
            text.push_str("\n")?;
        }
        return Ok(());
    }
    text.push_str(line)?;
    text.push_str("\n")
}

// How often a line stands there that begins with a star, and the line.
fn repeated(line: &str) -> Option<(u32, &str)> {
    let (count, line) = line.strip_prefix('*')?.split_once(' ')?;
    let count: u32 = count.parse().ok()?;
    Some((count, line))
}

fn without_end(text: String) -> String {
    let mut text = text;
    let _end = text.pop();
    text
}

// The bytes that hexadecimal digits spell, two each; other characters say nothing.
fn bytes_of(alloc: Global, text: &str) -> Result<Vec<u8>, AllocError> {
    let mut bytes = Vec::new(alloc);
    let mut high: Option<u8> = None;
    for letter in text.chars() {
        if let Some(digit) = letter.to_digit(16) {
            let digit = u8::try_from(digit).unwrap_or(0);
            match high {
                Some(first) => {
                    bytes.push(first.wrapping_mul(16).wrapping_add(digit))?;
                    high = None;
                }
                None => high = Some(digit),
            }
        }
    }
    Ok(bytes)
}

/// Files as commands ask for them, the last of a name; standard input is given once.
#[derive(Drop)]
pub struct Given<'a> {
    alloc: Global,
    files: &'a [Stored],
    /// Which of them were asked for.
    pub asked: Vec<bool>,
    /// Whether `-` is standard input, and wasn't read yet.
    has_input: bool,
}

impl<'a> Given<'a> {
    /// The files, among which `-` is standard input if that is said.
    pub fn new(
        alloc: Global,
        files: &'a [Stored],
        has_input: bool,
    ) -> Result<Given<'a>, AllocError> {
        let mut asked = Vec::new(alloc);
        asked.resize(files.len(), false)?;
        Ok(Given {
            alloc,
            files,
            asked,
            has_input,
        })
    }
}

impl Files for Given<'_> {
    fn bytes(&mut self, name: &str, most: usize) -> Result<Vec<u8>, FileFault> {
        if name == DASH && !self.has_input {
            return Err(FileFault::Unreadable);
        }
        if name == DASH {
            self.has_input = false;
        }
        let Some(place) = place_of(self.files, name) else {
            return Err(FileFault::Unreadable);
        };
        if let Some(asked) = self.asked.get_mut(place) {
            *asked = true;
        }
        match self.files.get(place) {
            Some(file) if file.bytes.len() > most => Err(FileFault::OverLimit),
            Some(file) => {
                Vec::from_slice(self.alloc, file.bytes.as_slice()).map_err(|_| FileFault::Memory)
            }
            None => Err(FileFault::Unreadable),
        }
    }
}

// Where the last file of a name stands.
pub fn place_of(files: &[Stored], name: &str) -> Option<usize> {
    files.iter().rposition(|file| file.name.as_str() == name)
}

/// Where commands save files: those that were there before, and those that were saved.
#[derive(Drop)]
pub struct Folder<'a> {
    alloc: Global,
    before: &'a [Stored],
    /// Which of those that were there before were asked for.
    pub asked: Vec<bool>,
    pub saved: Vec<Stored>,
}

impl<'a> Folder<'a> {
    pub fn new(alloc: Global, before: &'a [Stored]) -> Result<Folder<'a>, AllocError> {
        let mut asked = Vec::new(alloc);
        asked.resize(before.len(), false)?;
        Ok(Folder {
            alloc,
            before,
            asked,
            saved: Vec::new(alloc),
        })
    }

    // Whether there is a file of this name, which is asked for so.
    fn has(&mut self, name: &str) -> bool {
        if place_of(self.saved.as_slice(), name).is_some() {
            return true;
        }
        match place_of(self.before, name) {
            Some(place) => {
                if let Some(asked) = self.asked.get_mut(place) {
                    *asked = true;
                }
                true
            }
            None => false,
        }
    }

    // Takes the saved file of this name out, if there is one.
    fn take(&mut self, name: &str) -> Option<Stored> {
        let place = place_of(self.saved.as_slice(), name)?;
        if place < self.saved.len() {
            Some(self.saved.remove(place))
        } else {
            None
        }
    }

    fn put(&mut self, name: &str, bytes: &[u8]) -> Result<(), AllocError> {
        let file = Stored::new(self.alloc, name, bytes)?;
        self.saved.push(file)?;
        Ok(())
    }
}

impl Disk for Folder<'_> {
    fn exists(&mut self, name: &str) -> Result<bool, SaveFault> {
        Ok(self.has(name))
    }

    fn create(&mut self, name: &str) -> Result<(), SaveFault> {
        if self.has(name) {
            return Err(SaveFault::Exists);
        }
        self.put(name, b"").map_err(|_| SaveFault::CannotCreate)
    }

    fn write(&mut self, name: &str, bytes: &[u8]) -> Result<(), SaveFault> {
        self.take(name);
        self.put(name, bytes).map_err(|_| SaveFault::CannotWrite)
    }

    fn rename(&mut self, from: &str, to: &str) -> Result<(), SaveFault> {
        if self.has(to) {
            return Err(SaveFault::Exists);
        }
        let Some(file) = self.take(from) else {
            return Err(SaveFault::CannotRename);
        };
        self.put(to, file.bytes.as_slice())
            .map_err(|_| SaveFault::CannotRename)
    }

    fn remove(&mut self, name: &str) {
        self.take(name);
    }
}
