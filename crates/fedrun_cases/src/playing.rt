//! Cases, one behind the other.
use crate::files::{Stored, place_of};
use crate::filling::Values;
use crate::outcome::{Outcome, outcome_of, words_of};
use crate::saying::Otherwise;
use crate::transcript::{Command, Part, Wanted, parts};
use fedrun_program::Machine;
use std::alloc::{AllocError, Global};
use std::fs::File;
use std::io::Write;
use std::net::{Net, TcpListener, TcpStream};
use std::{io, rt};

/// How many cases there are, and how many passed.
#[derive(Clone, Copy)]
pub struct Tally {
    passed: usize,
    count: usize,
}

impl Tally {
    pub fn new() -> Tally {
        Tally {
            passed: 0,
            count: 0,
        }
    }

    pub fn add(&mut self, other: Tally) {
        self.passed = self.passed.saturating_add(other.passed);
        self.count = self.count.saturating_add(other.count);
    }

    fn note(&mut self, has_passed: bool) {
        self.passed = self.passed.saturating_add(usize::from(has_passed));
        self.count = self.count.saturating_add(1);
    }

    /// Prints how many passed of what has this name.
    pub fn say<O: Write>(&self, name: &str, out: &mut O) -> io::Result<()> {
        let passed = self.passed;
        let count = self.count;
        if passed == count {
            write!(out, "{name}: {passed} passed\n")
        } else {
            write!(out, "{name}: {passed} of {count} passed\n")
        }
    }
}

// A file of cases, while it is played.
#[derive(Drop)]
struct Play<'t> {
    alloc: Global,
    name: &'t str,
    // For each part whether it is a file that was asked for.
    used: Vec<bool>,
    // What commands printed into files.
    kept: Vec<Stored>,
    tally: Tally,
}

/// Plays a file of cases, and prints which don't pass, and how many do.
pub fn play_file<
    R: Machine + Net<Stream = TcpStream, Listener = TcpListener> + rt::Files<File = File>,
    O: Write,
>(rt: &R, name: &str, text: &str, out: &mut O) -> io::Result<Tally> {
    let alloc = rt.alloc();
    let parts = parts(alloc, text)?;
    let mut used = Vec::new(alloc);
    used.resize(parts.len(), false)?;
    let mut play = Play {
        alloc,
        name,
        used,
        kept: Vec::new(alloc),
        tally: Tally::new(),
    };
    for (place, part) in parts.iter().enumerate() {
        let before = parts.get(..place).unwrap_or(&[]);
        play.part(rt, before, part, out)?;
    }
    play.unused(parts.as_slice(), out)?;
    let tally = play.tally;
    tally.say(name, out)?;
    Ok(tally)
}

impl<'t> Play<'t> {
    // Plays a part, given those before it.
    fn part<
        R: Machine + Net<Stream = TcpStream, Listener = TcpListener> + rt::Files<File = File>,
        O: Write,
    >(&mut self, rt: &R, before: &[Part<'t>], part: &Part<'t>, out: &mut O) -> io::Result<()> {
        match part {
            Part::File(_) => Ok(()),
            Part::Stray(line) => self.fail(*line, "no part of a case", out),
            Part::Command(command) => match command.columns {
                Some(names) => self.rows(rt, before, command, names, out),
                None => {
                    let values = Values::none(self.alloc);
                    self.once(rt, before, command, command.line, &values, out)
                }
            },
        }
    }

    // Plays a command once for each of its rows.
    fn rows<
        R: Machine + Net<Stream = TcpStream, Listener = TcpListener> + rt::Files<File = File>,
        O: Write,
    >(
        &mut self,
        rt: &R,
        before: &[Part<'t>],
        command: &Command<'t>,
        names: &str,
        out: &mut O,
    ) -> io::Result<()> {
        if command.rows.is_empty() {
            self.fail(command.line, "a table without rows", out)?;
        }
        for (line, row) in command.rows.as_slice() {
            if Values::fits(names, row) {
                let values = Values::of(self.alloc, names, row)?;
                self.once(rt, before, command, *line, &values, out)?;
            } else {
                self.fail(*line, "a row with other cells than columns", out)?;
            }
        }
        Ok(())
    }

    // Plays a command once.
    fn once<
        R: Machine + Net<Stream = TcpStream, Listener = TcpListener> + rt::Files<File = File>,
        O: Write,
    >(
        &mut self,
        rt: &R,
        before: &[Part<'t>],
        command: &Command<'t>,
        line: usize,
        values: &Values<'_>,
        out: &mut O,
    ) -> io::Result<()> {
        let words = values.filled(command.words)?;
        let (asked, target) = target_of(words.as_str());
        let files = files_of(self.alloc, self.kept.as_slice(), before, values)?;
        let given = words_of(self.alloc, asked)?;
        let outcome = outcome_of(rt, given.as_slice(), files.as_slice())?;
        let otherwise = compared(self.alloc, command, values, &outcome, target.is_some())?;
        self.use_files(before, outcome.asked.as_slice());
        self.tally.note(otherwise.lines.is_empty());
        if !otherwise.lines.is_empty() {
            let name = self.name;
            let told = values.told()?;
            write!(out, "{name}:{line}: $ {words}{told}\n")?;
            for line in otherwise.lines.as_slice() {
                write!(out, "{line}\n")?;
            }
        }
        self.keep(target, outcome.out.as_str())?;
        Ok(())
    }

    // Notes which sections were asked for, of the files that were given: those that are kept, then the sections.
    fn use_files(&mut self, before: &[Part<'t>], asked: &[bool]) {
        let sections = asked.get(self.kept.len()..).unwrap_or(&[]);
        let mut flags = sections.iter();
        for (part, used) in before.iter().zip(self.used.iter_mut()) {
            if let Part::File(_) = part {
                if let Some(flag) = flags.next() {
                    *used = *used || *flag;
                }
            }
        }
    }

    // Keeps what was printed into a file.
    fn keep(&mut self, target: Option<&str>, printed: &str) -> Result<(), AllocError> {
        if let Some(name) = target {
            let file = Stored::new(self.alloc, name, printed.as_bytes())?;
            self.kept.push(file)?;
        }
        Ok(())
    }

    // Says which files no command asked for.
    fn unused<O: Write>(&mut self, parts: &[Part<'t>], out: &mut O) -> io::Result<()> {
        for (place, part) in parts.iter().enumerate() {
            if let Part::File(file) = part {
                if self.used.get(place) == Some(&false) {
                    self.fail(file.line, "a file for which no command asks", out)?;
                }
            }
        }
        Ok(())
    }

    // Counts and prints a failure.
    fn fail<O: Write>(&mut self, line: usize, what: &str, out: &mut O) -> io::Result<()> {
        self.tally.note(false);
        let name = self.name;
        write!(out, "{name}:{line}: {what}\n")
    }
}

// The words of a command, and the file into which its output goes, if it goes into one.
fn target_of(words: &str) -> (&str, Option<&str>) {
    match words.rsplit_once(" > ") {
        Some((words, target)) => (words, Some(target)),
        None => (words, None),
    }
}

// The files that there are for a command: those that are kept, then those of the sections before it.
fn files_of(
    alloc: Global,
    kept: &[Stored],
    before: &[Part<'_>],
    values: &Values<'_>,
) -> Result<Vec<Stored>, AllocError> {
    let mut files = Vec::new(alloc);
    for file in kept {
        files.push(Stored::new(alloc, file.name.as_str(), file.bytes.as_slice())?)?;
    }
    for part in before {
        if let Part::File(section) = part {
            files.push(Stored::of(alloc, section, values)?)?;
        }
    }
    Ok(files)
}

// What a command wants, with a row's values.
#[derive(Drop)]
struct Asked {
    out: Vec<String>,
    err: Vec<String>,
    out_has: Vec<String>,
    err_has: Vec<String>,
    status: String,
    lines: Option<String>,
    saved: Vec<(String, Vec<String>)>,
    // Whether it is said that nothing is printed.
    is_nothing: bool,
}

// What a command wants, with these values.
fn asked_of(
    alloc: Global,
    command: &Command<'_>,
    values: &Values<'_>,
) -> Result<Asked, AllocError> {
    let mut asked = Asked {
        out: Vec::new(alloc),
        err: Vec::new(alloc),
        out_has: Vec::new(alloc),
        err_has: Vec::new(alloc),
        status: String::from_str(alloc, "0")?,
        lines: None,
        saved: Vec::new(alloc),
        is_nothing: false,
    };
    for wanted in command.wanted.as_slice() {
        match wanted {
            Wanted::Out(line) => {
                let line = values.filled(line)?;
                match asked.saved.last_mut() {
                    Some((_name, lines)) => lines.push(line)?,
                    None => asked.out.push(line)?,
                }
            }
            Wanted::Err(line) => asked.err.push(values.filled(line)?)?,
            Wanted::OutHas(text) => asked.out_has.push(values.filled(text)?)?,
            Wanted::ErrHas(text) => asked.err_has.push(values.filled(text)?)?,
            Wanted::Status(number) => asked.status = values.filled(number)?,
            Wanted::Saved(name) => asked.saved.push((values.filled(name)?, Vec::new(alloc)))?,
            Wanted::Lines(count) => asked.lines = Some(values.filled(count)?),
            Wanted::Nothing => asked.is_nothing = true,
        }
    }
    Ok(asked)
}

impl Asked {
    // Whether something is wanted of what is printed, if that isn't kept.
    fn says_something(&self) -> bool {
        self.is_nothing
            || !self.out.is_empty()
            || !self.err.is_empty()
            || !self.out_has.is_empty()
            || !self.err_has.is_empty()
    }
}

// What of an outcome is otherwise than a command wants it; what is printed may be kept in a file, and not looked at.
fn compared(
    alloc: Global,
    command: &Command<'_>,
    values: &Values<'_>,
    outcome: &Outcome,
    is_kept: bool,
) -> Result<Otherwise, AllocError> {
    let asked = asked_of(alloc, command, values)?;
    let mut otherwise = Otherwise::new(alloc);
    if !is_kept && !asked.says_something() {
        otherwise.say("nothing is wanted of it; of one that prints nothing write (nothing)")?;
    }
    if !is_kept && asked.out_has.is_empty() {
        otherwise.compare(
            "standard output",
            outcome.out.as_str(),
            asked.out.as_slice(),
        )?;
    }
    if asked.err_has.is_empty() {
        otherwise.compare("standard error", outcome.err.as_str(), asked.err.as_slice())?;
    }
    otherwise.find(
        "standard output",
        outcome.out.as_str(),
        asked.out_has.as_slice(),
    )?;
    otherwise.find(
        "standard error",
        outcome.err.as_str(),
        asked.err_has.as_slice(),
    )?;
    if let Some(count) = &asked.lines {
        otherwise.count_lines(outcome.out.as_str(), count.as_str())?;
    }
    otherwise.compare_status(outcome.status, asked.status.as_str())?;
    for (name, lines) in asked.saved.as_slice() {
        compare_saved(&mut otherwise, outcome.saved.as_slice(), name, lines)?;
    }
    Ok(otherwise)
}

// Compares a file that was to be saved.
fn compare_saved(
    otherwise: &mut Otherwise,
    saved: &[Stored],
    name: &String,
    lines: &Vec<String>,
) -> Result<(), AllocError> {
    let name = name.as_str();
    let Some(place) = place_of(saved, name) else {
        return otherwise.say("a file that was to be saved isn't there");
    };
    let Some(file) = saved.get(place) else {
        return Ok(());
    };
    match str::from_utf8(file.bytes.as_slice()) {
        Ok(text) => otherwise.compare(name, text, lines.as_slice()),
        Err(_) => otherwise.say("a file that was saved is no text"),
    }
}
