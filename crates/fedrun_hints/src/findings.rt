//! What is wrong in the files that a command was given, as `lint` tells it.
use crate::advice::Advice;
use fedrun_files::{FileFault, Files};
use fedrun_lint::{NamedFile, print_report};
use fedrun_words::{Request, print_text};
use loadfed::{MOST_BYTES, MOST_INPUT_BYTES, load};
use plan::Plan;
use std::alloc::Global;
use std::fmt;
use std::io::Write;

/// How many findings of a file are told.
const MOST_TOLD: usize = 10;

/// Stands in the place of a file name: for no inputs, else for standard input, which can't be read again.
const DASH: &str = "-";

/// Where a file can't be read again.
const ASK_LINT: &str = "fedrun lint FILES.. says where, and what else is wrong";

/// The files that words name.
#[derive(Clone, Copy)]
pub(crate) struct GivenFiles<'a> {
    pub federation: &'a str,
    pub inputs: &'a str,
    pub schedule: Option<&'a str>,
}

/// The files of which a request's fault may speak; None where it names none, or tells all that is wrong by itself.
pub(crate) fn given_files<'a>(request: &Request<'a>) -> Option<GivenFiles<'a>> {
    let (federation, inputs, schedule) = match request {
        Request::Whole(whole) => (whole.federation, whole.inputs, None),
        Request::Check(check) => (check.federation, DASH, None),
        Request::Run(run) => (run.federation, run.inputs, None),
        Request::Record(record) => (record.federation, record.inputs, None),
        Request::Replay(replay) => (replay.federation, replay.inputs, Some(replay.schedule)),
        Request::Frames(frames) => (frames.federation, frames.inputs, Some(frames.schedule)),
        Request::Trace(trace) => (trace.federation, trace.inputs, Some(trace.schedule)),
        Request::DrawFederation(draw) => (draw.federation, DASH, None),
        Request::DrawSchedule(draw) => (draw.federation, draw.inputs, Some(draw.schedule)),
        Request::Audit(audit) => (audit.federation, audit.inputs, None),
        Request::Lint(_) | Request::About(_) => return None,
    };
    Some(GivenFiles {
        federation,
        inputs,
        schedule,
    })
}

// The bytes of a file that was read again; none where it has more than such a file may have.
#[derive(Drop)]
struct Found(Option<Vec<u8>>);

impl Found {
    // The file as `lint` is handed it.
    fn named<'a>(&'a self, name: &'a str) -> NamedFile<'a> {
        let bytes = match &self.0 {
            Some(bytes) => Some(bytes.as_slice()),
            None => None,
        };
        NamedFile { name, bytes }
    }
}

// Reads a file again, of at most so many bytes; None where it can't be.
fn found_again<F: Files>(name: &str, most: usize, files: &mut F) -> Option<Found> {
    if name == DASH {
        return None;
    }
    match files.bytes(name, most) {
        Ok(bytes) => Some(Found(Some(bytes))),
        Err(FileFault::OverLimit) => Some(Found(None)),
        Err(_) => None,
    }
}

// The same of recorded inputs, of which there may be none.
fn found_inputs<F: Files>(alloc: Global, name: &str, files: &mut F) -> Option<Found> {
    if name == DASH {
        Some(Found(Some(Vec::new(alloc))))
    } else {
        found_again(name, MOST_INPUT_BYTES, files)
    }
}

/// The plan of a federation file that is read again.
pub(crate) fn plan_of<F: Files>(alloc: Global, name: &str, files: &mut F) -> Option<Plan> {
    let bytes = found_again(name, MOST_BYTES, files)?.0?;
    match load(alloc, bytes.as_slice()) {
        Ok((plan, _programs)) => Some(plan),
        Err(_) => None,
    }
}

/// Tells what is wrong in the first of these files that isn't taken, which are read again by their names among regular
/// files.
pub(crate) fn print_findings<F: Files, E: Write>(
    alloc: Global,
    given: GivenFiles<'_>,
    files: &mut F,
    err: &mut E,
) {
    match report_on(alloc, given, files) {
        Some(report) => print_first(&given, report.as_str(), err),
        None => {
            let _is_told = print_text(err, &Advice(ASK_LINT));
        }
    }
}

// What `lint` prints of these files; None where one can't be read again, or there is no memory.
fn report_on<F: Files>(alloc: Global, given: GivenFiles<'_>, files: &mut F) -> Option<String> {
    let federation = found_again(given.federation, MOST_BYTES, files)?;
    let inputs = found_inputs(alloc, given.inputs, files)?;
    match given.schedule {
        Some(name) => {
            let schedule = found_again(name, MOST_BYTES, files)?;
            printed(
                alloc,
                &federation.named(given.federation),
                &inputs.named(given.inputs),
                Some(schedule.named(name)),
            )
        }
        None => printed(
            alloc,
            &federation.named(given.federation),
            &inputs.named(given.inputs),
            None,
        ),
    }
}

// A report of `lint` as a text.
fn printed(
    alloc: Global,
    federation: &NamedFile<'_>,
    inputs: &NamedFile<'_>,
    schedule: Option<NamedFile<'_>>,
) -> Option<String> {
    let mut text = Vec::new(alloc);
    if print_report(alloc, federation, inputs, schedule, &mut text).is_err() {
        return None;
    }
    String::from_utf8(text).ok()
}

// Tells of the first file of which a report has something wrong the first of it.
fn print_first<E: Write>(given: &GivenFiles<'_>, report: &str, err: &mut E) {
    let schedule = given.schedule.unwrap_or(DASH);
    for name in [given.federation, given.inputs, schedule] {
        if print_lines(name, report, err) {
            return;
        }
    }
}

// Tells what a report has wrong of this file, the first of it, and how much more there is. Says whether there is any.
fn print_lines<E: Write>(name: &str, report: &str, err: &mut E) -> bool {
    let mut count = 0usize;
    for line in report.split('\n') {
        if is_wrong(name, line) {
            if count < MOST_TOLD {
                let _is_told = print_text(err, &Line(line));
            }
            count = count.saturating_add(1);
        }
    }
    if count > MOST_TOLD {
        let _is_told = print_text(err, &More(count.saturating_sub(MOST_TOLD)));
    }
    count > 0
}

// Whether a report's line says of this file that something is wrong.
fn is_wrong(name: &str, line: &str) -> bool {
    match line.strip_prefix(name) {
        Some(rest) => rest.starts_with(':') && rest.contains(": wrong: "),
        None => false,
    }
}

// A line as it is.
#[derive(Drop)]
struct Line<'a>(&'a str);

impl fmt::Display for Line<'_> {
    fn fmt<W: fmt::Write>(&self, f: &mut fmt::Formatter<W>) -> fmt::Result {
        let text = self.0;
        write!(f, "{text}\n")
    }
}

// That there are so many more.
#[derive(Drop)]
struct More(usize);

impl fmt::Display for More {
    fn fmt<W: fmt::Write>(&self, f: &mut fmt::Formatter<W>) -> fmt::Result {
        let count = self.0;
        write!(f, "help: {count} more: fedrun lint FILES.. prints them\n")
    }
}
