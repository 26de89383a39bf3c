//! How far federates were, as a coordinator heard it.
use crate::findings::plan_of;
use fedrun_files::Files;
use fedrun_reports::read_coordinator;
use fedrun_words::print_text;
use files_reports::FileDigests;
use files_reports::layout::LONGEST_REPORT;
use loadfed::{MOST_BYTES, MOST_INPUT_BYTES};
use node::Event;
use node_journal::Journal;
use signal::{Frame, Signal};
use std::alloc::{AllocError, Global};
use std::fmt;
use std::io::Write;
use tag::{FiniteTag, is_past};

/// What a coordinator heard of a federate.
#[derive(Clone, Copy)]
struct Standing {
    is_heard: bool,
    /// The latest tag that it said it has completed.
    completed: Option<FiniteTag>,
}

/// Of one that wasn't heard.
const UNHEARD: Standing = Standing {
    is_heard: false,
    completed: None,
};

impl Standing {
    fn hear(&mut self, frame: &Frame) {
        self.is_heard = true;
        if let Frame::Data {
            signal: Signal::Ltc(tag),
            ..
        } = frame
        {
            if is_past(self.completed, tag.tag()) {
                self.completed = Some(*tag);
            }
        }
    }
}

/// Tells how far each federate was by the coordinator's report or log of this name, where that can be read, of a run of
/// these two files, which are read again.
pub(crate) fn print_standings<F: Files, E: Write>(
    alloc: Global,
    federation: &str,
    inputs: &str,
    report: &str,
    files: &mut F,
    err: &mut E,
) {
    let Some(digests) = digests_of(alloc, federation, inputs, files) else {
        return;
    };
    let Ok(bytes) = files.bytes(report, LONGEST_REPORT) else {
        return;
    };
    let Ok(journal) = read_coordinator(alloc, &digests, bytes.as_slice()) else {
        return;
    };
    let Some(plan) = plan_of(alloc, federation, files) else {
        return;
    };
    let Ok(standings) = standings_in(alloc, plan.federate_count(), &journal) else {
        return;
    };
    for (federate, standing) in plan.federates().iter().zip(standings.as_slice()) {
        let line = StandingLine {
            name: federate.name.as_str(),
            standing: *standing,
        };
        let _is_told = print_text(err, &line);
    }
}

// The digests of the federation file and of this input file; `-` is one without any bytes.
fn digests_of<F: Files>(
    alloc: Global,
    federation: &str,
    inputs: &str,
    files: &mut F,
) -> Option<FileDigests> {
    let federation = files.bytes(federation, MOST_BYTES).ok()?;
    let inputs = if inputs == "-" {
        Vec::new(alloc)
    } else {
        files.bytes(inputs, MOST_INPUT_BYTES).ok()?
    };
    Some(FileDigests::new(federation.as_slice(), inputs.as_slice()))
}

// What a coordinator heard of this many federates, by its journal.
fn standings_in(
    alloc: Global,
    count: usize,
    journal: &Journal,
) -> Result<Vec<Standing>, AllocError> {
    let mut standings = Vec::new(alloc);
    standings.resize(count, UNHEARD)?;
    let mut near = 0usize;
    for place in 0..journal.len() {
        if let Some(event) = journal.get(place, &mut near) {
            note(standings.as_mut_slice(), &event);
        }
    }
    Ok(standings)
}

// Notes what a coordinator heard by an event.
fn note(standings: &mut [Standing], event: &Event) {
    if let Event::Frame(peer, frame) = event {
        if let Some(standing) = standings.get_mut(*peer) {
            standing.hear(frame);
        }
    }
}

// How far a federate was, on a line.
#[derive(Drop)]
struct StandingLine<'a> {
    name: &'a str,
    standing: Standing,
}

impl fmt::Display for StandingLine<'_> {
    fn fmt<W: fmt::Write>(&self, f: &mut fmt::Formatter<W>) -> fmt::Result {
        let name = self.name;
        match self.standing.completed {
            Some(tag) => write!(f, "help: {name} has completed {tag}\n"),
            None if self.standing.is_heard => write!(f, "help: {name} has completed no tag\n"),
            None => write!(f, "help: {name} wasn't heard\n"),
        }
    }
}
