//! What `audit` answers and prints of report files: those of the counter and of the chain, and some that aren't taken.
use crate::reports::{Flaw, ReportFile, changed, report_file, said};
use std::alloc::Global;
use std::net::{Net, TcpListener, TcpStream};
use tests_outcomes::{ANY, Answer, WrongAnswer, answered_over, outcome_of};
use tests_samples::worked_rows::{CHAIN_ROWS, COUNTER_ROWS};
use tests_samples::{CHAIN, CHAIN_INPUT, COUNTER, Machine, REPLACED};

/// Bytes of the counter's report files before the first row, and of each row, which has one input and one output.
const HEAD: usize = 82;

const ROW: usize = 60;

/// Where the value ends of the first message that comes to the counter's coordinator. Before the events stand 82 bytes;
/// before this one, which is the fourth, both federates' first NETs with 39 bytes each, and an Ack with 26. It has 49.
const VALUE: usize = 82 + 2 * 39 + 26 + 49;

/// Where the peer ends of the first frame that comes to `snk`: behind its three rows the count of its events in eight
/// bytes, the two by which it announces and advances, and of this one the kind, and the peer in eight bytes.
const PEER: usize = HEAD + 3 * ROW + 8 + 2 + 1 + 8;

/// The reports of all nodes, also of a third federate where there are two.
pub const HONEST: &[ReportFile] = &[
    ("c", None, Flaw::Honest),
    ("0", Some(0), Flaw::Honest),
    ("1", Some(1), Flaw::Honest),
    ("2", Some(2), Flaw::Honest),
];

/// The counter's reports, these after two rounds, that of a coordinator to which nothing came, and others in which
/// something is wrong: the third row of `snk`, and the second of `src` in each of its parts.
const COUNTER_REPORTS: &[ReportFile] = &[
    ("c", None, Flaw::Honest),
    ("0", Some(0), Flaw::Honest),
    ("1", Some(1), Flaw::Honest),
    ("2", Some(2), Flaw::Honest),
    ("c2", None, Flaw::Rounds(2)),
    ("02", Some(0), Flaw::Rounds(2)),
    ("12", Some(1), Flaw::Rounds(2)),
    ("silent", None, Flaw::Rounds(0)),
    ("rowless", Some(0), Flaw::Rowless),
    ("last", Some(1), Flaw::Changed(HEAD + 3 * ROW - 1)),
    ("tag", Some(0), Flaw::Changed(HEAD + ROW + 12 - 1)),
    ("slot", Some(0), Flaw::Changed(HEAD + ROW + 28 - 1)),
    ("input", Some(0), Flaw::Changed(HEAD + ROW + 36 - 1)),
    ("port", Some(0), Flaw::Changed(HEAD + ROW + 52 - 1)),
    ("output", Some(0), Flaw::Changed(HEAD + 2 * ROW - 1)),
    ("value", None, Flaw::Changed(VALUE - 1)),
    ("peer", Some(1), Flaw::Changed(PEER - 1)),
    ("cut", Some(0), Flaw::Cut),
];

/// The words of an audit of two federates' reports.
const TWO: &[&str] = &["audit", "f", "i", "c", "0", "1"];

const NOT_THERE: &[&str] = &["fedrun: cannot read g\n"];

/// Words over the counter's files; `j` is an input file without any input too, and `other` another federation. Where
/// several files are wrong, the first one that is named is told.
const COUNTER_ANSWERS: &[Answer] = &[
    (
        &[
            TWO,
            &["audit", "f", "i", "c", "1", "0"],
            &["audit", "f", "-", "c", "0", "1"],
        ],
        0,
        &[COUNTER_ROWS],
        &[],
    ),
    (
        &[&["audit", "f", "i", "c", "0", "1", "--csv"]],
        0,
        &[
            "federate,time_ns,microstep,kind,name,value\nsrc,0,0,in,t,\n",
            ANY,
            "snk,20000000,0,out,total,6\n",
        ],
        &[],
    ),
    (
        &[
            &["audit", "f", "i", "c"],
            &["audit", "f", "i", "c", "0", "1", "--turns", "9"],
        ],
        2,
        &[],
        &["fedrun: usage\n"],
    ),
    (
        &[
            &["audit", "g", "i", "c", "0", "1"],
            &["audit", "f", "g", "c", "0", "1"],
            &["audit", "f", "i", "g", "0", "1"],
            &["audit", "f", "i", "c", "0", "g"],
            &["audit", "f", "g", "f", "cut", "1"],
        ],
        1,
        &[],
        NOT_THERE,
    ),
    (
        &[
            &["audit", "f", "i", "f", "0", "1"],
            &["audit", "f", "i", "f", "cut", "1"],
        ],
        1,
        &[],
        &["fedrun: f: 100 NoReport\n"],
    ),
    (
        &[
            &["audit", "f", "i", "c", "cut", "1"],
            &["audit", "f", "i", "c", "cut", "2"],
            &["audit", "f", "i", "c", "cut", "g"],
        ],
        1,
        &[],
        &["fedrun: cut: 102 CutShort\n"],
    ),
    (
        &[
            &["audit", "f", "j", "c", "0", "1"],
            &["audit", "other", "i", "c", "0", "1"],
        ],
        1,
        &[],
        &["fedrun: c: 103 OtherFiles\n"],
    ),
    (
        &[&["audit", "f", "i", "1", "0", "c"]],
        1,
        &[],
        &["fedrun: 1: 111 OtherNode\n"],
    ),
    (
        &[&["audit", "f", "i", "c", "0", "c"]],
        1,
        &[],
        &["fedrun: c: 111 OtherNode\n"],
    ),
    (
        &[&["audit", "f", "i", "c", "0", "1", "0"]],
        1,
        &[],
        &["fedrun: 0: 81 Double\n"],
    ),
    (
        &[
            &["audit", "f", "i", "c", "2", "0"],
            &["audit", "f", "i", "c", "2", "cut"],
        ],
        1,
        &[],
        &["fedrun: 2: 80 Stranger\n"],
    ),
];

/// The same words where the reports fit no run, or one that isn't finished.
const COUNTER_DOUBTS: &[Answer] = &[
    (
        &[&["audit", "f", "i", "c", "0"]],
        3,
        &[],
        &["fedrun: 84 Missing snk\n"],
    ),
    (
        &[&["audit", "f", "i", "silent", "0", "1"]],
        3,
        &[],
        &["fedrun: 82 Stuck src 3\n"],
    ),
    // A message that was not sent.
    (
        &[&["audit", "f", "i", "value", "0", "1"]],
        3,
        &[],
        &["fedrun: 82 Stuck coordinator 4\n"],
    ),
    // A frame from a peer that isn't there.
    (
        &[&["audit", "f", "i", "c", "0", "peer"]],
        3,
        &[],
        &["fedrun: 82 Stuck ", ANY, "\n"],
    ),
    (
        &[&["audit", "f", "i", "c", "rowless", "1"]],
        3,
        &[],
        &["fedrun: 83 Mismatch src 1\n"],
    ),
    (
        &[
            &["audit", "f", "i", "c", "tag", "1"],
            &["audit", "f", "i", "c", "slot", "1"],
            &["audit", "f", "i", "c", "input", "1"],
            &["audit", "f", "i", "c", "port", "1"],
            &["audit", "f", "i", "c", "output", "1"],
            &["audit", "f", "i", "c", "output", "last"],
        ],
        3,
        &[],
        &["fedrun: 83 Mismatch src 2\n"],
    ),
    (
        &[&["audit", "f", "i", "c", "0", "last"]],
        3,
        &[],
        &["fedrun: 83 Mismatch snk 3\n"],
    ),
    (
        &[&["audit", "f", "i", "c2", "02", "12"]],
        3,
        &[],
        &["fedrun: not finished\n"],
    ),
];

/// Words over the files of the chain, which has three federates and a recorded input.
const CHAIN_ANSWERS: &[Answer] = &[(
    &[
        &["audit", "f", "i", "c", "0", "1", "2"],
        &["audit", "f", "i", "c", "2", "1", "0"],
    ],
    0,
    &[CHAIN_ROWS],
    &[],
)];

/// The files of these reports, in their order.
pub fn report_files(
    alloc: Global,
    federation: &str,
    inputs: &str,
    reports: &[ReportFile],
) -> Option<Vec<Vec<u8>>> {
    let mut files = Vec::new(alloc);
    for (_, node, flaw) in reports {
        files
            .push(report_file(alloc, federation, inputs, *node, *flaw)?)
            .ok()?;
    }
    Some(files)
}

/// These by their names, with the two files of the run as `f` and `i`, and two others as `other` and `j`.
pub fn named<'a>(
    alloc: Global,
    federation: &'a str,
    inputs: &'a str,
    reports: &'a [ReportFile],
    files: &'a [Vec<u8>],
) -> Option<Vec<(&'a str, &'a [u8])>> {
    let mut named = Vec::new(alloc);
    named.push(("f", federation.as_bytes())).ok()?;
    named.push(("i", inputs.as_bytes())).ok()?;
    named.push(("j", "# no input\n".as_bytes())).ok()?;
    named.push(("other", REPLACED.as_bytes())).ok()?;
    for ((name, _, _), file) in reports.iter().zip(files) {
        named.push((*name, file.as_slice())).ok()?;
    }
    Some(named)
}

// How many lists of words there are, which are all answered so over these reports of a run of these files; else the
// first that isn't. None where there is no memory for the files, or a node refuses something.
fn audited<R: Machine + Net<Stream = TcpStream, Listener = TcpListener>>(
    rt: &R,
    federation: &str,
    inputs: &str,
    reports: &[ReportFile],
    answers: &[Answer],
) -> Option<Result<usize, WrongAnswer>> {
    let alloc = rt.alloc();
    let files = report_files(alloc, federation, inputs, reports)?;
    let files = named(alloc, federation, inputs, reports, files.as_slice())?;
    Some(answered_over(rt, files.as_slice(), answers, 0))
}

// The same over the counter's reports.
fn audited_of_counter<R: Machine + Net<Stream = TcpStream, Listener = TcpListener>>(
    rt: &R,
    answers: &[Answer],
) -> Option<Result<usize, WrongAnswer>> {
    audited(rt, COUNTER, "", COUNTER_REPORTS, answers)
}

#[test]
fn answers_of_report_files_what_is_wrong_with_them(rt: HostRuntime) {
    assert_eq!(rt; audited_of_counter(&rt, COUNTER_ANSWERS), Some(Ok(23)));
}

#[test]
fn believes_no_reports_that_fit_no_finished_run(rt: HostRuntime) {
    assert_eq!(rt; audited_of_counter(&rt, COUNTER_DOUBTS), Some(Ok(13)));
}

#[test]
fn prints_the_rows_that_reports_of_three_federates_with_an_input_prove(rt: HostRuntime) {
    let audited = audited(&rt, CHAIN, CHAIN_INPUT, HONEST, CHAIN_ANSWERS);
    assert_eq!(rt; audited, Some(Ok(2)));
}

/// How many audits of files, one of which differs from an honest one, were refused, and how many gave all rows and no
/// others; and how many anything else.
#[derive(Drop)]
pub struct Judged {
    pub refused: usize,
    pub harmless: usize,
    pub wrong: usize,
}

impl Judged {
    pub fn new() -> Judged {
        Judged {
            refused: 0,
            harmless: 0,
            wrong: 0,
        }
    }

    /// Judges what an audit says of the counter's three files, in the place of one of which this stands; None where
    /// there is no memory.
    pub fn judge<'x, R: Machine + Net<Stream = TcpStream, Listener = TcpListener>>(
        &mut self,
        rt: &R,
        files: &'x [Vec<u8>],
        changed: usize,
        other: &'x [u8],
    ) -> Option<()> {
        let files = [
            ("f", COUNTER.as_bytes()),
            ("i", "".as_bytes()),
            ("c", file_at(files, 0, changed, other)),
            ("0", file_at(files, 1, changed, other)),
            ("1", file_at(files, 2, changed, other)),
        ];
        let outcome = outcome_of(rt, TWO, &files)?;
        let count = match outcome.texts() {
            (0, COUNTER_ROWS, "") => &mut self.harmless,
            (1 | 3, "", err) if !err.is_empty() => &mut self.refused,
            _ => &mut self.wrong,
        };
        *count = count.saturating_add(1);
        Some(())
    }
}

// The file of this place, in whose place another may stand.
fn file_at<'a>(files: &'a [Vec<u8>], place: usize, changed: usize, other: &'a [u8]) -> &'a [u8] {
    match files.get(place) {
        Some(file) if place != changed => file.as_slice(),
        _ => other,
    }
}

// Judges each change of a byte of one of the files; how many changes there are.
fn judge_changes<R: Machine + Net<Stream = TcpStream, Listener = TcpListener>>(
    rt: &R,
    files: &[Vec<u8>],
    number: usize,
    judged: &mut Judged,
) -> Option<usize> {
    let file = files.get(number)?.as_slice();
    for place in 0..said(file) {
        let other = changed(rt.alloc(), file, place)?;
        judged.judge(rt, files, number, &other)?;
    }
    Some(said(file))
}

// What comes of each change of a byte in each of the counter's three files; and how many changes there are.
fn all_judged<R: Machine + Net<Stream = TcpStream, Listener = TcpListener>>(
    rt: &R,
) -> Option<(Judged, usize)> {
    let files = report_files(rt.alloc(), COUNTER, "", HONEST)?;
    let mut judged = Judged::new();
    let mut changes = 0usize;
    for number in 0..3 {
        let more = judge_changes(rt, files.as_slice(), number, &mut judged)?;
        changes = changes.saturating_add(more);
    }
    Some((judged, changes))
}

#[test]
fn a_changed_file_gives_the_rows_or_none(rt: HostRuntime) {
    let judged = all_judged(&rt);
    // Each file is longer than the name of its format and two digests.
    let told = judged.map(|(judged, changes)| {
        (
            judged.wrong,
            judged.refused >= 3 * 72,
            judged.refused.saturating_add(judged.harmless) == changes,
        )
    });
    assert_eq!(rt; told, Some((0, true, true)));
}
