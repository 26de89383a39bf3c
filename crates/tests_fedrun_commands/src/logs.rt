//! What `audit` answers and prints of logs: those of the counter's nodes, beside reports, cut and changed at many bytes.
use crate::audits::{HONEST, Judged, named, report_files};
use crate::reports::{Flaw, report_after};
use fedrun_reports::RULES;
use files_logs::written::Written;
use files_logs::{LogHead, write_block, write_end, write_head};
use files_reports::layout::COORDINATOR;
use files_reports::{FileDigests, NodeReport};
use node_journal::Journal;
use std::alloc::Global;
use std::net::{Net, TcpListener, TcpStream};
use tests_outcomes::{Answer, WrongAnswer, answered_over};
use tests_samples::worked_rows::COUNTER_ROWS;
use tests_samples::{COUNTER, Federation, Machine, with_loaded};

/// Bytes of a log's head.
const HEAD: usize = 84;

/// How many events a block has, but for the last one.
const BLOCK: usize = 3;

/// One of so many bytes of a log is looked at: the digest that ends it has more.
const STRIDE: usize = 31;

/// How a log differs from one that its node wrote to its end.
#[derive(Clone, Copy, PartialEq, Eq)]
enum LogFlaw {
    /// It doesn't.
    Ended,
    /// Its node was killed before it ended.
    Grows,
    /// So it was, and the last write left some bytes.
    Torn,
    /// It has the events of two rounds alone.
    Early,
    /// It was written by other rules.
    OtherRules,
    /// Its head isn't whole.
    Headless,
    /// Its first block isn't as it was written.
    Damaged,
    /// Its digest isn't as it was written.
    Changed,
}

/// A log: its name, whose it is, and how it differs.
type LogFile = (&'static str, Option<usize>, LogFlaw);

const LOGS: &[LogFile] = &[
    ("lc", None, LogFlaw::Ended),
    ("l0", Some(0), LogFlaw::Ended),
    ("l1", Some(1), LogFlaw::Ended),
    ("l2", Some(2), LogFlaw::Ended),
    ("gc", None, LogFlaw::Grows),
    ("g0", Some(0), LogFlaw::Grows),
    ("g1", Some(1), LogFlaw::Grows),
    ("tc", None, LogFlaw::Torn),
    ("t0", Some(0), LogFlaw::Torn),
    ("t1", Some(1), LogFlaw::Torn),
    ("ec", None, LogFlaw::Early),
    ("e0", Some(0), LogFlaw::Early),
    ("e1", Some(1), LogFlaw::Early),
    ("rules", Some(0), LogFlaw::OtherRules),
    ("headless", Some(0), LogFlaw::Headless),
    ("damaged", Some(0), LogFlaw::Damaged),
    ("changed", Some(0), LogFlaw::Changed),
];

/// Words over the counter's logs and reports.
const ANSWERS: &[Answer] = &[
    // Logs alone, and logs beside reports.
    (
        &[
            &["audit", "f", "i", "lc", "l0", "l1"],
            &["audit", "f", "i", "lc", "l1", "l0"],
            &["audit", "f", "i", "gc", "g0", "g1"],
            &["audit", "f", "i", "tc", "t0", "t1"],
            &["audit", "f", "i", "c", "g0", "1"],
            &["audit", "f", "i", "tc", "0", "1"],
        ],
        0,
        &[COUNTER_ROWS],
        &[],
    ),
    (
        &[&["audit", "f", "i", "ec", "e0", "e1"]],
        3,
        &[],
        &["fedrun: not finished\n"],
    ),
    (
        &[&["audit", "f", "j", "lc", "l0", "l1"]],
        1,
        &[],
        &["fedrun: lc: 103 OtherFiles\n"],
    ),
    (
        &[&["audit", "f", "i", "l1", "l0", "lc"]],
        1,
        &[],
        &["fedrun: l1: 111 OtherNode\n"],
    ),
    (
        &[&["audit", "f", "i", "lc", "l0", "lc"]],
        1,
        &[],
        &["fedrun: lc: 111 OtherNode\n"],
    ),
    (
        &[&["audit", "f", "i", "lc", "l0", "0"]],
        1,
        &[],
        &["fedrun: 0: 81 Double\n"],
    ),
    (
        &[&["audit", "f", "i", "lc", "0", "l0"]],
        1,
        &[],
        &["fedrun: l0: 81 Double\n"],
    ),
    (
        &[&["audit", "f", "i", "lc", "l2", "l0"]],
        1,
        &[],
        &["fedrun: l2: 80 Stranger\n"],
    ),
    (
        &[&["audit", "f", "i", "lc", "rules", "l1"]],
        1,
        &[],
        &["fedrun: rules: 121 OtherLog\n"],
    ),
    (
        &[&["audit", "f", "i", "lc", "headless", "l1"]],
        1,
        &[],
        &["fedrun: headless: 100 NoReport\n"],
    ),
    (
        &[&["audit", "f", "i", "lc", "damaged", "l1"]],
        1,
        &[],
        &["fedrun: damaged: 122 Damaged\n"],
    ),
    (
        &[&["audit", "f", "i", "lc", "changed", "l1"]],
        1,
        &[],
        &["fedrun: changed: 102 CutShort\n"],
    ),
];

/// How many lists of words these have.
const COUNT: usize = 17;

// The log of a node of the counter.
fn log_file(alloc: Global, node: Option<usize>, flaw: LogFlaw) -> Option<Vec<u8>> {
    with_loaded(alloc, COUNTER, "", |counter| {
        log_of(
            alloc,
            &journal_after(alloc, counter, node, flaw)?,
            node,
            flaw,
        )
    })
}

// What came to a node of this federation.
fn journal_after(
    alloc: Global,
    federation: &Federation,
    node: Option<usize>,
    flaw: LogFlaw,
) -> Option<Journal> {
    let flaw = if flaw == LogFlaw::Early {
        Flaw::Rounds(2)
    } else {
        Flaw::Honest
    };
    match report_after(alloc, federation, node, flaw)? {
        NodeReport::Coordinator(journal) => Some(journal),
        NodeReport::Federate(report) => Some(report.journal),
    }
}

// The log of a node to which this came.
fn log_of(alloc: Global, events: &Journal, node: Option<usize>, flaw: LogFlaw) -> Option<Vec<u8>> {
    let head = LogHead {
        files: FileDigests::new(COUNTER.as_bytes(), b""),
        who: match node {
            Some(federate) => u16::try_from(federate).ok()?,
            None => COORDINATOR,
        },
        rules: if flaw == LogFlaw::OtherRules {
            RULES + 1
        } else {
            RULES
        },
    };
    let mut bytes = Vec::new(alloc);
    let sum = add_blocks(alloc, &mut bytes, &head, events)?;
    spoil(alloc, &mut bytes, sum, flaw)?;
    Some(bytes)
}

// Writes a log but for its end, and says the sum behind it.
fn add_blocks(alloc: Global, bytes: &mut Vec<u8>, head: &LogHead, events: &Journal) -> Option<u64> {
    let mut sum = add(bytes, write_head(alloc, head).ok()?)?;
    for place in (0..events.len()).step_by(BLOCK) {
        sum = add(bytes, block_at(alloc, sum, events, place)?)?;
    }
    Some(sum)
}

// The block of the events from this place on.
fn block_at(alloc: Global, sum: u64, events: &Journal, place: usize) -> Option<Written> {
    let mut some = Journal::new(alloc);
    some.append(events, place, BLOCK).ok()?;
    let is_last = place.saturating_add(BLOCK) >= events.len();
    write_block(alloc, sum, &some, is_last).ok()
}

fn add(bytes: &mut Vec<u8>, written: Written) -> Option<u64> {
    bytes.extend_from_slice(written.bytes.as_slice()).ok()?;
    Some(written.sum)
}

// Ends the log, or makes it wrong.
fn spoil(alloc: Global, bytes: &mut Vec<u8>, sum: u64, flaw: LogFlaw) -> Option<()> {
    match flaw {
        LogFlaw::Grows | LogFlaw::Early => {}
        LogFlaw::Torn => bytes
            .extend_from_slice(&[0, 0, 0, 9, 1, 2, 3, 4, 5, 6, 7])
            .ok()?,
        LogFlaw::Headless => bytes.truncate(HEAD - 1),
        LogFlaw::Damaged => {
            let byte = bytes.get_mut(HEAD + 8)?;
            *byte = byte.wrapping_add(1);
        }
        LogFlaw::Ended | LogFlaw::OtherRules | LogFlaw::Changed => {
            let end = write_end(alloc, sum, bytes.as_slice()).ok()?;
            bytes.extend_from_slice(end.as_slice()).ok()?;
        }
    }
    if flaw == LogFlaw::Changed {
        let byte = bytes.last_mut()?;
        *byte = byte.wrapping_add(1);
    }
    Some(())
}

// Honest reports and all logs by their names, with the two files of the run.
fn beside_reports<'a>(
    alloc: Global,
    reports: &'a [Vec<u8>],
    logs: &'a [Vec<u8>],
) -> Option<Vec<(&'a str, &'a [u8])>> {
    let mut files = named(alloc, COUNTER, "", HONEST, reports)?;
    for ((name, _, _), log) in LOGS.iter().zip(logs) {
        files.push((*name, log.as_slice())).ok()?;
    }
    Some(files)
}

// How many lists of words are answered as they should be, over all logs and honest reports; else the first that isn't.
fn audited<R: Machine + Net<Stream = TcpStream, Listener = TcpListener>>(
    rt: &R,
) -> Option<Result<usize, WrongAnswer>> {
    let alloc = rt.alloc();
    let mut logs = Vec::new(alloc);
    for (_, node, flaw) in LOGS {
        logs.push(log_file(alloc, *node, *flaw)?).ok()?;
    }
    let reports = report_files(alloc, COUNTER, "", HONEST)?;
    let files = beside_reports(alloc, reports.as_slice(), logs.as_slice())?;
    Some(answered_over(rt, files.as_slice(), ANSWERS, 0))
}

#[test]
fn answers_of_logs_as_of_reports(rt: HostRuntime) {
    assert_eq!(rt; audited(&rt), Some(Ok(COUNT)));
}

// The counter's logs, the coordinator's first.
fn ended_logs(alloc: Global) -> Option<Vec<Vec<u8>>> {
    let mut logs = Vec::new(alloc);
    for node in [None, Some(0), Some(1)] {
        logs.push(log_file(alloc, node, LogFlaw::Ended)?).ok()?;
    }
    Some(logs)
}

// Judges some fronts of one of the logs, and changes of as many of its bytes; and says how many these are.
fn judge_log<R: Machine + Net<Stream = TcpStream, Listener = TcpListener>>(
    rt: &R,
    logs: &[Vec<u8>],
    number: usize,
    judged: &mut Judged,
) -> Option<usize> {
    let log = logs.get(number)?.as_slice();
    let mut count = 0usize;
    for place in (number..log.len()).step_by(STRIDE) {
        count = count.saturating_add(1);
        judged.judge(rt, logs, number, log.get(..place)?)?;
        let mut other = Vec::from_slice(rt.alloc(), log).ok()?;
        let byte = other.get_mut(place)?;
        *byte = byte.wrapping_add(1);
        judged.judge(rt, logs, number, other.as_slice())?;
    }
    Some(count)
}

// What comes of fronts and changes of each of the counter's logs; and of how many bytes.
fn all_judged<R: Machine + Net<Stream = TcpStream, Listener = TcpListener>>(
    rt: &R,
) -> Option<(Judged, usize)> {
    let logs = ended_logs(rt.alloc())?;
    let mut judged = Judged::new();
    let mut count = 0usize;
    for number in 0..3 {
        count = count.saturating_add(judge_log(rt, &logs, number, &mut judged)?);
    }
    Some((judged, count))
}

// Fronts of logs and changes give the rows or none: of each log one front at least has all but some of the digest, and
// gives the rows.
#[test]
fn a_log_that_was_cut_or_changed_gives_the_rows_or_none(rt: HostRuntime) {
    let told = all_judged(&rt).map(|(judged, count)| {
        (
            judged.wrong,
            judged.harmless >= 3,
            judged.refused >= count,
            count >= 30,
        )
    });
    assert_eq!(rt; told, Some((0, true, true, true)));
}
