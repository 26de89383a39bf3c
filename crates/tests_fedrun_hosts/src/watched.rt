//! What is written for whoever watches a node, what is measured of a coordinator, and that the node does the same as
//! without.
use crate::nodes::{ANY, Host, SECRET, watched};
use crate::runs::{COORDINATOR, SNK, SRC, connect};
use crate::shared_files::{Process, SharedFiles};
use crate::spoken::{Spoken, Until, heard};
use crossbeam_channel::{Receiver, Sender, unbounded};
use fedrun_stats::NodeMeasures;
use fedrun_watch::{View, show, view_asked};
use files_stats::Stats;
use std::alloc::Global;
use std::io::Write;
use std::net::{Net, TcpListener, TcpStream};
use std::sync::Wait;
use std::thread;
use wires_hosts::{Teller, Watcher};

/// Lines alone are shown.
const LINES: View = View {
    lines: true,
    rows: false,
};

// What is written of all that a node has told, which has ended.
fn written<R: Wait>(rt: &R, alloc: Global, watcher: &Watcher) -> Option<String> {
    let mut lines = Vec::new(alloc);
    show(rt, alloc, watcher, LINES, &mut lines);
    String::from_utf8(lines).ok()
}

/// A coordinator with a patience, whose run may be watched.
const WORDS: &[&str] = &[
    "coordinate --report c --log --stats s --listen",
    ANY,
    "f i --patience 10",
];

// How a coordinator ends that is watched and says all to another thread, which hears nothing more then.
fn coordinated<R: Host + Net<Stream = TcpStream, Listener = TcpListener>>(
    rt: &R,
    files: &SharedFiles,
    to: Sender<Vec<u8>>,
    teller: Teller,
) -> Option<(u8, Vec<u8>)> {
    let mut disk = Process::new(rt, files, None);
    let mut logs = Process::new(rt, files, None);
    let mut out = Spoken::new(rt, rt.alloc(), to);
    watched(rt, WORDS, SECRET, &mut disk, &mut logs, &mut out, teller)
}

// What is written of a run in which all nodes end as they should, and what is measured of its coordinator; none where
// one doesn't.
fn seen_of_run<R: Host + Net<Stream = TcpStream, Listener = TcpListener>>(
    rt: &R,
) -> Option<(String, Stats<'static>)> {
    let alloc = rt.alloc();
    let files = SharedFiles::new(alloc);
    let (teller, watcher) = Teller::watched(rt, alloc).ok()?;
    let (measures, moments) = NodeMeasures::new(rt, alloc).ok()?;
    let teller = teller.measured(rt, moments);
    let (to, from) = unbounded(alloc).ok()?;
    let (end, are_right) = thread::join(
        rt,
        || coordinated(rt, &files, to, teller),
        || connect(rt, &files, &COORDINATOR, ANY, &[SRC, SNK], &from),
    );
    let (status, err) = end?;
    if status == 0 && err.is_empty() && are_right? {
        Some((written(rt, alloc, &watcher)?, measures.stats(rt, status)?))
    } else {
        None
    }
}

/// What is written behind the times, part by part: of each part the lines come in any order.
const PARTS: &[&[&str]] = &[
    &[" s: it begins, at "],
    &[" s: its log has nothing so far: the run begins\n"],
    &[" s: 0 of 2 connected, waits for src and 1 more\n"],
    &[
        " s: src is connected, from 127.0.0.1:",
        " s: snk is connected, from 127.0.0.1:",
        " s: 1 of 2 connected, waits for s",
    ],
    &[" s: 2 of 2 connected: all are there\n"],
    &[" s: the run is finished\n"],
    &[" s: tells for up to 10.0 s that the run is finished: waits for src and 1 more\n"],
    &[
        " s: src has heard that the run is finished\n",
        " s: snk has heard that the run is finished\n",
    ],
];

// Whether just these lines are there, part by part.
fn are_written(lines: &str) -> Option<bool> {
    let mut count = 0_usize;
    let mut before = 0;
    for part in PARTS {
        let mut last = before;
        for line in *part {
            let place = lines.find(*line)?;
            if place < before {
                return Some(false);
            }
            last = last.max(place);
            count = count.saturating_add(1);
        }
        before = last;
    }
    Some(lines.bytes().filter(|byte| *byte == b'\n').count() == count)
}

// Whether that is what the counter's coordinator does: an LTC comes of each of six rows, and three MSGs go on.
fn is_counter(stats: &Stats<'_>) -> bool {
    let Some(counts) = stats.coordinator else {
        return false;
    };
    stats.command == "coordinate"
        && stats.status == 0
        && stats.federates.is_none()
        && counts.connections >= 2
        && counts.received.frames.ltc == 6
        && counts.received.frames.msg == 3
        && counts.sent.frames.msg == 3
        && counts.sent.calls > 0
        && counts.received.calls > 0
}

// Whether both are as they should.
fn is_seen<R: Host + Net<Stream = TcpStream, Listener = TcpListener>>(rt: &R) -> Option<bool> {
    let (lines, stats) = seen_of_run(rt)?;
    Some(are_written(lines.as_str())? && is_counter(&stats))
}

#[test]
fn a_run_is_watched_line_by_line_and_measured(rt: HostRuntime) {
    assert_eq!(rt; is_seen(&rt), Some(true));
}

// What is written of a node with these words that gives up, and says all else to this writer.
fn lines_given_up<R: Host + Net<Stream = TcpStream, Listener = TcpListener>, O: Write>(
    rt: &R,
    files: &SharedFiles,
    words: &[&str],
    out: &mut O,
) -> Option<String> {
    let alloc = rt.alloc();
    let (teller, watcher) = Teller::watched(rt, alloc).ok()?;
    let mut disk = Process::new(rt, files, None);
    let mut logs = Process::new(rt, files, None);
    let (status, err) = watched(rt, words, SECRET, &mut disk, &mut logs, out, teller)?;
    if status == 3 && err.as_slice() == "fedrun: not finished\n".as_bytes() {
        written(rt, alloc, &watcher)
    } else {
        None
    }
}

/// A coordinator that gives up after two seconds.
const GIVING_UP: &[&str] = &[
    "coordinate --report c --log --listen",
    ANY,
    "replaced i --patience 2",
];

// What is written of `src`, which connects where a coordinator says that it listens, and gives up after a second in
// which nothing comes.
fn lines_of_source<R: Host + Net<Stream = TcpStream, Listener = TcpListener>>(
    rt: &R,
    files: &SharedFiles,
    from: &Receiver<Vec<u8>>,
) -> Option<String> {
    let alloc = rt.alloc();
    let line = heard(rt, alloc, from, Until::Line)?;
    let address = line
        .as_str()
        .strip_prefix("listening ")?
        .strip_suffix("\n")?;
    let words = [
        "join --report src --log --patience 1 --connect",
        address,
        "replaced i src",
    ];
    let mut out = Vec::new(alloc);
    lines_given_up(rt, files, &words, &mut out)
}

// What is written of a coordinator and of `src`, which makes all its rows, where `snk` doesn't come.
fn lines_without_sink<R: Host + Net<Stream = TcpStream, Listener = TcpListener>>(
    rt: &R,
) -> Option<(String, String)> {
    let alloc = rt.alloc();
    let files = SharedFiles::new(alloc);
    let (to, from) = unbounded(alloc).ok()?;
    let (coordinator, source) = thread::join(
        rt,
        || lines_given_up(rt, &files, GIVING_UP, &mut Spoken::new(rt, alloc, to)),
        || lines_of_source(rt, &files, &from),
    );
    Some((coordinator?, source?))
}

/// How far `src` is then.
const SRC_REACHED: &str = ", completed (0, 1), granted (20 ms, 0), 0 signals not acknowledged";

/// How far `snk` is, for which both messages wait.
const SNK_REACHED: &str =
    ", never heard, completed nothing, granted nothing, 2 signals not acknowledged";

// Whether a line says that this federate stands there.
fn stands(lines: &str, federate: &str, reached: &str) -> bool {
    lines
        .lines()
        .any(|line| line.contains(federate) && line.ends_with(reached))
}

// Whether both nodes say so as they give up: the coordinator of each federate, and `src` of itself.
fn are_looked_at<R: Host + Net<Stream = TcpStream, Listener = TcpListener>>(
    rt: &R,
) -> Option<bool> {
    let (coordinator, source) = lines_without_sink(rt)?;
    Some(
        stands(coordinator.as_str(), " s: src: ", SRC_REACHED)
            && stands(coordinator.as_str(), " s: snk: ", SNK_REACHED)
            && stands(source.as_str(), " s: src: ", SRC_REACHED),
    )
}

#[test]
fn nodes_that_give_up_say_how_far_federates_are(rt: HostRuntime) {
    assert_eq!(rt; are_looked_at(&rt), Some(true));
}

// What is asked for by this word, behind another one.
fn asked_for(alloc: Global, word: &str) -> Option<View> {
    let mut words = Vec::new(alloc);
    words.push(String::from_str(alloc, "join").ok()?).ok()?;
    words.push(String::from_str(alloc, word).ok()?).ok()?;
    Some(view_asked(words.as_slice()))
}

#[test]
fn what_is_shown_is_asked_for(rt: HostRuntime) {
    let nothing = View {
        lines: false,
        rows: false,
    };
    let rows = View {
        lines: false,
        rows: true,
    };
    let asked = [
        asked_for(rt.alloc(), "--log"),
        asked_for(rt.alloc(), "--logs"),
        asked_for(rt.alloc(), "--progress"),
        asked_for(rt.alloc(), "log"),
    ];
    assert_eq!(rt;
        asked,
        [LINES, nothing, rows, nothing].map(|view| Some(view))
    );
    assert!(rt; nothing.is_empty() && !rows.is_empty() && !LINES.is_empty());
}
