//! What is measured of a run.
use fedrun_progress::NoProgress;
use fedrun_stats::RunMeasures;
use files_stats::Stats;
use std::net::{Net, TcpListener, TcpStream};
use tests_outcomes::{NamedFiles, status_into};
use tests_samples::{COUNTER, Machine};

// What is measured of the words over the counter, and their status.
fn measured<R: Machine + Net<Stream = TcpStream, Listener = TcpListener>>(
    rt: &R,
    words: &[&str],
) -> Option<(u8, Option<Stats<'static>>)> {
    let files = [("f", COUNTER.as_bytes())];
    let mut files = NamedFiles::new(rt.alloc(), &files);
    let mut out = Vec::new(rt.alloc());
    let mut err = Vec::new(rt.alloc());
    let nobody = NoProgress;
    let measures = RunMeasures::new(rt, &nobody);
    let status = status_into(rt, words, &mut files, &mut out, &mut err, &measures)?;
    Some((status, measures.stats(status)))
}

// Whether that is what the counter's nodes do: six rows, and three messages from one federate to the other.
fn is_counter(stats: &Stats<'_>) -> bool {
    let (Some(coordinator), Some(federates)) = (stats.coordinator, stats.federates) else {
        return false;
    };
    stats.command == "run"
        && coordinator.connections >= 2
        && federates.connections >= 2
        && federates.sent.frames.ltc == 6
        && coordinator.received.frames.ltc == 6
        && coordinator.sent.frames.msg == 3
        && coordinator.sent.batches == 0
        && federates.sent.batches == 0
}

// Whether both kinds of nodes are counted, of a run in which no row was made.
fn is_without_rows(stats: &Stats<'_>) -> bool {
    let (Some(coordinator), Some(federates)) = (stats.coordinator, stats.federates) else {
        return false;
    };
    stats.command == "run"
        && federates.sent.frames.ltc == 0
        && coordinator.received.frames.ltc == 0
        && coordinator.sent.frames.msg == 0
}

/// Words of a run, its status, and whether all rows are made, or none.
const RUNS: &[(&[&str], u8, bool)] = &[
    (&["run", "f", "-", "--frames", "1", "--stats", "s"], 0, true),
    (
        &[
            "run", "f", "-", "--frames", "1", "--stats", "s", "--turns", "0",
        ],
        3,
        false,
    ),
];

// Whether these are measured so.
fn is_measured<R: Machine + Net<Stream = TcpStream, Listener = TcpListener>>(
    rt: &R,
    words: &[&str],
    status: u8,
    is_whole: bool,
) -> Option<bool> {
    let (ended, stats) = measured(rt, words)?;
    let stats = stats?;
    let is_right = if is_whole {
        is_counter(&stats)
    } else {
        is_without_rows(&stats)
    };
    Some(ended == status && stats.status == status && is_right)
}

#[test]
fn a_run_is_measured(rt: HostRuntime) {
    for (words, status, is_whole) in RUNS {
        assert_eq!(rt;
            is_measured(&rt, words, *status, *is_whole),
            Some(true),
            "{status}"
        );
    }
}

// Whether nothing is measured where no node runs.
fn is_unmeasured<R: Machine + Net<Stream = TcpStream, Listener = TcpListener>>(
    rt: &R,
) -> Option<bool> {
    let (status, stats) = measured(rt, &["run", "none", "-", "--stats", "s"])?;
    Some(status == 1 && stats.is_none())
}

#[test]
fn nothing_is_measured_where_no_node_runs(rt: HostRuntime) {
    assert_eq!(rt; is_unmeasured(&rt), Some(true));
}
