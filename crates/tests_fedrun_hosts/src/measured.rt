//! What is measured of a federate whose run isn't finished, and the file in which that is saved. Of a coordinator it is
//! looked at in `watched`.
use crate::nodes::{Host, NOBODY, SECRET, watched};
use crate::shared_files::{Operation, Process, SharedFiles};
use fedrun_stats::{NodeMeasures, begin_stats, end_stats};
use files_stats::{Phases, Stats};
use std::net::{Net, TcpListener, TcpStream};
use std::sync::Wait;
use tests_samples::Machine;
use wires_hosts::Teller;
use wires_traffic::Counts;

// What is measured of a federate that nobody answers, and that gives up after a second.
fn measured_alone<R: Host + Net<Stream = TcpStream, Listener = TcpListener>>(
    rt: &R,
) -> Option<Stats<'static>> {
    let alloc = rt.alloc();
    let files = SharedFiles::new(alloc);
    let (measures, moments) = NodeMeasures::new(rt, alloc).ok()?;
    let teller = Teller::silent().measured(rt, moments);
    let mut disk = Process::new(rt, &files, None);
    let mut logs = Process::new(rt, &files, None);
    let mut out = Vec::new(alloc);
    let words = ["join --report r --patience 1 --connect", NOBODY, "f i src"];
    let (status, _) = watched(rt, &words, SECRET, &mut disk, &mut logs, &mut out, teller)?;
    measures.stats(rt, status)
}

// Whether nothing went over connections, and it ran for a second, or for longer where the machine is slow.
fn is_alone(stats: &Stats<'_>) -> bool {
    stats.command == "join"
        && stats.status == 3
        && stats.coordinator.is_none()
        && stats.federates == Some(Counts::none())
        && stats.phases.running >= 900
        && stats.phases.running < 100_000
        && stats.phases.telling == 0
}

#[test]
fn a_federate_is_measured_whose_run_is_not_finished(rt: HostRuntime) {
    assert_eq!(rt;
        measured_alone(&rt).as_ref().map(|stats| is_alone(stats)),
        Some(true)
    );
}

/// What was measured of a coordinator that told nobody anything.
const EXAMPLE: Stats<'static> = Stats {
    command: "coordinate",
    status: 0,
    phases: Phases {
        loading: 1,
        running: 20,
        telling: 300,
        ending: 4,
    },
    coordinator: None,
    federates: None,
};

/// The file of that.
const TEXT: &str = "# saved by fedrun --stats
command = \"coordinate\"
status = 0

[milliseconds]
loading = 1
running = 20
telling = 300
ending = 4
";

/// The file of a command before that.
const OLD: &str = "# saved by fedrun --stats\ncommand = \"join\"\n";

/// The number that a command has drawn.
const DRAWN: u32 = 4_294_967_295;

/// Its temporary file.
const OWN: &str = "s.4294967295.part";

/// The temporary file of a command that was killed.
const KILLED: &str = "s.7.part";

/// What the machine can't do as it is saved, whether anything was measured, the status before; then the status after,
/// what the file has, if it is there, what the temporary one has, if it is there, and what is told.
type Row = (
    Option<Operation>,
    bool,
    u8,
    u8,
    Option<&'static str>,
    Option<&'static str>,
    &'static str,
);

/// Of a file that was there before, beside the temporary one of a command that was killed.
const SAVED: &[Row] = &[
    (None, true, 0, 0, Some(TEXT), None, ""),
    (None, false, 1, 1, Some(OLD), None, ""),
    (
        Some(Operation::WriteFirst),
        true,
        0,
        3,
        Some(OLD),
        None,
        "fedrun: 120 Unsaved s: cannot write\n",
    ),
    (
        Some(Operation::Rename),
        true,
        0,
        3,
        None,
        Some(TEXT),
        "fedrun: 120 Unsaved s: cannot rename\n",
    ),
];

// Whether a file is saved so.
fn is_saved<R: Machine>(rt: &R, row: &Row) -> Option<bool> {
    let (failing, is_measured, before, after, text, part, told) = row;
    let alloc = rt.alloc();
    let files = SharedFiles::new(alloc);
    files.put(rt, "s", OLD.as_bytes())?;
    files.put(rt, KILLED, b"")?;
    let mut read = Process::new(rt, &files, None);
    let mut begun = Process::new(rt, &files, None);
    begin_stats(alloc, "s", DRAWN, &mut read, &mut begun).ok()?;
    let is_begun = files.are_just(rt, &["s", KILLED]);
    let mut disk = Process::new(rt, &files, *failing);
    let mut err = Vec::new(alloc);
    let stats = if *is_measured { Some(EXAMPLE) } else { None };
    let status = end_stats(
        alloc, "s", DRAWN, stats, *before, &mut read, &mut disk, &mut err,
    );
    Some(
        is_begun
            && status == *after
            && err.as_slice() == told.as_bytes()
            && holds(rt, &files, "s", *text)
            && holds(rt, &files, OWN, *part)
            && files.is(rt, KILLED, b""),
    )
}

// Whether the file of this name has this text, or isn't there.
fn holds<R: Wait>(rt: &R, files: &SharedFiles, name: &str, text: Option<&str>) -> bool {
    match text {
        Some(text) => files.is(rt, name, text.as_bytes()),
        None => !files.has(rt, name),
    }
}

// The first row that isn't so.
fn first_wrong<R: Machine>(rt: &R) -> Option<usize> {
    SAVED.iter().position(|row| is_saved(rt, row) != Some(true))
}

#[test]
fn what_is_measured_is_saved(rt: HostRuntime) {
    assert_eq!(rt; first_wrong(&rt), None);
}
