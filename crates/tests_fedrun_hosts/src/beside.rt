//! The file beside a report's name: who has it, and what becomes of it where the report is there.
use crate::nodes::{ANY, Host, NOBODY, NOT_FINISHED};
use crate::runs::{ALL, COORDINATOR, Node, SRC, run};
use crate::shared_files::SharedFiles;
use crate::spoken::{Until, heard};
use crossbeam_channel::{Receiver, unbounded};
use std::net::{Net, TcpListener, TcpStream};
use std::sync::Wait;
use std::thread;

/// A coordinator that keeps no log, and gives up after a second.
const NO_LOG: Node<'static> = Node {
    more: "--sync no --patience 1",
    end: NOT_FINISHED,
    ..COORDINATOR
};

/// The same where nobody connects.
const ALONE: Node<'static> = Node {
    more: "--sync no --patience 0",
    ..NO_LOG
};

/// A node with a log whose report has the same name, where another process has or had that.
const REFUSED: Node<'static> = Node {
    role: "join --report c --connect",
    more: "--patience 1",
    end: (1, "", "fedrun: 116 ReportExists c.part\n"),
    ..SRC
};

// Puts onto another machine what a coordinator that runs has of its report: it was killed there.
fn kill<R: Wait>(rt: &R, files: &SharedFiles, killed: &SharedFiles) -> Option<()> {
    let part = files.file(rt, "c.part")?;
    killed.put(rt, "c.part", part.as_slice())
}

// Whether a node with a log is refused while a coordinator runs without one that says this, and where that one was
// killed in the midst.
fn are_refused<R: Host + Net<Stream = TcpStream, Listener = TcpListener>>(
    rt: &R,
    files: &SharedFiles,
    killed: &SharedFiles,
    from: &Receiver<Vec<u8>>,
) -> Option<bool> {
    heard(rt, rt.alloc(), from, Until::Line)?;
    kill(rt, files, killed)?;
    let are_refused = REFUSED.ends(rt, files, NOBODY) && REFUSED.ends(rt, killed, NOBODY);
    Some(are_refused && heard(rt, rt.alloc(), from, Until::End)?.is_empty())
}

// Whether both are, and the coordinator's report is that of one that had its folder for itself.
fn is_kept<R: Host + Net<Stream = TcpStream, Listener = TcpListener>>(
    rt: &R,
    files: &SharedFiles,
    killed: &SharedFiles,
) -> Option<bool> {
    let (to, from) = unbounded(rt.alloc()).ok()?;
    let (is_right, are_refused) = thread::join(
        rt,
        || NO_LOG.speaks(rt, files, ANY, to),
        || are_refused(rt, files, killed, &from),
    );
    Some(is_right && are_refused?)
}

// Whether the report of a coordinator is that of another one, which had its folder for itself.
fn is_undisturbed<R: Host + Net<Stream = TcpStream, Listener = TcpListener>>(
    rt: &R,
    files: &SharedFiles,
    own: &SharedFiles,
) -> Option<bool> {
    let is_right = ALONE.ends_saying(rt, own, ANY, &mut Vec::new(rt.alloc()));
    let report = own.file(rt, "c")?;
    Some(is_right && files.is(rt, "c", report.as_slice()))
}

#[test]
fn no_log_begins_where_a_node_without_one_runs_or_was_killed(rt: HostRuntime) {
    let files = SharedFiles::new(rt.alloc());
    let killed = SharedFiles::new(rt.alloc());
    let own = SharedFiles::new(rt.alloc());
    let kept = [
        is_kept(&rt, &files, &killed),
        is_undisturbed(&rt, &files, &own),
    ];
    assert_eq!(rt; kept, [Some(true); 2]);
}

/// What stands beside the log of `src` that has its end: a file, without so many of its last bytes; and whether it stays.
const BESIDE: &[(&str, usize, bool)] = &[
    // No byte, and the same log.
    ("nothing", 0, false),
    ("src", 0, false),
    // The same log without its last byte, that of another node, and no log.
    ("src", 1, true),
    ("snk", 0, true),
    ("notes", 0, true),
];

// Whether `src` says that the run is finished which has its log, and the file beside it is as it was, if it stays, or
// gone.
fn stays<R: Host + Net<Stream = TcpStream, Listener = TcpListener>>(
    rt: &R,
    files: &SharedFiles,
    name: &str,
    fewer: usize,
    stays: bool,
) -> Option<bool> {
    let bytes = files.front(rt, name, fewer)?;
    files.put(rt, "src.part", bytes.as_slice())?;
    let is_finished = SRC.ends(rt, files, NOBODY);
    files.kill_all(rt);
    let is_as_it_should = if stays {
        files.is(rt, "src.part", bytes.as_slice())
    } else {
        !files.has(rt, "src.part")
    };
    Some(is_finished && is_as_it_should)
}

// The place of the first of which it is otherwise; none where there is none, and the nodes' run was finished.
fn first_wrong<R: Host + Net<Stream = TcpStream, Listener = TcpListener>>(
    rt: &R,
    files: &SharedFiles,
) -> Option<Option<usize>> {
    let is_finished = run(rt, files, ANY, ALL)?;
    files.put(rt, "nothing", b"")?;
    files.put(rt, "notes", b"notes")?;
    for (place, (name, fewer, is_left)) in BESIDE.iter().enumerate() {
        if !is_finished || stays(rt, files, name, *fewer, *is_left) != Some(true) {
            return Some(Some(place));
        }
    }
    Some(None)
}

#[test]
fn a_finished_node_removes_no_file_that_may_be_of_use(rt: HostRuntime) {
    let files = SharedFiles::new(rt.alloc());
    assert_eq!(rt; first_wrong(&rt, &files), Some(None));
}
