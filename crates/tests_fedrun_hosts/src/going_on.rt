//! Nodes that keep logs: that they go on by the same words, and what they do where they are finished.
use crate::nodes::{ANY, Host, NOBODY, NOT_FINISHED, address_of};
use crate::runs::{ALL, COORDINATOR, END, Node, SNK, SRC, are_proved, end_alone, run};
use crate::shared_files::SharedFiles;
use std::net::{Net, TcpListener, TcpStream};
use std::sync::Wait;
use tests_samples::COUNTER;
use tests_samples::worked_rows::COUNTER_ROWS;
use wires_transports::listen;

/// The bytes of a log's head.
const HEAD: usize = 84;

/// The names of all logs, and those before their ends.
const LOGS: &[(&str, &str)] = &[("c", "c.part"), ("src", "src.part"), ("snk", "snk.part")];

/// All nodes of the counter, whose disk isn't waited for.
const ALL_BY_SYSTEM: &[Node<'static>] = &[
    Node {
        more: "--sync system",
        ..COORDINATOR
    },
    Node {
        more: "--sync system",
        ..SRC
    },
    Node {
        more: "--sync system",
        ..SNK
    },
];

// Whether the logs of the counter's nodes are there alone, and an audit proves its rows.
fn is_proved<R: Host + Net<Stream = TcpStream, Listener = TcpListener>>(
    rt: &R,
    files: &SharedFiles,
) -> Option<bool> {
    are_proved(rt, files, COUNTER, COUNTER_ROWS)
}

// Whether nodes with logs leave logs that have their ends, by which an audit proves the rows, and say at once that the
// run is finished where they are begun again: by the whole log, and by one that was killed right before its end.
fn end_with_logs<R: Host + Net<Stream = TcpStream, Listener = TcpListener>>(
    rt: &R,
    nodes: &[Node<'_>],
) -> Option<bool> {
    let files = SharedFiles::new(rt.alloc());
    let are_right = run(rt, &files, ANY, nodes)? && is_proved(rt, &files)?;
    let are_finished = end_alone(rt, &files, nodes);
    for (name, part) in LOGS {
        let log = files.front(rt, name, END)?;
        files.remove(rt, name);
        files.put(rt, part, log.as_slice())?;
    }
    let are_ended = end_alone(rt, &files, nodes) && is_proved(rt, &files)?;
    Some(are_right && are_finished && are_ended)
}

#[test]
fn nodes_with_logs_give_the_rows_and_are_finished_when_begun_again(rt: HostRuntime) {
    let right = [end_with_logs(&rt, ALL), end_with_logs(&rt, ALL_BY_SYSTEM)];
    assert_eq!(rt; right, [Some(true); 2]);
}

/// Nodes that give up after a second, or after three turns.
const STOPPED: &[Node<'static>] = &[
    Node {
        more: "--patience 1",
        end: NOT_FINISHED,
        ..COORDINATOR
    },
    Node {
        more: "--patience 1 --turns 3",
        end: NOT_FINISHED,
        ..SRC
    },
    Node {
        more: "--patience 1",
        end: NOT_FINISHED,
        ..SNK
    },
];

// Whether nodes that gave up, since `src` made three turns alone, go on by the same words, and end as others do.
fn go_on<R: Host + Net<Stream = TcpStream, Listener = TcpListener>>(
    rt: &R,
    files: &SharedFiles,
) -> Option<bool> {
    let mut are_kept = run(rt, files, ANY, STOPPED)?;
    for (_, part) in LOGS {
        are_kept = are_kept && files.file(rt, part)?.len() > HEAD;
    }
    Some(are_kept && run(rt, files, ANY, ALL)? && is_proved(rt, files)?)
}

#[test]
fn nodes_that_gave_up_go_on_from_their_logs(rt: HostRuntime) {
    let files = SharedFiles::new(rt.alloc());
    assert_eq!(rt; go_on(&rt, &files), Some(true));
}

/// `src` where nobody says to it that the run is finished.
const UNHEARD: Node<'static> = Node {
    more: "--patience 1",
    end: NOT_FINISHED,
    ..SRC
};

/// A finished coordinator that says so first, and `src`, which hears it of that one.
const TOLD_LATER: &[Node<'static>] = &[
    Node {
        more: "--patience 3",
        end: (0, "", ""),
        ..COORDINATOR
    },
    Node {
        more: "--patience 1",
        ..SRC
    },
];

// Puts the log of `src` back as it was right before it said that the run is finished.
fn put_back_untold<R: Wait>(rt: &R, files: &SharedFiles) -> Option<()> {
    let log = files.file(rt, "src")?;
    files.remove(rt, "src");
    files.put(rt, "src.part", log.get(..before_told(&log)?)?)
}

// How many bytes of a log stand before the block that says that the run is finished, and nothing else. A block is how
// many bytes it says, a check of that, these bytes, and a sum: 4, 4, as many, 8.
fn before_told(log: &[u8]) -> Option<usize> {
    let mut place = HEAD;
    for _ in 0..log.len() {
        let block = log.get(place..)?;
        let mut count = [0; 4];
        count.copy_from_slice(block.get(..4)?);
        let count = u32::from_be_bytes(count) as usize;
        if count == 1 && block.get(8) == Some(&6) {
            return Some(place);
        }
        place = place.checked_add(count)?.checked_add(16)?;
    }
    None
}

// An address at which nobody listens, as long as no other process is given it.
fn free_address<R: Host + Net<Stream = TcpStream, Listener = TcpListener>>(
    rt: &R,
) -> Option<String> {
    let listener = listen(rt).ok()?;
    address_of(rt.alloc(), &listener)
}

// Whether `src`, which was killed before it heard that the run is finished, hears it of a coordinator that is begun
// again, and of nobody else.
fn hears_later<R: Host + Net<Stream = TcpStream, Listener = TcpListener>>(
    rt: &R,
    files: &SharedFiles,
) -> Option<bool> {
    let is_finished = run(rt, files, ANY, ALL)?;
    put_back_untold(rt, files)?;
    let is_unheard = UNHEARD.ends(rt, files, NOBODY);
    files.kill_all(rt);
    let address = free_address(rt)?;
    let is_told = run(rt, files, address.as_str(), TOLD_LATER)?;
    Some(is_finished && is_unheard && is_told && is_proved(rt, files)?)
}

#[test]
fn a_finished_coordinator_that_is_begun_again_tells_a_federate_that_was_down(rt: HostRuntime) {
    let files = SharedFiles::new(rt.alloc());
    assert_eq!(rt; hears_later(&rt, &files), Some(true));
}

// Whether a finished coordinator ends at once where another one listens at its address, and says what it has to.
fn ends_at_once<R: Host + Net<Stream = TcpStream, Listener = TcpListener>>(
    rt: &R,
    files: &SharedFiles,
) -> Option<bool> {
    let is_finished = run(rt, files, ANY, ALL)?;
    let listener = listen(rt).ok()?;
    let address = address_of(rt.alloc(), &listener)?;
    // It would tell for longer than any test may take.
    let again = Node {
        more: "--patience 86400",
        ..COORDINATOR
    };
    Some(is_finished && again.ends(rt, files, address.as_str()))
}

#[test]
fn a_finished_coordinator_ends_where_another_listens(rt: HostRuntime) {
    let files = SharedFiles::new(rt.alloc());
    assert_eq!(rt; ends_at_once(&rt, &files), Some(true));
}
