//! Nodes that keep no logs: the rows that an audit proves of their reports.
use crate::nodes::{ANY, Host};
use crate::runs::{COORDINATOR, Node, SNK, SRC, are_proved, run};
use crate::shared_files::SharedFiles;
use std::net::{Net, TcpListener, TcpStream};
use tests_samples::worked_rows::{COUNTER_ROWS, REPLACED_ROWS};
use tests_samples::{COUNTER, REPLACED};

/// Federations with two federates: the file, further words of all nodes, the federation, and its rows.
const WORKED: &[(&str, &str, &str, &str)] = &[
    ("f", "--sync no", COUNTER, COUNTER_ROWS),
    (
        "replaced",
        "--sync no --secret least",
        REPLACED,
        REPLACED_ROWS,
    ),
];

// Whether all three nodes say that the run is finished, leave their reports alone, and an audit proves these rows.
fn give<'x, R: Host + Net<Stream = TcpStream, Listener = TcpListener>>(
    rt: &R,
    federation: &'x str,
    more: &'x str,
    text: &str,
    rows: &str,
) -> Option<bool> {
    let files = SharedFiles::new(rt.alloc());
    let nodes = [
        Node {
            federation,
            more,
            ..COORDINATOR
        },
        Node {
            federation,
            more,
            ..SRC
        },
        Node {
            federation,
            more,
            ..SNK
        },
    ];
    Some(run(rt, &files, ANY, &nodes)? && are_proved(rt, &files, text, rows)?)
}

// The place of the first that doesn't give its rows.
fn first_wrong<R: Host + Net<Stream = TcpStream, Listener = TcpListener>>(rt: &R) -> Option<usize> {
    WORKED.iter().position(|(federation, more, text, rows)| {
        give(rt, federation, more, text, rows) != Some(true)
    })
}

#[test]
fn nodes_by_themselves_give_the_rows(rt: HostRuntime) {
    assert_eq!(rt; first_wrong(&rt), None);
}
