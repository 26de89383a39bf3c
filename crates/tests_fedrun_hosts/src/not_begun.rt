//! Nodes that don't begin: what each says, while all files stay as they are.
use crate::nodes::{End, Host, address_of};
use crate::runs::ends_on;
use crate::shared_files::SharedFiles;
use std::net::{Net, TcpListener, TcpStream};
use wires_transports::listen;

// Whether a node ends so that is given these words, on a machine with a report and the temporary file of another, which
// was ended in the midst. It has just these two then.
fn is_not_begun<R: Host + Net<Stream = TcpStream, Listener = TcpListener>>(
    rt: &R,
    texts: &[&str],
    end: End<'_>,
) -> Option<bool> {
    let files = SharedFiles::new(rt.alloc());
    files.put(rt, "r", b"a report")?;
    files.put(rt, "left.part", b"a part")?;
    let has_ended = ends_on(rt, &files, None, texts, end);
    let are_kept = files.is(rt, "r", b"a report") && files.is(rt, "left.part", b"a part");
    Some(has_ended && are_kept && files.are_just(rt, &["r", "left.part"]))
}

/// Words, the status, and what is on standard error. A report stands in `r` already, and a part of another in
/// `left.part`.
const NOT_BEGUN: &[(&str, u8, &str)] = &[
    (
        "coordinate f i --listen 0.0.0.0:0 --report new --sync no",
        2,
        "fedrun: 114 NoSecret\n",
    ),
    (
        "coordinate f i --listen localhost:0 --report new --sync no",
        2,
        "fedrun: 114 NoSecret\n",
    ),
    (
        "coordinate f i --listen 127.0.0.1:0 --report r --sync no",
        1,
        "fedrun: 116 ReportExists r\n",
    ),
    (
        "join f i src --connect 127.0.0.1:7000 --report left --sync no",
        1,
        "fedrun: 116 ReportExists left.part\n",
    ),
    (
        "coordinate f i --listen 127.0.0.1:0 --sync no",
        2,
        "fedrun: usage\n",
    ),
    (
        "coordinate g i --listen 127.0.0.1:0 --report new --sync no",
        1,
        "fedrun: cannot read g\n",
    ),
];

// The place of the first words with which a node begins, or that are answered otherwise.
fn first_wrong<R: Host + Net<Stream = TcpStream, Listener = TcpListener>>(rt: &R) -> Option<usize> {
    NOT_BEGUN.iter().position(|(words, status, err)| {
        is_not_begun(rt, &[words], (*status, "", err)) != Some(true)
    })
}

#[test]
fn begins_nothing_where_it_is_given_something_wrong(rt: HostRuntime) {
    assert_eq!(rt; first_wrong(&rt), None);
}

// Whether a coordinator doesn't begin at an address at which another listens.
fn is_not_begun_there<R: Host + Net<Stream = TcpStream, Listener = TcpListener>>(
    rt: &R,
) -> Option<bool> {
    let listener = listen(rt).ok()?;
    let address = address_of(rt.alloc(), &listener)?;
    let texts = [
        "coordinate f i --report new --sync no --listen",
        address.as_str(),
    ];
    is_not_begun(rt, &texts, (3, "", "fedrun: 117 CannotListen\n"))
}

#[test]
fn cannot_listen_where_another_does(rt: HostRuntime) {
    assert_eq!(rt; is_not_begun_there(&rt), Some(true));
}
