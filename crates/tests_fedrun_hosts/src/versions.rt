//! Which version of frames `join` writes: that which its words say, or the one that has Batches. Its Hello tells it, and
//! the coordinator sends Batches by that.
use crate::nodes::{Host, SECRET, address_of};
use crate::runs::{Node, SRC};
use crate::shared_files::SharedFiles;
use std::io::{Read, Write};
use std::net::{Net, SocketAddr, TcpListener, TcpStream};
use std::thread;
use wires_greeting::{CoordinatorSide, Key};

// What a coordinator of two federates says to a greeting, with the digest of files that the greeting has.
fn challenge(greeting: &[u8; 74]) -> Option<[u8; 65]> {
    let mut files = [0; 32];
    files.copy_from_slice(&greeting[10..42]);
    let key = Key::of_secret(SECRET.as_bytes()).ok()?;
    CoordinatorSide::new(key, files).greeted(greeting, &[9; 32], &[true, true], false)
}

// The version in the Hello of the process that connects next, which is let in by hand. Its connection is ended then,
// and nobody listens any more.
fn version_said(listener: TcpListener) -> Option<u8> {
    let (mut stream, _) = listener.accept().ok()?;
    let mut greeting = [0; 74];
    stream.read_exact(&mut greeting).ok()?;
    stream.write_all(&challenge(&greeting)?).ok()?;
    // The proof, and then the Hello: the length of its body, its kind, and its version.
    let mut said = [0; 52];
    stream.read_exact(&mut said).ok()?;
    match &said[32..38] {
        [0, 0, 0, 16, 1, version] => Some(*version),
        _ => None,
    }
}

// The version of frames that a federate's node says which is given these further words.
fn version_of<R: Host + Net<Stream = TcpStream, Listener = TcpListener>>(
    rt: &R,
    more: &str,
) -> Option<u8> {
    let listener = TcpListener::bind(rt, SocketAddr::from(([127, 0, 0, 1], 0))).ok()?;
    let address = address_of(rt.alloc(), &listener)?;
    let files = SharedFiles::new(rt.alloc());
    let node = Node { more, ..SRC };
    let (_, version) = thread::join(
        rt,
        || node.ends(rt, &files, address.as_str()),
        || version_said(listener),
    );
    version
}

/// Further words of a federate that gives up after a second, and the version that it says.
const VERSIONS: &[(&str, u8)] = &[
    ("--sync no --secret secret --patience 1", 2),
    ("--sync no --secret secret --patience 1 --frames 2", 2),
    ("--sync no --secret secret --patience 1 --frames 1", 1),
];

// The first of these that say another version.
fn first_wrong<R: Host + Net<Stream = TcpStream, Listener = TcpListener>>(
    rt: &R,
) -> Option<&'static str> {
    for (more, version) in VERSIONS {
        if version_of(rt, more) != Some(*version) {
            return Some(*more);
        }
    }
    None
}

#[test]
fn join_writes_the_version_of_frames_that_it_is_given(rt: HostRuntime) {
    assert_eq!(rt; first_wrong(&rt), None);
}
