//! Where the random bytes of a challenge come from.
use crate::entrance::{Entrance, Host, challenged, visited};
use crate::simulated::{Counting, counted};
use std::net::{Net, TcpListener, TcpStream};

// Whether each challenge has all bytes that the coordinator's source gave for it, which are new.
fn has_all_bytes<R: Host + Net<Stream = TcpStream, Listener = TcpListener>>(
    rt: &R,
    entrance: &Entrance<'_>,
) -> Option<bool> {
    let (_, first) = challenged(rt, entrance.address, 0)?;
    let (_, second) = challenged(rt, entrance.address, 0)?;
    Some(first[1..33] == counted(0)[..] && second[1..33] == counted(32)[..])
}

#[test]
fn challenges_with_all_bytes_that_its_source_gave(rt: HostRuntime) {
    assert_eq!(rt; visited(&rt, &Counting::new(), has_all_bytes), Some(true));
}
