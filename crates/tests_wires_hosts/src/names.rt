//! Coordinators that are found by the names of their hosts.
use crate::entrance::listener_of;
use std::io;
use std::io::ErrorKind;
use std::net::{Net, SocketAddr, TcpListener, TcpStream};
use std::sync::atomic::{AtomicUsize, Ordering};
use std::time::Duration;
use wires_hosts::{HostAddress, Missed, Unreached, listen_at};

/// A network in which one host alone has a name, and two addresses. It counts how often a name is looked up.
#[derive(Drop)]
struct Names<'a, R> {
    rt: &'a R,
    lookups: AtomicUsize,
}

impl<'a, R: Net<Stream = TcpStream, Listener = TcpListener>> Net for Names<'a, R> {
    type Stream = TcpStream;

    type Listener = TcpListener;

    fn bind(&self, addr: SocketAddr) -> io::Result<TcpListener> {
        self.rt.bind(addr)
    }

    fn connect(&self, addr: SocketAddr) -> io::Result<TcpStream> {
        self.rt.connect(addr)
    }

    fn connect_timeout(&self, addr: SocketAddr, timeout: Duration) -> io::Result<TcpStream> {
        self.rt.connect_timeout(addr, timeout)
    }

    fn lookup_host(&self, host: &str, port: u16, found: &mut [SocketAddr]) -> io::Result<usize> {
        self.lookups.fetch_add(1, Ordering::SeqCst);
        if host != "coordinator" {
            return Err(io::Error::from(ErrorKind::NotFound));
        }
        for (place, last) in found.iter_mut().zip([2, 1]) {
            *place = SocketAddr::from(([127, 0, 0, last], port));
        }
        Ok(found.len().min(2))
    }
}

/// What a host that is looked for twice by its name, by another name, by its address, and by its name once nobody
/// listens there, isn't found for.
const FOUND: [Option<Unreached>; 5] = [
    None,
    None,
    Some(Unreached::NoAddress),
    None,
    Some(Unreached::Refused),
];

// Why each isn't found, whether the address that was tried last is said of the last one, and how often a name was looked
// up. A name is found at the second of its addresses.
fn found<R: Net<Stream = TcpStream, Listener = TcpListener>>(
    rt: &R,
) -> Option<([Option<Unreached>; 5], bool, usize)> {
    let net = Names {
        rt,
        lookups: AtomicUsize::new(0),
    };
    let listener = listener_of(&net)?;
    let at = listener.local_addr().ok()?;
    let there = HostAddress::named("coordinator", at.port())?;
    let elsewhere = HostAddress::named("other", at.port())?;
    let found = [
        there.connect(&net).err(),
        there.connect(&net).err(),
        elsewhere.connect(&net).err(),
        HostAddress::At(at).connect(&net).err(),
    ];
    drop(listener);
    let last = there.connect(&net).err();
    let is_last_tried = last.and_then(|missed| missed.tried) == Some(at);
    let whys = [found[0], found[1], found[2], found[3], last].map(|missed| why_of(missed));
    Some((whys, is_last_tried, net.lookups.load(Ordering::SeqCst)))
}

fn why_of(missed: Option<Missed>) -> Option<Unreached> {
    missed.map(|missed| missed.why)
}

#[test]
fn a_name_is_looked_up_for_each_attempt(rt: HostRuntime) {
    assert_eq!(rt; found(&rt), Some((FOUND, true, 4)));
}

// Where one listens by a host's name.
fn listens_at<R: Net<Stream = TcpStream, Listener = TcpListener>>(rt: &R) -> Option<SocketAddr> {
    let net = Names {
        rt,
        lookups: AtomicUsize::new(0),
    };
    let listener = listen_at(&net, HostAddress::named("coordinator", 0)?).ok()?;
    let at = listener.local_addr().ok()?;
    Some(SocketAddr::from((at.ip(), 0)))
}

#[test]
fn one_listens_at_the_first_address_of_a_name(rt: HostRuntime) {
    assert_eq!(rt;
        listens_at(&rt),
        Some(SocketAddr::from(([127, 0, 0, 2], 0)))
    );
}
