//! Where a run listens, and that one which can't listen anywhere ends.
use crate::nodes::nodes_of;
use std::alloc::Global;
use std::io;
use std::io::ErrorKind;
use std::net::{Net, SocketAddr, TcpListener, TcpStream};
use std::sync::Wait;
use std::thread::Threads;
use std::time::{Clock, Duration};
use tests_samples::{COUNTER, Machine, loaded};
use wires::{Cause, RunFault, Runtime, Terms, run_over_tcp};
use wires_transports::listen;
use wires_workers::NoGate;

/// A machine without a network.
#[derive(Drop)]
struct Offline<'a, R> {
    rt: &'a R,
}

impl<'a, R: Threads> Threads for Offline<'a, R> {}

impl<'a, R: Wait> Wait for Offline<'a, R> {}

impl<'a, R: Clock> Clock for Offline<'a, R> {
    fn monotonic(&self) -> io::Result<Duration> {
        self.rt.monotonic()
    }

    fn since_1970(&self) -> io::Result<Duration> {
        self.rt.since_1970()
    }

    fn sleep(&self, duration: Duration) {
        self.rt.sleep(duration)
    }
}

impl<'a, R> Net for Offline<'a, R> {
    type Stream = TcpStream;

    type Listener = TcpListener;

    fn bind(&self, _addr: SocketAddr) -> io::Result<TcpListener> {
        Err(io::Error::from(ErrorKind::Unsupported))
    }

    fn connect(&self, _addr: SocketAddr) -> io::Result<TcpStream> {
        Err(io::Error::from(ErrorKind::Unsupported))
    }
}

// Why a run over this machine gives no desks, and whether whoever looks on sees its end.
fn ended<R: Runtime + Net<Stream = TcpStream, Listener = TcpListener>>(
    rt: &R,
    alloc: Global,
) -> Option<(Option<RunFault>, bool)> {
    let federation = loaded(alloc, COUNTER, "")?;
    let nodes = nodes_of(alloc, &federation, false)?;
    let terms = Terms {
        turns: 100,
        frames: 2,
    };
    let results = run_over_tcp(rt, alloc, &nodes, &NoGate, terms);
    Some((results.err(), nodes.ending.is_set()))
}

// The same without a network.
fn ends_offline<R: Machine>(rt: &R) -> Option<(Option<RunFault>, bool)> {
    ended(&Offline { rt }, rt.alloc())
}

#[test]
fn ends_where_it_cannot_listen(rt: HostRuntime) {
    let fault = RunFault::NotFinished(Cause::NoListener);
    assert_eq!(rt; ends_offline(&rt), Some((Some(fault), true)));
}

// The address at which a run listens.
fn address<R: Net<Stream = TcpStream, Listener = TcpListener>>(rt: &R) -> Option<SocketAddr> {
    listen(rt).ok()?.local_addr().ok()
}

#[test]
fn listens_on_loopback_alone(rt: HostRuntime) {
    let address = address(&rt);
    assert!(rt;
        address.is_some_and(|address| address.ip().is_loopback() && address.port() != 0),
        "{address:?}"
    );
}
