//! A run that can't listen anywhere.
use std::alloc::Global;
use std::io;
use std::io::ErrorKind;
use std::net::{Net, SocketAddr, TcpListener, TcpStream};
use std::sync::Wait;
use std::thread::Threads;
use std::time::{Clock, Duration};
use tests_outcomes::{outcome_of, shown};
use tests_samples::{COUNTER, Machine};

/// A machine without a network.
#[derive(Drop)]
struct Offline<'a, R> {
    rt: &'a R,
}

impl<'a, R: Alloc<A = Global>> Alloc for Offline<'a, R> {
    type A = Global;

    fn alloc(&self) -> Global {
        self.rt.alloc()
    }
}

impl<'a, R: Threads> Threads for Offline<'a, R> {}

impl<'a, R: Wait> Wait for Offline<'a, R> {}

impl<'a, R: Clock> Clock for Offline<'a, R> {
    fn monotonic(&self) -> io::Result<Duration> {
        self.rt.monotonic()
    }

    fn since_1970(&self) -> io::Result<Duration> {
        self.rt.since_1970()
    }

    fn sleep(&self, duration: Duration) {
        self.rt.sleep(duration)
    }
}

impl<'a, R> Net for Offline<'a, R> {
    type Stream = TcpStream;

    type Listener = TcpListener;

    fn bind(&self, _addr: SocketAddr) -> io::Result<TcpListener> {
        Err(io::Error::from(ErrorKind::Unsupported))
    }

    fn connect(&self, _addr: SocketAddr) -> io::Result<TcpStream> {
        Err(io::Error::from(ErrorKind::Unsupported))
    }
}

// Whether a run that can't listen prints that it isn't finished, and nothing else.
fn is_unfinished<R: Machine>(rt: &R) -> bool {
    let files = [("f", COUNTER.as_bytes())];
    let outcome = outcome_of(&Offline { rt }, &["run", "f", "-"], &files);
    shown(&outcome) == Some((3, "", "fedrun: not finished\n"))
}

#[test]
fn is_not_finished_where_nothing_can_listen(rt: HostRuntime) {
    assert!(rt; is_unfinished(&rt));
}
