//! A process of a run between machines, the coordinator's or a federate's, and what a test has it do.
use crate::entrance::{Host, LONG_MS, Machine, Own, host_to, listener_of, waiting_listener_of};
use crossbeam_channel::Receiver;
use std::alloc::Global;
use std::net::{Net, TcpListener, TcpStream};
use std::sync::Wait;
use std::sync::atomic::{AtomicBool, AtomicU64, Ordering};
use std::time::{Clock, Duration};
use std::{io, thread};
use wires_hosts::{
    Barrier, DialFault, Failure, FederateHost, Happened, Happening, Heard, HostDial,
    LastConnection, Patience, Teller, Told, Unkept, Watcher,
};
use wires_transports::{Dial, Ending};

/// A barrier that counts who comes, and refuses all from some moment on.
#[derive(Drop)]
pub struct CountingBarrier {
    reached: AtomicU64,
    told: AtomicU64,
    refuses: AtomicBool,
}

impl CountingBarrier {
    /// It lets all by so far.
    pub fn new() -> CountingBarrier {
        CountingBarrier {
            reached: AtomicU64::new(0),
            told: AtomicU64::new(0),
            refuses: AtomicBool::new(false),
        }
    }

    /// From now on it refuses.
    pub fn refuse(&self) {
        self.refuses.store(true, Ordering::SeqCst);
    }

    /// How many came to be let by, and how many to tell.
    pub fn counts(&self) -> (u64, u64) {
        (
            self.reached.load(Ordering::SeqCst),
            self.told.load(Ordering::SeqCst),
        )
    }

    fn answer(&self) -> Result<(), Unkept> {
        if self.refuses.load(Ordering::SeqCst) {
            Err(Unkept)
        } else {
            Ok(())
        }
    }
}

impl Barrier for CountingBarrier {
    fn reach<R: Wait>(&self, _rt: &R) -> Result<(), Unkept> {
        self.reached.fetch_add(1, Ordering::SeqCst);
        self.answer()
    }

    fn tell<R: Wait>(&self, _rt: &R) -> Result<(), Unkept> {
        self.told.fetch_add(1, Ordering::SeqCst);
        self.answer()
    }

    fn has_failed(&self) -> bool {
        self.refuses.load(Ordering::SeqCst)
    }
}

/// A clock that stands still.
#[derive(Drop)]
struct Still;

impl Clock for Still {
    fn monotonic(&self) -> io::Result<Duration> {
        Ok(Duration::from_secs(0))
    }

    fn since_1970(&self) -> io::Result<Duration> {
        Ok(Duration::from_secs(0))
    }
}

/// How much is told at most beside what happens.
const MOST_ASIDE: usize = 100;

// Whether this says only who is awaited, or what is about to be done.
fn is_aside(what: Happening) -> bool {
    matches!(
        what,
        Happening::Awaits(_) | Happening::Tells(_, _) | Happening::Connects(_)
    )
}

/// What happens next, as it is told, once it is.
pub fn next_told<R: Host>(rt: &R, told: &Receiver<Told>) -> Option<Happened> {
    for _ in 0..MOST_ASIDE {
        let next = told.recv_timeout(rt, Duration::from_millis(LONG_MS)).ok()?;
        let came = happened(&next)?;
        if !is_aside(came.what) {
            return Some(came);
        }
    }
    None
}

/// What happens next, as it is told, if it is by now.
pub fn told_by_now<R: Host>(rt: &R, told: &Receiver<Told>) -> Option<Happening> {
    for _ in 0..MOST_ASIDE {
        let next = told.try_recv(rt).ok()?;
        let came = happened(&next)?;
        if !is_aside(came.what) {
            return Some(came.what);
        }
    }
    None
}

// What happened, by what is told that is no names and no look.
fn happened(told: &Told) -> Option<Happened> {
    match told {
        Told::Happened(happened) => Some(*happened),
        Told::Federates(_) | Told::Stands(_) | Told::Looked(_) | Told::Wipe(_) => None,
    }
}

/// Whether it is told next that this happened, once something that happens is.
pub fn is_told<R: Host>(rt: &R, told: &Receiver<Told>, what: Happening) -> bool {
    match next_told(rt, told) {
        Some(happened) => happened.what == what,
        None => false,
    }
}

/// What a process has heard, what stands between it and all that leaves it, and whether its run is to end.
#[derive(Drop)]
pub struct Process {
    pub heard: Heard,
    /// What whoever watches it is told.
    pub told: Receiver<Told>,
    pub barrier: CountingBarrier,
    pub last: LastConnection,
    pub ending: Ending,
}

impl Process {
    /// A federate's, which has heard nothing.
    pub fn new(alloc: Global) -> Option<Process> {
        Process::of(alloc, 0)
    }

    /// The coordinator's of this many federates.
    pub fn of(alloc: Global, federates: usize) -> Option<Process> {
        let (teller, Watcher { told, .. }) = Teller::watched(&Still, alloc).ok()?;
        Some(Process {
            heard: Heard::watched(alloc, federates, teller).ok()?,
            told,
            barrier: CountingBarrier::new(),
            last: LastConnection::new(),
            ending: Ending::new(),
        })
    }

    /// Its connection, where the first attempt comes to one.
    pub fn dial<'a, R: Host + Net<Stream = TcpStream, Listener = TcpListener>>(
        &'a self,
        rt: &'a R,
        alloc: Global,
        host: FederateHost,
    ) -> Option<Own<'a>> {
        HostDial::new(
            rt,
            host,
            &self.heard,
            &self.barrier,
            &self.last,
            &self.ending,
        )
        .dial(rt, alloc)
    }

    /// Whether an attempt comes to nothing.
    pub fn is_in_vain<R: Host + Net<Stream = TcpStream, Listener = TcpListener>>(
        &self,
        rt: &R,
        alloc: Global,
        host: FederateHost,
    ) -> bool {
        self.dial(rt, alloc, host).is_none()
    }

    /// Whether the first attempt came to nothing for this, of which it is told, and whether the run is to end by it.
    pub fn is_refused<R: Host + Net<Stream = TcpStream, Listener = TcpListener>>(
        &self,
        rt: &R,
        alloc: Global,
        host: FederateHost,
        fault: DialFault,
        ends: bool,
    ) -> bool {
        let told = told_of(&host, fault, ends);
        self.is_in_vain(rt, alloc, host)
            && self.heard.last_fault(rt) == Some(fault)
            && self.ending.is_set() == ends
            && told_by_now(rt, &self.told) == told
    }

    /// What watches its run, and its last connection, with this patience.
    pub fn patience(&self, most: Option<Duration>) -> Patience<'_, CountingBarrier> {
        Patience {
            heard: &self.heard,
            barrier: &self.barrier,
            ending: &self.ending,
            most,
            last: Some(&self.last),
        }
    }
}

/// That so many attempts came to nothing for this, which went to an address.
pub fn failed(host: &FederateHost, fault: DialFault, times: u64) -> Happening {
    Happening::Failed(Failure {
        address: host.address,
        tried: None,
        fault,
        times,
    })
}

// What is told where the first attempt comes to nothing for this: nothing where it is broken off, since the run is to
// end.
fn told_of(host: &FederateHost, fault: DialFault, ends: bool) -> Option<Happening> {
    match fault {
        DialFault::Finished => Some(Happening::Finished),
        DialFault::NoAnswer if ends => None,
        _ => Some(failed(host, fault, 1)),
    }
}

/// Somebody who listens in the coordinator's place, and a federate's process that is to connect there.
#[derive(Drop)]
pub struct Meeting {
    pub alloc: Global,
    pub listener: TcpListener,
    pub host: FederateHost,
    pub process: Process,
}

impl Meeting {
    fn at(listener: TcpListener, alloc: Global) -> Option<Meeting> {
        Some(Meeting {
            alloc,
            host: host_to(&listener)?,
            process: Process::new(alloc)?,
            listener,
        })
    }
}

/// What is seen where somebody listens who doesn't wait, and such a process is there.
pub fn met<
    S,
    R: Machine + Net<Stream = TcpStream, Listener = TcpListener>,
    L: FnOnce(&R, &Meeting) -> Option<S>,
>(rt: &R, look: L) -> Option<S>
    requires { L.IsAlwaysCallable look }
{
    let meeting = Meeting::at(listener_of(rt)?, rt.alloc())?;
    look(rt, &meeting)
}

/// Whether both see what they should: who listens, and a federate's process that connects there meanwhile.
pub fn meet<
    R: Machine + Net<Stream = TcpStream, Listener = TcpListener>,
    L: FnOnce(&TcpListener) -> Option<bool> + Send,
    C: FnOnce(&Process, FederateHost) -> bool + Send,
>(rt: &R, listens: L, connects: C) -> Option<bool>
    requires listens { (listens : _) (listener : _) → L.pre listens listener }
    requires connects { (connects : _) (process : _) (host : _) → C.pre connects process host }
{
    let meeting = Meeting::at(waiting_listener_of(rt)?, rt.alloc())?;
    Some(are_both(rt, &meeting, listens, connects))
}

// The same of this meeting.
fn are_both<
    R: Machine,
    L: FnOnce(&TcpListener) -> Option<bool> + Send,
    C: FnOnce(&Process, FederateHost) -> bool + Send,
>(rt: &R, meeting: &Meeting, listens: L, connects: C) -> bool
    requires listens { (listens : _) (listener : _) → L.pre listens listener }
    requires connects { (connects : _) (process : _) (host : _) → C.pre connects process host }
{
    let (seen, is_right) = thread::join(
        rt,
        || listens(&meeting.listener),
        || connects(&meeting.process, meeting.host),
    );
    seen == Some(true) && is_right
}
