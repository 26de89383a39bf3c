//! How a federate's process connects to the coordinator's.
ghost use Rattle.std.specs.Prelude.{◌≡◌, ◌⊎◌, None, Some, IsOk, IfErr, IsTrue};
ghost use Rattle.wires_hosts.specs.Attempt as definition;
ghost use Rattle.wires_hosts.specs.DialFault.{by_state};

use crate::attempts::{Attempts, is_told, quick_after};
use crate::back_off::BackOff;
use crate::barrier::{Barrier, Unkept};
use crate::dial_fault::DialFault;
use crate::happening::{Disconnection, Failure, Happening};
use crate::heard::Heard;
use crate::heard_transport::HeardTransport;
use crate::host_address::HostAddress;
use crate::incoming::Incoming;
use crate::last_connection::LastConnection;
use crate::source::random_bytes;
use crate::times::ENDING_LOOK_MS;
use crate::unreached::{Missed, Unreached};
use std::alloc::Global;
use std::io::Write;
use std::net::{Net, SocketAddr, TcpListener, TcpStream};
use std::random::RandomSource;
use std::sync::{Arc, Mutex, Wait};
use std::thread;
use std::time::{Clock, Duration};
use wires_greeting::{
    CHALLENGE_SIZE, DIGEST_SIZE, FederateSide, FederateState, Greeting, Key, PROOF_SIZE,
    RANDOM_SIZE,
};
use wires_transports::tcp::connection;
use wires_transports::times::{PAUSE_MS, SILENCE_MS};
use wires_transports::{Connection, Cut, Deadline, Dial, Ending, TcpCut, TcpTransport};

/// Whom a federate's process connects, and where to.
#[derive(Clone, Copy)]
pub struct FederateHost {
    /// Where the coordinator listens.
    pub address: HostAddress,
    pub key: Key,
    /// The digest of its files, by `files_digest`.
    pub files: [u8; DIGEST_SIZE],
    /// Its number, in the federation file's order.
    pub federate: u16,
}

/// Makes a federate's connections to the coordinator's process. What an attempt came to is noted; where the coordinator
/// refused, the run is to end. Each connection is noted as the last one. Before an attempt it waits as `BackOff` says,
/// and not past the end of the run. Whoever watches is told of each connection and of its end, of attempts that come to
/// nothing, as `Attempts` counts them, and of the first attempt before it is made.
#[derive(Drop)]
pub struct HostDial<
    'a,
    M: Net<Stream = TcpStream, Listener = TcpListener> + Clock + RandomSource,
    B: Barrier,
> {
    machine: &'a M,
    host: FederateHost,
    heard: &'a Heard,
    barrier: &'a B,
    last: &'a LastConnection,
    ending: &'a Ending,
    back_off: BackOff,
    attempts: Attempts,
    // One worker dials: nobody waits for it.
    state: Mutex<DialState>,
}

// What is kept from one attempt to the next.
#[derive(Clone, Copy)]
struct DialState {
    // Whether an attempt was made.
    has_begun: bool,
    // Where the last one went, of the addresses of a host's name.
    tried: Option<SocketAddr>,
    // When it came to a connection whose end wasn't noticed so far, in ms since the node began; None where it didn't.
    connected_ms: Option<u64>,
    // How many connections in a row stood for a moment alone, and whether it was told that the last of them ended.
    quick: u64,
    is_shown: bool,
}

// What an attempt came to.
#[derive(Drop)]
struct Attempted<'a, B: Barrier> {
    connection: Connection<HeardTransport<'a, TcpTransport, B>, TcpCut>,
    // Where it leads, where its address is a host's name.
    found: Option<SocketAddr>,
}

impl<
    'a,
    M: Net<Stream = TcpStream, Listener = TcpListener> + Clock + RandomSource,
    B: Barrier,
> HostDial<'a, M, B> {
    /// Makes this one's connections, from this machine.
    pub fn new(
        machine: &'a M,
        host: FederateHost,
        heard: &'a Heard,
        barrier: &'a B,
        last: &'a LastConnection,
        ending: &'a Ending,
    ) -> HostDial<'a, M, B> {
        HostDial {
            machine,
            host,
            heard,
            barrier,
            last,
            ending,
            back_off: BackOff::new(),
            attempts: Attempts::new(),
            state: Mutex::new(DialState {
                has_begun: false,
                tried: None,
                connected_ms: None,
                quick: 0,
                is_shown: true,
            }),
        }
    }

    // Tells whoever watches that this happened.
    fn tell<R: Wait>(&self, rt: &R, what: Happening) {
        self.heard.tell(rt, self.machine, what);
    }

    // Tells that the first attempt is made, where this is it.
    fn tell_first<R: Wait>(&self, rt: &R) {
        let mut state = self.state.lock(rt);
        if !state.has_begun {
            state.has_begun = true;
            self.tell(rt, Happening::Connects(self.host.address));
        }
    }

    // Tells that the last connection has ended, where one had begun: whoever dials has read it to its end. Of many in a
    // row that stood for a moment alone it tells of ever fewer.
    fn tell_end<R: Wait>(&self, rt: &R) {
        let mut state = self.state.lock(rt);
        let Some(connected_ms) = state.connected_ms else {
            return;
        };
        let now = self.heard.millis(self.machine);
        self.heard.note_connection(0, false, now);
        let times = quick_after(now.saturating_sub(connected_ms), state.quick);
        state.connected_ms = None;
        state.quick = times;
        state.is_shown = is_told(times);
        if is_told(times) {
            let disconnection = Disconnection {
                is_closed: self.heard.was_closed(),
                times,
            };
            self.tell(
                rt,
                Happening::Disconnected(self.host.address, disconnection),
            );
        }
    }

    // Tells of a connection that leads there, unless nothing was told of the end of the one before.
    fn tell_connection<R: Wait>(&self, rt: &R, found: Option<SocketAddr>) {
        let mut state = self.state.lock(rt);
        let now = self.heard.millis(self.machine);
        self.heard.note_connection(0, true, now);
        state.connected_ms = Some(now);
        if state.is_shown {
            self.tell(rt, Happening::Connected(self.host.address, found));
        }
    }

    // An attempt goes there, of the addresses of a host's name.
    fn note_tried<R: Wait>(&self, rt: &R, tried: Option<SocketAddr>) {
        let mut state = self.state.lock(rt);
        state.tried = tried;
    }

    // Where the last attempt went.
    fn tried<R: Wait>(&self, rt: &R) -> Option<SocketAddr> {
        self.state.lock(rt).tried
    }

    // Tells of an attempt that came to nothing, unless it was broken off since the run is to end.
    fn tell_failure<R: Wait>(&self, rt: &R, fault: DialFault) {
        let times = self.attempts.fail(rt, fault);
        if fault == DialFault::Finished {
            self.tell(rt, Happening::Finished);
        } else if !self.ending.is_set() && is_told(times) {
            let failure = Failure {
                address: self.host.address,
                tried: self.tried(rt),
                fault,
                times,
            };
            self.tell(rt, Happening::Failed(failure));
        }
    }

    // A connection on which frames begin, and where it leads where its address is a host's name, or why there is none;
    // what the coordinator answered is with this side.
    fn attempt<R: Wait>(
        &self,
        rt: &R,
        alloc: Global,
        side: &mut FederateSide,
    ) -> Result<Attempted<'a, B>, DialFault>
        ensures proved { IsOk result → by_state side.new.state ≡ None }
        ensures failed { IfErr result (λ fault. definition.FailedBy side.old side.new fault) }
        ensures heard { definition.Heard side.old side.new }
    {
        let mut stream = match connected(self.machine, &self.host.address) {
            Ok(stream) => stream,
            Err(missed) => {
                self.note_tried(rt, missed.tried);
                return Err(DialFault::NotConnected(missed.why));
            }
        };
        let found = self.host.address.found(&stream);
        self.note_tried(rt, found);
        greet(
            rt,
            self.machine,
            &mut stream,
            side,
            self.barrier,
            self.ending,
        )?;
        match begun(alloc, stream) {
            Some(connection) => Ok(Attempted {
                connection: HeardTransport::around(connection, self.heard, self.barrier),
                found,
            }),
            None => Err(DialFault::NotConnected(Unreached::Other)),
        }
    }

    // The same connection, noted as the last one. One that can't be noted is ended, since nobody else would end it.
    fn noted<R: Wait>(
        &self,
        rt: &R,
        connection: Connection<HeardTransport<'a, TcpTransport, B>, TcpCut>,
    ) -> Option<Connection<HeardTransport<'a, TcpTransport, B>, TcpCut>> {
        match Arc::try_clone(&connection.cut) {
            Ok(cut) => {
                self.last.set(rt, cut);
                Some(connection)
            }
            Err(_) => {
                connection.cut.cut(rt);
                None
            }
        }
    }
}

impl<
    'a,
    M: Net<Stream = TcpStream, Listener = TcpListener> + Clock + RandomSource,
    B: Barrier,
> Dial<HeardTransport<'a, TcpTransport, B>, TcpCut> for HostDial<'a, M, B> {
    fn dial<R: Wait>(
        &self,
        rt: &R,
        alloc: Global,
    ) -> Option<Connection<HeardTransport<'a, TcpTransport, B>, TcpCut>> {
        self.tell_end(rt);
        self.tell_first(rt);
        let pause = self.back_off.begin(self.heard.count());
        if !has_paused(self.machine, pause, self.ending) {
            return None;
        }
        self.note_tried(rt, None);
        let random = random_bytes(|room| self.machine.fill_bytes(room));
        let attempt = match side_by(&self.host, random) {
            Ok(mut side) => self.attempt(rt, alloc, &mut side),
            Err(fault) => Err(fault),
        };
        match attempt {
            Ok(Attempted { connection, found }) => {
                self.heard.note_attempt(rt, None);
                self.attempts.succeed(rt);
                self.tell_connection(rt, found);
                self.noted(rt, connection)
            }
            Err(fault) => {
                self.heard.note_attempt(rt, Some(fault));
                self.tell_failure(rt, fault);
                if fault.is_final() {
                    self.ending.set();
                }
                None
            }
        }
    }
}

// Waits for this many ms; false where the run is to end before.
fn has_paused<M: Clock>(clock: &M, pause: u64, ending: &Ending) -> bool {
    for _ in 0..pause / ENDING_LOOK_MS {
        if ending.is_set() {
            return false;
        }
        thread::sleep(clock, Duration::from_millis(ENDING_LOOK_MS));
    }
    !ending.is_set()
}

// The side of a federate's process that greets with these random bytes, if there are some.
fn side_by(
    host: &FederateHost,
    random: Option<[u8; RANDOM_SIZE]>,
) -> Result<FederateSide, DialFault>
    ensures { result ≡ definition.side_by host.now random }
{
    let Some(random) = random else {
        return Err(DialFault::NoRandom);
    };
    let greeting = Greeting {
        federate: host.federate,
        files: host.files,
        random,
    };
    Ok(FederateSide::new(host.key, greeting))
}

// A new connection to an address, which doesn't wait.
fn connected<M: Net<Stream = TcpStream>>(
    net: &M,
    address: &HostAddress,
) -> Result<TcpStream, Missed> {
    let stream = address.connect(net)?;
    if stream.set_nonblocking(true).is_err() {
        let tried = address.found(&stream);
        return Err(Missed {
            why: Unreached::Other,
            tried,
        });
    }
    Ok(stream)
}

// Greets as a federate does; why no frames begin.
fn greet<R: Wait, M: Clock, B: Barrier>(
    rt: &R,
    clock: &M,
    stream: &mut TcpStream,
    side: &mut FederateSide,
    barrier: &B,
    ending: &Ending,
) -> Result<(), DialFault>
    ensures proved { IsOk result → by_state side.new.state ≡ None }
    ensures failed { IfErr result (λ fault. definition.FailedBy side.old side.new fault) }
    ensures heard { definition.Heard side.old side.new }
{
    if exchange(rt, clock, stream, side, barrier, ending).is_none() {
        return Err(DialFault::NoAnswer);
    }
    match DialFault::by_state(&side.state()) {
        Some(fault) => Err(fault),
        None => Ok(()),
    }
}

// Sends and reads the messages of the greeting. None where the connection ended before, or the time for it is over, or
// the run is to end.
fn exchange<R: Wait, M: Clock, B: Barrier>(
    rt: &R,
    clock: &M,
    stream: &mut TcpStream,
    side: &mut FederateSide,
    barrier: &B,
    ending: &Ending,
) -> Option<()>
    ensures lost { result ≡ None → (side.new ≡ side.old) ⊎ (by_state side.new.state ≡ None) }
    ensures heard { definition.Heard side.old side.new }
{
    stream.write_all(&side.message()).ok()?;
    let challenge = answer(rt, clock, stream, ending)?;
    if let Some(proof) = side.challenged(&challenge) {
        let kept = keep_what_was_heard(rt, barrier, &side.state());
        let is_sent = send_proof(stream, kept, &proof);
        // That the run is finished stands, whether or not the coordinator hears that it came.
        if !is_sent && matches!(side.state(), FederateState::Proved(_)) {
            return None;
        }
    }
    Some(())
}

// Who proves that it heard that the run is finished counts as told, and then the coordinator may end. So it is kept
// before: begun again, such a federate asks nobody any more.
fn keep_what_was_heard<R: Wait, B: Barrier>(
    rt: &R,
    barrier: &B,
    state: &FederateState,
) -> Result<(), Unkept>
    ensures other { (by_state state.now ≡ Some DialFault.Finished) ⊎ (IsOk result) }
{
    match DialFault::by_state(state) {
        Some(DialFault::Finished) => barrier.tell(rt),
        _ => Ok(()),
    }
}

// Sends a federate's proof where what it heard is kept; whether it was sent.
fn send_proof(stream: &mut TcpStream, kept: Result<(), Unkept>, proof: &[u8; PROOF_SIZE]) -> bool
    ensures refused { IfErr kept (λ _. stream.new ≡ stream.old) }
    ensures sent { IsTrue result → IsOk kept }
{
    kept.is_ok() && stream.write_all(proof).is_ok()
}

// The coordinator's challenge.
fn answer<R: Wait, M: Clock>(
    rt: &R,
    clock: &M,
    stream: &mut TcpStream,
    ending: &Ending,
) -> Option<[u8; CHALLENGE_SIZE]> {
    let silence = Deadline::after(clock, SILENCE_MS);
    let mut incoming = Incoming::new();
    for _ in rt.forever() {
        if incoming.read(stream, CHALLENGE_SIZE)? {
            break;
        }
        if ending.is_set() || silence.has_passed(clock) {
            return None;
        }
        thread::sleep(clock, Duration::from_millis(PAUSE_MS));
    }
    Some(incoming.challenge())
}

// A stream on which frames begin, as a connection for its two workers, who wait. None where the system refuses that.
fn begun(alloc: Global, stream: TcpStream) -> Option<Connection<TcpTransport, TcpCut>> {
    stream.set_nonblocking(false).ok()?;
    connection(alloc, stream).ok()
}
