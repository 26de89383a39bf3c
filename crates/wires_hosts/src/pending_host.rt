//! A connection that came to the coordinator, and isn't let in so far.
ghost use Rattle.std.specs.Prelude.{◌≡◌, ℕ, Some, IfSome, IsTrue, take};
ghost use Rattle.wires_greeting.specs.Coordinator.{let_in, told};
ghost use Rattle.wires_hosts.specs.Hello.{BeginsWithHello};
ghost use Rattle.wires_hosts.specs.NotLetIn.{by_state};
ghost use Rattle.wires_hosts.specs.Source.{challenge_by};

use crate::attendance::LetInFrom;
use crate::barrier::Barrier;
use crate::happening::NotLetIn;
use crate::heard::Heard;
use crate::heard_transport::HeardTransport;
use crate::hello::is_hello_of;
use crate::incoming::{HELLO_SIZE, Incoming};
use crate::next::Next;
use crate::source::random_bytes;
use signal::FrameReader;
use std::alloc::Global;
use std::io;
use std::io::Write;
use std::net::{SocketAddr, TcpStream};
use std::random::RandomSource;
use std::time::Clock;
use wires_greeting::{
    CHALLENGE_SIZE, CoordinatorSide, DIGEST_SIZE, GREETING_SIZE, Key, PROOF_SIZE, RANDOM_SIZE,
};
use wires_transports::tcp::connection;
use wires_transports::times::SILENCE_MS;
use wires_transports::{Accepted, Deadline, TcpCut, TcpTransport};

/// What came of a connection so far.
#[derive(Clone, Copy, Debug, PartialEq, Eq)]
pub(crate) enum HostState {
    /// It isn't clear yet.
    NotYet,
    /// It was let in, and its first frame is the Hello of its federate.
    Hello(u16),
    /// This federate was told that the run is finished, and proved that it heard so.
    Told(u16),
    /// It isn't let in: the connection is to be closed.
    Closed,
}

/// Who is let in, and what is answered to the others.
#[derive(Drop)]
pub(crate) struct Terms<'a, S: RandomSource> {
    pub random: &'a S,
    /// Which federates may take part, by number.
    pub allowed: &'a [bool],
    /// Whether the run is finished.
    pub is_finished: bool,
}

/// A connection that came to the coordinator, and isn't let in so far. None of its calls waits.
#[derive(Drop)]
pub(crate) struct PendingHost {
    stream: TcpStream,
    /// From where it came.
    pub address: SocketAddr,
    side: CoordinatorSide,
    next: Next,
    // Of what is to come next.
    incoming: Incoming,
    silence: Deadline,
}

impl PendingHost {
    /// Nothing came of it so far.
    pub(crate) fn new<R: Clock>(
        rt: &R,
        stream: TcpStream,
        address: SocketAddr,
        key: Key,
        files: [u8; DIGEST_SIZE],
    ) -> io::Result<PendingHost> {
        stream.set_nonblocking(true)?;
        Ok(PendingHost {
            stream,
            address,
            side: CoordinatorSide::new(key, files),
            next: Next::Greeting,
            incoming: Incoming::new(),
            silence: Deadline::after(rt, SILENCE_MS),
        })
    }

    /// Takes what has come, and answers it.
    pub(crate) fn listen<R: Clock, S: RandomSource>(
        &mut self,
        rt: &R,
        alloc: Global,
        terms: &Terms<'_, S>,
    ) -> HostState
        ensures let_in { (federate : ℕ) → result ≡ HostState.Hello federate
            → let_in self.new.side.state ≡ Some federate }
        ensures hello { (federate : ℕ) → result ≡ HostState.Hello federate
            → BeginsWithHello federate (take 20 self.new.incoming.bytes) }
        ensures told { (federate : ℕ) → result ≡ HostState.Told federate → told self.new.side.state ≡ Some federate }
    {
        match self.take(alloc, terms) {
            None => HostState::Closed,
            Some(HostState::NotYet) if self.silence.has_passed(rt) => HostState::Closed,
            Some(state) => state,
        }
    }

    /// Why whoever made it isn't let in, where it is to be closed. None where its federate was told that the run is
    /// finished.
    pub(crate) fn not_let_in(&self) -> Option<NotLetIn>
        ensures { result ≡ by_state self.now.side.state }
    {
        NotLetIn::by_state(&self.side.state())
    }

    /// The connection, with its Hello, as this federate's connection. It is asked once that has come.
    pub(crate) fn into_accepted<'a, B: Barrier>(
        self,
        alloc: Global,
        heard: &'a Heard,
        barrier: &'a B,
        from: LetInFrom,
    ) -> Option<Accepted<HeardTransport<'a, TcpTransport, B>, TcpCut>>
        ensures { IfSome result (λ accepted. accepted.first.items ≡ take 20 self.incoming.bytes) }
    {
        let PendingHost {
            stream,
            incoming,
            ..
        } = self;
        let mut first = Vec::new(alloc);
        first.extend_from_slice(incoming.hello()).ok()?;
        stream.set_nonblocking(false).ok()?;
        let connection = connection(alloc, stream).ok()?;
        Some(Accepted {
            connection: HeardTransport::around_let_in(connection, heard, barrier, Some(from)),
            first,
        })
    }

    // Takes what has come of what is next. None where the connection is to be closed.
    fn take<S: RandomSource>(&mut self, alloc: Global, terms: &Terms<'_, S>) -> Option<HostState>
        ensures let_in { (federate : ℕ) → result ≡ Some (HostState.Hello federate)
            → let_in self.new.side.state ≡ Some federate }
        ensures hello { (federate : ℕ) → result ≡ Some (HostState.Hello federate)
            → BeginsWithHello federate (take 20 self.new.incoming.bytes) }
        ensures told { (federate : ℕ) → result ≡ Some (HostState.Told federate)
            → told self.new.side.state ≡ Some federate }
    {
        match self.next {
            Next::Greeting => {
                self.take_greeting(terms)?;
                Some(HostState::NotYet)
            }
            Next::Proof => self.take_proof(),
            Next::Hello => self.take_hello(alloc),
        }
    }

    // Once the greeting is whole, the challenge is sent.
    fn take_greeting<S: RandomSource>(&mut self, terms: &Terms<'_, S>) -> Option<()> {
        if self.incoming.read(&mut self.stream, GREETING_SIZE)? {
            let random = random_bytes(|room| terms.random.fill_bytes(room));
            let challenge = self.challenge(random, terms.allowed, terms.is_finished)?;
            self.stream.write_all(&challenge).ok()?;
            self.next = Next::by_state(&self.side.state())?;
            self.incoming = Incoming::new();
        }
        Some(())
    }

    // The challenge to the greeting that came, with these random bytes; none without them.
    fn challenge(
        &mut self,
        random: Option<[u8; RANDOM_SIZE]>,
        allowed: &[bool],
        is_finished: bool,
    ) -> Option<[u8; CHALLENGE_SIZE]>
        ensures sent { result ≡ challenge_by self.old.side self.old.incoming.bytes random allowed.now is_finished }
    {
        let random = random?;
        let message = self.incoming.greeting();
        self.side.greeted(message, &random, allowed, is_finished)
    }

    // Once the proof is whole, the federate is let in or was told that the run is finished, or neither.
    fn take_proof(&mut self) -> Option<HostState>
        ensures let_in { (federate : ℕ) → result ≡ Some (HostState.Hello federate)
            → let_in self.new.side.state ≡ Some federate }
        ensures hello { (federate : ℕ) → result ≡ Some (HostState.Hello federate)
            → BeginsWithHello federate (take 20 self.new.incoming.bytes) }
        ensures told { (federate : ℕ) → result ≡ Some (HostState.Told federate)
            → told self.new.side.state ≡ Some federate }
    {
        if !self.incoming.read(&mut self.stream, PROOF_SIZE)? {
            return Some(HostState::NotYet);
        }
        self.side.proved(&self.incoming.proof());
        if let Some(federate) = self.side.told() {
            return Some(HostState::Told(federate));
        }
        self.next = Next::by_state(&self.side.state())?;
        self.incoming = Incoming::new();
        Some(HostState::NotYet)
    }

    // The first frame is a Hello of the federate that was let in, or nothing more is read.
    fn take_hello(&mut self, alloc: Global) -> Option<HostState>
        ensures let_in { (federate : ℕ) → result ≡ Some (HostState.Hello federate)
            → let_in self.new.side.state ≡ Some federate }
        ensures hello { (federate : ℕ) → result ≡ Some (HostState.Hello federate)
            → BeginsWithHello federate (take 20 self.new.incoming.bytes) }
        ensures told { (federate : ℕ) → result ≡ Some (HostState.Told federate)
            → told self.new.side.state ≡ Some federate }
    {
        let federate = self.side.let_in()?;
        if !self.incoming.read(&mut self.stream, HELLO_SIZE)? {
            return Some(HostState::NotYet);
        }
        if begins_with_hello(alloc, self.incoming.hello(), federate) {
            Some(HostState::Hello(federate))
        } else {
            None
        }
    }
}

// Whether these bytes are a frame, or begin with one, that is a Hello of this federate.
#[tactic(auto, using(crate::proofs::Beginning::begins_by))]
fn begins_with_hello(alloc: Global, bytes: &[u8], federate: u16) -> bool
    ensures { IsTrue result → BeginsWithHello federate bytes.now }
{
    let mut frames = FrameReader::new(alloc);
    if frames.feed(bytes).is_err() {
        return false;
    }
    match frames.next() {
        Ok(Some(frame)) => is_hello_of(federate, &frame),
        _ => false,
    }
}
