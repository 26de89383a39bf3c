//! The worker that lets federates' processes in, for the coordinator's.
use crate::attempts::{Refusals, Refused, is_told, may_be_two, quick_after};
use crate::attendance::{Attendance, LetInFrom};
use crate::barrier::Barrier;
use crate::draw::drawn;
use crate::happening::{Happening, Loss, Replaced};
use crate::heard::Heard;
use crate::heard_transport::HeardTransport;
use crate::millis::millis_of;
use crate::pending_host::{HostState, PendingHost, Terms};
use crate::times::LONGEST_PATIENCE_MS;
use crossbeam_channel::Sender;
use std::alloc::{AllocError, Global};
use std::io::ErrorKind;
use std::net::TcpListener;
use std::random::RandomSource;
use std::sync::Wait;
use std::thread;
use std::time::{Clock, Duration};
use wires_greeting::{DIGEST_SIZE, Key};
use wires_transports::acceptor::pause;
use wires_transports::times::{CALM_AFTER_MS, PAUSE_MS};
use wires_transports::{
    Accepted, Acceptor, CurrentConnections, Deadline, Ending, TcpCut, TcpTransport,
};

// Connections that are taken from the listener in a row, at most.
const AT_ONCE: usize = 64;

/// Connections that aren't let in so far, at most. Of more some are given up, drawn at random: however many strangers
/// connect, each connection of a federate has its chance to be let in.
pub const PENDING_MOST: usize = 128;

/// The federates' connections, and their readers.
type HostConnections<'a, B> = CurrentConnections<HeardTransport<'a, TcpTransport, B>, TcpCut>;

/// To a federate's reader.
pub type HostReader<'a, B> = Sender<Accepted<HeardTransport<'a, TcpTransport, B>, TcpCut>>;

/// Where federates' processes connect, and by what they are let in.
#[derive(Drop)]
pub struct HostEntrance {
    /// See `listen_at`.
    pub listener: TcpListener,
    pub key: Key,
    /// The digest of the coordinator's files, by `files_digest`.
    pub files: [u8; DIGEST_SIZE],
    /// How long whoever asks is told that the run is finished.
    pub patience: Duration,
}

/// Lets federates' processes in that have the secret and the same files. Each one's connection goes to its reader, with
/// its Hello, and the older one, if there is one, is ended. What fails the greeting is closed without an event, and
/// what is silent keeps nobody else waiting. Once the run is to end, readers get no more connections, and what they
/// haven't read to the end a second later is ended. Where the run is finished, and the barrier keeps all that made it so,
/// whoever asks then is told, until all federates were, each of which proved it by the secret, or the patience is over.
/// Whoever watches is told who is awaited, who is let in and who isn't, whose connection has ended, and at the end who
/// was told and who wasn't.
#[derive(Drop)]
pub struct HostAcceptor<'a, S: RandomSource, B: Barrier> {
    random: &'a S,
    entrance: HostEntrance,
    heard: &'a Heard,
    barrier: &'a B,
    connected: Connected<'a, B>,
    // All federates may take part.
    allowed: Vec<bool>,
}

// The federates' connections.
#[derive(Drop)]
struct Connected<'a, B: Barrier> {
    current: HostConnections<'a, B>,
    attendance: Attendance,
    refusals: Refusals,
}

impl<'a, S: RandomSource, B: Barrier> HostAcceptor<'a, S, B> {
    /// Whoever is let in goes to these readers, of each federate by its number. Random bytes come from this machine.
    pub fn new(
        alloc: Global,
        random: &'a S,
        entrance: HostEntrance,
        heard: &'a Heard,
        barrier: &'a B,
        readers: Vec<HostReader<'a, B>>,
    ) -> Result<HostAcceptor<'a, S, B>, AllocError> {
        let mut allowed = Vec::new(alloc);
        allowed.resize_with(readers.len(), || true)?;
        let attendance = Attendance::new(alloc, readers.len())?;
        let current = CurrentConnections::new(alloc, readers)?;
        Ok(HostAcceptor {
            random,
            entrance,
            heard,
            barrier,
            connected: Connected {
                current,
                attendance,
                refusals: Refusals::new(),
            },
            allowed,
        })
    }
}

impl<'a, S: RandomSource, B: Barrier> Acceptor for HostAcceptor<'a, S, B> {
    fn let_in<R: Wait + Clock>(self, rt: &R, alloc: Global, ending: &Ending) {
        let HostAcceptor {
            random,
            entrance,
            heard,
            barrier,
            mut connected,
            allowed,
        } = self;
        let hearing = Hearing { heard, barrier };
        let terms = Terms {
            random,
            allowed: &allowed,
            is_finished: false,
        };
        let pending = let_in_until(
            rt,
            alloc,
            &entrance,
            &terms,
            &hearing,
            &mut connected,
            ending,
        );
        connected.current.end(rt);
        // What made the run finished may have caused nothing that left.
        if heard.is_finished(ending) && barrier.reach(rt).is_ok() {
            let terms = Terms {
                random,
                allowed: &allowed,
                is_finished: true,
            };
            tell_all(
                rt,
                alloc,
                &entrance,
                &terms,
                &hearing,
                pending,
                &mut connected,
            );
        }
    }
}

// What a connection is passed that is let in.
#[derive(Drop)]
struct Hearing<'a, B: Barrier> {
    heard: &'a Heard,
    barrier: &'a B,
}

// Lets connections in until the run is to end; those that aren't let in so far.
fn let_in_until<'a, R: Wait + Clock, S: RandomSource, B: Barrier>(
    rt: &R,
    alloc: Global,
    entrance: &HostEntrance,
    terms: &Terms<'_, S>,
    hearing: &Hearing<'a, B>,
    connected: &mut Connected<'a, B>,
    ending: &Ending,
) -> Vec<PendingHost> {
    let mut pending = Vec::new(alloc);
    let mut calm = Deadline::after(rt, CALM_AFTER_MS);
    if !ending.is_set() {
        tell_awaited(rt, hearing.heard);
    }
    for _ in rt.forever() {
        if ending.is_set() {
            break;
        }
        let has_come = accept_some(rt, entrance, terms.random, &mut pending);
        if has_come || !pending.is_empty() || !connected.current.are_all_there() {
            calm = Deadline::after(rt, CALM_AFTER_MS);
        }
        if !has_come {
            thread::sleep(rt, Duration::from_millis(pause(calm.has_passed(rt))));
        }
        pending = listen_to(rt, alloc, terms, hearing, pending, connected);
        tell_lost(rt, hearing.heard, &mut connected.attendance, ending);
    }
    pending
}

// Tells whoever watches which of the federates' connections have ended. Those that end since the run is to end aren't
// lost: that is seen behind their end, so that none of them is taken for one that is.
fn tell_lost<R: Wait + Clock>(rt: &R, heard: &Heard, attendance: &mut Attendance, ending: &Ending) {
    for federate in 0..attendance.federate_count() {
        if let Some(gone) = attendance.leave(federate, heard.ended(federate)) {
            let now = heard.millis(rt);
            heard.note_connection(gone.federate, false, now);
            if !ending.is_set() {
                let loss = Loss {
                    federate: gone.federate,
                    address: gone.address,
                    quiet_ms: heard.quiet_ms(federate, now).unwrap_or(0),
                    connected: heard.connected(),
                };
                heard.tell(rt, rt, Happening::Lost(loss));
            }
        }
    }
}

// Tells whoever watches how many federates are connected, and who is awaited.
fn tell_awaited<R: Wait + Clock>(rt: &R, heard: &Heard) {
    heard.tell(rt, rt, Happening::Awaits(heard.connected()));
}

// Tells whoever asks that the run is finished, where no reader gets a connection any more, until all federates were
// told or the patience is over.
fn tell_all<'a, R: Wait + Clock, S: RandomSource, B: Barrier>(
    rt: &R,
    alloc: Global,
    entrance: &HostEntrance,
    terms: &Terms<'_, S>,
    hearing: &Hearing<'a, B>,
    pending: Vec<PendingHost>,
    connected: &mut Connected<'a, B>,
) {
    let mut pending = pending;
    let patience_ms = millis_of(entrance.patience).min(LONGEST_PATIENCE_MS);
    let patience = Deadline::after(rt, patience_ms);
    if patience_ms > 0 {
        let told = hearing.heard.told();
        hearing
            .heard
            .tell(rt, rt, Happening::Tells(patience_ms, told));
    }
    for _ in rt.forever() {
        if hearing.heard.are_all_told() || patience.has_passed(rt) {
            break;
        }
        if !accept_some(rt, entrance, terms.random, &mut pending) {
            thread::sleep(rt, Duration::from_millis(PAUSE_MS));
        }
        pending = listen_to(rt, alloc, terms, hearing, pending, connected);
    }
    if patience_ms > 0 {
        tell_untold(rt, hearing.heard);
    }
}

// Tells whoever watches which federates weren't told that the run is finished.
fn tell_untold<R: Wait + Clock>(rt: &R, heard: &Heard) {
    for federate in 0..heard.federate_count() {
        if heard.is_told(federate) {
            continue;
        }
        if let Ok(federate) = u16::try_from(federate) {
            heard.tell(rt, rt, Happening::Untold(federate));
        }
    }
}

// Takes connections that came to those that are pending, and gives some of them up where these are too many; whether
// one came. One for which there is no memory is closed. Where one can't be taken, as where no more files may be open,
// one that is pending is given up for the next.
fn accept_some<R: Clock, S: RandomSource>(
    rt: &R,
    entrance: &HostEntrance,
    random: &S,
    pending: &mut Vec<PendingHost>,
) -> bool {
    let mut has_come = false;
    for _ in 0..AT_ONCE {
        let (stream, address) = match entrance.listener.accept() {
            Ok(come) => come,
            Err(error) => {
                if error.kind() != ErrorKind::WouldBlock && !pending.is_empty() {
                    give_up_one(random, pending);
                }
                break;
            }
        };
        has_come = true;
        if let Ok(host) = PendingHost::new(rt, stream, address, entrance.key, entrance.files) {
            let _ = pending.push(host);
        }
        if pending.len() > PENDING_MOST {
            give_up_one(random, pending);
        }
    }
    has_come
}

// Gives up one of those that are pending, drawn at random; the oldest where there are no random bytes.
fn give_up_one<S: RandomSource>(random: &S, pending: &mut Vec<PendingHost>) {
    let mut bytes = [0; 8];
    if random.fill_bytes(&mut bytes).is_err() {
        bytes = [0; 8];
    }
    if let Some(place) = drawn(bytes, pending.len()) {
        pending.remove(place);
    }
}

// Listens to all that are pending; those that are pending still. What is not let in is closed, and so is what there is
// no memory to keep.
fn listen_to<'a, R: Wait + Clock, S: RandomSource, B: Barrier>(
    rt: &R,
    alloc: Global,
    terms: &Terms<'_, S>,
    hearing: &Hearing<'a, B>,
    pending: Vec<PendingHost>,
    connected: &mut Connected<'a, B>,
) -> Vec<PendingHost> {
    let mut left = Vec::new(alloc);
    for mut host in pending {
        match host.listen(rt, alloc, terms) {
            HostState::NotYet => {
                let _ = left.push(host);
            }
            HostState::Hello(federate) => admit(rt, alloc, hearing, host, federate, connected),
            HostState::Told(federate) => {
                hearing.heard.note_told(federate);
                hearing.heard.tell(rt, rt, Happening::Told(federate));
            }
            HostState::Closed => tell_closed(rt, hearing.heard, &host, &mut connected.refusals),
        }
    }
    left
}

// Tells of a connection that is closed why whoever made it isn't let in; of many in a row from one machine that are
// alike, ever fewer.
fn tell_closed<R: Wait + Clock>(
    rt: &R,
    heard: &Heard,
    host: &PendingHost,
    refusals: &mut Refusals,
) {
    if let Some(why) = host.not_let_in() {
        let from = host.address.ip();
        let count = refusals.refuse(Refused { from, why });
        if is_told(count) {
            heard.tell(rt, rt, Happening::Closed(host.address, why, count));
        }
    }
}

// Lets a connection in, which is this federate's. The older one, if there is one, is ended.
fn admit<'a, R: Wait + Clock, B: Barrier>(
    rt: &R,
    alloc: Global,
    hearing: &Hearing<'a, B>,
    host: PendingHost,
    federate: u16,
    connected: &mut Connected<'a, B>,
) {
    let heard = hearing.heard;
    let address = host.address;
    let older = connected.attendance.present(federate);
    let now = heard.millis(rt);
    let quiet_ms = heard.quiet_ms(usize::from(federate), now).unwrap_or(0);
    let from = LetInFrom {
        federate,
        connection: connected.attendance.next_number(),
        address,
        since_ms: now,
        replaced: replaced_by(now, older),
    };
    if let Some(accepted) = host.into_accepted(alloc, heard, hearing.barrier, from) {
        heard.hear();
        heard.hear_of(federate);
        connected.refusals.let_in(address.ip());
        connected.attendance.come(from);
        heard.note_connection(federate, true, from.since_ms);
        tell_let_in(rt, heard, from, older, quiet_ms);
        connected
            .current
            .hand_on(rt, usize::from(federate), accepted);
    }
}

// How many connections of a federate in a row have taken another one's place and stood for a moment alone, where one
// takes the place of this one at this time; 0 where it takes nobody's.
fn replaced_by(millis: u64, older: Option<LetInFrom>) -> u64 {
    match older {
        Some(older) => quick_after(millis.saturating_sub(older.since_ms), older.replaced),
        None => 0,
    }
}

// Tells whoever watches that a federate was let in, and who is awaited then, or that this connection took the place of
// an older one, and how many ms before it was heard last; of many in a row that did, ever fewer.
fn tell_let_in<R: Wait + Clock>(
    rt: &R,
    heard: &Heard,
    from: LetInFrom,
    older: Option<LetInFrom>,
    quiet_ms: u64,
) {
    match older {
        Some(older) if is_told(from.replaced) => {
            let is_same_machine = from.address.ip() == older.address.ip();
            let replaced = Replaced {
                federate: from.federate,
                now: from.address,
                before: older.address,
                quiet_ms,
                times: from.replaced,
                may_be_two: may_be_two(is_same_machine, from.replaced),
            };
            heard.tell(rt, rt, Happening::Replaced(replaced));
        }
        Some(_) => {}
        None => {
            heard.tell(rt, rt, Happening::LetIn(from.federate, from.address));
            tell_awaited(rt, heard);
        }
    }
}
