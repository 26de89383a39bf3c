use crate::awaited::Awaited;
use crate::dial_fault::DialFault;
use crate::happening::Happening;
use crate::teller::{Teller, Told};
use std::alloc::{AllocError, Global};
use std::sync::atomic::{AtomicBool, AtomicU64, Ordering};
use std::sync::{Mutex, Wait};
use std::time::Clock;
use wires_transports::Ending;

/// What one process has heard, shared by its threads by reference; and to whom they tell what happens.
#[derive(Drop)]
pub struct Heard {
    count: AtomicU64,
    // Why the last attempt to connect came to nothing, if it did.
    fault: Mutex<Option<DialFault>>,
    gave_up: AtomicBool,
    // Whether a federate's own connection was closed at the other end, where it has ended.
    was_closed: AtomicBool,
    // Of each federate by its number, at the coordinator; of itself alone, at a federate that is watched.
    federates: Vec<HeardOf>,
    teller: Teller,
}

// What the coordinator has heard of a federate, or a federate of the coordinator.
#[derive(Drop)]
struct HeardOf {
    // Whether it was told that the run is finished.
    is_told: AtomicBool,
    // Which of its connections ended last, by that one's number; 0 where none did.
    ended: AtomicU64,
    // Whether it has a connection, and since when that is so, in ms since the node began.
    is_connected: AtomicBool,
    since_ms: AtomicU64,
    // How often something came of it.
    count: AtomicU64,
    // How often something had at the last look, and at which one that was new, in ms since the node began.
    seen: AtomicU64,
    heard_ms: AtomicU64,
}

impl HeardOf {
    fn new() -> HeardOf {
        HeardOf {
            is_told: AtomicBool::new(false),
            ended: AtomicU64::new(0),
            is_connected: AtomicBool::new(false),
            since_ms: AtomicU64::new(0),
            count: AtomicU64::new(0),
            seen: AtomicU64::new(0),
            heard_ms: AtomicU64::new(0),
        }
    }

    // Its silence goes on, or is over at this time.
    fn look(&self, now_ms: u64) {
        let count = self.count.load(Ordering::SeqCst);
        if self.seen.swap(count, Ordering::SeqCst) != count {
            self.heard_ms.store(now_ms, Ordering::SeqCst);
        }
    }

    // How long nothing came of it at this time, in ms, by the last look; None where nothing ever did.
    fn quiet_ms(&self, now_ms: u64) -> Option<u64> {
        let count = self.count.load(Ordering::SeqCst);
        if count == 0 {
            None
        } else if count == self.seen.load(Ordering::SeqCst) {
            Some(now_ms.saturating_sub(self.heard_ms.load(Ordering::SeqCst)))
        } else {
            // Something came behind that look.
            Some(0)
        }
    }

    // What was noted up to the first time counts as noted so many ms later.
    fn leave_out(&self, until_ms: u64, millis: u64) {
        make_later(&self.since_ms, until_ms, millis);
        make_later(&self.heard_ms, until_ms, millis);
    }
}

// Makes a time that isn't behind the first one later by so many ms. What another thread notes meanwhile stays.
fn make_later(time: &AtomicU64, until_ms: u64, millis: u64) {
    let before = time.load(Ordering::SeqCst);
    if before <= until_ms {
        let after = before.saturating_add(millis);
        let _ = time.compare_exchange(before, after, Ordering::SeqCst, Ordering::SeqCst);
    }
}

impl Heard {
    /// Nothing so far. A coordinator has this many federates, and a federate's process has none, or itself as the only
    /// one where that is watched. Nobody watches.
    pub fn new(alloc: Global, federates: usize) -> Result<Heard, AllocError> {
        Heard::watched(alloc, federates, Teller::silent())
    }

    /// The same, where this tells what happens.
    pub fn watched(alloc: Global, federates: usize, teller: Teller) -> Result<Heard, AllocError> {
        let mut all = Vec::new(alloc);
        all.resize_with(federates, || HeardOf::new())?;
        Ok(Heard {
            count: AtomicU64::new(0),
            fault: Mutex::new(None),
            gave_up: AtomicBool::new(false),
            was_closed: AtomicBool::new(false),
            federates: all,
            teller,
        })
    }

    /// Tells whoever watches that this happened. It waits for nobody.
    pub fn tell<R: Wait, C: Clock>(&self, rt: &R, clock: &C, what: Happening) {
        self.teller.tell(rt, clock, what);
    }

    /// So many ms since the node began; 0 where nobody watches.
    pub(crate) fn millis<C: Clock>(&self, clock: &C) -> u64 {
        self.teller.millis(clock)
    }

    /// Whether whoever watches wants to be told now where federates stand.
    pub(crate) fn wants_look(&self) -> bool {
        self.teller.wants_look()
    }

    /// Hands on to whoever watches what a look says. It waits for nobody.
    pub(crate) fn hand_on<R: Wait>(&self, rt: &R, told: Told) {
        self.teller.hand_on(rt, told);
    }

    /// Whether anybody watches.
    pub(crate) fn is_watched(&self) -> bool {
        self.teller.is_watched()
    }

    /// Something was heard.
    pub fn hear(&self) {
        self.count.fetch_add(1, Ordering::SeqCst);
    }

    /// Something came of this federate.
    pub fn hear_of(&self, federate: u16) {
        if let Some(of) = self.federates.get(usize::from(federate)) {
            of.count.fetch_add(1, Ordering::SeqCst);
        }
    }

    /// How often something was heard.
    pub fn count(&self) -> u64 {
        self.count.load(Ordering::SeqCst)
    }

    /// The last attempt to connect came to nothing, for this; or to a connection, by None.
    pub(crate) fn note_attempt<R: Wait>(&self, rt: &R, fault: Option<DialFault>) {
        let mut last = self.fault.lock(rt);
        *last = fault;
    }

    /// Why the last attempt to connect came to nothing; None where it didn't, or none was made.
    pub fn last_fault<R: Wait>(&self, rt: &R) -> Option<DialFault> {
        *self.fault.lock(rt)
    }

    /// The run is to end though it isn't finished. Whoever ends such a run says this first.
    pub fn give_up(&self) {
        self.gave_up.store(true, Ordering::SeqCst);
    }

    /// Whether that was said.
    pub fn has_given_up(&self) -> bool {
        self.gave_up.load(Ordering::SeqCst)
    }

    /// Whether the run is finished: it is to end, and nobody gave up.
    pub fn is_finished(&self, ending: &Ending) -> bool {
        ending.is_set() && !self.has_given_up()
    }

    /// This federate was told that the run is finished.
    pub(crate) fn note_told(&self, federate: u16) {
        if let Some(of) = self.federates.get(usize::from(federate)) {
            of.is_told.store(true, Ordering::SeqCst);
        }
    }

    /// Whether this federate was told that the run is finished.
    pub fn is_told(&self, federate: usize) -> bool {
        match self.federates.get(federate) {
            Some(of) => of.is_told.load(Ordering::SeqCst),
            None => false,
        }
    }

    /// Whether all federates were.
    pub fn are_all_told(&self) -> bool {
        self.federates
            .iter()
            .all(|of| of.is_told.load(Ordering::SeqCst))
    }

    /// Who was, and who wasn't.
    pub(crate) fn told(&self) -> Awaited {
        let mut awaited = Awaited::nobody();
        for of in self.federates.iter() {
            awaited = awaited.with(of.is_told.load(Ordering::SeqCst));
        }
        awaited
    }

    /// Nothing more comes on the connection of this number, which is this federate's.
    pub(crate) fn note_ended(&self, federate: u16, connection: u64) {
        if let Some(of) = self.federates.get(usize::from(federate)) {
            of.ended.store(connection, Ordering::SeqCst);
        }
    }

    /// Which of this federate's connections ended last, by its number; 0 where none did.
    pub(crate) fn ended(&self, federate: usize) -> u64 {
        match self.federates.get(federate) {
            Some(of) => of.ended.load(Ordering::SeqCst),
            None => 0,
        }
    }

    /// From this time on, in ms since the node began, this federate has a connection, or has none.
    pub fn note_connection(&self, federate: u16, is_connected: bool, since_ms: u64) {
        if let Some(of) = self.federates.get(usize::from(federate)) {
            // In this order: whoever sees that it has one reads no time from before that.
            of.since_ms.store(since_ms, Ordering::SeqCst);
            of.is_connected.store(is_connected, Ordering::SeqCst);
        }
    }

    /// Whether this federate has a connection.
    pub(crate) fn is_connected(&self, federate: usize) -> bool {
        match self.federates.get(federate) {
            Some(of) => of.is_connected.load(Ordering::SeqCst),
            None => false,
        }
    }

    /// Since when that is so, in ms since the node began. It is read behind that.
    pub(crate) fn since_ms(&self, federate: usize) -> u64 {
        match self.federates.get(federate) {
            Some(of) => of.since_ms.load(Ordering::SeqCst),
            None => 0,
        }
    }

    /// Who has one, and who hasn't.
    pub(crate) fn connected(&self) -> Awaited {
        let mut awaited = Awaited::nobody();
        for of in self.federates.iter() {
            awaited = awaited.with(of.is_connected.load(Ordering::SeqCst));
        }
        awaited
    }

    /// A federate's own connection has ended: it was closed at the other end, or broke.
    pub(crate) fn note_disconnected(&self, is_closed: bool) {
        self.was_closed.store(is_closed, Ordering::SeqCst);
    }

    /// Whether the last that ended was closed.
    pub(crate) fn was_closed(&self) -> bool {
        self.was_closed.load(Ordering::SeqCst)
    }

    /// How many federates there are.
    pub(crate) fn federate_count(&self) -> usize {
        self.federates.len()
    }

    /// Looks at this time, in ms since the node began, of which federates something came. Whoever looks does so each 50
    /// ms.
    pub(crate) fn look(&self, now_ms: u64) {
        for of in self.federates.iter() {
            of.look(now_ms);
        }
    }

    /// So many ms behind this time, in ms since the node began, don't count: nothing was heard in them, as the process was
    /// stopped.
    pub(crate) fn leave_out(&self, until_ms: u64, millis: u64) {
        for of in self.federates.iter() {
            of.leave_out(until_ms, millis);
        }
    }

    /// How long nothing came of this federate at this time, in ms, by the last look; None where nothing ever did.
    pub(crate) fn quiet_ms(&self, federate: usize, now_ms: u64) -> Option<u64> {
        self.federates.get(federate)?.quiet_ms(now_ms)
    }
}
