//! How a node tells whoever watches it what happens.
use crate::happening::Happening;
use crate::millis::millis_of;
use crate::moment::{Measured, Moment};
use crate::standing::Standing;
use crate::times::WIPE_MS;
use crossbeam_channel::{Receiver, Sender, bounded};
use plan_names::Text;
use std::alloc::{AllocError, Global};
use std::sync::atomic::{AtomicBool, AtomicU64, Ordering};
use std::sync::{Arc, Wait};
use std::time::{Clock, Duration, Instant};
use tag::Time;

/// What is told and not taken so far, at most.
pub const MOST_WAITING: usize = 256;

/// What is told to whoever watches a node.
#[derive(Drop)]
pub enum Told {
    /// The names of the federates, in their order: before all else, where there is memory for them.
    Federates(Vec<Text>),
    Happened(Happened),
    /// Where a federate stands.
    Stands(Standing),
    /// A look is over.
    Looked(Looked),
    /// No look comes any more, and what is drawn of them is to be wiped: whoever waits for that has this one's other end.
    Wipe(Sender<()>),
}

/// A look that is over.
#[derive(Clone, Copy, Debug, PartialEq, Eq)]
pub struct Looked {
    /// Of so many federates it wasn't told where they stand.
    pub more: usize,
    /// The time at which the run is over; None where it isn't known.
    pub stop: Option<Time>,
}

/// Something that happened at a node.
#[derive(Clone, Copy, Debug, PartialEq, Eq)]
pub struct Happened {
    /// When, in ms since the node began.
    pub millis: u64,
    pub what: Happening,
    /// How often something had happened just before for which there was no room.
    pub left_out: u64,
}

/// Tells whoever watches a node what happens there, if anybody does. No call waits for whoever watches: where too much
/// waits to be taken, what happens is counted and left out.
#[derive(Drop)]
pub struct Teller {
    // None where nobody watches.
    to: Option<Outlet>,
    // None where nobody measures.
    measures: Option<Sender<Measured>>,
    // None where the clock couldn't be read.
    start: Option<Instant>,
    // Whether whoever watches wants to be told where federates stand.
    wants_looks: bool,
}

/// Whoever watches a node takes here what it tells. Nothing more comes once all who tell of the node are gone.
#[derive(Drop)]
pub struct Watcher {
    pub told: Receiver<Told>,
    beside: Arc<Beside>,
}

// Where what a node tells is handed in.
#[derive(Drop)]
struct Outlet {
    to: Sender<Told>,
    beside: Arc<Beside>,
}

// What all who tell of a node share with whoever watches it, beside the channel.
#[derive(Drop)]
struct Beside {
    // How often something happened for which there was no room, and of which nothing was told so far.
    left_out: AtomicU64,
    // Whether no look is to be drawn any more.
    is_over: AtomicBool,
}

impl Watcher {
    /// How often something happened for which there was no room, and which wasn't counted with anything that was told.
    /// Once the node has ended nothing tells it but this.
    pub fn left_out(&self) -> u64 {
        self.beside.left_out.load(Ordering::SeqCst)
    }

    /// Whether no look is to be drawn any more, nor left where it was drawn: the node is about to say how it ended.
    pub fn is_over(&self) -> bool {
        self.beside.is_over.load(Ordering::SeqCst)
    }
}

impl Outlet {
    // Another one of the same node; None where there is no memory for it.
    fn another(&self) -> Option<Outlet> {
        Some(Outlet {
            to: self.to.clone().ok()?,
            beside: Arc::try_clone(&self.beside).ok()?,
        })
    }
}

impl Teller {
    /// Nobody watches.
    pub fn silent() -> Teller {
        Teller::new(None, None)
    }

    /// Of a node that begins now, with whoever watches it.
    pub fn watched<C: Clock>(clock: &C, alloc: Global) -> Result<(Teller, Watcher), AllocError> {
        let (to, told) = bounded(alloc, MOST_WAITING)?;
        let beside = Beside {
            left_out: AtomicU64::new(0),
            is_over: AtomicBool::new(false),
        };
        let beside = Arc::new(alloc, beside)?;
        let outlet = Outlet {
            to,
            beside: Arc::try_clone(&beside)?,
        };
        let teller = Teller::new(Some(outlet), Instant::now(clock).ok());
        Ok((teller, Watcher { told, beside }))
    }

    fn new(to: Option<Outlet>, start: Option<Instant>) -> Teller {
        Teller {
            to,
            measures: None,
            start,
            wants_looks: false,
        }
    }

    /// The same one, which tells its moments over this channel besides, to whoever measures the node.
    pub fn measured<C: Clock>(self, clock: &C, measures: Sender<Measured>) -> Teller {
        let Teller {
            to,
            start,
            wants_looks,
            ..
        } = self;
        let start = match start {
            Some(start) => Some(start),
            None => Instant::now(clock).ok(),
        };
        Teller {
            to,
            measures: Some(measures),
            start,
            wants_looks,
        }
    }

    /// The same one, where whoever watches wants to be told where federates stand.
    pub fn with_looks(self) -> Teller {
        let Teller {
            to,
            measures,
            start,
            ..
        } = self;
        Teller {
            to,
            measures,
            start,
            wants_looks: true,
        }
    }

    /// Another one of the same node.
    pub fn another(&self) -> Teller {
        let to = match &self.to {
            Some(to) => to.another(),
            None => None,
        };
        let measures = match &self.measures {
            Some(measures) => measures.clone().ok(),
            None => None,
        };
        Teller {
            to,
            measures,
            start: self.start,
            wants_looks: self.wants_looks,
        }
    }

    /// Whether anybody watches.
    pub fn is_watched(&self) -> bool {
        self.to.is_some()
    }

    /// Whether it is to be told now where federates stand: that is wanted, and all that was told before was taken. So
    /// whoever is slow gets less, and what happens has its room.
    pub(crate) fn wants_look(&self) -> bool {
        match &self.to {
            Some(outlet) => self.wants_looks && outlet.to.is_empty(),
            None => false,
        }
    }

    /// Hands on what a look says. What has no room is left out: the next look tells it again.
    pub(crate) fn hand_on<R: Wait>(&self, rt: &R, told: Told) {
        if let Some(outlet) = &self.to {
            let _ = outlet.to.try_send(rt, told);
        }
    }

    /// Has what is drawn of looks wiped, where they are wanted, before anything else is written. It waits for that, a
    /// second at most: whoever draws may be stopped. Even then no look is drawn that is taken behind this.
    pub fn wipe<R: Wait + Clock>(&self, rt: &R, alloc: Global) {
        if !self.wants_looks {
            return;
        }
        let Some(outlet) = &self.to else {
            return;
        };
        outlet.beside.is_over.store(true, Ordering::SeqCst);
        let Ok((wiped, until)) = bounded(alloc, 1) else {
            return;
        };
        let Some(deadline) = later(rt, WIPE_MS) else {
            return;
        };
        if outlet
            .to
            .send_deadline(rt, Told::Wipe(wiped), deadline)
            .is_ok()
        {
            let _ = until.recv_deadline(rt, deadline);
        }
    }

    /// Tells the names of the federates. It is asked before anything happens: then there is room.
    pub fn name<R: Wait>(&self, rt: &R, federates: Vec<Text>) {
        if let Some(outlet) = &self.to {
            let _ = outlet.to.try_send(rt, Told::Federates(federates));
        }
    }

    /// Tells that this happened now.
    pub fn tell<R: Wait, C: Clock>(&self, rt: &R, clock: &C, what: Happening) {
        if let Some(outlet) = &self.to {
            let left_out = outlet.beside.left_out.swap(0, Ordering::SeqCst);
            let happened = Happened {
                millis: self.millis(clock),
                what,
                left_out,
            };
            if outlet.to.try_send(rt, Told::Happened(happened)).is_err() {
                // Those before it are counted again, and so is it.
                outlet
                    .beside
                    .left_out
                    .fetch_add(left_out.saturating_add(1), Ordering::SeqCst);
            }
        }
    }

    /// Tells whoever measures the node that it is at this moment. There is room, unless there are more than these few.
    pub fn measure<R: Wait, C: Clock>(&self, rt: &R, clock: &C, moment: Moment) {
        if let Some(measures) = &self.measures {
            let measured = Measured {
                millis: self.millis(clock),
                moment,
            };
            let _ = measures.try_send(rt, measured);
        }
    }

    /// So many ms since the node began; 0 where nobody watches or measures.
    pub(crate) fn millis<C: Clock>(&self, clock: &C) -> u64 {
        match self.start {
            Some(start) => start.elapsed(clock).map_or(0, |elapsed| millis_of(elapsed)),
            None => 0,
        }
    }
}

// The time in so many ms. None where the clock can't be read.
fn later<C: Clock>(clock: &C, millis: u64) -> Option<Instant> {
    Instant::now(clock)
        .ok()?
        .checked_add(Duration::from_millis(millis))
}
