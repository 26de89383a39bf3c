//! The barrier of a node in threads that is dropped at one of its sends.
use crate::noted::Sends;
use crate::stop::Stop;
use desk::Shared;
use fedrun_logs::{LogBarrier, LogFile};
use files_keeping::MemoryDevice;
use node::Node;
use node_journal::Journal;
use std::alloc::Global;
use std::sync::atomic::{AtomicU64, AtomicUsize, Ordering};
use std::sync::{Arc, Wait};
use wires_hosts::{Barrier, Unkept};
use wires_transports::Ending;

/// When a node is dropped.
#[derive(Clone, Copy)]
pub(crate) struct Fuse {
    /// So many of its sends go, and at the next one it is dropped.
    pub going: u64,
    /// What caused that one is kept before.
    pub is_kept: bool,
}

/// Never.
pub(crate) const ENDLESS: Fuse = Fuse {
    going: u64::MAX,
    is_kept: true,
};

/// What stays of a node.
#[derive(Drop)]
pub(crate) struct LogLeft {
    /// The bytes on its disk.
    pub bytes: Vec<u8>,
    /// Of so many events the disk has to have the first ones: they had come before something left it.
    pub left: usize,
    pub is_dropped: bool,
}

impl LogLeft {
    /// Of one that never began.
    pub(crate) fn new(alloc: Global) -> LogLeft {
        LogLeft {
            bytes: Vec::new(alloc),
            left: 0,
            is_dropped: false,
        }
    }
}

/// A log's barrier. Once the node is dropped it lets nothing by that asks then, and nothing is kept.
#[derive(Drop)]
pub(crate) struct FusedBarrier<'a, N: Node> {
    alloc: Global,
    shared: &'a Shared<N>,
    inner: LogBarrier<'a, N, MemoryDevice>,
    fuse: Fuse,
    // Of the node that is dropped.
    ending: &'a Ending,
    // How many sends were begun.
    begun: AtomicU64,
    // Which of them left.
    sends: &'a Arc<Sends>,
    // How many events had come before a send that went, at most.
    left: AtomicUsize,
}

impl<'a, N: Node> FusedBarrier<'a, N> {
    /// Of a desk, whose first events are in this file.
    pub(crate) fn new(
        alloc: Global,
        shared: &'a Shared<N>,
        file: LogFile<MemoryDevice>,
        fuse: Fuse,
        sends: &'a Arc<Sends>,
        ending: &'a Ending,
    ) -> FusedBarrier<'a, N> {
        FusedBarrier {
            alloc,
            shared,
            inner: LogBarrier::new(alloc, shared, file),
            fuse,
            ending,
            begun: AtomicU64::new(0),
            sends,
            left: AtomicUsize::new(0),
        }
    }

    /// Whether the node is dropped.
    pub(crate) fn has_blown(&self) -> bool {
        self.begun.load(Ordering::SeqCst) > self.fuse.going
    }

    /// What stays of the node, which doesn't run any more: its log as it is where it was dropped, and else with its
    /// end, where its run is over. Whether that is so.
    pub(crate) fn leave(self, is_over: bool, kept: &mut LogLeft) -> Result<bool, Stop> {
        let has_blown = self.has_blown();
        if !has_blown && !is_over {
            return Err(Stop::Hangs);
        }
        if !self.sends.are_those_let_by() {
            return Err(Stop::LeftUnasked);
        }
        kept.left = self.left.load(Ordering::SeqCst);
        let FusedBarrier { alloc, inner, .. } = self;
        let Ok(file) = inner.into_file() else {
            return Err(Stop::Fell);
        };
        if file.events() < kept.left {
            return Err(Stop::LeftUnkept);
        }
        match bytes(alloc, file, !has_blown) {
            Some(bytes) => kept.bytes = bytes,
            None => return Err(Stop::Memory),
        }
        kept.is_dropped = kept.is_dropped || has_blown;
        Ok(!has_blown)
    }

    // How many events came so far; where there is no memory to look, more than any log has.
    fn came<R: Wait>(&self, rt: &R) -> usize {
        let mut journal = Journal::new(self.alloc);
        match self.shared.copy_events(rt, 0, usize::MAX, &mut journal) {
            Ok(()) => journal.len(),
            Err(_) => usize::MAX,
        }
    }
}

// All bytes of a log, which gets its end, if so.
fn bytes(alloc: Global, file: LogFile<MemoryDevice>, ends: bool) -> Option<Vec<u8>> {
    let mut file = file;
    if ends {
        file.end(alloc).ok()
    } else {
        file.bytes(alloc).ok()
    }
}

impl<'a, N: Node> Barrier for FusedBarrier<'a, N> {
    fn reach<R: Wait>(&self, rt: &R) -> Result<(), Unkept> {
        let before = self.begun.fetch_add(1, Ordering::SeqCst);
        let came = self.came(rt);
        if before < self.fuse.going {
            self.inner.reach(rt)?;
            self.left.fetch_max(came, Ordering::SeqCst);
            self.sends.let_by();
            return Ok(());
        }
        if before == self.fuse.going && self.fuse.is_kept {
            self.inner.reach(rt)?;
        }
        self.ending.set();
        Err(Unkept)
    }

    fn tell<R: Wait>(&self, rt: &R) -> Result<(), Unkept> {
        if self.has_blown() {
            return Err(Unkept);
        }
        self.inner.tell(rt)
    }

    fn has_failed(&self) -> bool {
        self.has_blown() || self.inner.has_failed()
    }
}
