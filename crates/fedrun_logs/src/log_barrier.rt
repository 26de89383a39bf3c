//! What keeps a node's events before anything that they caused leaves the node.
ghost use Rattle.std.specs.Prelude.{◌≡◌, false, List, take, drop, Some, OnOk, OnErr};
ghost use Rattle.node.specs.declared.event.Event.{Event as IsEvent};
ghost use Rattle.fedrun_logs.specs.declared.not_kept.NotKept.{NotKept as IsNotKept};
ghost use Rattle.fedrun_logs.specs.Files.{GoesOn};

use crate::log_file::LogFile;
use crate::not_kept::NotKept;
use desk::Shared;
use files_keeping::Device;
use node::Node;
use node_journal::Journal;
use std::alloc::Global;
use std::sync::atomic::{AtomicBool, AtomicU64, Ordering};
use std::sync::{Mutex, Wait};
use wires_hosts::{Barrier, Unkept};

/// Events that a block says at most: always fewer bytes than a block may have.
const MOST_EVENTS: usize = 10_000;

/// The barrier of a node whose journal is kept in a log. Who comes while the file is written waits, and mostly finds then
/// that the next one has kept its events too: two writes at most, however many wait, and no thread of its own.
///
/// The file's lock is taken before the desk's, and by nobody who has that one.
#[derive(Drop)]
pub struct LogBarrier<'a, N: Node, D: Device + Drop> {
    alloc: Global,
    shared: &'a Shared<N>,
    // How many calls there were.
    calls: AtomicU64,
    keeping: Mutex<Keeping<D>>,
    has_failed: AtomicBool,
}

/// The file, and for whom it was written.
#[derive(Drop)]
struct Keeping<D: Device + Drop> {
    file: LogFile<D>,
    // All events are kept that came before the first so many calls.
    covered: u64,
    failure: Option<NotKept>,
}

impl<'a, N: Node, D: Device + Drop> LogBarrier<'a, N, D> {
    /// Of a desk, whose first events are in this file.
    pub fn new(alloc: Global, shared: &'a Shared<N>, file: LogFile<D>) -> LogBarrier<'a, N, D> {
        LogBarrier {
            alloc,
            shared,
            calls: AtomicU64::new(0),
            keeping: Mutex::new(Keeping {
                file,
                covered: 0,
                failure: None,
            }),
            has_failed: AtomicBool::new(false),
        }
    }

    /// The file, or why it takes nothing more.
    pub fn into_file(self) -> Result<LogFile<D>, NotKept> {
        let LogBarrier { keeping, .. } = self;
        let Keeping { file, failure, .. } = keeping.into_inner();
        match failure {
            Some(why) => Err(why),
            None => Ok(file),
        }
    }

    // Keeps all events so far, and if so, that the run is finished. An error is final: what a read of the file gives
    // isn't known then.
    fn keep<R: Wait>(&self, rt: &R, keeping: &mut Keeping<D>, is_told: bool) -> Result<(), Unkept>
        ensures kept { OnOk result ((more : List IsEvent)
            × GoesOn D.is_known D.synced keeping.old.file keeping.new.file more is_told) }
        ensures failed { OnErr result ((why : IsNotKept) × (keeping.new.failure ≡ Some why)) }
        ensures no_more { (why : IsNotKept) → keeping.old.failure ≡ Some why
            → OnOk result ⊥ × (keeping.new ≡ keeping.old) }
    {
        if keeping.failure.is_some() {
            return Err(Unkept);
        }
        // Whose call is counted by now has handed its events in.
        let covered = self.calls.load(Ordering::SeqCst);
        match self.append(rt, &mut keeping.file, is_told) {
            Ok(()) => {
                keeping.covered = covered;
                Ok(())
            }
            Err(why) => {
                keeping.failure = Some(why);
                self.has_failed.store(true, Ordering::SeqCst);
                Err(Unkept)
            }
        }
    }

    // Appends the events that the journal has by now and the file hasn't, and if so, that the run is finished.
    fn append<R: Wait>(&self, rt: &R, file: &mut LogFile<D>, is_told: bool) -> Result<(), NotKept>
        ensures { OnOk result ((more : List IsEvent)
            × GoesOn D.is_known D.synced file.old file.new more is_told) }
    {
        let mut events = Journal::new(self.alloc);
        self.shared
            .copy_events(rt, file.events(), usize::MAX, &mut events)?;
        append_all(self.alloc, file, &events, is_told)?;
        Ok(())
    }
}

// Appends events, in as many blocks as they need, and if so, that the run is finished.
fn append_all<D: Device + Drop>(
    alloc: Global,
    file: &mut LogFile<D>,
    events: &Journal,
    is_told: bool,
) -> Result<(), NotKept>
    ensures { OnOk result (GoesOn D.is_known D.synced file.old file.new events.now is_told) }
{
    append_events(alloc, file, events)?;
    if is_told {
        let none = Journal::new(alloc);
        file.keep(alloc, &none, true)?;
    }
    Ok(())
}

// Appends events, in as many blocks as they need: mostly one has room for all of them.
fn append_events<D: Device + Drop>(
    alloc: Global,
    file: &mut LogFile<D>,
    events: &Journal,
) -> Result<(), NotKept>
    ensures { OnOk result (GoesOn D.is_known D.synced file.old file.new events.now false) }
{
    if events.len() == 0 {
        return Ok(());
    }
    if events.len() <= MOST_EVENTS {
        return file.keep(alloc, events, false);
    }
    append_parts(alloc, file, events)
}

// Appends events, a part of them in each block.
fn append_parts<D: Device + Drop>(
    alloc: Global,
    file: &mut LogFile<D>,
    events: &Journal,
) -> Result<(), NotKept>
    ensures { OnOk result (GoesOn D.is_known D.synced file.old file.new events.now false) }
{
    let mut place = 0;
    while place < events.len() {
        let count = MOST_EVENTS.min(events.len() - place);
        append_some(alloc, file, events, place, count)?;
        place += count;
    }
    Ok(())
}

// Appends a block of so many events from this place on.
fn append_some<D: Device + Drop>(
    alloc: Global,
    file: &mut LogFile<D>,
    events: &Journal,
    place: usize,
    count: usize,
) -> Result<(), NotKept>
    ensures { OnOk result (GoesOn D.is_known D.synced file.old file.new (take count (drop place events.now)) false) }
{
    let mut block = Journal::new(alloc);
    block.append(events, place, count)?;
    file.keep(alloc, &block, false)?;
    Ok(())
}

impl<'a, N: Node, D: Device + Drop> Barrier for LogBarrier<'a, N, D> {
    fn reach<R: Wait>(&self, rt: &R) -> Result<(), Unkept> {
        let call = self.calls.fetch_add(1, Ordering::SeqCst);
        let mut keeping = self.keeping.lock(rt);
        if call < keeping.covered {
            return Ok(());
        }
        self.keep(rt, &mut keeping, false)
    }

    fn tell<R: Wait>(&self, rt: &R) -> Result<(), Unkept> {
        let mut keeping = self.keeping.lock(rt);
        self.keep(rt, &mut keeping, true)
    }

    fn has_failed(&self) -> bool {
        self.has_failed.load(Ordering::SeqCst)
    }
}
