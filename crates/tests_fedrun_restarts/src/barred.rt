//! Nodes in threads, each by itself over connections in memory, with logs: from their begins over what their disks have
//! to their ends, or until they are dropped.
use crate::fuse::{ENDLESS, Fuse, FusedBarrier, LogLeft};
use crate::given::Given;
use crate::lines::{Coming, EndWithRun, MemoryAcceptor, MemoryDial};
use crate::noted::Sends;
use crate::stop::Stop;
use coordinator::Coordinator;
use crossbeam_channel::{Receiver, Sender};
use desk::Shared;
use federate::Federate;
use fedrun_logs::{LogFile, OpenedLog, begin_log, replay};
use files_keeping::{MemoryDevice, read_locked};
use files_logs::LogHead;
use node::{Node, NodeId};
use node_journal::Journal;
use std::alloc::Global;
use std::sync::Arc;
use wires::{
    CoordinatorLines, FederateLines, Runtime, Terms, channels, run_coordinator, run_federate,
};
use wires_hosts::{Barrier, Heard};
use wires_transports::{CurrentConnections, Ending};
use wires_workers::NoGate;

/// What a node is given in each of its lives.
#[derive(Drop)]
pub(crate) struct Course<'a, R> {
    pub rt: &'a R,
    pub alloc: Global,
    pub given: &'a Given,
    /// The coordinator says that the run is finished.
    pub finished: &'a Ending,
}

/// As many turns as each run needs that comes to its end.
const TERMS: Terms = Terms {
    turns: 100_000,
    frames: 2,
};

// A node's log, ready for more, whose events were handed in to its desk; and whether it says that the run is finished.
fn begun<R: Runtime, N: Node>(
    course: &Course<'_, R>,
    who: NodeId,
    shared: &Shared<N>,
    kept: &LogLeft,
) -> Result<(LogFile<MemoryDevice>, bool), Stop> {
    let head = course.given.head(who);
    let Some(opened) = opened(course.alloc, &head, &kept.bytes) else {
        return Err(Stop::DoesNotGoOn);
    };
    let OpenedLog {
        journal,
        is_told,
        file,
        ..
    } = opened;
    hand_in_again(course, shared, &journal, kept.left)?;
    Ok((file, is_told))
}

// A node's desk takes the events of its log in, at least as many as had come to it when something left it.
fn hand_in_again<R: Runtime, N: Node>(
    course: &Course<'_, R>,
    shared: &Shared<N>,
    journal: &Journal,
    left: usize,
) -> Result<(), Stop> {
    if journal.len() < left {
        return Err(Stop::LeftUnkept);
    }
    match replay(course.rt, course.alloc, shared, journal) {
        Ok(_) => Ok(()),
        Err(_) => Err(Stop::Memory),
    }
}

// The log on a disk with these bytes.
fn opened(alloc: Global, head: &LogHead, bytes: &[u8]) -> Option<OpenedLog<MemoryDevice>> {
    let mut device = MemoryDevice::new(alloc, bytes).ok()?;
    let bytes = read_locked(alloc, &mut device).ok()?;
    begin_log(alloc, device, bytes.as_slice(), head).ok()
}

// Runs a federate, over what was kept of it; whether to its end.
fn federate_life<R: Runtime>(
    course: &Course<'_, R>,
    number: usize,
    to: &Sender<Coming>,
    fuse: Fuse,
    kept: &mut LogLeft,
) -> Result<bool, Stop> {
    match course.given.federate(course.alloc, number) {
        Some(shared) => federate_at(course, &shared, number, to, fuse, kept),
        None => Err(Stop::Memory),
    }
}

// The same with a desk to which nothing came.
fn federate_at<R: Runtime>(
    course: &Course<'_, R>,
    shared: &Shared<Federate<'_>>,
    number: usize,
    to: &Sender<Coming>,
    fuse: Fuse,
    kept: &mut LogLeft,
) -> Result<bool, Stop> {
    let (file, is_told) = begun(course, NodeId::Federate(number), shared, kept)?;
    let ending = Ending::new();
    let Some(sends) = Sends::none(course.alloc) else {
        return Err(Stop::Memory);
    };
    let barrier = FusedBarrier::new(course.alloc, shared, file, fuse, &sends, &ending);
    // One whose log says that the run is finished asks nobody.
    let has_run = is_told
        || joins(
            course.rt,
            course.alloc,
            course.finished,
            shared,
            number,
            to,
            &barrier,
            &sends,
            &ending,
        );
    barrier.leave(has_run && course.finished.is_set(), kept)
}

// Runs a federate until it hears that the run is finished, or is dropped; whether it could be run, and nobody spoke of
// another history.
fn joins<R: Runtime, B: Barrier + Sync>(
    rt: &R,
    alloc: Global,
    finished: &Ending,
    shared: &Shared<Federate<'_>>,
    number: usize,
    to: &Sender<Coming>,
    barrier: &B,
    sends: &Arc<Sends>,
    ending: &Ending,
) -> bool {
    let Ok(heard) = Heard::new(alloc, 0) else {
        return false;
    };
    let Ok(to) = to.clone() else {
        return false;
    };
    let lines = FederateLines {
        number,
        dial: MemoryDial {
            federate: number,
            to,
            heard: &heard,
            barrier,
            sends,
        },
        terms: TERMS,
    };
    let watcher = EndWithRun {
        finished,
        barrier,
        ending,
    };
    match run_federate(rt, alloc, shared, lines, watcher, &NoGate, ending) {
        Ok(run) => !run.shows_other_history,
        Err(_) => false,
    }
}

// Runs the coordinator, over what was kept of it; whether to its end. Where it is finished it says so once all is kept
// that made it so.
fn coordinator_life<R: Runtime>(
    course: &Course<'_, R>,
    coming: &Receiver<Coming>,
    fuse: Fuse,
    kept: &mut LogLeft,
) -> Result<bool, Stop> {
    match course.given.coordinator(course.alloc) {
        Some(shared) => coordinator_at(course, &shared, coming, fuse, kept),
        None => Err(Stop::Memory),
    }
}

// The same with a desk to which nothing came.
fn coordinator_at<R: Runtime>(
    course: &Course<'_, R>,
    shared: &Shared<Coordinator<'_>>,
    coming: &Receiver<Coming>,
    fuse: Fuse,
    kept: &mut LogLeft,
) -> Result<bool, Stop> {
    let (file, _) = begun(course, NodeId::Coordinator, shared, kept)?;
    let ending = Ending::new();
    let Some(sends) = Sends::none(course.alloc) else {
        return Err(Stop::Memory);
    };
    let barrier = FusedBarrier::new(course.alloc, shared, file, fuse, &sends, &ending);
    let has_run = coordinates(
        course.rt,
        course.alloc,
        course.given.count(),
        course.finished,
        shared,
        coming,
        &barrier,
        &sends,
        &ending,
    );
    let is_over = has_run && shared.finished(course.rt) && barrier.tell(course.rt).is_ok();
    if is_over {
        course.finished.set();
    }
    barrier.leave(is_over, kept)
}

// Runs the coordinator until it is finished, or is dropped; whether it could be run.
fn coordinates<R: Runtime, B: Barrier + Sync>(
    rt: &R,
    alloc: Global,
    count: usize,
    finished: &Ending,
    shared: &Shared<Coordinator<'_>>,
    coming: &Receiver<Coming>,
    barrier: &B,
    sends: &Arc<Sends>,
    ending: &Ending,
) -> bool {
    if shared.finished(rt) {
        // By its log: federates that are gone say nothing more by which a worker would see it.
        ending.set();
    }
    let Ok(heard) = Heard::new(alloc, count) else {
        return false;
    };
    let Ok((readers, arrivals)) = channels(alloc, count) else {
        return false;
    };
    let Ok(current) = CurrentConnections::new(alloc, readers) else {
        return false;
    };
    let lines = CoordinatorLines {
        arrivals,
        acceptor: MemoryAcceptor {
            coming,
            current,
            heard: &heard,
            barrier,
            sends,
        },
    };
    let watcher = EndWithRun {
        finished,
        barrier,
        ending,
    };
    run_coordinator(rt, alloc, shared, lines, watcher, &NoGate, ending).is_ok()
}

/// Runs a federate that is dropped so, and begins again. What its disk has at its end.
pub(crate) fn federate_lives<R: Runtime>(
    course: &Course<'_, R>,
    number: usize,
    to: &Sender<Coming>,
    fuse: Fuse,
) -> Result<LogLeft, Stop> {
    let mut kept = LogLeft::new(course.alloc);
    for fuse in [fuse, ENDLESS] {
        if federate_life(course, number, to, fuse, &mut kept)? {
            return Ok(kept);
        }
    }
    Err(Stop::DoesNotGoOn)
}

/// The same of the coordinator.
pub(crate) fn coordinator_lives<R: Runtime>(
    course: &Course<'_, R>,
    coming: &Receiver<Coming>,
    fuse: Fuse,
) -> Result<LogLeft, Stop> {
    let mut kept = LogLeft::new(course.alloc);
    for fuse in [fuse, ENDLESS] {
        if coordinator_life(course, coming, fuse, &mut kept)? {
            return Ok(kept);
        }
    }
    Err(Stop::DoesNotGoOn)
}
