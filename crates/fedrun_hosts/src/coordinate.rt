//! The coordinator, in a process of its own.
ghost use Rattle.std.specs.Prelude.{◌≡◌, true, OnOk};
ghost use Rattle.std.specs.Duration.{as_nanos};
ghost use Rattle.node_cores.specs.CoordinatorCore.{coordinator_core};
ghost use Rattle.files_reports.specs.declared.layout.TheConstants.{COORDINATOR};
ghost use Rattle.fedrun_reports.specs.After.{coordinator_after};
ghost use Rattle.fedrun_hosts.specs.Ended.{HasCoordinated, SavesFinished, EndsFinished, GoesOnFinished};
ghost use Rattle.fedrun_hosts.specs.EndedLogs.{head_of};
ghost use Rattle.fedrun_hosts.specs.Waits.{telling_nanos};

use crate::fault::HostFault;
use crate::gathering::{Replayed, gather_replayed, replayed_desk};
use crate::listen_fault::ListenFault;
use crate::loaded::{Loaded, load};
use crate::logged::{Begun, begin, fault_of, finish, head_of};
use crate::looks::CoordinatorLook;
use crate::patience::{telling_patience, watcher};
use crate::report::{reserve_report, save_report};
use crate::request::NodeRequest;
use crate::saying::{say_finished, say_listening};
use crate::unfinished::Unfinished;
use crate::watched::{tell_begin, tell_log, tell_names};
use coordinator::Coordinator;
use crossbeam_channel::Receiver;
use desk::{Desk, Shared};
use fedrun_files::Files;
use fedrun_logs::{LogBarrier, LogDisk, LogFile, OpenedLog};
use fedrun_reports::replayed_coordinator;
use fedrun_run::coordinator_desk;
use fedrun_words::Fault;
use files_keeping::{Device, KeptBy};
use files_logs::{Log, LogHead};
use files_reports::NodeReport;
use files_reports::layout::COORDINATOR;
use files_saving::Disk;
use node::Node;
use node_journal::Journal;
use std::alloc::{AllocError, Global};
use std::io::Write;
use std::net::{Net, TcpListener, TcpStream};
use std::random::RandomSource;
use std::sync::Wait;
use std::time::{Clock, Duration};
use wires::{
    CoordinatorLines, NetRuntime, NodeResults, RunFault, channels, counts_of, gather_desk,
    run_coordinator,
};
use wires_hosts::{
    Barrier, Happening, Heard, HostAcceptor, HostAddress, HostEntrance, Look, Moment, NoBarrier,
    Teller, Unkept, Watching, listen_at,
};
use wires_transports::{Accepted, Acceptor, Ending};
use wires_workers::NoGate;

/// Runs the coordinator until it is finished, or until nobody was heard for its patience.
///
/// With a log it keeps all that comes to it before anything leaves it that this caused. So it may be killed at any
/// moment: the same words go on. Federates are told that the run is finished once all that made it so is kept; the log
/// has its end, and the report's name, once they were. Where its log says so already, it says at once that the run is
/// finished, and then tells federates again, which may have been down.
///
/// Without one it writes its report in either case, and federates are told that the run is finished once the report is
/// saved, and not before: where it is lost, none of them has ended as if all were well. Its report's name is reserved
/// before anybody can connect, and stays so where it ends in the midst.
///
/// Who is awaited, who is let in and who isn't, whose connection has ended, that the run stands still and for whom, that
/// it is finished and who has heard so, or that it gives up, is told by `teller`.
pub fn coordinate<
    'a,
    R: NetRuntime + RandomSource,
    F: Files,
    D: Disk,
    L: LogDisk<V>,
    V: Device + Drop + Send,
    O: Write,
>(
    rt: &R,
    alloc: Global,
    node: &NodeRequest<'a>,
    files: &mut F,
    disk: &mut D,
    logs: &mut L,
    out: &mut O,
    teller: &Teller,
) -> Result<(), Fault<'a, HostFault<'a>>>
    ensures { OnOk result (HasCoordinated (F.contents files.old)
        V.is_known (L.holds logs.old) node.now
        (D.contents disk.old) (D.contents disk.new)) }
{
    let loaded = match load(alloc, node, files, teller) {
        Ok(loaded) => loaded,
        Err(fault) => return Err(fault),
    };
    tell_names(rt, alloc, &loaded);
    tell_begin(rt, &loaded);
    match node.log {
        Some(kept_by) => coordinate_logging(rt, alloc, node, &loaded, kept_by, disk, logs, out),
        None => coordinate_reporting(rt, alloc, node, &loaded, disk, logs, out),
    }
}

// Runs the coordinator without a log.
fn coordinate_reporting<
    'a,
    R: NetRuntime + RandomSource,
    D: Disk,
    L: LogDisk<V>,
    V: Device + Drop,
    O: Write,
>(
    rt: &R,
    alloc: Global,
    node: &NodeRequest<'a>,
    loaded: &Loaded,
    disk: &mut D,
    logs: &mut L,
    out: &mut O,
) -> Result<(), Fault<'a, HostFault<'a>>>
    ensures { OnOk result (SavesFinished loaded.now.sources loaded.now.digests node.now.report.now
        (D.contents disk.old) (D.contents disk.new)) }
{
    let reserved = match reserve_report(alloc, node.report, disk, logs) {
        Ok(reserved) => reserved,
        Err(fault) => return Err(fault),
    };
    let temporary = reserved.temporary.as_str();
    let listeners = match listen(rt, node.address, out) {
        Ok(listeners) => listeners,
        Err(fault) => {
            // Nothing was begun: the name is free again.
            disk.remove(temporary);
            return Err(fault);
        }
    };
    let desk = match ran_reporting(rt, alloc, node, loaded, listeners.for_run) {
        Ok(desk) => desk,
        Err(why) => return Err(fault_of_run(why)),
    };
    let (_, events) = desk.into_parts();
    let desk = match replayed_coordinator(alloc, &loaded.sources.plan, events) {
        Ok(desk) => desk,
        Err(memory) => return Err(Fault::More(HostFault::Memory(memory))),
    };
    let is_finished = desk.station().node().finished();
    let (_, journal) = desk.into_parts();
    let report = NodeReport::Coordinator(journal);
    match save_report(
        alloc,
        &loaded.digests,
        &report,
        temporary,
        node.report,
        disk,
    ) {
        Ok(()) if is_finished => {
            // Where there is no memory for that, nobody is told; the report stands.
            let _ = tell_finished(rt, alloc, node, loaded, listeners.for_telling);
            say_finished(out)
        }
        Ok(()) => Err(not_finished()),
        Err(fault) => Err(fault),
    }
}

// The coordinator's desk after its run, to which federates connect by this listener.
fn ran_reporting<'n, R: NetRuntime + RandomSource>(
    rt: &R,
    alloc: Global,
    node: &NodeRequest<'_>,
    loaded: &'n Loaded,
    listener: TcpListener,
) -> Result<Desk<Coordinator<'n>>, RunFault> {
    let Ok(desk) = coordinator_desk(alloc, &loaded.sources.plan) else {
        return Err(RunFault::Memory);
    };
    let shared = Shared::new(desk);
    let results = run_listening(rt, alloc, node, loaded, listener, &shared, &NoBarrier)?;
    gather_desk(shared, results.shares)
}

// Runs the coordinator with a log, from where that ends.
fn coordinate_logging<
    'a,
    R: NetRuntime + RandomSource,
    D: Disk,
    L: LogDisk<V>,
    V: Device + Drop + Send,
    O: Write,
>(
    rt: &R,
    alloc: Global,
    node: &NodeRequest<'a>,
    loaded: &Loaded,
    kept_by: KeptBy,
    disk: &mut D,
    logs: &mut L,
    out: &mut O,
) -> Result<(), Fault<'a, HostFault<'a>>>
    ensures { OnOk result (EndsFinished V.is_known (L.holds logs.old)
        loaded.now.sources (head_of loaded.now.digests COORDINATOR) node.now.report.now
        (D.contents disk.old) (D.contents disk.new)) }
{
    let head = head_of(loaded, COORDINATOR);
    match begin(alloc, node, kept_by, &head, disk, logs) {
        Ok(Begun::Finished(log)) => say_again(rt, alloc, node, loaded, log, out),
        Ok(Begun::GoesOn(opened)) => go_on(rt, alloc, node, loaded, &head, opened, disk, out),
        Err(fault) => Err(fault),
    }
}

// Runs the coordinator from where its log ends, unless that says that the run is finished, and ends the log.
fn go_on<'a, R: NetRuntime + RandomSource, D: Disk, V: Device + Drop + Send, O: Write>(
    rt: &R,
    alloc: Global,
    node: &NodeRequest<'a>,
    loaded: &Loaded,
    head: &LogHead,
    opened: OpenedLog<V>,
    disk: &mut D,
    out: &mut O,
) -> Result<(), Fault<'a, HostFault<'a>>>
    ensures { OnOk result (GoesOnFinished V.is_known V.synced loaded.now.sources head.now node.now.report.now opened
        (D.contents disk.old) (D.contents disk.new)) }
{
    let OpenedLog {
        journal,
        is_told,
        is_ended,
        file,
    } = opened;
    let file = if is_told {
        // All were told, or nobody asked any more.
        file
    } else {
        match went_on(rt, alloc, node, loaded, &journal, file, out) {
            Ok(file) => file,
            Err(fault) => return Err(fault),
        }
    };
    match finish(alloc, node, head, file, is_ended, disk) {
        Ok(log) if is_told => say_again(rt, alloc, node, loaded, log, out),
        Ok(log) => say_if_finished(alloc, loaded, log, out),
        Err(fault) => Err(fault),
    }
}

// Runs the coordinator to its end that goes on behind this journal, which is in its log. Where it is finished, tells
// the federates so. The log then, in which all of that is.
fn went_on<'a, R: NetRuntime + RandomSource, V: Device + Drop + Send, O: Write>(
    rt: &R,
    alloc: Global,
    node: &NodeRequest<'a>,
    loaded: &Loaded,
    journal: &Journal,
    file: LogFile<V>,
    out: &mut O,
) -> Result<LogFile<V>, Fault<'a, HostFault<'a>>> {
    let Ok(desk) = coordinator_desk(alloc, &loaded.sources.plan) else {
        return Err(Fault::More(HostFault::Memory(desk::Memory)));
    };
    tell_log(rt, loaded, journal.len());
    let replayed = match replayed_desk(rt, alloc, Shared::new(desk), journal) {
        Ok(replayed) => replayed,
        Err(memory) => return Err(Fault::More(HostFault::Memory(memory))),
    };
    let listeners = match listen(rt, node.address, out) {
        Ok(listeners) => listeners,
        Err(fault) => return Err(fault),
    };
    let listener = listeners.for_run;
    let file = match ran_logging(rt, alloc, node, loaded, listener, replayed, file) {
        Ok(file) => file,
        Err(fault) => return Err(fault),
    };
    // Where there is no memory for that, nobody is told.
    let _ = tell_finished(rt, alloc, node, loaded, listeners.for_telling);
    told(alloc, node, file)
}

// Runs the coordinator, to whose desk what is in its log was handed in, and to which federates connect by this
// listener. The log with all that came to it, where it is finished.
fn ran_logging<'n, 'a, R: NetRuntime + RandomSource, V: Device + Drop + Send>(
    rt: &R,
    alloc: Global,
    node: &NodeRequest<'a>,
    loaded: &Loaded,
    listener: TcpListener,
    replayed: Replayed<Coordinator<'n>>,
    file: LogFile<V>,
) -> Result<LogFile<V>, Fault<'a, HostFault<'a>>> {
    let barrier = LogBarrier::new(alloc, &replayed.shared, file);
    let results = run_listening(
        rt,
        alloc,
        node,
        loaded,
        listener,
        &replayed.shared,
        &barrier,
    );
    // What made it finished may have caused nothing that left.
    let _ = barrier.reach(rt);
    let file = match barrier.into_file() {
        Ok(file) => file,
        Err(why) => return Err(fault_of(node.report, why)),
    };
    match is_finished(replayed, results) {
        Ok(true) => Ok(file),
        Ok(false) => Err(not_finished()),
        Err(why) => Err(fault_of_run(why)),
    }
}

// Whether the coordinator is finished after its run, of which its workers left these, and after what was handed in
// before.
fn is_finished(
    replayed: Replayed<Coordinator<'_>>,
    results: Result<NodeResults, RunFault>,
) -> Result<bool, RunFault> {
    let desk = gather_replayed(replayed, results?.shares)?;
    Ok(desk.station().node().finished())
}

// The log, once it says that all were told that the run is finished.
fn told<'a, V: Device + Drop>(
    alloc: Global,
    node: &NodeRequest<'a>,
    file: LogFile<V>,
) -> Result<LogFile<V>, Fault<'a, HostFault<'a>>> {
    let mut file = file;
    match file.keep(alloc, &Journal::new(alloc), true) {
        Ok(()) => Ok(file),
        Err(why) => Err(fault_of(node.report, why)),
    }
}

// Says that the run is finished, where the coordinator is by this log.
fn say_if_finished<'a, O: Write>(
    alloc: Global,
    loaded: &Loaded,
    log: Log,
    out: &mut O,
) -> Result<(), Fault<'a, HostFault<'a>>>
    ensures { OnOk result
        (coordinator_core.finished (coordinator_after loaded.now.sources.plan log.journal) ≡ true) }
{
    match replayed_coordinator(alloc, &loaded.sources.plan, log.journal) {
        Ok(desk) if desk.station().node().finished() => say_finished(out),
        Ok(_) => Err(not_finished()),
        Err(memory) => Err(Fault::More(HostFault::Memory(memory))),
    }
}

// Says that the run is finished, where the coordinator is by this log, and then tells so whoever asks: a federate may
// have been down when all others were told.
fn say_again<'a, R: NetRuntime + RandomSource, O: Write>(
    rt: &R,
    alloc: Global,
    node: &NodeRequest<'a>,
    loaded: &Loaded,
    log: Log,
    out: &mut O,
) -> Result<(), Fault<'a, HostFault<'a>>>
    ensures { OnOk result
        (coordinator_core.finished (coordinator_after loaded.now.sources.plan log.journal) ≡ true) }
{
    match say_if_finished(alloc, loaded, log, out) {
        Ok(()) => {
            tell_again(rt, alloc, node, loaded);
            Ok(())
        }
        Err(fault) => Err(fault),
    }
}

// Tells whoever asks at the node's address that the run is finished, where the node can listen there.
fn tell_again<R: NetRuntime + RandomSource>(
    rt: &R,
    alloc: Global,
    node: &NodeRequest<'_>,
    loaded: &Loaded,
) {
    // Where the system chooses the port nobody knows it.
    if node.address.port() == 0 {
        return;
    }
    if let Ok(listener) = listen_at(rt, node.address) {
        // Where there is no memory for that, nobody is told.
        let _ = tell_finished(rt, alloc, node, loaded, listener);
    }
}

// One place where federates connect. Both listen there, so that it stays the coordinator's own from the run's
// beginning until all is told; who connects in between waits.
#[derive(Drop)]
struct Listeners {
    // While the run goes on.
    for_run: TcpListener,
    // Once the report is saved.
    for_telling: TcpListener,
}

// Listens at the node's address, once it is said where that is.
fn listen<'a, R: Net<Stream = TcpStream, Listener = TcpListener>, O: Write>(
    rt: &R,
    address: HostAddress,
    out: &mut O,
) -> Result<Listeners, Fault<'a, HostFault<'a>>> {
    let for_run = match listen_at(rt, address) {
        Ok(listener) => listener,
        Err(error) => return Err(Fault::More(HostFault::CannotListen(ListenFault::of(&error)))),
    };
    let for_telling = match for_run.try_clone() {
        Ok(listener) => listener,
        Err(error) => return Err(Fault::More(HostFault::CannotListen(ListenFault::of(&error)))),
    };
    match say_listening(&for_run, out) {
        Ok(()) => Ok(Listeners {
            for_run,
            for_telling,
        }),
        Err(fault) => Err(fault),
    }
}

// Runs the coordinator, to which federates connect by this listener, and from which nothing leaves before this barrier
// lets it; what its workers leave. Nobody is told that the run is finished.
fn run_listening<'n, R: NetRuntime + RandomSource, B: Barrier + Sync>(
    rt: &R,
    alloc: Global,
    node: &NodeRequest<'_>,
    loaded: &Loaded,
    listener: TcpListener,
    shared: &Shared<Coordinator<'n>>,
    barrier: &B,
) -> Result<NodeResults, RunFault> {
    let look = CoordinatorLook {
        shared,
        stop: loaded.sources.plan.stop_time(),
    };
    loaded.teller.measure(rt, rt, Moment::Runs);
    let results = run_watched(rt, alloc, node, loaded, listener, shared, barrier, look);
    // What is said of its end stands below nothing that is wiped.
    loaded.teller.wipe(rt, alloc);
    if let Ok(left) = &results {
        let counts = counts_of(&left.workers);
        loaded
            .teller
            .measure(rt, rt, Moment::CoordinatorRan(counts));
    }
    results
}

// The same, where it is looked at so.
fn run_watched<'n, R: NetRuntime + RandomSource, B: Barrier + Sync, L: Look + Send>(
    rt: &R,
    alloc: Global,
    node: &NodeRequest<'_>,
    loaded: &Loaded,
    listener: TcpListener,
    shared: &Shared<Coordinator<'n>>,
    barrier: &B,
    look: L,
) -> Result<NodeResults, RunFault> {
    let count = loaded.sources.plan.federate_count();
    let heard = Heard::watched(alloc, count, loaded.teller.another())?;
    let barrier = Lent { barrier };
    let ending = Ending::new();
    if shared.finished(rt) {
        // By its log: federates that are gone say nothing more by which a worker would see it.
        ending.set();
    }
    let (readers, arrivals) = channels(alloc, count)?;
    // The acceptor tells nobody that the run is finished: that isn't kept yet.
    let entrance = entrance(loaded, listener, Duration::from_secs(0));
    let acceptor = HostAcceptor::new(alloc, rt, entrance, &heard, &barrier, readers);
    let lines = lines_of(arrivals, acceptor)?;
    let watching = Watching {
        patience: watcher(node, &heard, &barrier, &ending, None),
        look,
    };
    run_coordinator(rt, alloc, shared, lines, watching, &NoGate, &ending)
}

// The connections of a coordinator, where there is memory for who lets them in.
fn lines_of<E: Drop, T: Drop, C: Drop>(
    arrivals: Vec<Receiver<Accepted<T, C>>>,
    acceptor: Result<E, AllocError>,
) -> Result<CoordinatorLines<E, T, C>, RunFault> {
    match acceptor {
        Ok(acceptor) => Ok(CoordinatorLines { arrivals, acceptor }),
        Err(_) => Err(RunFault::Memory),
    }
}

// A barrier that is lent.
#[derive(Drop)]
struct Lent<'b, B: Barrier> {
    barrier: &'b B,
}

impl<'b, B: Barrier> Barrier for Lent<'b, B> {
    fn reach<R: Wait>(&self, rt: &R) -> Result<(), Unkept> {
        self.barrier.reach(rt)
    }

    fn tell<R: Wait>(&self, rt: &R) -> Result<(), Unkept> {
        self.barrier.tell(rt)
    }

    fn has_failed(&self) -> bool {
        self.barrier.has_failed()
    }
}

// Tells whoever asks by this listener that the run is finished, until each federate has heard so, or the patience for
// that is over.
fn tell_finished<R: Wait + Clock + RandomSource>(
    rt: &R,
    alloc: Global,
    node: &NodeRequest<'_>,
    loaded: &Loaded,
    listener: TcpListener,
) -> Result<(), RunFault> {
    let count = loaded.sources.plan.federate_count();
    let heard = Heard::watched(alloc, count, loaded.teller.another())?;
    heard.tell(rt, rt, Happening::Finished);
    // Nobody is let in any more, so nobody reads.
    let (readers, _) = channels(alloc, count)?;
    let entrance = telling_entrance(node, loaded, listener);
    let acceptor = HostAcceptor::new(alloc, rt, entrance, &heard, &NoBarrier, readers)?;
    let ending = Ending::new();
    ending.set();
    loaded.teller.measure(rt, rt, Moment::Tells);
    acceptor.let_in(rt, alloc, &ending);
    loaded.teller.measure(rt, rt, Moment::HasTold);
    Ok(())
}

// Where federates connect, and by what they are let in: by the key and the files that were read.
fn entrance(loaded: &Loaded, listener: TcpListener, patience: Duration) -> HostEntrance
    ensures key { result.key ≡ loaded.now.key }
    ensures files { result.files ≡ loaded.now.files }
    ensures patience { result.patience ≡ patience }
{
    HostEntrance {
        listener,
        key: loaded.key,
        files: loaded.files,
        patience,
    }
}

// Where federates connect once the report is saved, and for how long they are told there that the run is finished.
fn telling_entrance(node: &NodeRequest<'_>, loaded: &Loaded, listener: TcpListener) -> HostEntrance
    ensures key { result.key ≡ loaded.now.key }
    ensures files { result.files ≡ loaded.now.files }
    ensures patience { as_nanos result.patience ≡ telling_nanos node.now.patience }
{
    entrance(loaded, listener, telling_patience(node))
}

// That a coordinator isn't finished, as the fault that is printed: whoever ends its run before gives up.
fn not_finished<'a>() -> Fault<'a, HostFault<'a>> {
    Fault::More(HostFault::NotFinished(Unfinished::OutOfPatience(None)))
}

/// Why there is no desk, as the fault that is printed.
pub(crate) fn fault_of_run<'a>(why: RunFault) -> Fault<'a, HostFault<'a>> {
    match why {
        RunFault::NotFinished(cause) => {
            Fault::More(HostFault::NotFinished(Unfinished::NotRun(cause)))
        }
        RunFault::Memory => Fault::More(HostFault::Memory(desk::Memory)),
    }
}
