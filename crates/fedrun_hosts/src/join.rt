//! One federate, in a process of its own.
ghost use Rattle.std.specs.Prelude.{◌≡◌, ◌<◌, Some, IfSome, IfOk, OnOk};
ghost use Rattle.plan.specs.Federation.{federate_count, federate_number};
ghost use Rattle.files_logs.specs.declared.log.Log.{Log as IsLogValue};
ghost use Rattle.files_reports.specs.Said.{said_in, by_federate};
ghost use Rattle.fedrun_reports.specs.After.{federate_after};
ghost use Rattle.fedrun_hosts.specs.Ended.{HasJoined, SavesOwn};
ghost use Rattle.fedrun_hosts.specs.EndedLogs.{EndsLog, EndsOpened, head_of};
ghost use Rattle.fedrun_hosts.specs.Given.{IsGiven};
ghost use Rattle.fedrun_hosts.specs.Faults as definition;

use crate::coordinate::fault_of_run;
use crate::fault::HostFault;
use crate::gathering::{Replayed, gather_replayed, replayed_desk};
use crate::loaded::{Loaded, load};
use crate::logged::{Begun, begin, fault_of, finish, head_of};
use crate::looks::FederateLook;
use crate::patience::watcher;
use crate::report::{reserve_report, save_report};
use crate::request::NodeRequest;
use crate::saying::say_finished;
use crate::unfinished::Unfinished;
use crate::watched::{tell_begin, tell_log, tell_own_name};
use desk::{Memory, Shared};
use federate::Federate;
use fedrun_files::Files;
use fedrun_logs::{LogBarrier, LogDisk, LogFile, OpenedLog};
use fedrun_reports::replayed_federate;
use fedrun_run::federate_desk;
use fedrun_words::Fault;
use files_keeping::{Device, KeptBy};
use files_logs::LogHead;
use files_reports::NodeReport;
use files_saving::Disk;
use node_journal::Journal;
use plan::Plan;
use plan_names::place_of;
use recorder_reports::Report;
use std::alloc::Global;
use std::io::Write;
use std::random::RandomSource;
use std::sync::Wait;
use wires::{
    FederateLines, FederateRun, NetRuntime, RunFault, Terms, counts_of, gather_desk, run_federate,
};
use wires_hosts::{
    Barrier, DialFault, FederateHost, Heard, HostDial, LastConnection, Look, Moment, NoBarrier,
    Teller, Watching,
};
use wires_transports::Ending;
use wires_workers::NoGate;

/// Runs the federate of this name until it hears that the run is finished, its end is closed, its turns are made, the
/// coordinator refuses it or speaks of another history, or nobody was heard for its patience.
///
/// With a log it keeps all that comes to it before anything leaves it that this caused. So it may be killed at any
/// moment: the same words go on. The log has its end, and the report's name, once it has heard that the run is
/// finished.
///
/// Without one its report is written at its end, whatever came of the run. The report's name is reserved before it
/// connects, and stays so where it ends in the midst: so it isn't begun anew by the same words, without what it knew.
///
/// What happens to its connections, how far it is, that it stands still, and that it gives up, is told by `teller`.
pub fn join<
    'a,
    R: NetRuntime + RandomSource,
    F: Files,
    D: Disk,
    L: LogDisk<V>,
    V: Device + Drop + Send,
    O: Write,
>(
    rt: &R,
    alloc: Global,
    node: &NodeRequest<'a>,
    name: &'a str,
    terms: Terms,
    files: &mut F,
    disk: &mut D,
    logs: &mut L,
    out: &mut O,
    teller: &Teller,
) -> Result<(), Fault<'a, HostFault<'a>>>
    ensures { OnOk result (HasJoined (F.contents files.old)
        V.is_known (L.holds logs.old) node.now name.entry.now
        (D.contents disk.old) (D.contents disk.new)) }
{
    let loaded = match load(alloc, node, files, teller) {
        Ok(loaded) => loaded,
        Err(fault) => return Err(fault),
    };
    let Some(number) = number_of(&loaded.sources.plan, name) else {
        return Err(Fault::More(HostFault::NoSuchFederate(name)));
    };
    tell_own_name(rt, alloc, &loaded, number);
    tell_begin(rt, &loaded);
    let joined = Joined {
        node,
        loaded: &loaded,
        number,
        terms,
    };
    match node.log {
        Some(kept_by) => join_logging(rt, alloc, &joined, kept_by, disk, logs, out),
        None => join_reporting(rt, alloc, &joined, disk, logs, out),
    }
}

// A federate, and what it was given.
#[derive(Clone, Copy)]
struct Joined<'j, 'a> {
    node: &'j NodeRequest<'a>,
    loaded: &'j Loaded,
    number: u16,
    terms: Terms,
}

// Runs a federate without a log.
fn join_reporting<
    'a,
    R: NetRuntime + RandomSource,
    D: Disk,
    L: LogDisk<V>,
    V: Device + Drop,
    O: Write,
>(
    rt: &R,
    alloc: Global,
    joined: &Joined<'_, 'a>,
    disk: &mut D,
    logs: &mut L,
    out: &mut O,
) -> Result<(), Fault<'a, HostFault<'a>>>
    requires { IsGiven joined.now }
    ensures { OnOk result (SavesOwn joined.now.loaded.now.sources joined.now.loaded.now.digests joined.now.number
        joined.now.node.now.report.now (D.contents disk.old) (D.contents disk.new)) }
{
    let Joined { node, loaded, .. } = *joined;
    let Ok(heard) = Heard::watched(alloc, 1, joined.loaded.teller.another()) else {
        return Err(Fault::More(HostFault::Memory(desk::Memory)));
    };
    let reserved = match reserve_report(alloc, node.report, disk, logs) {
        Ok(reserved) => reserved,
        Err(fault) => return Err(fault),
    };
    let temporary = reserved.temporary.as_str();
    let shared = match shared_desk(alloc, joined) {
        Ok(shared) => shared,
        Err(memory) => return Err(Fault::More(HostFault::Memory(memory))),
    };
    let FederateRun {
        results,
        shows_other_history,
    } = match run_joined(rt, alloc, joined, &shared, &heard, &NoBarrier) {
        Ok(run) => run,
        Err(why) => return Err(fault_of_run(why)),
    };
    let desk = match gather_desk(shared, results.shares) {
        Ok(desk) => desk,
        Err(why) => return Err(fault_of_run(why)),
    };
    let (_, events) = desk.into_parts();
    let report = match report_of(alloc, joined, events) {
        Ok(report) => report,
        Err(memory) => return Err(Fault::More(HostFault::Memory(memory))),
    };
    match save_report(
        alloc,
        &loaded.digests,
        &report,
        temporary,
        node.report,
        disk,
    ) {
        Ok(()) => match fault_by(
            shows_other_history,
            heard.has_given_up(),
            heard.last_fault(rt),
        ) {
            None => say_finished(out),
            Some(fault) => Err(Fault::More(fault)),
        },
        Err(fault) => Err(fault),
    }
}

// What a federate reports: its journal, and the rows that it makes by that.
fn report_of(alloc: Global, joined: &Joined<'_, '_>, events: Journal) -> Result<NodeReport, Memory>
    requires { IsGiven joined.now }
    ensures { IfOk result (λ report. said_in report ≡ by_federate joined.now.number
        (federate_after joined.now.loaded.now.sources joined.now.number events).federate.rows events) }
{
    let own = usize::from(joined.number);
    let desk = replayed_federate(alloc, &joined.loaded.sources, own, events)?;
    let (station, journal) = desk.into_parts();
    Ok(NodeReport::Federate(Report {
        federate: own,
        rows: station.into_node().into_rows(),
        journal,
    }))
}

// Runs a federate with a log, from where that ends.
fn join_logging<
    'a,
    R: NetRuntime + RandomSource,
    D: Disk,
    L: LogDisk<V>,
    V: Device + Drop + Send,
    O: Write,
>(
    rt: &R,
    alloc: Global,
    joined: &Joined<'_, 'a>,
    kept_by: KeptBy,
    disk: &mut D,
    logs: &mut L,
    out: &mut O,
) -> Result<(), Fault<'a, HostFault<'a>>>
    requires { IsGiven joined.now }
    ensures { OnOk result ((log : IsLogValue)
        × EndsLog V.is_known (L.holds logs.old)
        (head_of joined.now.loaded.now.digests joined.now.number) joined.now.node.now.report.now
        (D.contents disk.old) (D.contents disk.new) log) }
{
    let head = head_of(joined.loaded, joined.number);
    match begin(alloc, joined.node, kept_by, &head, disk, logs) {
        Ok(Begun::Finished(_)) => say_finished(out),
        Ok(Begun::GoesOn(opened)) => go_on(rt, alloc, joined, &head, opened, disk, out),
        Err(fault) => Err(fault),
    }
}

// Runs a federate from where its log ends, unless that says that the run is finished, and ends the log.
fn go_on<'a, R: NetRuntime + RandomSource, D: Disk, V: Device + Drop + Send, O: Write>(
    rt: &R,
    alloc: Global,
    joined: &Joined<'_, 'a>,
    head: &LogHead,
    opened: OpenedLog<V>,
    disk: &mut D,
    out: &mut O,
) -> Result<(), Fault<'a, HostFault<'a>>>
    requires { IsGiven joined.now }
    ensures { OnOk result ((log : IsLogValue)
        × EndsOpened V.is_known V.synced head.now joined.now.node.now.report.now opened
        (D.contents disk.old) (D.contents disk.new) log) }
{
    let OpenedLog {
        journal,
        is_told,
        is_ended,
        file,
    } = opened;
    let file = if is_told {
        // It has heard that the run is finished, and proved so, or was about to: nobody else is there to be asked.
        file
    } else {
        match went_on(rt, alloc, joined, &journal, file) {
            Ok(file) => file,
            Err(fault) => return Err(fault),
        }
    };
    match finish(alloc, joined.node, head, file, is_ended, disk) {
        Ok(_) => say_finished(out),
        Err(fault) => Err(fault),
    }
}

// Runs a federate to its end that goes on behind this journal, which is in its log. The log then, with all that came to
// it, where it has heard that the run is finished.
fn went_on<'a, R: NetRuntime + RandomSource, V: Device + Drop + Send>(
    rt: &R,
    alloc: Global,
    joined: &Joined<'_, 'a>,
    journal: &Journal,
    file: LogFile<V>,
) -> Result<LogFile<V>, Fault<'a, HostFault<'a>>>
    requires { IsGiven joined.now }
{
    let Ok(heard) = Heard::watched(alloc, 1, joined.loaded.teller.another()) else {
        return Err(Fault::More(HostFault::Memory(desk::Memory)));
    };
    let shared = match shared_desk(alloc, joined) {
        Ok(shared) => shared,
        Err(memory) => return Err(Fault::More(HostFault::Memory(memory))),
    };
    tell_log(rt, joined.loaded, journal.len());
    match replayed_desk(rt, alloc, shared, journal) {
        Ok(replayed) => ran_logging(rt, alloc, joined, &heard, replayed, file),
        Err(memory) => Err(Fault::More(HostFault::Memory(memory))),
    }
}

// Runs a federate, to whose desk what is in its log was handed in. The log with all that came to it, where it has heard
// that the run is finished.
fn ran_logging<'n, 'a, R: NetRuntime + RandomSource, V: Device + Drop + Send>(
    rt: &R,
    alloc: Global,
    joined: &Joined<'_, 'a>,
    heard: &Heard,
    replayed: Replayed<Federate<'n>>,
    file: LogFile<V>,
) -> Result<LogFile<V>, Fault<'a, HostFault<'a>>> {
    let barrier = LogBarrier::new(alloc, &replayed.shared, file);
    let run = run_joined(rt, alloc, joined, &replayed.shared, heard, &barrier);
    // What came last caused nothing that left.
    let _ = barrier.reach(rt);
    let file = match barrier.into_file() {
        Ok(file) => file,
        Err(why) => return Err(fault_of(joined.node.report, why)),
    };
    match hears_finished(rt, replayed, run, heard) {
        Ok(()) => Ok(file),
        Err(fault) => Err(fault),
    }
}

// Why a federate's run isn't finished that left this, besides what was handed in before.
fn hears_finished<'a, R: Wait>(
    rt: &R,
    replayed: Replayed<Federate<'_>>,
    run: Result<FederateRun, RunFault>,
    heard: &Heard,
) -> Result<(), Fault<'a, HostFault<'a>>> {
    let shows = match shows_other_history(replayed, run) {
        Ok(shows) => shows,
        Err(why) => return Err(fault_of_run(why)),
    };
    match fault_by(shows, heard.has_given_up(), heard.last_fault(rt)) {
        None => Ok(()),
        Some(fault) => Err(Fault::More(fault)),
    }
}

// Whether the coordinator spoke of another history, in a run that left what its desk says besides what was handed in
// before.
fn shows_other_history(
    replayed: Replayed<Federate<'_>>,
    run: Result<FederateRun, RunFault>,
) -> Result<bool, RunFault> {
    let FederateRun {
        results,
        shows_other_history,
    } = run?;
    gather_replayed(replayed, results.shares)?;
    Ok(shows_other_history)
}

// The federate's desk, before anything came to it.
fn shared_desk<'j>(alloc: Global, joined: &Joined<'j, '_>) -> Result<Shared<Federate<'j>>, Memory>
    requires { IsGiven joined.now }
{
    let sources = &joined.loaded.sources;
    let desk = federate_desk(
        alloc,
        &sources.plan,
        &sources.programs,
        &sources.inputs,
        usize::from(joined.number),
    )?;
    Ok(Shared::new(desk))
}

// The number of the federate of this name.
fn number_of(plan: &Plan, name: &str) -> Option<u16>
    ensures named { IfSome result (λ number. federate_number plan.now.federates name.now ≡ Some number) }
    ensures there { IfSome result (λ number. number < federate_count plan.now) }
{
    let place = place_of(plan.federates(), name.as_bytes())?;
    u16::try_from(place).ok()
}

// Runs a federate, which connects to the node's address, and from which nothing leaves before this barrier lets it.
fn run_joined<'n, R: NetRuntime + RandomSource, B: Barrier + Sync>(
    rt: &R,
    alloc: Global,
    joined: &Joined<'_, '_>,
    shared: &Shared<Federate<'n>>,
    heard: &Heard,
    barrier: &B,
) -> Result<FederateRun, RunFault> {
    let loaded = joined.loaded;
    let look = FederateLook {
        shared,
        stop: loaded.sources.plan.stop_time(),
    };
    loaded.teller.measure(rt, rt, Moment::Runs);
    let run = run_watched(rt, alloc, joined, shared, heard, barrier, look);
    // What is said of its end stands below nothing that is wiped.
    loaded.teller.wipe(rt, alloc);
    if let Ok(left) = &run {
        let counts = counts_of(&left.results.workers);
        loaded.teller.measure(rt, rt, Moment::FederateRan(counts));
    }
    run
}

// The same, where it is looked at so.
fn run_watched<'n, R: NetRuntime + RandomSource, B: Barrier + Sync, L: Look + Send>(
    rt: &R,
    alloc: Global,
    joined: &Joined<'_, '_>,
    shared: &Shared<Federate<'n>>,
    heard: &Heard,
    barrier: &B,
    look: L,
) -> Result<FederateRun, RunFault> {
    let Joined {
        node,
        loaded,
        number,
        terms,
    } = *joined;
    let ending = Ending::new();
    let host = host(node, loaded, number);
    let last = LastConnection::new();
    let dial = HostDial::new(rt, host, heard, barrier, &last, &ending);
    let watching = Watching {
        patience: watcher(node, heard, barrier, &ending, Some(&last)),
        look,
    };
    let lines = FederateLines {
        number: usize::from(number),
        dial,
        terms,
    };
    run_federate(rt, alloc, shared, lines, watching, &NoGate, &ending)
}

// Whom the node connects, and where to: the federate of this number, to the node's address, with the key and the files
// that were read.
fn host(node: &NodeRequest<'_>, loaded: &Loaded, number: u16) -> FederateHost
    ensures { result ≡ record {
      address = node.now.address;
      key = loaded.now.key;
      files = loaded.now.files;
      federate = number;
    } }
{
    FederateHost {
        address: node.address,
        key: loaded.key,
        files: loaded.files,
        federate: number,
    }
}

// Why the run isn't finished: the coordinator speaks of another history, or the last attempt to connect was answered
// so. None where it is finished.
fn fault_by(
    shows_other_history: bool,
    gave_up: bool,
    last: Option<DialFault>,
) -> Option<HostFault<'static>>
    ensures { result ≡ definition.fault_by shows_other_history gave_up last }
{
    if shows_other_history {
        return Some(HostFault::OtherHistory);
    }
    match last {
        Some(DialFault::Finished) => None,
        Some(fault @ (DialFault::OtherFiles | DialFault::NoSuchFederate | DialFault::NotAllowed)) =>
            Some(HostFault::Refused(fault)),
        Some(DialFault::NotProved) => Some(HostFault::NotProved),
        Some(DialFault::NotConnected(_) | DialFault::NoRandom | DialFault::NoAnswer) | None => {
            Some(HostFault::NotFinished(unfinished_by(gave_up, last)))
        }
    }
}

// Why a federate ended that wasn't refused, whose last attempt to connect came to this.
fn unfinished_by(gave_up: bool, last: Option<DialFault>) -> Unfinished
    ensures { result ≡ definition.unfinished_by gave_up last }
{
    if gave_up {
        Unfinished::OutOfPatience(last)
    } else {
        Unfinished::Stopped(last)
    }
}
