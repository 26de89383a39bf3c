//! A node that keeps a log: how it begins from it, and how the log gets the report's name.
ghost use Rattle.std.specs.Prelude.{◌≡◌, ◌⊎◌, ◌↔◌, ℕ, List, IsTrue, IfSome, IfOk, OnOk};
ghost use Rattle.files_saving.specs.Contents.{KnownOf, SameBut};
ghost use Rattle.files_saving.specs.Saved.{IsRenamed, temporary_name};
ghost use Rattle.fedrun_words.specs.declared.fault.Fault.TheVariants.{More as of_host};
ghost use Rattle.fedrun_hosts.specs.EndedLogs as definition;
ghost use Rattle.fedrun_hosts.specs.EndedLogs.{IsEndedLog, EndsFile, IsSpare, Begins};
ghost use Rattle.fedrun_hosts.specs.Faults.{fault_of_log};

use crate::fault::HostFault;
use crate::loaded::Loaded;
use crate::locked::{LockedFile, lock_file};
use crate::request::NodeRequest;
use fedrun_logs::{LogDisk, LogFile, NotKept, OpenedLog, begin_log};
use fedrun_reports::RULES;
use fedrun_words::Fault;
use files_keeping::{Device, KeptBy};
use files_logs::{Log, LogFault, LogHead, read_log};
use files_saving::{Disk, SaveFault, temporary_name};
use std::alloc::Global;

/// How a node begins that keeps a log.
#[derive(Drop)]
pub(crate) enum Begun<D: Device + Drop> {
    /// It was finished before, and its log has the report's name.
    Finished(Log),
    /// It goes on from its log, or begins it.
    GoesOn(OpenedLog<D>),
}

/// The head of a node's log: of the files that were read, of this node, by the rules of this program.
pub(crate) fn head_of(loaded: &Loaded, who: u16) -> LogHead
    ensures { result ≡ definition.head_of loaded.now.digests who }
{
    LogHead {
        files: loaded.digests,
        who,
        rules: RULES,
    }
}

/// A log that has its end, and all bytes of its file.
#[derive(Drop)]
struct EndedLog {
    log: Log,
    bytes: Vec<u8>,
}

/// Opens a node's log, which stands beside the report's name and gets that name at its end. Nobody else has it then.
pub(crate) fn begin<'a, D: Disk, L: LogDisk<V>, V: Device + Drop>(
    alloc: Global,
    node: &NodeRequest<'a>,
    kept_by: KeptBy,
    head: &LogHead,
    disk: &mut D,
    logs: &mut L,
) -> Result<Begun<V>, Fault<'a, HostFault<'a>>>
    ensures { IfOk result (Begins V.is_known (L.holds logs.old) V.synced head.now node.now.report.now
        (D.contents disk.old) (D.contents disk.new)) }
{
    let Ok(temporary) = temporary_name(alloc, node.report) else {
        return Err(Fault::More(HostFault::Memory(desk::Memory)));
    };
    let LockedFile { device, bytes } = match lock_file(
        alloc,
        temporary.as_str(),
        node.report,
        kept_by,
        logs,
    ) {
        Ok(file) => file,
        Err(why) => return Err(Fault::More(why)),
    };
    // It is looked for the name once the log is locked: whoever had it before has the name by now.
    match disk.exists(node.report) {
        Ok(false) => match begin_log(alloc, device, bytes.as_slice(), head) {
            Ok(opened) => Ok(Begun::GoesOn(opened)),
            Err(why) => Err(fault_of(node.report, why)),
        },
        Ok(true) => {
            let part = temporary.as_str();
            let beside = bytes.as_slice();
            match only_name(alloc, node, part, beside, kept_by, head, disk, logs) {
                Ok(log) => Ok(Begun::Finished(log)),
                Err(fault) => Err(fault),
            }
        }
        Err(why) => Err(Fault::More(HostFault::Unsaved(node.report, why))),
    }
}

// The log of a node whose report's name is there, where that file is its log, and was finished. The file beside it,
// which has these bytes, is removed where it is of no use.
fn only_name<'a, D: Disk, L: LogDisk<V>, V: Device + Drop>(
    alloc: Global,
    node: &NodeRequest<'a>,
    temporary: &str,
    beside: &[u8],
    kept_by: KeptBy,
    head: &LogHead,
    disk: &mut D,
    logs: &mut L,
) -> Result<Log, Fault<'a, HostFault<'a>>>
    ensures ended { IfOk result (λ log. (bytes : List ℕ)
        × (IsTrue V.is_known → L.holds logs.old node.now.report.now bytes) × IsEndedLog head.now bytes log
        × (IsSpare beside.now bytes ⊎ (D.contents disk.new ≡ D.contents disk.old))) }
    ensures others { KnownOf (D.contents disk.old) (D.contents disk.new) (SameBut temporary.now) }
{
    match finished_log(alloc, node.report, kept_by, head, logs) {
        Some(EndedLog { log, bytes }) => {
            remove_spare(temporary, beside, bytes.as_slice(), disk);
            Ok(log)
        }
        None => {
            remove_spare(temporary, beside, b"", disk);
            Err(Fault::More(HostFault::ReportExists(node.report)))
        }
    }
}

// Removes a file that has these bytes, beside another one, where it is of no use: no log was begun in it, or it has the
// bytes of the other one, so that it is a second name of that, or a copy. Any other is somebody's.
fn remove_spare<D: Disk>(temporary: &str, beside: &[u8], bytes: &[u8], disk: &mut D)
    ensures spare { IsSpare beside.now bytes.now ⊎ (D.contents disk.new ≡ D.contents disk.old) }
    ensures others { KnownOf (D.contents disk.old) (D.contents disk.new) (SameBut temporary.now) }
{
    if is_spare(beside, bytes) {
        disk.remove(temporary);
    }
}

// Whether a file with the first bytes is of no use beside one that has the others.
fn is_spare(beside: &[u8], bytes: &[u8]) -> bool
    ensures { IsTrue result ↔ IsSpare beside.now bytes.now }
{
    beside.is_empty() || beside == bytes
}

// The log under the report's name, where it is this node's, and was finished.
fn finished_log<L: LogDisk<V>, V: Device + Drop>(
    alloc: Global,
    name: &str,
    kept_by: KeptBy,
    head: &LogHead,
    logs: &mut L,
) -> Option<EndedLog>
    ensures held { IfSome result (λ ended. IsTrue V.is_known → L.holds logs.old name.now ended.bytes.items) }
    ensures ended { IfSome result (λ ended. IsEndedLog head.now ended.bytes.items ended.log) }
{
    let mut device = logs.open(name, kept_by).ok()?;
    let bytes = device.read(alloc).ok()?;
    let log = ended_log(alloc, head, bytes.as_slice())?;
    Some(EndedLog { log, bytes })
}

// What these bytes say, where they are a log of this head that has its end, and of which it was known that the run is
// finished.
fn ended_log(alloc: Global, head: &LogHead, bytes: &[u8]) -> Option<Log>
    ensures { IfSome result (IsEndedLog head.now bytes.now) }
{
    match read_log(alloc, &head.files, Some(head.who), head.rules, bytes) {
        Ok(log) if log.is_ended && log.is_told => Some(log),
        _ => None,
    }
}

/// Ends a node's log, unless it has its end, and gives it the report's name. What it says then. Where it can't get the
/// name, it stands whole beside it.
pub(crate) fn finish<'a, D: Disk, V: Device + Drop>(
    alloc: Global,
    node: &NodeRequest<'a>,
    head: &LogHead,
    file: LogFile<V>,
    is_ended: bool,
    disk: &mut D,
) -> Result<Log, Fault<'a, HostFault<'a>>>
    ensures ended { IfOk result (EndsFile V.is_known head.now is_ended file.sum (V.synced file.log.device)) }
    ensures named { OnOk result (KnownOf (D.contents disk.old) (D.contents disk.new)
        (IsRenamed (temporary_name node.now.report.now) node.now.report.now)) }
{
    let mut file = file;
    let ended = if is_ended {
        file.bytes(alloc)
    } else {
        file.end(alloc)
    };
    let bytes = match ended {
        Ok(bytes) => bytes,
        Err(why) => return Err(fault_of(node.report, why)),
    };
    let Some(log) = ended_log(alloc, head, bytes.as_slice()) else {
        return Err(Fault::More(HostFault::Damaged(node.report)));
    };
    match name_log(alloc, node.report, disk) {
        Ok(()) => Ok(log),
        Err(why) => Err(Fault::More(HostFault::Unsaved(node.report, why))),
    }
}

// Gives a log the report's name.
fn name_log<D: Disk>(alloc: Global, name: &str, disk: &mut D) -> Result<(), SaveFault>
    ensures { OnOk result (KnownOf (D.contents disk.old) (D.contents disk.new)
        (IsRenamed (temporary_name name.now) name.now)) }
{
    let Ok(temporary) = temporary_name(alloc, name) else {
        return Err(SaveFault::CannotRename);
    };
    disk.rename(temporary.as_str(), name)
}

/// Why a node's log isn't opened or takes nothing more, as the fault that is printed.
pub(crate) fn fault_of<'a>(name: &'a str, why: NotKept) -> Fault<'a, HostFault<'a>>
    ensures { result ≡ of_host (fault_of_log name.entry why) }
{
    Fault::More(match why {
        NotKept::Disk(why) => HostFault::Unkept(name, why),
        NotKept::Log(LogFault::OtherFiles | LogFault::OtherNode | LogFault::OtherLog) => {
            HostFault::OtherLog(name)
        }
        NotKept::Log(LogFault::NoLog) => HostFault::PartExists(name),
        NotKept::Log(LogFault::Damaged | LogFault::Content(_) | LogFault::CutShort) => {
            HostFault::Damaged(name)
        }
        NotKept::Log(LogFault::Memory) | NotKept::TooLong | NotKept::Memory => {
            HostFault::Memory(desk::Memory)
        }
    })
}
