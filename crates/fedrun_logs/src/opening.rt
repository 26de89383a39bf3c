//! A node's log as the node begins: what it says, and the file, ready for more.
ghost use Rattle.std.specs.Prelude.{◌≡◌, ◌⊎◌, ◌≤◌, [], false, length, take, IsTrue, IfOk, IfErr, OnOk};
ghost use Rattle.files_keeping.specs.Disk.{IsReady};
ghost use Rattle.files_keeping.specs.Log.{IsOpen};
ghost use Rattle.files_logs.specs.Log.{head_bytes, head_sum, IsHead};
ghost use Rattle.files_logs.specs.Reading.{IsWholeLog};
ghost use Rattle.fedrun_logs.specs.declared.not_kept.NotKept.TheVariants as Faults;
ghost use Rattle.fedrun_logs.specs.Files.{IsBegun};
ghost use Rattle.fedrun_logs.specs.Faults.{IsNotBegun, IsOfDisk};

use crate::log_file::LogFile;
use crate::not_kept::NotKept;
use files_keeping::{Device, KeptLog, append_synced, settle};
use files_logs::layout::HEAD_SIZE;
use files_logs::{Log, LogFault, LogHead, read_log, write_head};
use node_journal::Journal;
use std::alloc::Global;

/// A log that a node goes on from, or begins.
#[derive(Drop)]
pub struct OpenedLog<D: Device + Drop> {
    /// All events in it, oldest first.
    pub journal: Journal,
    /// It says that the run is finished: the node had heard so, or said so to all others.
    pub is_told: bool,
    /// The node ended: nothing may be appended.
    pub is_ended: bool,
    pub file: LogFile<D>,
}

/// The log with this head in a file that was locked and has these bytes. A torn tail is cut off. A file that has no more
/// bytes than a head, and no head, is begun anew: its head is kept before anything else is.
pub fn begin_log<D: Device + Drop>(
    alloc: Global,
    device: D,
    bytes: &[u8],
    head: &LogHead,
) -> Result<OpenedLog<D>, NotKept>
    requires ready { IsReady (D.standing device) }
    requires bytes { IsTrue D.is_known → bytes.now ≡ D.seen device }
    ensures begun { IfOk result (λ opened.
        IsBegun head.now bytes.now opened.journal opened.is_told opened.is_ended) }
    ensures whole { IfOk result (λ opened. IsTrue D.is_known
        → IsWholeLog head.now (D.synced opened.file.log.device) opened.file.sum
        opened.journal opened.is_told opened.is_ended) }
    ensures events { IfOk result (λ opened. opened.file.events ≡ length opened.journal) }
    ensures fault { IfErr result (IsNotBegun head.now bytes.now) }
{
    let mut device = device;
    let log = settle_log(alloc, &mut device, bytes, head)?;
    Ok(opened(device, log))
}

// A log in a file that is settled.
fn opened<D: Device + Drop>(device: D, log: Log) -> OpenedLog<D>
    requires open { IsOpen D.is_known D.seen D.synced D.leaves D.standing device }
    requires whole { IsTrue D.is_known → log.whole ≡ length (D.synced device) }
    ensures journal { result.journal ≡ log.journal }
    ensures told { result.is_told ≡ log.is_told }
    ensures ended { result.is_ended ≡ log.is_ended }
    ensures device { result.file.log.device ≡ device }
    ensures sum { result.file.sum ≡ log.sum }
    ensures events { result.file.events ≡ length log.journal }
{
    let Log {
        journal,
        is_told,
        is_ended,
        whole,
        sum,
        ..
    } = log;
    let events = journal.len();
    OpenedLog {
        journal,
        is_told,
        is_ended,
        file: LogFile::new(KeptLog::new(device, whole), events, sum),
    }
}

/// As `begin_log`; the file stays with the caller. What the disk keeps of it then. Unless the disk fails, an error
/// leaves the file as it is.
pub fn settle_log<D: Device>(
    alloc: Global,
    device: &mut D,
    bytes: &[u8],
    head: &LogHead,
) -> Result<Log, NotKept>
    requires ready { IsReady (D.standing device.old) }
    requires bytes { IsTrue D.is_known → bytes.now ≡ D.seen device.old }
    ensures open { OnOk result (IsOpen D.is_known D.seen D.synced D.leaves D.standing device.new) }
    ensures length { IfOk result (λ log. IsTrue D.is_known → log.whole ≡ length (D.synced device.new)) }
    ensures begun { IfOk result (λ log. IsBegun head.now bytes.now log.journal log.is_told log.is_ended) }
    ensures whole { IfOk result (λ log. IsTrue D.is_known
        → IsWholeLog head.now (D.synced device.new) log.sum log.journal log.is_told log.is_ended) }
    ensures fault { IfErr result (IsNotBegun head.now bytes.now) }
    ensures stays { IfErr result (λ fault. IsOfDisk fault ⊎ (device.new ≡ device.old)) }
{
    match read_log(alloc, &head.files, Some(head.who), head.rules, bytes) {
        Ok(log) => go_on(device, log),
        Err(LogFault::NoLog) if bytes.len() <= HEAD_SIZE => begin(alloc, device, head),
        Err(LogFault::Memory) => Err(NotKept::Memory),
        Err(fault) => Err(NotKept::Log(fault)),
    }
}

// A log that was begun before: what is behind its whole blocks is cut off, and the disk keeps the rest, and its name.
fn go_on<D: Device>(device: &mut D, log: Log) -> Result<Log, NotKept>
    requires ready { IsReady (D.standing device.old) }
    requires whole { IsTrue D.is_known → log.whole ≤ length (D.seen device.old) }
    ensures open { OnOk result (IsOpen D.is_known D.seen D.synced D.leaves D.standing device.new) }
    ensures kept { OnOk result (IsTrue D.is_known → D.synced device.new ≡ take log.whole (D.seen device.old)) }
    ensures length { OnOk result (IsTrue D.is_known → log.whole ≡ length (D.synced device.new)) }
    ensures same { IfOk result (λ found. found ≡ log) }
    ensures fault { IfErr result IsOfDisk }
{
    settle(device, log.whole)?;
    Ok(log)
}

// A log that begins: the disk keeps its name and its head.
fn begin<D: Device>(alloc: Global, device: &mut D, head: &LogHead) -> Result<Log, NotKept>
    requires { IsReady (D.standing device.old) }
    ensures open { OnOk result (IsOpen D.is_known D.seen D.synced D.leaves D.standing device.new) }
    ensures is_head { OnOk result (IsHead head.now) }
    ensures kept { OnOk result (IsTrue D.is_known → D.synced device.new ≡ head_bytes head.now) }
    ensures log { IfOk result (λ log. log ≡ record {
      who = head.now.who;
      journal = [];
      is_told = false;
      is_ended = false;
      whole = length (head_bytes head.now);
      sum = head_sum head.now;
    }) }
    ensures fault { IfErr result (λ fault. IsOfDisk fault ⊎ ((fault ≡ Faults.Memory) × (device.new ≡ device.old))) }
{
    let written = write_head(alloc, head)?;
    settle(device, 0)?;
    append_synced(device, written.bytes.as_slice())?;
    Ok(Log {
        who: head.who,
        journal: Journal::new(alloc),
        is_told: false,
        is_ended: false,
        whole: written.bytes.len(),
        sum: written.sum,
    })
}
