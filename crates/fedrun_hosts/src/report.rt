ghost use Rattle.std.specs.Prelude.{◌≡◌, ◌≢◌, ℕ, List, IfOk, OnOk, string_bytes};
ghost use Rattle.files_saving.specs.Contents.{KnownOf};
ghost use Rattle.files_saving.specs.Saved.{IsReserved, IsSaved};
ghost use Rattle.files_reports.specs.Said.{said_in};
ghost use Rattle.files_reports.specs.File.{IsReportOf};
ghost use Rattle.fedrun_hosts.specs.Note as definition;

use crate::fault::HostFault;
use crate::locked::{LockedFile, lock_file};
use fedrun_logs::LogDisk;
use fedrun_words::Fault;
use files_keeping::{Device, KeptBy};
use files_reports::{FileDigests, NodeReport, write_report};
use files_saving::{Disk, ReserveFault, reserve, save, temporary_name};
use std::alloc::Global;

/// The name of a report that is reserved, by a temporary file that this process has.
#[derive(Drop)]
pub(crate) struct Reserved<V: Device + Drop> {
    pub temporary: String,
    /// It is locked as long as this is there.
    pub file: LockedFile<V>,
}

/// Reserves the name of a report before anything is begun, by a temporary file. Whoever begins with the same name is
/// refused from then on, with a log or without, until that file is removed: while this process runs, since the file is
/// locked; and then, since it says what it is there for, which is no log.
#[tactic(auto, using(files_saving::proofs::Reserved::written_where_reserved))]
pub(crate) fn reserve_report<'a, D: Disk, L: LogDisk<V>, V: Device + Drop>(
    alloc: Global,
    name: &'a str,
    disk: &mut D,
    logs: &mut L,
) -> Result<Reserved<V>, Fault<'a, HostFault<'a>>>
    ensures reserved { IfOk result
        (λ reserved. KnownOf (D.contents disk.old) (D.contents disk.new)
        (IsReserved (string_bytes reserved.temporary) name.entry.now definition.note)) }
    ensures other { IfOk result (λ reserved. string_bytes reserved.temporary ≢ name.entry.now) }
{
    let Ok(temporary) = temporary_name(alloc, name) else {
        return Err(Fault::More(HostFault::Memory(desk::Memory)));
    };
    match reserve(disk, temporary.as_str(), name) {
        Ok(()) => {}
        Err(why) => return Err(Fault::More(unreserved(name, why))),
    }
    let file = match lock_file(alloc, temporary.as_str(), name, KeptBy::System, logs) {
        Ok(file) if file.bytes.is_empty() => file,
        // A node with a log has begun in it meanwhile.
        Ok(_) => return Err(Fault::More(HostFault::PartExists(name))),
        Err(why) => return Err(Fault::More(why)),
    };
    match disk.write(temporary.as_str(), note().as_bytes()) {
        Ok(()) => Ok(Reserved { temporary, file }),
        Err(why) => {
            disk.remove(temporary.as_str());
            Err(Fault::More(HostFault::Unsaved(name, why)))
        }
    }
}

// Why a report's name isn't reserved, as the fault that is printed.
fn unreserved<'a>(name: &'a str, why: ReserveFault) -> HostFault<'a> {
    match why {
        ReserveFault::NameTaken => HostFault::ReportExists(name),
        ReserveFault::TemporaryTaken => HostFault::PartExists(name),
        ReserveFault::Failed(why) => HostFault::Unsaved(name, why),
    }
}

// What the temporary file says until the report is written. These are more bytes than a log's head has, so that no log
// begins there.
fn note() -> &'static str
    ensures { result.now ≡ definition.note }
{
    "This name is kept for the report of a node without a log (--sync no). Where none runs, remove this file.\n"
}

/// Saves the report of a run of these files under this name, which was reserved by this temporary one.
pub(crate) fn save_report<'a, D: Disk>(
    alloc: Global,
    digests: &FileDigests,
    report: &NodeReport,
    temporary: &str,
    name: &'a str,
    disk: &mut D,
) -> Result<(), Fault<'a, HostFault<'a>>>
    requires { temporary.now ≢ name.now }
    ensures saved { OnOk result ((bytes : List ℕ) × IsReportOf digests.now (said_in report.now) bytes
        × KnownOf (D.contents disk.old) (D.contents disk.new) (IsSaved temporary.now name.entry.now bytes)) }
{
    let bytes = match write_report(alloc, digests, report) {
        Ok(bytes) => bytes,
        Err(why) => return Err(Fault::More(HostFault::Unwritten(why))),
    };
    match save(disk, temporary, name, bytes.as_slice()) {
        Ok(()) => Ok(()),
        Err(why) => Err(Fault::More(HostFault::Unsaved(name, why))),
    }
}
