//! The temporary file of a report, which one process has at a time, whether it keeps a log or not.
ghost use Rattle.std.specs.Prelude.{◌≡◌, ℕ, List, IsTrue, IfOk};
ghost use Rattle.files_keeping.specs.Disk.{IsReady};

use crate::fault::HostFault;
use fedrun_logs::LogDisk;
use files_keeping::{Device, KeepFault, KeptBy, read_locked};
use std::alloc::Global;

/// A file that no other process has while this one has it, and its bytes.
#[derive(Drop)]
pub(crate) struct LockedFile<V: Device + Drop> {
    pub device: V,
    pub bytes: Vec<u8>,
}

/// Locks the temporary file of this report, which is made where there is none.
pub(crate) fn lock_file<'a, L: LogDisk<V>, V: Device + Drop>(
    alloc: Global,
    temporary: &str,
    report: &'a str,
    kept_by: KeptBy,
    logs: &mut L,
) -> Result<LockedFile<V>, HostFault<'a>>
    ensures ready { IfOk result (λ file. IsReady (V.standing file.device)) }
    ensures bytes { IfOk result (λ file. IsTrue V.is_known → file.bytes.items ≡ V.seen file.device) }
    ensures held { IfOk result (λ file. IsTrue V.is_known → L.holds logs.old temporary.now file.bytes.items) }
    ensures same { (of bytes : List ℕ) → L.holds logs.new of bytes → L.holds logs.old of bytes }
{
    let mut device = match logs.open(temporary, kept_by) {
        Ok(device) => device,
        Err(why) => return Err(HostFault::Unkept(report, why)),
    };
    match read_locked(alloc, &mut device) {
        Ok(bytes) => Ok(LockedFile { device, bytes }),
        Err(KeepFault::Taken) => Err(HostFault::PartExists(report)),
        Err(why) => Err(HostFault::Unkept(report, why)),
    }
}
