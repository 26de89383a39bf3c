ghost use Rattle.std.specs.Prelude.{◌≡◌, ◌⊎◌, ◌≤◌, true, false, ℕ, List, length, take, IsTrue, IfOk, IfErr};
ghost use Rattle.std.specs.Prelude.{OnOk, OnErr};
ghost use Rattle.files_keeping.specs.Disk.{IsCut, IsReady, LeavesOnly, Stands};
ghost use Rattle.files_keeping.specs.Log.{IsOpen};
ghost use Rattle.files_keeping.specs.declared.keep_fault.KeepFault.TheVariants.{Taken, CannotLock, CannotRead};
ghost use Rattle.files_keeping.specs.declared.keep_fault.KeepFault.TheVariants.{CannotSyncFolder, CannotCut};
ghost use Rattle.files_keeping.specs.declared.keep_fault.KeepFault.TheVariants.{CannotSync};

use crate::device::Device;
use crate::keep_fault::KeepFault;
use std::alloc::Global;

/// Locks a file and reads it.
pub fn read_locked<D: Device>(alloc: Global, device: &mut D) -> Result<Vec<u8>, KeepFault>
    requires { (D.standing device.old).has_failed ≡ false }
    ensures stands { Stands result (record (D.standing device.old) { is_locked = true }) (D.standing device.new) }
    ensures fault { IfErr result (λ fault. (fault ≡ Taken) ⊎ (fault ≡ CannotLock) ⊎ (fault ≡ CannotRead)) }
    ensures read { IfOk result (λ bytes. IsTrue D.is_known → bytes.items ≡ D.seen device.old) }
    ensures seen { IsTrue D.is_known → D.seen device.new ≡ D.seen device.old }
    ensures synced { IsTrue D.is_known → D.synced device.new ≡ D.synced device.old }
    ensures any_moment { IsTrue D.is_known
        → LeavesOnly D.moment D.left device.old device.new (D.leaves device.old) }
{
    device.lock()?;
    Ok(device.read(alloc)?)
}

/// Cuts a file to its first bytes and has the disk keep them, and the file's name in its folder.
pub fn settle<D: Device>(device: &mut D, whole: usize) -> Result<(), KeepFault>
    requires ready { IsReady (D.standing device.old) }
    requires length { IsTrue D.is_known → whole ≤ length (D.seen device.old) }
    ensures open { OnOk result (IsOpen D.is_known D.seen D.synced D.leaves D.standing device.new) }
    ensures kept { OnOk result (IsTrue D.is_known → D.synced device.new ≡ take whole (D.seen device.old)) }
    ensures length { OnOk result (IsTrue D.is_known → length (D.synced device.new) ≡ whole) }
    ensures no_more { OnErr result ((D.standing device.new).has_failed ≡ true) }
    ensures fault { IfErr result (λ fault. (fault ≡ CannotSyncFolder) ⊎ (fault ≡ CannotCut) ⊎ (fault ≡ CannotSync)) }
    ensures any_moment { IsTrue D.is_known → LeavesOnly D.moment D.left device.old device.new
        (λ left. (was : List ℕ) × D.leaves device.old was × IsCut whole was left) }
{
    device.sync_folder()?;
    device.cut(whole)?;
    device.sync()?;
    Ok(())
}
