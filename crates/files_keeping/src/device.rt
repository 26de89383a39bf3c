ghost use Rattle.std.specs.Prelude.{◌≡◌, ◌⊎◌, ◌≤◌, ℕ, Bool, true, false, List, [], ◌++◌, length, take, ⊤, IsTrue};
ghost use Rattle.std.specs.Prelude.{IfOk, IfErr, OnOk, OnErr};
ghost use Rattle.files_keeping.specs.Disk.{HasTail, IsCut, ComesOf, LeavesNoOther, LeavesJust, Passes};
ghost use Rattle.files_keeping.specs.Disk.{IsReady, Stands};
ghost use Rattle.files_keeping.specs.declared.standing.Standing.{Standing as Stand};
ghost use Rattle.files_keeping.specs.declared.keep_fault.KeepFault.TheVariants.{Taken, CannotLock, CannotRead};
ghost use Rattle.files_keeping.specs.declared.keep_fault.KeepFault.TheVariants.{CannotCut, CannotAppend, CannotSync};
ghost use Rattle.files_keeping.specs.declared.keep_fault.KeepFault.TheVariants.{CannotSyncFolder};

use crate::keep_fault::KeepFault;
use std::alloc::Global;

/// One file on a disk.
pub trait Device {
    /// Whether what the file holds is known, as in memory. Else nothing is said of its bytes.
    ghost is_known: { Bool } = { false };

    /// The bytes that a read gives.
    ghost seen: { Self → List ℕ } = { λ _. [] };

    /// The bytes that the last sync found, which succeeded.
    ghost synced: { Self → List ℕ } = { λ _. [] };

    /// The bytes that a machine may leave which stops at this moment.
    ghost leaves: { Self → List ℕ → Type 0 } = { λ _ _. ⊤ };

    /// What may be left of bytes that were appended, where the machine stops before they are synced.
    ghost tears: { List ℕ → List ℕ → Type 0 } = { λ _ _. ⊤ };

    /// The moment, as a number that doesn't fall.
    ghost moment: { Self → ℕ } = { λ _. 0 };

    /// The bytes that a machine may have left which stopped at some moment since that one, in a call or between two.
    ghost left: { Self → ℕ → List ℕ → Type 0 } = { λ _ _ _. ⊤ };

    /// How it stands.
    ghost standing: { Self → Stand };

    /// Whether a call has failed.
    fn has_failed(&self) -> bool
        ensures { result ≡ (standing self.now).has_failed };

    /// Locks the file, until this process ends: no other can.
    fn lock(&mut self) -> Result<(), KeepFault>
        requires { (standing self.old).has_failed ≡ false }
        ensures stands { Stands result (record (standing self.old) { is_locked = true }) (standing self.new) }
        ensures fault { IfErr result (λ fault. (fault ≡ Taken) ⊎ (fault ≡ CannotLock)) }
        ensures seen { IsTrue is_known → seen self.new ≡ seen self.old }
        ensures synced { IsTrue is_known → synced self.new ≡ synced self.old }
        ensures leaves { IsTrue is_known → LeavesNoOther (leaves self.old) (leaves self.new) }
        ensures time { IsTrue is_known
            → Passes (moment self.old) (moment self.new) (left self.old) (left self.new) (leaves self.new) };

    /// All bytes of the file.
    fn read(&mut self, alloc: Global) -> Result<Vec<u8>, KeepFault>
        requires { (standing self.old).has_failed ≡ false }
        ensures stands { Stands result (standing self.old) (standing self.new) }
        ensures fault { IfErr result (λ fault. fault ≡ CannotRead) }
        ensures read { IfOk result (λ bytes. IsTrue is_known → bytes.items ≡ seen self.old) }
        ensures seen { IsTrue is_known → seen self.new ≡ seen self.old }
        ensures synced { IsTrue is_known → synced self.new ≡ synced self.old }
        ensures leaves { IsTrue is_known → LeavesNoOther (leaves self.old) (leaves self.new) }
        ensures time { IsTrue is_known
            → Passes (moment self.old) (moment self.new) (left self.old) (left self.new) (leaves self.new) };

    /// Cuts the file to that many of its bytes, the first ones.
    fn cut(&mut self, len: usize) -> Result<(), KeepFault>
        requires ready { IsReady (standing self.old) }
        requires length { IsTrue is_known → len ≤ length (seen self.old) }
        ensures stands { Stands result (standing self.old) (standing self.new) }
        ensures fault { IfErr result (λ fault. fault ≡ CannotCut) }
        ensures seen { OnOk result (IsTrue is_known → seen self.new ≡ take len (seen self.old)) }
        ensures leaves { IsTrue is_known → ComesOf (IsCut len) (leaves self.old) (leaves self.new) }
        ensures time { IsTrue is_known
            → Passes (moment self.old) (moment self.new) (left self.old) (left self.new) (leaves self.new) };

    /// Writes these bytes at the end of the file. Where it fails, some of them may be there.
    fn append(&mut self, bytes: &[u8]) -> Result<(), KeepFault>
        requires { IsReady (standing self.old) }
        ensures stands { Stands result (standing self.old) (standing self.new) }
        ensures fault { IfErr result (λ fault. fault ≡ CannotAppend) }
        ensures seen { OnOk result (IsTrue is_known → seen self.new ≡ seen self.old ++ bytes.now) }
        ensures synced { IsTrue is_known → synced self.new ≡ synced self.old }
        ensures leaves { IsTrue is_known
            → ComesOf (λ was left. HasTail tears was bytes.now left) (leaves self.old) (leaves self.new) }
        ensures time { IsTrue is_known
            → Passes (moment self.old) (moment self.new) (left self.old) (left self.new) (leaves self.new) };

    /// The disk keeps the file's bytes and its length. Where it fails, nothing is known of what a read gives.
    fn sync(&mut self) -> Result<(), KeepFault>
        requires { IsReady (standing self.old) }
        ensures stands { Stands result (standing self.old) (standing self.new) }
        ensures fault { IfErr result (λ fault. fault ≡ CannotSync) }
        ensures seen { OnOk result (IsTrue is_known → seen self.new ≡ seen self.old) }
        ensures synced { OnOk result (IsTrue is_known → synced self.new ≡ seen self.old) }
        ensures not_synced { OnErr result (IsTrue is_known → synced self.new ≡ synced self.old) }
        ensures kept { OnOk result (IsTrue is_known → (standing self.old).is_named ≡ true
            → LeavesJust (seen self.old) (leaves self.new)) }
        ensures leaves { IsTrue is_known → LeavesNoOther (leaves self.old) (leaves self.new) }
        ensures time { IsTrue is_known
            → Passes (moment self.old) (moment self.new) (left self.old) (left self.new) (leaves self.new) };

    /// The disk keeps the file's name in its folder. Before it does, a machine that stops may leave no file, which is
    /// as one without bytes.
    fn sync_folder(&mut self) -> Result<(), KeepFault>
        requires { (standing self.old).has_failed ≡ false }
        ensures stands { Stands result (record (standing self.old) { is_named = true }) (standing self.new) }
        ensures fault { IfErr result (λ fault. fault ≡ CannotSyncFolder) }
        ensures seen { IsTrue is_known → seen self.new ≡ seen self.old }
        ensures synced { IsTrue is_known → synced self.new ≡ synced self.old }
        ensures leaves { IsTrue is_known → LeavesNoOther (leaves self.old) (leaves self.new) }
        ensures time { IsTrue is_known
            → Passes (moment self.old) (moment self.new) (left self.old) (left self.new) (leaves self.new) };

    /// This moment is one of those since an earlier one.
    ghost now_counts: { (device : Self) (t : ℕ) (bytes : List ℕ) → IsTrue is_known → t ≤ moment device
        → leaves device bytes → left device t bytes };

    /// Nothing may be left of what was appended.
    ghost none_is_left: { (bytes : List ℕ) → tears bytes [] };

    /// Since this moment there was no other.
    ghost now_alone: { (device : Self) (bytes : List ℕ) → IsTrue is_known → left device (moment device) bytes
        → leaves device bytes };
}
