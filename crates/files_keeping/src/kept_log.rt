ghost use Rattle.std.specs.Prelude.{◌≡◌, ◌⊎◌, true, false, ℕ, List, ◌++◌, length, IsTrue, IfOk, IfErr, OnOk};
ghost use Rattle.std.specs.Prelude.{OnErr};
ghost use Rattle.files_keeping.specs.Disk.{IsFrontOf, HasTail, LeavesOnly, LeavesJust};
ghost use Rattle.files_keeping.specs.Log.{IsOpen, count_of};
ghost use Rattle.files_keeping.specs.declared.keep_fault.KeepFault.TheVariants.{FailedBefore, CannotAppend};
ghost use Rattle.files_keeping.specs.declared.keep_fault.KeepFault.TheVariants.{CannotRead, CannotSync};

use crate::device::Device;
use crate::keep_fault::KeepFault;
use std::alloc::Global;
use std::marker::Model;

/// A log that a disk keeps, block by block.
#[derive(Drop)]
pub struct KeptLog<D: Device> {
    device: D,
    kept: u64,
}

impl<D: Device> Model for KeptLog<D> {
    ghost use Rattle.files_keeping.specs.Log as log;

    ghost Value = { log.Log D };

    ghost view = { λ l. record { device = l.device; kept = l.kept } };

    ghost invariant = { λ l. log.IsKept D.is_known D.seen D.synced D.leaves D.standing
        (record { device = l.device; kept = l.kept }) };
}

impl<D: Device> KeptLog<D> {
    /// A log in a file that is settled, and has that many bytes.
    pub fn new(device: D, whole: usize) -> KeptLog<D>
        requires open { IsOpen D.is_known D.seen D.synced D.leaves D.standing device }
        requires length { IsTrue D.is_known → whole ≡ length (D.synced device) }
        ensures { result ≡ record { device = device; kept = whole } }
    {
        KeptLog {
            device,
            kept: whole as u64,
        }
    }

    /// How many bytes are kept, whatever happens to the machine.
    pub fn kept(&self) -> u64
        ensures kept { result ≡ self.now.kept }
        ensures count { IsTrue D.is_known → result ≡ count_of (D.synced self.now.device) }
    {
        self.kept
    }

    /// Appends these bytes. With Ok the disk keeps them.
    pub fn keep(&mut self, bytes: &[u8]) -> Result<(), KeepFault>
        ensures kept { OnOk result (IsTrue D.is_known
            → D.synced self.new.device ≡ D.synced self.old.device ++ bytes.now) }
        ensures not_kept { OnErr result (IsTrue D.is_known
            → D.synced self.new.device ≡ D.synced self.old.device) }
        ensures open { OnOk result (IsOpen D.is_known D.seen D.synced D.leaves D.standing self.new.device) }
        ensures no_more { OnErr result ((D.standing self.new.device).has_failed ≡ true) }
        ensures fault { IfErr result (λ fault. (fault ≡ FailedBefore) ⊎ (fault ≡ CannotAppend) ⊎ (fault ≡ CannotSync)) }
        ensures failed_before { (D.standing self.old.device).has_failed ≡ true
            → (result ≡ Err FailedBefore) × (self.new ≡ self.old) }
        ensures any_moment { IsTrue D.is_known → (D.standing self.old.device).has_failed ≡ false
            → LeavesOnly D.moment D.left self.old.device self.new.device
            (λ left. HasTail D.tears (D.synced self.old.device) bytes.now left) }
    {
        if self.device.has_failed() {
            return Err(KeepFault::FailedBefore);
        }
        append_synced(&mut self.device, bytes)?;
        self.kept = self.kept.saturating_add(bytes.len() as u64);
        Ok(())
    }

    /// All bytes of the file: those that are kept.
    pub fn read(&mut self, alloc: Global) -> Result<Vec<u8>, KeepFault>
        ensures read { IfOk result (λ bytes. IsTrue D.is_known → bytes.items ≡ D.synced self.old.device) }
        ensures same { IsTrue D.is_known → D.synced self.new.device ≡ D.synced self.old.device }
        ensures kept { self.new.kept ≡ self.old.kept }
        ensures open { OnOk result (IsOpen D.is_known D.seen D.synced D.leaves D.standing self.new.device) }
        ensures no_more { OnErr result ((D.standing self.new.device).has_failed ≡ true) }
        ensures fault { IfErr result (λ fault. (fault ≡ FailedBefore) ⊎ (fault ≡ CannotRead)) }
        ensures failed_before { (D.standing self.old.device).has_failed ≡ true
            → (result ≡ Err FailedBefore) × (self.new ≡ self.old) }
        ensures any_moment { IsTrue D.is_known → (D.standing self.old.device).has_failed ≡ false
            → LeavesOnly D.moment D.left self.old.device self.new.device (λ left. left ≡ D.synced self.old.device) }
    {
        if self.device.has_failed() {
            return Err(KeepFault::FailedBefore);
        }
        Ok(self.device.read(alloc)?)
    }

    /// The device, on which nothing more is kept.
    pub fn into_device(self) -> D
        ensures { result ≡ self.device }
    {
        self.device
    }

    /// For the prover: what each log keeps.
    pub fn invariant(&self)
        ensures front { IsTrue D.is_known → (left : List ℕ) → D.leaves self.now.device left
            → IsFrontOf (D.synced self.now.device) left }
        ensures open { (D.standing self.now.device).has_failed ≡ false
            → IsOpen D.is_known D.seen D.synced D.leaves D.standing self.now.device }
    {
        let _ = &self.device;
    }
}

/// Appends these bytes to a file, and has the disk keep them.
pub fn append_synced<D: Device>(device: &mut D, bytes: &[u8]) -> Result<(), KeepFault>
    requires { IsOpen D.is_known D.seen D.synced D.leaves D.standing device.old }
    ensures kept { OnOk result (IsTrue D.is_known → D.synced device.new ≡ D.synced device.old ++ bytes.now) }
    ensures not_kept { OnErr result (IsTrue D.is_known → D.synced device.new ≡ D.synced device.old) }
    ensures open { OnOk result (IsOpen D.is_known D.seen D.synced D.leaves D.standing device.new) }
    ensures no_more { OnErr result ((D.standing device.new).has_failed ≡ true) }
    ensures fault { IfErr result (λ fault. (fault ≡ CannotAppend) ⊎ (fault ≡ CannotSync)) }
    ensures any_moment { IsTrue D.is_known → LeavesOnly D.moment D.left device.old device.new
        (λ left. HasTail D.tears (D.synced device.old) bytes.now left) }
{
    device.append(bytes)?;
    device.sync()?;
    Ok(())
}
