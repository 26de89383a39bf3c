ghost use Rattle.std.specs.Prelude.{◌≡◌, ℕ, List, false, ⊤, IfOk, IfErr};
ghost use Rattle.files_keeping.specs.declared.keep_fault.KeepFault.TheVariants.{CannotOpen};

use files_keeping::{Device, KeepFault, KeptBy, MachineDevice};
use std::fs::File;
use std::rt;

/// Files by name, in which logs are kept.
pub trait LogDisk<D: Device + Drop> {
    /// Whether the file of this name holds these bytes; a file that isn't there holds none. Where that isn't known, it
    /// may hold any.
    ghost holds: { Self → List ℕ → List ℕ → Type 0 } = { λ _ _ _. ⊤ };

    /// The file of this name, which is made where there is none. It may be another's: it is locked before it is read.
    fn open(&mut self, name: &str, kept_by: KeptBy) -> Result<D, KeepFault>
        ensures fresh { IfOk result (λ device. (D.standing device).has_failed ≡ false) }
        ensures fault { IfErr result (λ fault. fault ≡ CannotOpen) }
        ensures seen { IfOk result (λ device. holds self.old name.now (D.seen device)) }
        ensures same { (of bytes : List ℕ) → holds self.new of bytes → holds self.old of bytes };
}

/// The machine's files.
#[derive(Drop)]
pub struct MachineLogs<'a, R: rt::Files<File = File>> {
    rt: &'a R,
}

impl<'a, R: rt::Files<File = File>> MachineLogs<'a, R> {
    pub fn new(rt: &'a R) -> MachineLogs<'a, R>
        ensures { result.rt ≡ rt.entry }
    {
        MachineLogs { rt }
    }
}

impl<R: rt::Files<File = File>> LogDisk<MachineDevice> for MachineLogs<'_, R> {
    fn open(&mut self, name: &str, kept_by: KeptBy) -> Result<MachineDevice, KeepFault> {
        MachineDevice::open(self.rt, name, kept_by)
    }
}
