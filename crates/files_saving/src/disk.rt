ghost use Rattle.std.specs.Prelude.{◌≡◌, ◌≢◌, ◌↔◌, ℕ, List, [], Option, None, false, IsTrue, IsSome, IfOk, IfErr};
ghost use Rattle.std.specs.Prelude.{IfSome, OnOk, OnErr};
ghost use Rattle.files_saving.specs.Contents.{KnownOf, SameBut};
ghost use Rattle.files_saving.specs.Saved.{IsCreated, IsWritten, IsRenamed};
ghost use Rattle.files_saving.specs.Fault.{is_of_writing};
ghost use Rattle.files_saving.specs.declared.save_fault.SaveFault.TheVariants.{Exists as exists_already, CannotLook};
ghost use Rattle.files_saving.specs.declared.save_fault.SaveFault.TheVariants.{CannotCreate, CannotWrite};
ghost use Rattle.files_saving.specs.declared.save_fault.SaveFault.TheVariants.{CannotRename};

use crate::save_fault::SaveFault;

/// Files by name, as `reserve` and `save` need them.
pub trait Disk {
    ghost use Rattle.files_saving.specs.Contents.{Contents};

    // What each file holds, where that is known.
    ghost contents: { Self → Option Contents } = { λ _. None };

    /// Whether there is something of this name.
    fn exists(&mut self, name: &str) -> Result<bool, SaveFault>
        ensures there { IfOk result (λ there.
            IfSome (contents self.old) (λ files. IsTrue there ↔ IsSome (files name.now))) }
        ensures fault { IfErr result (λ fault. fault ≡ CannotLook) }
        ensures same { contents self.new ≡ contents self.old };

    /// Makes a file of this name, without any bytes, which the disk keeps then. Where it fails, nothing has changed, but
    /// where the disk doesn't say that it keeps the file: that one is removed, if that can be done.
    fn create(&mut self, name: &str) -> Result<(), SaveFault>
        ensures created { OnOk result (KnownOf (contents self.old) (contents self.new) (IsCreated name.now [])) }
        ensures others { OnErr result (KnownOf (contents self.old) (contents self.new) (SameBut name.now)) }
        ensures fault { IfErr result
            (λ fault. (fault ≢ CannotLook) × (fault ≢ CannotWrite) × (fault ≢ CannotRename)) }
        ensures there { result ≡ Err exists_already → IfSome (contents self.old) (λ files. IsSome (files name.now)) }
        ensures same { result ≡ Err exists_already → contents self.new ≡ contents self.old }
        ensures nothing_made { result ≡ Err CannotCreate → contents self.new ≡ contents self.old };

    /// Gives the file of this name these bytes, in place of those that it has, which the disk keeps then. Where it
    /// fails, it may have any bytes.
    fn write(&mut self, name: &str, bytes: &[u8]) -> Result<(), SaveFault>
        ensures written { OnOk result (KnownOf (contents self.old) (contents self.new) (IsWritten name.now bytes.now)) }
        ensures others { OnErr result (KnownOf (contents self.old) (contents self.new) (SameBut name.now)) }
        ensures fault { IfErr result (λ fault. IsTrue (is_of_writing fault)) };

    /// Gives a file another name, under which there is none before, at once: of several that are to get the same name
    /// one gets it.
    fn rename(&mut self, from: &str, to: &str) -> Result<(), SaveFault>
        requires { from.now ≢ to.now }
        ensures renamed { OnOk result (KnownOf (contents self.old) (contents self.new) (IsRenamed from.now to.now)) }
        ensures fault { IfErr result (λ fault. is_of_writing fault ≡ false) }
        ensures there { result ≡ Err exists_already → IfSome (contents self.old) (λ files. IsSome (files to.now)) }
        ensures same { OnErr result (contents self.new ≡ contents self.old) };

    /// Removes the file of this name, if that can be done.
    fn remove(&mut self, name: &str)
        ensures { KnownOf (contents self.old) (contents self.new) (SameBut name.now) };
}
