ghost use Rattle.std.specs.Prelude.{◌≡◌, ◌≢◌, [], IsSome, false, IfOk, IfSome, IfErr, OnOk, OnErr, string_bytes};
ghost use Rattle.files_saving.specs.Contents.{KnownOf, SameBut};
ghost use Rattle.files_saving.specs.Fault.{is_of_writing};
ghost use Rattle.files_saving.specs.Saved.{IsReserved, IsSaved, IsWritten, temporary_name};

use crate::disk::Disk;
use crate::reserve_fault::ReserveFault;
use crate::save_fault::SaveFault;
use std::alloc::{AllocError, Global};

/// Reserves a name for a file that is to be saved: by a temporary file in the same folder, without any bytes. Of
/// several who reserve the same name one gets it. Where it fails, the temporary file is removed that this call made, if
/// that can be done, and no other: one that was there before is somebody else's. Until the file is saved, whatever is
/// written into the temporary one may say whose it is.
pub fn reserve<D: Disk>(disk: &mut D, temporary: &str, name: &str) -> Result<(), ReserveFault>
    requires { temporary.now ≢ name.now }
    ensures reserved { OnOk result
        (KnownOf (D.contents disk.old) (D.contents disk.new) (IsReserved temporary.now name.now [])) }
    ensures kept { OnErr result (KnownOf (D.contents disk.old) (D.contents disk.new) (SameBut temporary.now)) }
    ensures name_there { result ≡ Err ReserveFault.NameTaken
        → IfSome (D.contents disk.old) (λ files. IsSome (files name.now)) }
    ensures temporary_there { result ≡ Err ReserveFault.TemporaryTaken
        → IfSome (D.contents disk.old) (λ files. IsSome (files temporary.now)) }
    ensures untouched { result ≡ Err ReserveFault.TemporaryTaken → D.contents disk.new ≡ D.contents disk.old }
    ensures nothing_made { result ≡ Err (ReserveFault.Failed SaveFault.CannotCreate)
        → D.contents disk.new ≡ D.contents disk.old }
{
    match disk.create(temporary) {
        Ok(()) => {}
        Err(SaveFault::Exists) => return Err(ReserveFault::TemporaryTaken),
        Err(why) => return Err(ReserveFault::Failed(why)),
    }
    // The temporary file is made before it is looked for the name: whoever had it before has the name by now.
    let fault = match disk.exists(name) {
        Ok(false) => return Ok(()),
        Ok(true) => ReserveFault::NameTaken,
        Err(_) => ReserveFault::Failed(SaveFault::CannotLook),
    };
    disk.remove(temporary);
    Err(fault)
}

/// Saves a file of this name, which was reserved, with these bytes: the temporary file gets them, and then the name.
/// Where it fails, there is no file of this name, or there is another's: `Exists`. The temporary file is left then,
/// with all bytes where it couldn't get the name.
pub fn save<D: Disk>(
    disk: &mut D,
    temporary: &str,
    name: &str,
    bytes: &[u8],
) -> Result<(), SaveFault>
    requires { temporary.now ≢ name.now }
    ensures saved { OnOk result (KnownOf (D.contents disk.old) (D.contents disk.new)
        (IsSaved temporary.now name.now bytes.now)) }
    ensures kept { OnErr result (KnownOf (D.contents disk.old) (D.contents disk.new) (SameBut temporary.now)) }
    ensures left { IfErr result (λ fault. is_of_writing fault ≡ false
        → KnownOf (D.contents disk.old) (D.contents disk.new) (IsWritten temporary.now bytes.now)) }
{
    match disk.write(temporary, bytes) {
        Ok(()) => {}
        Err(why) => return Err(why),
    }
    disk.rename(temporary, name)
}

/// The name of the temporary file that is written first for a file of this name. It stands in the same folder.
pub fn temporary_name(alloc: Global, name: &str) -> Result<String, AllocError>
    ensures named { IfOk result (λ temporary. string_bytes temporary ≡ temporary_name name.now) }
    ensures other { IfOk result (λ temporary. string_bytes temporary ≢ name.now) }
{
    let mut temporary = String::from_str(alloc, name)?;
    temporary.push_str(".part")?;
    Ok(temporary)
}
