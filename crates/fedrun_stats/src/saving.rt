//! The file that `--stats` names. Before anything is begun a temporary file is made beside it and taken away again: so
//! what can't be written is known then. At the end one is made with what was measured, and gets the name. It has a name
//! of its own by a number that the command draws: so no command takes away what another one saves, and what one that
//! was killed has left is in nobody's way. A file that has the name is replaced, but only where it begins as `--stats`
//! has it: a name that was given by mistake is refused.
ghost use Rattle.std.specs.Prelude.{◌≡◌, ◌≢◌, ◌⊎◌, false, None, IfErr, IfOk, IfSome, IsTrue, OnErr, OnOk, string_bytes};
ghost use Rattle.files_saving.specs.Contents.{KnownOf, SameBut, SameButTwo};
ghost use Rattle.files_saving.specs.Fault.{is_of_writing};
ghost use Rattle.files_saving.specs.Saved.{IsCreated};
ghost use Rattle.files_stats.specs.Stats.{stats_text};
ghost use Rattle.fedrun_stats.specs.Saved.{own_name, IsFree, IsLeft, IsReplaced, MayGo};

use crate::fault::StatsFault;
use fedrun_files::Files;
use fedrun_words::{Fault, print_text, refuse};
use files_saving::{Disk, SaveFault};
use files_stats::{Stats, is_stats};
use std::alloc::{AllocError, Global};
use std::io::Write;

/// The bytes of a file that `--stats` saved, at most: none has as many.
const MOST_BYTES: usize = 65_536;

/// Looks, before anything is begun, whether a file of this name can be saved at the end: makes the temporary file that
/// is called by this number, which wasn't there before, and takes it away again. Where there is something of the name
/// that doesn't begin as such a file does, or that can't be read, that is refused.
#[tactic(auto, using(crate::proofs::Replaced::nothing_changed))]
pub fn begin_stats<'a, F: Files, D: Disk>(
    alloc: Global,
    name: &'a str,
    drawn: u32,
    files: &mut F,
    disk: &mut D,
) -> Result<(), StatsFault<'a>>
    ensures others { KnownOf (D.contents disk.old) (D.contents disk.new) (SameBut (own_name name.entry.now drawn)) }
    ensures own { OnOk result (IsFree (D.contents disk.old) (own_name name.entry.now drawn)) }
    ensures replaceable { OnOk result
        (MayGo (D.contents disk.old) (F.contents files.old name.entry.now) name.entry.now) }
{
    let Ok(temporary) = own_name(alloc, name, drawn) else {
        return Err(StatsFault {
            name,
            why: SaveFault::CannotCreate,
        });
    };
    match begin(temporary.as_str(), name, files, disk) {
        Ok(()) => Ok(()),
        Err(why) => Err(StatsFault { name, why }),
    }
}

// Makes the temporary file, and looks then what stands under the name: where no file can be made, nothing is read
// there, as of a device.
#[tactic(auto, using(crate::proofs::Replaced::free_before, crate::proofs::Replaced::created_but, crate::proofs::Replaced::made_and_gone, crate::proofs::Replaced::still_may_go))]
fn begin<F: Files, D: Disk>(
    temporary: &str,
    name: &str,
    files: &mut F,
    disk: &mut D,
) -> Result<(), SaveFault>
    requires { temporary.now ≢ name.now }
    ensures others { KnownOf (D.contents disk.old) (D.contents disk.new) (SameBut temporary.now) }
    ensures own { OnOk result (IsFree (D.contents disk.old) temporary.now) }
    ensures replaceable { OnOk result
        (MayGo (D.contents disk.old) (F.contents files.old name.now) name.now) }
{
    disk.create(temporary)?;
    let looked = look(name, files, disk);
    disk.remove(temporary);
    looked
}

// Refuses what has this name and may not be taken away.
#[tactic(auto, using(crate::proofs::Replaced::read_so))]
fn look<F: Files, D: Disk>(name: &str, files: &mut F, disk: &mut D) -> Result<(), SaveFault>
    ensures same { D.contents disk.new ≡ D.contents disk.old }
    ensures same_files { F.contents files.new ≡ F.contents files.old }
    ensures looked { OnOk result (MayGo (D.contents disk.old) (F.contents files.old name.now) name.now) }
    ensures fault { IfErr result (λ fault. is_of_writing fault ≡ false) }
{
    if !disk.exists(name)? {
        return Ok(());
    }
    match files.bytes(name, MOST_BYTES) {
        Ok(bytes) if is_stats(bytes.as_slice()) => Ok(()),
        _ => Err(SaveFault::Exists),
    }
}

// The name of the temporary file for a file of this name, by the number that the command has drawn.
#[tactic(auto, using(crate::proofs::Replaced::another_name))]
fn own_name(alloc: Global, name: &str, drawn: u32) -> Result<String, AllocError>
    ensures named { IfOk result (λ temporary. string_bytes temporary ≡ own_name name.now drawn) }
    ensures other { IfOk result (λ temporary. string_bytes temporary ≢ name.now) }
{
    format!(in alloc; "{name}.{drawn}.part")
}

/// Saves what was measured under this name, in place of a file that has it and that `--stats` made: any other that has
/// the name by now is left as it is. The temporary file is called by this number. Where it can't be written, no other
/// file has changed; where it only doesn't get the name, all of it stands in the temporary file, and one of the name
/// may be gone.
#[tactic(auto, using(crate::proofs::Replaced::nothing_changed))]
pub fn save_stats<'a, F: Files, D: Disk>(
    alloc: Global,
    name: &'a str,
    drawn: u32,
    stats: &Stats<'_>,
    files: &mut F,
    disk: &mut D,
) -> Result<(), StatsFault<'a>>
    ensures replaced { OnOk result (KnownOf (D.contents disk.old) (D.contents disk.new)
        (IsReplaced (own_name name.entry.now drawn) name.entry.now (stats_text stats.now))) }
    ensures unwritten { IfErr result (λ fault. IsTrue (is_of_writing fault.why)
        → KnownOf (D.contents disk.old) (D.contents disk.new) (SameBut (own_name name.entry.now drawn))) }
    ensures left { IfErr result (λ fault. is_of_writing fault.why ≡ false
        → KnownOf (D.contents disk.old) (D.contents disk.new)
        (IsLeft (own_name name.entry.now drawn) name.entry.now (stats_text stats.now))) }
    ensures own { OnOk result (IsFree (D.contents disk.old) (own_name name.entry.now drawn)) }
    ensures kept { MayGo (D.contents disk.old) (F.contents files.old name.entry.now) name.entry.now
        ⊎ KnownOf (D.contents disk.old) (D.contents disk.new) (SameBut (own_name name.entry.now drawn)) }
{
    let Ok(temporary) = own_name(alloc, name, drawn) else {
        return Err(StatsFault {
            name,
            why: SaveFault::CannotWrite,
        });
    };
    match replace(alloc, temporary.as_str(), name, stats, files, disk) {
        Ok(()) => Ok(()),
        Err(why) => Err(StatsFault { name, why }),
    }
}

// Makes the temporary file with the text, and gives it the name.
#[tactic(auto, using(crate::proofs::Replaced::nothing_changed, crate::proofs::Replaced::free_before, crate::proofs::Replaced::created_but, crate::proofs::Replaced::still_may_go, crate::proofs::Replaced::replaced, crate::proofs::Replaced::left, crate::proofs::Replaced::left_there))]
fn replace<F: Files, D: Disk>(
    alloc: Global,
    temporary: &str,
    name: &str,
    stats: &Stats<'_>,
    files: &mut F,
    disk: &mut D,
) -> Result<(), SaveFault>
    requires { temporary.now ≢ name.now }
    ensures replaced { OnOk result (KnownOf (D.contents disk.old) (D.contents disk.new)
        (IsReplaced temporary.now name.now (stats_text stats.now))) }
    ensures unwritten { IfErr result (λ fault. IsTrue (is_of_writing fault)
        → KnownOf (D.contents disk.old) (D.contents disk.new) (SameBut temporary.now)) }
    ensures left { IfErr result (λ fault. is_of_writing fault ≡ false
        → KnownOf (D.contents disk.old) (D.contents disk.new)
        (IsLeft temporary.now name.now (stats_text stats.now))) }
    ensures own { OnOk result (IsFree (D.contents disk.old) temporary.now) }
    ensures kept { MayGo (D.contents disk.old) (F.contents files.old name.now) name.now
        ⊎ KnownOf (D.contents disk.old) (D.contents disk.new) (SameBut temporary.now) }
{
    let Some(text) = text_of(alloc, stats) else {
        return Err(SaveFault::CannotWrite);
    };
    write_anew(temporary, text.as_slice(), disk)?;
    look(name, files, disk)?;
    disk.remove(name);
    disk.rename(temporary, name)
}

// Makes the temporary file, which isn't there, with these bytes; where it can't be written, it is taken away again.
#[tactic(auto, using(crate::proofs::Replaced::created_with, crate::proofs::Replaced::made_and_gone, crate::proofs::Replaced::both_changes))]
fn write_anew<D: Disk>(temporary: &str, bytes: &[u8], disk: &mut D) -> Result<(), SaveFault>
    ensures made { OnOk result
        (KnownOf (D.contents disk.old) (D.contents disk.new) (IsCreated temporary.now bytes.now)) }
    ensures others { OnErr result (KnownOf (D.contents disk.old) (D.contents disk.new) (SameBut temporary.now)) }
    ensures fault { IfErr result (λ fault. IsTrue (is_of_writing fault)) }
{
    match disk.create(temporary) {
        Ok(()) => {}
        Err(_) => return Err(SaveFault::CannotWrite),
    }
    match disk.write(temporary, bytes) {
        Ok(()) => Ok(()),
        Err(why) => {
            disk.remove(temporary);
            Err(why)
        }
    }
}

// The text, where there is memory for it.
fn text_of(alloc: Global, stats: &Stats<'_>) -> Option<Vec<u8>>
    ensures { IfSome result (λ text. text.items ≡ stats_text stats.now) }
{
    let mut text = Vec::new(alloc);
    if print_text(&mut text, stats) {
        Some(text)
    } else {
        None
    }
}

/// Ends what `begin_stats` began by the same number, of a command that ended with this status: saves what was measured,
/// if anything was. Returns the status with which the program ends: another one only where the command's is 0 and this
/// can't be saved, which is told then.
#[tactic(auto, using(crate::proofs::Replaced::nothing_changed, crate::proofs::Replaced::one_of_two, crate::proofs::Replaced::replaced_two, crate::proofs::Replaced::left_two))]
pub fn end_stats<F: Files, D: Disk, E: Write>(
    alloc: Global,
    name: &str,
    drawn: u32,
    stats: Option<Stats<'_>>,
    status: u8,
    files: &mut F,
    disk: &mut D,
    err: &mut E,
) -> u8
    ensures same { status ≢ 0 → result ≡ status }
    ensures nothing { stats.entry ≡ None → result ≡ status }
    ensures untouched { stats.entry ≡ None → D.contents disk.new ≡ D.contents disk.old }
    ensures unsaved { result ≢ status → result ≡ 3 }
    ensures quiet { status ≢ 0 → err.new ≡ err.old }
    ensures done { result ≡ 0 → err.new ≡ err.old }
    ensures saved { result ≡ 0 → IfSome stats.entry (λ stats. KnownOf (D.contents disk.old) (D.contents disk.new)
        (IsReplaced (own_name name.now drawn) name.now (stats_text stats))) }
    ensures others { KnownOf (D.contents disk.old) (D.contents disk.new)
        (SameButTwo (own_name name.now drawn) name.now) }
    ensures kept { MayGo (D.contents disk.old) (F.contents files.old name.now) name.now
        ⊎ KnownOf (D.contents disk.old) (D.contents disk.new) (SameBut (own_name name.now drawn)) }
{
    let Some(stats) = stats else {
        return status;
    };
    match save_stats(alloc, name, drawn, &stats, files, disk) {
        Ok(()) => status,
        Err(fault) => {
            if status == 0 {
                refuse(&Fault::More(fault), err).status
            } else {
                status
            }
        }
    }
}
