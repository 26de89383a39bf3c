ghost use Rattle.std.specs.Prelude.{◌≡◌, ◌≢◌, IfErr, OnOk};
ghost use Rattle.std.specs.Io.KnownBytes.{Appends};
ghost use Rattle.std.specs.IoError.{error_kind};
ghost use Rattle.files_saving.specs.declared.save_fault.SaveFault.TheVariants.{Exists as exists_already};
ghost use Rattle.files_saving.specs.declared.save_fault.SaveFault.TheVariants.{CannotCreate as cannot_create};
ghost use Rattle.files_saving.specs.declared.save_fault.SaveFault.TheVariants.{CannotWrite as cannot_write};
ghost use Rattle.files_saving.specs.declared.save_fault.SaveFault.TheVariants.{CannotRename as cannot_rename};

use crate::disk::Disk;
use crate::save_fault::SaveFault;
use std::fs::{File, OpenFile};
use std::io::{ErrorKind, Seek, Write};
use std::{fs, io, rt};

/// The machine's files. It writes into the file alone that it made last, whatever has that file's name by then.
#[derive(Drop)]
pub struct MachineDisk<'a, R: rt::Files> {
    rt: &'a R,
    made: Option<R::File>,
}

impl<'a, R: rt::Files> MachineDisk<'a, R> {
    pub fn new(rt: &'a R) -> MachineDisk<'a, R>
        ensures { result.rt ≡ rt.entry }
    {
        MachineDisk { rt, made: None }
    }
}

impl<R: rt::Files> Disk for MachineDisk<'_, R> {
    fn exists(&mut self, name: &str) -> Result<bool, SaveFault> {
        match fs::symlink_metadata(self.rt, name) {
            Ok(_) => Ok(true),
            Err(error) if error.kind() == ErrorKind::NotFound => Ok(false),
            Err(_) => Err(SaveFault::CannotLook),
        }
    }

    // The folder keeps its name too, where it can, so that a machine that stops finds it there.
    fn create(&mut self, name: &str) -> Result<(), SaveFault> {
        let file = File::create_new(self.rt, name).map_err(|error| fault_of(&error))?;
        if file.sync_all().is_err() {
            self.remove(name);
            return Err(SaveFault::CannotSync);
        }
        let _ = sync_folder(self.rt, folder_of(name));
        self.made = Some(file);
        Ok(())
    }

    // What the file has is written over, and cut off behind that: at no time it is shorter than both.
    fn write(&mut self, _name: &str, bytes: &[u8]) -> Result<(), SaveFault> {
        let Some(file) = &mut self.made else {
            return Err(SaveFault::CannotWrite);
        };
        if file.rewind().is_err()
            || write_whole(file, bytes).is_err()
            || file.set_len(bytes.len() as u64).is_err()
        {
            return Err(SaveFault::CannotWrite);
        }
        file.sync_all().map_err(|_| SaveFault::CannotSync)
    }

    // A link is refused where there is something of the name; a renaming would replace it. Where the older name can't
    // be removed or the folder can't be synced, the file has both names, or the older one again: it is whole under
    // either.
    fn rename(&mut self, from: &str, to: &str) -> Result<(), SaveFault> {
        fs::hard_link(self.rt, from, to).map_err(|error| unlinked(&error))?;
        self.remove(from);
        let _ = sync_folder(self.rt, folder_of(to));
        Ok(())
    }

    fn remove(&mut self, name: &str) {
        let _ = fs::remove_file(self.rt, name);
    }
}

// Writes all bytes, also where the disk takes a few of them at once.
fn write_whole<W: Write>(file: &mut W, bytes: &[u8]) -> Result<(), SaveFault>
    ensures written { OnOk result (Appends (W.contents file.old) (W.contents file.new) bytes.now) }
    ensures fault { IfErr result (λ fault. fault ≡ cannot_write) }
{
    match file.write_all(bytes) {
        Ok(()) => Ok(()),
        Err(_) => Err(SaveFault::CannotWrite),
    }
}

// Why a file isn't made, where the machine has this error.
fn fault_of(error: &io::Error) -> SaveFault
    ensures there { error_kind error.now ≡ ErrorKind.AlreadyExists → result ≡ exists_already }
    ensures other { error_kind error.now ≢ ErrorKind.AlreadyExists → result ≡ cannot_create }
{
    if error.kind() == ErrorKind::AlreadyExists {
        SaveFault::Exists
    } else {
        SaveFault::CannotCreate
    }
}

// Why a file doesn't get a name, where the machine has this error.
fn unlinked(error: &io::Error) -> SaveFault
    ensures there { error_kind error.now ≡ ErrorKind.AlreadyExists → result ≡ exists_already }
    ensures other { error_kind error.now ≢ ErrorKind.AlreadyExists → result ≡ cannot_rename }
{
    if error.kind() == ErrorKind::AlreadyExists {
        SaveFault::Exists
    } else {
        SaveFault::CannotRename
    }
}

// The folder in which a file of this name stands.
fn folder_of(name: &str) -> &str {
    match name.rsplit_once('/') {
        Some(("", _)) => "/",
        Some((folder, _)) => folder,
        None => ".",
    }
}

// The disk keeps which names the files of a folder have.
fn sync_folder<R: rt::Files>(rt: &R, folder: &str) -> io::Result<()> {
    let folder = fs::open(rt, folder)?;
    folder.sync_all()
}
