ghost use Rattle.std.specs.Prelude.{◌≡◌, true, IfOk, IfErr, OnOk};
ghost use Rattle.std.specs.Io.KnownBytes.{Appends};
ghost use Rattle.files_keeping.specs.Disk.{nothing_said};
ghost use Rattle.files_keeping.specs.declared.keep_fault.KeepFault.TheVariants.{CannotOpen, CannotAppend};

use crate::device::Device;
use crate::keep_fault::KeepFault;
use crate::standing::Standing;
use std::alloc::Global;
use std::fs::{File, OpenOptions, TryLockError};
use std::io::{Read, Seek, Write};
use std::path::Path;
use std::{fs, rt};

/// Who keeps what is appended, where a call says so.
#[derive(Clone, Copy, Debug, PartialEq, Eq)]
pub enum KeptBy {
    /// The disk: also where the machine loses its power.
    Disk,
    /// The system alone, which writes it to the disk when it likes: where the process is killed, and no more.
    System,
}

/// A file on the machine's disk.
#[derive(Drop)]
pub struct MachineDevice {
    file: File,
    // None where it can't be opened, and so not be synced.
    folder: Option<File>,
    kept_by: KeptBy,
    standing: Standing,
}

impl MachineDevice {
    ghost use Rattle.files_keeping.specs.Memory.{fresh};
    ghost use Rattle.files_keeping.specs.Made.{machine_standing};

    /// Opens the file of this name, and makes it where there is none. It may be another's: it is locked before it is
    /// read.
    pub fn open<R: rt::Files<File = File>>(
        rt: &R,
        name: &str,
        kept_by: KeptBy,
    ) -> Result<MachineDevice, KeepFault>
        ensures fresh { IfOk result (λ device. machine_standing device ≡ fresh) }
        ensures fault { IfErr result (λ fault. fault ≡ CannotOpen) }
    {
        let opened = OpenOptions::new()
            .read(true)
            .append(true)
            .create(true)
            .open(rt, name);
        let Ok(file) = opened else {
            return Err(KeepFault::CannotOpen);
        };
        Ok(MachineDevice {
            file,
            folder: fs::open(rt, folder_of(name)).ok(),
            kept_by,
            standing: Standing {
                is_locked: false,
                is_named: false,
                has_failed: false,
            },
        })
    }

    // Notes that a call failed, and answers so.
    fn fail<T>(&mut self, fault: KeepFault) -> Result<T, KeepFault>
        ensures answer { result ≡ Err fault }
        ensures failed { (machine_standing self.new).has_failed ≡ true }
    {
        self.standing.has_failed = true;
        Err(fault)
    }
}

// The folder in which a file of this name stands.
fn folder_of(name: &str) -> &str {
    match Path::new(name).parent() {
        Some(folder) if !folder.as_str().is_empty() => folder.as_str(),
        _ => ".",
    }
}

// Whether the disk says that it keeps a folder's names.
fn is_synced(folder: &Option<File>) -> bool {
    match folder {
        Some(folder) => folder.sync_all().is_ok(),
        None => false,
    }
}

// Writes all bytes, also where the disk takes a few of them at once.
fn append_whole<W: Write>(file: &mut W, bytes: &[u8]) -> Result<(), KeepFault>
    ensures written { OnOk result (Appends (W.contents file.old) (W.contents file.new) bytes.now) }
    ensures fault { IfErr result (λ fault. fault ≡ CannotAppend) }
{
    match file.write_all(bytes) {
        Ok(()) => Ok(()),
        Err(_) => Err(KeepFault::CannotAppend),
    }
}

impl Device for MachineDevice {
    ghost standing = { λ d. d.standing };

    ghost none_is_left = { nothing_said };

    ghost now_counts = { λ d t bytes known le now. now };

    ghost now_alone = { λ d bytes known since. since };

    fn has_failed(&self) -> bool {
        self.standing.has_failed
    }

    fn lock(&mut self) -> Result<(), KeepFault> {
        match self.file.try_lock() {
            Ok(()) => {
                self.standing.is_locked = true;
                Ok(())
            }
            Err(TryLockError::WouldBlock) => self.fail(KeepFault::Taken),
            Err(TryLockError::Error(_)) => self.fail(KeepFault::CannotLock),
        }
    }

    fn read(&mut self, alloc: Global) -> Result<Vec<u8>, KeepFault> {
        let mut bytes = Vec::new(alloc);
        if self.file.rewind().is_ok() && self.file.read_to_end(&mut bytes).is_ok() {
            return Ok(bytes);
        }
        self.fail(KeepFault::CannotRead)
    }

    fn cut(&mut self, len: usize) -> Result<(), KeepFault> {
        if self.file.set_len(len as u64).is_ok() {
            return Ok(());
        }
        self.fail(KeepFault::CannotCut)
    }

    fn append(&mut self, bytes: &[u8]) -> Result<(), KeepFault> {
        if append_whole(&mut self.file, bytes).is_ok() {
            return Ok(());
        }
        self.fail(KeepFault::CannotAppend)
    }

    fn sync(&mut self) -> Result<(), KeepFault> {
        if self.kept_by == KeptBy::System || self.file.sync_data().is_ok() {
            return Ok(());
        }
        self.fail(KeepFault::CannotSync)
    }

    fn sync_folder(&mut self) -> Result<(), KeepFault> {
        if self.kept_by == KeptBy::System || is_synced(&self.folder) {
            self.standing.is_named = true;
            return Ok(());
        }
        self.fail(KeepFault::CannotSyncFolder)
    }
}
