//! A machine's files in memory, which all its processes have: as a disk, and as files in which logs are kept.
ghost use Rattle.std.specs.Prelude.{◌≡◌};
ghost use Rattle.files_keeping.specs.Disk.{nothing_said};

use fedrun_files::{FileFault, Files};
use fedrun_logs::LogDisk;
use files_keeping::{Device, KeepFault, KeptBy, Standing};
use files_saving::{Disk, SaveFault};
use std::alloc::Global;
use std::sync::{Mutex, Wait};

/// What a process may be unable to do. What it writes first is what a file is there for.
#[derive(Clone, Copy, PartialEq, Eq)]
pub enum Operation {
    Look,
    Create,
    Open,
    WriteFirst,
    Write,
    Sync,
    Rename,
}

/// A file. Whoever has opened it has it also where it has another name by then, or none.
#[derive(Drop)]
struct SharedFile {
    name: Option<String>,
    bytes: Vec<u8>,
    is_locked: bool,
}

/// All files of a machine.
#[derive(Drop)]
pub struct SharedFiles {
    alloc: Global,
    files: Mutex<Vec<SharedFile>>,
}

// The place of the file of this name, if there is one.
fn place_of(files: &[SharedFile], name: &str) -> Option<usize> {
    files.iter().position(|file| match &file.name {
        Some(known) => known.as_str() == name,
        None => false,
    })
}

// A file of this name, without any bytes; none where there is no memory.
fn file_named(alloc: Global, name: &str) -> Option<SharedFile> {
    Some(SharedFile {
        name: Some(String::from_str(alloc, name).ok()?),
        bytes: Vec::new(alloc),
        is_locked: false,
    })
}

impl SharedFiles {
    /// A machine without files.
    pub fn new(alloc: Global) -> SharedFiles {
        SharedFiles {
            alloc,
            files: Mutex::new(Vec::new(alloc)),
        }
    }

    /// What the file of this name holds, if there is one.
    pub fn file<R: Wait>(&self, rt: &R, name: &str) -> Option<Vec<u8>> {
        let place = self.place(rt, name)?;
        self.read(rt, place)
    }

    /// Puts a file there, in place of one of that name; nothing where there is no memory.
    pub fn put<R: Wait>(&self, rt: &R, name: &str, bytes: &[u8]) -> Option<()> {
        self.remove(rt, name);
        self.write(rt, name, bytes)
    }

    /// Removes the file of this name, if it is there.
    pub fn remove<R: Wait>(&self, rt: &R, name: &str) {
        let _ = self.rename(rt, name, None);
    }

    /// All processes are killed: nobody has a file any more.
    pub fn kill_all<R: Wait>(&self, rt: &R) {
        let mut files = self.files.lock(rt);
        for file in files.iter_mut() {
            file.is_locked = false;
        }
    }

    // Gives the file of this name another one, or none, if it is there; nothing where there is no memory.
    fn rename<R: Wait>(&self, rt: &R, from: &str, to: Option<&str>) -> Option<()> {
        let name = match to {
            Some(name) => Some(String::from_str(self.alloc, name).ok()?),
            None => None,
        };
        let mut files = self.files.lock(rt);
        if let Some(place) = place_of(files.as_slice(), from) {
            files.get_mut(place)?.name = name;
        }
        Some(())
    }

    /// What the file of this name holds but for so many of its last bytes, if there is one and it has as many.
    pub fn front<R: Wait>(&self, rt: &R, name: &str, fewer: usize) -> Option<Vec<u8>> {
        let mut bytes = self.file(rt, name)?;
        bytes.truncate(bytes.len().checked_sub(fewer)?);
        Some(bytes)
    }

    /// Whether the file of this name is there and has these bytes.
    pub fn is<R: Wait>(&self, rt: &R, name: &str, bytes: &[u8]) -> bool {
        match self.file(rt, name) {
            Some(held) => held.as_slice() == bytes,
            None => false,
        }
    }

    /// Whether these files are there, and no others.
    pub fn are_just<R: Wait>(&self, rt: &R, names: &[&str]) -> bool {
        let mut are_there = true;
        for name in names {
            are_there = are_there && self.has(rt, name);
        }
        are_there && self.count(rt) == names.len()
    }

    // How many files there are.
    fn count<R: Wait>(&self, rt: &R) -> usize {
        let files = self.files.lock(rt);
        let mut count = 0usize;
        for file in files.iter() {
            if file.name.is_some() {
                count = count.saturating_add(1);
            }
        }
        count
    }

    /// Whether there is a file of this name.
    pub fn has<R: Wait>(&self, rt: &R, name: &str) -> bool {
        self.place(rt, name).is_some()
    }

    // The place of the file of this name, if there is one.
    fn place<R: Wait>(&self, rt: &R, name: &str) -> Option<usize> {
        let files = self.files.lock(rt);
        place_of(files.as_slice(), name)
    }

    // The place of the file of this name, which is made where there is none; none where there is no memory.
    fn opened<R: Wait>(&self, rt: &R, name: &str) -> Option<usize> {
        let mut files = self.files.lock(rt);
        if let Some(place) = place_of(files.as_slice(), name) {
            return Some(place);
        }
        let place = files.len();
        files.push(file_named(self.alloc, name)?).ok()?;
        Some(place)
    }

    // Locks a file, unless another has it.
    fn lock<R: Wait>(&self, rt: &R, place: usize) -> Option<()> {
        let mut files = self.files.lock(rt);
        let file = files.get_mut(place)?;
        if file.is_locked {
            return None;
        }
        file.is_locked = true;
        Some(())
    }

    // The bytes of a file.
    fn read<R: Wait>(&self, rt: &R, place: usize) -> Option<Vec<u8>> {
        let files = self.files.lock(rt);
        Vec::from_slice(self.alloc, files.get(place)?.bytes.as_slice()).ok()
    }

    // Gives the file of this name these bytes, which is made where there is none; nothing where there is no memory.
    fn write<R: Wait>(&self, rt: &R, name: &str, bytes: &[u8]) -> Option<()> {
        let place = self.opened(rt, name)?;
        self.change(rt, place, 0, bytes)
    }

    // Cuts a file to that many bytes, and adds these.
    fn change<R: Wait>(&self, rt: &R, place: usize, len: usize, more: &[u8]) -> Option<()> {
        let mut files = self.files.lock(rt);
        let file = files.get_mut(place)?;
        file.bytes.truncate(len);
        file.bytes.extend_from_slice(more).ok()
    }
}

/// A process on such a machine.
#[derive(Drop)]
pub struct Process<'a, R> {
    rt: &'a R,
    files: &'a SharedFiles,
    failing: Option<Operation>,
    has_written: bool,
}

impl<'a, R> Process<'a, R> {
    /// One that can't do this, if that is said.
    pub fn new(rt: &'a R, files: &'a SharedFiles, failing: Option<Operation>) -> Process<'a, R> {
        Process {
            rt,
            files,
            failing,
            has_written: false,
        }
    }

    fn fails(&self, operation: Operation) -> bool {
        self.failing == Some(operation)
    }
}

impl<R: Wait> Disk for Process<'_, R> {
    fn exists(&mut self, name: &str) -> Result<bool, SaveFault> {
        if self.fails(Operation::Look) {
            return Err(SaveFault::CannotLook);
        }
        Ok(self.files.has(self.rt, name))
    }

    fn create(&mut self, name: &str) -> Result<(), SaveFault> {
        if self.files.has(self.rt, name) {
            return Err(SaveFault::Exists);
        }
        if self.fails(Operation::Create) || self.files.opened(self.rt, name).is_none() {
            return Err(SaveFault::CannotCreate);
        }
        Ok(())
    }

    fn write(&mut self, name: &str, bytes: &[u8]) -> Result<(), SaveFault> {
        let is_first = !self.has_written;
        self.has_written = true;
        let writing = if is_first {
            Operation::WriteFirst
        } else {
            Operation::Write
        };
        if self.fails(writing) || self.files.write(self.rt, name, bytes).is_none() {
            return Err(SaveFault::CannotWrite);
        }
        if !is_first && self.fails(Operation::Sync) {
            return Err(SaveFault::CannotSync);
        }
        Ok(())
    }

    fn rename(&mut self, from: &str, to: &str) -> Result<(), SaveFault> {
        if self.fails(Operation::Rename) || !self.files.has(self.rt, from) {
            return Err(SaveFault::CannotRename);
        }
        if self.files.has(self.rt, to) {
            return Err(SaveFault::Exists);
        }
        match self.files.rename(self.rt, from, Some(to)) {
            Some(()) => Ok(()),
            None => Err(SaveFault::CannotRename),
        }
    }

    fn remove(&mut self, name: &str) {
        self.files.remove(self.rt, name);
    }
}

impl<R: Wait> Files for Process<'_, R> {
    fn bytes(&mut self, name: &str, most: usize) -> Result<Vec<u8>, FileFault> {
        match self.files.file(self.rt, name) {
            Some(bytes) if bytes.len() > most => Err(FileFault::OverLimit),
            Some(bytes) => Ok(bytes),
            None => Err(FileFault::Unreadable),
        }
    }
}

/// A file that a process has opened.
#[derive(Drop)]
pub struct OpenedFile<'a, R> {
    rt: &'a R,
    files: &'a SharedFiles,
    place: usize,
    standing: Standing,
}

impl<'a, R: Wait> LogDisk<OpenedFile<'a, R>> for Process<'a, R> {
    fn open(&mut self, name: &str, _kept_by: KeptBy) -> Result<OpenedFile<'a, R>, KeepFault> {
        if self.fails(Operation::Open) {
            return Err(KeepFault::CannotOpen);
        }
        let Some(place) = self.files.opened(self.rt, name) else {
            return Err(KeepFault::CannotOpen);
        };
        Ok(OpenedFile {
            rt: self.rt,
            files: self.files,
            place,
            standing: Standing {
                is_locked: false,
                is_named: false,
                has_failed: false,
            },
        })
    }
}

impl<R: Wait> Device for OpenedFile<'_, R> {
    ghost standing = { λ file. file.standing };

    ghost none_is_left = { nothing_said };

    ghost now_counts = { λ file t bytes known le now. now };

    ghost now_alone = { λ file bytes known since. since };

    fn has_failed(&self) -> bool {
        self.standing.has_failed
    }

    fn lock(&mut self) -> Result<(), KeepFault> {
        if self.files.lock(self.rt, self.place).is_some() {
            self.standing.is_locked = true;
            return Ok(());
        }
        self.standing.has_failed = true;
        Err(KeepFault::Taken)
    }

    fn read(&mut self, _alloc: Global) -> Result<Vec<u8>, KeepFault> {
        match self.files.read(self.rt, self.place) {
            Some(bytes) => Ok(bytes),
            None => {
                self.standing.has_failed = true;
                Err(KeepFault::CannotRead)
            }
        }
    }

    fn cut(&mut self, len: usize) -> Result<(), KeepFault> {
        if self.files.change(self.rt, self.place, len, b"").is_some() {
            return Ok(());
        }
        self.standing.has_failed = true;
        Err(KeepFault::CannotCut)
    }

    fn append(&mut self, bytes: &[u8]) -> Result<(), KeepFault> {
        let all = usize::MAX;
        if self.files.change(self.rt, self.place, all, bytes).is_some() {
            return Ok(());
        }
        self.standing.has_failed = true;
        Err(KeepFault::CannotAppend)
    }

    fn sync(&mut self) -> Result<(), KeepFault> {
        Ok(())
    }

    fn sync_folder(&mut self) -> Result<(), KeepFault> {
        self.standing.is_named = true;
        Ok(())
    }
}
