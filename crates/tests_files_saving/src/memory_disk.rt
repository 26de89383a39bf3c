//! A disk in memory on which names are reserved, and of which a call may fail. Nothing is saved on it.
ghost use Rattle.std.specs.Prelude.{◌≡◌};

use files_saving::{Disk, SaveFault};
use std::alloc::Global;

/// A file on it.
#[derive(Drop)]
struct NamedFile {
    name: String,
    bytes: Vec<u8>,
}

/// Files in memory.
#[derive(Drop)]
pub(crate) struct MemoryDisk {
    alloc: Global,
    files: Vec<NamedFile>,
    // How the call fails that fails, if one does.
    fails: Option<SaveFault>,
}

impl MemoryDisk {
    /// A disk without files.
    pub fn new(alloc: Global, fails: Option<SaveFault>) -> MemoryDisk {
        MemoryDisk {
            alloc,
            files: Vec::new(alloc),
            fails,
        }
    }

    /// Puts a file on it; None where there is no memory.
    pub fn put(&mut self, name: &str, bytes: &[u8]) -> Option<()> {
        let mut file = NamedFile {
            name: String::from_str(self.alloc, name).ok()?,
            bytes: Vec::new(self.alloc),
        };
        file.bytes.extend_from_slice(bytes).ok()?;
        self.files.push(file).ok()
    }

    /// What the file of this name holds, if it is there.
    pub fn bytes(&self, name: &str) -> Option<&[u8]> {
        let place = self.place_of(name)?;
        Some(self.files.get(place)?.bytes.as_slice())
    }

    /// How many files there are.
    pub fn len(&self) -> usize {
        self.files.len()
    }

    // The place of the file of this name, if it is there.
    fn place_of(&self, name: &str) -> Option<usize> {
        self.files
            .iter()
            .position(|file| file.name.as_str() == name)
    }

    // Takes the file of this name off, if it is there.
    fn take(&mut self, name: &str) -> Option<NamedFile> {
        let place = self.place_of(name)?;
        if place < self.files.len() {
            Some(self.files.remove(place))
        } else {
            None
        }
    }
}

impl Disk for MemoryDisk {
    fn exists(&mut self, name: &str) -> Result<bool, SaveFault> {
        if self.fails == Some(SaveFault::CannotLook) {
            return Err(SaveFault::CannotLook);
        }
        Ok(self.place_of(name).is_some())
    }

    fn create(&mut self, name: &str) -> Result<(), SaveFault> {
        // As a machine on which no more files may be open: it says so before it looks for the name.
        if self.fails == Some(SaveFault::CannotCreate) {
            return Err(SaveFault::CannotCreate);
        }
        if self.place_of(name).is_some() {
            return Err(SaveFault::Exists);
        }
        if self.put(name, b"").is_none() {
            return Err(SaveFault::CannotCreate);
        }
        if self.fails == Some(SaveFault::CannotSync) {
            self.take(name);
            return Err(SaveFault::CannotSync);
        }
        Ok(())
    }

    fn write(&mut self, _name: &str, _bytes: &[u8]) -> Result<(), SaveFault> {
        Err(SaveFault::CannotWrite)
    }

    fn rename(&mut self, _from: &str, _to: &str) -> Result<(), SaveFault> {
        Err(SaveFault::CannotRename)
    }

    fn remove(&mut self, name: &str) {
        self.take(name);
    }
}
