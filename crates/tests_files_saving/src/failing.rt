//! What stands after a name isn't reserved, as it is taken or a call of the disk fails.
use crate::memory_disk::MemoryDisk;
use crate::saved::reserved;
use files_saving::{Disk, ReserveFault, SaveFault};
use std::alloc::Global;

const NAME: &str = "run/snk.report";

const TEMPORARY: &str = "run/snk.report.part";

const OTHER: &str = "run/src.report";

const OLD: &[u8] = b"old";

/// What another has written so far.
const PART: &[u8] = b"new ";

const OTHERS: &[u8] = b"other";

// A disk with another file, and with these under the name and the temporary one.
fn disk_with(
    alloc: Global,
    bytes: Option<&[u8]>,
    temporary: Option<&[u8]>,
    fails: Option<SaveFault>,
) -> Option<MemoryDisk> {
    let mut disk = MemoryDisk::new(alloc, fails);
    disk.put(OTHER, OTHERS)?;
    if let Some(bytes) = bytes {
        disk.put(NAME, bytes)?;
    }
    if let Some(bytes) = temporary {
        disk.put(TEMPORARY, bytes)?;
    }
    Some(disk)
}

// Whether the file of the name holds this, and the temporary one that, and the other file is as it was.
fn stand(disk: &MemoryDisk, bytes: Option<&[u8]>, temporary: Option<&[u8]>) -> bool {
    let count = 1 + usize::from(bytes.is_some()) + usize::from(temporary.is_some());
    disk.bytes(NAME) == bytes
        && disk.bytes(TEMPORARY) == temporary
        && disk.bytes(OTHER) == Some(OTHERS)
        && disk.len() == count
}

/// What stands under the name and the temporary one, what fails, and why the name isn't reserved. What stands then is
/// what stood before.
const UNRESERVED: &[(
    Option<&[u8]>,
    Option<&[u8]>,
    Option<SaveFault>,
    ReserveFault,
)] = &[
    (Some(OLD), None, None, ReserveFault::NameTaken),
    (None, Some(PART), None, ReserveFault::TemporaryTaken),
    (Some(OLD), Some(PART), None, ReserveFault::TemporaryTaken),
    (
        None,
        None,
        Some(SaveFault::CannotCreate),
        ReserveFault::Failed(SaveFault::CannotCreate),
    ),
    (
        None,
        Some(PART),
        Some(SaveFault::CannotCreate),
        ReserveFault::Failed(SaveFault::CannotCreate),
    ),
    (
        None,
        None,
        Some(SaveFault::CannotSync),
        ReserveFault::Failed(SaveFault::CannotSync),
    ),
    (
        None,
        None,
        Some(SaveFault::CannotLook),
        ReserveFault::Failed(SaveFault::CannotLook),
    ),
];

#[test]
fn leaves_all_as_it_was_where_a_name_is_not_reserved(rt: HostRuntime) {
    for (bytes, temporary, fails, fault) in UNRESERVED {
        let alloc = rt.alloc();
        let told = disk_with(alloc, *bytes, *temporary, *fails).and_then(|mut disk| {
            let answer = reserved(alloc, &mut disk, NAME)?;
            Some((answer, stand(&disk, *bytes, *temporary)))
        });
        assert_eq!(rt; told, Some((Err(*fault), true)), "{fault:?}");
    }
}

/// A disk on which somebody else, who had reserved the name, saves his file just before the temporary file is made.
#[derive(Drop)]
struct Overtaken {
    disk: MemoryDisk,
}

impl Disk for Overtaken {
    fn exists(&mut self, name: &str) -> Result<bool, SaveFault> {
        self.disk.exists(name)
    }

    fn create(&mut self, name: &str) -> Result<(), SaveFault> {
        self.disk.remove(name);
        if self.disk.put(NAME, OLD).is_none() {
            return Err(SaveFault::CannotCreate);
        }
        self.disk.create(name)
    }

    fn write(&mut self, name: &str, bytes: &[u8]) -> Result<(), SaveFault> {
        self.disk.write(name, bytes)
    }

    fn rename(&mut self, from: &str, to: &str) -> Result<(), SaveFault> {
        self.disk.rename(from, to)
    }

    fn remove(&mut self, name: &str) {
        self.disk.remove(name);
    }
}

// Whether the name isn't reserved then, and what he saved is left.
fn is_overtaken(alloc: Global) -> Option<bool> {
    let mut disk = Overtaken {
        disk: disk_with(alloc, None, Some(OLD), None)?,
    };
    let answer = reserved(alloc, &mut disk, NAME)?;
    Some(answer == Err(ReserveFault::NameTaken) && stand(&disk.disk, Some(OLD), None))
}

// Whoever looked for the name before he makes the temporary file would find neither.
#[test]
fn reserves_no_name_that_another_file_gets_meanwhile(rt: HostRuntime) {
    assert_eq!(rt; is_overtaken(rt.alloc()), Some(true));
}
