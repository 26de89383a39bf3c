//! The machine's disk where the machine doesn't say of each file that it keeps it, and what is answered then. Its files
//! take a byte at a time.
use crate::saved::{reserved, saved};
use files_saving::{MachineDisk, ReserveFault, SaveFault};
use std::alloc::{Allocator, Global};
use std::fs::{Metadata, OpenFile, OpenOptions};
use std::io::{ErrorKind, Read, Seek, SeekFrom, Write};
use std::sync::atomic::{AtomicU64, Ordering};
use std::{io, rt};

const NAME: &str = "run/snk.report";

const TEXT: &[u8] = b"bytes";

/// A machine on which each file can be made, written, linked and removed, and none is found. It says that it keeps what
/// there is, but for one of its files, one of the times that it is asked.
#[derive(Drop)]
struct Unsynced {
    opened: AtomicU64,
    /// Which of the files that were opened, and which time, both counted from 1.
    file: u64,
    time: u64,
}

/// A file of such a machine, or a folder. It takes a byte at a time.
#[derive(Drop)]
struct UnsyncedFile {
    asked: AtomicU64,
    /// The time at which it isn't said that it is kept; 0 for none.
    failing: u64,
    /// How many bytes it took.
    taken: usize,
}

impl Read for UnsyncedFile {
    fn read(&mut self, _buf: &mut [u8]) -> io::Result<usize> {
        Ok(0)
    }
}

impl Write for UnsyncedFile {
    fn write(&mut self, buf: &[u8]) -> io::Result<usize> {
        if buf.is_empty() {
            return Ok(0);
        }
        self.taken = self.taken.saturating_add(1);
        Ok(1)
    }

    fn flush(&mut self) -> io::Result<()> {
        Ok(())
    }
}

impl Seek for UnsyncedFile {
    fn seek(&mut self, _to: SeekFrom) -> io::Result<u64> {
        self.taken = 0;
        Ok(0)
    }
}

impl OpenFile for UnsyncedFile {
    fn metadata(&self) -> io::Result<Metadata> {
        Err(unsupported())
    }

    fn set_len(&self, size: u64) -> io::Result<()> {
        if size == TEXT.len() as u64 {
            Ok(())
        } else {
            Err(unsupported())
        }
    }

    // Of a part of the text it isn't said either.
    fn sync_all(&self) -> io::Result<()> {
        let time = self.asked.fetch_add(1, Ordering::SeqCst).saturating_add(1);
        let is_part = self.taken != 0 && self.taken != TEXT.len();
        if time == self.failing || is_part {
            Err(io::Error::other("no room"))
        } else {
            Ok(())
        }
    }

    fn sync_data(&self) -> io::Result<()> {
        Err(unsupported())
    }
}

// What isn't asked of the machine here.
fn unsupported() -> io::Error {
    io::Error::from(ErrorKind::Unsupported)
}

impl rt::Files for Unsynced {
    type File = UnsyncedFile;

    type Dir = UnsyncedFile;

    fn open_file(&self, _how: &OpenOptions, _path: &str) -> io::Result<UnsyncedFile> {
        let number = self.opened.fetch_add(1, Ordering::SeqCst).saturating_add(1);
        Ok(UnsyncedFile {
            asked: AtomicU64::new(0),
            failing: if number == self.file { self.time } else { 0 },
            taken: 0,
        })
    }

    fn open_dir(&self, _path: &str) -> io::Result<UnsyncedFile> {
        Err(unsupported())
    }

    fn metadata(&self, _path: &str) -> io::Result<Metadata> {
        Err(unsupported())
    }

    fn symlink_metadata(&self, _path: &str) -> io::Result<Metadata> {
        Err(io::Error::from(ErrorKind::NotFound))
    }

    fn copy(&self, _from: &str, _to: &str) -> io::Result<u64> {
        Err(unsupported())
    }

    fn rename(&self, _from: &str, _to: &str) -> io::Result<()> {
        Err(unsupported())
    }

    fn remove_file(&self, _path: &str) -> io::Result<()> {
        Ok(())
    }

    fn create_dir(&self, _path: &str) -> io::Result<()> {
        Err(unsupported())
    }

    fn remove_dir(&self, _path: &str) -> io::Result<()> {
        Err(unsupported())
    }

    fn remove_dir_all<B: Allocator>(&self, _alloc: B, _path: &str) -> io::Result<()> {
        Err(unsupported())
    }

    fn hard_link(&self, _original: &str, _link: &str) -> io::Result<()> {
        Ok(())
    }
}

/// What is answered when a name is reserved, and then when a file is saved under it.
type Answers = (Result<(), ReserveFault>, Option<Result<(), SaveFault>>);

// These answers where the machine doesn't say of this file, this time, that it keeps it; and how many files it opened.
fn answered(alloc: Global, file: u64, time: u64) -> Option<(Answers, u64)> {
    let machine = Unsynced {
        opened: AtomicU64::new(0),
        file,
        time,
    };
    let answers = answers_of(alloc, &machine)?;
    Some((answers, machine.opened.load(Ordering::SeqCst)))
}

// The same answers of a machine.
fn answers_of<R: rt::Files>(alloc: Global, machine: &R) -> Option<Answers> {
    let mut disk = MachineDisk::new(machine);
    let first = reserved(alloc, &mut disk, NAME)?;
    if first.is_err() {
        return Some((first, None));
    }
    let second = saved(alloc, &mut disk, NAME, TEXT)?;
    Some((first, Some(second)))
}

/// Of which file and which time it isn't said that it is kept, what is answered, and how many files are opened. The
/// first one is the temporary file, which is asked when it is made and when it is written; the others are its folder,
/// once it is made and once it has its name, of which it is said where the machine can.
const UNSYNCED: &[(u64, u64, Answers, u64)] = &[
    (0, 0, (Ok(()), Some(Ok(()))), 3),
    (
        1,
        1,
        (Err(ReserveFault::Failed(SaveFault::CannotSync)), None),
        1,
    ),
    (1, 2, (Ok(()), Some(Err(SaveFault::CannotSync))), 2),
    (2, 1, (Ok(()), Some(Ok(()))), 3),
    (3, 1, (Ok(()), Some(Ok(()))), 3),
];

// Where nothing fails all bytes were written, though each write took one.
#[test]
fn says_where_the_disk_does_not_say_that_it_keeps_a_file(rt: HostRuntime) {
    for (file, time, answers, opened) in UNSYNCED {
        assert_eq!(rt;
            answered(rt.alloc(), *file, *time),
            Some((*answers, *opened)),
            "{file} {time}"
        );
    }
}
