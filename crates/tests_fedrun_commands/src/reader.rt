//! How a file is read to its end: in pieces, with interruptions, up to its limit, and with errors. How files of the
//! machine are read, regular ones alone, and its standard input.
use fedrun_files::{FileFault, Files, MachineFiles, read_to_end};
use fedrun_stats::RegularFiles;
use std::alloc::Global;
use std::io::{ErrorKind, Read};
use std::{fs, io, rt};

/// A reader that is interrupted before each piece, gives this many bytes, and then ends, or fails with an error of this
/// kind.
#[derive(Drop)]
pub(crate) struct Pieces {
    left: usize,
    is_next: bool,
    failure: Option<ErrorKind>,
}

impl Pieces {
    pub(crate) fn new(left: usize, failure: Option<ErrorKind>) -> Pieces {
        Pieces {
            left,
            is_next: false,
            failure,
        }
    }
}

impl Read for Pieces {
    fn read(&mut self, buf: &mut [u8]) -> io::Result<usize> {
        self.is_next = !self.is_next;
        if self.is_next {
            return Err(io::Error::from(ErrorKind::Interrupted));
        }
        if self.left == 0 {
            return match self.failure {
                Some(kind) => Err(io::Error::from(kind)),
                None => Ok(0),
            };
        }
        let count = buf.len().min(self.left).min(700);
        buf[..count].fill(b'x');
        self.left -= count;
        Ok(count)
    }
}

// How many bytes are read of a reader that has this many, at most this many, before this failure.
fn read(
    alloc: Global,
    bytes: usize,
    most: usize,
    failure: Option<ErrorKind>,
) -> Result<usize, FileFault> {
    let mut pieces = Pieces::new(bytes, failure);
    let bytes = read_to_end(alloc, &mut pieces, most)?;
    Ok(bytes.len())
}

const LATE: Option<ErrorKind> = Some(ErrorKind::Other);

const NO_MEMORY: Option<ErrorKind> = Some(ErrorKind::OutOfMemory);

/// How many bytes there are, how many may be read, how it ends, and what is read.
const READ: &[(usize, usize, Option<ErrorKind>, Result<usize, FileFault>)] = &[
    (0, 0, None, Ok(0)),
    (1, 0, None, Err(FileFault::OverLimit)),
    (9_999, 10_000, None, Ok(9_999)),
    (10_000, 10_000, None, Ok(10_000)),
    (10_001, 10_000, None, Err(FileFault::OverLimit)),
    (5_000, 10_000, LATE, Err(FileFault::Unreadable)),
    (10_000, 10_000, LATE, Err(FileFault::Unreadable)),
    (5_000, 10_000, NO_MEMORY, Err(FileFault::Memory)),
];

// The place of the first of these of which something else is read.
fn first_wrong(alloc: Global) -> Option<usize> {
    for (place, (bytes, most, failure, wanted)) in READ.iter().enumerate() {
        if read(alloc, *bytes, *most, *failure) != *wanted {
            return Some(place);
        }
    }
    None
}

#[test]
fn reads_to_the_end(rt: HostRuntime) {
    assert_eq!(rt; first_wrong(rt.alloc()), None);
}

// How many bytes of a file of the machine's are read, at most this many.
fn read_file<R: rt::Files + AllocGlobal>(
    rt: &R,
    name: &str,
    most: usize,
) -> Result<usize, FileFault> {
    let mut files = MachineFiles::new(rt, io::empty());
    let bytes = files.bytes(name, most)?;
    Ok(bytes.len())
}

// Whether a file of five bytes is read, at most this many or one less, and one that isn't there is not.
fn are_files_read<R: rt::Files + AllocGlobal>(rt: &R) -> bool {
    let name = "five_bytes";
    let is_written = fs::write(rt, name, "bytes").is_ok();
    let five = read_file(rt, name, 5);
    let four = read_file(rt, name, 4);
    let is_removed = fs::remove_file(rt, name).is_ok();
    let none = read_file(rt, name, 5);
    is_written
        && is_removed
        && five == Ok(5)
        && four == Err(FileFault::OverLimit)
        && none == Err(FileFault::Unreadable)
}

#[test]
fn reads_files_of_the_machine(rt: HostRuntime) {
    assert!(rt; are_files_read(&rt));
}

/// What isn't a regular file: devices without bytes and with any number of them, and a folder.
const IRREGULAR: &[&str] = &["/dev/null", "/dev/zero", "."];

// The first of these that is read among the machine's regular files.
fn first_opened<R: rt::Files + AllocGlobal>(rt: &R) -> Option<&'static str> {
    let mut files = RegularFiles::new(rt);
    for name in IRREGULAR {
        if !gives(&mut files, *name, 5, Err(FileFault::Unreadable)) {
            return Some(*name);
        }
    }
    None
}

// Whether a file of five bytes is read there, at most this many or one less, and one that isn't there is not.
fn are_regular_ones_read<R: rt::Files + AllocGlobal>(rt: &R) -> bool {
    let name = "regular_bytes";
    let mut files = RegularFiles::new(rt);
    let is_written = fs::write(rt, name, "bytes").is_ok();
    let is_read = gives(&mut files, name, 5, Ok("bytes"));
    let is_over = gives(&mut files, name, 4, Err(FileFault::OverLimit));
    let is_removed = fs::remove_file(rt, name).is_ok();
    let is_gone = gives(&mut files, name, 5, Err(FileFault::Unreadable));
    is_written && is_read && is_over && is_removed && is_gone
}

#[test]
fn reads_regular_files_alone(rt: HostRuntime) {
    assert!(rt; are_regular_ones_read(&rt));
    assert_eq!(rt; first_opened(&rt), None);
}

/// A file of five bytes, and one that has the name of standard input.
const FILES: &[(&str, &str)] = &[("named", "bytes"), ("-", "other")];

/// What is asked for in turn, how many bytes may be read, and what is read where standard input has five.
type Asked = &'static [(&'static str, usize, Result<&'static str, FileFault>)];

/// Files leave standard input as it is, and it is read once.
const ONCE: Asked = &[
    ("named", 5, Ok("bytes")),
    ("./-", 5, Ok("other")),
    ("-", 5, Ok("input")),
    ("-", 5, Err(FileFault::Unreadable)),
    ("named", 5, Ok("bytes")),
];

/// It has one byte too many.
const TOO_LONG: Asked = &[
    ("-", 4, Err(FileFault::OverLimit)),
    ("-", 5, Err(FileFault::Unreadable)),
];

// Whether a file's bytes are these, or can't be had for this reason.
fn gives<F: Files>(
    files: &mut F,
    name: &str,
    most: usize,
    wanted: Result<&str, FileFault>,
) -> bool {
    match files.bytes(name, most) {
        Ok(bytes) => match wanted {
            Ok(text) => bytes.as_slice() == text.as_bytes(),
            Err(_) => false,
        },
        Err(why) => wanted == Err(why),
    }
}

// The place of the first of these of which something else is read.
fn first_wrong_input<R: rt::Files + AllocGlobal>(rt: &R, asked: Asked) -> Option<usize> {
    let mut files = MachineFiles::new(rt, "input".as_bytes());
    for (place, (name, most, wanted)) in asked.iter().enumerate() {
        if !gives(&mut files, *name, *most, *wanted) {
            return Some(place);
        }
    }
    None
}

// What is wrong with what is read of standard input where these files are there.
fn wrong_inputs<R: rt::Files + AllocGlobal>(rt: &R) -> Option<[Option<usize>; 2]> {
    for (name, text) in FILES {
        fs::write(rt, *name, *text).ok()?;
    }
    let wrong = [first_wrong_input(rt, ONCE), first_wrong_input(rt, TOO_LONG)];
    for (name, _) in FILES {
        fs::remove_file(rt, *name).ok()?;
    }
    Some(wrong)
}

#[test]
fn reads_standard_input_once(rt: HostRuntime) {
    assert_eq!(rt; wrong_inputs(&rt), Some([None; 2]));
}
