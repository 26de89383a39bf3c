//! Writers that refuse.
use crate::audits::{HONEST, named, report_files};
use fedrun_progress::NoProgress;
use std::io;
use std::io::Write;
use std::net::{Net, TcpListener, TcpStream};
use tests_outcomes::{NamedFiles, status_into};
use tests_samples::{COUNTER, Machine};

/// A writer that takes so many bytes, and refuses more.
#[derive(Drop)]
struct Narrow {
    room: usize,
    /// Whether it sends on what it took.
    is_flushed: bool,
}

impl Write for Narrow {
    fn write(&mut self, buf: &[u8]) -> io::Result<usize> {
        if self.room == 0 {
            return Err(io::Error::other("no room"));
        }
        let count = buf.len().min(self.room);
        self.room -= count;
        Ok(count)
    }

    fn flush(&mut self) -> io::Result<()> {
        if self.is_flushed {
            Ok(())
        } else {
            Err(io::Error::other("no way out"))
        }
    }
}

/// Commands over the counter, and rooms of the writer: those that are too narrow for what each of the commands prints,
/// and one that isn't sent on.
const REFUSED: &[(&[&[&str]], &[(usize, bool)])] = &[
    (
        &[
            &["whole", "f", "-", "4"],
            &["replay", "f", "-", "i", "--until-stuck", "9"],
            &["check", "f"],
            &["run", "f", "-"],
            &["audit", "f", "i", "c", "0", "1"],
        ],
        &[(0, true), (1, true), (40, true), (100_000, false)],
    ),
    // These print nothing over the counter, or much, and send on what they print.
    (
        &[
            &["record", "f", "-"],
            &["frames", "f", "-", "i"],
            &["trace", "f", "-", "i"],
            &["draw", "f"],
            &["draw", "f", "-", "i"],
            &["lint", "f"],
            &["help"],
        ],
        &[(100_000, false)],
    ),
];

// Whether a command says that it can't write whose rows go to a writer of this room.
fn is_refused<R: Machine + Net<Stream = TcpStream, Listener = TcpListener>>(
    rt: &R,
    words: &[&str],
    files: &[(&str, &[u8])],
    room: usize,
    is_flushed: bool,
) -> bool {
    let mut files = NamedFiles::new(rt.alloc(), files);
    let mut out = Narrow { room, is_flushed };
    let mut err = Vec::new(rt.alloc());
    let status = status_into(rt, words, &mut files, &mut out, &mut err, &NoProgress);
    status == Some(3) && err.as_slice() == "fedrun: cannot write\n".as_bytes()
}

// How many of these commands say so, each of them in each of these rooms.
fn refusals_of<R: Machine + Net<Stream = TcpStream, Listener = TcpListener>>(
    rt: &R,
    files: &[(&str, &[u8])],
    commands: &[&[&str]],
    rooms: &[(usize, bool)],
) -> usize {
    let mut count = 0usize;
    for words in commands {
        for (room, is_flushed) in rooms {
            if is_refused(rt, words, files, *room, *is_flushed) {
                count = count.saturating_add(1);
            }
        }
    }
    count
}

// How many say so of all.
fn refusals<R: Machine + Net<Stream = TcpStream, Listener = TcpListener>>(
    rt: &R,
    files: &[(&str, &[u8])],
) -> usize {
    let mut count = 0usize;
    for (commands, rooms) in REFUSED {
        count = count.saturating_add(refusals_of(rt, files, commands, rooms));
    }
    count
}

// The same over the counter and its reports.
fn all_refusals<R: Machine + Net<Stream = TcpStream, Listener = TcpListener>>(
    rt: &R,
) -> Option<usize> {
    let alloc = rt.alloc();
    let counter = COUNTER;
    let files = report_files(alloc, counter, "", HONEST)?;
    let files = named(alloc, counter, "", HONEST, files.as_slice())?;
    Some(refusals(rt, files.as_slice()))
}

#[test]
fn prints_that_it_cannot_write(rt: HostRuntime) {
    assert_eq!(rt; all_refusals(&rt), Some(27));
}

// What a command answers over an empty federation, where standard error has room for three bytes.
fn status_untold<R: Machine + Net<Stream = TcpStream, Listener = TcpListener>>(
    rt: &R,
) -> Option<u8> {
    let files = [("f", "".as_bytes())];
    let mut files = NamedFiles::new(rt.alloc(), &files);
    let mut out = Vec::new(rt.alloc());
    let mut err = Narrow {
        room: 3,
        is_flushed: true,
    };
    status_into(
        rt,
        &["check", "f"],
        &mut files,
        &mut out,
        &mut err,
        &NoProgress,
    )
}

#[test]
fn answers_the_same_where_the_line_cannot_be_written(rt: HostRuntime) {
    assert_eq!(rt; status_untold(&rt), Some(1));
}
