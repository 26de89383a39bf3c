//! The line that is shown of how far a command is.
use fedrun_progress::{Progress, ProgressLine};
use std::io::Write;
use std::net::{Net, TcpListener, TcpStream};
use std::sync::{Mutex, Wait};
use std::time::Duration;
use std::{io, thread};
use tag::{Tag, Time};
use tests_outcomes::{ANY, is_text};
use tests_samples::Machine;

/// A writer that keeps what is written where another thread can look at it.
#[derive(Drop)]
struct Kept<'a, R> {
    rt: &'a R,
    bytes: &'a Mutex<Vec<u8>>,
}

impl<'a, R: Wait> Write for Kept<'a, R> {
    fn write(&mut self, buf: &[u8]) -> io::Result<usize> {
        let mut bytes = self.bytes.lock(self.rt);
        bytes.extend_from_slice(buf)?;
        Ok(buf.len())
    }

    fn flush(&mut self) -> io::Result<()> {
        Ok(())
    }
}

/// What is told of a command.
#[derive(Clone, Copy)]
enum Telling {
    /// The time in ns until which it goes on.
    Until(u64),
    /// More rows, and the time in ns of the last one.
    Rows(usize, u64),
    Steps(usize),
}

fn tell<P: Progress>(line: &P, telling: Telling) -> Option<()> {
    match telling {
        Telling::Until(stop) => line.until(Time::new(stop)?),
        Telling::Rows(more, latest) => line.rows(more, Tag::new(Time::new(latest)?, 0)),
        Telling::Steps(made) => line.steps(made),
    }
    Some(())
}

// Waits until something is shown.
fn wait_for_some<R: Machine + Net<Stream = TcpStream, Listener = TcpListener>>(
    rt: &R,
    bytes: &Mutex<Vec<u8>>,
) {
    for _ in rt.forever() {
        if !bytes.lock(rt).is_empty() {
            break;
        }
        thread::sleep(rt, Duration::from_millis(5));
    }
}

// What is shown after all this is told, until the end is told.
fn shown<R: Machine + Net<Stream = TcpStream, Listener = TcpListener>>(
    rt: &R,
    told: &[Telling],
) -> Option<String> {
    let bytes = Mutex::new(Vec::new(rt.alloc()));
    let line = ProgressLine::new(rt);
    for telling in told {
        tell(&line, *telling)?;
    }
    let mut kept = Kept { rt, bytes: &bytes };
    thread::join(
        rt,
        || line.show(rt.alloc(), &mut kept),
        || {
            wait_for_some(rt, &bytes);
            line.end();
        },
    );
    String::from_utf8(bytes.into_inner()).ok()
}

/// What is told, and what stands before the seconds.
const LINES: &[(&[Telling], &str)] = &[
    (&[], "\r\x1b[K0 steps, "),
    (
        &[Telling::Steps(7), Telling::Steps(12)],
        "\r\x1b[K12 steps, ",
    ),
    (&[Telling::Until(20_000_000)], "\r\x1b[K0 rows of 20 ms, "),
    (
        &[
            Telling::Until(3_000_000_000),
            Telling::Rows(2, 0),
            Telling::Rows(3, 1_500_000_000),
        ],
        "\r\x1b[K5 rows, at 1500 ms of 3 s, ",
    ),
];

// Whether a line that begins so is shown after all this is told. What stands last on it is wiped.
fn is_shown<R: Machine + Net<Stream = TcpStream, Listener = TcpListener>>(
    rt: &R,
    told: &[Telling],
    line: &str,
) -> Option<bool> {
    let text = shown(rt, told)?;
    Some(is_text(text.as_str(), &[line, ANY, " s\r\x1b[K"]))
}

#[test]
fn line_is_shown_and_wiped(rt: HostRuntime) {
    for (told, line) in LINES {
        assert_eq!(rt; is_shown(&rt, told, line), Some(true), "{line:?}");
    }
}

// Where nobody shows it, nobody waits for it to be wiped.
#[test]
fn an_end_waits_for_no_line(rt: HostRuntime) {
    let line = ProgressLine::new(&rt);
    line.steps(1);
    line.end();
    let mut shown = Vec::new(rt.alloc());
    line.show(rt.alloc(), &mut shown);
    assert!(rt; shown.is_empty());
}
