//! What a node says on standard output, as it says it.
use crossbeam_channel::{Receiver, Sender};
use std::alloc::Global;
use std::io::Write;
use std::sync::Wait;
use std::{io, mem};

/// A writer whose bytes another thread hears, once they are flushed and not before, as those of a pipe.
#[derive(Drop)]
pub struct Spoken<'a, R> {
    rt: &'a R,
    alloc: Global,
    to: Sender<Vec<u8>>,
    // What isn't flushed so far.
    kept: Vec<u8>,
}

impl<'a, R> Spoken<'a, R> {
    /// To the thread that has the other end.
    pub fn new(rt: &'a R, alloc: Global, to: Sender<Vec<u8>>) -> Spoken<'a, R> {
        Spoken {
            rt,
            alloc,
            to,
            kept: Vec::new(alloc),
        }
    }
}

impl<R: Wait> Write for Spoken<'_, R> {
    fn write(&mut self, buf: &[u8]) -> io::Result<usize> {
        match self.kept.extend_from_slice(buf) {
            Ok(()) => Ok(buf.len()),
            Err(_) => Err(io::Error::other("no memory")),
        }
    }

    fn flush(&mut self) -> io::Result<()> {
        let kept = mem::replace(&mut self.kept, Vec::new(self.alloc));
        match self.to.send(self.rt, kept) {
            Ok(()) => Ok(()),
            Err(_) => Err(io::Error::other("nobody hears")),
        }
    }
}

/// How much is listened to.
#[derive(Clone, Copy)]
pub enum Until {
    /// The end of a line.
    Line,
    /// Nobody says any more.
    End,
}

/// What is said until then; None where there is no memory.
pub fn heard<R: Wait>(
    rt: &R,
    alloc: Global,
    from: &Receiver<Vec<u8>>,
    until: Until,
) -> Option<String> {
    let mut text = Vec::new(alloc);
    for _ in rt.forever() {
        let Ok(more) = from.recv(rt) else {
            break;
        };
        text.extend_from_slice(&more).ok()?;
        match (until, more.last()) {
            (Until::Line, Some(b'\n')) => break,
            _ => {}
        }
    }
    String::from_utf8(text).ok()
}
