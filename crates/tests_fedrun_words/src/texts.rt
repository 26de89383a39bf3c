//! How a text is written to a writer that is interrupted.
use fedrun_words::print_text;
use std::alloc::Global;
use std::io;
use std::io::{ErrorKind, Write};

/// A writer that is interrupted before each piece, and takes a few bytes of each.
#[derive(Drop)]
struct Interrupted {
    taken: Vec<u8>,
    is_next: bool,
}

impl Write for Interrupted {
    fn write(&mut self, buf: &[u8]) -> io::Result<usize> {
        self.is_next = !self.is_next;
        if self.is_next {
            return Err(io::Error::from(ErrorKind::Interrupted));
        }
        let count = buf.len().min(7);
        self.taken.extend_from_slice(&buf[..count])?;
        Ok(count)
    }

    fn flush(&mut self) -> io::Result<()> {
        Ok(())
    }
}

// Whether a text of this many bytes is written whole, whenever it is interrupted, and whether that is said.
fn is_written(alloc: Global, tens: usize) -> Option<(bool, bool)> {
    let text = "0123456789".repeat(alloc, tens).ok()?;
    let mut out = Interrupted {
        taken: Vec::new(alloc),
        is_next: false,
    };
    let is_whole = print_text(&mut out, &text);
    Some((is_whole, out.taken.as_slice() == text.as_bytes()))
}

// A text goes to its writer in pieces of 1024 bytes: the longest of these has four.
#[test]
fn writes_a_text_to_a_writer_that_is_interrupted(rt: HostRuntime) {
    for tens in [0, 1, 100, 400] {
        assert_eq!(rt; is_written(rt.alloc(), tens), Some((true, true)), "{tens}");
    }
}
