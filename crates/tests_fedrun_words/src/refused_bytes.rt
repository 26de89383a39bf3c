//! A writer that takes no byte, though it doesn't fail: the text isn't written, and it isn't asked for ever.
use fedrun_words::print_text;
use std::io;
use std::io::Write;

/// A writer that takes this many bytes, and then none each time that it is asked; asked a thousand times it fails.
#[derive(Drop)]
struct Full {
    room: usize,
    asked: u32,
}

impl Write for Full {
    fn write(&mut self, buf: &[u8]) -> io::Result<usize> {
        self.asked = self.asked.saturating_add(1);
        if self.asked > 1000 {
            return Err(io::Error::other("asked again and again"));
        }
        let count = buf.len().min(self.room);
        self.room = self.room.saturating_sub(count);
        Ok(count)
    }

    fn flush(&mut self) -> io::Result<()> {
        Ok(())
    }
}

// Whether a text of ten bytes is written to a writer that takes this many, and how often that is asked.
fn asked(room: usize) -> (bool, u32) {
    let mut out = Full { room, asked: 0 };
    let is_written = print_text(&mut out, &"0123456789");
    (is_written, out.asked)
}

#[test]
fn gives_up_where_a_writer_takes_no_byte(rt: HostRuntime) {
    assert_eq!(rt; asked(0), (false, 1));
    assert_eq!(rt; asked(4), (false, 2));
    assert_eq!(rt; asked(10), (true, 1));
}
