//! Writers that refuse.
use crate::{printed, traced};
use fedrun_replay::ReplayFault;
use std::alloc::Global;
use std::io;
use std::io::Write;
use tests_samples::{COUNTER, loaded};

/// A writer that keeps this many bytes, and then refuses.
#[derive(Drop)]
struct Narrow {
    room: usize,
    kept: Vec<u8>,
}

impl Write for Narrow {
    fn write(&mut self, buf: &[u8]) -> io::Result<usize> {
        if self.room == 0 {
            return Err(io::Error::other("no room"));
        }
        let count = buf.len().min(self.room);
        self.room -= count;
        for byte in buf.iter().take(count) {
            if self.kept.push(*byte).is_err() {
                return Err(io::Error::other("no memory"));
            }
        }
        Ok(count)
    }

    fn flush(&mut self) -> io::Result<()> {
        Ok(())
    }
}

// How `frames` ends where a writer has room for this many bytes.
fn ended_in(alloc: Global, schedule: &str, room: usize) -> Option<Result<(), ReplayFault>> {
    let federation = loaded(alloc, COUNTER, "")?;
    let mut out = Narrow {
        room,
        kept: Vec::new(alloc),
    };
    printed::ended(alloc, &federation, schedule, None, &mut out)
}

// `1 deliver up src 9` and `  no such frame`, each with the end of its line, are 35 bytes.
#[test]
fn answers_that_it_cannot_write(rt: HostRuntime) {
    for (room, wanted) in [
        (0, Err(ReplayFault::CannotWrite)),
        (19, Err(ReplayFault::CannotWrite)),
        (34, Err(ReplayFault::CannotWrite)),
        (35, Ok(())),
    ] {
        let answer = ended_in(rt.alloc(), "deliver up src 9\n", room);
        assert_eq!(rt; answer, Some(wanted), "{room}");
    }
}

const SCHEDULE: &str = "announce src\ndeliver up src 1\ndeliver up src 9\n";

// Whether a trace ends so in a writer with this much room, which has the first bytes of the whole.
fn has_first_bytes(alloc: Global, whole: &str, room: usize) -> bool {
    let Some(federation) = loaded(alloc, COUNTER, "") else {
        return false;
    };
    let mut out = Narrow {
        room,
        kept: Vec::new(alloc),
    };
    let answer = traced::ended(alloc, &federation, SCHEDULE, None, &mut out);
    let wanted = if room < whole.len() {
        Err(ReplayFault::CannotWrite)
    } else {
        Ok(())
    };
    let first = whole.as_bytes().get(..room).unwrap_or(whole.as_bytes());
    answer == Some(wanted) && out.kept.as_slice() == first
}

#[test]
fn writers_that_refuse_have_the_first_bytes_of_a_trace(rt: HostRuntime) {
    let alloc = rt.alloc();
    let whole = traced::traced(alloc, SCHEDULE, None).unwrap_or(String::new(alloc));
    let length = whole.len();
    assert!(rt; length > 1000, "{length}");
    for room in [
        0,
        1,
        2,
        100,
        500,
        1000,
        length - 3,
        length - 1,
        length,
        length + 1,
    ] {
        assert!(rt; has_first_bytes(alloc, whole.as_str(), room), "{room}");
    }
}
