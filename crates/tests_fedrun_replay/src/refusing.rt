//! A writer that refuses every write.
use crate::played::played;
use fedrun_replay::ReplayFault;
use std::alloc::Global;
use std::io;
use std::io::Write;
use tests_samples::{COUNTER, Federation, loaded};

#[derive(Drop)]
struct Refusing;

impl Write for Refusing {
    fn write(&mut self, _buf: &[u8]) -> io::Result<usize> {
        Err(io::Error::other("no room"))
    }

    fn flush(&mut self) -> io::Result<()> {
        Ok(())
    }
}

/// One whose rows can't be written, and one with a step that is refused before.
const SCHEDULES: &[&str] = &[
    "round\n",
    "announce src\nadvance src\nround\nround\ndeliver up src 4\n",
];

// Whether a replay says that it can't write; None where its schedule isn't taken.
fn is_told(alloc: Global, federation: &Federation, schedule: &str) -> Option<bool> {
    let played = played(alloc, federation, schedule, None, &mut Refusing)?;
    Some(matches!(played, Err(ReplayFault::CannotWrite)))
}

// The same of a replay over the counter.
fn cannot_write(alloc: Global, schedule: &str) -> Option<bool> {
    let federation = loaded(alloc, COUNTER, "")?;
    is_told(alloc, &federation, schedule)
}

#[test]
fn answers_that_it_cannot_write(rt: HostRuntime) {
    for schedule in SCHEDULES {
        assert_eq!(rt;
            cannot_write(rt.alloc(), schedule),
            Some(true),
            "{schedule}"
        );
    }
}
