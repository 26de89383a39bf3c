use std::time::{Clock, Duration, Instant};

/// When a wait is over.
#[derive(Clone, Copy)]
pub struct Deadline {
    // None where the clock can't be read.
    end: Option<Instant>,
}

impl Deadline {
    /// The wait is over this many ms from now.
    pub fn after<R: Clock>(rt: &R, millis: u64) -> Deadline {
        let end = match Instant::now(rt) {
            Ok(now) => now.checked_add(Duration::from_millis(millis)),
            Err(_) => None,
        };
        Deadline { end }
    }

    /// Whether it is over. Where the clock can't be read, it is: then nobody waits for ever.
    pub fn has_passed<R: Clock>(&self, rt: &R) -> bool {
        match (self.end, Instant::now(rt)) {
            (Some(end), Ok(now)) => now >= end,
            _ => true,
        }
    }
}
