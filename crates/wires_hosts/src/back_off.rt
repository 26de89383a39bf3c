//! How long to wait before an attempt to connect.
ghost use Rattle.std.specs.Prelude.{◌≡◌};
ghost use Rattle.wires_hosts.specs.BackOff as definition;

use crate::times::{FIRST_PAUSE_MS, MOST_PAUSE_MS};
use std::sync::atomic::{AtomicU64, Ordering};

/// The pauses of one dialer, which makes its attempts one after the other.
#[derive(Drop)]
pub struct BackOff {
    // The pause before the next attempt, in ms, unless something was heard since the last one.
    pause: AtomicU64,
    // How often something had been heard as the last attempt began.
    heard: AtomicU64,
}

impl BackOff {
    /// No attempt was made so far: there is no pause before the first one.
    pub fn new() -> BackOff {
        BackOff {
            pause: AtomicU64::new(0),
            heard: AtomicU64::new(0),
        }
    }

    /// Begins an attempt, where this is how often something was heard by now; the pause before it, in ms.
    pub fn begin(&self, heard: u64) -> u64 {
        let before = self.heard.swap(heard, Ordering::SeqCst);
        let pause = pause_before(self.pause.load(Ordering::SeqCst), before, heard);
        self.pause.store(next_pause(pause), Ordering::SeqCst);
        pause
    }
}

/// The pause before the attempt behind one that came to nothing, before which there was this pause, both in ms.
pub fn next_pause(pause: u64) -> u64
    ensures { result ≡ definition.next_pause pause }
{
    if pause == 0 {
        FIRST_PAUSE_MS
    } else if pause < MOST_PAUSE_MS / 2 {
        2 * pause
    } else {
        MOST_PAUSE_MS
    }
}

// The pause before an attempt: this one, unless something was heard since the last attempt.
fn pause_before(pause: u64, heard_then: u64, heard_now: u64) -> u64
    ensures { result ≡ definition.pause_before pause heard_then heard_now }
{
    if heard_then == heard_now { pause } else { 0 }
}
