//! Machines on which a test says what comes of a wait.
use std::io::ErrorKind;
use std::sync::Wait;
use std::sync::atomic::{AtomicU32, Ordering};
use std::time::{Clock, Duration};
use std::{io, thread};

/// How often somebody looks at the clock, at most, where he needn't wait: a few times before he sees that he was
/// notified. Who waits looks again after each 100 ms at the latest.
const FEW_LOOKS: u32 = 20;

/// A machine on which no time goes by: who waits goes on when he is notified, and not by himself. Where he ought to
/// have been notified and wasn't, he is let go on at last, so that the test ends.
#[derive(Drop)]
pub(crate) struct Standing<'a, R> {
    rt: &'a R,
    looks: AtomicU32,
    // Who looks more often waits too long.
    most: AtomicU32,
}

impl<'a, R> Standing<'a, R> {
    /// Nobody has waited, and whoever does may wait.
    pub fn new(rt: &'a R) -> Standing<'a, R> {
        Standing {
            rt,
            looks: AtomicU32::new(0),
            most: AtomicU32::new(u32::MAX),
        }
    }

    /// From now on nobody needs to wait: of all that he waits for he is notified before.
    pub fn expect_no_wait(&self) {
        let most = self.looks.load(Ordering::SeqCst).saturating_add(FEW_LOOKS);
        self.most.store(most, Ordering::SeqCst);
    }

    /// Whether somebody waited all the same.
    pub fn is_late(&self) -> bool {
        self.looks.load(Ordering::SeqCst) > self.most.load(Ordering::SeqCst)
    }
}

impl<'a, R: Wait> Standing<'a, R> {
    /// Waits until who waits here has looked at the clock this often: once before he sees whether he was notified, and
    /// again where he wasn't.
    pub fn wait_for_looks(&self, count: u32) {
        for _ in self.rt.forever() {
            if self.looks.load(Ordering::SeqCst) >= count {
                break;
            }
            thread::yield_now();
        }
    }
}

impl<'a, R: Wait> Wait for Standing<'a, R> {}

impl<'a, R> Clock for Standing<'a, R> {
    fn monotonic(&self) -> io::Result<Duration> {
        if self.looks.fetch_add(1, Ordering::SeqCst) < self.most.load(Ordering::SeqCst) {
            Ok(Duration::ZERO)
        } else {
            Err(io::Error::from(ErrorKind::TimedOut))
        }
    }

    fn since_1970(&self) -> io::Result<Duration> {
        self.monotonic()
    }
}
