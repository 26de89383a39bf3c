use crate::retry_state::RetryState;
use crossbeam_channel::{Receiver, Sender, unbounded};
use std::alloc::{AllocError, Global};
use std::sync::atomic::{AtomicBool, Ordering};
use std::sync::{Mutex, MutexGuard, Wait};
use std::time::{Clock, Duration};
use wires_transports::times::RUNNER_WAIT_MS;

/// What a runner is notified of.
#[derive(Clone, Copy, Debug, PartialEq, Eq)]
pub enum WakeUp {
    /// An event of its node did something.
    Done,
    /// An attempt to connect failed. It counts as a turn.
    NotConnected,
}

/// The wake-ups that were waiting.
#[derive(Clone, Copy, Debug, PartialEq, Eq)]
pub struct Waited {
    /// Whether something was done.
    pub has_done: bool,
    /// How many attempts to connect failed.
    pub failed: u32,
}

/// The wake-ups of a node's workers to its runner, and how many turns are left to them. However much is done, a `Done`
/// that waits is not sent again.
#[derive(Drop)]
pub struct WakeUps {
    sender: Sender<WakeUp>,
    receiver: Receiver<WakeUp>,
    // Whether `Done` was sent since the runner last took what was waiting.
    is_done_sent: AtomicBool,
    // Whoever makes turns of the node has it, so that all of them are counted.
    state: Mutex<RetryState>,
}

impl WakeUps {
    /// None is waiting, and no turn is left.
    pub fn new(alloc: Global) -> Result<WakeUps, AllocError> {
        let (sender, receiver) = unbounded(alloc)?;
        Ok(WakeUps {
            sender,
            receiver,
            is_done_sent: AtomicBool::new(false),
            state: Mutex::new(RetryState::new(0)),
        })
    }

    /// Notifies the runner. Where there is no memory for it, it isn't notified.
    pub fn tell<R: Wait>(&self, rt: &R, wake_up: WakeUp) {
        if wake_up == WakeUp::NotConnected || !self.is_done_sent.swap(true, Ordering::SeqCst) {
            let _ = self.sender.send(rt, wake_up);
        }
    }

    /// Waits for a wake-up. Returns None where none came for too long.
    pub fn wait<R: Wait + Clock>(&self, rt: &R) -> Option<WakeUp> {
        self.receiver
            .recv_timeout(rt, Duration::from_millis(RUNNER_WAIT_MS))
            .ok()
    }

    /// Takes all wake-ups that are waiting, before a turn that answers them. What is done before it ends is seen by
    /// that turn, and of what is done after it there is a wake-up again.
    pub fn take_waiting<R: Wait>(&self, rt: &R) -> Waited {
        let mut waited = Waited {
            has_done: false,
            failed: 0,
        };
        for _ in rt.forever() {
            match self.receiver.try_recv(rt) {
                Ok(WakeUp::Done) => waited.has_done = true,
                Ok(WakeUp::NotConnected) => waited.failed = waited.failed.saturating_add(1),
                Err(_) => break,
            }
        }
        self.is_done_sent.store(false, Ordering::SeqCst);
        waited
    }

    /// Waits until nobody else makes turns. Returns how many are left.
    pub(crate) fn state<R: Wait>(&self, rt: &R) -> MutexGuard<'_, RetryState> {
        self.state.lock(rt)
    }

    /// How many turns are left, unless somebody else makes some. Who holds a desk's lock doesn't wait for the runner,
    /// which may be waiting for that lock.
    pub(crate) fn try_state(&self) -> Option<MutexGuard<'_, RetryState>> {
        self.state.try_lock()
    }
}
