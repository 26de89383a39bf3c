//! The connection that a federate's process has, for whoever ends it.
//!
//! A federate's reader waits for what the coordinator sends, however long. Where the coordinator's machine is silent,
//! nothing comes any more, not even the end. So a run that is to end would not; here its last connection is ended a
//! second after that.
ghost use Rattle.std.specs.Prelude.{◌≡◌};

use std::sync::{Arc, Mutex, Wait};
use std::thread;
use std::time::{Clock, Duration};
use wires_transports::times::{CALM_PAUSE_MS, END_MS, PAUSE_MS};
use wires_transports::{Cut, Deadline, Ending, TcpCut};

/// The connection that was made last, if there was one.
#[derive(Drop)]
pub struct LastConnection {
    cut: Mutex<Option<Arc<TcpCut>>>,
}

impl LastConnection {
    /// None so far.
    pub fn new() -> LastConnection {
        LastConnection {
            cut: Mutex::new(None),
        }
    }

    /// From now on it is this one.
    pub(crate) fn set<R: Wait>(&self, rt: &R, cut: Arc<TcpCut>) {
        let mut place = self.cut.lock(rt);
        *place = Some(cut);
    }

    /// Waits until the run is to end. Then it ends the connection, once no worker has it any more or the time for that
    /// is over.
    pub(crate) fn end<R: Wait + Clock>(&self, rt: &R, ending: &Ending) {
        for _ in rt.forever() {
            if ending.is_set() {
                break;
            }
            thread::sleep(rt, Duration::from_millis(CALM_PAUSE_MS));
        }
        let deadline = Deadline::after(rt, END_MS);
        for _ in rt.forever() {
            if self.is_given_up(rt) || deadline.has_passed(rt) {
                break;
            }
            thread::sleep(rt, Duration::from_millis(PAUSE_MS));
        }
        self.cut(rt);
    }

    // Whether no worker has it.
    fn is_given_up<R: Wait>(&self, rt: &R) -> bool {
        match &*self.cut.lock(rt) {
            Some(cut) => Arc::strong_count(cut) == 1,
            None => true,
        }
    }

    // Ends both its directions.
    fn cut<R: Wait>(&self, rt: &R) {
        if let Some(cut) = &*self.cut.lock(rt) {
            cut.cut(rt);
        }
    }
}
