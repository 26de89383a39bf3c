use crate::barrier::Barrier;
use crate::happening::{GivenUp, Happening};
use crate::heard::Heard;
use crate::last_connection::LastConnection;
use crate::look::{Look, NoLook};
use crate::overview::Overview;
use crate::silence::Silence;
use crate::times::{PATIENCE_LOOK_MS, WATCH_LOOK_MS};
use std::alloc::Global;
use std::sync::Wait;
use std::thread;
use std::time::{Clock, Duration};
use wires::{Work, WorkerResult};
use wires_transports::{Deadline, Ending};

/// Ends a run in which nothing was heard for too long, or nothing may leave any more: it gives up, and says so before.
/// It ends with the run, and then ends the last connection.
#[derive(Drop)]
pub struct Patience<'a, B: Barrier> {
    pub heard: &'a Heard,
    pub barrier: &'a B,
    pub ending: &'a Ending,
    /// How long nothing has to be heard; None is for ever.
    pub most: Option<Duration>,
    /// A federate's connection, for which nobody else is there to end it.
    pub last: Option<&'a LastConnection>,
}

/// The same at a node at which it looks, so that whoever watches is told how far a run is, and for whom it stands
/// still; four times a second where each federate stands, where that is wanted and all was taken that was told before.
#[derive(Drop)]
pub struct Watching<'a, B: Barrier, L: Look> {
    pub patience: Patience<'a, B>,
    pub look: L,
}

impl<'a, B: Barrier> Work for Patience<'a, B> {
    fn work<R: Wait + Clock>(self, rt: &R, alloc: Global) -> WorkerResult {
        self.watch(rt, alloc, &NoLook);
        WorkerResult::none()
    }
}

impl<'a, B: Barrier, L: Look> Work for Watching<'a, B, L> {
    fn work<R: Wait + Clock>(self, rt: &R, alloc: Global) -> WorkerResult {
        self.patience.watch(rt, alloc, &self.look);
        WorkerResult::none()
    }
}

impl<'a, B: Barrier> Patience<'a, B> {
    // Waits until the run is to end, and ends the last connection.
    fn watch<R: Wait + Clock, L: Look>(&self, rt: &R, alloc: Global, look: &L) {
        self.wait(rt, alloc, look);
        if let Some(last) = self.last {
            last.end(rt, self.ending);
        }
    }

    // Waits until the run is to end, or until nothing was heard for too long or nothing may leave any more: then it is
    // to.
    fn wait<R: Wait + Clock, L: Look>(&self, rt: &R, alloc: Global, look: &L) {
        let mut overview = Overview::new(rt, alloc, self.heard, look);
        let mut silence = Silence::new(self.heard.count());
        let mut next = Deadline::after(rt, 0);
        for _ in rt.forever() {
            if self.ending.is_set() {
                break;
            }
            if let Some(why) = self.reason(silence.quiet_ms) {
                self.heard.tell(rt, rt, Happening::GaveUp(why));
                overview.tell_standings(rt);
                self.heard.give_up();
                self.ending.set();
                break;
            }
            if self.heard.wants_look() && next.has_passed(rt) {
                overview.tell_looked(rt);
                next = Deadline::after(rt, WATCH_LOOK_MS);
            }
            thread::sleep(rt, Duration::from_millis(PATIENCE_LOOK_MS));
            silence = silence.after_look(self.heard.count());
            overview.go_on(rt);
        }
    }

    // Why the run is to be given up, where nothing was heard for this many ms, if it is.
    fn reason(&self, quiet_ms: u64) -> Option<GivenUp> {
        if self.barrier.has_failed() {
            Some(GivenUp::Unkept)
        } else if self.is_too_long(quiet_ms) {
            Some(GivenUp::Silence)
        } else {
            None
        }
    }

    // Whether nothing was heard for too long, where it is this many ms.
    fn is_too_long(&self, quiet_ms: u64) -> bool {
        match self.most {
            Some(most) => Duration::from_millis(quiet_ms) >= most,
            None => false,
        }
    }
}
