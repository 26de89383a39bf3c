use crate::measures::{Measures, millis_since};
use fedrun_progress::Progress;
use files_stats::Stats;
use std::sync::{Mutex, Wait};
use std::time::{Clock, Instant};
use tag::{Tag, Time};
use wires_traffic::RunCounts;

/// What is measured of a `run`. It is told how far that is, and tells so on.
#[derive(Drop)]
pub struct RunMeasures<'p, R, P> {
    rt: &'p R,
    told: &'p P,
    // None where the clock couldn't be read.
    start: Option<Instant>,
    measures: Mutex<Measures>,
}

impl<'p, R: Wait + Clock, P: Progress> RunMeasures<'p, R, P> {
    /// Of a run that begins now.
    pub fn new(rt: &'p R, told: &'p P) -> RunMeasures<'p, R, P> {
        RunMeasures {
            rt,
            told,
            start: Instant::now(rt).ok(),
            measures: Mutex::new(Measures::new()),
        }
    }

    /// What was measured of the run, which ended now, with this status. None where no node ran.
    pub fn stats(&self, status: u8) -> Option<Stats<'static>> {
        let now = millis_since(self.rt, self.start);
        let measures = self.measures.lock(self.rt);
        measures.stats(status, now)
    }
}

impl<'p, R: Wait + Clock, P: Progress> Progress for RunMeasures<'p, R, P> {
    // All is loaded by then.
    fn until(&self, stop: Time) {
        let now = millis_since(self.rt, self.start);
        let mut measures = self.measures.lock(self.rt);
        measures.begin(now);
        drop(measures);
        self.told.until(stop);
    }

    fn rows(&self, more: usize, latest: Tag) {
        self.told.rows(more, latest);
    }

    fn steps(&self, made: usize) {
        self.told.steps(made);
    }

    fn ran(&self, counts: &RunCounts) {
        let now = millis_since(self.rt, self.start);
        let mut measures = self.measures.lock(self.rt);
        measures.end("run", now, Some(counts.coordinator), Some(counts.federates));
        drop(measures);
        self.told.ran(counts);
    }

    fn end(&self) {
        self.told.end();
    }
}
