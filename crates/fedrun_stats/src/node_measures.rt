use crate::measures::{Measures, millis_since};
use crossbeam_channel::{Receiver, Sender, bounded};
use files_stats::Stats;
use std::alloc::{AllocError, Global};
use std::sync::Wait;
use std::time::{Clock, Instant};
use wires_hosts::{Measured, Moment};

// What a node tells of itself and isn't taken so far, at most: it tells four moments.
const MOST_WAITING: usize = 16;

/// What is measured of a node that runs by itself, as it tells that.
#[derive(Drop)]
pub struct NodeMeasures {
    // None where the clock couldn't be read.
    start: Option<Instant>,
    measured: Receiver<Measured>,
}

impl NodeMeasures {
    /// Of a node that begins now, with the end over which it tells what is measured.
    pub fn new<C: Clock>(
        clock: &C,
        alloc: Global,
    ) -> Result<(NodeMeasures, Sender<Measured>), AllocError> {
        let (to, measured) = bounded(alloc, MOST_WAITING)?;
        let measures = NodeMeasures {
            start: Instant::now(clock).ok(),
            measured,
        };
        Ok((measures, to))
    }

    /// What was measured of the node, which ended now, with this status. None where it didn't run.
    pub fn stats<R: Wait + Clock>(&self, rt: &R, status: u8) -> Option<Stats<'static>> {
        let now = millis_since(rt, self.start);
        let mut measures = Measures::new();
        for _ in 0..MOST_WAITING {
            match self.measured.try_recv(rt) {
                Ok(told) => note(&mut measures, &told),
                Err(_) => break,
            }
        }
        measures.stats(status, now)
    }
}

// Notes what a node told.
fn note(measures: &mut Measures, told: &Measured) {
    let millis = told.millis;
    match told.moment {
        Moment::Runs => measures.begin(millis),
        Moment::CoordinatorRan(counts) => {
            measures.end("coordinate", millis, Some(counts), None);
        }
        Moment::FederateRan(counts) => measures.end("join", millis, None, Some(counts)),
        Moment::Tells => measures.tell(millis),
        Moment::HasTold => measures.end_telling(millis),
    }
}
