//! Each node of a federation in threads is dropped at each of its sends in turn, and begun again over what its disk
//! kept: the run comes to its end with all rows, an audit believes the logs, and nothing has left a node whose cause
//! wasn't kept.
use crate::barred::{Course, coordinator_lives, federate_lives};
use crate::cases::RING;
use crate::fuse::{ENDLESS, Fuse, LogLeft};
use crate::given::Given;
use crate::judging::{Logs, is_ended, judge};
use crate::lines::{Coming, turn_away};
use crate::stop::Stop;
use crossbeam_channel::{Receiver, Sender, unbounded};
use std::alloc::Global;
use std::sync::atomic::{AtomicUsize, Ordering};
use std::thread;
use tests_samples::Machine;
use wires_transports::Ending;

/// More sends than any node makes.
const MOST_SENDS: u64 = 500;

/// The places of the nodes.
const FIRST: usize = 0;

const SECOND: usize = 1;

const COORDINATOR: usize = 2;

/// Each node sends as often at least: a greeting, something for each of two rows, and what ends the run.
const FEWEST_SENDS: u64 = 4;

/// What is said in a run besides frames.
#[derive(Drop)]
struct Outside {
    /// The coordinator says that the run is finished.
    finished: Ending,
    /// How many federates won't be begun again.
    over: AtomicUsize,
}

impl Outside {
    // What a node is given in such a run.
    fn course<'a, R>(&'a self, rt: &'a R, alloc: Global, given: &'a Given) -> Course<'a, R> {
        Course {
            rt,
            alloc,
            given,
            finished: &self.finished,
        }
    }
}

// Runs the coordinator, and then nobody is let in until both federates are over.
fn coordinates<R: Machine>(
    course: &Course<'_, R>,
    outside: &Outside,
    coming: &Receiver<Coming>,
    fuse: Fuse,
) -> Result<LogLeft, Stop> {
    let kept = coordinator_lives(course, coming, fuse);
    for _ in course.rt.forever() {
        if outside.over.load(Ordering::SeqCst) == 2 {
            break;
        }
        turn_away(course.rt, coming);
    }
    kept
}

// Runs a federate.
fn joins<R: Machine>(
    course: &Course<'_, R>,
    outside: &Outside,
    number: usize,
    to: &Sender<Coming>,
    fuse: Fuse,
) -> Result<LogLeft, Stop> {
    let kept = federate_lives(course, number, to, fuse);
    outside.over.fetch_add(1, Ordering::SeqCst);
    kept
}

// Runs the coordinator and both federates, of which the node of this place is dropped so: the coordinator is behind the
// federates. Whether it was, where an audit believes their logs.
fn run<R: Machine>(
    rt: &R,
    alloc: Global,
    given: &Given,
    place: usize,
    fuse: Fuse,
) -> Result<bool, Stop> {
    let Ok((to, coming)) = unbounded(alloc) else {
        return Err(Stop::Memory);
    };
    let outside = Outside {
        finished: Ending::new(),
        over: AtomicUsize::new(0),
    };
    let [first, second, own] = [0, 1, 2].map(|other| if other == place { fuse } else { ENDLESS });
    let (coordinator, (first, second)) = thread::join(
        rt,
        || coordinates(&outside.course(rt, alloc, given), &outside, &coming, own),
        || {
            thread::join(
                rt,
                || joins(&outside.course(rt, alloc, given), &outside, 0, &to, first),
                || joins(&outside.course(rt, alloc, given), &outside, 1, &to, second),
            )
        },
    );
    are_right(alloc, given, coordinator?, first?, second?)
}

// Whether one of them was dropped, where an audit believes their logs.
fn are_right(
    alloc: Global,
    given: &Given,
    coordinator: LogLeft,
    first: LogLeft,
    second: LogLeft,
) -> Result<bool, Stop> {
    let is_dropped = coordinator.is_dropped || first.is_dropped || second.is_dropped;
    for bytes in [&coordinator.bytes, &first.bytes, &second.bytes] {
        if !is_ended(alloc, given, bytes) {
            return Err(Stop::Unended);
        }
    }
    let mut federates = Vec::new(alloc);
    if federates.push(first.bytes).is_err() || federates.push(second.bytes).is_err() {
        return Err(Stop::Memory);
    }
    let logs = Logs {
        coordinator: coordinator.bytes,
        federates,
    };
    judge(alloc, given, &logs)?;
    Ok(is_dropped)
}

// How many sends the node of this place makes that may be dropped at each of them, what caused it being kept before or
// not; else at which of them it may not.
fn sends_of<R: Machine>(
    rt: &R,
    alloc: Global,
    given: &Given,
    place: usize,
    is_kept: bool,
) -> Result<u64, (u64, Stop)> {
    for going in 0..MOST_SENDS {
        match run(rt, alloc, given, place, Fuse { going, is_kept }) {
            Ok(true) => {}
            Ok(false) => return Ok(going),
            Err(stop) => return Err((going, stop)),
        }
    }
    Err((MOST_SENDS, Stop::DoesNotGoOn))
}

// Whether a ring goes on at whichever of its sends this node is dropped, whether what caused it is kept before or not;
// else where it doesn't.
fn goes_on<R: Machine>(rt: &R, alloc: Global, place: usize) -> Result<bool, Option<(u64, Stop)>> {
    let Some(given) = Given::load(alloc, &RING) else {
        return Err(None);
    };
    for is_kept in [false, true] {
        match sends_of(rt, alloc, &given, place, is_kept) {
            Ok(sends) if sends >= FEWEST_SENDS => {}
            Ok(_) => return Ok(false),
            Err(exception) => return Err(Some(exception)),
        }
    }
    Ok(true)
}

#[test]
fn a_ring_goes_on_at_whichever_send_its_first_federate_is_dropped(rt: HostRuntime) {
    let goes_on = goes_on(&rt, rt.alloc(), FIRST);
    assert!(rt; matches!(goes_on, Ok(true)), "{goes_on:?}");
}

#[test]
fn a_ring_goes_on_at_whichever_send_its_second_federate_is_dropped(rt: HostRuntime) {
    let goes_on = goes_on(&rt, rt.alloc(), SECOND);
    assert!(rt; matches!(goes_on, Ok(true)), "{goes_on:?}");
}

#[test]
fn a_ring_goes_on_at_whichever_send_its_coordinator_is_dropped(rt: HostRuntime) {
    let goes_on = goes_on(&rt, rt.alloc(), COORDINATOR);
    assert!(rt; matches!(goes_on, Ok(true)), "{goes_on:?}");
}
