//! What whoever watches a node is told of a run that stands still or goes on, of who is missing, and of where federates
//! stand. No time goes by: the clock is simulated.
use crate::entrance::{Host, Machine};
use crate::process::{Process, is_told, told_by_now};
use crate::simulated::{Broken, Meanwhile, Nothing, Simulated};
use crossbeam_channel::Receiver;
use std::alloc::Global;
use std::sync::Wait;
use std::sync::atomic::{AtomicU64, Ordering};
use std::time::Duration;
use tag::{FiniteTag, Time};
use wires::Work;
use wires_hosts::{
    Awaited, GivenUp, Happening, Heard, HowFar, Look, NoBarrier, Patience, Reached, Standing,
    Teller, Told, Watcher, Watching,
};
use wires_transports::Ending;

/// What happens at each full second of a run.
#[derive(Drop)]
struct Course<'a> {
    process: &'a Process,
    /// Which federate is heard, from when until when, in ms; at a federate the coordinator by 0.
    hearings: &'a [(u16, u64, u64)],
    /// From when until when each federate completes a tag, in ms.
    completions: &'a [(u64, u64)],
    /// When the run is to end, in ms.
    end_ms: u64,
    /// When its process is stopped, and for how long, in ms.
    stop_ms: (u64, u64),
    /// The second in which they completed one last; 0 where they didn't.
    seconds: &'a AtomicU64,
}

impl<'a> Meanwhile for Course<'a> {
    fn at(&self, ms: u64) {
        if ms == self.end_ms {
            self.process.ending.set();
        }
        if ms % 1000 != 0 {
            return;
        }
        for (federate, from, until) in self.hearings {
            if *from <= ms && ms <= *until {
                self.process.heard.hear();
                self.process.heard.hear_of(*federate);
            }
        }
        for (from, until) in self.completions {
            if *from <= ms && ms <= *until {
                self.seconds.store(ms / 1000, Ordering::SeqCst);
            }
        }
    }

    fn stopped_ms(&self, ms: u64) -> u64 {
        if ms == self.stop_ms.0 {
            self.stop_ms.1
        } else {
            0
        }
    }
}

// The tag of so many ns.
fn tag(nanoseconds: u64) -> Option<FiniteTag> {
    Some(FiniteTag::new(Time::new(nanoseconds)?, 0))
}

// How far a federate is that completed a tag last in this second, and hasn't acknowledged so many signals.
fn reached(seconds: u64, unacked: usize) -> Reached {
    Reached {
        completed: if seconds == 0 { None } else { tag(seconds) },
        granted: None,
        unacked,
    }
}

/// Federates that are so far, of which the one of number 1 hasn't acknowledged so many signals, in a run that is over at
/// 200 ns.
#[derive(Drop)]
struct Reads<'a> {
    seconds: &'a AtomicU64,
    unacked: usize,
    is_federate: bool,
}

impl<'a> Look for Reads<'a> {
    fn look<R: Wait>(&self, _rt: &R, federate: usize) -> Reached {
        let seconds = self.seconds.load(Ordering::SeqCst);
        reached(seconds, if federate == 1 { self.unacked } else { 0 })
    }

    fn stop(&self) -> Option<Time> {
        Time::new(200)
    }

    fn is_federate(&self) -> bool {
        self.is_federate
    }
}

/// A run of so many federates, which are connected or not.
#[derive(Clone, Copy)]
struct Run<'a> {
    federates: usize,
    are_connected: bool,
    is_federate: bool,
    unacked: usize,
    patience_ms: Option<u64>,
    hearings: &'a [(u16, u64, u64)],
    completions: &'a [(u64, u64)],
    end_ms: u64,
    stop_ms: (u64, u64),
}

/// A coordinator of two federates that are connected, in a run without an end in which nothing happens.
const COORDINATOR: Run<'static> = Run {
    federates: 2,
    are_connected: true,
    is_federate: false,
    unacked: 0,
    patience_ms: None,
    hearings: &[],
    completions: &[],
    end_ms: 0,
    stop_ms: (0, 0),
};

// Has whoever watches this process told of such a run.
fn run_through<R: Machine>(rt: &R, process: &Process, run: &Run<'_>) -> Option<()> {
    if run.are_connected {
        for federate in 0..run.federates {
            process
                .heard
                .note_connection(u16::try_from(federate).ok()?, true, 0);
        }
    }
    let seconds = AtomicU64::new(0);
    let course = Course {
        process,
        hearings: run.hearings,
        completions: run.completions,
        end_ms: run.end_ms,
        stop_ms: run.stop_ms,
        seconds: &seconds,
    };
    let machine = Simulated::new(rt, &Broken, course);
    let watching = Watching {
        patience: process.patience(run.patience_ms.map(|millis| Duration::from_millis(millis))),
        look: Reads {
            seconds: &seconds,
            unacked: run.unacked,
            is_federate: run.is_federate,
        },
    };
    let _ = watching.work(&machine, rt.alloc());
    Some(())
}

// Whether it is told of such a run that just this happens, in this order.
fn are_told<R: Machine>(rt: &R, run: &Run<'_>, told: &[Happening]) -> Option<bool> {
    let process = Process::of(rt.alloc(), run.federates)?;
    run_through(rt, &process, run)?;
    for what in told {
        if !is_told(rt, &process.told, *what) {
            return Some(false);
        }
    }
    Some(process.told.try_recv(rt).is_err())
}

// So many of three federates are there, or of two; the others are awaited.
fn awaiting(present: u16, federates: u16) -> Awaited {
    Awaited {
        present,
        federates,
        first: if present < federates {
            Some(present)
        } else {
            None
        },
        more: federates.saturating_sub(present).saturating_sub(1),
    }
}

// Where a federate stands that never completed a tag, and has or hasn't been connected since the begin.
fn stands(federate: u16, is_connected: bool, lasting_ms: u64, quiet_ms: Option<u64>) -> Standing {
    Standing {
        federate,
        is_connected,
        lasting_ms,
        quiet_ms,
        reached: Reached::nothing(),
    }
}

// A coordinator of two federates that aren't connected, with a patience of 12 s: of one of them something is heard after
// 7 s.
fn is_silence_told<R: Machine>(rt: &R) -> Option<bool> {
    let run = Run {
        are_connected: false,
        patience_ms: Some(12_000),
        hearings: &[(0, 7000, 7000)],
        ..COORDINATOR
    };
    are_told(
        rt,
        &run,
        &[
            Happening::Still(5000, awaiting(0, 2)),
            Happening::Missing(stands(0, false, 5050, None)),
            Happening::Missing(stands(1, false, 5050, None)),
            Happening::Missing(stands(1, false, 10_050, None)),
            Happening::Missing(stands(0, false, 12_000, Some(5000))),
            Happening::Still(5000, awaiting(0, 2)),
            Happening::Missing(stands(0, false, 17_000, Some(10_000))),
            Happening::Still(10_000, awaiting(0, 2)),
            Happening::GaveUp(GivenUp::Silence),
            Happening::Stands(stands(0, false, 19_000, Some(12_000))),
            Happening::Stands(stands(1, false, 19_000, None)),
        ],
    )
}

#[test]
fn tells_that_a_run_stands_still_and_for_whom(rt: HostRuntime) {
    assert_eq!(rt; is_silence_told(&rt), Some(true));
}

// How far a run is that completed a tag last in this second.
fn how_far(seconds: u64, is_going_on: bool) -> Option<HowFar> {
    Some(HowFar {
        completed: tag(seconds),
        stop: Time::new(200)?,
        is_going_on,
    })
}

// That federate 1 is missing, which is connected since the begin, and hasn't acknowledged three signals.
fn missing(lasting_ms: u64, seconds: u64, quiet_ms: u64) -> Happening {
    Happening::Missing(Standing {
        federate: 1,
        is_connected: true,
        lasting_ms,
        quiet_ms: Some(quiet_ms),
        reached: reached(seconds, 3),
    })
}

// A coordinator of two federates that are connected, of which one acknowledges nothing and isn't heard from its second
// second to its twelfth, while the other one goes on.
fn is_missing_told<R: Machine>(rt: &R) -> Option<bool> {
    let run = Run {
        unacked: 3,
        hearings: &[(0, 1000, 13_000), (1, 1000, 1000), (1, 12_000, 13_000)],
        completions: &[(1000, 13_000)],
        end_ms: 13_000,
        ..COORDINATOR
    };
    are_told(
        rt,
        &run,
        &[
            missing(6000, 5, 5000),
            Happening::Runs(how_far(9, true)?, awaiting(2, 2)),
            missing(11_000, 10, 10_000),
            Happening::HeardAgain(1, 10_950),
        ],
    )
}

#[test]
fn tells_who_is_missing_though_others_are_heard(rt: HostRuntime) {
    assert_eq!(rt; is_missing_told(&rt), Some(true));
}

// Each of 20 federates is heard after a second, and two of them after 7 s.
fn hearings_of_many(alloc: Global) -> Option<Vec<(u16, u64, u64)>> {
    let mut hearings = Vec::new(alloc);
    for federate in 0..20 {
        hearings.push((federate, 1000, 1000)).ok()?;
    }
    hearings.push((3, 7000, 7000)).ok()?;
    hearings.push((18, 7000, 7000)).ok()?;
    Some(hearings)
}

// How many federates are told to be missing by their names, of how many more that is told, and how many are told to be
// heard again, of which the last has this number.
fn counts_told<R: Host>(rt: &R, told: &Receiver<Told>) -> [usize; 4] {
    let mut counts: [usize; 4] = [0; 4];
    for _ in 0..100 {
        match told_by_now(rt, told) {
            Some(Happening::Missing(_)) => counts[0] = counts[0].saturating_add(1),
            Some(Happening::Others(more)) => counts[1] = counts[1].saturating_add(more),
            Some(Happening::HeardAgain(federate, _)) => {
                counts[2] = counts[2].saturating_add(1);
                counts[3] = usize::from(federate);
            }
            Some(_) => {}
            None => break,
        }
    }
    counts
}

// The same of a coordinator of these, which aren't connected.
fn counts_of_many<R: Machine>(rt: &R) -> Option<[usize; 4]> {
    let hearings = hearings_of_many(rt.alloc())?;
    let run = Run {
        federates: 20,
        are_connected: false,
        hearings: &hearings,
        end_ms: 8000,
        ..COORDINATOR
    };
    let process = Process::of(rt.alloc(), run.federates)?;
    run_through(rt, &process, &run)?;
    Some(counts_told(rt, &process.told))
}

#[test]
fn tells_of_16_who_are_missing_and_who_of_them_is_heard_again(rt: HostRuntime) {
    assert_eq!(rt; counts_of_many(&rt), Some([16, 4, 1, 3]));
}

// A coordinator of three federates that are connected and heard of each second, and complete a tag each second but from
// the twentieth to the seventieth.
fn is_how_far_told<R: Machine>(rt: &R) -> Option<bool> {
    let run = Run {
        federates: 3,
        hearings: &[(0, 0, 130_000), (1, 0, 130_000), (2, 0, 130_000)],
        completions: &[(1000, 19_000), (70_000, 130_000)],
        end_ms: 130_000,
        ..COORDINATOR
    };
    are_told(
        rt,
        &run,
        &[
            Happening::Runs(how_far(9, true)?, awaiting(3, 3)),
            Happening::Runs(how_far(19, false)?, awaiting(0, 3)),
            Happening::GoesOn(51_000),
            Happening::Runs(how_far(119, true)?, awaiting(3, 3)),
        ],
    )
}

#[test]
fn tells_how_far_a_run_is_and_whether_it_goes_on(rt: HostRuntime) {
    assert_eq!(rt; is_how_far_told(&rt), Some(true));
}

// A coordinator of two federates that are connected, of which one acknowledges nothing: both are heard and complete a tag
// each second, but for a minute, in which its process is stopped.
fn is_stop_left_out<R: Machine>(rt: &R) -> Option<bool> {
    let run = Run {
        unacked: 3,
        hearings: &[(0, 1000, 70_000), (1, 1000, 70_000)],
        completions: &[(1000, 70_000)],
        end_ms: 69_000,
        stop_ms: (3500, 60_000),
        ..COORDINATOR
    };
    are_told(
        rt,
        &run,
        &[Happening::Runs(how_far(3, true)?, awaiting(2, 2))],
    )
}

#[test]
fn tells_of_no_silence_while_its_own_process_was_stopped(rt: HostRuntime) {
    assert_eq!(rt; is_stop_left_out(&rt), Some(true));
}

// A federate that is connected: it hears the coordinator after a second, and each second from the eighth on, and
// completes a tag after 14 s.
fn is_coordinator_told<R: Machine>(rt: &R) -> Option<bool> {
    let run = Run {
        federates: 1,
        is_federate: true,
        hearings: &[(0, 1000, 1000), (0, 8000, 15_000)],
        completions: &[(14_000, 14_000)],
        end_ms: 15_000,
        ..COORDINATOR
    };
    are_told(
        rt,
        &run,
        &[
            Happening::Unheard(stands(0, true, 6000, Some(5000))),
            Happening::CoordinatorHeard(6950),
            Happening::Ungranted(5000),
            Happening::GoesOn(14_050),
        ],
    )
}

#[test]
fn tells_at_a_federate_that_the_coordinator_is_silent_or_grants_nothing(rt: HostRuntime) {
    assert_eq!(rt; is_coordinator_told(&rt), Some(true));
}

// What is told of one look at a coordinator of so many federates, where looks are wanted or not, in a run of a second in
// which nothing is taken: how many stand somewhere, and of how many it isn't said.
fn looked<R: Machine>(
    rt: &R,
    alloc: Global,
    federates: usize,
    are_wanted: bool,
) -> Option<(usize, Option<usize>)> {
    let source = Broken;
    let machine = Simulated::new(rt, &source, Nothing);
    let (teller, Watcher { told, .. }) = Teller::watched(&machine, alloc).ok()?;
    let teller = if are_wanted {
        teller.with_looks()
    } else {
        teller
    };
    let heard = Heard::watched(alloc, federates, teller).ok()?;
    let ending = Ending::new();
    let barrier = NoBarrier;
    let seconds = AtomicU64::new(0);
    let watching = Watching {
        patience: Patience {
            heard: &heard,
            barrier: &barrier,
            ending: &ending,
            most: Some(Duration::from_millis(1000)),
            last: None,
        },
        look: Reads {
            seconds: &seconds,
            unacked: 0,
            is_federate: false,
        },
    };
    let _ = watching.work(&machine, alloc);
    let mut count = 0_usize;
    for _ in 0..100 {
        let next = told.try_recv(rt).ok()?;
        match &next {
            Told::Stands(_) => count = count.saturating_add(1),
            Told::Looked(looked) => return Some((count, Some(looked.more))),
            Told::Happened(_) | Told::Federates(_) | Told::Wipe(_) => return Some((count, None)),
        }
    }
    None
}

#[test]
fn looks_at_each_federate_where_that_is_wanted(rt: HostRuntime) {
    let told = [
        looked(&rt, rt.alloc(), 3, true),
        looked(&rt, rt.alloc(), 20, true),
        looked(&rt, rt.alloc(), 3, false),
    ];
    assert_eq!(rt;
        told,
        [Some((3, Some(0))), Some((16, Some(4))), Some((0, None))]
    );
}
