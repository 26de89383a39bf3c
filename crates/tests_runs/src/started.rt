//! What becomes of a run of which a thread can't be started. No machine refuses one here, so who starts them is played.
use std::alloc::Global;
use wires::threads::start_in_order;
use wires::{Cause, RunFault};
use wires_transports::Ending;

/// Which of three jobs isn't started, if one isn't; how many are begun, and how many are started of all.
const STARTS: &[(Option<u8>, u64, Option<usize>)] = &[
    (None, 3, Some(3)),
    (Some(1), 1, None),
    (Some(2), 2, None),
    (Some(3), 3, None),
];

// Whether it is so, in order, and the run is to end just where one isn't started.
fn is_so(alloc: Global, failing: Option<u8>, begun: u64, started: Option<usize>) -> Option<bool> {
    let jobs = Vec::from_slice(alloc, &[1, 2, 3]).ok()?;
    let ending = Ending::new();
    let mut asked = 0u64;
    let answer = start_in_order(alloc, jobs, &ending, |job: u8| {
        asked = asked.saturating_add(1);
        if Some(job) == failing {
            None
        } else {
            Some(job)
        }
    });
    let is_right = match &answer {
        Ok(all) => started == Some(all.len()) && all.as_slice() == [1, 2, 3].as_slice(),
        Err(fault) => started.is_none() && *fault == RunFault::NotFinished(Cause::NoThread),
    };
    Some(is_right && asked == begun && ending.is_set() == started.is_none())
}

#[test]
fn ends_where_a_thread_cannot_be_started(rt: HostRuntime) {
    for (failing, begun, started) in STARTS {
        assert_eq!(rt;
            is_so(rt.alloc(), *failing, *begun, *started),
            Some(true),
            "{failing:?}"
        );
    }
}
