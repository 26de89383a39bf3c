//! Threads of nodes: started in order, and waited for.
use crate::job::{Work, WorkerResult};
use crate::run_fault::{Cause, RunFault};
use crate::runtime::Runtime;
use desk::Share;
use std::alloc::Global;
use std::thread;
use std::thread::{JoinHandle, Scope};
use wires_traffic::{Counts, RunCounts};
use wires_transports::Ending;

/// What the workers of a federation's nodes leave: the shares that came back, the federates' by number, and what they
/// counted. Only a run gives it: nobody else can say what workers left.
#[derive(Drop)]
pub struct RunResults {
    pub(crate) coordinator: Vec<Share>,
    pub(crate) federates: Vec<Vec<Share>>,
    pub(crate) counts: RunCounts,
}

impl RunResults {
    /// What they counted.
    pub fn counts(&self) -> RunCounts {
        self.counts
    }
}

/// Starts each of a node's jobs in a thread of its own, in this order, waits for all of them, and returns what they
/// leave. Room for that is asked for first, so that it isn't lost where memory runs out. Where a thread can't be
/// started, no more are, and the run is to end: a job that waits for what comes stands behind those that end it then,
/// or ends once the jobs behind it are let go.
pub fn start<'a, R: Runtime, J: Work + Send + 'a>(
    rt: &R,
    alloc: Global,
    jobs: Vec<J>,
    ending: &Ending,
) -> Result<Vec<WorkerResult>, RunFault> {
    let room = Vec::with_capacity(alloc, jobs.len())?;
    thread::scope(
        thread::scope_env(),
        rt,
        move |scope| -> Result<Vec<WorkerResult>, RunFault> {
            let threads = spawn(rt, alloc, scope, jobs, ending)?;
            let mut results = room;
            wait(rt, threads, &mut results)?;
            Ok(results)
        },
    )
}

/// The same of all nodes of a federation: the coordinator's jobs, then all federates'. Returns what they counted.
pub fn start_all<'a, R: Runtime, J: Work + Send + 'a, K: Work + Send + 'a>(
    rt: &R,
    alloc: Global,
    coordinator: Vec<J>,
    federates: Vec<K>,
    ending: &Ending,
) -> Result<RunCounts, RunFault> {
    thread::scope(
        thread::scope_env(),
        rt,
        move |scope| -> Result<RunCounts, RunFault> {
            let coordinator_threads = spawn(rt, alloc, scope, coordinator, ending)?;
            let federate_threads = spawn(rt, alloc, scope, federates, ending)?;
            Ok(RunCounts {
                coordinator: wait_for_counts(rt, coordinator_threads),
                federates: wait_for_counts(rt, federate_threads),
            })
        },
    )
}

// Starts each job in a thread of its own, in this order. Where one can't be started, the run is to end.
fn spawn<'s, E, R: Runtime, J: Work + Send + 's>(
    rt: &'s R,
    alloc: Global,
    scope: &Scope<'s, E>,
    jobs: Vec<J>,
    ending: &Ending,
) -> Result<Vec<JoinHandle<WorkerResult>>, RunFault> {
    start_in_order(
        alloc,
        jobs,
        ending,
        |job: J| scope.spawn(move || job.work(rt, alloc)).ok(),
    )
}

/// Starts each job by `start`, in this order; what that gives for each. Where it gives none, no more are started, and
/// the run is to end.
pub fn start_in_order<J: Drop, T: Drop, F: FnMut(J) -> Option<T>>(
    alloc: Global,
    jobs: Vec<J>,
    ending: &Ending,
    start: F,
) -> Result<Vec<T>, RunFault>
    requires { F.IsAlwaysCallable start }
{
    let started = start_each(alloc, jobs, start);
    if started.is_err() {
        ending.set();
    }
    started
}

fn start_each<J: Drop, T: Drop, F: FnMut(J) -> Option<T>>(
    alloc: Global,
    jobs: Vec<J>,
    mut start: F,
) -> Result<Vec<T>, RunFault>
    requires { F.IsAlwaysCallable start }
{
    let mut started = Vec::with_capacity(alloc, jobs.len())?;
    for job in jobs {
        match start(job) {
            Some(one) => started.push(one)?,
            None => return Err(RunFault::NotFinished(Cause::NoThread)),
        }
    }
    Ok(started)
}

// Waits for threads to end, and adds what they leave.
fn wait<R: Runtime>(
    rt: &R,
    threads: Vec<JoinHandle<WorkerResult>>,
    results: &mut Vec<WorkerResult>,
) -> Result<(), RunFault> {
    for thread in threads {
        results.push(thread.join(rt))?;
    }
    Ok(())
}

// Waits for threads to end; what they counted.
fn wait_for_counts<R: Runtime>(rt: &R, threads: Vec<JoinHandle<WorkerResult>>) -> Counts {
    let mut counts = Counts::none();
    for thread in threads {
        counts = counts.plus(thread.join(rt).counts);
    }
    counts
}
