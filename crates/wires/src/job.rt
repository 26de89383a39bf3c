//! What each thread of a node does, and what it leaves.
use crate::share_channel::ShareChannel;
use crossbeam_channel::Receiver;
use node::Node;
use std::alloc::Global;
use std::sync::Wait;
use std::time::Clock;
use wires_traffic::{Counts, Traffic};
use wires_transports::{Accepted, Acceptor, Cut, Dial, Ending, Transport};
use wires_workers::{
    Context, Dialed, Gate, Reading, WakeUps, WriterQueue, read, read_dialed, runner, write,
};

/// What one thread of a node does. A worker that hands in events sends its share by the channel, at its end.
#[derive(Drop)]
pub enum Job<'a, N: Node, G: Gate, T: Drop, C: Drop, D: Drop, E: Drop, W: Drop> {
    /// Writes what the node sends to one peer, by this version of frames.
    Write(&'a WriterQueue<T, C>, &'a Ending, u8),
    /// Runs a federate for this many turns.
    Run(Context<'a, N, G, T, C>, &'a WakeUps, u32, &'a ShareChannel),
    /// What the caller wants done beside the run.
    Watch(W),
    /// Reads a federate's connections, for the coordinator.
    Read(Context<'a, N, G, T, C>, usize, &'a Receiver<Accepted<T, C>>, &'a ShareChannel),
    /// Makes a federate's connections, and reads them.
    Connect(Context<'a, N, G, T, C>, D, &'a ShareChannel),
    /// The same in a process of its own: when the federate's end is closed, or the coordinator speaks of another
    /// history, nothing more can come, and the run is to end.
    ConnectAlone(Context<'a, N, G, T, C>, D, &'a ShareChannel),
    /// Lets connections in.
    LetIn(E, &'a Ending),
}

/// What a thread is started for.
pub trait Work: Drop {
    /// Does it to its end, and returns what it leaves.
    fn work<R: Wait + Clock>(self, rt: &R, alloc: Global) -> WorkerResult;
}

/// What a worker says at its end, besides its share.
#[derive(Drop)]
pub struct WorkerResult {
    /// Whether it ended since the node's peer speaks of another history.
    pub shows_other_history: bool,
    /// What it counted. Nothing rests on it.
    pub counts: Counts,
}

impl WorkerResult {
    /// Of a worker that counts nothing.
    pub fn none() -> WorkerResult {
        WorkerResult {
            shows_other_history: false,
            counts: Counts::none(),
        }
    }

    // Of a writer, by which this was sent.
    fn of_writer(sent: Traffic) -> WorkerResult {
        WorkerResult {
            shows_other_history: false,
            counts: Counts::of_sender(sent),
        }
    }
}

/// What workers counted that left these, all together.
pub fn counts_of(results: &[WorkerResult]) -> Counts {
    let mut counts = Counts::none();
    for left in results {
        counts = counts.plus(left.counts);
    }
    counts
}

/// The caller wants nothing done beside the run.
#[derive(Drop)]
pub struct NoWatcher;

impl Work for NoWatcher {
    fn work<R: Wait + Clock>(self, _rt: &R, _alloc: Global) -> WorkerResult {
        WorkerResult::none()
    }
}

impl<'a, N: Node, G: Gate, T: Transport, C: Cut, D: Dial<T, C> + Drop, E: Acceptor, W: Work> Work
    for Job<'a, N, G, T, C, D, E, W> {
    fn work<R: Wait + Clock>(self, rt: &R, alloc: Global) -> WorkerResult {
        match self {
            Job::Write(queue, ending, frames) => {
                WorkerResult::of_writer(write(rt, alloc, queue, ending, frames))
            }
            Job::Run(context, wake_ups, turns, shares) => {
                shares.send(rt, runner::run(rt, alloc, &context, wake_ups, turns));
                WorkerResult::none()
            }
            Job::Watch(watcher) => {
                // It is no worker of the node: what it leaves isn't the node's.
                let _ = watcher.work(rt, alloc);
                WorkerResult::none()
            }
            Job::Read(context, peer, arrivals, shares) => {
                let reading = read(rt, alloc, &context, peer, arrivals);
                end_reading(rt, shares, reading, false)
            }
            Job::Connect(context, dial, shares) => {
                let dialed = read_dialed(rt, alloc, &context, &dial);
                end_dialed(rt, shares, dialed)
            }
            Job::ConnectAlone(context, dial, shares) => {
                let dialed = read_dialed(rt, alloc, &context, &dial);
                context.end(rt);
                end_dialed(rt, shares, dialed)
            }
            Job::LetIn(acceptor, ending) => {
                acceptor.let_in(rt, alloc, ending);
                WorkerResult::none()
            }
        }
    }
}

// Sends what a reader leaves as its share. It may have ended since the node's peer speaks of another history.
fn end_reading<R: Wait>(
    rt: &R,
    shares: &ShareChannel,
    reading: Reading,
    shows_other_history: bool,
) -> WorkerResult {
    let counts = reading.counts();
    shares.send(rt, reading.share);
    WorkerResult {
        shows_other_history,
        counts,
    }
}

// The same of a federate's reader.
fn end_dialed<R: Wait>(rt: &R, shares: &ShareChannel, dialed: Dialed) -> WorkerResult {
    let Dialed {
        reading,
        shows_other_history,
    } = dialed;
    end_reading(rt, shares, reading, shows_other_history)
}
