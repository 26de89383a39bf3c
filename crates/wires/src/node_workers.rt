ghost use Rattle.std.specs.Prelude.{◌≡◌, ◌↔◌, IsSome, IsTrue, IfOk, IfErr, length};

use crate::run_fault::RunFault;
use crate::share_channel::ShareChannel;
use crossbeam_channel::{Receiver, Sender, unbounded};
use desk::Shared;
use node::{Node, NodeId};
use std::alloc::Global;
use wires_transports::Ending;
use wires_workers::{Context, Gate, WakeUps, WriterQueue};

/// A node's desk, and that by which its workers talk.
#[derive(Drop)]
pub struct NodeWorkers<'n, N: Node, T: Drop, C: Drop> {
    pub node: NodeId,
    pub shared: &'n Shared<N>,
    pub writers: Vec<WriterQueue<T, C>>,
    pub runner: Option<WakeUps>,
    /// By which the workers' shares come back: those of a reader for each peer, and of a runner.
    pub shares: ShareChannel,
}

impl<'n, N: Node, T: Drop, C: Drop> NodeWorkers<'n, N, T, C> {
    /// Of a node with this many peers: it has a writer for each, and a runner where that is said.
    pub fn new(
        alloc: Global,
        node: NodeId,
        shared: &'n Shared<N>,
        peers: usize,
        has_runner: bool,
    ) -> Result<NodeWorkers<'n, N, T, C>, RunFault>
        ensures node { IfOk result (λ workers. workers.node ≡ node) }
        ensures writers { IfOk result (λ workers. length workers.writers.items ≡ peers) }
        ensures runner { IfOk result (λ workers. IsSome workers.runner ↔ IsTrue has_runner) }
        ensures memory { IfErr result (λ fault. fault ≡ RunFault.Memory) }
    {
        let mut writers = Vec::with_capacity(alloc, peers)?;
        for _ in 0..peers {
            writers.push(WriterQueue::new(alloc)?)?;
        }
        let runner = wake_ups(alloc, has_runner)?;
        let shares = ShareChannel::new(alloc, peers.saturating_add(1))?;
        Ok(NodeWorkers {
            node,
            shared,
            writers,
            runner,
            shares,
        })
    }

    /// What each of its workers is passed.
    pub fn context<'a, G: Gate>(
        &'a self,
        gate: &'a G,
        ending: &'a Ending,
    ) -> Context<'a, N, G, T, C>
        ensures { result.node ≡ self.now.node }
    {
        Context {
            node: self.node,
            shared: self.shared,
            gate,
            writers: &self.writers,
            runner: self.runner.as_ref(),
            ending,
        }
    }
}

// A runner's wake-ups, where there is a runner.
fn wake_ups(alloc: Global, has_runner: bool) -> Result<Option<WakeUps>, RunFault>
    ensures runner { IfOk result (λ wake_ups. IsSome wake_ups ↔ IsTrue has_runner) }
    ensures memory { IfErr result (λ fault. fault ≡ RunFault.Memory) }
{
    if has_runner {
        Ok(Some(WakeUps::new(alloc)?))
    } else {
        Ok(None)
    }
}

/// This many channels: their senders, and their receivers.
pub fn channels<O: Drop>(
    alloc: Global,
    count: usize,
) -> Result<(Vec<Sender<O>>, Vec<Receiver<O>>), RunFault>
    ensures senders { IfOk result (λ ends. length ends.0.items ≡ count) }
    ensures receivers { IfOk result (λ ends. length ends.1.items ≡ count) }
    ensures memory { IfErr result (λ fault. fault ≡ RunFault.Memory) }
{
    let mut senders = Vec::with_capacity(alloc, count)?;
    let mut receivers = Vec::with_capacity(alloc, count)?;
    for _ in 0..count {
        let (sender, receiver) = unbounded(alloc)?;
        senders.push(sender)?;
        receivers.push(receiver)?;
    }
    Ok((senders, receivers))
}
