use crate::run_fault::RunFault;
use crossbeam_channel::{Receiver, Sender, bounded};
use desk::Share;
use std::alloc::{AllocError, Global};
use std::sync::Wait;

/// How the shares of a node's workers come back: each worker sends its own at its end, and once all have ended who
/// gathers the node's desk takes out what came.
///
/// What is taken out is a share, by its type. Which shares come, and in which order, isn't said: a desk is gathered
/// only where they are its journal.
#[derive(Drop)]
pub struct ShareChannel {
    sender: Sender<Share>,
    receiver: Receiver<Share>,
}

impl ShareChannel {
    /// With room for the shares of this many workers. It is asked for before they begin, so that no share is lost where
    /// memory runs out, and none of them waits.
    pub fn new(alloc: Global, workers: usize) -> Result<ShareChannel, AllocError> {
        let (sender, receiver) = bounded(alloc, workers)?;
        Ok(ShareChannel { sender, receiver })
    }

    /// Sends a worker's share, at its end.
    pub(crate) fn send<R: Wait>(&self, rt: &R, share: Share) {
        // A share that isn't sent is missed when the desk is gathered.
        let _ = self.sender.send(rt, share);
    }

    /// Takes out all shares that came. The workers have ended before, so no more come.
    pub(crate) fn take_all<R: Wait>(&self, rt: &R, alloc: Global) -> Result<Vec<Share>, RunFault> {
        let mut shares = Vec::with_capacity(alloc, self.receiver.len())?;
        for share in self.receiver.try_iter(rt) {
            shares.push(share)?;
        }
        Ok(shares)
    }
}
