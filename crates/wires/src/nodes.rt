ghost use Rattle.std.specs.Prelude.{◌≡◌, IfOk, IfErr, length};
ghost use Rattle.wires.specs.Fault.{IsFaultOfGathering};
ghost use Rattle.wires.specs.Gathered.{AreGathered, FederatesAgree};

use crate::gathering::gather_desk;
use crate::run_fault::{Cause, RunFault};
use crate::threads::RunResults;
use desk::{Desk, Share, Shared};
use node::Node;
use std::alloc::Global;
use wires_transports::Ending;

/// The desks of a federation under their locks, the federates' by number, for one run. While their workers run, others
/// may look at them.
#[derive(Drop)]
pub struct Nodes<H: Node, M: Node> {
    pub coordinator: Shared<H>,
    pub federates: Vec<Shared<M>>,
    /// Whether the run is to end.
    pub ending: Ending,
}

/// The desks of a federation whose workers have all ended, the federates' by number.
#[derive(Drop)]
pub struct Gathered<H: Node, M: Node> {
    pub coordinator: Desk<H>,
    pub federates: Vec<Desk<M>>,
}

impl<H: Node, M: Node> Nodes<H, M> {
    /// These desks, before their workers begin.
    pub fn new(
        alloc: Global,
        coordinator: Desk<H>,
        federates: Vec<Desk<M>>,
    ) -> Result<Nodes<H, M>, RunFault>
        ensures each { IfOk result (λ nodes. length nodes.federates.items ≡ length federates.items) }
        ensures memory { IfErr result (λ fault. fault ≡ RunFault.Memory) }
    {
        let mut shared = Vec::with_capacity(alloc, federates.len())?;
        for federate in federates {
            shared.push(Shared::new(federate))?;
        }
        Ok(Nodes {
            coordinator: Shared::new(coordinator),
            federates: shared,
            ending: Ending::new(),
        })
    }

    /// The desks, from the shares that came back: each one's journal is what the shares of its node's workers say.
    /// Where these don't agree with it, as where one is missing, or there are those of another count of federates:
    /// `SharesDisagree`.
    pub fn gather(self, alloc: Global, results: RunResults) -> Result<Gathered<H, M>, RunFault>
        ensures each { IfOk result (λ gathered. length gathered.federates.items ≡ length self.federates.items) }
        ensures shares { IfOk result (λ gathered. AreGathered gathered.coordinator gathered.federates.items results) }
        ensures fault { IfErr result IsFaultOfGathering }
    {
        if self.federates.len() != results.federates.len() {
            return Err(RunFault::NotFinished(Cause::SharesDisagree));
        }
        let coordinator = gather_desk(self.coordinator, results.coordinator)?;
        let federates = desks_of(alloc, self.federates, results.federates)?;
        Ok(Gathered {
            coordinator,
            federates,
        })
    }
}

// The federates' desks, each from the shares of its own workers.
fn desks_of<M: Node>(
    alloc: Global,
    federates: Vec<Shared<M>>,
    shares: Vec<Vec<Share>>,
) -> Result<Vec<Desk<M>>, RunFault>
    requires count { length federates.items ≡ length shares.items }
    ensures each { IfOk result (λ desks. length desks.items ≡ length federates.items) }
    ensures shares { IfOk result (λ desks. FederatesAgree desks.items shares.items) }
    ensures fault { IfErr result IsFaultOfGathering }
{
    let mut desks = Vec::with_capacity(alloc, federates.len())?;
    for (federate, own) in federates.into_iter().zip(shares) {
        desks.push(gather_desk(federate, own)?)?;
    }
    Ok(desks)
}
