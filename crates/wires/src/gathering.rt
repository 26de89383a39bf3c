//! A node's desk after a run.
ghost use Rattle.std.specs.Prelude.{IfOk, IfErr};
ghost use Rattle.desk.specs.Shares.{Agree};
ghost use Rattle.wires.specs.Fault.{IsFaultOfGathering};

use crate::run_fault::{Cause, RunFault};
use desk::{Desk, Share, Shared, gather};
use node::Node;

/// The desk of a node, from the shares of its workers that came back: its journal is what they say. Where they don't
/// agree with it, as where one is missing: `SharesDisagree`.
pub fn gather_desk<N: Node>(shared: Shared<N>, shares: Vec<Share>) -> Result<Desk<N>, RunFault>
    ensures shares { IfOk result (λ desk. Agree desk.journal shares.items) }
    ensures fault { IfErr result IsFaultOfGathering }
{
    match gather(shared, shares) {
        Ok(desk) => Ok(desk),
        Err(_) => Err(RunFault::NotFinished(Cause::SharesDisagree)),
    }
}
