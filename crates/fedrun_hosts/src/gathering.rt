//! A node that goes on from its log: its desk, and what its workers leave of it.
ghost use Rattle.std.specs.Prelude.{◌≡◌, ◌++◌, ◌∷◌, [], IfOk};
ghost use Rattle.desk.specs.Shares.{Agree};

use desk::{Desk, Memory, Share, Shared};
use fedrun_logs::replay;
use node::Node;
use node_journal::Journal;
use std::alloc::Global;
use std::sync::Wait;
use wires::{RunFault, gather_desk};

/// A node's desk, to which what is in its log was handed in, and the share of that.
#[derive(Drop)]
pub(crate) struct Replayed<N: Node> {
    pub shared: Shared<N>,
    pub share: Share,
}

/// Hands the events of a log in to a desk to which nothing came.
pub(crate) fn replayed_desk<N: Node, R: Wait>(
    rt: &R,
    alloc: Global,
    shared: Shared<N>,
    journal: &Journal,
) -> Result<Replayed<N>, Memory> {
    match replay(rt, alloc, &shared, journal) {
        Ok(share) => Ok(Replayed { shared, share }),
        Err(memory) => Err(memory),
    }
}

/// The desk of a node that went on, from its workers' shares, and from the share of what was handed in before them.
pub(crate) fn gather_replayed<N: Node>(
    replayed: Replayed<N>,
    shares: Vec<Share>,
) -> Result<Desk<N>, RunFault>
    ensures { IfOk result (λ desk. Agree desk.journal (shares.items ++ replayed.share ∷ [])) }
{
    let Replayed { shared, share } = replayed;
    let mut all = shares;
    all.push(share)?;
    gather_desk(shared, all)
}
