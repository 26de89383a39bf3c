//! Networks of reactors, and the undivided program that they are: definitions, with no code but a limit.
//!
//! Promise to the layer above: words to cite, and what holds of walks and paths (`proofs`). Begin with `specs/Network`,
//! then `specs/Undivided`.
#![tactic(auto)]

pub mod limits;

ghost use Rattle.std.specs.Prelude.{◌≡◌, ◌≤◌, ℕ, List, IsTrue, length};
ghost use Rattle.tag.specs.LogicalTime.{is_at_most};
ghost use Rattle.network.specs.Connection.{Connection, IsPath, total_of};
ghost use Rattle.network.specs.Network.{Network};
ghost use Rattle.network.specs.Lawful.{IsLawful};
ghost use Rattle.network.specs.Undivided.{whole};
ghost use Rattle.network.specs.Examples.{gateway, gateway_rows};

/// Two messages whose delays of a microstep lead to neighbouring tags, one of them by a carry.
pub fn microsteps_carry()
    ensures { whole gateway 6 ≡ gateway_rows }
{}

/// For each path there is one of at most as many connections as there are reactors, and its total is no more.
pub fn short_paths_are_enough()
    ensures { (n : Network) (i j : ℕ) (path : List Connection) → IsLawful n → IsPath n.connections i path j →
        (short : List Connection) × IsPath n.connections i short j × (length short ≤ n.reactors) × IsTrue (is_at_most (total_of short) (total_of path)) }
{}
