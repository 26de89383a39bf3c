ghost use Rattle.std.specs.Prelude.{◌≡◌, ◌↔◌, AllPairs, Any, IsTrue, MatchOption};
ghost use Rattle.network.specs.Lawful.{HaveDifferentEnds};
ghost use Rattle.plan_paths.specs.Sources.{EndsTwice};

use crate::connection::Connection;

/// The place of a connection to a port to which one before it goes.
pub fn second_source(connections: &[Connection]) -> Option<usize>
    ensures { MatchOption result (AllPairs HaveDifferentEnds connections.now) (EndsTwice connections.now) }
{
    for (place, &connection) in connections.iter().enumerate() {
        if ends_there(&connections[..place], connection) {
            return Some(place);
        }
    }
    None
}

// Whether one of these connections ends where the last does.
fn ends_there(connections: &[Connection], last: Connection) -> bool
    ensures { IsTrue result ↔ Any (λ c. (c.target ≡ last.target) × (c.slot ≡ last.slot)) connections.now }
{
    connections
        .iter()
        .any(|c| c.target() == last.target() && c.slot() == last.slot())
}
