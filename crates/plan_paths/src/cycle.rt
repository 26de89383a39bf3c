ghost use Rattle.std.specs.Prelude.{◌≡◌, ℕ, ◌<◌, ◌↔◌, ◌∷◌, IsTrue, All, Contains, MatchOption, IfOk};
ghost use Rattle.plan_paths.specs.Cycles.{HasNoCycleAt, HasNoZeroDelayCycle, IsCycleFrom, IsSimpleZeroDelayPath};
ghost use Rattle.plan_paths.specs.Cycles.{IsSource, IsReached};
ghost use Rattle.plan_paths.specs.Cycles.{JoinsTree, IsTree};

use crate::connection::Connection;
use crate::rank::is_zero_delay;
use std::alloc::{AllocError, Global};

// Whether one of these connections begins at the federate.
fn begins(connections: &[Connection], federate: usize) -> bool
    ensures { IsTrue result ↔ IsSource connections.now federate }
{
    connections.iter().any(|c| c.source() == federate)
}

// Whether the federate is the root, or a connection of the tree begins at it.
fn is_reached(root: usize, tree: &[Connection], federate: usize) -> bool
    ensures { IsTrue result ↔ IsReached root tree.now federate }
{
    federate == root || begins(tree, federate)
}

// Whether the connection joins the tree.
fn joins(root: usize, tree: &[Connection], connection: Connection) -> bool
    ensures { IsTrue result ↔ JoinsTree root tree.now connection }
{
    if !is_zero_delay(connection) {
        return false;
    }
    if begins(tree, connection.source()) {
        return false;
    }
    is_reached(root, tree, connection.target())
}

// A connection that joins the tree, where one does.
fn next_branch(connections: &[Connection], root: usize, tree: &[Connection]) -> Option<Connection>
    ensures { MatchOption result (All (λ c. ¬ JoinsTree root tree.now c) connections.now)
        (λ c. Contains connections.now c × JoinsTree root tree.now c) }
{
    connections.iter().copied().find(|&c| joins(root, tree, c))
}

// The way along a connection that joins the tree, and on along the tree to its root.
fn way_along(
    alloc: Global,
    first: Connection,
    tree: &[Connection],
) -> Result<Vec<Connection>, AllocError>
    ensures { IfOk result (λ path. (root : ℕ) → JoinsTree root tree.now first → IsTree root tree.now
        → IsSimpleZeroDelayPath (first ∷ tree.now) first.source path.items root) }
{
    let mut path = Vec::new(alloc);
    path.push(first)?;
    let mut federate = first.target();
    for &branch in tree {
        if branch.source() == federate {
            path.push(branch)?;
            federate = branch.target();
        }
    }
    Ok(path)
}

// A zero-delay cycle through a federate, where none is through a lower one. There are this many federates.
//
// A tree grows backwards from the federate, its newest connection first, until one begins at the federate itself.
fn cycle_from(
    alloc: Global,
    connections: &[Connection],
    start: usize,
    count: usize,
) -> Result<Option<Vec<Connection>>, AllocError>
    requires ends { All (λ c. (c.source < count) × (c.target < count)) connections.now }
    requires within { start < count }
    requires none_lower { (lower : ℕ) → lower < start → HasNoCycleAt connections.now lower }
    ensures { IfOk result (λ r. MatchOption r (HasNoCycleAt connections.now start)
        (λ path. IsCycleFrom connections.now start path.items)) }
{
    let mut tree = Vec::new(alloc);
    for _branches in 0..count {
        let Some(branch) = next_branch(connections, start, tree.as_slice()) else {
            return Ok(None);
        };
        if branch.source() == start {
            let path = way_along(alloc, branch, tree.as_slice())?;
            return Ok(Some(path));
        }
        tree.insert(0, branch)?;
    }
    Ok(None)
}

/// The zero-delay cycle whose lowest federate is the lowest. There are this many federates.
pub fn lowest_cycle(
    alloc: Global,
    connections: &[Connection],
    count: usize,
) -> Result<Option<Vec<Connection>>, AllocError>
    requires ends { All (λ c. (c.source < count) × (c.target < count)) connections.now }
    ensures { IfOk result (λ r. MatchOption r (HasNoZeroDelayCycle connections.now)
        (λ path. (start : ℕ) × IsCycleFrom connections.now start path.items
        × ((lower : ℕ) → lower < start → HasNoCycleAt connections.now lower))) }
{
    for start in 0..count {
        if let Some(path) = cycle_from(alloc, connections, start, count)? {
            return Ok(Some(path));
        }
    }
    Ok(None)
}
