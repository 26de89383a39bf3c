ghost use Rattle.std.specs.Prelude.{◌≡◌, ℕ, ◌<◌, length, slice_index_or, All, IfOk, None, []};
ghost use Rattle.plan_paths.specs.Least.{lesser_of, least_ending, least_into, IsLeastRow, IsLeastTable};

use crate::connection::Connection;
use std::alloc::{AllocError, Global};
use std::marker::Model;
use tag::{Delay, then};

/// The least delays from one federate, by the number of the federate at the end.
#[derive(Drop)]
struct Row {
    delays: Vec<Option<Delay>>,
}

impl Model for Row {
    ghost use Rattle.std.specs.Prelude.{List, Option};
    ghost use Rattle.tag.specs.LogicalTime.{LogicalTime};

    ghost Value = { List (Option LogicalTime) };

    ghost view = { λ r. r.delays.items };
}

/// The least delays between federates, None where no path leads. Contracts see the rows.
#[derive(Drop)]
pub struct LeastDelays {
    rows: Vec<Row>,
}

impl Model for LeastDelays {
    ghost use Rattle.std.specs.Prelude.{List, Option};
    ghost use Rattle.tag.specs.LogicalTime.{LogicalTime};

    ghost Value = { List (List (Option LogicalTime)) };

    ghost view = { λ t. t.rows.items };
}

impl LeastDelays {
    /// The table of these connections between this many federates.
    pub fn new(
        alloc: Global,
        connections: &[Connection],
        count: usize,
    ) -> Result<LeastDelays, AllocError>
        requires { All (λ c. (c.source < count) × (c.target < count)) connections.now }
        ensures { IfOk result (IsLeastTable connections.now count) }
    {
        let mut rows = Vec::new(alloc);
        for from in 0..count {
            rows.push(row_of(alloc, connections, count, from)?)?;
        }
        Ok(LeastDelays { rows })
    }

    /// The least delay from one federate to another, or to itself. None where no path leads.
    pub fn delay(&self, from: usize, to: usize) -> Option<Delay>
        requires from { from < length self.now }
        requires to { to < length (slice_index_or self.now from []) }
        ensures { result ≡ slice_index_or (slice_index_or self.now from []) to None }
    {
        self.rows[from].delays[to]
    }
}

// The least delays from a federate, one of this many.
fn row_of(
    alloc: Global,
    connections: &[Connection],
    count: usize,
    from: usize,
) -> Result<Row, AllocError>
    requires { All (λ c. (c.source < count) × (c.target < count)) connections.now }
    ensures { IfOk result (IsLeastRow connections.now count from) }
{
    let mut delays = vec![in alloc; None; count]?;
    for _most in 0..count {
        delays = next_delays(alloc, connections, delays.as_slice(), from)?;
    }
    Ok(Row { delays })
}

// The least totals of paths of one more connection at most.
fn next_delays(
    alloc: Global,
    connections: &[Connection],
    delays: &[Option<Delay>],
    from: usize,
) -> Result<Vec<Option<Delay>>, AllocError>
    requires { All (λ c. (c.source < length delays.now) × (c.target < length delays.now)) connections.now }
    ensures len { IfOk result (λ next. length next.items ≡ length delays.now) }
    ensures into { IfOk result (λ next. (j : ℕ) → j < length delays.now
        → slice_index_or next.items j None
        ≡ least_into (λ m. slice_index_or delays.now m None) from j connections.now) }
{
    let mut next = vec![in alloc; None; delays.len()]?;
    for &connection in connections {
        let target = connection.target();
        let longer = ending(delays, from, connection);
        next[target] = lesser(next[target], longer);
    }
    Ok(next)
}

// The least total of a path with this last connection, where `delays` are those of paths to its source.
fn ending(delays: &[Option<Delay>], from: usize, last: Connection) -> Option<Delay>
    requires { last.source < length delays.now }
    ensures { result ≡ least_ending (λ m. slice_index_or delays.now m None) from last }
{
    let alone = (last.source() == from).then_some(last.delay());
    let longer = delays[last.source()].map(|before| then(before, last.delay()));
    lesser(alone, longer)
}

// The lesser of two delays, where they are there.
fn lesser(first: Option<Delay>, second: Option<Delay>) -> Option<Delay>
    ensures { result ≡ lesser_of first second }
{
    match (first, second) {
        (None, _) => second,
        (_, None) => first,
        (Some(a), Some(b)) => Some(a.min(b)),
    }
}
