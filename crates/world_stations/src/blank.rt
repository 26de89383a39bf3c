//! Stations that lost their state.
ghost use Rattle.std.specs.Prelude.{◌≡◌, ◌+◌, ◌^◌, if◌then◌else◌, nat_lt, length, option_map, IfOk, Some, None};
ghost use Rattle.world_stations.specs.World.{blank_next, forgotten, has_next};

use crate::memory::Memory;
use link::LinkEnd;
use node::{Blank, Station};
use std::alloc::Global;

// A blank end in the place of this one, with the next incarnation, or None where there is no next one.
fn next_end(alloc: Global, end: &LinkEnd) -> Option<LinkEnd>
    ensures { option_map (λ e. e.image) result
        ≡ (if nat_lt (end.now.image.incarnation + 1) (2 ^ 32) then Some (blank_next end.now.image) else None) }
{
    let incarnation = end.incarnation().checked_add(1)?;
    Some(LinkEnd::new(alloc, end.federate(), incarnation, end.room()))
}

/// A blank station in the place of a federate's, with the next incarnation, or None where there is no next one.
pub(crate) fn forgotten<M: Blank>(
    alloc: Global,
    station: &Station<M>,
) -> Result<Option<Station<M>>, Memory>
    requires { length station.now.ends ≡ 1 }
    ensures { IfOk result (λ blank. blank
        ≡ (if has_next station.now.ends then Some (forgotten M.core station.now) else None)) }
{
    let Some(end) = station.end(0) else {
        return Ok(None);
    };
    let Some(end) = next_end(alloc, end) else {
        return Ok(None);
    };
    let mut ends = Vec::with_capacity(alloc, 1)?;
    ends.push_reserved(end);
    let node = station.node().blank(alloc)?;
    Ok(Some(Station::new(alloc, node, ends)))
}
