//! How many frames were sent over each link.
ghost use Rattle.std.specs.Prelude.{◌≡◌, get_or, IfOk};
ghost use Rattle.plan.specs.Federation.{federate_count};
ghost use Rattle.world.specs.World.{stations_of};
ghost use Rattle.fedrun_frames.specs.Accounts.{count_at, counts_in, no_frames};

use std::alloc::Global;
use world::World;
use world_stations::{Dir, Memory};

/// How many frames were sent over a federate's link.
#[derive(Clone, Copy, Debug, PartialEq, Eq)]
pub struct LinkCounts {
    /// By the federate.
    pub up: usize,
    /// To it.
    pub down: usize,
}

/// Over each link, by federate.
pub(crate) fn counts(alloc: Global, world: &World<'_>) -> Result<Vec<LinkCounts>, Memory>
    ensures { IfOk result (λ counts. counts.items
        ≡ counts_in (stations_of world.now) (federate_count world.now.draft)) }
{
    let mut counts = Vec::new(alloc);
    for federate in 0..world.federate_count() {
        counts.push(count_at(world, federate))?;
    }
    Ok(counts)
}

// Over a federate's link.
fn count_at(world: &World<'_>, federate: usize) -> LinkCounts
    ensures { result ≡ count_at (stations_of world.now) federate }
{
    LinkCounts {
        up: world.sent(Dir::Up(federate)),
        down: world.sent(Dir::Down(federate)),
    }
}

/// The counts at a place, or zeros where there is no such place.
pub fn counts_of(counts: &[LinkCounts], federate: usize) -> LinkCounts
    ensures { result ≡ get_or counts.now federate no_frames }
{
    match counts.get(federate) {
        Some(counts) => *counts,
        None => LinkCounts { up: 0, down: 0 },
    }
}
