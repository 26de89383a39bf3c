//! In which block a place is.
ghost use Rattle.std.specs.Prelude.{◌≡◌, ℕ, true, None, IfSome, is_some};
ghost use Rattle.node_journal.specs.Slips.{event_in};

use crate::placed_block::PlacedBlock;
use node::Event;

/// The event that the block at a position has at a place.
pub(crate) fn event_in(blocks: &[PlacedBlock], position: usize, place: usize) -> Option<Event>
    ensures { result ≡ event_in blocks.now position place }
{
    match blocks.get(position) {
        Some(placed) => placed.event_of(place),
        None => None,
    }
}

// Whether the block at a position has one there.
fn has(blocks: &[PlacedBlock], position: usize, place: usize) -> bool
    ensures { result ≡ is_some (event_in blocks.now position place) }
{
    match blocks.get(position) {
        Some(placed) => placed.has(place),
        None => false,
    }
}

/// A block that has an event at this place: the one at `near` or beside it, if that is one, else where it is if places
/// rise.
pub(crate) fn find(blocks: &[PlacedBlock], place: usize, near: usize) -> Option<usize>
    ensures found { IfSome result (λ position. is_some (event_in blocks.now position place) ≡ true) }
    ensures none { result ≡ None → (position : ℕ) → event_in blocks.now position place ≡ None }
{
    if has(blocks, near, place) {
        return Some(near);
    }
    let behind = near.saturating_add(1);
    if has(blocks, behind, place) {
        return Some(behind);
    }
    let before = near.saturating_sub(1);
    if has(blocks, before, place) {
        return Some(before);
    }
    let guess = guess(blocks, place);
    if has(blocks, guess, place) {
        return Some(guess);
    }
    find_anywhere(blocks, place)
}

// Where the block is, if places rise.
fn guess(blocks: &[PlacedBlock], place: usize) -> usize {
    blocks
        .partition_point(|placed| placed.place <= place)
        .saturating_sub(1)
}

// The first block that has an event at this place.
fn find_anywhere(blocks: &[PlacedBlock], place: usize) -> Option<usize>
    ensures found { IfSome result (λ position. is_some (event_in blocks.now position place) ≡ true) }
    ensures none { result ≡ None → (position : ℕ) → event_in blocks.now position place ≡ None }
{
    for position in 0..blocks.len() {
        if has(blocks, position, place) {
            return Some(position);
        }
    }
    None
}
