//! Whether shares are a journal: the journal is walked backwards, and each event's slip has to be the last of some
//! share, where it is taken off. Mostly a share ends with a whole block as the journal has it: then that is taken off.
ghost use Rattle.std.specs.Prelude.{◌≡◌, ◌≢◌, ◌↔◌, ℕ, ◌+◌, ◌<◌, ◌≤◌, true, false, None, IsSome, IfSome, nat_eq, List, []};
ghost use Rattle.std.specs.Prelude.{◌∷◌, ◌++◌, length, take, slice_get};
ghost use Rattle.std.specs.List.{list_all};
ghost use Rattle.node.specs.declared.event.Event.{Event as IsEvent};
ghost use Rattle.node_journal.specs.Slips.{slips_from};
ghost use Rattle.node_journal.specs.declared.slip.Slip.{Slip as IsSlip};
ghost use Rattle.desk.specs.Shares.{Agree};

use crate::share::Share;
use node_journal::{Block, Blocks, Journal, Slip};

// Where the walk is: at which block of the journal, and at which share.
#[derive(Clone, Copy)]
struct Position {
    block: usize,
    share: usize,
}

/// Whether the shares are the journal. They are used up.
pub(crate) fn agree(journal: &Journal, shares: &mut [Share]) -> bool
    ensures { (result ≡ true) ↔ Agree journal.now shares.old }
{
    let mut near = Position {
        block: journal.block_count(),
        share: 0,
    };
    let mut end = journal.len();
    while end > 0 {
        match take_some(journal, shares, end, &mut near) {
            Some(place) => end = place,
            None => return false,
        }
    }
    are_used_up(shares)
}

// Takes the slips of the last events before a place off a share whose last ones they are: of a whole block, or of one
// event. Returns the place of the first of them.
fn take_some(
    journal: &Journal,
    shares: &mut [Share],
    end: usize,
    near: &mut Position,
) -> Option<usize>
    requires some { 0 < end }
    requires within { end ≤ length journal.now }
    ensures less { IfSome result (λ place. place < end) }
    ensures taken { IfSome result (λ place.
        Agree (take end journal.now) shares.old ↔ Agree (take place journal.now) shares.new) }
    ensures none { result ≡ None → ¬ Agree (take end journal.now) shares.old }
{
    if let Some(place) = take_block(journal, shares, end, near) {
        return Some(place);
    }
    if take_event(journal, shares, end - 1, near) {
        Some(end - 1)
    } else {
        None
    }
}

// Takes the slips of the block that ends before a place off a share that ends with the same block. Returns the place of
// its first event.
fn take_block(
    journal: &Journal,
    shares: &mut [Share],
    end: usize,
    near: &mut Position,
) -> Option<usize>
    ensures less { IfSome result (λ place. place < end) }
    ensures taken { IfSome result (λ place.
        Agree (take end journal.now) shares.old ↔ Agree (take place journal.now) shares.new) }
    ensures unchanged { result ≡ None → shares.new ≡ shares.old }
{
    near.block = block_before(journal, near.block, end);
    let place = journal.block_begin(near.block)?;
    let block = journal.block_between(near.block, place, end)?;
    let share = take_block_from(shares, place, block, near.share)?;
    near.share = share;
    Some(place)
}

// The number of the block before a place: this one, or the one before it. It needn't be right: it is looked at there.
fn block_before(journal: &Journal, number: usize, end: usize) -> usize {
    match journal.block_begin(number) {
        Some(place) if place < end => number,
        _ => number.saturating_sub(1),
    }
}

// Takes the slip of the event at a place off a share whose last one it is.
fn take_event(journal: &Journal, shares: &mut [Share], place: usize, near: &mut Position) -> bool
    requires { place < length journal.now }
    ensures taken { result ≡ true
        → Agree (take (place + 1) journal.now) shares.old ↔ Agree (take place journal.now) shares.new }
    ensures none { result ≡ false → ¬ Agree (take (place + 1) journal.now) shares.old }
{
    let event = journal.event(place, &mut near.block);
    match take(shares, &Slip { place, event }, near.share) {
        Some(share) => {
            near.share = share;
            true
        }
        None => false,
    }
}

// Takes a block's slips off a share that ends with the same block, and answers which. The share at `near` is asked
// first, if there is one.
fn take_block_from(shares: &mut [Share], place: usize, block: &Block, near: usize) -> Option<usize>
    ensures taken { IsSome result → (journal : List IsEvent) → length journal ≡ place
        → Agree (journal ++ block.now) shares.old ↔ Agree journal shares.new }
    ensures unchanged { result ≡ None → shares.new ≡ shares.old }
{
    if take_block_at(shares, near, place, block) {
        return Some(near);
    }
    for position in 0..shares.len() {
        if take_block_at(shares, position, place, block) {
            return Some(position);
        }
    }
    None
}

// Takes a block's slips off the share at this position, if there is one and it ends with the same block.
fn take_block_at(shares: &mut [Share], position: usize, place: usize, block: &Block) -> bool
    ensures taken { result ≡ true → (journal : List IsEvent) → length journal ≡ place
        → Agree (journal ++ block.now) shares.old ↔ Agree journal shares.new }
    ensures unchanged { result ≡ false → shares.new ≡ shares.old }
{
    position < shares.len() && take_block_off(&mut shares[position], place, block)
}

// Takes a block's slips off the share, if it ends with the same block.
fn take_block_off(share: &mut Share, place: usize, block: &Block) -> bool
    ensures taken { result ≡ true → share.old ≡ share.new ++ slips_from place block.now }
    ensures unchanged { result ≡ false → share.new ≡ share.old }
{
    share.slips.pop_block(place, block)
}

// Takes the slip off a share whose last one it is, and answers which. The share at `near` is asked first, if there is
// one: neighbouring events are mostly of one share.
fn take(shares: &mut [Share], slip: &Slip, near: usize) -> Option<usize>
    ensures taken { IsSome result → (journal : List IsEvent) → length journal ≡ slip.now.place
        → Agree (journal ++ slip.now.event ∷ []) shares.old ↔ Agree journal shares.new }
    ensures none { result ≡ None → (journal : List IsEvent) → length journal ≡ slip.now.place
        → ¬ Agree (journal ++ slip.now.event ∷ []) shares.old }
{
    if take_at(shares, near, slip) {
        return Some(near);
    }
    for position in 0..shares.len() {
        if take_at(shares, position, slip) {
            return Some(position);
        }
    }
    None
}

// Whether no share has a slip.
fn are_used_up(shares: &[Share]) -> bool
    ensures { result ≡ list_all (λ slips. nat_eq (length slips) 0) shares.now }
{
    shares.iter().all(|share| share.slips().len() == 0)
}

// Takes the slip off the share at this position, if there is one and the slip is its last.
fn take_at(shares: &mut [Share], position: usize, slip: &Slip) -> bool
    ensures taken { result ≡ true → (journal : List IsEvent) → length journal ≡ slip.now.place
        → Agree (journal ++ slip.now.event ∷ []) shares.old ↔ Agree journal shares.new }
    ensures unchanged { result ≡ false → shares.new ≡ shares.old }
    ensures not_last { result ≡ false → (front : List IsSlip)
        → slice_get shares.old position ≢ Some (front ++ slip.now ∷ []) }
{
    position < shares.len() && take_last(&mut shares[position], slip)
}

// Takes the slip off the share, if it is its last one.
#[tactic(auto, using(crate::proofs::Ends::taken_last))]
fn take_last(share: &mut Share, slip: &Slip) -> bool
    ensures taken { result ≡ true → share.old ≡ share.new ++ slip.now ∷ [] }
    ensures unchanged { result ≡ false → share.new ≡ share.old }
    ensures not_last { result ≡ false → (front : List IsSlip) → share.old ≢ front ++ slip.now ∷ [] }
{
    if !ends_with(&share.slips, slip) {
        return false;
    }
    let _ = share.slips.pop();
    true
}

// Whether it is the last of some slips.
#[tactic(auto, using(crate::proofs::Ends::not_last, crate::proofs::Ends::none_last))]
fn ends_with(slips: &Blocks, slip: &Slip) -> bool
    ensures last { result ≡ true → (front : List IsSlip) × (slips.now ≡ front ++ slip.now ∷ []) }
    ensures not_last { result ≡ false → (front : List IsSlip) → slips.now ≢ front ++ slip.now ∷ [] }
{
    match slips.last() {
        Some(last) => last.equals(slip),
        None => false,
    }
}
