ghost use Rattle.std.specs.Prelude.{◌≡◌, ◌≢◌, ℕ, ◌++◌, ◌∷◌, [], ◌+◌, ◌<◌, ◌≤◌, true, false, None, Some, length, slice_get, IfOk};
ghost use Rattle.std.specs.Prelude.{IfSome, MatchOption, OnOk, OnErr, List, take};
ghost use Rattle.node_journal.specs.declared.slip.Slip.{Slip as IsSlip};
ghost use Rattle.node_journal.specs.Slips.{AreFilled, slips_from, slips_of};
ghost use Rattle.node_journal.specs.Turns.{turn_events};

use crate::batch::Batch;
use crate::block::Block;
use crate::finding::{event_in, find};
use crate::placed_block::PlacedBlock;
use crate::slip::Slip;
use crate::turns::is_same;
use node::Event;
use std::alloc::{AllocError, Global};
use std::marker::Model;

/// Slips in the order in which they were added. Where places follow one another, and events are those of a batch or
/// turns, they take no memory of their own.
#[derive(Debug, Drop)]
pub struct Blocks {
    blocks: Vec<PlacedBlock>,
    // How many slips.
    count: usize,
}

impl Model for Blocks {
    ghost use Rattle.std.specs.Prelude.{List};
    ghost use Rattle.node_journal.specs.declared.slip.Slip.{Slip};
    ghost use Rattle.node_journal.specs.Slips.{slips_of};
    ghost use Rattle.node_journal.specs.Counted.{AreBlocks};

    ghost Value = { List Slip };

    ghost view = { λ b. slips_of b.blocks.items };

    ghost invariant = { λ b. AreBlocks b.blocks.items b.count };
}

impl Blocks {
    /// No slip.
    pub fn new(alloc: Global) -> Blocks
        ensures { result ≡ [] }
    {
        Blocks {
            blocks: Vec::new(alloc),
            count: 0,
        }
    }

    /// How many slips.
    pub fn len(&self) -> usize
        ensures { result ≡ length self.now }
    {
        self.count
    }

    /// One slip more. An event that begins a batch shares it, and those that follow it too.
    pub fn add(
        &mut self,
        place: usize,
        event: &Event,
        batch: Option<&Batch>,
    ) -> Result<(), AllocError>
        ensures added { OnOk result (self.new ≡ self.old ++ record { place = place; event = event.now } ∷ []) }
        ensures unchanged { OnErr result (self.new ≡ self.old) }
    {
        if self.count == usize::MAX {
            return Err(AllocError);
        }
        let result = add(&mut self.blocks, place, event, batch);
        if result.is_ok() {
            self.count += 1;
        }
        result
    }

    /// Slips of a batch's events, whose places follow one another from this one on. The batch is shared.
    pub fn add_batch(&mut self, place: usize, batch: &Batch) -> Result<(), AllocError>
        ensures added { OnOk result (self.new ≡ self.old ++ slips_from place batch.now) }
        ensures unchanged { OnErr result (self.new ≡ self.old) }
    {
        if batch.events().is_empty() {
            return Ok(());
        }
        self.add_block(place, Block::of(batch.try_clone()?))
    }

    /// Slips of this many events of turns, an announcement and then an advance each, whose places follow one another
    /// from this one on. They take no memory behind others of the same kind.
    #[tactic(auto, using(crate::proofs::SlipLists::count_turns, crate::proofs::BlockEvents::turns_length))]
    pub fn add_turns(&mut self, place: usize, count: usize) -> Result<(), AllocError>
        ensures added { OnOk result (self.new ≡ self.old ++ slips_from place (turn_events count)) }
        ensures unchanged { OnErr result (self.new ≡ self.old) }
    {
        if count == 0 {
            return Ok(());
        }
        if count > usize::MAX - place || count > usize::MAX - self.count {
            return Err(AllocError);
        }
        if extend_last_turns(&mut self.blocks, place, count) {
            self.count += count;
            return Ok(());
        }
        let batch = Batch::new(*self.blocks.allocator(), &[])?;
        self.add_block(place, Block::of_turns(batch, count))
    }

    /// Takes off all slips but the first ones, this many.
    #[tactic(auto, using(crate::proofs::Appended::all_taken, crate::proofs::Appended::one_taken_off))]
    pub fn truncate(&mut self, count: usize)
        ensures { self.new ≡ take count self.old }
    {
        if self.count <= count {
            return;
        }
        for place in (count..self.count).rev() {
            let _ = self.pop();
        }
    }

    /// Takes off the last slip.
    #[tactic(auto, using(crate::proofs::SlipLists::count_less))]
    pub fn pop(&mut self) -> Option<Slip>
        ensures popped { MatchOption result (self.old ≡ []) (λ slip. self.old ≡ self.new ++ slip ∷ []) }
        ensures unchanged { result ≡ None → self.new ≡ self.old }
    {
        let Some(slip) = pop(&mut self.blocks) else {
            return None;
        };
        self.count -= 1;
        Some(slip)
    }

    /// Takes off the slips of the last block, if these are the ones of another block whose first event has this place.
    /// It is false also where the last slips are these, but are kept otherwise.
    #[tactic(auto, using(crate::proofs::SlipLists::count_without))]
    pub fn pop_block(&mut self, place: usize, block: &Block) -> bool
        ensures popped { result ≡ true → self.old ≡ self.new ++ slips_from place block.now }
        ensures unchanged { result ≡ false → self.new ≡ self.old }
    {
        if !pop_block(&mut self.blocks, place, block) {
            return false;
        }
        self.count -= block.len();
        true
    }

    /// Takes off all slips, and keeps the room of their blocks.
    pub fn clear(&mut self)
        ensures { self.new ≡ [] }
    {
        self.blocks.clear();
        self.count = 0;
    }

    /// The last slip.
    pub fn last(&self) -> Option<Slip>
        ensures { MatchOption result (self.now ≡ []) (λ slip. (front : List IsSlip) × (self.now ≡ front ++ slip ∷ [])) }
    {
        last(&self.blocks)
    }

    /// The event of a place, if there is a slip of it. It is looked for near a block, whose number becomes the one in
    /// which it is: begin with 0, and go on with what it has become.
    pub fn get(&self, place: usize, near: &mut usize) -> Option<Event>
        ensures found { IfSome result (λ event. (k : ℕ)
            × (slice_get self.now k ≡ Some (record { place = place; event = event }))) }
        ensures none { result ≡ None → (k : ℕ) (slip : IsSlip) → slice_get self.now k ≡ Some slip → slip.place ≢ place }
    {
        get(&self.blocks, place, near)
    }

    /// The place of the first event of the block of this number.
    pub(crate) fn block_begin(&self, number: usize) -> Option<usize> {
        Some(self.blocks.get(number)?.place)
    }

    /// The block of this number, if its events are those from a place on.
    pub(crate) fn block(&self, number: usize, place: usize) -> Option<&Block>
        ensures some { IfSome result (λ block. 0 < length block.now) }
        ensures there { IfSome result (λ block. (front : List IsSlip) × (back : List IsSlip)
            × (self.now ≡ front ++ (slips_from place block.now ++ back))) }
    {
        block_at(&self.blocks, number, place)
    }

    /// Adds a block, whose events follow one another from a place on.
    #[tactic(auto, using(crate::proofs::SlipLists::one_block, crate::proofs::SlipLists::count_more))]
    pub(crate) fn add_block(&mut self, place: usize, block: Block) -> Result<(), AllocError>
        requires { 0 < length block }
        ensures added { OnOk result (self.new ≡ self.old ++ slips_from place block) }
        ensures unchanged { OnErr result (self.new ≡ self.old) }
    {
        let count = block.len();
        if count > usize::MAX - place || count > usize::MAX - self.count {
            return Err(AllocError);
        }
        self.blocks.push(PlacedBlock { place, block })?;
        self.count += count;
        Ok(())
    }

    /// How many blocks they are kept in.
    pub fn block_count(&self) -> usize {
        self.blocks.len()
    }

    /// The batch of the block of this number.
    pub fn batch(&self, number: usize) -> Option<&Batch> {
        Some(self.blocks.get(number)?.block.batch())
    }
}

// The block at a position, if its events are those from a place on.
fn block_at(blocks: &[PlacedBlock], position: usize, place: usize) -> Option<&Block>
    requires { AreFilled blocks.now }
    ensures some { IfSome result (λ block. 0 < length block.now) }
    ensures there { IfSome result (λ block. (front : List IsSlip) × (back : List IsSlip)
        × (slips_of blocks.now ≡ front ++ (slips_from place block.now ++ back))) }
{
    match blocks.get(position) {
        Some(placed) if placed.place == place => Some(&placed.block),
        _ => None,
    }
}

// One slip more.
fn add(
    blocks: &mut Vec<PlacedBlock>,
    place: usize,
    event: &Event,
    batch: Option<&Batch>,
) -> Result<(), AllocError>
    ensures added { OnOk result (slips_of blocks.new.items ≡ slips_of blocks.old.items
        ++ record { place = place; event = event.now } ∷ []) }
    ensures filled { AreFilled blocks.old.items → AreFilled blocks.new.items }
    ensures unchanged { OnErr result (slips_of blocks.new.items ≡ slips_of blocks.old.items) }
{
    if extend_last(blocks, place, event) {
        return Ok(());
    }
    let block = first_of(*blocks.allocator(), event, batch)?;
    blocks.push(PlacedBlock { place, block })?;
    Ok(())
}

// Has the last block go on with the event of a place, if it can.
#[tactic(auto, using(crate::proofs::SlipLists::extended_last, crate::proofs::SlipLists::filled_last))]
fn extend_last(blocks: &mut [PlacedBlock], place: usize, event: &Event) -> bool
    ensures extended { result ≡ true
        → slips_of blocks.new ≡ slips_of blocks.old ++ record { place = place; event = event.now } ∷ [] }
    ensures filled { result ≡ true → AreFilled blocks.old → AreFilled blocks.new }
    ensures unchanged { result ≡ false → blocks.new ≡ blocks.old }
{
    if blocks.is_empty() {
        return false;
    }
    let last = blocks.len() - 1;
    blocks[last].extend(place, event)
}

// Has the last block go on with this many events of turns from a place on, if it can.
#[tactic(auto, using(crate::proofs::SlipLists::extended_by, crate::proofs::SlipLists::filled_last))]
fn extend_last_turns(blocks: &mut [PlacedBlock], place: usize, count: usize) -> bool
    requires some { 0 < count }
    requires within { place + count ≤ usize.MAX }
    ensures extended { result ≡ true
        → slips_of blocks.new ≡ slips_of blocks.old ++ slips_from place (turn_events count) }
    ensures filled { result ≡ true → AreFilled blocks.old → AreFilled blocks.new }
    ensures unchanged { result ≡ false → blocks.new ≡ blocks.old }
{
    if blocks.is_empty() {
        return false;
    }
    let last = blocks.len() - 1;
    blocks[last].extend_turns(place, count)
}

// A block of one event: the first one of the batch, if it is that.
fn first_of(alloc: Global, event: &Event, batch: Option<&Batch>) -> Result<Block, AllocError>
    ensures { IfOk result (λ block. block ≡ event.now ∷ []) }
{
    match batch {
        Some(batch) if begins(batch.events(), event) => Ok(Block::first(batch.try_clone()?)),
        _ => Ok(Block::first(Batch::one(alloc, event)?)),
    }
}

// Whether a batch begins with this event.
fn begins(events: &[Event], event: &Event) -> bool
    ensures { result ≡ true → take 1 events.now ≡ event.now ∷ [] }
{
    match events.first() {
        Some(first) => is_same(event, first),
        None => false,
    }
}

// Takes off the last slip. A block without events goes.
#[tactic(auto, using(crate::proofs::SlipLists::no_block, crate::proofs::SlipLists::filled_end, crate::proofs::SlipLists::filled_front, crate::proofs::SlipLists::filled_push, crate::proofs::SlipLists::popped_some, crate::proofs::SlipLists::popped_last))]
fn pop(blocks: &mut Vec<PlacedBlock>) -> Option<Slip>
    requires { AreFilled blocks.old.items }
    ensures popped { MatchOption result (slips_of blocks.old.items ≡ [])
        (λ slip. slips_of blocks.old.items ≡ slips_of blocks.new.items ++ slip ∷ []) }
    ensures unchanged { result ≡ None → blocks.new.items ≡ blocks.old.items }
    ensures filled { AreFilled blocks.new.items }
{
    match blocks.pop() {
        Some(mut placed) => {
            let slip = placed.pop();
            if placed.block.len() == 0 {
                return Some(slip);
            }
            blocks.push_reserved(placed);
            Some(slip)
        }
        None => None,
    }
}

// Takes off the last block, if it is this one and its first event has this place.
#[tactic(auto, using(crate::proofs::SlipLists::filled_front, crate::proofs::SlipLists::popped_block))]
fn pop_block(blocks: &mut Vec<PlacedBlock>, place: usize, block: &Block) -> bool
    requires { AreFilled blocks.old.items }
    ensures popped { result ≡ true
        → slips_of blocks.old.items ≡ slips_of blocks.new.items ++ slips_from place block.now }
    ensures unchanged { result ≡ false → blocks.new.items ≡ blocks.old.items }
    ensures filled { AreFilled blocks.new.items }
{
    match blocks.pop() {
        Some(placed) => {
            if placed.place == place && placed.block.is_same(block) {
                return true;
            }
            blocks.push_reserved(placed);
            false
        }
        None => false,
    }
}

// The last slip.
#[tactic(auto, using(crate::proofs::SlipLists::last_in, crate::proofs::SlipLists::no_slip))]
fn last(blocks: &[PlacedBlock]) -> Option<Slip>
    requires { AreFilled blocks.now }
    ensures { MatchOption result (slips_of blocks.now ≡ [])
        (λ slip. (front : List IsSlip) × (slips_of blocks.now ≡ front ++ slip ∷ [])) }
{
    match blocks.len().checked_sub(1) {
        Some(position) => Some(blocks[position].last()),
        None => None,
    }
}

// The event of a place, looked for near a block.
#[tactic(auto, using(crate::proofs::SlipLists::found_in))]
fn get(blocks: &[PlacedBlock], place: usize, near: &mut usize) -> Option<Event>
    ensures found { IfSome result (λ event. (k : ℕ)
        × (slice_get (slips_of blocks.now) k ≡ Some (record { place = place; event = event }))) }
    ensures none { result ≡ None → (k : ℕ) (slip : IsSlip) → slice_get (slips_of blocks.now) k ≡ Some slip
        → slip.place ≢ place }
{
    match find(blocks, place, *near) {
        Some(position) => {
            *near = position;
            event_in(blocks, position, place)
        }
        None => None,
    }
}
