//! Logs as they are written, a part at a time.

ghost use Rattle.std.specs.Prelude.{◌≡◌, ◌++◌, ◌<◌, ◌≤◌, [], length, OnOk, IfOk, IfErr};
ghost use Rattle.std.specs.List.{AllByRecursion};
ghost use Rattle.sha2.specs.Sha256.{sha256};
ghost use Rattle.files_logs.specs.declared.layout.TheConstants.{MOST_SAID};
ghost use Rattle.files_logs.specs.Sums as sums;
ghost use Rattle.files_logs.specs.Blocks.{size_bytes, block_bytes, IsBlock, blocks_bytes, sum_behind};
ghost use Rattle.files_logs.specs.Log.{summed_head, head_bytes, head_sum, IsHead, end_bytes};
ghost use Rattle.files_logs.specs.Writing.{blocks_for, IsWriteFault};

use crate::appending::append_said;
use crate::heads::name;
use crate::layout::{MOST_SAID, SIZE_SIZE, SUM_SIZE};
use crate::log_head::LogHead;
use crate::numbers::{eight_bytes, four_bytes, two_bytes};
use crate::sums::{block_sum, size_check, sum_of};
use crate::write_fault::LogWriteFault;
use crate::written::Written;
use files_reports::Memory;
use files_reports::appending::append;
use node_journal::Journal;
use sha2::{Digest, Sha256};
use std::alloc::Global;

/// Few events take more bytes.
const EVENT_ROOM: usize = 50;

/// The head, with which a log begins.
pub fn write_head(alloc: Global, head: &LogHead) -> Result<Written, Memory>
    ensures bytes { IfOk result (λ written. written.bytes.items ≡ head_bytes head.now) }
    ensures sum { IfOk result (λ written. written.sum ≡ head_sum head.now) }
    ensures is_head { OnOk result (IsHead head.now) }
{
    let mut bytes = Vec::new(alloc);
    append_head(&mut bytes, head)?;
    let sum = sum_of(bytes.as_slice());
    append(&mut bytes, &eight_bytes(sum))?;
    Ok(Written { bytes, sum })
}

// A head before its sum.
fn append_head(bytes: &mut Vec<u8>, head: &LogHead) -> Result<(), Memory>
    ensures written { OnOk result (bytes.new.items ≡ bytes.old.items ++ summed_head head.now) }
    ensures is_head { OnOk result (IsHead head.now) }
{
    append(bytes, name())?;
    append(bytes, &head.files.federation)?;
    append(bytes, &head.files.inputs)?;
    append(bytes, &two_bytes(head.who))?;
    append(bytes, &two_bytes(head.rules))
}

/// The block that says that these events came, and if so, that the run is finished, behind the sum of what was written
/// before it; no bytes, if there is nothing to say.
pub fn write_block(
    alloc: Global,
    sum: u64,
    events: &Journal,
    is_told: bool,
) -> Result<Written, LogWriteFault>
    ensures written { IfOk result (λ written. written.bytes.items ≡ blocks_bytes sum (blocks_for events.now is_told)) }
    ensures sum { IfOk result (λ written. written.sum ≡ sum_behind sum (blocks_for events.now is_told)) }
    ensures are_blocks { OnOk result (AllByRecursion IsBlock (blocks_for events.now is_told)) }
    ensures fault { IfErr result (IsWriteFault events.now is_told) }
{
    let mut said = with_room(
        alloc,
        events.len().saturating_mul(EVENT_ROOM).saturating_add(1),
    );
    append_said(&mut said, events, is_told)?;
    if said.as_slice().is_empty() {
        return Ok(Written { bytes: said, sum });
    }
    if said.as_slice().len() > MOST_SAID {
        return Err(LogWriteFault::TooLong);
    }
    let written = block_of(alloc, sum, said.as_slice())?;
    Ok(written)
}

// No bytes, with room for this many, if there is memory for it: so it isn't asked for again and again.
fn with_room(alloc: Global, count: usize) -> Vec<u8>
    ensures { result.items ≡ [] }
{
    match Vec::with_capacity(alloc, count) {
        Ok(bytes) => bytes,
        Err(_) => Vec::new(alloc),
    }
}

// The block that says this.
#[tactic(auto, using(crate::proofs::Spelled::block_appended))]
fn block_of(alloc: Global, sum: u64, said: &[u8]) -> Result<Written, Memory>
    requires { length said.now ≤ MOST_SAID }
    ensures bytes { IfOk result (λ written. written.bytes.items ≡ block_bytes sum said.now) }
    ensures sum { IfOk result (λ written. written.sum ≡ sums.block_sum sum said.now) }
{
    let mut bytes = with_room(alloc, said.len() + SIZE_SIZE + SUM_SIZE);
    append_size(&mut bytes, sum, said.len() as u32)?;
    append(&mut bytes, said)?;
    let next = block_sum(sum, said);
    append(&mut bytes, &eight_bytes(next))?;
    Ok(Written { bytes, sum: next })
}

// A size, and its check.
fn append_size(bytes: &mut Vec<u8>, sum: u64, size: u32) -> Result<(), Memory>
    ensures { OnOk result (bytes.new.items ≡ bytes.old.items ++ size_bytes sum size) }
{
    append(bytes, &four_bytes(size))?;
    append(bytes, &four_bytes(size_check(sum, size)))
}

/// The end of a log of which these are all bytes, with their sum. Nothing may be appended behind it.
pub fn write_end(alloc: Global, sum: u64, all: &[u8]) -> Result<Vec<u8>, Memory>
    ensures { IfOk result (λ bytes. bytes.items ≡ end_bytes sum all.now) }
{
    let mut bytes = Vec::new(alloc);
    append_size(&mut bytes, sum, 0)?;
    let digest = digest_of_both(all, bytes.as_slice());
    append(&mut bytes, &digest)?;
    Ok(bytes)
}

// The digest of these bytes, one behind the other.
fn digest_of_both(first: &[u8], second: &[u8]) -> [u8; 32]
    ensures { result ≡ sha256 (first.now ++ second.now) }
{
    let mut hasher = Sha256::new();
    hasher.update(first);
    hasher.update(second);
    hasher.finalize()
}
