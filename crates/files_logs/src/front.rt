//! What stands at the front of bytes behind a sum.

ghost use Rattle.std.specs.Prelude.{◌≡◌, ◌≤◌, ◌++◌, ◌↔◌, nat_lt, if◌then◌else◌, length, IsTrue, IfOk, IfErr};
ghost use Rattle.byteorder.specs.Endian.{big_bytes};
ghost use Rattle.files_logs.specs.declared.layout.TheConstants.{MOST_SAID, LONGEST_BLOCK, DIGEST_SIZE};
ghost use Rattle.files_logs.specs.Sums as sums;
ghost use Rattle.files_logs.specs.Blocks.{block_bytes, IsSayable};
ghost use Rattle.files_logs.specs.Front.{front_of, front_behind};
ghost use Rattle.files_logs.specs.Front as fronts;
ghost use Rattle.files_logs.specs.Parts.{IsStop, IsStopBehind};

use crate::layout::{BEGIN_SIZE, DIGEST_SIZE, LONGEST_BLOCK, MOST_SAID, SIZE_SIZE, SUM_SIZE};
use crate::numbers::{take_eight, take_four};
use crate::sums::{block_sum, size_check};

/// Why no whole block stands at the front of some bytes.
#[derive(Clone, Copy, Debug, PartialEq, Eq)]
pub enum Stop {
    /// There is nothing, or what a write left that didn't end.
    Torn,
    /// There is the size 0, and a digest or more.
    Ending,
    /// There is something else.
    Damaged,
}

/// What the block says that stands at the front of the bytes, what is behind it, and its sum.
pub fn block_at(before: u64, bytes: &[u8]) -> Result<(&[u8], &[u8], u64), Stop>
    ensures whole { IfOk result (λ x. front_of before bytes.now ≡ fronts.whole x.0.now x.1.now) }
    ensures parts { IfOk result (λ x. bytes.now ≡ block_bytes before x.0.now ++ x.1.now) }
    ensures sayable { IfOk result (λ x. IsSayable x.0.now) }
    ensures sum { IfOk result (λ x. x.2 ≡ sums.block_sum before x.0.now) }
    ensures stop { IfErr result (IsStop before bytes.now) }
{
    if bytes.len() < SIZE_SIZE {
        return Err(Stop::Torn);
    }
    let (size, behind) = take_four(bytes);
    let (check, behind) = take_four(behind);
    if !is_size(before, size, check) {
        return Err(unsized_tail(bytes.len(), behind));
    }
    if size == 0 {
        return Err(end_behind(behind));
    }
    block_behind(before, size as usize, behind)
}

// Whether a block may have this size, and this is its check.
fn is_size(before: u64, size: u32, check: u32) -> bool
    ensures { IsTrue result ↔ ((size ≤ MOST_SAID) × (check ≡ sums.size_check before size)) }
{
    size as usize <= MOST_SAID && check == size_check(before, size)
}

// What so many bytes are that begin with no size, behind which these stand.
fn unsized_tail(count: usize, behind: &[u8]) -> Stop
    ensures { result ≡ (if nat_lt LONGEST_BLOCK count then Stop.Damaged
        else if fronts.has_block behind.now then Stop.Damaged else Stop.Torn) }
{
    if count > LONGEST_BLOCK {
        return Stop::Damaged;
    }
    if has_block(behind) {
        Stop::Damaged
    } else {
        Stop::Torn
    }
}

// Whether a block or the end begins somewhere behind the sum of another block.
fn has_block(bytes: &[u8]) -> bool
    ensures { result ≡ fronts.has_block bytes.now }
{
    let mut rest = bytes;
    while !rest.is_empty() {
        if begins_block(rest) {
            return true;
        }
        let (_, behind) = rest.split_at(1);
        rest = behind;
    }
    false
}

// Whether a sum stands first, and behind it a size with its check.
fn begins_block(bytes: &[u8]) -> bool
    ensures { result ≡ fronts.begins_block bytes.now }
{
    if bytes.len() < BEGIN_SIZE {
        return false;
    }
    let (sum, behind) = take_eight(bytes);
    let (size, behind) = take_four(behind);
    let (check, _) = take_four(behind);
    is_size(sum, size, check)
}

// What stands behind the size 0.
fn end_behind(bytes: &[u8]) -> Stop
    ensures { result ≡ (if nat_lt (length bytes.now) DIGEST_SIZE then Stop.Torn else Stop.Ending) }
{
    if bytes.len() < DIGEST_SIZE {
        Stop::Torn
    } else {
        Stop::Ending
    }
}

// The block of this size, behind it.
#[tactic(auto, using(crate::proofs::Fronts::block_short, crate::proofs::Found::good_block, crate::proofs::Found::torn_block, crate::proofs::Found::spoilt_block))]
fn block_behind(before: u64, size: usize, bytes: &[u8]) -> Result<(&[u8], &[u8], u64), Stop>
    requires { size ≤ MOST_SAID }
    ensures whole { IfOk result (λ x. front_behind before size bytes.now ≡ fronts.whole x.0.now x.1.now) }
    ensures parts { IfOk result (λ x.
        bytes.now ≡ x.0.now ++ (big_bytes 8 (sums.block_sum before x.0.now) ++ x.1.now)) }
    ensures size { IfOk result (λ x. length x.0.now ≡ size) }
    ensures sum { IfOk result (λ x. x.2 ≡ sums.block_sum before x.0.now) }
    ensures stop { IfErr result (IsStopBehind before size bytes.now) }
{
    if bytes.len() < size + SUM_SIZE {
        return Err(Stop::Torn);
    }
    let (said, behind) = bytes.split_at(size);
    let (found, rest) = take_eight(behind);
    let sum = block_sum(before, said);
    if found == sum {
        return Ok((said, rest, sum));
    }
    if rest.is_empty() {
        Err(Stop::Torn)
    } else {
        Err(Stop::Damaged)
    }
}
