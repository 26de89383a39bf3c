//! Blocks behind one another, read from their bytes.

ghost use Rattle.std.specs.Prelude.{IfOk, IfErr};
ghost use Rattle.files_logs.specs.Parts.{IsEnd, IsBlocksFault};

use crate::front::{Stop, block_at};
use crate::items::{add_said, either};
use crate::log_fault::LogFault;
use node_journal::Journal;
use std::alloc::Global;

/// Where blocks end, and what they said.
#[derive(Clone, Copy, Debug)]
pub struct BlocksEnd {
    /// One of them says that the run is finished.
    pub is_told: bool,
    /// The sum behind them.
    pub sum: u64,
    /// How many bytes are behind them.
    pub left: usize,
    /// Why there is no block more.
    pub stop: Stop,
}

/// Adds the events of the blocks that begin the bytes behind a sum to a journal.
#[tactic(auto, using(crate::proofs::Found::none_read, crate::proofs::Found::one_read, crate::proofs::Found::block_shorter))]
pub fn read_blocks(
    alloc: Global,
    journal: &mut Journal,
    sum: u64,
    bytes: &[u8],
) -> Result<BlocksEnd, LogFault>
    ensures read { IfOk result (λ end. IsEnd sum bytes.now journal.old journal.new end) }
    ensures fault { IfErr result (IsBlocksFault sum bytes.now) }
{
    let mut is_told = false;
    let mut before = sum;
    let mut rest = bytes;
    loop {
        let (said, behind, next) = match block_at(before, rest) {
            Ok(block) => block,
            Err(stop) => {
                let left = rest.len();
                return Ok(BlocksEnd {
                    is_told,
                    sum: before,
                    left,
                    stop,
                });
            }
        };
        let now = add_said(alloc, journal, said)?;
        is_told = either(now, is_told);
        before = next;
        rest = behind;
    }
}
