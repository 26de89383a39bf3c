//! Logs as they are read.

ghost use Rattle.std.specs.Prelude.{◌≡◌, ◌+◌, ◌≤◌, ◌↔◌, length, take, IsTrue, IfOk, IfErr, MatchResult};
ghost use Rattle.sha2.specs.Sha256.{sha256};
ghost use Rattle.files_logs.specs.declared.layout.TheConstants.{HEAD_SIZE, SUMMED_SIZE, SIZE_SIZE};
ghost use Rattle.files_logs.specs.declared.log.Log.{Log as IsLogValue};
ghost use Rattle.files_logs.specs.Sums as sums;
ghost use Rattle.files_logs.specs.Parts.{IsEnding, IsNoEnding};
ghost use Rattle.files_logs.specs.Reading.{IsNamed, IsRead, IsLogRead, BeginsHead, IsFaultBehind, IsLogFault};

use crate::blocks::read_blocks;
use crate::front::Stop;
use crate::heads::{asked_head, name};
use crate::layout::{HEAD_SIZE, SIZE_SIZE, SUMMED_SIZE};
use crate::log::Log;
use crate::log_fault::LogFault;
use crate::log_head::LogHead;
use crate::sums::sum_of;
use files_reports::FileDigests;
use node_journal::Journal;
use sha2::{Digest, Sha256};
use std::alloc::Global;

/// Whether bytes begin with the name of the format: then they are a log, or nothing.
pub fn is_log(bytes: &[u8]) -> bool
    ensures { IsTrue result ↔ IsNamed bytes.now }
{
    bytes.starts_with(name())
}

/// What a log says that begins these bytes: that of this node, or of any node, in a run of these files, by a program
/// with these rules. A torn tail is no fault.
pub fn read_log(
    alloc: Global,
    files: &FileDigests,
    who: Option<u16>,
    rules: u16,
    bytes: &[u8],
) -> Result<Log, LogFault>
    // What is read is spelled so.
    ensures read { IfOk result (IsLogRead files.now who rules bytes.now) }
    // What is spelled so is read, unless memory runs out.
    ensures only { (log : IsLogValue) → IsLogRead files.now who rules bytes.now log
        → MatchResult result (λ found. found ≡ log) (λ fault. fault ≡ LogFault.Memory) }
    // Which fault it is.
    ensures fault { IfErr result (IsLogFault files.now who rules bytes.now) }
{
    let head = asked_head(files, who, rules, bytes)?;
    read_behind(alloc, &head, bytes)
}

// What a log with this head says.
#[tactic(auto, using(crate::proofs::Found::found_behind, crate::proofs::Found::fault_behind, crate::proofs::Found::room_for_size, crate::proofs::Found::left_fits))]
fn read_behind(alloc: Global, head: &LogHead, bytes: &[u8]) -> Result<Log, LogFault>
    requires { BeginsHead head.now bytes.now }
    ensures who { IfOk result (λ log. log.who ≡ head.now.who) }
    ensures read { IfOk result (IsRead head.now bytes.now) }
    ensures fault { IfErr result (IsFaultBehind head.now bytes.now) }
{
    let (front, behind) = bytes.split_at(HEAD_SIZE);
    let mut journal = Journal::new(alloc);
    let end = read_blocks(alloc, &mut journal, sum_in(front), behind)?;
    let whole = bytes.len() - end.left;
    let is_ended = has_end(end.stop, bytes, whole)?;
    Ok(Log {
        who: head.who,
        journal,
        is_told: end.is_told,
        is_ended,
        whole: if is_ended { bytes.len() } else { whole },
        sum: end.sum,
    })
}

// The sum of a head.
fn sum_in(front: &[u8]) -> u64
    requires { length front.now ≡ HEAD_SIZE }
    ensures { result ≡ sums.sum_of (take SUMMED_SIZE front.now) }
{
    let (summed, _) = front.split_at(SUMMED_SIZE);
    sum_of(summed)
}

// Whether the log has its end behind so many bytes.
fn has_end(stop: Stop, bytes: &[u8], whole: usize) -> Result<bool, LogFault>
    requires whole { whole ≤ length bytes.now }
    requires ending { stop ≡ Stop.Ending → whole + SIZE_SIZE ≤ length bytes.now }
    ensures ended { IfOk result (λ ended. IsEnding stop bytes.now (whole + SIZE_SIZE) ended) }
    ensures fault { IfErr result (IsNoEnding stop bytes.now (whole + SIZE_SIZE)) }
{
    match stop {
        Stop::Torn => Ok(false),
        Stop::Damaged => Err(LogFault::Damaged),
        Stop::Ending => {
            let (before, seal) = bytes.split_at(whole + SIZE_SIZE);
            if is_digest(seal, before) {
                Ok(true)
            } else {
                Err(LogFault::CutShort)
            }
        }
    }
}

// Whether this is the digest of these bytes.
fn is_digest(digest: &[u8], bytes: &[u8]) -> bool
    ensures { IsTrue result ↔ (digest.now ≡ sha256 bytes.now) }
{
    let own = Sha256::digest(bytes);
    digest == own.as_slice()
}
