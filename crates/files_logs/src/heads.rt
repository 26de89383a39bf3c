//! Heads of logs, read from their bytes.

ghost use Rattle.std.specs.Prelude.{◌≡◌, ◌≤◌, ◌++◌, ◌↔◌, length, IsTrue, IfOk, IfErr, MatchOption};
ghost use Rattle.files_logs.specs.declared.layout.TheConstants.{DIGEST_SIZE};
ghost use Rattle.files_logs.specs.Log.{format};
ghost use Rattle.files_logs.specs.Reading.{IsAsked, head_of, BeginsHead, HasNoHead, IsLogFault};
ghost use Rattle.files_logs.specs.Parts.{IsHeadless};

use crate::layout::{DIGEST_SIZE, HEAD_SIZE, SUMMED_SIZE};
use crate::log_fault::LogFault;
use crate::log_head::LogHead;
use crate::numbers::{take_eight, take_two};
use crate::sums::sum_of;
use files_reports::FileDigests;

/// The name of the format, with its version.
pub fn name() -> &'static [u8]
    ensures { result.now ≡ format }
{
    b"fedrep 2"
}

/// The head of a log, where it is one that is asked for.
pub fn asked_head(
    files: &FileDigests,
    who: Option<u16>,
    rules: u16,
    bytes: &[u8],
) -> Result<LogHead, LogFault>
    ensures begins { IfOk result (λ head. BeginsHead head bytes.now) }
    ensures head { IfOk result (λ head. head ≡ head_of files.now rules head.who) }
    ensures asked { IfOk result (λ head. IsAsked who head.who) }
    ensures fault { IfErr result (IsLogFault files.now who rules bytes.now) }
{
    let Some(head) = head_at(bytes) else {
        return Err(no_head(bytes));
    };
    if head.files != *files {
        return Err(LogFault::OtherFiles);
    }
    if !is_asked(who, head.who) {
        return Err(LogFault::OtherNode);
    }
    if head.rules != rules {
        return Err(LogFault::OtherLog);
    }
    Ok(head)
}

// Whether the log of this node is asked for.
fn is_asked(asked: Option<u16>, who: u16) -> bool
    ensures { IsTrue result ↔ IsAsked asked who }
{
    match asked {
        Some(asked) => who == asked,
        None => true,
    }
}

// What bytes are that have no head.
fn no_head(bytes: &[u8]) -> LogFault
    ensures { IsHeadless bytes.now result }
{
    if bytes.len() <= HEAD_SIZE {
        return LogFault::NoLog;
    }
    match bytes.strip_prefix(name()) {
        Some(_) => LogFault::Damaged,
        None => LogFault::NoLog,
    }
}

// The head at the front of the bytes.
fn head_at(bytes: &[u8]) -> Option<LogHead>
    ensures { MatchOption result (HasNoHead bytes.now) (λ head. BeginsHead head bytes.now) }
{
    if bytes.len() < HEAD_SIZE {
        return None;
    }
    let rest = bytes.strip_prefix(name())?;
    let (federation, rest) = take_digest(rest);
    let (inputs, rest) = take_digest(rest);
    let (who, rest) = take_two(rest);
    let (rules, rest) = take_two(rest);
    let (sum, _) = take_eight(rest);
    let (summed, _) = bytes.split_at(SUMMED_SIZE);
    if sum_of(summed) != sum {
        return None;
    }
    Some(LogHead {
        files: FileDigests { federation, inputs },
        who,
        rules,
    })
}

// A digest, and the bytes behind it.
fn take_digest(bytes: &[u8]) -> ([u8; 32], &[u8])
    requires { DIGEST_SIZE ≤ length bytes.now }
    ensures parts { bytes.now ≡ result.0 ++ result.1.now }
    ensures size { length result.0 ≡ DIGEST_SIZE }
{
    let (front, rest) = bytes.split_at(DIGEST_SIZE);
    let mut digest = [0; 32];
    digest.copy_from_slice(front);
    (digest, rest)
}
