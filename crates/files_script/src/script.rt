ghost use Rattle.std.specs.Prelude.{◌≡◌, ◌≢◌, ◌<◌, ◌≤◌, ◌↔◌, ◌+◌, ◌∷◌, [], length, IfOk, IfErr, IfSome, MatchOption};
ghost use Rattle.std.specs.Prelude.{Err};
ghost use Rattle.std.specs.List.{prefix_len};
ghost use Rattle.files_script.specs.declared.script.TheConstants.{MOST_BYTES};
ghost use Rattle.files_script.specs.Scripts.{is_within_line, lines_of, line_count, IsScriptOf, IsFaultOf};

use crate::command::Command;
use crate::fault::ScriptFault;
use crate::reading::{is_idle, read_command};
use plan::Plan;
use std::alloc::Global;
use std::marker::Model;

/// The most bytes that a schedule file has.
pub const MOST_BYTES: usize = 1_048_576;

/// A command, with the number of its line, counted from 1.
#[derive(Clone, Copy, Debug, PartialEq, Eq)]
pub struct ScheduleLine {
    pub number: usize,
    pub command: Command,
}

/// A schedule, as it was read: its commands in their order, and how many lines its file has.
#[derive(Drop)]
pub struct Script {
    lines: Vec<ScheduleLine>,
    last: usize,
}

impl Model for Script {
    ghost use Rattle.files_script.specs.Scripts.{Script as ScriptOf};
    ghost use Rattle.std.specs.Prelude.{◌≤◌};
    ghost use Rattle.files_script.specs.declared.script.TheConstants.{MOST_BYTES};

    ghost Value = { ScriptOf };

    ghost view = { λ s. record { lines = s.lines.items; last_line = s.last } };

    ghost invariant = { λ s. s.last ≤ MOST_BYTES };
}

impl Script {
    /// The commands, in their order.
    pub fn lines(&self) -> &[ScheduleLine]
        ensures { result.now ≡ self.now.lines }
    {
        self.lines.as_slice()
    }

    /// The number of the file's last line, whatever it says, or 0 of an empty file.
    pub fn last_line(&self) -> usize
        ensures { result ≡ self.now.last_line }
    {
        self.last
    }

    /// The number of the line after it.
    pub fn line_after(&self) -> usize
        ensures { result ≡ self.now.last_line + 1 }
    {
        self.last + 1
    }
}

/// The commands that the lines of a schedule file spell, for a plan. A file that is too long is refused as that. In any
/// other the first line that spells no command is refused, unless it fails for want of memory.
pub fn read_script(alloc: Global, bytes: &[u8], plan: &Plan) -> Result<Script, ScriptFault>
    ensures ok { IfOk result (IsScriptOf plan.now bytes.now) }
    ensures over { (result ≡ Err ScriptFault.OverLimit) ↔ (MOST_BYTES < length bytes.now) }
    ensures refused { IfErr result (IsFaultOf plan.now bytes.now) }
{
    if bytes.len() > MOST_BYTES {
        return Err(ScriptFault::OverLimit);
    }
    read_lines(alloc, bytes, plan)
}

#[tactic(auto, using(crate::proofs::Lines::asked_nothing, crate::proofs::Lines::asked_something, crate::proofs::Spelling::spelled_nothing, crate::proofs::Spelling::spelled_one, crate::proofs::Spelling::good_so_far, crate::proofs::Spelling::bad_line))]
fn read_lines(alloc: Global, bytes: &[u8], plan: &Plan) -> Result<Script, ScriptFault>
    requires { length bytes.now ≤ MOST_BYTES }
    ensures ok { IfOk result (IsScriptOf plan.now bytes.now) }
    ensures refused { IfErr result (λ fault. IsFaultOf plan.now bytes.now fault × (fault ≢ ScriptFault.OverLimit)) }
{
    let mut lines = Vec::new(alloc);
    let mut last = 0;
    let mut rest = bytes;
    while let Some((line, after)) = next_line(rest) {
        last += 1;
        rest = after;
        if !is_idle(line) {
            let command = read_command(plan, line).ok_or(ScriptFault::ScheduleLine(last))?;
            let number = last;
            lines.push(ScheduleLine { number, command })?;
        }
    }
    Ok(Script { lines, last })
}

// The first of some lines, and what follows it. None where there is no line.
fn next_line(lines: &[u8]) -> Option<(&[u8], &[u8])>
    ensures lines { MatchOption result (lines_of lines.now ≡ [])
        (λ parts. lines_of lines.now ≡ parts.0.now ∷ lines_of parts.1.now) }
    ensures count { MatchOption result (line_count lines.now ≡ 0)
        (λ parts. line_count lines.now ≡ line_count parts.1.now + 1) }
    ensures shorter { IfSome result (λ parts. length parts.1.now < length lines.now) }
{
    if lines.is_empty() {
        return None;
    }
    let (line, rest) = lines.split_at(line_len(lines));
    match rest {
        [_, after @ ..] => Some((line, after)),
        [] => Some((line, rest)),
    }
}

// In bytes.
fn line_len(lines: &[u8]) -> usize
    ensures value { result ≡ prefix_len is_within_line lines.now }
    ensures within { result ≤ length lines.now }
{
    lines.iter().take_while(|byte| **byte != b'\n').count()
}
