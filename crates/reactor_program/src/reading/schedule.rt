//! Schedulings: `schedule C D A`.
ghost use Rattle.std.specs.Prelude.{◌<◌, ◌^◌, ◌∷◌, List, ℕ, codes, MatchOption};
ghost use Rattle.plan_slots.specs.Limits.{IsWithinLimits};
ghost use Rattle.tag_text.specs.Duration.{Spells};
ghost use Rattle.reactor_program.specs.Tokens.{tokens_of};
ghost use Rattle.reactor_program.specs.Grammar.{SpellsStatement};
ghost use Rattle.reactor_program.specs.Resolution.{statement_of};
ghost use Rattle.reactor_program.specs.Reading.{IsReading, IsTimed};

use super::answer::{both, numbered};
use super::operand::operand;
use crate::fault::LineFault;
use crate::places::action_slot;
use crate::program::{State, Statement};
use crate::token::{next_token, only_token, two_tokens};
use plan_names::is_name;
use plan_slots::Slots;
use std::str;
use tag::{Delay, Time};
use tag_text::parse_duration;

/// The statement that begins with `schedule`: an action, a duration, and an operand.
pub(super) fn schedule(slots: &Slots, states: &[State], text: &[u8]) -> Result<Statement, LineFault>
    requires { IsWithinLimits slots.now }
    ensures { IsReading (λ w. SpellsStatement w (codes "schedule" ∷ tokens_of text.now))
        (statement_of slots.now states.now) result }
{
    let Some((action, rest)) = next_token(text) else {
        return Err(LineFault::NoForm);
    };
    let Some((time, value)) = timed(rest) else {
        return Err(LineFault::NoForm);
    };
    let action = numbered(is_name(action), action_slot(slots, action));
    let value = operand(slots, states, value);
    let (action, value) = both(action, value)?;
    Ok(Statement::Schedule(action, Delay::after(time), value))
}

// The duration that a text begins with, in one token or in two, and the one token after it.
fn timed(text: &[u8]) -> Option<(Time, &[u8])>
    ensures { MatchOption result ((time : ℕ) (token : List ℕ) → IsTimed text.now time token → ⊥)
        (λ parts. IsTimed text.now parts.0 parts.1.now) }
{
    let (first, rest) = next_token(text)?;
    if let Some(value) = only_token(rest) {
        return Some((duration(first)?, value));
    }
    let (both, rest) = two_tokens(text)?;
    let value = only_token(rest)?;
    Some((duration(both)?, value))
}

// The time that a text as `10 ms` or `0` spells, or None for 2^62 ns or more.
fn duration(text: &[u8]) -> Option<Time>
    ensures { MatchOption result ((time : ℕ) → Spells text.now time → time < 2 ^ 62 → ⊥)
        (λ time. Spells text.now time × (time < 2 ^ 62)) }
{
    let Ok(text) = str::from_utf8(text) else {
        return None;
    };
    let Ok(nanoseconds) = parse_duration(text) else {
        return None;
    };
    Time::new(nanoseconds)
}
