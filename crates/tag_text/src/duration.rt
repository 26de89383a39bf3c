ghost use Rattle.std.specs.Prelude.{◌≡◌, ℕ, ◌<◌, ◌≤◌, ◌^◌, ◌↔◌, ◌*◌, List, length, IsTrue, IfOk, MatchOption, SomeIff};
ghost use Rattle.std.specs.Prelude.{◌==◌};
ghost use Rattle.std.specs.Char.{is_ascii_digit};
ghost use Rattle.std.specs.List.{prefix_len};
ghost use Rattle.std.specs.Str.{all_ascii_digits};
ghost use Rattle.std.specs.Str.Parse.{digits_value};
ghost use Rattle.tag_text.specs.Duration.{IsUnit, HasParts, Spells};
ghost use Rattle.tag_text.specs.declared.duration.DurationFault.TheVariants.{BadDuration, TooLong};

use crate::decimal::digits_value;
use std::fmt;
use tag::Time;

/// Why a text is no duration.
#[derive(Clone, Copy, Debug, PartialEq, Eq)]
pub enum DurationFault {
    /// No number with a unit, and not `0`.
    BadDuration,
    /// 2^62 ns or more.
    TooLong,
}

impl DurationFault {
    ghost use Rattle.tag_text.specs.DurationFault.{fault_number, fault_name};

    pub fn number(self) -> u16
        ensures { result ≡ fault_number self }
    {
        match self {
            DurationFault::BadDuration => 1,
            DurationFault::TooLong => 2,
        }
    }

    fn name(self) -> &'static str
        ensures { result.now ≡ fault_name self }
    {
        match self {
            DurationFault::BadDuration => "BadDuration",
            DurationFault::TooLong => "TooLong",
        }
    }
}

impl fmt::Display for DurationFault {
    ghost use Rattle.std.specs.Prelude.{Some};
    ghost use Rattle.tag_text.specs.DurationFault.{fault_text};

    ghost output = { λ fault. Some (fault_text fault) };

    fn fmt<W: fmt::Write>(&self, f: &mut fmt::Formatter<W>) -> fmt::Result {
        write!(f, "{} {}", self.number(), self.name())
    }
}

impl std::error::Error for DurationFault {}

/// The nanoseconds of a text as `10 ms` or `0`.
pub fn parse_duration(text: &str) -> Result<u64, DurationFault>
    ensures ok { IfOk result (λ value. Spells text.now value × (value < 2 ^ 62)) }
    ensures exact { (value : ℕ) → Spells text.now value → value < 2 ^ 62 → result ≡ Ok value }
    ensures too_long { (result ≡ Err TooLong) ↔ ((value : ℕ) × Spells text.now value × (2 ^ 62 ≤ value)) }
    ensures bad { (result ≡ Err BadDuration) ↔ ((value : ℕ) → ¬ (Spells text.now value)) }
{
    if text == "0" {
        return Ok(0);
    }
    match parts(text.as_bytes()) {
        Some((digits, unit)) => value(digits, unit).ok_or(DurationFault::TooLong),
        None => Err(DurationFault::BadDuration),
    }
}

// The digits in front, and the unit in nanoseconds.
fn parts(text: &[u8]) -> Option<(&[u8], u64)>
    ensures { MatchOption result ((digits : List ℕ) (unit : ℕ) → ¬ (HasParts text.now digits unit))
        (λ parts. HasParts text.now parts.0.now parts.1) }
{
    let (digits, rest) = text.split_at(digits_len(text));
    if digits.is_empty() {
        return None;
    }
    let (_, name) = rest.split_at(spaces_len(rest));
    let unit = unit(name)?;
    Some((digits, unit))
}

fn digits_len(text: &[u8]) -> usize
    ensures value { result ≡ prefix_len is_ascii_digit text.now }
    ensures within { result ≤ length text.now }
{
    text.iter().take_while(|b| b.is_ascii_digit()).count()
}

fn spaces_len(text: &[u8]) -> usize
    ensures value { result ≡ prefix_len (λ b. b == 32) text.now }
    ensures within { result ≤ length text.now }
{
    text.iter().take_while(|b| **b == b' ').count()
}

// The unit's length in nanoseconds.
fn unit(name: &[u8]) -> Option<u64>
    ensures { MatchOption result ((n : ℕ) → ¬ (IsUnit name.now n)) (IsUnit name.now) }
{
    match name {
        b"ns" | b"nsec" => Some(1),
        b"us" | b"usec" => Some(1_000),
        b"ms" | b"msec" => Some(1_000_000),
        b"s" | b"sec" => Some(1_000_000_000),
        _ => None,
    }
}

// None for 2^62 or more.
fn value(digits: &[u8], unit: u64) -> Option<u64>
    requires digits_are { IsTrue (all_ascii_digits digits.now) }
    requires some_unit { 0 < unit }
    ensures { SomeIff result (digits_value 10 digits.now * unit < 2 ^ 62) (digits_value 10 digits.now * unit) }
{
    let value = digits_value(digits)?.checked_mul(unit)?;
    Some(Time::new(value)?.nanoseconds())
}
