ghost use Rattle.std.specs.Prelude.{◌≡◌, ◌<◌, ◌^◌, IsTrue, SomeIff, neg_ℤ, pos, FitsSigned};
ghost use Rattle.std.specs.Int.{w64};
ghost use Rattle.std.specs.Char.{is_ascii_digit};
ghost use Rattle.std.specs.List.{list_all};
ghost use Rattle.std.specs.Str.Parse.{digits_value};
ghost use Rattle.reactor_program.specs.Tokens.{is_numeral, number_in, IsWholeNumber};

use tag_text::digits_value;

/// The whole number that a token spells: digits, perhaps after a `-`, within 64 bits.
pub(crate) fn number(token: &[u8]) -> Option<i64>
    ensures { SomeIff result (IsWholeNumber token.now) (number_in token.now) }
{
    match token {
        [b'-', digits @ ..] => negated(magnitude(digits)?),
        _ => positive(magnitude(token)?),
    }
}

fn positive(magnitude: u64) -> Option<i64>
    ensures { SomeIff result (FitsSigned w64 (pos magnitude)) (pos magnitude) }
{
    i64::try_from(magnitude).ok()
}

fn negated(magnitude: u64) -> Option<i64>
    ensures { SomeIff result (FitsSigned w64 (neg_ℤ (pos magnitude))) (neg_ℤ (pos magnitude)) }
{
    if magnitude < 1 << 63 {
        Some(-(magnitude as i64))
    } else if magnitude == 1 << 63 {
        Some(i64::MIN)
    } else {
        None
    }
}

// The number that digits spell, or None for other texts, and for 2^64 or more.
#[tactic(auto, using(crate::proofs::Numerals::digits_listed))]
fn magnitude(digits: &[u8]) -> Option<u64>
    ensures { SomeIff result (IsTrue (is_numeral digits.now) × (digits_value 10 digits.now < 2 ^ 64))
        (digits_value 10 digits.now) }
{
    if digits.is_empty() || !are_digits(digits) {
        return None;
    }
    digits_value(digits)
}

fn are_digits(text: &[u8]) -> bool
    ensures { result ≡ list_all is_ascii_digit text.now }
{
    text.iter().all(|c| c.is_ascii_digit())
}
