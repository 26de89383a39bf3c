//! The tokens of an expression.
ghost use Rattle.std.specs.Prelude.{◌≡◌, ◌<◌, ◌≤◌, ◌∷◌, [], length, codes, IfOk, IfSome, IsTrue};
ghost use Rattle.std.specs.Char.{is_ascii_digit};
ghost use Rattle.std.specs.List.{list_all};
ghost use Rattle.std.specs.Str.Parse.{digits_value};
ghost use Rattle.expand_expressions.specs.Grammar.{level_of, left_level, joining_of};
ghost use Rattle.expand_expressions.specs.Reading.{IsSign, IsTokenText, BeginsWith, BeginsWithSign};
ghost use Rattle.expand_expressions.specs.Reading.{HasTokens};
ghost use Rattle.expand_expressions.specs.declared.token.Token.TheVariants.{Operator};

use crate::fault::ExpressionFault;
use crate::formula::Combination;
use crate::known::Known;
use crate::words::{after_spaces, front_word};
use reactor_program::Operand;
use std::alloc::Global;
use tag_text::digits_value;

/// An operator between two expressions. A `Minus` may stand in front of one, too.
#[derive(Clone, Copy, Debug, PartialEq, Eq)]
pub enum Sign {
    Or,
    And,
    Less,
    AtMost,
    Greater,
    AtLeast,
    Equal,
    Different,
    Plus,
    Minus,
    Times,
    Slash,
    Percent,
}

/// What an operator makes of its sides: a combination, the quotient, or what that leaves.
#[derive(Clone, Copy)]
pub enum Joining {
    Combines(Combination),
    Divides,
    Leaves,
}

/// A number without sign, what a name stands for, an operator, or what stands around expressions.
#[derive(Clone, Copy)]
pub enum Token {
    Digits(u64),
    Name(Operand),
    Operator(Sign),
    Not,
    /// `min` or `max`.
    Call(Combination),
    Open,
    Close,
    Comma,
}

/// The most tokens of an expression: so it is bounded how deep one goes.
pub const MOST_TOKENS: usize = 512;

impl Sign {
    /// How tightly it binds: the greater, the tighter.
    pub(crate) fn level(self) -> u8
        ensures value { result ≡ level_of self }
        ensures within { result ≤ 6 }
    {
        match self {
            Sign::Or => 1,
            Sign::And => 2,
            Sign::Less
            | Sign::AtMost
            | Sign::Greater
            | Sign::AtLeast
            | Sign::Equal
            | Sign::Different => 4,
            Sign::Plus | Sign::Minus => 5,
            Sign::Times | Sign::Slash | Sign::Percent => 6,
        }
    }

    /// How tightly the operators to the left of it bind at least: a comparison is no side of another one.
    pub(crate) fn left_level(self) -> u8
        ensures { result ≡ left_level self }
    {
        match self.level() {
            4 => 5,
            level => level,
        }
    }

    /// What it makes of its sides.
    pub(crate) fn joining(self) -> Joining
        ensures { result ≡ joining_of self }
    {
        match self {
            Sign::Or => Joining::Combines(Combination::Either),
            Sign::And => Joining::Combines(Combination::Both),
            Sign::Less => Joining::Combines(Combination::IsLess),
            Sign::AtMost => Joining::Combines(Combination::IsAtMost),
            Sign::Greater => Joining::Combines(Combination::IsGreater),
            Sign::AtLeast => Joining::Combines(Combination::IsAtLeast),
            Sign::Equal => Joining::Combines(Combination::IsEqual),
            Sign::Different => Joining::Combines(Combination::IsDifferent),
            Sign::Plus => Joining::Combines(Combination::Sum),
            Sign::Minus => Joining::Combines(Combination::Difference),
            Sign::Times => Joining::Combines(Combination::Product),
            Sign::Slash => Joining::Divides,
            Sign::Percent => Joining::Leaves,
        }
    }
}

/// All tokens of a text, with any spaces between them.
pub(crate) fn tokens(
    alloc: Global,
    known: Known<'_>,
    text: &[u8],
) -> Result<Vec<Token>, ExpressionFault>
    ensures { IfOk result (λ tokens. HasTokens known.entry.operands.now known.entry.readable.now text.now tokens.items) }
{
    let mut tokens = Vec::new(alloc);
    let mut rest = after_spaces(text);
    while !rest.is_empty() {
        if tokens.len() >= MOST_TOKENS {
            return Err(ExpressionFault::TooLong);
        }
        let (token, after) = next_token(known, rest)?;
        tokens.push(token)?;
        rest = after_spaces(after);
    }
    Ok(tokens)
}

// The token that stands in front, and what follows it.
fn next_token<'a>(known: Known<'_>, text: &'a [u8]) -> Result<(Token, &'a [u8]), ExpressionFault>
    ensures first { IfOk result
        (λ parts. BeginsWith known.entry.operands.now known.entry.readable.now text.now parts.0 parts.1.now) }
    ensures shorter { IfOk result (λ parts. length parts.1.now < length text.now) }
{
    let (word, rest) = front_word(text);
    if word.is_empty() {
        return next_sign(text);
    }
    Ok((word_token(known, word)?, rest))
}

// What a word is: a number, an operator, or a name.
fn word_token(known: Known<'_>, word: &[u8]) -> Result<Token, ExpressionFault>
    ensures { IfOk result (λ token. IsTokenText known.entry.operands.now known.entry.readable.now token word.now) }
{
    match word {
        b"or" => Ok(Token::Operator(Sign::Or)),
        b"and" => Ok(Token::Operator(Sign::And)),
        b"not" => Ok(Token::Not),
        b"min" => Ok(Token::Call(Combination::Least)),
        b"max" => Ok(Token::Call(Combination::Greatest)),
        [b'0'..=b'9', ..] => Ok(Token::Digits(magnitude(word)?)),
        _ => match known.operand(word) {
            Some(operand) => Ok(Token::Name(operand)),
            None => Err(ExpressionFault::UnknownName),
        },
    }
}

// The longest sign that stands in front, and what follows it.
fn next_sign(text: &[u8]) -> Result<(Token, &[u8]), ExpressionFault>
    ensures first { IfOk result (λ parts. BeginsWithSign text.now parts.0 parts.1.now) }
    ensures shorter { IfOk result (λ parts. length parts.1.now < length text.now) }
{
    if let [first, b'=', rest @ ..] = text {
        if let Some(sign) = comparison(*first) {
            return Ok((Token::Operator(sign), rest));
        }
    }
    match text {
        [first, rest @ ..] => match short_sign(*first) {
            Some(token) => Ok((token, rest)),
            None => Err(ExpressionFault::NoForm),
        },
        [] => Err(ExpressionFault::NoForm),
    }
}

// The sign of this character and `=`.
fn comparison(first: u8) -> Option<Sign>
    ensures { IfSome result (λ sign. IsSign (Operator sign) (first ∷ codes "=")) }
{
    match first {
        b'<' => Some(Sign::AtMost),
        b'>' => Some(Sign::AtLeast),
        b'=' => Some(Sign::Equal),
        b'!' => Some(Sign::Different),
        _ => None,
    }
}

// The sign of one character.
fn short_sign(character: u8) -> Option<Token>
    ensures { IfSome result (λ token. IsSign token (character ∷ [])) }
{
    match character {
        b'<' => Some(Token::Operator(Sign::Less)),
        b'>' => Some(Token::Operator(Sign::Greater)),
        b'+' => Some(Token::Operator(Sign::Plus)),
        b'-' => Some(Token::Operator(Sign::Minus)),
        b'*' => Some(Token::Operator(Sign::Times)),
        b'/' => Some(Token::Operator(Sign::Slash)),
        b'%' => Some(Token::Operator(Sign::Percent)),
        b'(' => Some(Token::Open),
        b')' => Some(Token::Close),
        b',' => Some(Token::Comma),
        _ => None,
    }
}

// Digits alone, for a number below 2^64.
#[tactic(auto, using(reactor_program::proofs::Numerals::digits_listed))]
fn magnitude(word: &[u8]) -> Result<u64, ExpressionFault>
    ensures { IfOk result (λ n. IsTrue (list_all is_ascii_digit word.now) × (n ≡ digits_value 10 word.now)) }
{
    if !are_digits(word) {
        return Err(ExpressionFault::NoForm);
    }
    digits_value(word).ok_or(ExpressionFault::BeyondNumber)
}

fn are_digits(text: &[u8]) -> bool
    ensures { result ≡ list_all is_ascii_digit text.now }
{
    text.iter().all(|c| c.is_ascii_digit())
}
