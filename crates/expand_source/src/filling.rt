//! Texts with expressions in braces.
ghost use Rattle.std.specs.Prelude.{◌≡◌, ◌≤◌, length, IfOk, OnOk, MatchOption};
ghost use Rattle.std.specs.List.{prefix_len};
ghost use Rattle.expand_source.specs.Expansion.{is_plain, IsPlain, is_alone, IsNextHole, IsNumber, IsFilled};
ghost use Rattle.expand_source.specs.Expansion.{IsQuotedFilled, IsTokenFilled, AreFilled};
ghost use Rattle.expand_source.specs.Filling.{IsPlainFront, Appends};

use crate::fault::{SourceFault, SourceFaultKind};
use crate::numbers::number;
use crate::token::{Token, TokenKind};
use expand_expressions::NamedOperand;
use expand_expressions::words::after;
use std::alloc::{AllocError, Global};

/// How many braces one text may have.
pub const MOST_HOLES: usize = 256;

/// Adds a template, filled, to a text.
#[tactic(auto, using(crate::proofs::Braces::none_filled, crate::proofs::Braces::all_filled))]
pub fn fill(
    alloc: Global,
    names: &[NamedOperand],
    template: &[Token<'_>],
    text: &mut Vec<u8>,
) -> Result<(), SourceFault>
    ensures { OnOk result (Appends text.old.items text.new.items (AreFilled names.now template.now)) }
{
    for token in template {
        fill_placed(alloc, names, token, text)?;
    }
    Ok(())
}

// Adds a token, filled. Where it can't be, the fault has its line.
fn fill_placed(
    alloc: Global,
    names: &[NamedOperand],
    token: &Token<'_>,
    text: &mut Vec<u8>,
) -> Result<(), SourceFault>
    ensures { OnOk result
        (Appends text.old.items text.new.items (IsTokenFilled names.now token.now.kind token.now.text.now)) }
{
    match fill_token(alloc, names, token, text) {
        Ok(()) => Ok(()),
        Err(kind) => Err(kind.at(token.line)),
    }
}

fn fill_token(
    alloc: Global,
    names: &[NamedOperand],
    token: &Token<'_>,
    text: &mut Vec<u8>,
) -> Result<(), SourceFaultKind>
    ensures { OnOk result
        (Appends text.old.items text.new.items (IsTokenFilled names.now token.now.kind token.now.text.now)) }
{
    match token.kind {
        TokenKind::Quoted => fill_quoted(alloc, names, token.text, text)?,
        _ => text.extend_from_slice(token.text)?,
    }
    Ok(())
}

// Adds a text in quotes, filled, or the number that it is.
#[tactic(auto, using(crate::proofs::Braces::quoted_as_it_is, crate::proofs::Braces::quoted_number, crate::proofs::Braces::quoted_filled))]
fn fill_quoted(
    alloc: Global,
    names: &[NamedOperand],
    quoted: &[u8],
    text: &mut Vec<u8>,
) -> Result<(), SourceFaultKind>
    ensures { OnOk result (Appends text.old.items text.new.items (IsQuotedFilled names.now quoted.now)) }
{
    match next_hole(quoted)? {
        None => {
            text.extend_from_slice(quoted)?;
            Ok(())
        }
        Some(hole) => {
            if hole.is_alone() {
                fill_number(alloc, names, hole.expression, text)
            } else {
                fill_text(alloc, names, quoted, MOST_HOLES, text)
            }
        }
    }
}

// Adds the digits of an expression's value.
fn fill_number(
    alloc: Global,
    names: &[NamedOperand],
    expression: &[u8],
    text: &mut Vec<u8>,
) -> Result<(), SourceFaultKind>
    ensures { OnOk result (Appends text.old.items text.new.items
        (IsNumber names.now expression.now)) }
{
    let number = number(alloc, names, expression)?;
    let digits = format!(in alloc; "{number}")?;
    text.extend_from_slice(digits.as_bytes())?;
    Ok(())
}

/// What stands in front of the first brace, what is in braces there, and what follows.
#[derive(Clone, Copy)]
pub struct Hole<'a> {
    pub front: &'a [u8],
    pub expression: &'a [u8],
    pub rest: &'a [u8],
}

impl Hole<'_> {
    // Whether nothing but a quote stands on either side.
    fn is_alone(self) -> bool
        ensures { result ≡ is_alone self.entry.front.now self.entry.rest.now }
    {
        self.front.len() == 1 && self.rest.len() == 1
    }
}

/// Adds a text with its braces filled, of which there are no more than so many.
#[tactic(auto, using(crate::proofs::Braces::hole_filled, crate::proofs::Braces::filled_as_it_is))]
pub fn fill_text(
    alloc: Global,
    names: &[NamedOperand],
    template: &[u8],
    most: usize,
    text: &mut Vec<u8>,
) -> Result<(), SourceFaultKind>
    ensures { OnOk result (Appends text.old.items text.new.items (IsFilled names.now template.now)) }
{
    match next_hole(template)? {
        None => {
            text.extend_from_slice(template)?;
            Ok(())
        }
        Some(hole) => {
            let Some(fewer) = most.checked_sub(1) else {
                return Err(SourceFaultKind::OverLimit);
            };
            text.extend_from_slice(hole.front)?;
            fill_number(alloc, names, hole.expression, text)?;
            fill_text(alloc, names, hole.rest, fewer, text)
        }
    }
}

/// The first braces of a text, if it has any.
#[tactic(auto, using(crate::proofs::Braces::next_hole_is, crate::proofs::Braces::no_hole))]
pub fn next_hole(text: &[u8]) -> Result<Option<Hole<'_>>, SourceFaultKind>
    ensures { IfOk result (λ hole. MatchOption hole (IsPlain text.now)
        (λ hole. IsNextHole text.now hole.front.now hole.expression.now hole.rest.now)) }
{
    let (front, behind) = plain_front(text);
    if behind.is_empty() {
        return Ok(None);
    }
    let Some(inside) = after(b"{", behind) else {
        return Err(SourceFaultKind::BadBrace);
    };
    let (expression, closing) = plain_front(inside);
    let Some(rest) = after(b"}", closing) else {
        return Err(SourceFaultKind::BadBrace);
    };
    Ok(Some(Hole {
        front,
        expression,
        rest,
    }))
}

// What stands in front of the first brace, and the rest.
fn plain_front(text: &[u8]) -> (&[u8], &[u8])
    ensures { IsPlainFront text.now result.0.now result.1.now }
{
    text.split_at(plain_len(text))
}

fn plain_len(text: &[u8]) -> usize
    ensures value { result ≡ prefix_len is_plain text.now }
    ensures within { result ≤ length text.now }
{
    text.iter()
        .take_while(|c| **c != b'{' && **c != b'}')
        .count()
}
