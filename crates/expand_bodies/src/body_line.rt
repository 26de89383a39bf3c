//! Body lines, of one operator each: their tokens stand between spaces, and each `:` is a token of its own.
ghost use Rattle.std.specs.Prelude.{◌≡◌, ◌<◌, ◌≤◌, length, IfSome};
ghost use Rattle.std.specs.List.{prefix_len};
ghost use Rattle.reactor_program.specs.Tokens.{is_space, is_word_character};

use crate::names::BodyNames;
use std::alloc::{AllocError, Global};
use tag_text::parse_duration;

/// Whether a text is such a line, and names only what is there.
pub(crate) fn is_body_line(
    alloc: Global,
    names: &BodyNames,
    text: &str,
) -> Result<bool, AllocError> {
    let tokens = tokens(alloc, text.as_bytes())?;
    match tokens.as_slice() {
        [b"when", condition, b":", statement @ ..] => {
            Ok(is_operand(names, condition) && is_statement(alloc, names, statement)?)
        }
        statement => is_statement(alloc, names, statement),
    }
}

fn tokens(alloc: Global, text: &[u8]) -> Result<Vec<&[u8]>, AllocError> {
    let mut tokens = Vec::new(alloc);
    let mut rest = text;
    while let Some((token, after)) = next_token(rest) {
        tokens.push(token)?;
        rest = after;
    }
    Ok(tokens)
}

// The first token, and what follows it.
fn next_token(text: &[u8]) -> Option<(&[u8], &[u8])>
    ensures { IfSome result (λ parts. length parts.1.now < length text.now) }
{
    let (_, text) = text.split_at(spaces_len(text));
    match text {
        [] => None,
        [b':', ..] => Some(text.split_at(1)),
        [_, rest @ ..] => Some(text.split_at(1 + word_len(rest))),
    }
}

fn spaces_len(text: &[u8]) -> usize
    ensures value { result ≡ prefix_len is_space text.now }
    ensures within { result ≤ length text.now }
{
    text.iter().take_while(|c| **c == b' ').count()
}

fn word_len(text: &[u8]) -> usize
    ensures value { result ≡ prefix_len is_word_character text.now }
    ensures within { result ≤ length text.now }
{
    text.iter()
        .take_while(|c| **c != b' ' && **c != b':')
        .count()
}

fn is_statement(alloc: Global, names: &BodyNames, tokens: &[&[u8]]) -> Result<bool, AllocError> {
    match tokens {
        [b"schedule", action, duration, value] => {
            is_schedule(alloc, names, action, duration, b"", value)
        }
        [b"schedule", action, number, unit, value] => {
            is_schedule(alloc, names, action, number, unit, value)
        }
        [target, b"=", value] => Ok(is_target(names, target) && is_operand(names, value)),
        [target, b"=", left, operator, right] => {
            Ok(is_state(names, target) && is_operation(names, left, operator, right))
        }
        _ => Ok(false),
    }
}

// What is scheduled is an action, after a duration in one token or in two.
fn is_schedule(
    alloc: Global,
    names: &BodyNames,
    action: &[u8],
    number: &[u8],
    unit: &[u8],
    value: &[u8],
) -> Result<bool, AllocError> {
    Ok(
        names.actions.place_of(action).is_some()
            && is_duration(alloc, number, unit)?
            && is_operand(names, value),
    )
}

fn is_target(names: &BodyNames, token: &[u8]) -> bool {
    is_state(names, token) || is_output(names, token)
}

fn is_operation(names: &BodyNames, left: &[u8], operator: &[u8], right: &[u8]) -> bool {
    is_operand(names, left) && is_operator(operator) && is_operand(names, right)
}

fn is_state(names: &BodyNames, token: &[u8]) -> bool {
    names.states.place_of(token).is_some()
}

fn is_output(names: &BodyNames, token: &[u8]) -> bool {
    match token {
        [b'o', b'u', b't', b'.', port @ ..] => names.outputs.place_of(port).is_some(),
        _ => false,
    }
}

fn is_operand(names: &BodyNames, token: &[u8]) -> bool {
    match token {
        [b'i', b'n', b'.', slot @ ..] | [b'h', b'a', b's', b'.', slot @ ..] => {
            names.readable.place_of(slot).is_some()
        }
        _ => is_state(names, token) || is_number(token),
    }
}

fn is_operator(token: &[u8]) -> bool {
    match token {
        b"+" | b"-" | b"*" | b"min" | b"max" | b"<" | b"==" => true,
        _ => false,
    }
}

// A number that isn't of 64 bits is told by the expression that it then is.
fn is_number(token: &[u8]) -> bool {
    match std::str::from_utf8(token) {
        Ok(text) => !token.starts_with(b"+") && text.parse::<i64>().is_ok(),
        Err(_) => false,
    }
}

// A duration in one token or in two.
fn is_duration(alloc: Global, number: &[u8], unit: &[u8]) -> Result<bool, AllocError> {
    let mut text = Vec::new(alloc);
    text.extend_from_slice(number)?;
    if !unit.is_empty() {
        text.push(b' ')?;
        text.extend_from_slice(unit)?;
    }
    match std::str::from_utf8(text.as_slice()) {
        Ok(text) => Ok(parse_duration(text).is_ok()),
        Err(_) => Ok(false),
    }
}
