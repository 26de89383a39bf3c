//! What of a group stands in each copy.

use crate::fault::SourceFaultKind;
use crate::group::Group;
use crate::item::Item;
use crate::token::{Token, TokenKind};
use std::alloc::{AllocError, Global};

/// All of a group but the parameters of a source.
pub(crate) fn plain<'a>(
    alloc: Global,
    group: Group<'a>,
) -> Result<Vec<Token<'a>>, SourceFaultKind> {
    let mut template = Vec::new(alloc);
    if group.has_header() {
        add_items(&mut template, group, &[])?;
    } else {
        add_items(&mut template, group, &["parameter"])?;
    }
    Ok(template)
}

/// All of a group but these keys of its own, with an empty line behind it.
pub(crate) fn without<'a>(
    alloc: Global,
    group: Group<'a>,
    keys: &[&str],
) -> Result<Vec<Token<'a>>, SourceFaultKind> {
    let mut template = Vec::new(alloc);
    add_items(&mut template, group, keys)?;
    closed(template)
}

fn add_items<'a>(
    template: &mut Vec<Token<'a>>,
    group: Group<'a>,
    keys: &[&str],
) -> Result<(), AllocError> {
    let mut is_own = true;
    for (place, item) in group.items.iter().enumerate() {
        if place > 0 && item.header().is_some() {
            is_own = false;
        }
        if !(is_own && has_key(*item, keys)) {
            push_all(template, item.tokens)?;
        }
    }
    Ok(())
}

fn has_key(item: Item<'_>, keys: &[&str]) -> bool {
    match item.key() {
        Some(key) => keys.iter().any(|known| known.as_bytes() == key),
        None => false,
    }
}

/// What stands in a federate of a class, behind its name.
pub(crate) fn class_template<'a>(
    alloc: Global,
    group: Group<'a>,
) -> Result<Vec<Token<'a>>, SourceFaultKind> {
    let mut template = Vec::new(alloc);
    let mut is_own = true;
    let mut is_parameter = false;
    for (place, item) in group.items.iter().enumerate() {
        match item.header() {
            // The header of the class is that of each federate.
            Some(_) if place == 0 => continue,
            Some(_) => {
                is_own = false;
                is_parameter = item.is_header(b"class.parameter");
                if !is_parameter {
                    push_header(&mut template, *item)?;
                }
            }
            None => {
                if !is_parameter && !(is_own && has_key(*item, &["name", "parameter"])) {
                    push_all(&mut template, item.tokens)?;
                }
            }
        }
    }
    Ok(template)
}

// A header within a class, which in a federate stands within that.
fn push_header<'a>(template: &mut Vec<Token<'a>>, item: Item<'a>) -> Result<(), AllocError> {
    for token in item.tokens {
        match token.text.trim_ascii().strip_prefix(b"class") {
            Some(rest) if token.kind == TokenKind::Plain => {
                template.push(Token {
                    text: b"federate",
                    ..*token
                })?;
                template.push(Token {
                    text: rest,
                    ..*token
                })?;
            }
            _ => template.push(*token)?,
        }
    }
    Ok(())
}

pub(crate) fn push_all<'a>(
    template: &mut Vec<Token<'a>>,
    tokens: &[Token<'a>],
) -> Result<(), AllocError> {
    template.extend_from_slice(tokens)
}

/// A template that ends with an empty line, so that copies stand apart.
pub(crate) fn closed(mut template: Vec<Token<'_>>) -> Result<Vec<Token<'_>>, SourceFaultKind> {
    let (line, is_whole) = match template.as_slice() {
        [.., last] => (last.line, last.kind == TokenKind::LineEnd),
        [] => (0, true),
    };
    let end = Token {
        kind: TokenKind::LineEnd,
        line,
        text: b"\n",
    };
    if !is_whole {
        template.push(end)?;
    }
    template.push(end)?;
    Ok(template)
}
