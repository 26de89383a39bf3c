//! Items: what stands on a line of TOML by itself, with as many lines as it has. A header, a key with its value, a
//! comment, or an empty line. The mark of a byte order is one too, as it is no part of the first line.

use crate::token::{Token, TokenKind};
use std::alloc::{AllocError, Global};

/// The tokens of an item, the end of its line with them.
#[derive(Clone, Copy)]
pub struct Item<'a> {
    pub tokens: &'a [Token<'a>],
}

/// The items of a text.
pub fn items<'a>(alloc: Global, tokens: &'a [Token<'a>]) -> Result<Vec<Item<'a>>, AllocError> {
    let mut items = Vec::new(alloc);
    let mut depth = 0;
    let mut from = 0;
    for (place, token) in tokens.iter().enumerate() {
        depth = depth_behind(depth, token.kind);
        // A line that ends within brackets goes on.
        if depth == 0 && (token.kind == TokenKind::LineEnd || token.is_mark()) {
            let to = place.saturating_add(1);
            push(&mut items, tokens, from, to)?;
            from = to;
        }
    }
    push(&mut items, tokens, from, tokens.len())?;
    Ok(items)
}

fn push<'a>(
    items: &mut Vec<Item<'a>>,
    tokens: &'a [Token<'a>],
    from: usize,
    to: usize,
) -> Result<(), AllocError> {
    match tokens.get(from..to) {
        Some([]) | None => {}
        Some(tokens) => items.push(Item { tokens })?,
    }
    Ok(())
}

// In how many brackets one stands behind a token.
fn depth_behind(depth: usize, kind: TokenKind) -> usize {
    match kind {
        TokenKind::Open => depth.saturating_add(1),
        TokenKind::Close => depth.saturating_sub(1),
        _ => depth,
    }
}

impl<'a> Item<'a> {
    /// How many bytes it has.
    pub fn len(self) -> usize {
        let mut len = 0usize;
        for token in self.tokens {
            len = len.saturating_add(token.text.len());
        }
        len
    }

    /// The line on which it begins.
    pub fn line(self) -> usize {
        match self.tokens {
            [first, ..] => first.line,
            [] => 0,
        }
    }

    /// Whether it is an empty line or a comment.
    pub fn is_blank(self) -> bool {
        self.tokens.iter().all(|token| match token.kind {
            TokenKind::Comment | TokenKind::LineEnd => true,
            _ => token.text.trim_ascii().is_empty(),
        })
    }

    /// What stands in the brackets of a header.
    pub fn header(self) -> Option<&'a [u8]> {
        let inside = match self.without_space() {
            [open, second, name, ..] if is_open(open) && is_open(second) => name,
            [open, name, ..] if is_open(open) => name,
            _ => return None,
        };
        Some(inside.text.trim_ascii())
    }

    /// Whether it is the header of this table, with spaces around its dot or without.
    pub fn is_header(self, table: &[u8]) -> bool {
        match self.header() {
            Some(header) => is_same_name(header, table),
            None => false,
        }
    }

    /// The key of a value, in quotes or without.
    pub fn key(self) -> Option<&'a [u8]> {
        match self.without_space() {
            [first, ..] if first.kind == TokenKind::Plain => before(first.text, b'='),
            [first, second, ..] if first.kind == TokenKind::Quoted && is_equals(second) => {
                inside_quotes(first.text)
            }
            _ => None,
        }
    }

    /// The first text in quotes behind the key.
    pub fn quoted(self) -> Option<Token<'a>> {
        let value = match self.without_space() {
            [first, rest @ ..] if first.kind == TokenKind::Quoted => rest,
            tokens => tokens,
        };
        for token in value {
            if token.kind == TokenKind::Quoted {
                return Some(*token);
            }
        }
        None
    }

    fn without_space(self) -> &'a [Token<'a>] {
        match self.tokens {
            [first, rest @ ..] if first.text.trim_ascii().is_empty() => rest,
            tokens => tokens,
        }
    }
}

// Whether a header names this table.
fn is_same_name(header: &[u8], table: &[u8]) -> bool {
    header.iter().filter(|c| !c.is_ascii_whitespace()).eq(table)
}

fn is_open(token: &Token<'_>) -> bool {
    token.kind == TokenKind::Open
}

// Whether it begins with the sign between a key and its value.
fn is_equals(token: &Token<'_>) -> bool {
    token.kind == TokenKind::Plain && token.text.trim_ascii().starts_with(b"=")
}

// What stands in quotes, where it is written as it is.
fn inside_quotes(quoted: &[u8]) -> Option<&[u8]> {
    match quoted {
        [b'"', inside @ .., b'"'] if !inside.contains(&b'\\') => Some(inside),
        [b'\'', inside @ .., b'\''] => Some(inside),
        _ => None,
    }
}

/// What stands before a character, without the spaces around it.
pub(crate) fn before(text: &[u8], character: u8) -> Option<&[u8]> {
    let place = text.iter().position(|c| *c == character)?;
    let front = text.get(..place)?;
    Some(front.trim_ascii())
}
