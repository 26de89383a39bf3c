//! A text of TOML, cut into what its quotes, brackets and comments part.
ghost use Rattle.std.specs.Prelude.{◌≤◌, length};

use std::alloc::{AllocError, Global};

/// The mark of a byte order in UTF-8, with which a text may begin. It is a token by itself.
const MARK: &[u8] = &[0xEF, 0xBB, 0xBF];

/// What a token is.
#[derive(Clone, Copy, Debug, PartialEq, Eq)]
pub enum TokenKind {
    /// With its quotes.
    Quoted,
    /// From its `#` to the end of the line.
    Comment,
    /// The end of a line.
    LineEnd,
    /// A bracket or brace.
    Open,
    Close,
    /// Anything between these.
    Plain,
}

/// A piece of a text, and its line there.
#[derive(Clone, Copy)]
pub struct Token<'a> {
    pub kind: TokenKind,
    pub line: usize,
    pub text: &'a [u8],
}

impl Token<'_> {
    /// Whether it is the mark of a byte order.
    pub fn is_mark(self) -> bool {
        self.text == MARK
    }
}

/// All tokens of a text.
pub fn tokens(alloc: Global, text: &[u8]) -> Result<Vec<Token<'_>>, AllocError> {
    let mut tokens = Vec::new(alloc);
    let mut line = 1usize;
    let mut rest = text;
    if let Some(behind) = text.strip_prefix(MARK) {
        tokens.push(Token {
            kind: TokenKind::Plain,
            line,
            text: MARK,
        })?;
        rest = behind;
    }
    for _ in 0..text.len() {
        let Some(kind) = kind_of(rest) else {
            break;
        };
        let (text, behind) = rest.split_at(token_len(kind, rest));
        tokens.push(Token { kind, line, text })?;
        line = line.saturating_add(line_ends(text));
        rest = behind;
    }
    Ok(tokens)
}

// What stands in front.
fn kind_of(text: &[u8]) -> Option<TokenKind> {
    match text {
        [b'"' | b'\'', ..] => Some(TokenKind::Quoted),
        [b'#', ..] => Some(TokenKind::Comment),
        [b'\n', ..] => Some(TokenKind::LineEnd),
        [b'[' | b'{', ..] => Some(TokenKind::Open),
        [b']' | b'}', ..] => Some(TokenKind::Close),
        [_, ..] => Some(TokenKind::Plain),
        [] => None,
    }
}

// How long the token in front is.
fn token_len(kind: TokenKind, text: &[u8]) -> usize
    ensures { result ≤ length text.now }
{
    let len = match kind {
        TokenKind::Quoted => quoted_len(text),
        TokenKind::Comment => line_len(text),
        TokenKind::LineEnd | TokenKind::Open | TokenKind::Close => 1,
        TokenKind::Plain => plain_len(text),
    };
    len.min(text.len())
}

fn line_len(text: &[u8]) -> usize {
    text.iter().take_while(|c| **c != b'\n').count()
}

fn plain_len(text: &[u8]) -> usize {
    text.iter()
        .take_while(|c| !matches!(**c, b'"' | b'\'' | b'#' | b'\n' | b'[' | b'{' | b']' | b'}'))
        .count()
}

// A text in quotes, of which there are three on each side where it may have several lines.
fn quoted_len(text: &[u8]) -> usize {
    let quotes = quotes_of(text);
    let mut is_escaped = false;
    for place in quotes.len()..text.len() {
        let rest = text.get(place..).unwrap_or(&[]);
        if is_escaped {
            is_escaped = false;
        } else if rest.starts_with(b"\\") && quotes.starts_with(b"\"") {
            is_escaped = true;
        } else if rest.starts_with(quotes) {
            return place.saturating_add(quotes.len());
        }
    }
    text.len()
}

fn quotes_of(text: &[u8]) -> &[u8] {
    match text {
        [b'"', b'"', b'"', ..] => b"\"\"\"",
        [b'\'', b'\'', b'\'', ..] => b"'''",
        [b'"', ..] => b"\"",
        _ => b"'",
    }
}

/// How many lines end in a text.
pub fn line_ends(text: &[u8]) -> usize {
    text.iter().filter(|c| **c == b'\n').count()
}
