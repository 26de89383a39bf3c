//! The words of a text as it is written: what a body line says, or what in it is a name.
use std::alloc::{AllocError, Global};

/// A word of a text.
#[derive(Clone, Copy)]
pub(crate) struct Word<'a> {
    /// What parts it from the word before it.
    pub(crate) mark: &'a str,
    pub(crate) said: &'a str,
}

/// The words of a text, which spaces and colons part; empty ones where several of these stand together.
pub(crate) fn words_of(alloc: Global, text: &str) -> Result<Vec<Word<'_>>, AllocError> {
    let mut words = Vec::new(alloc);
    let mut mark = 0usize;
    let mut begin = 0usize;
    for (end, byte) in text.as_bytes().iter().enumerate() {
        if *byte == b' ' || *byte == b':' {
            words.push(word_at(text, mark, begin, end))?;
            mark = end;
            begin = end.saturating_add(1);
        }
    }
    words.push(word_at(text, mark, begin, text.len()))?;
    Ok(words)
}

// The word from one place on up to another, behind its mark.
fn word_at(text: &str, mark: usize, begin: usize, end: usize) -> Word<'_> {
    Word {
        mark: text.get(mark..begin).unwrap_or(""),
        said: text.get(begin..end).unwrap_or(""),
    }
}

/// The tokens of a body line: its words without the empty ones, and each colon.
pub(crate) fn tokens_of(alloc: Global, line: &str) -> Result<Vec<&str>, AllocError> {
    let words = words_of(alloc, line)?;
    let mut tokens = Vec::new(alloc);
    for word in words.as_slice() {
        if word.mark == ":" {
            tokens.push(word.mark).map_err(|_| AllocError)?;
        }
        if !word.said.is_empty() {
            tokens.push(word.said).map_err(|_| AllocError)?;
        }
    }
    Ok(tokens)
}

/// What stands behind the number of a duration.
pub(crate) const UNITS: &[&str] = &["ns", "us", "ms", "s"];

/// Whether a word begins with a digit.
pub(crate) fn begins_as_number(word: &str) -> bool {
    match word.as_bytes() {
        [first, ..] => first.is_ascii_digit(),
        [] => false,
    }
}
