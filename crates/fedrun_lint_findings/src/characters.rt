//! Characters that look like others, or like nothing, and mean nothing outside quotes and comments.

/// A character of a text that isn't what it looks like.
#[derive(Clone, Copy)]
pub struct Lookalike {
    /// Which of the text's characters it is, counted from 1.
    pub place: usize,
    /// What it is, and what to write.
    pub advice: &'static str,
}

/// The first of a text's characters that isn't what it looks like, before any quote, comment or second line.
pub fn lookalike_in(text: &str) -> Option<Lookalike> {
    let mut place = 0usize;
    for letter in text.chars() {
        place = place.saturating_add(1);
        if ends_plain_text(letter) {
            return None;
        }
        if let Some(advice) = advice_on(letter) {
            return Some(Lookalike { place, advice });
        }
    }
    None
}

/// The same of the line in which a place of a text stands, from that place on.
pub(crate) fn lookalike_behind(text: &str, place: usize) -> Option<Lookalike> {
    let found = lookalike_in(text.get(place..).unwrap_or(""))?;
    let before = text.get(..place).unwrap_or("");
    let (_, begun) = before.rsplit_once('\n').unwrap_or(("", before));
    Some(Lookalike {
        place: begun.chars().count().saturating_add(found.place),
        ..found
    })
}

// Whether what follows this letter may have any letters, or is another line. Quotes of print are told of elsewhere.
fn ends_plain_text(letter: char) -> bool {
    matches!(
        letter,
        '"' | '\'' | '#' | '\n' | '\u{2018}' | '\u{2019}' | '\u{201c}' | '\u{201d}' | '\u{201e}'
    )
}

// What a letter is that isn't what it looks like, and what to write.
fn advice_on(letter: char) -> Option<&'static str> {
    match letter {
        '\u{a0}' => Some("U+00A0, a space that doesn't break: write an ordinary one"),
        '\u{202f}' => Some("U+202F, a narrow space that doesn't break: write an ordinary one"),
        '\u{2009}' => Some("U+2009, a thin space: write an ordinary one"),
        '\u{3000}' => Some("U+3000, a wide space: write an ordinary one"),
        '\u{ad}' => Some("U+00AD, a hyphen that isn't shown: leave it out"),
        '\u{200b}' => Some("U+200B, a space without width: leave it out"),
        '\u{feff}' => Some("U+FEFF, the mark of a byte order: leave it out"),
        '\u{2010}' => Some("U+2010, a hyphen of print: write -"),
        '\u{2011}' => Some("U+2011, a hyphen that doesn't break: write -"),
        '\u{2013}' => Some("U+2013, a dash of print: write -"),
        '\u{2014}' => Some("U+2014, a long dash of print: write -"),
        '\u{2212}' => Some("U+2212, a minus of print: write -"),
        '\u{d7}' => Some("U+00D7, a times sign of print: write *"),
        _ => None,
    }
}
