//! The words of a line.
ghost use Rattle.std.specs.Prelude.{◌≡◌, ◌<◌, ◌≤◌, ◌∷◌, [], length, MatchOption};
ghost use Rattle.std.specs.List.{prefix_len};
ghost use Rattle.files_script.specs.Words.{is_within_word, words_of};
ghost use Rattle.files_script.specs.WordLists.{listed};

/// The words of a line that has at most four.
#[derive(Clone, Copy)]
pub(crate) enum Words<'a> {
    One(&'a [u8]),
    Two(&'a [u8], &'a [u8]),
    Three(&'a [u8], &'a [u8], &'a [u8]),
    Four(&'a [u8], &'a [u8], &'a [u8], &'a [u8]),
}

/// The words of a line, or None where there are more than four.
pub(crate) fn words_of(line: &[u8]) -> Option<Words<'_>>
    ensures { MatchOption result (4 < length (words_of line.now)) (λ words. words_of line.now ≡ listed words) }
{
    let (first, rest) = next_word(line);
    let Some(rest) = rest else {
        return Some(Words::One(first));
    };
    let (second, rest) = next_word(rest);
    let Some(rest) = rest else {
        return Some(Words::Two(first, second));
    };
    let (third, rest) = next_word(rest);
    let Some(rest) = rest else {
        return Some(Words::Three(first, second, third));
    };
    let (fourth, rest) = next_word(rest);
    match rest {
        Some(_) => None,
        None => Some(Words::Four(first, second, third, fourth)),
    }
}

// The first word of a text, and what follows the space after it: None where there is no space.
fn next_word(text: &[u8]) -> (&[u8], Option<&[u8]>)
    ensures { MatchOption result.1 (words_of text.now ≡ result.0.now ∷ [])
        (λ rest. words_of text.now ≡ result.0.now ∷ words_of rest.now) }
{
    let (word, rest) = text.split_at(word_len(text));
    match rest {
        [_, rest @ ..] => (word, Some(rest)),
        [] => (word, None),
    }
}

// In bytes.
fn word_len(text: &[u8]) -> usize
    ensures value { result ≡ prefix_len is_within_word text.now }
    ensures within { result ≤ length text.now }
{
    text.iter().take_while(|byte| **byte != b' ').count()
}
