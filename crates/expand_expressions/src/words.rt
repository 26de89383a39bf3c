//! What stands in front of a text.
ghost use Rattle.std.specs.Prelude.{◌≡◌, ◌≢◌, ◌+◌, ◌≤◌, ◌++◌, ℕ, List, length, MatchOption};
ghost use Rattle.std.specs.List.{prefix_len};
ghost use Rattle.reactor_program.specs.Tokens.{is_space};
ghost use Rattle.expand_expressions.specs.Words.{is_word_character, IsWordInFront, IsBehindSpaces};

/// What follows this front of a text.
pub fn after<'a>(front: &[u8], text: &'a [u8]) -> Option<&'a [u8]>
    ensures { MatchOption result ((rest : List ℕ) → text.now ≢ front.now ++ rest)
        (λ rest. text.now ≡ front.now ++ rest.now) }
{
    text.strip_prefix(front)
}

/// What follows the spaces in front.
pub fn after_spaces(text: &[u8]) -> &[u8]
    ensures spaces { IsBehindSpaces text.now result.now }
    ensures within { length result.now ≤ length text.now }
{
    let (_, rest) = text.split_at(spaces_len(text));
    rest
}

/// The word that stands in front, which may be empty, and what follows it.
pub fn front_word(text: &[u8]) -> (&[u8], &[u8])
    ensures parts { IsWordInFront text.now result.0.now result.1.now }
    ensures lengths { length text.now ≡ length result.0.now + length result.1.now }
{
    text.split_at(word_len(text))
}

fn spaces_len(text: &[u8]) -> usize
    ensures value { result ≡ prefix_len is_space text.now }
    ensures within { result ≤ length text.now }
{
    text.iter().take_while(|c| **c == b' ').count()
}

fn word_len(text: &[u8]) -> usize
    ensures value { result ≡ prefix_len is_word_character text.now }
    ensures within { result ≤ length text.now }
{
    text.iter()
        .take_while(|c| c.is_ascii_alphanumeric() || **c == b'_' || **c == b'.')
        .count()
}
