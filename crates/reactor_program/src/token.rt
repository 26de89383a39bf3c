ghost use Rattle.std.specs.Prelude.{◌≡◌, ◌≢◌, ℕ, List, ◌∷◌, [], ◌≤◌, length, MatchOption, IfSome};
ghost use Rattle.std.specs.List.{prefix_len};
ghost use Rattle.reactor_program.specs.Tokens.{is_space, is_word_character, tokens_of};
ghost use Rattle.reactor_program.specs.Reading.{IsFirstToken, AreFirstTokens};

/// The first token of a text, and what follows it.
pub(crate) fn next_token(text: &[u8]) -> Option<(&[u8], &[u8])>
    ensures tokens { MatchOption result (tokens_of text.now ≡ [])
        (λ parts. tokens_of text.now ≡ parts.0.now ∷ tokens_of parts.1.now) }
    ensures place { IfSome result (λ parts. IsFirstToken text.now parts.0.now parts.1.now) }
{
    let (_, text) = text.split_at(spaces_len(text));
    match text {
        [] => None,
        [b':', ..] => Some(text.split_at(1)),
        _ => Some(text.split_at(word_len(text))),
    }
}

/// The token of a text that has one alone.
pub(crate) fn only_token(text: &[u8]) -> Option<&[u8]>
    ensures { MatchOption result ((token : List ℕ) → tokens_of text.now ≢ token ∷ [])
        (λ token. tokens_of text.now ≡ token.now ∷ []) }
{
    match next_token(text) {
        Some((token, rest)) => match next_token(rest) {
            None => Some(token),
            Some(_) => None,
        },
        None => None,
    }
}

/// The first two tokens of a text, as they stand there with the spaces between them, and what follows them.
pub(crate) fn two_tokens(text: &[u8]) -> Option<(&[u8], &[u8])>
    ensures { MatchOption result ((first second : List ℕ) (rest : List (List ℕ))
        → tokens_of text.now ≢ first ∷ second ∷ rest) (λ parts. AreFirstTokens text.now parts.0.now parts.1.now) }
{
    let (_, text) = text.split_at(spaces_len(text));
    let (_, rest) = next_token(text)?;
    let (_, rest) = next_token(rest)?;
    Some(text.split_at(text.len() - rest.len()))
}

fn spaces_len(text: &[u8]) -> usize
    ensures value { result ≡ prefix_len is_space text.now }
    ensures within { result ≤ length text.now }
{
    text.iter().take_while(|c| **c == b' ').count()
}

fn word_len(text: &[u8]) -> usize
    ensures value { result ≡ prefix_len is_word_character text.now }
    ensures within { result ≤ length text.now }
{
    text.iter()
        .take_while(|c| **c != b' ' && **c != b':')
        .count()
}
