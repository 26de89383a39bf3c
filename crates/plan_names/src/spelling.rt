ghost use Rattle.std.specs.Prelude.{◌≡◌};
ghost use Rattle.std.specs.List.{list_any, list_all};
ghost use Rattle.std.specs.Str.{bytes_eq};
ghost use Rattle.plan_names.specs.Spelling.{is_name_start, is_name_character, is_name, is_reserved, form_words};
ghost use Rattle.plan_names.specs.Spelling.{place_words};

/// The most characters of a name, which are bytes.
pub const LONGEST_NAME: usize = 32;

/// Whether the text is a name: 1 to `LONGEST_NAME` letters, digits and `_`, of which the first is no digit, and no
/// reserved word.
pub fn is_name(text: &[u8]) -> bool
    ensures { result ≡ is_name text.now }
{
    match text {
        [first, rest @ ..] => {
            is_name_start(*first)
                && are_name_characters(rest)
                && rest.len() < LONGEST_NAME
                && !is_reserved(text)
        }
        [] => false,
    }
}

fn is_name_start(character: u8) -> bool
    ensures { result ≡ is_name_start character }
{
    character.is_ascii_alphabetic() || character == b'_'
}

fn are_name_characters(text: &[u8]) -> bool
    ensures { result ≡ list_all is_name_character text.now }
{
    text.iter().all(|c| is_name_start(*c) || c.is_ascii_digit())
}

fn is_reserved(text: &[u8]) -> bool
    ensures { result ≡ is_reserved text.now }
{
    is_form_word(text) || is_place_word(text)
}

fn is_form_word(text: &[u8]) -> bool
    ensures { result ≡ list_any (bytes_eq text.now) form_words }
{
    text == b"when".as_slice()
        || text == b"schedule".as_slice()
        || text == b"min".as_slice()
        || text == b"max".as_slice()
}

fn is_place_word(text: &[u8]) -> bool
    ensures { result ≡ list_any (bytes_eq text.now) place_words }
{
    text == b"in".as_slice()
        || text == b"out".as_slice()
        || text == b"has".as_slice()
        || text == b"startup".as_slice()
}
