//! The tokens of a text. What they are is seen by what is made of them; here is what isn't: that the mark of a byte order
//! is one by itself at a text's beginning alone.
use expand_source::token::tokens;
use std::alloc::Global;

/// Texts, and their tokens.
const TOKENS: &[(&str, &[&str])] = &[
    ("\u{feff}a = 1\n", &["\u{feff}", "a = 1", "\n"]),
    (
        "a = 1\n\u{feff}b = 2\n",
        &["a = 1", "\n", "\u{feff}b = 2", "\n"],
    ),
    ("\u{feff}", &["\u{feff}"]),
    ("", &[]),
];

fn has_tokens(alloc: Global, text: &str, wanted: &[&str]) -> bool {
    let Ok(tokens) = tokens(alloc, text.as_bytes()) else {
        return false;
    };
    let mut is_right = tokens.len() == wanted.len();
    for (token, wanted) in tokens.iter().zip(wanted) {
        is_right = is_right && token.text == wanted.as_bytes();
    }
    is_right
}

#[test]
fn a_mark_is_a_token_at_the_beginning_alone(rt: HostRuntime) {
    for (text, wanted) in TOKENS {
        assert!(rt; has_tokens(rt.alloc(), text, wanted), "{text:?}");
    }
}
