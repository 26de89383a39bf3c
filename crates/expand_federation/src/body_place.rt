//! Where bodies stand.

use expand_source::group::Group;
use expand_source::item::Item;
use expand_source::token::{Token, TokenKind};
use std::alloc::{AllocError, Global};

/// What stands between the brackets of a body's list. Places count bytes of the text.
#[derive(Clone, Copy)]
pub(crate) struct BodyPlace<'a> {
    pub from: usize,
    pub to: usize,
    tokens: &'a [Token<'a>],
}

/// The places of all bodies of a group, before which this many bytes stand.
pub(crate) fn body_places<'a>(
    alloc: Global,
    group: Group<'a>,
    before: usize,
) -> Result<Vec<BodyPlace<'a>>, AllocError> {
    let mut places = Vec::new(alloc);
    let mut at = before;
    for item in group.items {
        add_places(&mut places, *item, at)?;
        at = at.saturating_add(item.len());
    }
    Ok(places)
}

// Adds the places of the bodies in an item: of one that it is, or of those in a list of reactions.
fn add_places<'a>(
    places: &mut Vec<BodyPlace<'a>>,
    item: Item<'a>,
    before: usize,
) -> Result<(), AllocError> {
    let mut at = before;
    let mut is_body = false;
    let mut begun = None;
    for (index, token) in item.tokens.iter().enumerate() {
        let behind = at.saturating_add(token.text.len());
        if is_body && token.kind == TokenKind::Open {
            begun = Some((index.saturating_add(1), behind));
        } else if token.kind == TokenKind::Close {
            if let Some((first, from)) = begun {
                let tokens = item.tokens.get(first..index).unwrap_or(&[]);
                places.push(BodyPlace {
                    from,
                    to: at,
                    tokens,
                })?;
            }
            begun = None;
        }
        is_body = is_body_key(*token);
        at = behind;
    }
    Ok(())
}

// Whether a token ends with `body =`.
fn is_body_key(token: Token<'_>) -> bool {
    let Some(key) = token.text.trim_ascii().strip_suffix(b"=") else {
        return false;
    };
    match key.trim_ascii().strip_suffix(b"body") {
        Some(before) => matches!(before.trim_ascii(), [] | [.., b',']),
        None => false,
    }
}

impl BodyPlace<'_> {
    /// The line of the text on which a line of the body stands; 0 where it has no such line.
    pub fn line_of(&self, number: usize) -> usize {
        let mut left = number;
        for token in self.tokens {
            if token.kind == TokenKind::Quoted {
                left = left.saturating_sub(1);
                if left == 0 {
                    return token.line;
                }
            }
        }
        0
    }
}
