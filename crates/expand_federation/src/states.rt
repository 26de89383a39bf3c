//! Where scratch states are declared.

use crate::change::Joint;
use expand_source::group::Group;
use expand_source::item::Item;
use expand_source::token::{Token, TokenKind};

/// Where scratch states are added. Places count bytes of the text.
#[derive(Clone, Copy)]
pub(crate) enum StatesPlace {
    /// At this place, so joined to what stands before it.
    At(usize, Joint),
    /// The states are tables of their own, the first at this line: they have no list.
    Tables(usize),
}

/// Where the scratch states of a federate are added, before whose group this many bytes stand.
pub(crate) fn states_place(group: Group<'_>, before: usize) -> StatesPlace {
    let mut at = before;
    let mut behind_header = before;
    for (place, item) in group.items.iter().enumerate() {
        if place == 0 {
            behind_header = at.saturating_add(item.len());
        } else if item.is_header(b"federate.state") {
            return StatesPlace::Tables(item.line());
        } else if item.key() == Some(b"state".as_slice()) {
            return place_in_list(*item, at);
        }
        at = at.saturating_add(item.len());
    }
    StatesPlace::At(behind_header, Joint::NoList)
}

// Where states are added to a list, before whose item this many bytes stand: behind the last thing in it.
fn place_in_list(item: Item<'_>, before: usize) -> StatesPlace {
    let mut at = before;
    let mut last = (before, Joint::NoList);
    let mut found = last;
    for token in item.tokens {
        if token.kind == TokenKind::Close {
            found = last;
        }
        if let Some(joint) = joint_behind(*token) {
            last = (at.saturating_add(token.text.trim_ascii_end().len()), joint);
        }
        at = at.saturating_add(token.text.len());
    }
    let (place, joint) = found;
    StatesPlace::At(place, joint)
}

// How states join a token; nothing joins spaces, comments and ends of lines.
fn joint_behind(token: Token<'_>) -> Option<Joint> {
    match token.kind {
        TokenKind::Comment | TokenKind::LineEnd => None,
        TokenKind::Open => Some(Joint::First),
        TokenKind::Close | TokenKind::Quoted => Some(Joint::BehindState),
        TokenKind::Plain => match token.text.trim_ascii() {
            [] => None,
            [.., b','] => Some(Joint::BehindComma),
            _ => Some(Joint::BehindState),
        },
    }
}
