//! Values of a document written again, on which headers and comments leave no trace: each table is written inline.
use crate::draft::Draft;
use crate::tree::{Shape, Tree};

/// A text in the place of the one at a node, as it stands between quotes.
#[derive(Clone, Copy)]
pub(crate) struct OtherText<'t> {
    pub(crate) place: usize,
    pub(crate) text: &'t [u8],
}

/// Adds the value of a node.
pub(crate) fn push_value(tree: &Tree<'_>, top: usize, out: &mut Draft) {
    push_changed(tree, top, None, out);
}

/// The same, with another text at one of the nodes in it.
pub(crate) fn push_changed(
    tree: &Tree<'_>,
    top: usize,
    other: Option<OtherText<'_>>,
    out: &mut Draft,
) {
    let mut at = top;
    let mut is_open = true;
    // Each node is come to twice: from the one before it, and behind those in it.
    for _ in 0..tree.len().saturating_mul(2) {
        let node = tree.node(at);
        if is_open {
            push_begin(tree, at, other, out);
            is_open = node.first != 0;
            if is_open {
                at = node.first;
                push_key(tree, at, out);
            }
        } else {
            push_closing(node.shape, out);
            if at == top {
                break;
            }
            out.push(",");
            is_open = node.next != 0;
            if is_open {
                at = node.next;
                push_key(tree, at, out);
            } else {
                at = node.holder;
            }
        }
    }
}

// Adds how the value of a node begins, or the other text where that is in its place.
fn push_begin(tree: &Tree<'_>, place: usize, other: Option<OtherText<'_>>, out: &mut Draft) {
    match other {
        Some(other) if other.place == place => {
            out.push("\"");
            out.add(other.text);
            out.push("\"");
        }
        _ => push_opening(tree, place, out),
    }
}

// Adds a scalar, or how a value of this shape begins.
fn push_opening(tree: &Tree<'_>, place: usize, out: &mut Draft) {
    match tree.node(place).shape {
        Shape::Scalar => out.push(tree.scalar(place)),
        Shape::Array => out.push("["),
        Shape::Table => out.push("{"),
    }
}

// Adds how a value of this shape ends.
fn push_closing(shape: Shape, out: &mut Draft) {
    match shape {
        Shape::Scalar => {}
        Shape::Array => out.push("]"),
        Shape::Table => out.push("}"),
    }
}

/// Adds the key of a node and an equals sign, if it stands in a table.
pub(crate) fn push_key(tree: &Tree<'_>, place: usize, out: &mut Draft) {
    if tree.is_table(tree.node(place).holder) {
        out.push("\"");
        for byte in tree.key(place).as_bytes() {
            push_escaped(*byte, out);
        }
        out.push("\" = ");
    }
}

// Adds a byte of a text between quotes.
fn push_escaped(byte: u8, out: &mut Draft) {
    const DIGITS: &[u8; 16] = b"0123456789abcdef";
    if byte == b'"' || byte == b'\\' {
        out.push("\\");
    }
    if byte < 32 || byte == 127 {
        out.push("\\u00");
        let high = DIGITS[(byte / 16) as usize % 16];
        let low = DIGITS[(byte % 16) as usize];
        out.add(&[high, low]);
    } else {
        out.add(&[byte]);
    }
}
