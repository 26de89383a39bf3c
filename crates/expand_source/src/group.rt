//! Groups of items: a table with those inside it.

use crate::fault::{SourceFault, SourceFaultKind, at};
use crate::item::{Item, before};
use loadfed_tables::document;
use std::alloc::{AllocError, Global};
use toml::Table;

/// What a group is.
#[derive(Clone, Copy, Debug, PartialEq, Eq)]
pub enum GroupKind {
    Parameters,
    Class,
    Federate,
    Connection,
    /// What stands before the first header, or behind one of another name.
    Other,
}

/// A header with all that stands behind it, up to the next one of another table.
#[derive(Clone, Copy)]
pub struct Group<'a> {
    pub kind: GroupKind,
    pub items: &'a [Item<'a>],
}

/// The groups of a source.
pub fn groups<'a>(alloc: Global, items: &'a [Item<'a>]) -> Result<Vec<Group<'a>>, AllocError> {
    let mut groups = Vec::new(alloc);
    let mut kind = GroupKind::Other;
    let mut from = 0;
    for (place, item) in items.iter().enumerate() {
        if let Some(header) = item.header() {
            if is_first(kind, header) {
                push(&mut groups, kind, items, from, place)?;
                kind = kind_of(header);
                from = place;
            }
        }
    }
    push(&mut groups, kind, items, from, items.len())?;
    Ok(groups)
}

fn push<'a>(
    groups: &mut Vec<Group<'a>>,
    kind: GroupKind,
    items: &'a [Item<'a>],
    from: usize,
    to: usize,
) -> Result<(), AllocError> {
    if let Some(items) = items.get(from..to) {
        groups.push(Group { kind, items })?;
    }
    Ok(())
}

// Whether a header begins a group, behind one of this kind.
fn is_first(kind: GroupKind, header: &[u8]) -> bool {
    match before(header, b'.') {
        Some(outer) => kind == GroupKind::Other || kind_of(outer) != kind,
        None => true,
    }
}

fn outer_of(header: Option<&[u8]>) -> GroupKind {
    match header {
        Some(header) => match before(header, b'.') {
            Some(outer) => kind_of(outer),
            None => GroupKind::Other,
        },
        None => GroupKind::Other,
    }
}

fn kind_of(header: &[u8]) -> GroupKind {
    match header {
        b"parameter" => GroupKind::Parameters,
        b"class" => GroupKind::Class,
        b"federate" => GroupKind::Federate,
        b"connection" => GroupKind::Connection,
        _ => GroupKind::Other,
    }
}

impl<'a> Group<'a> {
    /// Whether it has a header, as all have but what stands before the first one.
    pub fn has_header(self) -> bool {
        match self.items {
            [first, ..] => first.header().is_some(),
            [] => false,
        }
    }

    /// The line of its header.
    pub fn line(self) -> usize {
        match self.items {
            [first, ..] => first.line(),
            [] => 0,
        }
    }

    /// The line of a key in the table itself; that of the header where it hasn't it.
    pub fn line_of(self, key: &str) -> usize {
        match self.item_of(key) {
            Some(item) => item.line(),
            None => self.line(),
        }
    }

    /// The item of a key in the table itself.
    pub fn item_of(self, key: &str) -> Option<Item<'a>> {
        for (place, item) in self.items.iter().enumerate() {
            if place > 0 && item.header().is_some() {
                return None;
            }
            if item.key() == Some(key.as_bytes()) {
                return Some(*item);
            }
        }
        None
    }

    /// The item of a key below a header of this name.
    pub fn item_below(self, header: &[u8], key: &str) -> Option<Item<'a>> {
        let mut is_below = false;
        for item in self.items {
            match item.header() {
                Some(_) => is_below = item.is_header(header),
                None if is_below && item.key() == Some(key.as_bytes()) => return Some(*item),
                None => {}
            }
        }
        None
    }

    /// Of which kind the table is in which this one stands, where another one stands between the two.
    pub fn outer(self) -> GroupKind {
        match self.items {
            [first, ..] => outer_of(first.header()),
            [] => GroupKind::Other,
        }
    }

    /// Its table, alone in a document.
    pub fn document(self, alloc: Global) -> Result<Table, SourceFault> {
        let bytes = match self.bytes(alloc) {
            Ok(bytes) => bytes,
            Err(_) => return Err(SourceFaultKind::Memory.at(self.line())),
        };
        match document(alloc, bytes.as_slice()) {
            Ok(table) => Ok(table),
            Err(fault) => Err(SourceFaultKind::from(fault).at(self.line())),
        }
    }

    fn bytes(self, alloc: Global) -> Result<Vec<u8>, AllocError> {
        let mut bytes = Vec::new(alloc);
        for item in self.items {
            for token in item.tokens {
                bytes.extend_from_slice(token.text)?;
            }
        }
        Ok(bytes)
    }

    /// The group without the empty lines and comments at its end, and these.
    pub fn parted(self) -> (Group<'a>, Group<'a>) {
        let blank = self
            .items
            .iter()
            .rev()
            .take_while(|item| item.is_blank())
            .count();
        let (items, tail) = self.items.split_at(self.items.len().saturating_sub(blank));
        let kind = self.kind;
        (
            Group { kind, items },
            Group {
                kind: GroupKind::Other,
                items: tail,
            },
        )
    }
}
