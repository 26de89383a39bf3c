//! A document read once more, by the tokens of its reader, for the places at which its values stand.
use crate::tree::{DOCUMENT, Node, Shape, Tree};
use std::alloc::{AllocError, Global};
use toml_parser::text::{byte_at, first, skip_blank, skip_ws};
use toml_parser::{Key, ParseError, dotted_key, quoted, starts_string, unquoted};

/// Where the values of a file stand; of a file that isn't UTF-8 nothing is known.
pub(crate) fn tree_of(alloc: Global, bytes: &[u8]) -> Result<Tree<'_>, AllocError> {
    read_tree(alloc, std::str::from_utf8(bytes).unwrap_or(""))
}

/// The line of the array in which the beginning of a document ends, where that begins before this line; none where it
/// ends in no such array.
pub(crate) fn open_array(
    alloc: Global,
    bytes: &[u8],
    line: usize,
) -> Result<Option<usize>, AllocError> {
    let (tree, end) = read_on(alloc, std::str::from_utf8(bytes).unwrap_or(""))?;
    let mut at = end;
    for _ in 0..tree.len() {
        let node = tree.node(at);
        if node.line < line {
            return Ok(if tree.is_array(at) {
                Some(node.line)
            } else {
                None
            });
        }
        at = node.back;
    }
    Ok(None)
}

// Where the values of a document stand.
fn read_tree(alloc: Global, text: &str) -> Result<Tree<'_>, AllocError> {
    let (tree, _end) = read_on(alloc, text)?;
    Ok(tree)
}

// The same, and the node in which reading ended.
fn read_on(alloc: Global, text: &str) -> Result<(Tree<'_>, usize), AllocError> {
    let mut tree = Tree::new(alloc, text);
    let mut at = Tree::ROOT;
    let mut rest = skip_blank(without_mark(text), true);
    for _ in 0..text.len() {
        match tree.step(at, rest) {
            Some((next, behind)) => {
                at = next;
                rest = skip_blank(behind, true);
            }
            None => break,
        }
    }
    if tree.is_lost {
        Err(AllocError)
    } else {
        Ok((tree, at))
    }
}

// A text without the mark of its byte order.
fn without_mark(text: &str) -> &str {
    if first(text) == 0xEF && byte_at(text, 1) == 0xBB && byte_at(text, 2) == 0xBF {
        text.get(3..).unwrap_or(text)
    } else {
        text
    }
}

// What follows the first byte, which is ASCII.
fn behind(s: &str) -> &str {
    s.get(1..).unwrap_or("")
}

// What follows a scalar.
fn behind_scalar(alloc: Global, s: &str) -> Result<&str, ParseError> {
    if starts_string(s) {
        let (_text, rest) = quoted(alloc, s)?;
        Ok(rest)
    } else {
        let (_scalar, rest) = unquoted(alloc, s)?;
        Ok(rest)
    }
}

/// How many line feeds there are.
pub(crate) fn line_feeds(bytes: &[u8]) -> usize {
    let mut count = 0usize;
    for byte in bytes {
        if *byte == b'\n' {
            count = count.saturating_add(1);
        }
    }
    count
}

impl Tree<'_> {
    // Reads what comes first in a node that isn't whole: a comma, a bracket or brace, a header, a pair or an entry.
    // Answers the node in which reading goes on, and what is left; nothing where the document is at its end.
    fn step<'s>(&mut self, at: usize, s: &'s str) -> Option<(usize, &'s str)> {
        self.count_lines(s);
        let byte = first(s);
        if byte == b',' {
            Some((at, behind(s)))
        } else if byte == b']' || byte == b'}' {
            Some((self.node(at).back, behind(s)))
        } else if self.is_array(at) {
            self.value(at, at, "", s)
        } else if byte == b'[' {
            self.header(behind(s))
        } else {
            self.pair(at, s)
        }
    }

    // Notes the line of what is left, of which less is left than before.
    fn count_lines(&mut self, rest: &str) {
        let place = self.place(rest);
        let text = self.text;
        let passed = text.as_bytes().get(self.counted..place).unwrap_or(&[]);
        self.line = self.line.saturating_add(line_feeds(passed));
        self.counted = place;
    }

    // The place of what is left.
    fn place(&self, rest: &str) -> usize {
        self.text.len().saturating_sub(rest.len())
    }

    // A header, behind its first bracket. Its last ones are left, and lead back to its table.
    fn header<'s>(&mut self, s: &'s str) -> Option<(usize, &'s str)> {
        let is_of_entry = first(s) == b'[';
        let inside = if is_of_entry { behind(s) } else { s };
        let (key, rest) = self.key_at(skip_ws(inside))?;
        let holder = self.along(Tree::ROOT, key.path.as_slice());
        let table = if is_of_entry {
            self.entry(holder, key.last.as_str())
        } else {
            self.enter(holder, key.last.as_str())
        };
        Some((table, rest))
    }

    // A pair of a table, as far as `value` reads its value.
    fn pair<'s>(&mut self, at: usize, s: &'s str) -> Option<(usize, &'s str)> {
        let (key, rest) = self.key_at(s)?;
        let holder = self.along(at, key.path.as_slice());
        self.value(at, holder, key.last.as_str(), skip_ws(behind(rest)))
    }

    // A key that comes first, and what is left.
    fn key_at<'s>(&mut self, s: &'s str) -> Option<(Key, &'s str)> {
        match dotted_key(self.alloc, s) {
            Ok(read) => Some(read),
            Err(fault) => {
                self.stop(fault);
                None
            }
        }
    }

    // Notes that reading stopped, if for want of memory.
    fn stop(&mut self, fault: ParseError) {
        if let ParseError::OutOfMemory = fault {
            self.is_lost = true;
        }
    }

    // The table at the end of a path.
    fn along(&mut self, from: usize, path: &[String]) -> usize {
        let mut holder = from;
        for part in path {
            holder = self.enter(holder, part.as_str());
        }
        holder
    }

    // The table at a key: of an array of tables the last one, and a new one where there is none.
    fn enter(&mut self, holder: usize, key: &str) -> usize {
        let place = self.child(holder, key);
        if place == 0 {
            self.section(holder, key, Shape::Table)
        } else if self.is_array(place) {
            self.node(place).last
        } else {
            place
        }
    }

    // A new table in the array at a key.
    fn entry(&mut self, holder: usize, key: &str) -> usize {
        let mut array = self.child(holder, key);
        if array == 0 {
            array = self.section(holder, key, Shape::Array);
        }
        self.section(array, "", Shape::Table)
    }

    // Adds a node that has no brackets of its own.
    fn section(&mut self, holder: usize, key: &str, shape: Shape) -> usize {
        let node = Node {
            shape,
            line: self.line,
            back: self.len(),
            ..DOCUMENT
        };
        self.add(holder, key, node)
    }

    // Reads a scalar, or the opening bracket or brace of a value; answers where reading goes on, which is `at` behind a
    // scalar.
    fn value<'s>(
        &mut self,
        at: usize,
        holder: usize,
        key: &str,
        s: &'s str,
    ) -> Option<(usize, &'s str)> {
        let byte = first(s);
        if byte == b'[' {
            Some((self.opened(at, holder, key, Shape::Array), behind(s)))
        } else if byte == b'{' {
            Some((self.opened(at, holder, key, Shape::Table), behind(s)))
        } else {
            match behind_scalar(self.alloc, s) {
                Ok(rest) => {
                    self.add_scalar(holder, key, self.place(s), self.place(rest));
                    Some((at, rest))
                }
                Err(fault) => {
                    self.stop(fault);
                    None
                }
            }
        }
    }

    // Adds an array or a table that has brackets or braces.
    fn opened(&mut self, at: usize, holder: usize, key: &str, shape: Shape) -> usize {
        let node = Node {
            shape,
            line: self.line,
            back: at,
            ..DOCUMENT
        };
        self.add(holder, key, node)
    }

    fn add_scalar(&mut self, holder: usize, key: &str, from: usize, to: usize) {
        let node = Node {
            shape: Shape::Scalar,
            line: self.line,
            from,
            to,
            ..DOCUMENT
        };
        let _place = self.add(holder, key, node);
    }
}
