use std::alloc::Global;

/// Of how many keys of a table one is looked for. A table of either file has fewer.
const MOST_KEYS: usize = 256;

/// What stands at a place of a document.
#[derive(Clone, Copy)]
pub(crate) enum Shape {
    Scalar,
    Array,
    Table,
}

/// A value of a document, and where it stands. Other nodes are named by their numbers; 0 is the document's, and so
/// none.
#[derive(Clone, Copy)]
pub(crate) struct Node {
    pub(crate) shape: Shape,
    /// Of its key, of its header, or of its first byte; from 1.
    pub(crate) line: usize,
    /// The bytes of a scalar: from the first one on, and up to the second.
    pub(crate) from: usize,
    pub(crate) to: usize,
    /// The node in which reading goes on after it.
    pub(crate) back: usize,
    /// The node in which it stands, and the next one there.
    pub(crate) holder: usize,
    pub(crate) next: usize,
    /// Of the nodes in it the first and the last.
    pub(crate) first: usize,
    pub(crate) last: usize,
    /// Where its key stands among all keys; none has an entry of an array.
    pub(crate) key: usize,
    pub(crate) key_end: usize,
}

/// The document itself, of which nothing is known yet.
pub(crate) const DOCUMENT: Node = Node {
    shape: Shape::Table,
    line: 1,
    from: 0,
    to: 0,
    back: 0,
    holder: 0,
    next: 0,
    first: 0,
    last: 0,
    key: 0,
    key_end: 0,
};

/// Where the values of a document stand. The document itself is the first of the nodes.
#[derive(Drop)]
pub(crate) struct Tree<'a> {
    pub(crate) alloc: Global,
    pub(crate) text: &'a str,
    nodes: Vec<Node>,
    keys: String,
    /// While it is read: the bytes whose lines are counted, and the line behind them.
    pub(crate) counted: usize,
    pub(crate) line: usize,
    /// Whether an allocation failed, and something isn't there.
    pub(crate) is_lost: bool,
}

impl<'a> Tree<'a> {
    /// The node of the document.
    pub(crate) const ROOT: usize = 0;

    /// A tree of the document alone.
    pub(crate) fn new(alloc: Global, text: &'a str) -> Tree<'a> {
        let mut nodes = Vec::new(alloc);
        let is_lost = nodes.push(DOCUMENT).is_err();
        Tree {
            alloc,
            text,
            nodes,
            keys: String::new(alloc),
            counted: 0,
            line: 1,
            is_lost,
        }
    }

    /// How many nodes there are.
    pub(crate) fn len(&self) -> usize {
        self.nodes.len()
    }

    pub(crate) fn node(&self, place: usize) -> &Node {
        match self.nodes.get(place) {
            Some(node) => node,
            None => &DOCUMENT,
        }
    }

    /// The line of a node.
    pub(crate) fn line(&self, place: usize) -> usize {
        self.node(place).line
    }

    /// The key at which a node stands.
    pub(crate) fn key(&self, place: usize) -> &str {
        let node = self.node(place);
        self.keys.as_str().get(node.key..node.key_end).unwrap_or("")
    }

    /// A scalar as it is spelled.
    pub(crate) fn scalar(&self, place: usize) -> &str {
        let node = self.node(place);
        match self.text.get(node.from..node.to) {
            Some(text) => text,
            None => "",
        }
    }

    /// What stands between the quotes of a text on one line.
    pub(crate) fn said(&self, place: usize) -> &str {
        let spelled = self.scalar(place);
        spelled
            .get(1..spelled.len().saturating_sub(1))
            .unwrap_or("")
    }

    /// Whether a node is an array.
    pub(crate) fn is_array(&self, place: usize) -> bool {
        matches!(self.node(place).shape, Shape::Array)
    }

    /// Whether a node is a table.
    pub(crate) fn is_table(&self, place: usize) -> bool {
        matches!(self.node(place).shape, Shape::Table)
    }

    /// The node at a key of a table, or none.
    pub(crate) fn child(&self, holder: usize, key: &str) -> usize {
        let mut at = self.node(holder).first;
        for _ in 0..MOST_KEYS {
            if at == 0 || self.key(at) == key {
                return at;
            }
            at = self.node(at).next;
        }
        0
    }

    /// The first entry of the array at a key of a table, or none.
    pub(crate) fn first_of(&self, holder: usize, key: &str) -> usize {
        let array = self.child(holder, key);
        if self.is_array(array) {
            self.node(array).first
        } else {
            0
        }
    }

    /// How many nodes stand in a node.
    pub(crate) fn count(&self, holder: usize) -> usize {
        let mut count = 0usize;
        let mut at = self.node(holder).first;
        for _ in 0..self.len() {
            if at == 0 {
                break;
            }
            count = count.saturating_add(1);
            at = self.node(at).next;
        }
        count
    }

    /// Adds a node at a key behind those that its holder has, and answers its number.
    pub(crate) fn add(&mut self, holder: usize, key: &str, node: Node) -> usize {
        let place = self.nodes.len();
        let begin = self.keys.len();
        if self.keys.push_str(key).is_err() {
            self.is_lost = true;
        }
        let node = Node {
            holder,
            key: begin,
            key_end: self.keys.len(),
            ..node
        };
        if self.nodes.push(node).is_err() {
            self.is_lost = true;
        }
        self.append(holder, place);
        place
    }

    // Makes a node the last of its holder's.
    fn append(&mut self, holder: usize, place: usize) {
        let before = self.node(holder).last;
        if let Some(node) = self.nodes.get_mut(holder) {
            node.last = place;
            if before == 0 {
                node.first = place;
            }
        }
        if before != 0 {
            self.chain(before, place);
        }
    }

    // Has a node follow the one before it.
    fn chain(&mut self, before: usize, place: usize) {
        if let Some(node) = self.nodes.get_mut(before) {
            node.next = place;
        }
    }
}
