//! Lists of which each entry is looked at behind those before it that were taken.
use crate::bad_lines::put_bad_line;
use crate::draft::Draft;
use crate::guesses::{Part, guess_of};
use crate::keys::put_entry;
use crate::look::{About, Look};
use crate::writing::push_value;
use loadfed::LoadFault;
use plan::PlanFault;
use plan_names::PortName;
use reactor_program::ProgramFault;
use std::alloc::Global;

/// How often a list is asked about at most. Before, enough was found or asked.
const MOST_STEPS: usize = 1_000_000;

/// Where the text of an entry ends, and the node where the entry stands.
#[derive(Clone, Copy)]
struct Entry {
    end: usize,
    place: usize,
}

/// Entries of a list as they are written, one behind the other.
#[derive(Drop)]
pub(crate) struct Entries {
    pub(crate) text: Draft,
    entries: Vec<Entry>,
}

impl Entries {
    pub(crate) fn new(alloc: Global) -> Entries {
        Entries {
            text: Draft::new(alloc),
            entries: Vec::new(alloc),
        }
    }

    /// The entries of an array.
    pub(crate) fn of(look: &Look<'_>, array: usize) -> Entries {
        let tree = look.tree;
        let mut entries = Entries::new(look.alloc);
        let mut at = tree.node(array).first;
        for _ in 0..tree.len() {
            if at == 0 {
                break;
            }
            push_value(tree, at, &mut entries.text);
            entries.end(at);
            at = tree.node(at).next;
        }
        entries
    }

    /// Ends the entry that was written last, which stands at this node.
    pub(crate) fn end(&mut self, place: usize) {
        self.text.push(",\n");
        let end = self.text.as_slice().len();
        if self.entries.push(Entry { end, place }).is_err() {
            self.text.lose();
        }
    }

    pub(crate) fn len(&self) -> usize {
        self.entries.len()
    }

    // The node of an entry.
    fn place(&self, number: usize) -> usize {
        match self.entries.get(number) {
            Some(entry) => entry.place,
            None => 0,
        }
    }

    // Where the text of this many entries ends.
    fn end_of(&self, count: usize) -> usize {
        match count.checked_sub(1) {
            Some(last) => match self.entries.get(last) {
                Some(entry) => entry.end,
                None => self.text.as_slice().len(),
            },
            None => 0,
        }
    }

    // The text of the entries from one on up to another.
    fn between(&self, from: usize, to: usize) -> &[u8] {
        self.text
            .as_slice()
            .get(self.end_of(from)..self.end_of(to))
            .unwrap_or(&[])
    }
}

/// What the entries of a list are.
#[derive(Clone, Copy)]
pub(crate) enum Kind {
    /// Recorded inputs of which the shape alone is looked at.
    Shape,
    Trigger,
    Line,
    Other,
}

/// Finds the entries of a list that are refused behind `kept` and those before them that aren't, which are added to
/// `kept`; answers how many these are.
pub(crate) fn sift(
    look: &mut Look<'_>,
    kind: Kind,
    entries: &Entries,
    kept: &mut Draft,
    behind: &str,
) -> usize {
    let mut count = 0usize;
    let mut from = 0usize;
    let mut step = entries.len();
    for _ in 0..MOST_STEPS {
        if from >= entries.len() || look.is_over() {
            break;
        }
        let to = from.saturating_add(step).min(entries.len());
        let next = entries.between(from, to);
        step = to.saturating_sub(from);
        if !is_refused(look, kind, kept, next, behind) {
            kept.add(next);
            count = count.saturating_add(step);
            from = to;
            step = step.saturating_mul(2);
        } else if step > 1 {
            step /= 2;
        } else {
            put(look, kind, from, entries.place(from), kept, behind);
            from = to;
        }
    }
    look.is_counted = false;
    count
}

// Whether entries are refused in a file behind what was kept.
fn is_refused(look: &mut Look<'_>, kind: Kind, kept: &Draft, next: &[u8], behind: &str) -> bool {
    let mut file = Draft::new(look.alloc);
    file.append(kept);
    file.add(next);
    file.push(behind);
    match kind {
        Kind::Shape => look.refuses_shape(&file),
        Kind::Trigger | Kind::Line | Kind::Other => look.refuses(&file),
    }
}

// Adds the last fault, which is one of this entry, the one of this number from 0 on, in a file behind what was kept.
fn put(look: &mut Look<'_>, kind: Kind, number: usize, entry: usize, kept: &Draft, behind: &str) {
    if is_passed(look) {
        return;
    }
    if look.is_about_shape() {
        put_entry(look, entry);
        return;
    }
    match kind {
        Kind::Trigger => look.number(0),
        Kind::Line => look.number(number.saturating_add(1)),
        Kind::Shape | Kind::Other => {}
    }
    let place = place_in(look, entry);
    if let About::Limit = look.about() {
        let tree = look.tree;
        look.add_count(tree.line(place), tree.node(entry).holder);
        return;
    }
    let part = Part {
        entry,
        place,
        before: kept,
        behind,
    };
    put_told(look, kind, &part);
}

// Adds the last fault, at the line of this text, with what is told of a line of no form, or of a name that isn't there.
fn put_told(look: &mut Look<'_>, kind: Kind, part: &Part<'_>) {
    if is_bad_line(look) {
        put_bad_line(look, part.place);
        return;
    }
    match guess_of(look, kind, part) {
        Some(guess) => {
            let what = format!(in look.alloc; "{guess}");
            look.add_made(look.tree.line(guess.place), what);
        }
        None => look.add(look.tree.line(part.place)),
    }
}

// Whether the last fault is that a line has no form.
fn is_bad_line(look: &Look<'_>) -> bool {
    matches!(
        look.fault(),
        Some(LoadFault::Program {
            federate: _,
            fault: ProgramFault::BadLine { .. },
        })
    )
}

// Whether the last fault isn't told: that there are too many of something a second time, and that a name isn't there
// where not all names were kept.
fn is_passed(look: &mut Look<'_>) -> bool {
    match look.about() {
        About::Name => !look.is_whole,
        About::Count | About::Limit => {
            let is_counted = look.is_counted;
            look.is_counted = true;
            is_counted
        }
        About::Shape | About::Other => false,
    }
}

// The node in an entry which the last fault is about, or else the entry.
fn place_in(look: &Look<'_>, entry: usize) -> usize {
    let tree = look.tree;
    let place = match look.fault() {
        Some(LoadFault::UnknownAction) => tree.child(entry, "action"),
        Some(LoadFault::Plan(PlanFault::RepeatedName(_))) => tree.child(entry, "name"),
        Some(LoadFault::Plan(PlanFault::TwoSources(_))) => tree.child(entry, "to"),
        Some(LoadFault::Plan(PlanFault::UnknownName(port))) => {
            let from = tree.child(entry, "from");
            if is_port(tree.said(from), port) {
                from
            } else {
                tree.child(entry, "to")
            }
        }
        _ => 0,
    };
    if place == 0 { entry } else { place }
}

// Whether a text is how this port is named.
fn is_port(text: &str, port: &PortName) -> bool {
    match text.split_once('.') {
        Some((federate, name)) => port.federate.is(federate) && port.port.is(name),
        None => false,
    }
}
