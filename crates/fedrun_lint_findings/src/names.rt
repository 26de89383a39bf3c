//! Names that are there, and which of them are near one that isn't.
use crate::draft::Draft;
use crate::form::is_one_of;
use crate::reactions::has_startup;
use crate::tree::Tree;
use plan::Plan;
use plan_names::is_name;
use std::alloc::{AllocError, Global};
use std::fmt;
use strsim::osa_distance;

/// How many edits there are at most between names that are near each other: of each of two parts, which has at most 32
/// letters, a third.
pub(crate) const MOST_EDITS: usize = 20;

/// What a line has before the dot of an operand, and nothing.
const FRONTS: &[&str] = &["", "in", "has", "out"];

/// A name, alone or behind a front and a dot: a port behind its federate, or what a line says of an operand.
#[derive(Clone, Copy)]
pub(crate) struct Name<'a> {
    /// Empty where there is none.
    front: &'a str,
    name: &'a str,
}

impl<'a> Name<'a> {
    /// What a word says.
    pub(crate) fn of(word: &'a str) -> Name<'a> {
        match word.split_once('.') {
            Some((front, name)) => Name { front, name },
            None => Name {
                front: "",
                name: word,
            },
        }
    }

    /// The same name behind another front.
    pub(crate) fn behind(&self, front: &'a str) -> Name<'a> {
        Name {
            front,
            name: self.name,
        }
    }

    /// Whether it is one of these words, without a front.
    pub(crate) fn is_word(&self, words: &[&str]) -> bool {
        self.front.is_empty() && is_one_of(self.name, words)
    }

    /// Whether it is this name behind one of these fronts.
    pub(crate) fn is_behind(&self, fronts: &[&str], name: &str) -> bool {
        is_one_of(self.front, fronts) && self.name == name
    }

    /// Whether it stands where an output does.
    pub(crate) fn is_of_output(&self) -> bool {
        self.front == "out"
    }

    /// Whether something may be called so.
    pub(crate) fn is_possible(&self) -> bool {
        is_front(self.front) && is_name_or_startup(self.name)
    }

    // How many edits lead from it to another name; none where they are many for its length. Where what stands before
    // the dot of an operand is another word, the names are the same, and it is nearer than any other name.
    fn edits_to(&self, alloc: Global, other: &Name<'_>) -> Result<Option<usize>, AllocError> {
        if self.front == other.front {
            return few_edits(alloc, self.name, other.name);
        }
        if is_one_of(other.front, FRONTS) {
            return Ok(if self.name == other.name {
                Some(0)
            } else {
                None
            });
        }
        let fronts = few_edits(alloc, self.front, other.front)?;
        let names = few_edits(alloc, self.name, other.name)?;
        Ok(match (fronts, names) {
            (Some(fronts), Some(names)) => Some(fronts.saturating_add(names)),
            _ => None,
        })
    }

    /// Adds it to a text.
    pub(crate) fn push_to(&self, out: &mut Draft) {
        if !self.front.is_empty() {
            out.push(self.front);
            out.push(".");
        }
        out.push(self.name);
    }
}

fn is_front(text: &str) -> bool {
    is_one_of(text, FRONTS) || is_name(text.as_bytes())
}

// Startup is no name, and is read as one.
fn is_name_or_startup(text: &str) -> bool {
    text == "startup" || is_name(text.as_bytes())
}

/// How many edits lead from a name to another, where they are few for its length: one of so few is likely meant. Letters
/// that changed places are one edit. Of a name of one letter another one is as far as any, but for its case.
pub fn few_edits(alloc: Global, from: &str, to: &str) -> Result<Option<usize>, AllocError> {
    let few = from.len().max(3) / 3;
    let are_letters = from.len() == 1 && to.len() == 1;
    if from.len().abs_diff(to.len()) > few || (are_letters && !from.eq_ignore_ascii_case(to)) {
        return Ok(None);
    }
    let edits = osa_distance(alloc, from, to)?;
    Ok(if edits <= few { Some(edits) } else { None })
}

impl fmt::Display for Name<'_> {
    fn fmt<W: fmt::Write>(&self, f: &mut fmt::Formatter<W>) -> fmt::Result {
        let front = self.front;
        let name = self.name;
        if front.is_empty() {
            write!(f, "{name}")
        } else {
            write!(f, "{front}.{name}")
        }
    }
}

/// A name, and how many edits lead to it.
#[derive(Clone, Copy)]
pub(crate) struct Near<'a> {
    pub(crate) name: Name<'a>,
    pub(crate) edits: usize,
}

/// Names that are there. Where an allocation failed some are lost, which is told once they are looked at.
#[derive(Drop)]
pub(crate) struct KnownNames<'a> {
    names: Vec<Name<'a>>,
    is_lost: bool,
}

impl<'a> KnownNames<'a> {
    fn new(alloc: Global) -> KnownNames<'a> {
        KnownNames {
            names: Vec::new(alloc),
            is_lost: false,
        }
    }

    fn add(&mut self, front: &'a str, name: &'a str) {
        if self.names.push(Name { front, name }).is_err() {
            self.is_lost = true;
        }
    }

    // Adds the names of a list of a federate, each behind this front.
    fn add_list(&mut self, tree: &'a Tree<'a>, federate: usize, key: &str, front: &'a str) {
        let mut at = tree.first_of(federate, key);
        for _ in 0..tree.len() {
            if at == 0 {
                break;
            }
            let place = if tree.is_table(at) {
                tree.child(at, "name")
            } else {
                at
            };
            self.add(front, tree.said(place));
            at = tree.node(at).next;
        }
    }

    pub(crate) fn len(&self) -> usize {
        self.names.len()
    }

    /// Whether a name is one of these.
    pub(crate) fn has(&self, name: &Name<'_>) -> bool {
        for other in self.names.as_slice() {
            if other.front == name.front && other.name == name.name {
                return true;
            }
        }
        false
    }

    /// Those that are near a name; it itself is, where it is one of them.
    pub(crate) fn near(&self, alloc: Global, name: &Name<'_>) -> Result<Vec<Near<'a>>, AllocError> {
        if self.is_lost {
            return Err(AllocError);
        }
        let mut near = Vec::new(alloc);
        for other in self.names.as_slice() {
            if let Some(edits) = name.edits_to(alloc, other)? {
                near.push(Near {
                    name: *other,
                    edits,
                })?;
            }
        }
        Ok(near)
    }
}

/// The lists of a federate whose names trigger reactions.
const TRIGGERS: &[&str] = &["inputs", "timers", "actions", "physical"];

/// The lists whose names a line reads, sets or schedules, and what it has before them.
const OPERANDS: &[(&str, &str)] = &[
    ("state", ""),
    ("outputs", "out"),
    ("actions", ""),
    ("inputs", "in"),
    ("inputs", "has"),
    ("timers", "in"),
    ("timers", "has"),
    ("actions", "in"),
    ("actions", "has"),
    ("physical", "in"),
    ("physical", "has"),
];

/// What may trigger a reaction of a federate.
pub(crate) fn triggers_of<'a>(
    alloc: Global,
    tree: &'a Tree<'a>,
    federate: usize,
) -> KnownNames<'a> {
    let mut names = KnownNames::new(alloc);
    for key in TRIGGERS {
        names.add_list(tree, federate, key, "");
    }
    names.add("", "startup");
    names
}

/// What a line of a federate may name.
pub(crate) fn operands_of<'a>(
    alloc: Global,
    tree: &'a Tree<'a>,
    federate: usize,
) -> KnownNames<'a> {
    let mut names = KnownNames::new(alloc);
    for (key, front) in OPERANDS {
        names.add_list(tree, federate, key, front);
    }
    if has_startup(tree, tree.first_of(federate, "reaction")) {
        names.add("in", "startup");
        names.add("has", "startup");
    }
    names
}

/// The ports of all federates, each behind its federate.
pub(crate) fn ports_of_all<'a>(alloc: Global, tree: &'a Tree<'a>) -> KnownNames<'a> {
    let mut names = KnownNames::new(alloc);
    let mut at = tree.first_of(Tree::ROOT, "federate");
    for _ in 0..tree.len() {
        if at == 0 {
            break;
        }
        let federate = tree.said(tree.child(at, "name"));
        names.add_list(tree, at, "inputs", federate);
        names.add_list(tree, at, "outputs", federate);
        at = tree.node(at).next;
    }
    names
}

/// The physical actions of all federates of a plan.
pub(crate) fn actions_of_all<'a>(alloc: Global, plan: &'a Plan) -> KnownNames<'a> {
    let mut names = KnownNames::new(alloc);
    for federate in plan.federates() {
        for action in federate.slots.physical.as_slice() {
            names.add("", action.as_str());
        }
    }
    names
}

/// The federates of a plan.
pub(crate) fn federates_of<'a>(alloc: Global, plan: &'a Plan) -> KnownNames<'a> {
    let mut names = KnownNames::new(alloc);
    for federate in plan.federates() {
        names.add("", federate.name.as_str());
    }
    names
}
