//! What is told of a name that isn't there: one that is and may be meant, a few edits away, with which the loader takes
//! the entry. Where none may be, what else is known of it: that it is there for another use, or which ones there are.
use crate::draft::Draft;
use crate::form::is_one_of;
use crate::line_words::{UNITS, Word, begins_as_number, words_of};
use crate::lists::Kind;
use crate::look::Look;
use crate::names::{
    KnownNames, MOST_EDITS, Name, actions_of_all, federates_of, operands_of, ports_of_all,
    triggers_of,
};
use crate::writing::{OtherText, push_changed};
use loadfed::LoadFault;
use plan::{Plan, PlanFault};
use plan_names::Text;
use reactor_program::ProgramFault;
use std::fmt;

/// What it costs to compare a name with another, as this many bytes that are loaded.
const COMPARING: usize = 128;

/// What can be done with a name that stands behind one of these in a line.
const USES: &[(&str, &str)] = &[("in", "can only be read"), ("out", "can only be set")];

const WITHOUT_STARTUP: &str =
    "there only where startup is a trigger of one of the federate's reactions, and here it is of none";

const OF_ACTION: &str =
    "no output, and the name of an action: schedule gives that a value, as schedule act 5 ms 7";

/// What is told of a name that isn't there.
#[derive(Clone, Copy)]
pub(crate) struct Guess<'a> {
    wrong: Name<'a>,
    known: Known<'a>,
    /// The node of the text that has the name.
    pub(crate) place: usize,
}

/// What is known of a name that isn't there.
#[derive(Clone, Copy)]
enum Known<'a> {
    /// This one may be meant.
    Meant(Name<'a>),
    /// It is there so alone, and can be used as this says.
    Alone(Name<'a>, &'static str),
    /// It is there, and isn't what it has to be.
    Other(&'static str),
    /// It is a physical action, of which there are these.
    Physical(&'a [Text]),
    Nothing,
}

impl<'a> Guess<'a> {
    // It has no name that may be meant.
    fn of(place: usize, wrong: &'a str, known: Known<'a>) -> Option<Guess<'a>> {
        Some(Guess {
            wrong: Name::of(wrong),
            known,
            place,
        })
    }
}

impl fmt::Display for Guess<'_> {
    fn fmt<W: fmt::Write>(&self, f: &mut fmt::Formatter<W>) -> fmt::Result {
        let wrong = self.wrong;
        match self.known {
            Known::Meant(meant) => write!(f, "no {wrong}, did you mean {meant}? "),
            Known::Alone(name, use_of_it) => write!(f, "{wrong} {use_of_it}, as {name}; "),
            Known::Other(what) => write!(f, "{wrong} is {what}; "),
            Known::Physical(names) => {
                let names = Listed(names);
                write!(
                    f,
                    "{wrong} is no physical action of this federate; {names}; "
                )
            }
            Known::Nothing => write!(f, "no {wrong}; "),
        }
    }
}

// Names that there are, with commas between them.
#[derive(Drop)]
struct Listed<'a>(&'a [Text]);

impl fmt::Display for Listed<'_> {
    fn fmt<W: fmt::Write>(&self, f: &mut fmt::Formatter<W>) -> fmt::Result {
        let mut before = "there are ";
        for name in self.0 {
            let name = name.as_str();
            write!(f, "{before}{name}")?;
            before = ", ";
        }
        if self.0.is_empty() {
            write!(f, "there is none")
        } else {
            Ok(())
        }
    }
}

/// A text that was refused: the entry in which it stands, its node, and the file around the entry.
#[derive(Clone, Copy)]
pub(crate) struct Part<'p> {
    pub(crate) entry: usize,
    pub(crate) place: usize,
    pub(crate) before: &'p Draft,
    pub(crate) behind: &'p str,
}

/// What is told where the last fault is that this text names something that isn't there.
pub(crate) fn guess_of<'a>(look: &mut Look<'a>, kind: Kind, part: &Part<'_>) -> Option<Guess<'a>> {
    let (fault, about) = look.take();
    let guess = match &fault {
        Some(LoadFault::UnknownAction) => guess_of_input(look, part),
        Some(LoadFault::Plan(PlanFault::UnknownName(_))) => guess_of_port(look, part),
        Some(
            LoadFault::Program {
                federate: _,
                fault: ProgramFault::UnknownOperand { .. },
            },
        ) => guess_of_operand(look, kind, part),
        _ => None,
    };
    look.put_back(fault, about);
    guess
}

// Of a recorded input: another action, or else another federate. It is looked at alone, as there may be many before it.
fn guess_of_input<'a>(look: &mut Look<'a>, part: &Part<'_>) -> Option<Guess<'a>> {
    let plan = look.plan?;
    let mut before = Draft::new(look.alloc);
    before.push("input = [");
    let alone = Part {
        entry: part.entry,
        place: part.place,
        before: &before,
        behind: part.behind,
    };
    let guess = guess_of_action(look, &alone, plan);
    if guess.is_some() {
        return guess;
    }
    match guess_of_federate(look, &alone, plan) {
        None => unknown_input(look, part, plan),
        guess => guess,
    }
}

// Of a recorded input for which none may be meant: that its federate isn't there, or which physical actions that has.
fn unknown_input<'a>(look: &Look<'a>, part: &Part<'_>, plan: &'a Plan) -> Option<Guess<'a>> {
    let tree = look.tree;
    let place = tree.child(part.entry, "federate");
    let named = tree.said(place);
    match plan
        .federates()
        .iter()
        .find(|federate| federate.name.is(named))
    {
        Some(federate) => {
            let physical = Known::Physical(federate.slots.physical.as_slice());
            guess_of_name(part.place, tree.said(part.place), physical)
        }
        None => guess_of_name(place, named, Known::Nothing),
    }
}

// What is told of a text that may be a name; nothing of another, which may be long.
fn guess_of_name<'a>(place: usize, wrong: &'a str, known: Known<'a>) -> Option<Guess<'a>> {
    if Name::of(wrong).is_possible() {
        Guess::of(place, wrong, known)
    } else {
        None
    }
}

fn guess_of_action<'a>(look: &mut Look<'a>, part: &Part<'_>, plan: &'a Plan) -> Option<Guess<'a>> {
    let actions = actions_of_all(look.alloc, plan);
    guess_among(look, part, &actions)
}

fn guess_of_federate<'a>(
    look: &mut Look<'a>,
    part: &Part<'_>,
    plan: &'a Plan,
) -> Option<Guess<'a>> {
    let federates = federates_of(look.alloc, plan);
    let place = look.tree.child(part.entry, "federate");
    let part = Part { place, ..*part };
    guess_among(look, &part, &federates)
}

// Of a connection.
fn guess_of_port<'a>(look: &mut Look<'a>, part: &Part<'_>) -> Option<Guess<'a>> {
    let ports = ports_of_all(look.alloc, look.tree);
    match guess_among(look, part, &ports) {
        None => other_port(look, part, &ports),
        guess => guess,
    }
}

// Of a connection's port that is there: that it is one of the other kind.
fn other_port<'a>(look: &Look<'a>, part: &Part<'_>, ports: &KnownNames<'_>) -> Option<Guess<'a>> {
    let tree = look.tree;
    let wrong = tree.said(part.place);
    if !ports.has(&Name::of(wrong)) {
        return None;
    }
    let what = if part.place == tree.child(part.entry, "from") {
        "an input, and stands at from"
    } else {
        "an output, and stands at to"
    };
    Guess::of(part.place, wrong, Known::Other(what))
}

// Of a reaction's trigger or line.
fn guess_of_operand<'a>(look: &mut Look<'a>, kind: Kind, part: &Part<'_>) -> Option<Guess<'a>> {
    let names = match kind {
        Kind::Trigger => triggers_of(look.alloc, look.tree, look.federate),
        Kind::Line => operands_of(look.alloc, look.tree, look.federate),
        Kind::Shape | Kind::Other => return None,
    };
    match guess_among(look, part, &names) {
        None => unknown_in(look, part, &names),
        guess => guess,
    }
}

// Of a text: the first of its words for which one of these names may be meant.
fn guess_among<'a>(
    look: &mut Look<'a>,
    part: &Part<'_>,
    names: &KnownNames<'a>,
) -> Option<Guess<'a>> {
    let tree = look.tree;
    let Ok(words) = words_of(look.alloc, tree.said(part.place)) else {
        look.lose();
        return None;
    };
    for word in words.as_slice() {
        if let Some(meant) = meant_by(look, part, words.as_slice(), word.said, names) {
            return Guess::of(part.place, word.said, Known::Meant(meant));
        }
    }
    None
}

// The name that may be meant by a word of a text: of those near it the nearest with which the loader takes the entry.
fn meant_by<'a>(
    look: &mut Look<'_>,
    part: &Part<'_>,
    words: &[Word<'_>],
    word: &str,
    names: &KnownNames<'a>,
) -> Option<Name<'a>> {
    let wrong = Name::of(word);
    if !wrong.is_possible() || !look.may_guess(names.len().saturating_mul(COMPARING)) {
        return None;
    }
    let Ok(near) = names.near(look.alloc, &wrong) else {
        look.lose();
        return None;
    };
    for edits in 0..=MOST_EDITS {
        for other in near.as_slice() {
            if other.edits == edits && is_taken(look, part, words, word, &other.name) {
                return Some(other.name);
            }
        }
    }
    None
}

// Whether the loader takes the entry with this name wherever its text has the word.
fn is_taken(
    look: &mut Look<'_>,
    part: &Part<'_>,
    words: &[Word<'_>],
    word: &str,
    name: &Name<'_>,
) -> bool {
    let mut text = Draft::new(look.alloc);
    push_renamed(words, word, name, &mut text);
    let mut file = Draft::new(look.alloc);
    file.append(part.before);
    let other = OtherText {
        place: part.place,
        text: text.as_slice(),
    };
    push_changed(look.tree, part.entry, Some(other), &mut file);
    file.push(part.behind);
    if text.is_lost() {
        file.lose();
    }
    look.takes(&file)
}

// Adds a text of these words, with this name in the place of each that is `wrong`.
fn push_renamed(words: &[Word<'_>], wrong: &str, name: &Name<'_>, out: &mut Draft) {
    for word in words {
        out.push(word.mark);
        if word.said == wrong {
            name.push_to(out);
        } else {
            out.push(word.said);
        }
    }
}

// Of a text: the first of its names that is none of these.
fn unknown_in<'a>(
    look: &mut Look<'a>,
    part: &Part<'_>,
    names: &KnownNames<'_>,
) -> Option<Guess<'a>> {
    let tree = look.tree;
    let Ok(words) = words_of(look.alloc, tree.said(part.place)) else {
        look.lose();
        return None;
    };
    let mut is_behind_number = false;
    for word in words.as_slice() {
        let wrong = Name::of(word.said);
        let is_unit = is_behind_number && is_one_of(word.said, UNITS);
        if wrong.is_possible() && !is_unit && !names.has(&wrong) {
            return Guess::of(part.place, word.said, known_of(&wrong, names));
        }
        if !word.said.is_empty() {
            is_behind_number = begins_as_number(word.said);
        }
    }
    None
}

// What is known of a name of a line that none of these is near: that it is a word of other languages, or what it can be
// used for, if it is there.
fn known_of<'a>(wrong: &Name<'a>, names: &KnownNames<'_>) -> Known<'a> {
    if wrong.is_word(&["true", "false"]) {
        return Known::Other("no value: values are whole numbers, as 1 for true and 0 for false");
    }
    if wrong.is_behind(&["in", "has"], "startup") {
        return Known::Other(WITHOUT_STARTUP);
    }
    // actions alone are there without a front, and behind in. too
    if wrong.is_of_output() && names.has(&wrong.behind("")) && names.has(&wrong.behind("in")) {
        return Known::Other(OF_ACTION);
    }
    for (front, use_of_it) in USES {
        let name = wrong.behind(*front);
        if names.has(&name) {
            return Known::Alone(name, *use_of_it);
        }
    }
    Known::Nothing
}
