//! Reactions of a federate that isn't taken.
use crate::draft::Draft;
use crate::federates::look_at_count;
use crate::keys::put_entry;
use crate::lists::{Entries, Kind, sift};
use crate::look::Look;
use crate::tree::Tree;
use crate::writing::push_value;

/// How many reactions of a federate are looked at.
const MOST_REACTIONS: usize = 300;

/// Finds what is wrong with the reactions of a federate, in a file up to them.
pub(crate) fn look_at_reactions(look: &mut Look<'_>, federate: usize, file: &mut Draft) {
    let tree = look.tree;
    let mut at = tree.first_of(federate, "reaction");
    if at == 0 {
        return;
    }
    look_at_count(look, tree.node(at).holder);
    look.is_counted = false;
    look.federate = federate;
    file.push(", reaction = [");
    if has_startup(tree, at) {
        file.push("{ triggers = [\"startup\"] }, ");
    }
    for number in 0..MOST_REACTIONS {
        if at == 0 {
            break;
        }
        look.reaction = number.saturating_add(1);
        look_at_reaction(look, at, file);
        at = tree.node(at).next;
    }
}

/// Whether one of the reactions from this one on is triggered by startup.
pub(crate) fn has_startup(tree: &Tree<'_>, first: usize) -> bool {
    let mut at = first;
    for _ in 0..tree.len() {
        if at == 0 {
            break;
        }
        if is_of_startup(tree, at) {
            return true;
        }
        at = tree.node(at).next;
    }
    false
}

fn is_of_startup(tree: &Tree<'_>, reaction: usize) -> bool {
    let mut at = tree.first_of(reaction, "triggers");
    for _ in 0..tree.len() {
        if at == 0 {
            break;
        }
        if tree.said(at) == "startup" {
            return true;
        }
        at = tree.node(at).next;
    }
    false
}

// Finds what is wrong with a reaction.
fn look_at_reaction(look: &mut Look<'_>, reaction: usize, around: &Draft) {
    if !is_refused(look, reaction, around) {
        return;
    }
    if look.is_about_shape() {
        put_entry(look, reaction);
        return;
    }
    let before = look.len();
    look_at_texts(look, reaction, around);
    // Nothing of it is wrong by itself.
    if look.len() == before && look.is_whole && is_refused(look, reaction, around) {
        look.number(0);
        look.add(look.tree.line(reaction));
    }
}

// Whether a reaction is refused behind these.
fn is_refused(look: &mut Look<'_>, reaction: usize, around: &Draft) -> bool {
    let mut file = Draft::new(look.alloc);
    file.append(around);
    push_value(look.tree, reaction, &mut file);
    file.push("]}]");
    look.refuses(&file)
}

// Finds the triggers and lines that are wrong in a reaction of right shape.
fn look_at_texts(look: &mut Look<'_>, reaction: usize, around: &Draft) {
    let tree = look.tree;
    let mut file = Draft::new(look.alloc);
    file.append(around);
    file.push("{ triggers = [");
    let triggers = Entries::of(look, tree.child(reaction, "triggers"));
    if sift(look, Kind::Trigger, &triggers, &mut file, "]}]}]") == 0 {
        file.push("\"startup\"");
    }
    file.push("], body = [");
    let body = tree.child(reaction, "body");
    if body != 0 {
        let lines = Entries::of(look, body);
        sift(look, Kind::Line, &lines, &mut file, "]}]}]");
    }
}
