//! A refused federation file: its federates one by one, then all their names, and then its connections.
use crate::draft::Draft;
use crate::form::{FEDERATE, FEDERATION_FILE};
use crate::keys::{is_refused, look_at_keys};
use crate::lists::{Entries, Kind, sift};
use crate::look::{About, Look};
use crate::reactions::look_at_reactions;
use crate::tree::Tree;
use crate::writing::push_value;

/// What stands before the federates.
const BEFORE: &str = "stop = \"0\"\nfederate = [";

/// The lists of names that connections need, and those of the other names, in the order in which they are looked at.
const PORTS: &[&str] = &["inputs", "outputs"];

const OTHERS: &[&str] = &["timers", "actions", "physical", "state"];

/// Finds what is wrong with a federation file.
pub(crate) fn look_at_federation(look: &mut Look<'_>) {
    look_at_keys(look, &FEDERATION_FILE, Tree::ROOT);
    let mut federates = Entries::new(look.alloc);
    let is_whole = look_at_federates(look, &mut federates);
    let mut file = Draft::new(look.alloc);
    file.push(BEFORE);
    let kept = sift(look, Kind::Other, &federates, &mut file, "]");
    look.is_whole = is_whole && kept != 0 && kept == federates.len();
    if kept == 0 {
        file.push("{ name = \"a\" }");
    }
    file.push("]\nconnection = [");
    let array = look.tree.child(Tree::ROOT, "connection");
    if look.tree.is_array(array) {
        let connections = Entries::of(look, array);
        sift(look, Kind::Other, &connections, &mut file, "]");
    }
}

// Finds what is wrong with each federate, and adds its name and its ports, as far as they are taken; answers whether
// all are.
fn look_at_federates(look: &mut Look<'_>, federates: &mut Entries) -> bool {
    let tree = look.tree;
    let mut is_whole = true;
    let mut at = tree.first_of(Tree::ROOT, "federate");
    for _ in 0..tree.len() {
        if at == 0 || look.is_over() {
            break;
        }
        let has_all = look_at_federate(look, at, federates);
        is_whole = is_whole && has_all;
        at = tree.node(at).next;
    }
    is_whole
}

// The same of one federate.
fn look_at_federate(look: &mut Look<'_>, place: usize, federates: &mut Entries) -> bool {
    let tree = look.tree;
    let mut file = Draft::new(look.alloc);
    file.push(BEFORE);
    push_value(tree, place, &mut file);
    file.push("]");
    if !look.refuses(&file) {
        push_ports(tree, place, federates);
        true
    } else if tree.is_table(place) {
        look_closely(look, place, federates)
    } else {
        look.put(
            tree.line(place),
            "no table stands here; ",
            FEDERATION_FILE.keys,
        );
        false
    }
}

// Adds the name and the ports of a federate that is taken.
fn push_ports(tree: &Tree<'_>, place: usize, federates: &mut Entries) {
    federates.text.push("{ name = ");
    push_value(tree, tree.child(place, "name"), &mut federates.text);
    for key in PORTS {
        let list = tree.child(place, key);
        if list != 0 {
            push_list(key, &mut federates.text);
            push_value(tree, list, &mut federates.text);
        }
    }
    federates.text.push("}");
    federates.end(place);
}

// Adds the key of a list behind other pairs.
fn push_list(key: &str, out: &mut Draft) {
    out.push(", ");
    out.push(key);
    out.push(" = ");
}

// Finds what is wrong with a federate that isn't taken: its keys, then its lists, each behind those before it.
fn look_closely(look: &mut Look<'_>, place: usize, federates: &mut Entries) -> bool {
    look_at_keys(look, &FEDERATE, place);
    look.is_whole = true;
    let mut file = Draft::new(look.alloc);
    file.push(BEFORE);
    file.push("{ ");
    let is_named = push_name(look, place, &mut file);
    look_at_lists(look, place, PORTS, &mut file);
    let has_ports = look.is_whole;
    if is_named {
        push_pairs(&file, federates);
        federates.end(place);
    }
    look_at_lists(look, place, OTHERS, &mut file);
    look_at_reactions(look, place, &mut file);
    is_named && has_ports
}

// Adds the pairs of a file of one federate.
fn push_pairs(file: &Draft, federates: &mut Entries) {
    let text = &mut federates.text;
    text.add(file.as_slice().get(BEFORE.len()..).unwrap_or(&[]));
    text.push("}");
    if file.is_lost() {
        text.lose();
    }
}

// Adds a federate's name, or any where it has none, and answers whether it has one.
fn push_name(look: &mut Look<'_>, place: usize, file: &mut Draft) -> bool {
    let tree = look.tree;
    let name = tree.child(place, "name");
    file.push("name = ");
    if name == 0 || is_refused(look, &FEDERATE, name) {
        file.push("\"a\"");
        look.is_whole = false;
        false
    } else {
        push_value(tree, name, file);
        true
    }
}

// Finds what is wrong with lists of a federate, and adds what is kept of them to the file.
fn look_at_lists(look: &mut Look<'_>, federate: usize, keys: &[&str], file: &mut Draft) {
    for key in keys {
        let array = look.tree.child(federate, key);
        if look.tree.is_array(array) {
            look_at_count(look, array);
            push_list(key, file);
            file.push("[");
            let entries = Entries::of(look, array);
            let kept = sift(look, Kind::Other, &entries, file, "]}]");
            file.push("]");
            look.is_whole = look.is_whole && kept == entries.len();
        } else if array != 0 {
            look.is_whole = false;
        }
    }
}

/// Finds that a list of a federate has more entries than its shape allows.
pub(crate) fn look_at_count(look: &mut Look<'_>, array: usize) {
    if is_refused(look, &FEDERATE, array) {
        if let About::Count = look.about() {
            look.add_count(look.tree.line(array), array);
            look.is_counted = true;
        }
    }
}
