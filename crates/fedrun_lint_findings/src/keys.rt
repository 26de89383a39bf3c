//! The shape of a table: each of its keys is looked at alone, in the least file that has the table.
use crate::draft::Draft;
use crate::form::{FORM_OF_INPUTS_FEDERATE, Form, form_in, form_of, has_tables, is_one_of};
use crate::look::{About, Look};
use crate::tree::Tree;
use crate::writing::{push_key, push_value};

const UNKNOWN: &str = "no key of this name stands here; ";

const MISSING: &str = "the key is missing here; ";

/// How many entries of an array are looked at one by one.
const MOST_ENTRIES: usize = 300;

/// Finds what is wrong with the keys of a table, but for arrays that are looked at elsewhere.
pub(crate) fn look_at_keys(look: &mut Look<'_>, form: &Form, table: usize) {
    let tree = look.tree;
    let mut at = tree.node(table).first;
    for _ in 0..tree.len() {
        if at == 0 || look.is_over() {
            break;
        }
        if !tree.is_array(at) || !is_one_of(tree.key(at), form.lists) {
            look_at_key(look, form, at);
        }
        at = tree.node(at).next;
    }
    for (key, _) in form.needed {
        if tree.child(table, key) == 0 {
            look_for_key(look, form, table, key);
        }
    }
}

// Finds what is wrong with a key, or with the entries of its array.
fn look_at_key(look: &mut Look<'_>, form: &Form, place: usize) {
    if !is_refused(look, form, place) {
        return;
    }
    let tree = look.tree;
    if !form.has(tree.key(place)) {
        look.put(tree.line(place), UNKNOWN, form.advice_on(tree.key(place)));
    } else if tree.is_array(place) {
        look_at_array(look, form, place);
    } else {
        put_shape(look, place, place);
    }
}

/// Whether a key with its value is refused for its shape.
pub(crate) fn is_refused(look: &mut Look<'_>, form: &Form, place: usize) -> bool {
    let mut file = up_to_value(look, form, place);
    push_value(look.tree, place, &mut file);
    file.push(form.behind);
    look.refuses_shape(&file)
}

// Finds what is wrong with an array that was refused: its entries that are wrong by themselves, or else all of it.
fn look_at_array(look: &mut Look<'_>, form: &Form, array: usize) {
    let before = look.len();
    let (fault, about) = look.take();
    look_at_entries(look, form, array);
    look.put_back(fault, about);
    if look.len() == before {
        put_shape(look, array, array);
    }
}

// Finds the entries of an array that are wrong by themselves.
fn look_at_entries(look: &mut Look<'_>, form: &Form, array: usize) {
    let tree = look.tree;
    let mut at = tree.node(array).first;
    for _ in 0..MOST_ENTRIES {
        if at == 0 {
            break;
        }
        let mut file = up_to_value(look, form, array);
        file.push("[");
        push_value(tree, at, &mut file);
        file.push("]");
        file.push(form.behind);
        if look.refuses_shape(&file) {
            put_shape(look, at, array);
        }
        at = tree.node(at).next;
    }
}

// Adds the last fault, one of shape, at the line of a node, with what stands at the key of another.
fn put_shape(look: &mut Look<'_>, place: usize, keyed: usize) {
    let tree = look.tree;
    let line = tree.line(place);
    if let About::Count = look.about() {
        look.add_count(line, keyed);
    } else if is_single(look, keyed) {
        put_single(look, line, keyed);
    } else {
        look.put(line, "", form_here(look, tree.key(keyed)));
    }
}

// What stands at a key of the file that is looked at.
fn form_here(look: &Look<'_>, key: &str) -> &'static str {
    if look.plan.is_some() && key == "federate" {
        FORM_OF_INPUTS_FEDERATE
    } else {
        form_of(key)
    }
}

// Whether a table stands in the place of an array of them.
fn is_single(look: &Look<'_>, place: usize) -> bool {
    let tree = look.tree;
    tree.is_table(place) && has_tables(tree.key(place), look.plan.is_some())
}

// Adds the last fault, at this line: that this table is one, and how several are written.
fn put_single(look: &mut Look<'_>, line: usize, table: usize) {
    let tree = look.tree;
    let key = tree.key(table);
    // All of these but the document's own are lists of a federate.
    let path = if tree.node(table).holder == Tree::ROOT {
        ""
    } else {
        "federate."
    };
    let what = format!(in look.alloc;
        "[{path}{key}] is one table, [[{path}{key}]] one of several; "
    );
    look.put_made(line, what, form_of(key));
}

// Finds that a key which isn't there is needed.
fn look_for_key(look: &mut Look<'_>, form: &Form, table: usize, key: &str) {
    let mut file = begin(look, form, key);
    file.push(form.behind);
    if look.refuses_shape(&file) {
        look.put(look.tree.line(table), MISSING, form_here(look, key));
    }
}

// The least file that has the table, up to its pairs and with all keys that it needs but this one.
fn begin(look: &Look<'_>, form: &Form, without: &str) -> Draft {
    let mut file = Draft::new(look.alloc);
    file.push(form.before);
    for (key, value) in form.needed {
        if *key != without {
            file.push(key);
            file.push(" = ");
            file.push(value);
            file.push(form.between);
        }
    }
    file
}

// The least file that has the table, up to the value at the key of a node.
fn up_to_value(look: &Look<'_>, form: &Form, place: usize) -> Draft {
    let mut file = begin(look, form, look.tree.key(place));
    push_key(look.tree, place, &mut file);
    file
}

/// Adds the last fault, one of an entry of an array: of a table what is wrong with its keys, if anything is.
pub(crate) fn put_entry(look: &mut Look<'_>, entry: usize) {
    let before = look.len();
    let (fault, about) = look.take();
    look_into_entry(look, entry);
    look.put_back(fault, about);
    if look.len() == before {
        put_shape(look, entry, look.tree.node(entry).holder);
    }
}

// Finds what is wrong with the keys of an entry of an array, if it is a table.
fn look_into_entry(look: &mut Look<'_>, entry: usize) {
    let tree = look.tree;
    if tree.is_table(entry) {
        if let Some(form) = form_in(tree.key(tree.node(entry).holder)) {
            look_at_keys(look, &form, entry);
        }
    }
}
